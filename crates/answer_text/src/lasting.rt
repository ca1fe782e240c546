ghost use Rattle.std.specs.Prelude.{◌≡◌, min, fold, map, is_some, IfOk};
ghost use Rattle.std.specs.List.{list_all, list_any};
ghost use Rattle.answer_text.specs.Lasting as spec;

use flow_base::{Memory, Text};
use std::alloc::Global;

/// How many milliseconds a piece may still be kept, and whether it is for its caller alone.
#[derive(Clone, Copy, Debug, PartialEq, Eq)]
pub struct Lasts {
    pub left_ms: u64,
    pub private: bool,
}

fn left_of(piece: Option<Lasts>) -> u64
    ensures { result ≡ spec.left_of piece }
{
    match piece {
        Some(lasts) => lasts.left_ms,
        None => 0,
    }
}

fn is_private(piece: Option<Lasts>) -> bool
    ensures { result ≡ spec.is_private piece }
{
    match piece {
        Some(lasts) => lasts.private,
        None => false,
    }
}

fn is_any_private(pieces: &[Option<Lasts>]) -> bool
    ensures { result ≡ list_any spec.is_private pieces.now }
{
    pieces.iter().any(|piece| is_private(*piece))
}

fn are_kept(pieces: &[Option<Lasts>]) -> bool
    ensures { result ≡ list_all is_some pieces.now }
{
    pieces.iter().all(|piece| piece.is_some())
}

/// The least of what is left of these pieces.
fn least_left(first: Option<Lasts>, more: &[Option<Lasts>]) -> u64
    ensures { result ≡ fold min (spec.left_of first) (map spec.left_of more.now) }
{
    let mut least = left_of(first);
    for piece in more {
        least = least.min(left_of(*piece));
    }
    least
}

fn max_age(alloc: Global, seconds: u64, private: bool) -> Result<Text, Memory>
    ensures { IfOk result (λ t. t ≡ spec.max_age seconds private) }
{
    if private {
        Text::from_string(format!(in alloc; "max-age={seconds}, private")?)
    } else {
        Text::from_string(format!(in alloc; "max-age={seconds}, public")?)
    }
}

/// The Cache-Control of an answer made of these pieces (RFC 9111, section 5.2.2): as long as each of them may be kept, in
/// whole seconds, and for the caller alone where one of them is. A piece that failed or may not be kept is None; with one,
/// or with no piece at all, the answer is not kept. Fails only for want of memory.
pub fn cache_control(alloc: Global, pieces: &[Option<Lasts>]) -> Result<Text, Memory>
    ensures { IfOk result (λ t. t ≡ spec.cache_control_of pieces.now) }
{
    match pieces {
        [first, more @ ..] if are_kept(pieces) => {
            let seconds = least_left(*first, more) / 1000;
            max_age(alloc, seconds, is_any_private(pieces))
        }
        _ => Text::of(alloc, "no-store"),
    }
}

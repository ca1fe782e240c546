ghost use Rattle.std.specs.Prelude.{◌≡◌, map, IfOk};
ghost use Rattle.partial_fetch.specs.Answering as spec;

use answer_text::{FetchCause, FetchError, Lasts};
use flow_base::{Memory, Text};
use json_paths::Place;
use piece_fetch::Cause;
use plan_run::{PieceError, Subgraph};
use reply_read::ReplyFault;
use router_config::SubRule;
use std::alloc::Global;
use tree_items::at;

fn told_fault(fault: &ReplyFault) -> Result<FetchCause, Memory>
    ensures { IfOk result (λ c. c ≡ spec.told_fault fault.now) }
{
    match fault {
        ReplyFault::Status(status) => Ok(FetchCause::Status(*status)),
        ReplyFault::Json(at) => Ok(FetchCause::NotJson(*at)),
        ReplyFault::Shape(member) => Ok(FetchCause::Misshapen(member.copy()?)),
        ReplyFault::Count { got, sent } => Ok(FetchCause::Miscounted {
            got: *got,
            sent: *sent,
        }),
        ReplyFault::Memory => Ok(FetchCause::Unreachable),
    }
}

fn told_cause(cause: &Cause) -> Result<FetchCause, Memory>
    ensures { IfOk result (λ c. c ≡ spec.told_cause cause.now) }
{
    match cause {
        Cause::Unreachable => Ok(FetchCause::Unreachable),
        Cause::TooLong(bytes) => Ok(FetchCause::TooLong(*bytes)),
        Cause::Status(status) => Ok(FetchCause::Status(*status)),
        Cause::BadReply(fault) => told_fault(fault),
        Cause::Subgraph(text) => Ok(FetchCause::Subgraph(text.copy()?)),
    }
}

/// The name of the subgraph with this number.
fn name_in(alloc: Global, rules: &[SubRule], number: u64) -> Result<Text, Memory>
    ensures { IfOk result (λ t. t ≡ spec.name_of rules.now number) }
{
    match at(rules, number as usize) {
        Some(rule) => rule.name.copy(),
        None => Text::of(alloc, ""),
    }
}

fn copy_place(alloc: Global, place: &Option<Place>) -> Result<Option<Place>, Memory>
    ensures { IfOk result (λ p. p ≡ place.now) }
{
    match place {
        Some(place) => Ok(Some(place.copy(alloc)?)),
        None => Ok(None),
    }
}

fn told_error(alloc: Global, rules: &[SubRule], error: &PieceError) -> Result<FetchError, Memory>
    ensures { IfOk result (λ e. e ≡ spec.told_error rules.now error.now) }
{
    Ok(FetchError {
        subgraph: name_in(alloc, rules, error.sub)?,
        place: copy_place(alloc, &error.path)?,
        cause: told_cause(&error.cause)?,
    })
}

/// The errors as the body tells them. Fails only for want of memory.
pub fn told_errors(
    alloc: Global,
    rules: &[SubRule],
    errors: &[PieceError],
) -> Result<Vec<FetchError>, Memory>
    ensures { IfOk result (λ es. es.items ≡ map (spec.told_error rules.now) errors.now) }
{
    let mut told = Vec::with_capacity(alloc, errors.len())?;
    for error in errors {
        told.push(told_error(alloc, rules, error)?)?;
    }
    Ok(told)
}

fn lasting(lasts: &Option<piece_fetch::Lasts>) -> Option<Lasts>
    ensures { result ≡ spec.lasting_if lasts.now }
{
    match lasts {
        Some(lasts) => Some(Lasts {
            left_ms: lasts.left_ms,
            private: lasts.private,
        }),
        None => None,
    }
}

/// How long the pieces last, as the answer's Cache-Control takes it. Fails only for want of memory.
pub fn lasting_all(
    alloc: Global,
    pieces: &[Option<piece_fetch::Lasts>],
) -> Result<Vec<Option<Lasts>>, Memory>
    ensures { IfOk result (λ ls. ls.items ≡ map spec.lasting_if pieces.now) }
{
    let mut told = Vec::with_capacity(alloc, pieces.len())?;
    for piece in pieces {
        told.push(lasting(piece))?;
    }
    Ok(told)
}

/// The subgraphs of a site, as its plans are run with them. Fails only for want of memory.
pub fn subgraphs_of(alloc: Global, rules: &[SubRule]) -> Result<Vec<Subgraph>, Memory>
    ensures { IfOk result (λ ss. ss.items ≡ spec.subgraphs_of rules.now) }
{
    let mut subgraphs = Vec::with_capacity(alloc, rules.len())?;
    for rule in rules {
        subgraphs.push(Subgraph {
            name: rule.name.copy()?,
            uncached: !rule.cached,
        })?;
    }
    Ok(subgraphs)
}

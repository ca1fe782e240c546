ghost use Rattle.std.specs.Prelude.{◌≡◌, true, false, length, All, IfOk, OnErr};
ghost use Rattle.std.specs.Option.{option_copied};
ghost use Rattle.piece_fetch.specs.Fetching.{DoesFetch, DropsFetch};

use crate::prepare::{Work, prepare};
use crate::settle::{give_up, settle_all};
use crate::slots::divide;
use crate::{Ask, Fetched};
use cache_seam::Cache;
use cache_terms::Key;
use flow_base::{Clock, Memory, Text};
use line_base::Line;
use std::alloc::Global;

/// Fetches the pieces of these keys: what the cache has is taken from there, what is missing is asked for in one call
/// over this line, which has this number, and each permit is settled. `id` is the caller's. Fails only for want of memory,
/// and whatever it answers no permit is in hand.
pub fn fetch_pieces<C: Cache, L: Line, T: Clock>(
    alloc: Global,
    cache: &mut C,
    line: &mut L,
    number: u64,
    clock: &mut T,
    id: Option<&Text>,
    ask: &Ask,
    keys: Vec<Key>,
) -> Result<Fetched, Memory>
    // The request has begun.
    requires begun { (C.seen cache.old).begun ≡ true }

    // All keys are of the ask's subgraph, and the data of an operation is one piece.
    requires named { All (λ key. key.sub ≡ ask.now.name) keys.items }
    requires one { ask.now.entities ≡ false → length keys.items ≡ 1 }

    // It looks once, at the one moment that the clock gives; sends one call for exactly the pieces
    // that are missing, and none where nothing is; settles each permit, in order, with the offer of
    // its piece where the reply is readable and Failed where it is not; and this is what it gives.
    ensures ok { IfOk result (λ f. DoesFetch ask.now keys.items (option_copied id.entry) number
        (C.seen cache.old) (C.seen cache.new) (L.line line.old) (L.line line.new)
        (T.log clock.old) (T.log clock.new) f) }

    // For want of memory it stops before its look, in it, or with each permit settled as Failed.
    ensures err { OnErr result (DropsFetch ask.now keys.items (option_copied id.entry)
        (C.seen cache.old) (C.seen cache.new) (L.line line.old) (L.line line.new)
        (T.log clock.old) (T.log clock.new)) }
{
    let mut slots = Vec::with_capacity(alloc, keys.len())?;
    let mut permits = Vec::with_capacity(alloc, keys.len())?;
    let now = clock.now_ms();
    let answers = match cache.look(id, keys, now) {
        Ok(answers) => answers,
        Err(memory) => {
            permits.destroy_empty();
            return Err(memory);
        }
    };
    divide(answers, &mut slots, &mut permits);
    match prepare(alloc, line, number, id, ask, slots, &permits) {
        Ok(work) => {
            let Work { reports, fetched } = work;
            settle_all(cache, permits, reports);
            Ok(fetched)
        }
        Err(memory) => {
            give_up(cache, permits);
            Err(memory)
        }
    }
}

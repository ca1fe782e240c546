ghost use Rattle.std.specs.Prelude.{length};
ghost use Rattle.cache_model.specs.Journal.{IsHeldUnder, IsCount};

use cache_book::{Book, Notice, Tally, Turned, Voided};
use cache_terms::{Event, Limits, Target};
use plain_book::count_held;
use std::alloc::AllocGlobal;
use std::process::Abort;

/// Who invalidates.
const CALLER: u32 = 9;

/// How many held pieces of a book the target covers, by the plain program.
fn plain_count(book: &Book, target: &Target) -> u64
    ensures { IsCount (IsHeldUnder book.now.journal target.now) (length book.now.journal) result }
{
    count_held(book.journal(), target)
}

/// What an invalidation does, by the plain program.
fn plain_voided(book: &Book, limits: Limits, tally: Tally, target: &Target) -> Voided {
    if tally.epoch == u64::MAX {
        return Voided {
            epoch: tally.epoch,
            position: 0,
            count: 0,
            turned: Turned::Retired,
        };
    }
    if tally.events.saturating_add(tally.pending) < limits.events {
        return Voided {
            epoch: tally.epoch,
            position: tally.events,
            count: plain_count(book, target),
            turned: Turned::No,
        };
    }
    Voided {
        epoch: tally.epoch + 1,
        position: 0,
        count: 0,
        turned: Turned::Full {
            length: tally.events,
            reserved: tally.pending,
            limit: limits.events,
        },
    }
}

/// Whether the last event is the invalidation that was answered. In the last epoch none is appended.
fn is_noted(events: &[Event], before: u64, target: &Target, voided: Voided) -> bool {
    let length = events.len() as u64;
    if voided.turned == Turned::Retired {
        return length == before;
    }
    match events.last() {
        Some(
            Event::Invalidate {
                who,
                target: noted,
                count,
            },
        ) => {
            *who == CALLER
                && *noted == *target
                && *count == voided.count
                && length == voided.position.saturating_add(1)
        }
        _ => false,
    }
}

/// Invalidates the target, and answers the epoch that is left.
pub fn void<R: Abort + AllocGlobal>(
    rt: &R,
    book: &mut Book,
    limits: Limits,
    tally: Tally,
    target: &Target,
) -> u64 {
    let wanted = plain_voided(book, limits, tally, target);
    let notice = Notice::of(target).expect(rt, "memory");
    let voided = book.invalidate(CALLER, notice);
    assert!(rt; voided == wanted);
    assert!(rt; is_noted(book.journal(), tally.events, target, voided));
    voided.epoch
}

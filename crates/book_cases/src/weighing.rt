ghost use Rattle.std.specs.Prelude.{◌≡◌};
ghost use Rattle.cache_model.specs.Journal.{bytes};

use cache_book::{Book, Tally};
use cache_terms::{Event, Limits};
use plain_book::{bytes_of, reserved_of, start_of};

pub fn plain_bytes(book: &Book) -> u64
    ensures { result ≡ bytes book.now.journal }
{
    bytes_of(book.journal())
}

/// How much of the book is used, by the plain program.
pub fn plain_tally(book: &Book, epoch: u64) -> Tally {
    let events = book.journal();
    Tally {
        epoch,
        events: events.len() as u64,
        bytes: plain_bytes(book),
        pending: reserved_of(events),
    }
}

/// Whether half of the room is used.
fn is_half(used: u64, limit: u64) -> bool {
    used.saturating_mul(2) >= limit
}

/// The epoch in which a request begins, by the plain program.
pub fn plain_epoch(limits: Limits, tally: Tally) -> u64 {
    let is_used = is_half(tally.events, limits.events) || is_half(tally.bytes, limits.bytes);
    if is_used && tally.epoch < u64::MAX {
        tally.epoch + 1
    } else {
        tally.epoch
    }
}

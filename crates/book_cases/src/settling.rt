ghost use Rattle.std.specs.Prelude.{◌≡◌, is_some, IsTrue};
ghost use Rattle.cache_model.specs.State.{IsWithinRanges};
ghost use Rattle.cache_book.specs.Settling.{MaySettle, IsInRange};

use crate::ends::Ends;
use crate::weighing::plain_bytes;
use cache_book::{Book, Fill, Permit, Report, Settled, Tally};
use cache_terms::{Event, Limits, Mark, Outcome};
use plain_book::{StartRef, is_settled, outcome_of, start_of};
use std::alloc::AllocGlobal;
use std::process::Abort;

/// Whether the Start is that of the permit's ask.
fn is_start_of(start: StartRef, permit: &Permit) -> bool
    ensures who { IsTrue result → start.entry.who ≡ permit.now.who }
    ensures key { IsTrue result → start.entry.key.now ≡ permit.now.key }
    ensures named { IsTrue result → is_some start.entry.id.now ≡ permit.now.named }
{
    start.who == permit.who() && *start.key == *permit.key() && start.id.is_some() == permit.named()
}

/// Whether a permit may be settled, by the journal.
fn may_settle(book: &Book, permit: &Permit) -> bool
    ensures { IsTrue result → MaySettle book.now permit.now }
{
    let Mark::Ticket(ticket) = *permit.mark() else {
        return true;
    };
    if permit.epoch() != book.tally().epoch {
        return true;
    }
    if is_settled(book.journal(), ticket) {
        return false;
    }
    match start_of(book.journal(), ticket) {
        Some(start) => is_start_of(start, permit),
        None => false,
    }
}

/// The outcome that is due to a report, by the plain program.
fn plain_outcome<R: Abort + AllocGlobal>(
    rt: &R,
    book: &Book,
    limits: Limits,
    ticket: u64,
    report: &Report,
) -> Outcome
    requires { IsWithinRanges limits }
{
    let Report::Got(offer) = report else {
        return Outcome::Failed;
    };
    if plain_bytes(book) > limits.bytes {
        panic!(rt; "more bytes than there is room for");
    }
    match start_of(book.journal(), ticket) {
        Some(start) => outcome_of(book.journal(), limits, start, offer),
        None => panic!(rt; "ticket {ticket} has no Start"),
    }
}

/// What a settle answers, by the plain program.
fn plain_settled<R: Abort + AllocGlobal>(
    rt: &R,
    book: &Book,
    limits: Limits,
    tally: Tally,
    permit: &Permit,
    report: &Report,
) -> Settled
    requires { IsWithinRanges limits }
{
    let Mark::Ticket(ticket) = *permit.mark() else {
        return Settled {
            position: None,
            outcome: Outcome::Bypassed,
        };
    };
    if permit.epoch() != tally.epoch {
        return Settled {
            position: None,
            outcome: Outcome::Over {
                pinned: permit.epoch(),
                current: tally.epoch,
            },
        };
    }
    Settled {
        position: Some(tally.events),
        outcome: plain_outcome(rt, book, limits, ticket, report),
    }
}

/// Whether the last event is the Settle that was answered. Without a ticket none is appended.
fn is_noted(events: &[Event], before: u64, settled: Settled) -> bool {
    let length = events.len() as u64;
    let Some(position) = settled.position else {
        return length == before;
    };
    match events.last() {
        Some(Event::Settle { outcome, .. }) => {
            *outcome == settled.outcome && length == position.saturating_add(1)
        }
        _ => false,
    }
}

/// Settles a permit by what came of its fetch.
pub fn settle<R: Abort + AllocGlobal>(
    rt: &R,
    book: &mut Book,
    limits: Limits,
    tally: Tally,
    ends: &mut Ends,
    permit: Permit,
    report: Report,
)
    requires within { IsWithinRanges limits }
    requires range { IsInRange report }
{
    let wanted = plain_settled(rt, book, limits, tally, &permit, &report);
    if !may_settle(book, &permit) {
        ends.end(permit);
        panic!(rt; "a permit that may not be settled");
    }
    let settled = book.settle(Fill { permit, report });
    assert!(rt; settled == wanted);
    assert!(rt; is_noted(book.journal(), tally.events, settled));
}

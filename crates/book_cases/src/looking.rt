ghost use Rattle.std.specs.Option.{option_copied};
ghost use Rattle.cache_model.specs.Journal.{IsChoice};

use crate::ends::Ends;
use cache_book::{Book, Found, Pass, Permit, Tally};
use cache_terms::{Event, Key, Limits, Mark, Verdict};
use flow_base::Text;
use plain_book::{chosen, start_of, starts_of};
use std::alloc::AllocGlobal;
use std::process::Abort;

/// The longest key that is kept.
const WIDEST: u64 = 16384;

/// Who asks under which id, and when.
#[derive(Drop)]
pub struct Asking<'a> {
    pub pass: Pass,
    pub id: Option<&'a Text>,
    pub now: u64,
}

/// What the plain program says of one ask.
#[derive(Clone, Copy, PartialEq, Eq)]
enum Wanted {
    Hit { lookup: u64, stored: u64 },
    Miss { lookup: u64, ticket: u64 },
    Past(Mark),
}

/// The plain choice over a book's journal.
fn plain_choice(book: &Book, key: &Key, id: Option<&Text>, now: u64) -> Option<usize>
    ensures { IsChoice book.now.journal key.now (option_copied id.entry) now result }
{
    chosen(book.journal(), key, id, now)
}

/// Why a whole look goes past the journal, by the plain program.
fn plain_mark(limits: Limits, tally: Tally, pass: &Pass, asks: usize) -> Option<Mark> {
    if tally.epoch == u64::MAX {
        return Some(Mark::Retired);
    }
    if pass.epoch() != tally.epoch {
        return Some(Mark::Over {
            pinned: pass.epoch(),
            current: tally.epoch,
        });
    }
    let needed = (asks as u64).saturating_mul(3);
    let used = tally.events.saturating_add(tally.pending);
    if used.saturating_add(needed) <= limits.events {
        return None;
    }
    Some(Mark::Full {
        length: tally.events,
        reserved: tally.pending,
        needed,
        limit: limits.events,
    })
}

/// What the plain program says of asks that are kept. Lookups and Starts change no choice, so each ask is judged by the
/// journal before the look.
fn plain_answers<R: Abort + AllocGlobal>(
    rt: &R,
    book: &Book,
    asking: &Asking<'_>,
    asks: &[Key],
) -> Vec<Wanted> {
    let mut lookup = book.journal().len() as u64;
    let mut ticket = starts_of(book.journal());
    let mut answers = Vec::new(rt.alloc());
    for key in asks {
        let bytes = key.bytes();
        let answer = if bytes > WIDEST {
            Wanted::Past(Mark::Wide {
                bytes,
                limit: WIDEST,
            })
        } else if let Some(stored) = plain_choice(book, key, asking.id, asking.now) {
            lookup = lookup.saturating_add(1);
            Wanted::Hit {
                lookup: lookup - 1,
                stored: stored as u64,
            }
        } else {
            lookup = lookup.saturating_add(2);
            ticket = ticket.saturating_add(1);
            Wanted::Miss {
                lookup: lookup - 2,
                ticket: ticket - 1,
            }
        };
        if answers.push(answer).is_err() {
            panic!(rt; "memory");
        }
    }
    answers
}

/// What the plain program says of a look.
fn plain_look<R: Abort + AllocGlobal>(
    rt: &R,
    book: &Book,
    limits: Limits,
    tally: Tally,
    asking: &Asking<'_>,
    asks: &[Key],
) -> Vec<Wanted> {
    let Some(mark) = plain_mark(limits, tally, &asking.pass, asks.len()) else {
        return plain_answers(rt, book, asking, asks);
    };
    let mut answers = Vec::new(rt.alloc());
    for _ in asks {
        if answers.push(Wanted::Past(mark)).is_err() {
            panic!(rt; "memory");
        }
    }
    answers
}

/// The milliseconds for which a piece of this verdict, asked for at `since`, is still good.
fn left_of(verdict: Verdict, since: u64, now: u64) -> u64 {
    let good = verdict
        .lifetime
        .saturating_sub(verdict.age)
        .saturating_mul(1000);
    good.saturating_sub(now.saturating_sub(since))
}

/// Whether the journal keeps at `stored` what a hit shows.
fn is_shown(
    events: &[Event],
    stored: u64,
    value: &Text,
    left_ms: u64,
    private: bool,
    now: u64,
) -> bool {
    match events.get(stored as usize) {
        Some(
            Event::Settle {
                ticket,
                got: Some(got),
                ..
            },
        ) => match start_of(events, *ticket) {
            Some(start) => {
                got.value.as_ref() == Some(value)
                    && got.verdict.private == private
                    && left_of(got.verdict, start.since, now) == left_ms
            }
            None => false,
        },
        _ => false,
    }
}

/// Whether the event at a position is a Lookup with this hit.
fn is_looked(events: &[Event], lookup: u64, wanted: Option<u64>) -> bool {
    match events.get(lookup as usize) {
        Some(Event::Lookup { hit, .. }) => *hit == wanted,
        _ => false,
    }
}

/// Whether a permit is for the key, by the caller's pass.
fn is_for(permit: &Permit, asking: &Asking<'_>, key: &Key) -> bool {
    permit.who() == asking.pass.who()
        && permit.epoch() == asking.pass.epoch()
        && permit.named() == asking.id.is_some()
        && *permit.key() == *key
}

/// Whether an answer is what the plain program says, and stands in the journal.
fn is_right(
    events: &[Event],
    asking: &Asking<'_>,
    key: &Key,
    wanted: Wanted,
    found: &Found,
) -> bool {
    match found {
        Found::Hit {
            lookup,
            stored,
            value,
            left_ms,
            private,
        } => {
            let hit = Wanted::Hit {
                lookup: *lookup,
                stored: *stored,
            };
            wanted == hit
                && is_looked(events, *lookup, Some(*stored))
                && is_shown(events, *stored, value, *left_ms, *private, asking.now)
        }
        Found::Miss { lookup, permit } => match *permit.mark() {
            Mark::Ticket(ticket) => {
                let miss = Wanted::Miss {
                    lookup: *lookup,
                    ticket,
                };
                wanted == miss && is_looked(events, *lookup, None) && is_for(permit, asking, key)
            }
            _ => false,
        },
        Found::Bypass { permit } => {
            wanted == Wanted::Past(*permit.mark()) && is_for(permit, asking, key)
        }
    }
}

/// How many events the answers append.
fn appended(wanted: &[Wanted]) -> u64 {
    let mut count = 0u64;
    for answer in wanted {
        let more = match answer {
            Wanted::Hit { .. } => 1,
            Wanted::Miss { .. } => 2,
            Wanted::Past(_) => 0,
        };
        count = count.saturating_add(more);
    }
    count
}

fn copies<R: Abort + AllocGlobal>(rt: &R, keys: &[Key]) -> Vec<Key> {
    let mut copies = Vec::new(rt.alloc());
    for key in keys {
        if copies.push(key.copy().expect(rt, "memory")).is_err() {
            panic!(rt; "memory");
        }
    }
    copies
}

/// Keeps the permit of an answer, if it has one.
fn keep(ends: &mut Ends, hand: &mut Vec<Permit>, found: Found) {
    match found {
        Found::Hit {
            lookup: _,
            stored: _,
            value: _value,
            left_ms: _,
            private: _,
        } => {}
        Found::Miss { lookup: _, permit } => ends.keep(hand, permit),
        Found::Bypass { permit } => ends.keep(hand, permit),
    }
}

/// Compares the answers with what the plain program says, and keeps their permits.
fn are_right(
    events: &[Event],
    asking: &Asking<'_>,
    keys: &[Key],
    wanted: &[Wanted],
    ends: &mut Ends,
    hand: &mut Vec<Permit>,
    answers: Vec<Found>,
) -> bool {
    let mut answers = answers;
    let mut all_right = answers.len() == keys.len();
    while let Some(found) = answers.pop() {
        let at = answers.len();
        if at < keys.len() && at < wanted.len() {
            all_right = all_right && is_right(events, asking, &keys[at], wanted[at], &found);
        }
        keep(ends, hand, found);
    }
    answers.destroy_empty();
    all_right
}

/// Looks for the keys, compares each answer, and keeps the permits.
pub fn look<R: Abort + AllocGlobal>(
    rt: &R,
    book: &mut Book,
    limits: Limits,
    tally: Tally,
    ends: &mut Ends,
    hand: &mut Vec<Permit>,
    asking: &Asking<'_>,
    keys: &[Key],
) {
    let wanted = plain_look(rt, book, limits, tally, asking, keys);
    let length = tally.events.saturating_add(appended(&wanted));
    let asks = copies(rt, keys);
    let Ok(answers) = book.look(&asking.pass, asking.id, asks, asking.now) else {
        panic!(rt; "memory");
    };
    let all_right = are_right(book.journal(), asking, keys, &wanted, ends, hand, answers);
    assert!(rt; all_right);
    assert!(rt; book.journal().len() as u64 == length);
}

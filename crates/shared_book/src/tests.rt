ghost use Rattle.std.specs.Prelude.{◌≡◌, ◌≤◌, true, length};
ghost use Rattle.cache_book.specs.Settling.{IsInRange};
ghost use Rattle.cache_book.specs.declared.permit.Report.TheVariants as report;
ghost use Rattle.cache_seam.specs.Hand.{IsHand, permits_of};
ghost use Rattle.cache_seam.specs.Objects.{OffersObject};
ghost use Rattle.shared_book.specs.Handles.{AreOfOneBook, seen_of};

use crate::{Handle, close, open};
use cache_book::{Book, Fill, Found, Notice, Report, Settled, Turned};
use cache_seam::Cache;
use cache_terms::{Event, Key, Limits, Marks, Offer, Outcome, TagList, Tags, Target, Verdict};
use flow_base::{Memory, Text};
use std::alloc::{AllocGlobal, Global};
use std::process::Abort;
use std::sync::{Mutex, Wait};
use std::test::*;
use std::thread::{Threads, for_each_mut};

const LIMITS: Limits = Limits {
    events: 64,
    bytes: 4096,
};

fn text<R: Abort + AllocGlobal>(rt: &R, s: &str) -> Text
    ensures { result ≡ s.now }
{
    match Text::of(rt.alloc(), s) {
        Ok(text) => text,
        Err(Memory) => Text::of(rt.alloc(), s).expect(rt, "memory"),
    }
}

fn key<R: Abort + AllocGlobal>(rt: &R, type_name: &str) -> Key {
    Key {
        sub: text(rt, "a"),
        type_name: text(rt, type_name),
        rep: text(rt, "r"),
        sel: text(rt, "s"),
    }
}

/// A piece that may be kept for a minute.
#[tactic(auto, using(cache_seam::proofs::TestObjects::empty_object))]
fn offer<R: Abort + AllocGlobal>(rt: &R) -> Offer
    ensures object { OffersObject (report.Got result) }
    ensures range { IsInRange (report.Got result) }
{
    Offer {
        value: text(rt, "{}"),
        tags: Tags::Known(TagList::new(rt.alloc())),
        verdict: Verdict {
            lifetime: 60,
            age: 0,
            private: false,
            no_store: false,
        },
        marks: Marks {
            status: 200,
            errors: false,
            absent: false,
            mutation: false,
            uncached: false,
        },
    }
}

/// What came of one ask: where its events stand, and what became of the piece.
#[derive(Clone, Copy, Debug, PartialEq, Eq)]
enum Came {
    Found { lookup: u64, stored: u64 },
    Fetched { lookup: u64, settled: Settled },
    Bypassed(Settled),
    NoMemory,
}

/// Settles what a look for one piece did not find.
fn fill<R: Abort + AllocGlobal, C: Cache>(rt: &R, cache: &mut C, answers: Vec<Found>) -> Came
    requires hand { IsHand (C.seen cache.old) (permits_of answers.items) }
    requires one { length answers.items ≡ 1 }
    ensures { (C.seen cache.new).home ≡ (C.seen cache.old).home }
{
    let offer = offer(rt);
    let mut answers = answers;
    let answer = answers.pop();
    answers.destroy_empty();
    match answer {
        Some(
            Found::Hit {
                lookup,
                stored,
                value: _value,
                left_ms: _,
                private: _,
            },
        ) => Came::Found { lookup, stored },
        Some(Found::Miss { lookup, permit }) => {
            let settled = cache.settle(Fill {
                permit,
                report: Report::Got(offer),
            });
            Came::Fetched { lookup, settled }
        }
        Some(Found::Bypass { permit }) => {
            let settled = cache.settle(Fill {
                permit,
                report: Report::Got(offer),
            });
            Came::Bypassed(settled)
        }
        None => unreachable!(),
    }
}

fn asks<R: Abort + AllocGlobal>(rt: &R, type_name: &str) -> Vec<Key>
    ensures { length result.items ≡ 1 }
{
    let key = key(rt, type_name);
    let mut keys = Vec::new(rt.alloc());
    keys.push(key).expect(rt, "memory");
    keys
}

/// Looks for one piece, and settles what was not found.
#[tactic(auto, using(cache_seam::proofs::TestObjects::asked_one, cache_seam::proofs::Hands::hand_of_look))]
fn ask<R: Abort + AllocGlobal, C: Cache>(rt: &R, cache: &mut C, type_name: &str) -> Came
    requires { (C.seen cache.old).begun ≡ true }
    ensures { (C.seen cache.new).home ≡ (C.seen cache.old).home }
{
    let keys = asks(rt, type_name);
    match cache.look(None, keys, 1000) {
        Ok(answers) => fill(rt, cache, answers),
        Err(Memory) => Came::NoMemory,
    }
}

/// Begins a request, and looks for one piece. It says in which epoch.
#[tactic(auto, using(cache_seam::proofs::TestObjects::begun_of))]
fn request<R: Abort + AllocGlobal, C: Cache>(rt: &R, cache: &mut C, type_name: &str) -> (u64, Came)
    ensures { (C.seen cache.new).home ≡ (C.seen cache.old).home }
{
    let epoch = cache.begin();
    (epoch, ask(rt, cache, type_name))
}

fn notice<R: Abort + AllocGlobal>(rt: &R, type_name: &str) -> Notice {
    let target = Target::OfType(text(rt, "a"), text(rt, type_name));
    Notice::of(&target).expect(rt, "memory")
}

#[derive(Clone, Copy, Debug, PartialEq, Eq)]
enum Kind {
    Lookup,
    Start,
    Settle,
    Invalidate,
}

/// An event: whose it is, and where it stands.
#[derive(Clone, Copy, Debug, PartialEq, Eq)]
struct Note {
    who: u32,
    epoch: u64,
    position: u64,
    kind: Kind,
}

fn put<R: Abort + Wait>(rt: &R, notes: &Mutex<Vec<Note>>, note: Note) {
    notes.lock(rt).push(note).expect(rt, "memory");
}

/// Notes the events of one request.
fn put_all<R: Abort + Wait>(rt: &R, notes: &Mutex<Vec<Note>>, who: u32, epoch: u64, came: Came) {
    let (lookup, settled) = match came {
        Came::Found { lookup, stored: _ } => (lookup, None),
        Came::Fetched { lookup, settled } => (lookup, Some(settled)),
        Came::Bypassed(_) => return,
        Came::NoMemory => panic!(rt; "memory"),
    };
    let first = Note {
        who,
        epoch,
        position: lookup,
        kind: Kind::Lookup,
    };
    put(rt, notes, first);
    let Some(settled) = settled else { return };
    let start = Note {
        position: lookup.saturating_add(1),
        kind: Kind::Start,
        ..first
    };
    put(rt, notes, start);
    let Some(position) = settled.position else {
        return
    };
    let settle = Note {
        position,
        kind: Kind::Settle,
        ..first
    };
    put(rt, notes, settle);
}

/// Invalidates a type.
fn void<R: Abort + AllocGlobal + Wait, C: Cache>(
    rt: &R,
    cache: &mut C,
    who: u32,
    notes: &Mutex<Vec<Note>>,
)
    ensures { (C.seen cache.new).home ≡ (C.seen cache.old).home }
{
    let voided = cache.invalidate(notice(rt, "T"));
    let note = Note {
        who,
        epoch: voided.epoch,
        position: voided.position,
        kind: Kind::Invalidate,
    };
    put(rt, notes, note);
}

/// Three hundred requests, by three types in turn. After each the book is tallied, and after each tenth
/// a type is invalidated: about a thousand turns.
fn work<R: Abort + AllocGlobal + Wait, C: Cache>(
    rt: &R,
    cache: &mut C,
    who: u32,
    notes: &Mutex<Vec<Note>>,
)
    ensures { (C.seen cache.new).home ≡ (C.seen cache.old).home }
{
    for round in 0..300u32 {
        let type_name = match round % 3 {
            0 => "T",
            1 => "U",
            _ => "V",
        };
        let (epoch, came) = request(rt, cache, type_name);
        put_all(rt, notes, who, epoch, came);
        if round % 10 == 9 {
            void(rt, cache, who, notes);
        }
        let _tally = cache.tally();
    }
}

fn work_all<R: Threads + Abort + AllocGlobal + Wait + Clone + Drop + Send + Sync>(
    rt: &R,
    handles: &mut [Handle<R>],
    notes: &Mutex<Vec<Note>>,
)
    requires { AreOfOneBook handles.old }
    ensures { AreOfOneBook handles.new }
{
    for_each_mut(
        rt,
        handles,
        16,
        &|number, h: &mut Handle<R>|
            ensures { (seen_of h.new).home ≡ (seen_of h.old).home }
        { work(rt, h, (number % 64) as u32, notes) },
    );
}

/// The event at a position, without what it is about.
fn noted(event: &Event, epoch: u64, position: u64) -> Note {
    let (who, kind) = match event {
        Event::Lookup { who, .. } => (*who, Kind::Lookup),
        Event::Start { who, .. } => (*who, Kind::Start),
        Event::Settle { who, .. } => (*who, Kind::Settle),
        Event::Invalidate { who, .. } => (*who, Kind::Invalidate),
    };
    Note {
        who,
        epoch,
        position,
        kind,
    }
}

/// The events of one number in the journal.
fn own_events(alloc: Global, book: &Book, who: u32) -> Result<Vec<Note>, Memory> {
    let epoch = book.tally().epoch;
    let mut own = Vec::new(alloc);
    let mut position = 0u64;
    for event in book.journal() {
        let note = noted(event, epoch, position);
        if note.who == who {
            own.push(note)?;
        }
        position = position.saturating_add(1);
    }
    Ok(own)
}

/// The events of one number in one epoch of which a worker was told.
fn told_events(alloc: Global, notes: &[Note], who: u32, epoch: u64) -> Result<Vec<Note>, Memory> {
    let mut told = Vec::new(alloc);
    for note in notes {
        if note.who == who && note.epoch == epoch {
            told.push(*note)?;
        }
    }
    Ok(told)
}

/// The type of a key, by its number.
fn type_number(key: &Key) -> usize {
    match key.type_name.as_str() {
        "T" => 0,
        "U" => 1,
        _ => 2,
    }
}

/// Whether each lookup of the journal found the last piece of its type that was stored before and not invalidated since.
/// All pieces are fresh and public, and `T` alone is invalidated.
fn hits_are_choices(alloc: Global, book: &Book) -> Result<bool, Memory> {
    let mut kept = [None, None, None];
    let mut types = Vec::new(alloc);
    let mut position = 0u64;
    for event in book.journal() {
        match event {
            Event::Lookup { key, hit, .. } => {
                if kept.get(type_number(key)) != Some(hit) {
                    return Ok(false);
                }
            }
            Event::Start { key, .. } => types.push(type_number(key))?,
            Event::Settle {
                ticket,
                outcome: Outcome::Stored,
                ..
            } => note_kept(&mut kept, types.get(*ticket as usize).copied(), position),
            Event::Settle { .. } => {}
            Event::Invalidate { .. } => kept[0] = None,
        }
        position = position.saturating_add(1);
    }
    Ok(true)
}

fn note_kept(kept: &mut [Option<u64>; 3], of: Option<usize>, position: u64) {
    if let Some(of) = of {
        if of < 3 {
            kept[of] = Some(position);
        }
    }
}

/// So many threads work on one book. It has the events of which each was told, once and in order,
/// and no others.
fn share_a_book<R: Threads + Abort + AllocGlobal + Wait + Clone + Drop + Send + Sync>(
    rt: &R,
    members: u32,
) -> Result<(), Memory>
    requires { (1 ≤ members) × (members ≤ 64) }
{
    let notes = Mutex::new(Vec::new(rt.alloc()));
    let mut handles = open(rt.alloc(), rt, members, LIMITS)?;
    work_all(rt, handles.as_mut_slice(), &notes);
    let book = close(handles);
    let notes = notes.into_inner();
    let tally = book.tally();
    let mut events = 0u64;
    for who in 0..members {
        let told = told_events(rt.alloc(), notes.as_slice(), who, tally.epoch)?;
        let own = own_events(rt.alloc(), &book, who)?;
        assert!(rt; own.as_slice() == told.as_slice(), "by {who} of {members}");
        events = events.saturating_add(own.len() as u64);
    }
    assert!(rt; tally.epoch > 0, "the epoch turned");
    assert!(rt; hits_are_choices(rt.alloc(), &book)?, "of {members}");
    assert_eq!(rt; tally.events, events);
    assert_eq!(rt; tally.pending, 0);
    Ok(())
}

#[test]
fn each_thread_has_its_events_once_and_in_order(rt: HostRuntime) -> Result<(), Fail> {
    for members in [2, 4, 16] {
        share_a_book(&rt, members)?;
    }
    Ok(())
}

#[test]
fn two_handles_share_a_book(rt: HostRuntime) -> Result<(), Fail> {
    let notes = Mutex::new(Vec::new(rt.alloc()));
    let mut handles = open(rt.alloc(), &rt, 2, LIMITS)?;
    let stored = Settled {
        position: Some(2),
        outcome: Outcome::Stored,
    };
    let fetched = Came::Fetched {
        lookup: 0,
        settled: stored,
    };
    assert_eq!(&rt; request(&rt, &mut handles[1], "T"), (0, fetched));
    let found = Came::Found {
        lookup: 3,
        stored: 2,
    };
    assert_eq!(&rt; request(&rt, &mut handles[0], "T"), (0, found));
    void(&rt, &mut handles[0], 0, &notes);
    let stored = Settled {
        position: Some(7),
        outcome: Outcome::Stored,
    };
    let fetched = Came::Fetched {
        lookup: 5,
        settled: stored,
    };
    assert_eq!(&rt; request(&rt, &mut handles[1], "T"), (0, fetched));
    let book = close(handles);
    assert_eq!(&rt; book.tally().events, 8);
    Ok(())
}

/// A handle that did nothing yet is pinned to epoch 0.
#[test]
fn an_epoch_turns_before_a_first_look(rt: HostRuntime) -> Result<(), Fail> {
    let limits = Limits {
        events: 8,
        bytes: 4096,
    };
    let mut handles = open(rt.alloc(), &rt, 2, limits)?;
    let (first, _) = request(&rt, &mut handles[0], "T");
    let (second, _) = request(&rt, &mut handles[0], "U");
    assert_eq!(&rt; (first, second), (0, 0));
    let (third, _) = request(&rt, &mut handles[0], "T");
    assert_eq!(&rt; third, 1);
    let bypassed = Settled {
        position: None,
        outcome: Outcome::Bypassed,
    };
    assert_eq!(&rt; ask(&rt, &mut handles[1], "T"), Came::Bypassed(bypassed));
    let book = close(handles);
    assert_eq!(&rt; book.tally().epoch, 1);
    Ok(())
}

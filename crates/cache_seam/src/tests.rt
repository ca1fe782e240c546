ghost use Rattle.std.specs.Prelude.{◌≡◌, All, length};
ghost use Rattle.cache_book.specs.Settling.{IsInRange};
ghost use Rattle.cache_book.specs.declared.permit.Report.TheVariants as report;
ghost use Rattle.cache_seam.specs.Hand.{IsHand, permits_of};
ghost use Rattle.cache_seam.specs.Meddling.{IsFitting, steps_of};
ghost use Rattle.cache_seam.specs.Objects.{OffersObject};

use super::*;
use cache_book::{Fill, Found, Notice, Report, Turned};
use cache_terms::{Key, Limits, Marks, Offer, Outcome, TagList, Tags, Target, Verdict};
use flow_base::{Memory, Text};
use std::alloc::AllocGlobal;
use std::process::Abort;
use std::test::*;

const WIDE: Limits = Limits {
    events: 64,
    bytes: 4096,
};

const NARROW: Limits = Limits {
    events: 8,
    bytes: 4096,
};

fn text<R: Abort + AllocGlobal>(rt: &R, s: &str) -> Text
    ensures { result ≡ s.now }
{
    match Text::of(rt.alloc(), s) {
        Ok(text) => text,
        Err(Memory) => Text::of(rt.alloc(), s).expect(rt, "memory"),
    }
}

fn key<R: Abort + AllocGlobal>(rt: &R, type_name: &str) -> Key {
    Key {
        sub: text(rt, "a"),
        type_name: text(rt, type_name),
        rep: text(rt, "r"),
        sel: text(rt, "s"),
    }
}

/// A piece that may be kept for a minute.
#[tactic(auto, using(crate::proofs::TestObjects::empty_object))]
fn offer<R: Abort + AllocGlobal>(rt: &R) -> Offer
    ensures object { OffersObject (report.Got result) }
    ensures range { IsInRange (report.Got result) }
{
    Offer {
        value: text(rt, "{}"),
        tags: Tags::Known(TagList::new(rt.alloc())),
        verdict: Verdict {
            lifetime: 60,
            age: 0,
            private: false,
            no_store: false,
        },
        marks: Marks {
            status: 200,
            errors: false,
            absent: false,
            mutation: false,
            uncached: false,
        },
    }
}

/// What came of one ask: the position of the piece that was found, or what became of the one that was fetched.
#[derive(Clone, Copy, Debug, PartialEq, Eq)]
enum Came {
    Found(u64),
    Fetched(Outcome),
    NoMemory,
}

/// Settles what a look for one piece did not find.
fn fill<R: Abort + AllocGlobal, C: Cache>(rt: &R, cache: &mut C, answers: Vec<Found>) -> Came
    requires hand { IsHand (C.seen cache.old) (permits_of answers.items) }
    requires one { length answers.items ≡ 1 }
{
    let offer = offer(rt);
    let mut answers = answers;
    let answer = answers.pop();
    answers.destroy_empty();
    match answer {
        Some(
            Found::Hit {
                lookup: _,
                stored,
                value: _value,
                left_ms: _,
                private: _,
            },
        ) => Came::Found(stored),
        Some(Found::Miss { lookup: _, permit }) => {
            let settled = cache.settle(Fill {
                permit,
                report: Report::Got(offer),
            });
            Came::Fetched(settled.outcome)
        }
        Some(Found::Bypass { permit }) => {
            let settled = cache.settle(Fill {
                permit,
                report: Report::Got(offer),
            });
            Came::Fetched(settled.outcome)
        }
        None => unreachable!(),
    }
}

fn asks<R: Abort + AllocGlobal>(rt: &R, type_name: &str) -> Vec<Key>
    ensures { length result.items ≡ 1 }
{
    let key = key(rt, type_name);
    let mut keys = Vec::new(rt.alloc());
    keys.push(key).expect(rt, "memory");
    keys
}

/// Begins, looks for one piece, and settles what was not found.
#[tactic(auto, using(crate::proofs::TestObjects::begun_of, crate::proofs::TestObjects::asked_one, crate::proofs::Hands::hand_of_look))]
fn ask<R: Abort + AllocGlobal, C: Cache>(rt: &R, cache: &mut C, type_name: &str) -> Came {
    let keys = asks(rt, type_name);
    cache.begin();
    match cache.look(None, keys, 1000) {
        Ok(answers) => fill(rt, cache, answers),
        Err(Memory) => Came::NoMemory,
    }
}

#[test]
fn a_book_of_its_own(rt: HostRuntime) {
    let mut cache = Alone::open(rt.alloc(), WIDE).expect(&rt, "memory");
    assert_eq!(&rt; ask(&rt, &mut cache, "T"), Came::Fetched(Outcome::Stored));
    assert_eq!(&rt; ask(&rt, &mut cache, "T"), Came::Found(2));
    let target = Target::Subgraph(text(&rt, "a"));
    let notice = Notice::of(&target).expect(&rt, "memory");
    let voided = cache.invalidate(notice);
    assert_eq!(&rt; voided.position, 4);
    assert_eq!(&rt; voided.count, 1);
    assert_eq!(&rt; voided.turned, Turned::No);
    let tally = cache.tally();
    assert_eq!(&rt; tally.events, 5);
    assert_eq!(&rt; tally.pending, 0);
    assert_eq!(&rt; cache.book().journal().len(), 5);
}

#[tactic(auto, using(crate::proofs::TestObjects::fits_one))]
fn one_step<R: Abort + AllocGlobal>(rt: &R, step: Foreign) -> Vec<Foreign>
    requires { IsFitting step }
    ensures { All IsFitting result.items }
{
    let mut steps = Vec::new(rt.alloc());
    steps.push(step).expect(rt, "memory");
    steps
}

/// The step stands before the call with this number.
#[tactic(auto, using(crate::proofs::TestObjects::fits_push, crate::proofs::TestObjects::fits_none))]
fn before_call<R: Abort + AllocGlobal>(rt: &R, call: usize, step: Foreign) -> Vec<Vec<Foreign>>
    requires { IsFitting step }
    ensures { All (All IsFitting) (steps_of result.items) }
{
    let last = one_step(rt, step);
    let mut lists = Vec::new(rt.alloc());
    for _ in 0..call {
        lists.push(Vec::new(rt.alloc())).expect(rt, "memory");
    }
    lists.push(last).expect(rt, "memory");
    lists
}

fn put<R: Abort + AllocGlobal>(rt: &R, type_name: &str) -> Foreign
    ensures { IsFitting result }
{
    Foreign::Put {
        key: key(rt, type_name),
        id: None,
        offer: offer(rt),
        now: 1000,
    }
}

#[test]
fn a_second_user_invalidates_inside_a_fill(rt: HostRuntime) {
    let target = Target::Subgraph(text(&rt, "a"));
    let lists = before_call(&rt, 2, Foreign::Void(target));
    let mut cache = Meddled::open(rt.alloc(), WIDE, lists).expect(&rt, "memory");
    assert_eq!(&rt; ask(&rt, &mut cache, "T"), Came::Fetched(Outcome::Void(2)));
    assert_eq!(&rt; cache.tally().events, 4);
}

#[test]
fn a_second_user_puts_the_piece_there(rt: HostRuntime) {
    let lists = before_call(&rt, 1, put(&rt, "T"));
    let mut cache = Meddled::open(rt.alloc(), WIDE, lists).expect(&rt, "memory");
    assert_eq!(&rt; ask(&rt, &mut cache, "T"), Came::Found(2));
    assert_eq!(&rt; cache.tally().events, 4);
}

#[test]
fn a_second_user_turns_the_epoch(rt: HostRuntime) {
    let lists = before_call(&rt, 5, Foreign::Begin);
    let mut cache = Meddled::open(rt.alloc(), NARROW, lists).expect(&rt, "memory");
    assert_eq!(&rt; ask(&rt, &mut cache, "T"), Came::Fetched(Outcome::Stored));
    let over = Outcome::Over {
        pinned: 0,
        current: 1,
    };
    assert_eq!(&rt; ask(&rt, &mut cache, "U"), Came::Fetched(over));
    assert_eq!(&rt; cache.tally().epoch, 1);
    assert_eq!(&rt; ask(&rt, &mut cache, "U"), Came::Fetched(Outcome::Stored));
}

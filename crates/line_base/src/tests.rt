ghost use Rattle.std.specs.Prelude.{◌≡◌, [], All, length};
ghost use Rattle.line_base.specs.Lanes.{AsksRightly};

use super::*;
use cache_book::{Book, Fill, Found, Pass, Permit, Report};
use cache_terms::{Key, Limits, Mark, Reply};
use flow_base::{Bytes, Memory, Text};
use std::alloc::AllocGlobal;
use std::collections::VecDeque;
use std::process::Abort;
use std::test::*;

const LIMITS: Limits = Limits {
    events: 8,
    bytes: 16,
};

fn text<R: Abort + AllocGlobal>(rt: &R, s: &str) -> Text {
    match Text::of(rt.alloc(), s) {
        Ok(text) => text,
        Err(Memory) => Text::of(rt.alloc(), s).expect(rt, "memory"),
    }
}

/// In the last epoch each permit has no ticket.
fn permit<R: Abort + AllocGlobal>(rt: &R, book: &mut Book, sub: &str) -> Permit {
    let pass = book.begin(0);
    let mut asks = Vec::new(rt.alloc());
    let key = Key {
        sub: text(rt, sub),
        type_name: text(rt, "T"),
        rep: text(rt, "r"),
        sel: text(rt, "s"),
    };
    asks.push(key).expect(rt, "memory");
    match book.look(&pass, None, asks, 0) {
        Ok(answers) => {
            let mut answers = answers;
            let answer = answers.pop();
            if !answers.is_empty() {
                panic!(rt; "two answers");
            }
            answers.destroy_empty();
            match answer {
                Some(Found::Bypass { permit }) => permit,
                Some(
                    Found::Miss {
                        lookup: _,
                        permit: _permit,
                    },
                ) => panic!(rt; "a ticket"),
                Some(
                    Found::Hit {
                        lookup: _,
                        stored: _,
                        value: _value,
                        left_ms: _,
                        private: _,
                    },
                ) => panic!(rt; "a hit"),
                None => panic!(rt; "no answer"),
            }
        }
        Err(Memory) => panic!(rt; "memory"),
    }
}

fn spend<R: Abort + AllocGlobal>(rt: &R, book: &mut Book, permit: Permit) {
    if let Mark::Ticket(_) = permit.mark() {
        panic!(rt; "a ticket");
    }
    book.settle(Fill {
        permit,
        report: Report::Failed,
    });
}

fn work<R: Abort + AllocGlobal>(rt: &R, book: &mut Book, number: u64, sub: &str) -> Work
    ensures { AsksRightly result }
{
    let permit = permit(rt, book, sub);
    let name = permit.key().sub.copy().expect(rt, "memory");
    let body = text(rt, "{}");
    let mut permits = Vec::new(rt.alloc());
    match permits.push(permit) {
        Ok(()) => {}
        Err(_failed) => panic!(rt; "memory"),
    }
    Work {
        permits,
        call: Call {
            sub: number,
            name,
            body,
            id: None,
        },
    }
}

fn scripted<R: Abort + AllocGlobal>(rt: &R, sub: u64, status: u16) -> Scripted {
    Scripted {
        sub,
        reply: Some(Reply {
            status,
            cache_control: None,
            age: None,
            body: Bytes::from_vec(Vec::new(rt.alloc())),
        }),
    }
}

fn place<R: Abort + AllocGlobal>(rt: &R, lane: &mut Lane<ScriptLine>, work: Work)
    requires asked { AsksRightly work }
    requires fresh { lane.old.answers ≡ [] }
    ensures { lane.new.answers ≡ [] }
{
    match lane.add(work) {
        Ok(()) => {}
        Err(_unplaced) => panic!(rt; "memory"),
    }
}

fn spend_permits<R: Abort + AllocGlobal>(rt: &R, book: &mut Book, permits: Vec<Permit>) {
    let mut permits = VecDeque::from(permits);
    'permits: while let Some(permit) = permits.pop_front() {
        spend(rt, book, permit);
    }
    permits.destroy_empty();
}

fn spend_all<R: Abort + AllocGlobal>(rt: &R, book: &mut Book, works: Vec<Work>) {
    let mut works = VecDeque::from(works);
    'works: while let Some(work) = works.pop_front() {
        let Work {
            permits,
            call: _call,
        } = work;
        spend_permits(rt, book, permits);
    }
    works.destroy_empty();
}

/// A round of the one lane.
#[tactic(auto, using(crate::proofs::TestLanes::fresh_one))]
fn round_of_one<R: Abort + AllocGlobal>(rt: &R, lane: Lane<ScriptLine>) -> Lane<ScriptLine>
    requires { lane.answers ≡ [] }
{
    let mut lanes = Vec::new(rt.alloc());
    match lanes.push(lane) {
        Ok(()) => {}
        Err(_failed) => panic!(rt; "memory"),
    }
    Solo.round(lanes.as_mut_slice());
    let lane = lanes.pop();
    if !lanes.is_empty() {
        panic!(rt; "two lanes");
    }
    lanes.destroy_empty();
    match lane {
        Some(lane) => lane,
        None => panic!(rt; "no lane"),
    }
}

/// The status of each answer, or 0 where the line failed.
fn statuses<R: Abort + AllocGlobal>(rt: &R, answers: &[Result<Reply, LineFault>]) -> Vec<u16> {
    let mut statuses = Vec::new(rt.alloc());
    for answer in answers {
        match answer {
            Ok(reply) => statuses.push(reply.status).expect(rt, "memory"),
            Err(fault) => {
                assert_eq!(rt; *fault, LineFault::Failed);
                statuses.push(0).expect(rt, "memory");
            }
        }
    }
    statuses
}

#[test]
fn a_round_of_one_lane(rt: HostRuntime) {
    let mut book = Book::open(rt.alloc(), LIMITS, u64::MAX).expect(&rt, "memory");
    let mut replies = Vec::new(rt.alloc());
    replies.push(scripted(&rt, 1, 201)).expect(&rt, "memory");
    replies.push(scripted(&rt, 0, 200)).expect(&rt, "memory");
    replies.push(scripted(&rt, 1, 202)).expect(&rt, "memory");
    let line = ScriptLine::of(rt.alloc(), replies);
    let mut lane = Lane::of(rt.alloc(), line);
    let first = work(&rt, &mut book, 0, "a");
    place(&rt, &mut lane, first);
    let second = work(&rt, &mut book, 1, "b");
    place(&rt, &mut lane, second);
    let third = work(&rt, &mut book, 0, "a");
    place(&rt, &mut lane, third);
    let lane = round_of_one(&rt, lane);
    let (line, works, answers) = lane.parts();
    let wanted: [u16; 3] = [200, 201, 0];
    assert_eq!(&rt; statuses(&rt, &answers).as_slice(), wanted.as_slice());
    assert_eq!(&rt; line.calls(), 3);
    assert_eq!(&rt; (line.faults(0), line.faults(1)), (1, 0));
    assert_eq!(&rt; line.log().len(), 3);
    spend_all(&rt, &mut book, works);
}

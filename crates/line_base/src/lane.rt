ghost use Rattle.std.specs.Prelude.{◌≡◌, ◌≤◌, [], length, vec_capacity, All};
ghost use Rattle.line_base.specs.Lanes.{AsksRightly, AreFetched};

use crate::{Call, Line, LineFault};
use cache_book::Permit;
use cache_terms::Reply;
use std::alloc::Global;
use std::marker::Model;

/// What is asked of a line: the permits of the pieces that are asked for, and the call.
pub struct Work {
    pub permits: Vec<Permit>,
    pub call: Call,
}

/// A work for which no memory was found.
pub struct Unplaced {
    pub work: Work,
}

/// A line with its part of a round: works, and once it has run their answers, in order.
pub struct Lane<L: Line> {
    line: L,
    works: Vec<Work>,
    answers: Vec<Result<Reply, LineFault>>,
}

impl<L: Line> Model for Lane<L> {
    ghost use Rattle.std.specs.Prelude.{◌≤◌, length, vec_capacity, All};
    ghost use Rattle.line_base.specs.Lanes.{LaneOf, AsksRightly};

    ghost Value = { LaneOf L };

    ghost view = { λ l. record
        { line = l.line; works = l.works.items; answers = l.answers.items } };

    ghost invariant = { λ l. (length l.works.items ≤ vec_capacity l.answers)
        × All AsksRightly l.works.items };
}

/// Fetches each work over the line, in order.
fn fetch_all<L: Line>(line: &mut L, works: &[Work], answers: &mut Vec<Result<Reply, LineFault>>)
    requires asked { All AsksRightly works.now }
    requires room { length works.now ≤ vec_capacity answers.old }
    requires none { answers.old.items ≡ [] }
    ensures fetched { AreFetched (L.line line.old) works.now answers.new.items (L.line line.new) }
    ensures room { vec_capacity answers.old ≤ vec_capacity answers.new }
{
    'fetching: for work in works {
        let answer = line.fetch(&work.permits, &work.call);
        answers.push(answer).unwrap();
    }
}

impl<L: Line> Lane<L> {
    ghost use Rattle.std.specs.Prelude.{◌≡◌, [], ◌∷◌, ◌++◌, OnOk, IfErr};
    ghost use Rattle.line_base.specs.Lanes.{AsksRightly, Ran};

    /// A lane without work.
    pub fn of(alloc: Global, line: L) -> Lane<L>
        ensures { result ≡ record { line = line; works = []; answers = [] } }
    {
        Lane {
            line,
            works: Vec::new(alloc),
            answers: Vec::new(alloc),
        }
    }

    /// Puts one work last, and takes the room for it and its answer. For want of memory it hands the work back, and the
    /// lane is as before.
    pub fn add(&mut self, work: Work) -> Result<(), Unplaced>
        requires { AsksRightly work }
        ensures ok { OnOk result (self.new
            ≡ record self.old { works = self.old.works ++ work ∷ [] }) }
        ensures err { IfErr result (λ u. (u.work ≡ work) × (self.new ≡ self.old)) }
    {
        if let Err(failed) = self.works.push(work) {
            return Err(Unplaced { work: failed.value });
        }
        if self.answers.reserve(self.works.len()).is_err() {
            let Some(work) = self.works.pop() else {
                unreachable!()
            };
            return Err(Unplaced { work });
        }
        Ok(())
    }

    /// Fetches each work over the lane's line, in order, and keeps the answers. It takes no memory but that of the
    /// fetches.
    pub fn run(&mut self)
        requires { self.old.answers ≡ [] }
        ensures { Ran L.line self.old self.new }
    {
        fetch_all(&mut self.line, &self.works, &mut self.answers);
    }

    /// Gives the line, the works and the answers back, the last two in the same order.
    pub fn parts(self) -> (L, Vec<Work>, Vec<Result<Reply, LineFault>>)
        ensures line { result.0 ≡ self.line }
        ensures works { result.1.items ≡ self.works }
        ensures answers { result.2.items ≡ self.answers }
    {
        let Lane {
            line,
            works,
            answers,
        } = self;
        (line, works, answers)
    }
}

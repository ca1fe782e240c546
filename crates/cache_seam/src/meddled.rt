use crate::foreign::meddle_next;
use crate::{Cache, Foreign};
use cache_book::{Book, Fill, Found, Notice, Pass, Settled, Tally, Voided};
use cache_terms::{Event, Key, Limits};
use flow_base::{Memory, Text};
use std::alloc::Global;
use std::collections::VecDeque;
use std::marker::Model;

/// A cache for tests, on a book on which a second user steps between its calls.
#[derive(Drop)]
pub struct Meddled {
    alloc: Global,
    book: Book,
    pass: Pass,
    pinned: u64,
    begun: bool,
    past: Vec<Event>,
    second: Pass,
    later: VecDeque<Vec<Foreign>>,
}

impl Model for Meddled {
    ghost use Rattle.cache_seam.specs.Meddling.{Meddling, IsBetweenCalls, seen_meddled, steps_of};

    ghost Value = { Meddling };

    ghost view = { λ m. record {
      seen = seen_meddled m.book m.pinned m.begun m.past.items;
      pass =
          m.second;
      later = steps_of m.later.items;
    } };

    ghost invariant = { λ m. IsBetweenCalls m.book m.pass m.pinned m.begun m.past.items m.second
        (steps_of m.later.items) };
}

impl Meddled {
    ghost use Rattle.std.specs.Prelude.{◌≡◌, true, [], All, IfOk};
    ghost use Rattle.cache_model.specs.State.{IsWithinRanges, opened};
    ghost use Rattle.cache_seam.specs.Meddling.{IsFitting, seen_meddled, steps_of};

    /// An empty book in epoch 0, under the number 0. Before its k-th call, from 0, the steps `foreign[k]` are done under
    /// the number 1, whose pass is that of its last `Begin`, and before its first one a pass of epoch 0. A step that
    /// finds no memory is left out. Fails only for want of memory.
    pub fn open(
        alloc: Global,
        limits: Limits,
        foreign: Vec<Vec<Foreign>>,
    ) -> Result<Meddled, Memory>
        requires limits { IsWithinRanges limits }
        requires offers { All (All IsFitting) (steps_of foreign.items) }
        ensures { IfOk result (λ m. m
            ≡ record {
              seen = seen_meddled (opened limits 0) 0 true
                  [];
              pass = record { who = 1; epoch = 0 };
              later = steps_of foreign.items;
            }) }
    {
        let mut book = Book::open(alloc, limits, 0)?;
        let pass = book.begin(0);
        let second = book.begin(1);
        Ok(Meddled {
            alloc,
            book,
            pass,
            pinned: 0,
            begun: true,
            past: Vec::new(alloc),
            second,
            later: VecDeque::from(foreign),
        })
    }
}

impl Cache for Meddled {
    ghost use Rattle.std.specs.Prelude.{◌≡◌, ◌≤◌, true, IfOk, OnErr};
    ghost use Rattle.std.specs.Option.{option_copied};
    ghost use Rattle.cache_book.specs.Calls as call;
    ghost use Rattle.cache_seam.specs.Meddling.{MeddledCall};
    ghost use Rattle.cache_book.specs.Settling.{MaySettle, IsInRange};
    ghost use Rattle.cache_seam.specs.Objects.{OffersObject};
    ghost use Rattle.cache_seam.specs.Seen.{pass_of};
    ghost use Rattle.cache_seam.specs.Turns.{Calls};

    ghost seen = { λ m. m.seen };

    fn begin(&mut self) -> u64
        ensures calls { Calls self.old.seen (call.Begin self.old.seen.number)
            (call.Begun (record { who = self.old.seen.number; epoch = result })) self.new.seen }
        ensures meddled { MeddledCall self.old (call.Begin self.old.seen.number)
            (call.Begun (record { who = self.old.seen.number; epoch = result })) self.new }
    {
        meddle_next(
            self.alloc,
            &mut self.later,
            self.pinned,
            &mut self.book,
            &mut self.second,
            &mut self.past,
        );
        self.pass = self.book.begin(0);
        self.pinned = self.pass.epoch();
        self.begun = true;
        self.pinned
    }

    fn look(&mut self, id: Option<&Text>, asks: Vec<Key>, now: u64) -> Result<Vec<Found>, Memory>
        requires { self.old.seen.begun ≡ true }
        ensures ok { IfOk result (λ answers. Calls self.old.seen
            (call.Look (pass_of self.old.seen) (option_copied id.entry) asks.items now)
            (call.Looked answers.items) self.new.seen) }
        ensures err { OnErr result
            (Calls self.old.seen (call.Look (pass_of self.old.seen)
            (option_copied id.entry) asks.items now) call.OutOfMemory self.new.seen) }
        ensures meddled { IfOk result
            (λ answers. MeddledCall self.old
            (call.Look (pass_of self.old.seen) (option_copied id.entry) asks.items now)
            (call.Looked answers.items) self.new) }
        ensures meddled_err { OnErr result
            (MeddledCall self.old
            (call.Look (pass_of self.old.seen) (option_copied id.entry) asks.items now)
            call.OutOfMemory self.new) }
    {
        meddle_next(
            self.alloc,
            &mut self.later,
            self.pinned,
            &mut self.book,
            &mut self.second,
            &mut self.past,
        );
        self.book.look(&self.pass, id, asks, now)
    }

    fn settle(&mut self, fill: Fill) -> Settled
        requires own { fill.permit.who ≡ self.old.seen.number }
        requires begun { fill.permit.epoch ≤ self.old.seen.left.epoch }
        requires may { MaySettle self.old.seen.left fill.permit }
        requires range { IsInRange fill.report }
        requires object { OffersObject fill.report }
        ensures calls { Calls self.old.seen (call.Settle fill.permit fill.report)
            (call.Closed result) self.new.seen }
        ensures meddled { MeddledCall self.old (call.Settle fill.permit fill.report)
            (call.Closed result) self.new }
    {
        meddle_next(
            self.alloc,
            &mut self.later,
            self.pinned,
            &mut self.book,
            &mut self.second,
            &mut self.past,
        );
        self.book.settle(fill)
    }

    fn invalidate(&mut self, notice: Notice) -> Voided
        ensures calls { Calls self.old.seen (call.Invalidate self.old.seen.number notice)
            (call.Voided result) self.new.seen }
        ensures meddled { MeddledCall self.old (call.Invalidate self.old.seen.number notice)
            (call.Voided result) self.new }
    {
        meddle_next(
            self.alloc,
            &mut self.later,
            self.pinned,
            &mut self.book,
            &mut self.second,
            &mut self.past,
        );
        let voided = self.book.invalidate(0, notice);
        self.begun = false;
        self.pinned = voided.epoch;
        voided
    }

    fn tally(&mut self) -> Tally
        ensures calls { Calls self.old.seen call.Tally (call.Tallied result) self.new.seen }
        ensures meddled { MeddledCall self.old call.Tally (call.Tallied result) self.new }
    {
        meddle_next(
            self.alloc,
            &mut self.later,
            self.pinned,
            &mut self.book,
            &mut self.second,
            &mut self.past,
        );
        self.book.tally()
    }
}

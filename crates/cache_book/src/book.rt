use crate::ask::bypass_all;
use crate::journal::Journal;
use crate::{Fill, Found, Notice, Pass, Permit, Settled, Tally, Turned, Voided};
use book_index::Stamps;
use cache_terms::{Event, Key, Limits, Mark, Outcome};
use flow_base::{Memory, Text};
use std::alloc::Global;
use std::marker::Model;

/// A cache for one epoch at a time, by the list of its events. Contracts see it as a `State`, which is legal and
/// whose limits are in their ranges.
#[derive(Drop)]
pub struct Book {
    epoch: u64,
    journal: Journal,
}

impl Model for Book {
    ghost use Rattle.cache_model.specs.State.{State};
    ghost use Rattle.cache_book.specs.Bounded.{in_epoch};

    ghost Value = { State };

    ghost view = { λ b. in_epoch b.epoch b.journal };
}

impl Book {
    ghost use Rattle.std.specs.Prelude.{◌≡◌, ◌+◌, ◌-◌, ◌^◌, ◌<◌, ◌≤◌, length, IfOk, OnErr};
    ghost use Rattle.std.specs.Option.{option_copied};
    ghost use Rattle.std.specs.FinMap as map;
    ghost use Rattle.cache_model.specs.Journal.{Started, reserved};
    ghost use Rattle.book_index.specs.Telling.{StampsTell, voids_above};
    ghost use Rattle.cache_book.specs.Stamping.{IsOldestOpen};
    ghost use Rattle.cache_model.specs.Legal.{IsLegal};
    ghost use Rattle.cache_model.specs.State.{State, IsWithinRanges, opened, turned};
    ghost use Rattle.cache_book.specs.Shown.{AreNew, tickets_of, AreChosen};
    ghost use Rattle.cache_book.specs.Owed.{AreOwed, KeepsPermits, KeepsOthers, KeepsEarlier};
    ghost use Rattle.cache_book.specs.Calls.{Step, Begin, Begun, Look, Looked, OutOfMemory};
    ghost use Rattle.cache_book.specs.Calls.{Settle, Closed, Invalidate, Tallied};
    ghost use Rattle.cache_book.specs.Calls as machine;
    ghost use Rattle.cache_book.specs.Settling.{MaySettle, IsInRange};
    ghost use Rattle.cache_book.specs.Voiding.{AppendsVoid};

    /// An empty journal in the epoch `first`. The room for its events is taken here.
    pub fn open(alloc: Global, limits: Limits, first: u64) -> Result<Book, Memory>
        requires { IsWithinRanges limits }
        ensures { IfOk result (λ b. b ≡ opened limits first) }
    {
        Ok(Book {
            epoch: first,
            journal: Journal::open(alloc, limits)?,
        })
    }

    /// Begins a request. The epoch turns where half of the events or half of the bytes are used, and a next
    /// epoch is left.
    pub fn begin(&mut self, who: u32) -> Pass
        ensures keeps { KeepsEarlier self.old self.new }
        ensures step { Step self.old (Begin who) (Begun result) self.new }
    {
        if self.journal.is_half_used() && self.epoch != u64::MAX {
            self.turn();
        }
        self.pass(who)
    }

    /// The next epoch, which is empty.
    fn turn(&mut self)
        requires { self.old.epoch < 2 ^ 64 - 1 }
        ensures turned { self.new ≡ turned self.old }
        ensures room { 1 ≤ self.new.limits.events }
    {
        self.epoch += 1;
        self.journal.clear();
    }

    /// A pass in the current epoch, for who has not begun a request. Takes no memory.
    pub fn pass(&self, who: u32) -> Pass
        ensures { result ≡ record { who = who; epoch = self.now.epoch } }
    {
        Pass::new(who, self.epoch)
    }

    /// Spends a permit. Where its ticket is open, the outcome that is due is appended; where that is Stored and no
    /// memory is found, it is Memory. Never refused, and else takes no memory.
    pub fn settle(&mut self, fill: Fill) -> Settled
        requires may { MaySettle self.old fill.permit }
        requires range { IsInRange fill.report }
        ensures keeps { KeepsOthers self.old fill.permit self.new }
        ensures step { Step self.old (Settle fill.permit fill.report) (Closed result) self.new }
    {
        let Fill { permit, report } = fill;
        let Permit {
            who,
            epoch,
            mark,
            key: _key,
            named: _named,
        } = permit;
        let Mark::Ticket(ticket) = mark else {
            return Settled {
                position: None,
                outcome: Outcome::Bypassed,
            };
        };
        if epoch != self.epoch {
            return Settled {
                position: None,
                outcome: Outcome::Over {
                    pinned: epoch,
                    current: self.epoch,
                },
            };
        }
        let position = self.journal.len();
        let outcome = self.journal.append_settle(who, ticket, report);
        Settled {
            position: Some(position),
            outcome,
        }
    }

    /// Answers each ask, in order: by the piece that is chosen, by a permit with a ticket, or by a permit without
    /// one. Fails only for want of memory, and then nothing has changed.
    pub fn look(
        &mut self,
        pass: &Pass,
        id: Option<&Text>,
        asks: Vec<Key>,
        now: u64,
    ) -> Result<Vec<Found>, Memory>
        ensures ok { IfOk result (λ answers.
            Step self.old (Look pass.now (option_copied id.entry) asks.items now)
            (Looked answers.items) self.new) }
        ensures owed { IfOk result (λ answers. AreOwed self.new answers.items) }
        ensures tickets { IfOk result (λ answers.
            AreNew self.old.journal (tickets_of answers.items)) }
        ensures chosen { IfOk result (λ answers.
            AreChosen self.old.journal (option_copied id.entry) now asks.items answers.items) }
        ensures keeps { KeepsPermits self.old self.new }
        ensures err { OnErr result
            (Step self.old (Look pass.now (option_copied id.entry) asks.items now)
            OutOfMemory self.new) }
    {
        match self.journal.bypass_mark(self.epoch, *pass, asks.len()) {
            Some(mark) => bypass_all(self.journal.alloc(), *pass, id, mark, asks),
            None => self.journal.ask_all(*pass, id, now, asks),
        }
    }

    /// Appends an invalidation, and counts the held pieces that it covers. It is never refused: where the journal
    /// has no room for it the epoch turns first, and in the last epoch nothing is held. Takes no memory.
    pub fn invalidate(&mut self, who: u32, notice: Notice) -> Voided
        ensures keeps { KeepsEarlier self.old self.new }
        ensures step { Step self.old (Invalidate who notice) (machine.Voided result) self.new }
    {
        match self.journal.turning(self.epoch) {
            Turned::No => self.void(who, notice, Turned::No),
            Turned::Full {
                length,
                reserved,
                limit,
            } => {
                self.turn();
                let full = Turned::Full {
                    length,
                    reserved,
                    limit,
                };
                self.void(who, notice, full)
            }
            Turned::Retired => Voided {
                epoch: self.epoch,
                position: 0,
                count: 0,
                turned: Turned::Retired,
            },
        }
    }

    /// Appends an Invalidate, and says where it stands and what it covers.
    fn void(&mut self, who: u32, notice: Notice, turned: Turned) -> Voided
        requires { length self.old.journal + reserved self.old.journal + 1
            ≤ self.old.limits.events }
        ensures { AppendsVoid self.old who notice turned result self.new }
    {
        let position = self.journal.len();
        let count = self.journal.append_void(who, notice);
        Voided {
            epoch: self.epoch,
            position,
            count,
            turned,
        }
    }

    /// How much of the journal is used. Takes no memory.
    pub fn tally(&self) -> Tally
        ensures { Step self.now machine.Tally (Tallied result) self.now }
    {
        Tally {
            epoch: self.epoch,
            events: self.journal.len(),
            bytes: self.journal.bytes(),
            pending: self.journal.reserved(),
        }
    }

    /// The events of the epoch. Takes no memory.
    pub fn journal(&self) -> &Vec<Event>
        ensures same { result.now.items ≡ self.now.journal }
        ensures legal { IsLegal self.now.limits self.now.journal }
        ensures ranges { IsWithinRanges self.now.limits }
    {
        self.journal.events()
    }

    /// The stamps of the invalidations that a settle may still have to heed: each target that was invalidated after the
    /// oldest open Start, at its last such position, and no other. None where no ticket is open. Takes no memory.
    pub fn stamps(&self) -> &Stamps
        ensures probes { result.now.probes ≡ self.now.probes }
        ensures none { reserved self.now.journal ≡ 0 → result.now.stamps ≡ map.empty }
        ensures told { (s : Started) → IsOldestOpen self.now.journal s
            → StampsTell self.now.journal s.at result.now.stamps }
        ensures few { (s : Started) → IsOldestOpen self.now.journal s
            → map.len result.now.stamps ≤ voids_above self.now.journal s.at }
    {
        self.journal.stamps()
    }
}

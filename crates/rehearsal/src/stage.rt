ghost use Rattle.std.specs.Prelude.{◌≡◌};
ghost use Rattle.rehearsal.specs.Replied.{begun_by};

use crate::acts::ask;
use crate::hand::Hand;
use crate::offers::{offered, replied, stated};
use crate::passes::Passes;
use cache_book::{Book, Fill, Notice, Report, Turned};
use cache_terms::{Key, Target};
use flow_base::{Memory, Text};
use script_lines::{Cause, Command, Reply, is_quiet, read_command};
use std::alloc::Global;
use std::marker::Model;

/// How a rehearsal ends.
#[derive(Clone, Copy, Debug, PartialEq, Eq)]
pub enum Ending {
    Finished,
    Refused,
    SourceFailed,
    SinkFailed,
    NoMemory,
}

/// What came of a line.
#[derive(Drop)]
pub enum Played {
    Quiet,
    Replied(Reply),
    Refused(Cause),
}

/// A book with the passes that were begun and the permits in hand. It ends by `end`.
pub struct Stage {
    alloc: Global,
    book: Book,
    passes: Passes,
    hand: Hand,
}

impl Model for Stage {
    ghost use Rattle.rehearsal.specs.Scene.{Scene};
    ghost use Rattle.rehearsal.specs.InHand.{IsReady};
    ghost use Rattle.std.specs.Coded.{codes};
    ghost use Rattle.cache_book.specs.contracts.book.Book as book_type;
    ghost use Rattle.rehearsal.specs.contracts.passes.Passes as passes_type;
    ghost use Rattle.rehearsal.specs.contracts.hand.Hand as hand_type;

    ghost Value = { Scene };

    ghost coded = { Prim.hlevel (
      codes,
      book_type.the_row.coded,
      passes_type.the_row.coded,
      hand_type.the_row.coded,
    ) };

    ghost view = { λ s. record { book = s.book; passes = s.passes; hand = s.hand } };

    ghost invariant = { λ s. IsReady s.book s.hand };
}

impl Stage {
    ghost use Rattle.std.specs.Prelude.{◌≡◌, [], ◌∷◌, ◌++◌, codes, ◌≤◌, IfOk};
    ghost use Rattle.cache_model.specs.State.{IsWithinRanges};
    ghost use Rattle.cache_book.specs.Settling.{IsInRange};
    ghost use Rattle.script_lines.specs.declared.commands.Command.TheVariants as command;
    ghost use Rattle.rehearsal.specs.Scene.{opening};
    ghost use Rattle.rehearsal.specs.Acts.{DoesBegin, DoesVoid, DoesTally};
    ghost use Rattle.rehearsal.specs.Answering.{AnswersLine, Carries, CarriesSettle, StatesSpans};

    pub fn open(alloc: Global, limits: cache_terms::Limits) -> Result<Stage, Memory>
        requires { IsWithinRanges limits }
        ensures { IfOk result (λ s. s ≡ opening limits) }
    {
        Ok(Stage {
            alloc,
            book: Book::open(alloc, limits, 0)?,
            passes: Passes::new(alloc),
            hand: Hand::new(alloc),
        })
    }

    /// AnswersLine a line.
    pub fn answer(&mut self, line: &str) -> Result<Played, Memory>
        ensures { IfOk result (λ a. AnswersLine self.old line.now a self.new) }
    {
        if is_quiet(line) {
            return Ok(Played::Quiet);
        }
        match read_command(self.alloc, line)? {
            None => Ok(Played::Refused(Cause::Word)),
            Some(command) => self.carry_out(command),
        }
    }

    fn carry_out(&mut self, command: Command) -> Result<Played, Memory>
        requires { StatesSpans command }
        ensures { IfOk result (λ a. Carries self.old command a self.new) }
    {
        match command {
            Command::Begin { who } => Ok(Played::Replied(self.begin(who)?)),
            Command::Look { who, id, now, key } => self.look(who, id, now, key),
            Command::Settle {
                epoch,
                ticket,
                lifetime,
                age,
                private,
                tags,
                value,
            } => {
                let offer = offered(200, stated(lifetime, age, private), tags, value);
                Ok(self.settle(epoch, ticket, Report::Got(offer)))
            }
            Command::Fail { epoch, ticket } => { Ok(self.settle(epoch, ticket, Report::Failed)) }
            Command::Reply {
                epoch,
                ticket,
                status,
                age,
                tags,
                value,
                cache_control,
            } => {
                let offer = replied(status, cache_control.as_ref(), age.as_ref(), tags, value);
                Ok(self.settle(epoch, ticket, Report::Got(offer)))
            }
            Command::Void { who, target } => Ok(Played::Replied(self.void(who, &target)?)),
            Command::Tally => Ok(Played::Replied(self.tally())),
        }
    }

    fn begin(&mut self, who: u32) -> Result<Reply, Memory>
        ensures { IfOk result (λ reply. DoesBegin self.old who reply self.new) }
    {
        let pass = self.book.begin(who);
        let epoch = pass.epoch();
        self.passes.note(pass)?;
        Ok(Reply::Epoch { epoch })
    }

    fn look(&mut self, who: u32, id: Option<Text>, now: u64, key: Key) -> Result<Played, Memory>
        ensures { IfOk result (λ a. Carries self.old (command.Look who id now key) a self.new) }
    {
        match self.passes.last(who) {
            None => Ok(Played::Refused(Cause::Who)),
            Some(pass) => Ok(Played::Replied(ask(
                self.alloc,
                &mut self.book,
                &mut self.hand,
                pass,
                id.as_ref(),
                now,
                key,
            )?)),
        }
    }

    fn settle(&mut self, epoch: u64, ticket: u64, report: Report) -> Played
        requires { IsInRange report }
        ensures { CarriesSettle self.old epoch ticket report result self.new }
    {
        match self.hand.take(epoch, ticket) {
            None => Played::Refused(Cause::Ticket),
            Some(permit) => {
                let settled = self.book.settle(Fill { permit, report });
                Played::Replied(Reply::Settled {
                    position: settled.position,
                    outcome: settled.outcome,
                })
            }
        }
    }

    fn void(&mut self, who: u32, target: &Target) -> Result<Reply, Memory>
        ensures { IfOk result (λ reply. DoesVoid self.old who target.now reply self.new) }
    {
        let notice = Notice::of(target)?;
        let answer = self.book.invalidate(who, notice);
        Ok(Reply::Voided {
            began: begun_by(answer.turned, answer.epoch),
            position: answer.position,
            count: answer.count,
        })
    }

    fn tally(&mut self) -> Reply
        ensures { DoesTally self.old result self.new }
    {
        let tally = self.book.tally();
        Reply::Tally {
            epoch: tally.epoch,
            events: tally.events,
            bytes: tally.bytes,
            pending: tally.pending,
        }
    }

    /// Settles the permits in hand as Failed.
    pub fn end(self) {
        let Stage {
            alloc: _,
            book,
            passes: _passes,
            hand,
        } = self;
        let mut book = book;
        hand.give_back(&mut book);
    }
}

/// The epoch that an invalidation began, if it did.
fn begun_by(turned: Turned, epoch: u64) -> Option<u64>
    ensures { result ≡ begun_by turned epoch }
{
    match turned {
        Turned::Full {
            length: _,
            reserved: _,
            limit: _,
        } => Some(epoch),
        Turned::No => None,
        Turned::Retired => None,
    }
}

ghost use Rattle.std.specs.Prelude.{◌≡◌, ◌+◌, ◌*◌, ◌<◌, ◌≤◌, ℕ, length, take, vec_capacity, IfOk};
ghost use Rattle.std.specs.Prelude.{[], ◌∷◌, ◌++◌, OnErr, Some, None, Option};
ghost use Rattle.std.specs.Option.{option_copied};
ghost use Rattle.cache_terms.specs.Keys.{key_bytes};
ghost use Rattle.cache_model.specs.Journal.{reserved, IsChoice};
ghost use Rattle.cache_terms.specs.declared.events.Event.TheVariants.{Lookup};
ghost use Rattle.cache_model.specs.Soundness.{IsSound};
ghost use Rattle.cache_book.specs.Bounded.{in_epoch, KeepsOpen, WentOn};
ghost use Rattle.cache_book.specs.Looking.{Asked, AskedAll, granted, bypassed, bypass_mark};
ghost use Rattle.cache_book.specs.Owed.{AreOwed};
ghost use Rattle.book_tables.specs.Refs.{IsGoodAt};
ghost use Rattle.book_tables.specs.Standing.{StandsFor, IsRegular};
ghost use Rattle.cache_book.specs.Shown.{AreNew, tickets_of, AreChosen};

use crate::journal::Journal;
use crate::{Found, Pass, Permit};
use book_tables::Tables;
use cache_terms::{Event, Key, Mark};
use flow_base::{Memory, Text};
use std::alloc::Global;

/// The longest key that is kept.
const WIDEST: u64 = 16384;

fn copy_id(id: Option<&Text>) -> Result<Option<Text>, Memory>
    ensures { IfOk result (λ copy. copy ≡ option_copied id.entry) }
{
    match id {
        Some(id) => Ok(Some(id.copy()?)),
        None => Ok(None),
    }
}

/// The permit for an ask of this pass.
fn permit_for(pass: Pass, id: Option<&Text>, mark: Mark, key: Key) -> Permit
    ensures { result ≡ granted pass (option_copied id.entry) mark key }
{
    Permit {
        who: pass.who(),
        epoch: pass.epoch(),
        mark,
        key,
        named: id.is_some(),
    }
}

/// Answers an ask for which nothing can be chosen.
fn miss(
    events: &mut Vec<Event>,
    tables: &mut Tables,
    pass: Pass,
    id: Option<&Text>,
    now: u64,
    key: Key,
) -> Result<Found, Memory>
    requires room { length events.old.items + 2 ≤ vec_capacity events.old }
    requires narrow { key_bytes key ≤ 16384 }
    requires choice { IsChoice events.old.items key (option_copied id) now None }
    requires stands { StandsFor tables.old events.old.items }
    requires regular { IsRegular
        (events.old.items ++ Lookup pass.who key (option_copied id) now None ∷ []) }
    requires slots { length events.old.items + 2 ≤ tables.old.stamps.limit }
    ensures ok { IfOk result (λ answer.
        Asked pass (option_copied id.entry) now key events.old.items answer events.new.items) }
    ensures err { OnErr result (events.new.items ≡ events.old.items) }
    ensures capacity { vec_capacity events.old ≤ vec_capacity events.new }
    ensures stands { StandsFor tables.new events.new.items }
    ensures stamps { tables.new.stamps ≡ tables.old.stamps }
{
    let lookup = events.len() as u64;
    let ticket = tables.starts();
    let who = pass.who();
    let looked = Event::Lookup {
        who,
        key: key.copy()?,
        id: copy_id(id)?,
        now,
        hit: None,
    };
    let started = Event::Start {
        who,
        ticket,
        key: key.copy()?,
        id: copy_id(id)?,
        now,
    };
    events.push(looked).unwrap();
    tables.note_start(events);
    events.push(started).unwrap();
    Ok(Found::Miss {
        lookup,
        permit: permit_for(pass, id, Mark::Ticket(ticket), key),
    })
}

/// Answers an ask by the piece that is chosen.
fn hit(
    events: &mut Vec<Event>,
    tables: &Tables,
    pass: Pass,
    id: Option<&Text>,
    now: u64,
    key: Key,
    at: usize,
) -> Result<Found, Memory>
    requires sound { IsSound events.old.items }
    requires room { length events.old.items < vec_capacity events.old }
    requires narrow { key_bytes key ≤ 16384 }
    requires choice { IsChoice events.old.items key (option_copied id) now (Some at) }
    requires kept { IsGoodAt events.old.items now at }
    requires stands { StandsFor tables.now events.old.items }
    requires regular { IsRegular events.old.items }
    ensures ok { IfOk result (λ answer.
        Asked pass (option_copied id.entry) now key events.old.items answer events.new.items) }
    ensures err { OnErr result (events.new.items ≡ events.old.items) }
    ensures capacity { vec_capacity events.old ≤ vec_capacity events.new }
    ensures stands { StandsFor tables.now events.new.items }
{
    let kept = tables.kept(events, at).unwrap();
    let left_ms = kept.remaining(now).unwrap();
    let private = kept.got.verdict.private;
    let value = kept.got.value.as_ref().unwrap().copy()?;
    let lookup = events.len() as u64;
    let looked = Event::Lookup {
        who: pass.who(),
        key,
        id: copy_id(id)?,
        now,
        hit: Some(at as u64),
    };
    events.push(looked).unwrap();
    Ok(Found::Hit {
        lookup,
        stored: at as u64,
        value,
        left_ms,
        private,
    })
}

impl Journal {
    /// Answers one ask.
    fn ask(&mut self, pass: Pass, id: Option<&Text>, now: u64, key: Key) -> Result<Found, Memory>
        requires room { length self.old.events + reserved self.old.events + 3
            ≤ self.old.limits.events }
        ensures limits { self.new.limits ≡ self.old.limits }
        ensures probes { self.new.probes ≡ self.old.probes }
        ensures ok { IfOk result (λ answer.
            Asked pass (option_copied id.entry) now key self.old.events answer self.new.events) }
        ensures err { OnErr result (self.new.events ≡ self.old.events) }
    {
        let bytes = key.bytes();
        if bytes > WIDEST {
            let mark = Mark::Wide {
                bytes,
                limit: WIDEST,
            };
            return Ok(Found::Bypass {
                permit: permit_for(pass, id, mark, key),
            });
        }
        match self.tables.chosen(&self.events, &key, id, now) {
            Some(at) => hit(&mut self.events, &self.tables, pass, id, now, key, at),
            None => miss(&mut self.events, &mut self.tables, pass, id, now, key),
        }
    }

    /// Goes back to a front from which the events went on with Lookups and Starts alone.
    fn roll_back(&mut self, len: usize, started: usize)
        requires { WentOn self.old.limits self.old.events len started }
        ensures limits { self.new.limits ≡ self.old.limits }
        ensures probes { self.new.probes ≡ self.old.probes }
        ensures front { self.new.events ≡ take len self.old.events }
    {
        self.events.truncate(len);
        self.tables.roll_back(started);
    }

    /// Answers the asks in order, or leaves the events as they were.
    pub fn ask_all(
        &mut self,
        pass: Pass,
        id: Option<&Text>,
        now: u64,
        asks: Vec<Key>,
    ) -> Result<Vec<Found>, Memory>
        requires room { length self.old.events + reserved self.old.events + 3 * length asks.items
            ≤ self.old.limits.events }
        ensures limits { self.new.limits ≡ self.old.limits }
        ensures probes { self.new.probes ≡ self.old.probes }
        ensures ok { IfOk result (λ answers.
            AskedAll pass (option_copied id.entry) now asks.items
            self.old.events answers.items self.new.events) }
        ensures err { OnErr result (self.new.events ≡ self.old.events) }
        ensures owed { IfOk result (λ answers.
            (epoch : ℕ) → AreOwed (in_epoch epoch self.new) answers.items) }
        ensures keeps { KeepsOpen self.old.events self.new.events }
        ensures tickets { IfOk result (λ answers.
            AreNew self.old.events (tickets_of answers.items)) }
        ensures chosen { IfOk result (λ answers.
            AreChosen self.old.events (option_copied id.entry) now asks.items answers.items) }
    {
        let before = self.events.len();
        let started = self.tables.starts() as usize;
        let mut answers = Vec::with_capacity(*self.events.allocator(), asks.len())?;
        'asks: for key in asks {
            match self.ask(pass, id, now, key) {
                Ok(answer) => answers.push(answer).unwrap(),
                Err(memory) => {
                    self.roll_back(before, started);
                    discard(answers);
                    return Err(memory);
                }
            }
        }
        Ok(answers)
    }

    /// Why a whole look goes past the journal, if it does.
    pub fn bypass_mark(&self, epoch: u64, pass: Pass, asks: usize) -> Option<Mark>
        ensures { result ≡ bypass_mark (in_epoch epoch self.now) pass asks }
    {
        if epoch == u64::MAX {
            return Some(Mark::Retired);
        }
        if pass.epoch() != epoch {
            return Some(Mark::Over {
                pinned: pass.epoch(),
                current: epoch,
            });
        }
        let length = self.events.len() as u64;
        let reserved = self.reserved();
        let needed = (asks as u64).saturating_mul(3);
        if length.saturating_add(reserved).saturating_add(needed) > self.limits.events {
            return Some(Mark::Full {
                length,
                reserved,
                needed,
                limit: self.limits.events,
            });
        }
        None
    }
}

/// Lets go of answers that nobody was given.
pub fn discard(answers: Vec<Found>) {
    let mut answers = answers;
    while let Some(answer) = answers.pop() {
        match answer {
            Found::Hit {
                lookup: _,
                stored: _,
                value: _value,
                left_ms: _,
                private: _,
            } => {}
            Found::Miss { lookup: _, permit } => permit.discard(),
            Found::Bypass { permit } => permit.discard(),
        }
    }
    answers.destroy_empty();
}

/// Answers all asks by permits without a ticket.
pub fn bypass_all(
    alloc: Global,
    pass: Pass,
    id: Option<&Text>,
    mark: Mark,
    asks: Vec<Key>,
) -> Result<Vec<Found>, Memory>
    ensures { IfOk result (λ answers.
        answers.items ≡ bypassed pass (option_copied id.entry) mark asks.items) }
{
    let mut answers = Vec::with_capacity(alloc, asks.len())?;
    'asks: for key in asks {
        let permit = permit_for(pass, id, mark, key);
        answers.push(Found::Bypass { permit }).unwrap();
    }
    Ok(answers)
}

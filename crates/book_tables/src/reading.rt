ghost use Rattle.std.specs.Prelude.{◌≡◌, IfSome};
ghost use Rattle.std.specs.Option.{option_copied};
ghost use Rattle.cache_model.specs.Journal.{start_of, kept_at, IsServed, IsChoice};
ghost use Rattle.cache_model.specs.Soundness.{IsSound};
ghost use Rattle.book_tables.specs.Standing.{StandsFor};
ghost use Rattle.book_tables.specs.Pieces.{AreStarts};
ghost use Rattle.book_tables.specs.Refs.{start_seen, kept_seen, IsGoodAt, start_at};

use crate::{KeptRef, StartRef, Tables};
use cache_terms::{Event, Key, Outcome};
use flow_base::Text;

/// The Start that stands at a position, if one does.
fn start_at(events: &[Event], at: usize) -> Option<StartRef<'_>>
    ensures { start_seen result ≡ start_at events.now at }
{
    match events.get(at)? {
        Event::Start {
            who,
            ticket: _,
            key,
            id,
            now,
        } => Some(StartRef {
            who: *who,
            key,
            id,
            since: *now,
            at,
        }),
        _ => None,
    }
}

/// The Start of a ticket, by the positions of the Starts.
pub fn start_in<'a>(starts: &[u64], events: &'a [Event], ticket: u64) -> Option<StartRef<'a>>
    requires { AreStarts starts.now events.now }
    ensures { start_seen result ≡ start_of events.now ticket }
{
    let at = *starts.get(ticket as usize)?;
    start_at(events, at as usize)
}

/// What is kept at a position, by the positions of the Starts.
pub fn kept_in<'a>(starts: &[u64], events: &'a [Event], at: usize) -> Option<KeptRef<'a>>
    requires { AreStarts starts.now events.now }
    ensures { kept_seen result ≡ kept_at events.now at }
{
    match events.get(at)? {
        Event::Settle {
            ticket,
            got: Some(got),
            outcome: Outcome::Stored,
            ..
        } => {
            let start = start_in(starts, events, *ticket)?;
            Some(KeptRef { start, got })
        }
        _ => None,
    }
}

impl Tables {
    /// The Start of a ticket. Takes no memory.
    pub fn start<'a>(&self, events: &'a [Event], ticket: u64) -> Option<StartRef<'a>>
        requires { StandsFor self.now events.now }
        ensures { start_seen result ≡ start_of events.now ticket }
    {
        start_in(&self.starts, events, ticket)
    }

    /// What is kept at a position. Takes no memory.
    pub fn kept<'a>(&self, events: &'a [Event], at: usize) -> Option<KeptRef<'a>>
        requires { StandsFor self.now events.now }
        ensures { kept_seen result ≡ kept_at events.now at }
    {
        kept_in(&self.starts, events, at)
    }

    /// The position that serves the key in the scope. Takes no memory.
    fn served(&self, events: &[Event], key: &Key, scope: Option<&Text>, now: u64) -> Option<usize>
        requires stands { StandsFor self.now events.now }
        requires sound { IsSound events.now }
        ensures serves { IsServed events.now key.now (option_copied scope.entry) now result }
        ensures kept { IfSome result (IsGoodAt events.now now) }
    {
        let at = self.keys.get(key, scope)? as usize;
        let kept = self.kept(events, at)?;
        kept.remaining(now)?;
        Some(at)
    }

    /// The position that is chosen for a key and an id: the caller's own piece, or else the public
    /// one. Takes no memory.
    pub fn chosen(&self, events: &[Event], key: &Key, id: Option<&Text>, now: u64) -> Option<usize>
        requires stands { StandsFor self.now events.now }
        requires sound { IsSound events.now }
        ensures choice { IsChoice events.now key.now (option_copied id.entry) now result }
        ensures kept { IfSome result (IsGoodAt events.now now) }
    {
        match id {
            None => self.served(events, key, None, now),
            Some(_) => match self.served(events, key, id, now) {
                Some(at) => Some(at),
                None => self.served(events, key, None, now),
            },
        }
    }
}

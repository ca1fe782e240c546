use book_index::Stamps;
use book_tables::Tables;
use cache_terms::{Event, Limits};
use flow_base::Memory;
use std::alloc::Global;
use std::marker::Model;

/// The events of an epoch with their limits, and the tables that stand for them. The events are legal, the limits are
/// in their ranges, and there is room for as many events as they allow, so that an event which fits is appended
/// without memory.
#[derive(Drop)]
pub struct Journal {
    pub(crate) limits: Limits,
    pub(crate) events: Vec<Event>,
    pub(crate) tables: Tables,
}

impl Model for Journal {
    ghost use Rattle.std.specs.Prelude.{◌≡◌, ◌≤◌, vec_capacity};
    ghost use Rattle.cache_book.specs.Bounded.{Bounded};
    ghost use Rattle.cache_model.specs.State.{IsWithinRanges};
    ghost use Rattle.cache_model.specs.Legal.{IsLegal};
    ghost use Rattle.book_tables.specs.Standing.{StandsFor};

    ghost Value = { Bounded };

    ghost view = { λ j. record {
      limits = j.limits;
      events = j.events.items;
      probes = j.tables.stamps.probes;
    } };

    ghost invariant = { λ j. IsLegal j.limits j.events.items
        × IsWithinRanges j.limits
        × (j.limits.events ≤ vec_capacity j.events)
        × StandsFor j.tables j.events.items
        × (j.tables.stamps.limit ≡ j.limits.events) };
}

impl Journal {
    ghost use Rattle.std.specs.Prelude.{◌≡◌, ◌*◌, ◌≤◌, [], length, IfOk, nat_le, ◌||◌};
    ghost use Rattle.std.specs.FinMap as map;
    ghost use Rattle.cache_model.specs.State.{IsWithinRanges};
    ghost use Rattle.cache_model.specs.Legal.{IsLegal};
    ghost use Rattle.cache_model.specs.Journal.{Started, bytes, reserved};
    ghost use Rattle.book_index.specs.Telling.{StampsTell, voids_above};
    ghost use Rattle.cache_book.specs.Stamping.{IsOldestOpen};

    /// No events. The room for them is taken here.
    pub fn open(alloc: Global, limits: Limits) -> Result<Journal, Memory>
        requires { IsWithinRanges limits }
        ensures { IfOk result (λ j. j ≡ record { limits = limits; events = []; probes = 0 }) }
    {
        Ok(Journal {
            limits,
            events: Vec::with_capacity(alloc, limits.events as usize)?,
            tables: Tables::open(alloc, limits.events)?,
        })
    }

    /// Takes all events away.
    pub fn clear(&mut self)
        ensures empty { self.new ≡ record self.old { events = [] } }
        ensures room { 8 ≤ self.new.limits.events }
    {
        self.events.clear();
        self.tables.clear();
    }

    pub fn alloc(&self) -> Global {
        *self.events.allocator()
    }

    pub fn events(&self) -> &Vec<Event>
        ensures same { result.now.items ≡ self.now.events }
        ensures legal { IsLegal self.now.limits self.now.events }
        ensures ranges { IsWithinRanges self.now.limits }
    {
        &self.events
    }

    /// The stamps of the invalidations after the oldest open Start.
    pub fn stamps(&self) -> &Stamps
        ensures probes { result.now.probes ≡ self.now.probes }
        ensures none { reserved self.now.events ≡ 0 → result.now.stamps ≡ map.empty }
        ensures told { (s : Started) → IsOldestOpen self.now.events s
            → StampsTell self.now.events s.at result.now.stamps }
        ensures few { (s : Started) → IsOldestOpen self.now.events s
            → map.len result.now.stamps ≤ voids_above self.now.events s.at }
    {
        self.tables.stamps()
    }

    pub fn len(&self) -> u64
        ensures { result ≡ length self.now.events }
    {
        self.events.len() as u64
    }

    /// The sizes of the pieces that are kept.
    pub fn bytes(&self) -> u64
        ensures { result ≡ bytes self.now.events }
    {
        self.tables.bytes()
    }

    /// The number of open tickets.
    pub fn reserved(&self) -> u64
        ensures { result ≡ reserved self.now.events }
    {
        self.tables.reserved()
    }

    /// Whether half of the events or half of the bytes are used.
    pub fn is_half_used(&self) -> bool
        ensures { result
            ≡ (nat_le self.now.limits.events (2 * length self.now.events)
            || nat_le self.now.limits.bytes (2 * bytes self.now.events)) }
    {
        let twice_events = 2 * self.events.len() as u64;
        let twice_bytes = 2 * self.bytes();
        twice_events >= self.limits.events || twice_bytes >= self.limits.bytes
    }
}

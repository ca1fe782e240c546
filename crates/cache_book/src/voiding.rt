ghost use Rattle.std.specs.Prelude.{◌≡◌, ◌+◌, ◌≤◌, length, [], ◌∷◌, ◌++◌};
ghost use Rattle.cache_terms.specs.declared.events.Event.TheVariants.{Invalidate};
ghost use Rattle.cache_model.specs.Journal.{reserved, IsHeldUnder, IsCount};
ghost use Rattle.cache_book.specs.Bounded.{in_epoch};
ghost use Rattle.cache_book.specs.Voiding.{turning};

use crate::journal::Journal;
use crate::{Notice, Turned};
use cache_terms::Event;

impl Journal {
    /// Whether an invalidation turns the epoch.
    pub fn turning(&self, epoch: u64) -> Turned
        ensures { result ≡ turning (in_epoch epoch self.now) }
    {
        if epoch == u64::MAX {
            return Turned::Retired;
        }
        let length = self.events.len() as u64;
        let reserved = self.reserved();
        if length.saturating_add(reserved).saturating_add(1) > self.limits.events {
            return Turned::Full {
                length,
                reserved,
                limit: self.limits.events,
            };
        }
        Turned::No
    }

    /// Appends an Invalidate, which needs the room for one event, and counts what it covers.
    pub fn append_void(&mut self, who: u32, notice: Notice) -> u64
        requires free { length self.old.events + reserved self.old.events + 1
            ≤ self.old.limits.events }
        ensures limits { self.new.limits ≡ self.old.limits }
        ensures probes { self.new.probes ≡ self.old.probes }
        ensures after { self.new.events ≡ self.old.events ++ Invalidate who notice result ∷ [] }
        ensures count { IsCount (IsHeldUnder self.old.events notice)
            (length self.old.events) result }
    {
        let (target, stamp) = notice.into_targets();
        let count = self.tables.void(&self.events, stamp);
        let void = Event::Invalidate { who, target, count };
        self.events.push(void).unwrap();
        count
    }
}

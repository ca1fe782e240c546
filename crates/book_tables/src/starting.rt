ghost use Rattle.std.specs.Prelude.{◌≡◌, ℕ, ◌<◌, List, [], ◌∷◌, ◌++◌, length, Option};
ghost use Rattle.cache_terms.specs.declared.keys.Key.{Key};
ghost use Rattle.cache_terms.specs.declared.events.Event.TheVariants.{Start};
ghost use Rattle.cache_model.specs.Journal.{starts};
ghost use Rattle.book_tables.specs.Standing.{StandsFor, IsRegular, RollsBack};

use crate::Tables;
use cache_terms::Event;

impl Tables {
    /// Notes the Start that comes next after the events. Takes no memory.
    pub fn note_start(&mut self, events: &[Event])
        requires stands { StandsFor self.old events.now }
        requires regular { IsRegular events.now }
        requires room { length events.now < self.old.stamps.limit }
        ensures stands { (who : ℕ) (key : Key) (id : Option (List ℕ)) (now : ℕ)
            → StandsFor self.new (events.now ++ Start who (starts events.now) key id now ∷ []) }
        ensures stamps { self.new.stamps ≡ self.old.stamps }
    {
        self.starts.push(events.len() as u64).unwrap();
        self.settled.push(false).unwrap();
        self.pending += 1;
    }

    /// Goes back to the tables of a front with so many Starts, from which the journal went on with
    /// Lookups and Starts alone. Takes no memory.
    pub fn roll_back(&mut self, starts: usize)
        ensures stands { RollsBack self.old starts self.new }
        ensures limit { self.new.stamps.limit ≡ self.old.stamps.limit }
        ensures probes { self.new.stamps.probes ≡ self.old.stamps.probes }
    {
        let dropped = self.starts.len().saturating_sub(starts) as u64;
        self.starts.truncate(starts);
        self.settled.truncate(starts);
        self.pending = self.pending.saturating_sub(dropped);
        if self.oldest >= starts {
            self.oldest = starts;
            self.stamps.clear();
        }
    }
}

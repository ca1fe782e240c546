ghost use Rattle.std.specs.Prelude.{◌≡◌, ◌+◌, ◌<◌, length};
ghost use Rattle.cache_model.specs.Journal.{IsCount, IsHeld, IsHeldUnder};
ghost use Rattle.book_index.specs.Under.{under};
ghost use Rattle.book_tables.specs.Closing.{StandsVoided};
ghost use Rattle.book_tables.specs.Pieces.{AreStarts, Keyed, Targeted, Partly, Uncovered};
ghost use Rattle.book_tables.specs.Standing.{StandsFor, IsRegular};

use crate::Tables;
use crate::reading::kept_in;
use book_index::{KeyIndex, TagIndex};
use cache_terms::{Event, Target};

/// Takes out one of the held pieces under a target, and says how many are left.
fn drop_one(
    starts: &[u64],
    keys: &mut KeyIndex,
    holders: &mut TagIndex,
    events: &[Event],
    target: &Target,
) -> usize
    requires starts { AreStarts starts.now events.now }
    requires keyed { Keyed keys.old (Partly events.now target.now holders.old) }
    requires targeted { Targeted holders.old (Partly events.now target.now holders.old) }
    requires some { 0 < length (under holders.old target.now) }
    ensures keyed { Keyed keys.new (Partly events.now target.now holders.new) }
    ensures targeted { Targeted holders.new (Partly events.now target.now holders.new) }
    ensures left { result ≡ length (under holders.new target.now) }
    ensures fewer { result + 1 ≡ length (under holders.old target.now) }
{
    let at = holders.under(target)[0];
    let kept = kept_in(starts, events, at as usize).unwrap();
    keys.remove(kept.start.key, kept.scope());
    holders.remove(kept.start.key, &kept.got.tags, at);
    holders.under(target).len()
}

/// Takes out the held pieces under a target, and counts them.
fn drop_all(
    starts: &[u64],
    keys: &mut KeyIndex,
    holders: &mut TagIndex,
    events: &[Event],
    target: &Target,
) -> u64
    requires starts { AreStarts starts.now events.now }
    requires keyed { Keyed keys.old (IsHeld events.now) }
    requires targeted { Targeted holders.old (IsHeld events.now) }
    ensures keyed { Keyed keys.new (Uncovered events.now target.now) }
    ensures targeted { Targeted holders.new (Uncovered events.now target.now) }
    ensures count { IsCount (IsHeldUnder events.now target.now) (length events.now) result }
{
    let count = holders.under(target).len();
    for _ in 0..count {
        drop_one(starts, keys, holders, events, target);
    }
    count as u64
}

impl Tables {
    /// Notes the Invalidate of a target that comes next after the events, and counts the held
    /// pieces that it covers. Costs what it covers. Takes no memory.
    pub fn void(&mut self, events: &[Event], target: Target) -> u64
        requires stands { StandsFor self.old events.now }
        requires regular { IsRegular events.now }
        requires room { length events.now < self.old.stamps.limit }
        ensures count { IsCount (IsHeldUnder events.now target) (length events.now) result }
        ensures stands { StandsVoided self.new events.now target result }
        ensures limit { self.new.stamps.limit ≡ self.old.stamps.limit }
        ensures probes { self.new.stamps.probes ≡ self.old.stamps.probes }
    {
        let count = drop_all(
            &self.starts,
            &mut self.keys,
            &mut self.holders,
            events,
            &target,
        );
        if self.oldest < self.starts.len() {
            self.stamps.note(target, events.len() as u64);
        }
        count
    }
}

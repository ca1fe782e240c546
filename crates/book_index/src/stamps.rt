ghost use Rattle.std.specs.Prelude.{◌≡◌, ◌+◌, ◌^◌, ◌<◌, length};
ghost use Rattle.cache_model.specs.Journal.{IsLast};
ghost use Rattle.book_index.specs.Stamps.{probed, IsNotedFor, IsTagNoted, known_tags, later};

use crate::table::Table;
use crate::targets::TargetRef;
use cache_terms::{Key, Tags, Target};
use flow_base::{Memory, Text};
use std::alloc::Global;
use std::marker::Model;

/// The last position that was noted for each target. Contracts see a limit, the number of probes,
/// and a finite map from targets to positions.
#[derive(Debug, Drop)]
pub struct Stamps {
    table: Table,
}

impl Model for Stamps {
    ghost use Rattle.book_index.specs.Stamps.{Stamped, coded_stamped};

    ghost Value = { Stamped };

    ghost coded = { coded_stamped };

    ghost view = { λ s. s.table };
}

impl Stamps {
    ghost use Rattle.std.specs.Prelude.{◌≡◌, ◌<◌, ◌≤◌, ◌+◌, length, IfOk};
    ghost use Rattle.std.specs.FinMap as map;
    ghost use Rattle.cache_model.specs.Journal.{IsLast};
    ghost use Rattle.book_index.specs.Stamps.{unstamped, probed, noted, cleared, IsPruned};
    ghost use Rattle.book_index.specs.Stamps.{IsNotedFor, known_tags};

    /// No stamps, with room for `limit`. Fails only for want of memory.
    pub fn open(alloc: Global, limit: u64) -> Result<Stamps, Memory>
        ensures opened { IfOk result (λ s. s ≡ unstamped limit) }
        ensures none { IfOk result (λ s. map.len s.stamps ≡ 0) }
    {
        Ok(Stamps {
            table: Table::open(alloc, limit)?,
        })
    }

    /// The target has this position from now on. Takes no memory.
    pub fn note(&mut self, target: Target, position: u64)
        requires { map.len self.old.stamps < self.old.limit }
        ensures noted { self.new ≡ noted self.old target position }
        ensures few { map.len self.new.stamps ≤ map.len self.old.stamps + 1 }
    {
        self.table.note(target, position);
    }

    /// The last position that was noted for the key's subgraph, its type or one of its tags. Each
    /// of these is one probe. Takes no memory.
    pub fn last(&mut self, key: &Key, tags: &Tags) -> Option<u64>
        ensures last { IsLast (IsNotedFor self.old.stamps key.now tags.now) result }
        ensures probes { self.new ≡ probed self.old (length (known_tags tags.now) + 2) }
    {
        last_of(&mut self.table, key, tags)
    }

    /// The number of probes so far, which stays at `u64::MAX`.
    pub fn probes(&self) -> u64
        ensures { result ≡ self.now.probes }
    {
        self.table.steps()
    }

    /// Drops the stamps at or before the horizon, which then count as not noted. Takes no memory.
    pub fn prune(&mut self, horizon: u64)
        ensures stamps { IsPruned horizon self.old.stamps self.new.stamps }
        ensures limit { self.new.limit ≡ self.old.limit }
        ensures probes { self.new.probes ≡ self.old.probes }
        ensures few { map.len self.new.stamps ≤ map.len self.old.stamps }
    {
        self.table.prune(horizon);
    }

    /// Drops all stamps, and keeps their room. Takes no memory.
    pub fn clear(&mut self)
        ensures cleared { self.new ≡ cleared self.old }
        ensures none { map.len self.new.stamps ≡ 0 }
    {
        self.table.clear();
    }

    /// The number of stamps.
    pub fn count(&self) -> u64
        ensures { result ≡ map.len self.now.stamps }
    {
        self.table.count()
    }
}

/// The later of two positions.
fn later(a: Option<u64>, b: Option<u64>) -> Option<u64>
    ensures { result ≡ later a b }
{
    match (a, b) {
        (Some(x), Some(y)) => Some(if x < y { y } else { x }),
        (Some(x), None) => Some(x),
        (None, b) => b,
    }
}

fn last_of(table: &mut Table, key: &Key, tags: &Tags) -> Option<u64>
    ensures last { IsLast (IsNotedFor table.old.stamps key.now tags.now) result }
    ensures probes { table.new ≡ probed table.old (length (known_tags tags.now) + 2) }
{
    let subgraph = table.read(TargetRef::Subgraph(&key.sub));
    let of_type = table.read(TargetRef::OfType(&key.sub, &key.type_name));
    let whole = later(subgraph, of_type);
    match tags {
        Tags::Known(tags) => later(whole, last_of_tags(table, &key.sub, tags.as_slice())),
        Tags::Many(_) => whole,
        Tags::Malformed => whole,
    }
}

fn last_of_tags(table: &mut Table, sub: &Text, tags: &[Text]) -> Option<u64>
    requires { table.old.probes < 2 ^ 64 }
    ensures last { IsLast (IsTagNoted table.old.stamps sub.now tags.now) result }
    ensures probes { table.new ≡ probed table.old (length tags.now) }
{
    let mut last = None;
    for tag in tags {
        let position = table.read(TargetRef::Tag(sub, tag));
        last = later(last, position);
    }
    last
}

ghost use Rattle.std.specs.Prelude.{◌≡◌, true, false, not, nat_eq, IfOk, OnOk, OnErr};
ghost use Rattle.std.specs.List.{IsDistinct};
ghost use Rattle.book_index.specs.Holders.{holders_of, is_holder, SetsHolder, HasSameHolders, HasNoHolders};

use flow_base::{Memory, Text};
use indexmap::{IndexMap, IndexSet};
use std::alloc::Global;

/// Positions by name, each name's once each and in no order. The names are hashed, since there may
/// be many.
#[derive(Drop)]
pub struct Holders {
    alloc: Global,
    sets: IndexMap<Text, IndexSet<u64>>,
}

impl Holders {
    /// No positions. Takes no memory.
    pub fn open(alloc: Global) -> Holders
        ensures { HasNoHolders result }
    {
        Holders {
            alloc,
            sets: IndexMap::new(alloc),
        }
    }

    /// The positions under a name. Takes no memory.
    pub fn under(&self, name: &Text) -> &[u64]
        ensures positions { result.now ≡ holders_of self.now name.now }
        ensures once { IsDistinct nat_eq result.now }
    {
        match self.sets.get(name) {
            Some(set) => set.as_slice(),
            None => &[],
        }
    }

    /// Puts a position under a name, and says whether it was not there before. Fails only for want
    /// of memory, and then nothing has changed.
    pub fn add(&mut self, name: &Text, position: u64) -> Result<bool, Memory>
        ensures new { IfOk result (λ n. n ≡ not (is_holder self.old name.now position)) }
        ensures put { OnOk result (SetsHolder self.old self.new name.now position true) }
        ensures err { OnErr result (HasSameHolders self.old self.new) }
    {
        if let Some(set) = self.sets.get_mut(name) {
            let Ok(new) = set.insert(position) else {
                return Err(Memory);
            };
            return Ok(new);
        }
        let mut set = IndexSet::new(self.alloc);
        let Ok(_) = set.insert(position) else {
            return Err(Memory);
        };
        let copy = name.copy()?;
        let Ok(_) = self.sets.insert(copy, set) else {
            return Err(Memory);
        };
        Ok(true)
    }

    /// Takes a position out from under a name, and the name with its last one. Takes no memory.
    pub fn remove(&mut self, name: &Text, position: u64)
        ensures { SetsHolder self.old self.new name.now position false }
    {
        if let Some(set) = self.sets.get_mut(name) {
            set.swap_remove(&position);
            if set.is_empty() {
                self.sets.swap_remove(name);
            }
        }
    }

    /// Takes out all positions. Takes no memory.
    pub fn clear(&mut self)
        ensures { HasNoHolders self.new }
    {
        self.sets.clear();
    }
}

ghost use Rattle.std.specs.Prelude.{◌≡◌, true, false, not, nat_eq, IfOk, OnOk, OnErr};
ghost use Rattle.std.specs.List.{IsDistinct};
ghost use Rattle.book_index.specs.Holders.{holders_in, is_holder_in, SetsHolderIn, SetsHolders};
ghost use Rattle.book_index.specs.Holders.{HasSameHoldersIn, HasNoHoldersIn};

use crate::holders::Holders;
use flow_base::{Memory, Text};
use std::alloc::Global;
use std::collections::BTreeMap;

/// Positions by subgraph and name.
#[derive(Drop)]
pub struct SubgraphHolders {
    alloc: Global,
    subgraphs: BTreeMap<Text, Holders>,
}

impl SubgraphHolders {
    /// No positions. Takes no memory.
    pub fn open(alloc: Global) -> SubgraphHolders
        ensures { HasNoHoldersIn result }
    {
        SubgraphHolders {
            alloc,
            subgraphs: BTreeMap::new(alloc),
        }
    }

    /// The positions under a name of a subgraph. Takes no memory.
    pub fn under(&self, sub: &Text, name: &Text) -> &[u64]
        ensures positions { result.now ≡ holders_in self.now sub.now name.now }
        ensures once { IsDistinct nat_eq result.now }
    {
        match self.subgraphs.get(sub) {
            Some(holders) => holders.under(name),
            None => &[],
        }
    }

    /// Puts a position under a name of a subgraph, and says whether it was not there before. Fails
    /// only for want of memory, and then nothing has changed.
    pub fn add(&mut self, sub: &Text, name: &Text, position: u64) -> Result<bool, Memory>
        ensures new { IfOk result (λ n. n ≡ not (is_holder_in self.old sub.now name.now position)) }
        ensures put { OnOk result (SetsHolderIn self.old self.new sub.now name.now position true) }
        ensures err { OnErr result (HasSameHoldersIn self.old self.new) }
    {
        if let Some(holders) = self.subgraphs.get_mut(sub) {
            let Ok(new) = holders.add(name, position) else {
                return Err(Memory);
            };
            return Ok(new);
        }
        let mut holders = Holders::open(self.alloc);
        holders.add(name, position)?;
        let copy = sub.copy()?;
        let Ok(_) = self.subgraphs.insert(copy, holders) else {
            return Err(Memory);
        };
        Ok(true)
    }

    /// Takes a position out from under a name of a subgraph. Takes no memory.
    pub fn remove(&mut self, sub: &Text, name: &Text, position: u64)
        ensures { SetsHolderIn self.old self.new sub.now name.now position false }
    {
        if let Some(holders) = self.subgraphs.get_mut(sub) {
            holders.remove(name, position);
        }
    }

    /// Puts a position under each of these names of a subgraph, or under none. Fails only for want
    /// of memory.
    pub fn add_all(&mut self, sub: &Text, names: &[Text], position: u64) -> Result<(), Memory>
        ensures put { OnOk result (SetsHolders self.old self.new sub.now names.now position true) }
        ensures err { OnErr result (HasSameHoldersIn self.old self.new) }
    {
        let Some((name, rest)) = names.split_first() else {
            return Ok(());
        };
        let new = self.add(sub, name, position)?;
        let Ok(()) = self.add_all(sub, rest, position) else {
            if !new {
                return Err(Memory);
            }
            self.remove(sub, name, position);
            return Err(Memory);
        };
        Ok(())
    }

    /// Takes a position out from under each of these names of a subgraph. Takes no memory.
    pub fn remove_all(&mut self, sub: &Text, names: &[Text], position: u64)
        ensures { SetsHolders self.old self.new sub.now names.now position false }
    {
        for name in names {
            self.remove(sub, name, position);
        }
    }

    /// Takes out all positions. Takes no memory.
    pub fn clear(&mut self)
        ensures { HasNoHoldersIn self.new }
    {
        self.subgraphs.clear();
    }
}

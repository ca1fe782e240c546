ghost use Rattle.std.specs.Prelude.{◌≡◌, ℕ, [], true, false, nat_eq, OnOk, OnErr};
ghost use Rattle.std.specs.List.{IsDistinct};
ghost use Rattle.cache_terms.specs.declared.keys.Target.{Target};
ghost use Rattle.book_index.specs.Stamps.{known_tags};
ghost use Rattle.book_index.specs.Under.{under, SetsUnder, HasSameUnder, HasNoneUnder};
ghost use Rattle.book_index.specs.Holders.{SetsHolderIn, SetsHolders, HasSameHoldersIn};

use crate::holders::Holders;
use crate::subgraph_holders::SubgraphHolders;
use cache_terms::{Key, Tags, Target};
use flow_base::{Memory, Text};
use std::alloc::Global;

/// The positions of pieces by the targets that cover them: the subgraph of each, its type there and
/// its tags there.
#[derive(Drop)]
pub struct TagIndex {
    whole: Holders,
    types: SubgraphHolders,
    tags: SubgraphHolders,
}

impl TagIndex {
    /// No positions. Takes no memory.
    pub fn open(alloc: Global) -> TagIndex
        ensures { HasNoneUnder result }
    {
        TagIndex {
            whole: Holders::open(alloc),
            types: SubgraphHolders::open(alloc),
            tags: SubgraphHolders::open(alloc),
        }
    }

    /// The positions under a target, each once and in no order. Takes no memory.
    pub fn under(&self, target: &Target) -> &[u64]
        ensures positions { result.now ≡ under self.now target.now }
        ensures once { IsDistinct nat_eq result.now }
    {
        match target {
            Target::Subgraph(sub) => self.whole.under(sub),
            Target::OfType(sub, type_name) => self.types.under(sub, type_name),
            Target::Tag(sub, tag) => self.tags.under(sub, tag),
        }
    }

    /// Puts a position under each target that covers this key with these tags. Fails only for want
    /// of memory, and then nothing has changed.
    pub fn add(&mut self, key: &Key, tags: &Tags, position: u64) -> Result<(), Memory>
        ensures added { OnOk result (SetsUnder self.old self.new key.now tags.now position true) }
        ensures err { OnErr result (HasSameUnder self.old self.new) }
    {
        let new = self.whole.add(&key.sub, position)?;
        let Ok(()) = add_names(
            &mut self.types,
            &mut self.tags,
            &key.sub,
            &key.type_name,
            known(tags),
            position,
        ) else {
            if !new {
                return Err(Memory);
            }
            self.whole.remove(&key.sub, position);
            return Err(Memory);
        };
        Ok(())
    }

    /// Takes a position out from under each target that covers this key with these tags. Takes no
    /// memory.
    pub fn remove(&mut self, key: &Key, tags: &Tags, position: u64)
        ensures { SetsUnder self.old self.new key.now tags.now position false }
    {
        self.whole.remove(&key.sub, position);
        self.types.remove(&key.sub, &key.type_name, position);
        self.tags.remove_all(&key.sub, known(tags), position);
    }

    /// Takes out all positions. Takes no memory.
    pub fn clear(&mut self)
        ensures { HasNoneUnder self.new }
    {
        self.whole.clear();
        self.types.clear();
        self.tags.clear();
    }
}

/// The known tags.
fn known(tags: &Tags) -> &[Text]
    ensures { result.now ≡ known_tags tags.now }
{
    match tags {
        Tags::Known(known) => known.as_slice(),
        Tags::Many(_) => &[],
        Tags::Malformed => &[],
    }
}

/// Puts a position under the type and under each of the tags of a subgraph, or under none.
fn add_names(
    types: &mut SubgraphHolders,
    tags: &mut SubgraphHolders,
    sub: &Text,
    type_name: &Text,
    known: &[Text],
    position: u64,
) -> Result<(), Memory>
    ensures typed { OnOk result (SetsHolderIn types.old types.new sub.now type_name.now position
        true) }
    ensures tagged { OnOk result (SetsHolders tags.old tags.new sub.now known.now position true) }
    ensures same_types { OnErr result (HasSameHoldersIn types.old types.new) }
    ensures same_tags { OnErr result (HasSameHoldersIn tags.old tags.new) }
{
    let new = types.add(sub, type_name, position)?;
    let Ok(()) = tags.add_all(sub, known, position) else {
        if !new {
            return Err(Memory);
        }
        types.remove(sub, type_name, position);
        return Err(Memory);
    };
    Ok(())
}

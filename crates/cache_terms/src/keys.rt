ghost use Rattle.std.specs.Prelude.{◌≡◌, ◌↔◌, ◌-◌, ◌^◌, min, IsTrue, IfOk};
ghost use Rattle.cache_terms.specs.Keys.{key_bytes, Covers};

use crate::Tags;
use flow_base::{Memory, Text};

/// What one piece is asked by: its subgraph, its type, the representation of the entity (empty for a
/// root) and the selection.
#[derive(Debug, Drop, PartialEq, Eq, PartialOrd, Ord, Hash)]
pub struct Key {
    pub sub: Text,
    pub type_name: Text,
    pub rep: Text,
    pub sel: Text,
}

/// What an invalidation names: a subgraph, a type of it, or a tag of it.
#[derive(Debug, Drop, PartialEq, Eq, PartialOrd, Ord, Hash)]
pub enum Target {
    Subgraph(Text),
    OfType(Text, Text),
    Tag(Text, Text),
}

impl Key {
    /// A copy. Fails only for want of memory.
    pub fn copy(&self) -> Result<Key, Memory>
        ensures { IfOk result (λ k. k ≡ self.now) }
    {
        Ok(Key {
            sub: self.sub.copy()?,
            type_name: self.type_name.copy()?,
            rep: self.rep.copy()?,
            sel: self.sel.copy()?,
        })
    }

    /// The length of its four texts together, in bytes, or `u64::MAX` where that is more.
    pub fn bytes(&self) -> u64
        ensures { result ≡ min (key_bytes self.now) (2 ^ 64 - 1) }
    {
        (self.sub.len() as u64)
            .saturating_add(self.type_name.len() as u64)
            .saturating_add(self.rep.len() as u64)
            .saturating_add(self.sel.len() as u64)
    }
}

impl Target {
    /// A copy. Fails only for want of memory.
    pub fn copy(&self) -> Result<Target, Memory>
        ensures { IfOk result (λ t. t ≡ self.now) }
    {
        match self {
            Target::Subgraph(sub) => Ok(Target::Subgraph(sub.copy()?)),
            Target::OfType(sub, type_name) => Ok(Target::OfType(sub.copy()?, type_name.copy()?)),
            Target::Tag(sub, tag) => Ok(Target::Tag(sub.copy()?, tag.copy()?)),
        }
    }
}

/// Whether a target covers a piece of this key with these tags: the subgraph is the key's, and for a
/// type the type is the key's, for a tag it is one of the known tags. Takes no memory.
pub fn covers(target: &Target, key: &Key, tags: &Tags) -> bool
    ensures { IsTrue result ↔ Covers target.now key.now tags.now }
{
    match target {
        Target::Subgraph(sub) => *sub == key.sub,
        Target::OfType(sub, type_name) => *sub == key.sub && *type_name == key.type_name,
        Target::Tag(sub, tag) => *sub == key.sub && tags.contains(tag),
    }
}

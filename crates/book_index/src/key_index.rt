ghost use Rattle.std.specs.Prelude.{◌≡◌, ℕ, List, Option, IsSome, IsTrue, IsOk, IfOk, OnOk, OnErr, Some, None};
ghost use Rattle.std.specs.Option.{option_copied as scope};
ghost use Rattle.cache_terms.specs.declared.keys.Key.{Key};
ghost use Rattle.std.specs.BTreeMap as tree;
ghost use Rattle.book_index.specs.Positions.{text_cmp, in_slot, position_at, HasSame, HasNone, IsVacant};
ghost use Rattle.book_index.specs.Positions.{SetsText, SetsScope, SetsKey, PutsKey, HasSameScopes, HasSameTexts};

use cache_terms::Key;
use flow_base::{Memory, Text};
use indexmap::IndexMap;
use std::alloc::Global;
use std::collections::BTreeMap;

/// The positions of one key: the public one, and those that are private to an id.
#[derive(Drop)]
pub struct Slot {
    public: Option<u64>,
    private: BTreeMap<Text, u64>,
}

/// A position for each key and scope. An id of None stands for the public scope. The keys are
/// hashed, since to find a long key by its order takes more comparisons the more keys there are.
/// The ids of one key are few, so they need no hash.
#[derive(Drop)]
pub struct KeyIndex {
    alloc: Global,
    slots: IndexMap<Key, Slot>,
}

impl KeyIndex {
    /// No positions. Takes no memory.
    pub fn open(alloc: Global) -> KeyIndex
        ensures { HasNone result }
    {
        KeyIndex {
            alloc,
            slots: IndexMap::new(alloc),
        }
    }

    /// The position of a key and scope. Takes no memory.
    pub fn get(&self, key: &Key, id: Option<&Text>) -> Option<u64>
        ensures { result ≡ position_at self.now key.now (scope id.entry) }
    {
        match self.slots.get(key) {
            Some(slot) => slot_get(slot, id),
            None => None,
        }
    }

    /// Sets the position of a key and scope, and answers the one before. Takes no memory where
    /// there is one. Fails only for want of memory, and then no position has changed.
    pub fn put(
        &mut self,
        key: &Key,
        id: Option<&Text>,
        position: u64,
    ) -> Result<Option<u64>, Memory>
        ensures before { IfOk result (λ b. b ≡ position_at self.old key.now (scope id.entry)) }
        ensures put { OnOk result (PutsKey self.old self.new key.now (scope id.entry) position) }
        ensures err { OnErr result (HasSame self.old self.new) }
        ensures there { IsSome (position_at self.old key.now (scope id.entry)) → IsOk result }
    {
        if let Some(slot) = self.slots.get_mut(key) {
            let before = slot_put(slot, id, position)?;
            return Ok(before);
        }
        let mut slot = Slot {
            public: None,
            private: BTreeMap::new(self.alloc),
        };
        slot_put(&mut slot, id, position)?;
        let copy = key.copy()?;
        let Ok(_) = self.slots.insert(copy, slot) else {
            return Err(Memory);
        };
        Ok(None)
    }

    /// Takes out the position of a key and scope, and the key with its last one. Takes no memory.
    pub fn remove(&mut self, key: &Key, id: Option<&Text>) -> Option<u64>
        ensures before { result ≡ position_at self.old key.now (scope id.entry) }
        ensures removed { SetsKey self.old self.new key.now (scope id.entry) None }
    {
        if let Some(slot) = self.slots.get_mut(key) {
            let before = slot_remove(slot, id);
            if !is_vacant(slot) {
                return before;
            }
            self.slots.swap_remove(key);
            return before;
        }
        None
    }

    /// Takes out all positions. Takes no memory.
    pub fn clear(&mut self)
        ensures { HasNone self.new }
    {
        self.slots.clear();
    }
}

/// Whether a slot has no position.
fn is_vacant(slot: &Slot) -> bool
    ensures { IsTrue result → IsVacant slot.now }
{
    slot.public.is_none() && slot.private.is_empty()
}

fn slot_remove(slot: &mut Slot, id: Option<&Text>) -> Option<u64>
    ensures before { result ≡ in_slot slot.old (scope id.entry) }
    ensures removed { SetsScope slot.old slot.new (scope id.entry) None }
{
    match id {
        None => slot.public.take(),
        Some(id) => remove_private(&mut slot.private, id),
    }
}

fn remove_private(positions: &mut BTreeMap<Text, u64>, id: &Text) -> Option<u64>
    ensures before { result ≡ tree.get text_cmp positions.old id.now }
    ensures removed { SetsText positions.old positions.new id.now None }
{
    positions.remove(id)
}

fn slot_get(slot: &Slot, id: Option<&Text>) -> Option<u64>
    ensures { result ≡ in_slot slot.now (scope id.entry) }
{
    match id {
        None => slot.public,
        Some(id) => slot.private.get(id).copied(),
    }
}

/// Sets the position of an id, and answers the one before. Takes no memory where there is one.
fn put_private(
    positions: &mut BTreeMap<Text, u64>,
    id: &Text,
    position: u64,
) -> Result<Option<u64>, Memory>
    ensures before { IfOk result (λ b. b ≡ tree.get text_cmp positions.old id.now) }
    ensures put { OnOk result (SetsText positions.old positions.new id.now (Some position)) }
    ensures err { OnErr result (HasSameTexts positions.old positions.new) }
    ensures there { IsSome (tree.get text_cmp positions.old id.now) → IsOk result }
{
    if let Some(place) = positions.get_mut(id) {
        let before = *place;
        *place = position;
        return Ok(Some(before));
    }
    let copy = id.copy()?;
    let Ok(before) = positions.insert(copy, position) else {
        return Err(Memory);
    };
    Ok(before)
}

/// Sets the position of a scope, and answers the one before. Takes no memory where there is one.
fn slot_put(slot: &mut Slot, id: Option<&Text>, position: u64) -> Result<Option<u64>, Memory>
    ensures before { IfOk result (λ b. b ≡ in_slot slot.old (scope id.entry)) }
    ensures put { OnOk result (SetsScope slot.old slot.new (scope id.entry) (Some position)) }
    ensures err { OnErr result (HasSameScopes slot.old slot.new) }
    ensures there { IsSome (in_slot slot.old (scope id.entry)) → IsOk result }
{
    match id {
        None => {
            let before = slot.public;
            slot.public = Some(position);
            Ok(before)
        }
        Some(id) => put_private(&mut slot.private, id, position),
    }
}

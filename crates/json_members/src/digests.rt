//! Digests of the names of one object.

ghost use Rattle.std.specs.Prelude.{◌≡◌, ◌≢◌, ◌+◌, ◌<◌, ◌≤◌, ℕ, length, drop, false, true, IfOk, IfSome, IsTrue};
ghost use Rattle.json_members.specs.Slots.{digest_of, slots_before, has_digest, KeepsDigests};

#[cfg(test)]
mod tests;

use flow_base::{Memory, Text};
use std::alloc::Global;
use std::hash::{FoldHasher, Hasher};

/// How many slots from its own on a digest may stand in. Names that crowd more than that were chosen to.
const REACH: usize = 128;

/// A table of digests, in which each stands at its own slot or behind it, with no empty slot in between.
#[derive(Drop)]
pub struct Digests {
    /// A slot of 0 is empty.
    slots: Vec<u64>,
    /// The bits of a digest that are its own slot.
    mask: u64,
    held: u64,
}

pub fn digest(name: &Text) -> u64
    ensures { result ≡ digest_of name.now }
{
    let mut hasher = FoldHasher::default();
    hasher.write(name.as_str().as_bytes());
    hasher.finish()
}

/// Where the digest stands or would be put, from its own slot on; none where it would be out of reach.
fn place(slots: &[u64], first: usize, digest: u64) -> Option<usize>
    ensures within { IfSome result (λ i. i < length slots.now) }
    ensures place { IfSome result (λ i. i ≡ first + slots_before (drop first slots.now) digest) }
{
    let end = slots.len().min(first.saturating_add(REACH));
    for i in first..end {
        if slots[i] == 0 || slots[i] == digest {
            return Some(i);
        }
    }
    None
}

impl Digests {
    /// An empty table, whose digests begin at as many slots as the mask has numbers.
    pub fn new(alloc: Global, mask: u64) -> Result<Digests, Memory>
        ensures { IfOk result (λ t. (d : ℕ) → has_digest t d ≡ false) }
    {
        let room = (mask as usize).saturating_add(REACH);
        Ok(Digests {
            slots: Vec::from_elem(alloc, 0, room)?,
            mask,
            held: 0,
        })
    }

    /// Whether the digest may be here.
    pub fn may_have(&self, digest: u64) -> bool
        ensures { result ≡ false → has_digest self.now digest ≡ false }
    {
        match place(self.slots.as_slice(), (digest & self.mask) as usize, digest) {
            Some(i) => self.slots[i] != 0,
            None => true,
        }
    }

    /// Puts a digest in, if there is a place for it. There is none for 0.
    fn put(&mut self, digest: u64) -> bool
        ensures has { IsTrue result → has_digest self.new digest ≡ true }
        ensures keeps { KeepsDigests self.old self.new }
    {
        if digest == 0 {
            return false;
        }
        match place(self.slots.as_slice(), (digest & self.mask) as usize, digest) {
            Some(i) => {
                self.slots[i] = digest;
                self.held = self.held.saturating_add(1);
                true
            }
            None => false,
        }
    }

    fn put_slot(&mut self, slot: u64) -> bool
        ensures has { IsTrue result → slot ≢ 0 → has_digest self.new slot ≡ true }
        ensures keeps { KeepsDigests self.old self.new }
    {
        if slot == 0 {
            return true;
        }
        self.put(slot)
    }

    /// Its digests in twice the room; none where one of them finds no place.
    fn wider(&self, alloc: Global) -> Result<Option<Digests>, Memory>
        ensures { IfOk result (λ found. IfSome found (KeepsDigests self.now)) }
    {
        let mut wider = Digests::new(alloc, self.mask.saturating_mul(2) | 1)?;
        for i in 0..self.slots.len() {
            if !wider.put_slot(self.slots[i]) {
                return Ok(None);
            }
        }
        Ok(Some(wider))
    }

    /// Sees to it that half of the slots are empty, and says whether they are.
    fn widen(&mut self, alloc: Global) -> Result<bool, Memory>
        ensures { IfOk result (λ _. KeepsDigests self.old self.new) }
    {
        if self.held <= self.mask / 2 {
            return Ok(true);
        }
        match self.wider(alloc)? {
            Some(wider) => {
                *self = wider;
                Ok(true)
            }
            None => Ok(false),
        }
    }

    /// Puts a digest in, and says whether there was a place for it.
    pub fn add(&mut self, alloc: Global, digest: u64) -> Result<bool, Memory>
        ensures has { IfOk result (λ done. IsTrue done → has_digest self.new digest ≡ true) }
        ensures keeps { IfOk result (λ _. KeepsDigests self.old self.new) }
    {
        if !self.widen(alloc)? {
            return Ok(false);
        }
        Ok(self.put(digest))
    }
}

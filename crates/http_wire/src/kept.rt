ghost use Rattle.std.specs.Prelude.{◌≡◌, ◌≤◌, ◌<◌, ◌+◌, ◌++◌, drop, length, vec_len, vec_capacity, OnOk};

use crate::WireFault;
use flow_base::{Failed, Memory, Source};
use std::alloc::Global;
use std::marker::Model;

const PIECE: usize = 4096;

/// Bytes that were read and are not yet used, which contracts see as their list. What was used gives its
/// room back with the next read.
#[derive(Drop)]
pub struct Kept {
    bytes: Vec<u8>,
    at: usize,
    piece: Vec<u8>,
}

impl Model for Kept {
    ghost use Rattle.std.specs.Prelude.{◌≤◌, List, ℕ, drop, length};

    ghost Value = { List ℕ };

    ghost view = { λ k. drop k.at k.bytes.items };

    ghost invariant = { λ k. k.at ≤ length k.bytes.items };
}

impl Kept {
    ghost use Rattle.std.specs.Prelude.{◌≡◌, ◌≤◌, [], length, drop};
    ghost use Rattle.http_wire.specs.Taking.{FillsOr};

    /// Nothing is kept. Takes no memory.
    pub fn empty(alloc: Global) -> Kept
        ensures { result ≡ [] }
    {
        Kept {
            bytes: Vec::new(alloc),
            at: 0,
            piece: Vec::new(alloc),
        }
    }

    pub(crate) fn as_slice(&self) -> &[u8]
        ensures { result.now ≡ self.now }
    {
        &self.bytes.as_slice()[self.at..]
    }

    // Forgets the first `count` bytes, and moves none.
    pub(crate) fn advance(&mut self, count: usize)
        requires { count ≤ length self.old }
        ensures { self.new ≡ drop count self.old }
    {
        let after = self.as_slice().len() - count;
        self.at = self.bytes.len() - after;
    }

    // Keeps one more piece of the source, and says how many bytes it has: 0 at the end of the input. A
    // fault leaves all that there was.
    pub(crate) fn fill<S: Source>(&mut self, source: &mut S) -> Result<usize, WireFault>
        ensures fills { FillsOr self.old self.new (S.left source.old) (S.left source.new)
            (S.faults source.old) (S.faults source.new) result }
        ensures later { S.faults source.old ≤ S.faults source.new }
    {
        drop_front(&mut self.bytes, self.at);
        self.at = 0;
        if make_room(&mut self.bytes, &mut self.piece).is_err() {
            return Err(WireFault::Memory);
        }
        match source.read(&mut self.piece) {
            Err(Failed) => Err(WireFault::Failed),
            Ok(count) => {
                append(&mut self.bytes, &self.piece[..count]);
                Ok(count)
            }
        }
    }
}

// Takes the first `count` bytes out.
fn drop_front(bytes: &mut Vec<u8>, count: usize)
    requires { count ≤ length bytes.old.items }
    ensures { bytes.new.items ≡ drop count bytes.old.items }
{
    let left = bytes.len() - count;
    if count > 0 {
        bytes.rotate_left(count);
        bytes.truncate(left);
    }
}

// Room for a piece, and behind the bytes once more.
fn make_room(bytes: &mut Vec<u8>, piece: &mut Vec<u8>) -> Result<(), Memory>
    ensures same { bytes.new.items ≡ bytes.old.items }
    ensures room { OnOk result
        (vec_len bytes.new + length piece.new.items ≤ vec_capacity bytes.new) }
    ensures some { OnOk result (0 < length piece.new.items) }
{
    if piece.is_empty() {
        piece.resize(PIECE, 0)?;
    }
    bytes.reserve(piece.len())?;
    Ok(())
}

// Appends what there is room for.
fn append(bytes: &mut Vec<u8>, more: &[u8])
    requires { vec_len bytes.old + length more.now ≤ vec_capacity bytes.old }
    ensures { bytes.new.items ≡ bytes.old.items ++ more.now }
{
    bytes.extend_from_slice(more).unwrap();
}

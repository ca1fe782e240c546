ghost use Rattle.std.specs.Prelude.{◌≡◌, ◌≢◌, ◌≤◌, List, ℕ, Option, [], drop, take, min, length};
ghost use Rattle.std.specs.Io.{ReadsAtMost};
ghost use Rattle.std.specs.Io.KnownBytes.{ReadConsumes};
ghost use Rattle.flow_base.specs.Causes.{HasCause};
ghost use Rattle.flow_base.specs.InMemory.{piece_of};

use crate::{Bytes, Failed};
use std::marker::Model;

/// What bytes are read from.
pub trait Source {
    /// The bytes that are left, where the source tells them.
    ghost left: { Self → Option (List ℕ) };

    /// How often it has failed, up to the greatest number of 64 bits.
    ghost faults: { Self → ℕ };

    /// Reads into the front of `buf` and says how many bytes. Where `buf` has room, 0 is the end of the
    /// input. A failed read takes nothing.
    fn read(&mut self, buf: &mut [u8]) -> Result<usize, Failed>
        ensures bound { ReadsAtMost result buf.new }
        ensures bytes { ReadConsumes (left self.old) (left self.new) result buf.new }
        ensures cause { HasCause (faults self.old) (faults self.new) result };
}

/// A source in memory, whose reads are cut and fail by lists.
#[derive(Drop)]
pub struct MemSource {
    bytes: Bytes,
    pieces: Vec<u64>,
    failing: Vec<u64>,
    at: usize,
    reads: u64,
    faults: u64,
}

impl Model for MemSource {
    ghost use Rattle.std.specs.Prelude.{◌≤◌, drop, length};
    ghost use Rattle.flow_base.specs.InMemory.{Feed};

    ghost Value = { Feed };

    ghost view = { λ s. record {
      left = drop s.at s.bytes;
      pieces = s.pieces.items;
      failing = s.failing.items;
      reads = s.reads;
      faults = s.faults;
    } };

    ghost invariant = { λ s. s.at ≤ length s.bytes };
}

impl MemSource {
    ghost use Rattle.std.specs.Prelude.{◌≡◌, ◌≤◌, drop, length};

    /// Read number k, from 0, gives at most `pieces[k]` bytes, where 0 counts as 1, and past the list
    /// what fits. Reads whose numbers are in `failing` fail and take nothing.
    pub fn of(bytes: Bytes, pieces: Vec<u64>, failing: Vec<u64>) -> MemSource
        ensures { result ≡ record {
          left = bytes;
          pieces = pieces.items;
          failing = failing.items;
          reads = 0;
          faults = 0;
        } }
    {
        MemSource {
            bytes,
            pieces,
            failing,
            at: 0,
            reads: 0,
            faults: 0,
        }
    }

    fn rest(&self) -> &[u8]
        ensures { result.now ≡ self.now.left }
    {
        &self.bytes.as_slice()[self.at..]
    }

    fn advance(&mut self, count: usize)
        requires { count ≤ length self.old.left }
        ensures { self.new ≡ record self.old { left = drop count self.old.left } }
    {
        let after = self.rest().len() - count;
        self.at = self.bytes.len() - after;
    }
}

impl Source for MemSource {
    ghost use Rattle.std.specs.Prelude.{◌≡◌, ◌↔◌, Some, Contains, IsErr, IfOk, OnOk, OnErr, min, length};
    ghost use Rattle.std.specs.Io.{ReadsAtMost};
    ghost use Rattle.std.specs.Io.KnownBytes.{ReadConsumes};
    ghost use Rattle.flow_base.specs.Causes.{HasCause};
    ghost use Rattle.flow_base.specs.InMemory.{next, piece_of};

    ghost left = { λ s. Some s.left };

    ghost faults = { λ s. s.faults };

    fn read(&mut self, buf: &mut [u8]) -> Result<usize, Failed>
        ensures bound { ReadsAtMost result buf.new }
        ensures bytes { ReadConsumes (Some self.old.left) (Some self.new.left) result buf.new }
        ensures cause { HasCause self.old.faults self.new.faults result }
        ensures fails { IsErr result ↔ Contains self.old.failing self.old.reads }
        ensures gives { IfOk result (λ n.
            n ≡ min (piece_of self.old.pieces self.old.reads (length buf.new))
            (length self.old.left)) }
        ensures counts { self.new.reads ≡ next self.old.reads }
        ensures pieces { self.new.pieces ≡ self.old.pieces }
        ensures failing { self.new.failing ≡ self.old.failing }
        ensures quiet { OnOk result (self.new.faults ≡ self.old.faults) }
        ensures counted { OnErr result (self.new.faults ≡ next self.old.faults) }
    {
        let number = self.reads;
        self.reads = number.saturating_add(1);
        if self.failing.contains(&number) {
            self.faults = self.faults.saturating_add(1);
            return Err(Failed);
        }
        let piece = piece_at(&self.pieces, number, buf.len());
        let count = take_front(self.rest(), piece, buf);
        self.advance(count);
        Ok(count)
    }
}

// The most that call `number` moves, where `room` bytes would fit.
pub(crate) fn piece_at(pieces: &[u64], number: u64, room: usize) -> usize
    ensures piece { result ≡ piece_of pieces.now number room }
    ensures most { result ≤ room }
    ensures some { room ≢ 0 → result ≢ 0 }
{
    if number >= pieces.len() as u64 {
        return room;
    }
    let piece = pieces[number as usize].max(1);
    if piece < room as u64 {
        piece as usize
    } else {
        room
    }
}

// Copies the front of `rest` into `buf`, at most `piece` bytes.
fn take_front(rest: &[u8], piece: usize, buf: &mut [u8]) -> usize
    requires { piece ≤ length buf.old }
    ensures count { result ≡ min piece (length rest.now) }
    ensures copied { take result buf.new ≡ take result rest.now }
    ensures some { piece ≢ 0 → result ≡ 0 → rest.now ≡ [] }
{
    let count = rest.len().min(piece);
    buf[..count].copy_from_slice(&rest[..count]);
    count
}

ghost use Rattle.std.specs.Prelude.{◌≡◌, ◌≢◌, List, ℕ, Option, [], take, OnOk, OnErr, IfOk};
ghost use Rattle.std.specs.Io.{WritesAtMost};
ghost use Rattle.std.specs.Io.KnownBytes.{Appends, WriteAppends};
ghost use Rattle.flow_base.specs.Causes.{HasCause, AppendsFront};

use crate::source::piece_at;
use crate::{Failed, Memory};
use std::alloc::Global;
use std::marker::Model;

/// What bytes are written to.
pub trait Sink {
    /// The bytes that were written, where the sink tells them.
    ghost written: { Self → Option (List ℕ) };

    /// How often it has failed, up to the greatest number of 64 bits.
    ghost faults: { Self → ℕ };

    /// Appends a front of `bytes` and says how long it is: at least one byte where `bytes` is not empty.
    /// A failed write appends nothing.
    fn write(&mut self, bytes: &[u8]) -> Result<usize, Failed>
        ensures bound { WritesAtMost result bytes.now }
        ensures some { IfOk result (λ n. bytes.now ≢ [] → n ≢ 0) }
        ensures bytes { WriteAppends (written self.old) (written self.new) result bytes.now }
        ensures cause { HasCause (faults self.old) (faults self.new) result };
}

/// Writes all the bytes, or a front of them where the sink fails. Takes no memory.
pub fn put_all<K: Sink>(sink: &mut K, bytes: &[u8]) -> Result<(), Failed>
    ensures ok { OnOk result (Appends (K.written sink.old) (K.written sink.new) bytes.now) }
    ensures cut { OnErr result (AppendsFront (K.written sink.old) (K.written sink.new) bytes.now) }
    ensures cause { HasCause (K.faults sink.old) (K.faults sink.new) result }
{
    let mut at = 0;
    while at < bytes.len() {
        at += sink.write(&bytes[at..])?;
    }
    Ok(())
}

/// A sink in memory, whose writes are cut and fail by lists.
#[derive(Drop)]
pub struct MemSink {
    taken: Vec<u8>,
    limit: u64,
    pieces: Vec<u64>,
    failing: Vec<u64>,
    writes: u64,
    faults: u64,
}

impl Model for MemSink {
    ghost use Rattle.std.specs.Prelude.{◌≤◌, vec_capacity};
    ghost use Rattle.flow_base.specs.InMemory.{Tape};

    ghost Value = { Tape };

    ghost view = { λ s. record {
      written = s.taken.items;
      limit = s.limit;
      pieces = s.pieces.items;
      failing = s.failing.items;
      writes = s.writes;
      faults = s.faults;
    } };

    ghost invariant = { λ s. s.limit ≤ vec_capacity s.taken };
}

impl MemSink {
    ghost use Rattle.std.specs.Prelude.{◌≡◌, [], IfOk};

    /// Takes its room of `limit` bytes at once, and fails only for want of memory. Write number k, from
    /// 0, appends at most `pieces[k]` bytes, where 0 counts as 1, and past the list all. Writes whose
    /// numbers are in `failing`, and those that would go past `limit`, fail and append nothing.
    pub fn of(
        alloc: Global,
        limit: u64,
        pieces: Vec<u64>,
        failing: Vec<u64>,
    ) -> Result<MemSink, Memory>
        ensures { IfOk result (λ s.
            s ≡ record {
              written = [];
              limit = limit;
              pieces = pieces.items;
              failing = failing.items;
              writes = 0;
              faults = 0;
            }) }
    {
        Ok(MemSink {
            taken: Vec::with_capacity(alloc, limit as usize)?,
            limit,
            pieces,
            failing,
            writes: 0,
            faults: 0,
        })
    }

    pub fn written(&self) -> &[u8]
        ensures { result.now ≡ self.now.written }
    {
        self.taken.as_slice()
    }
}

impl Sink for MemSink {
    ghost use Rattle.std.specs.Prelude.{◌≡◌, ◌≢◌, ◌↔◌, ◌⊎◌, ◌+◌, ◌<◌, [], Some, Contains};
    ghost use Rattle.std.specs.Prelude.{IsErr, IfOk, OnOk, OnErr, length};
    ghost use Rattle.std.specs.Io.{WritesAtMost};
    ghost use Rattle.std.specs.Io.KnownBytes.{WriteAppends};
    ghost use Rattle.flow_base.specs.Causes.{HasCause};
    ghost use Rattle.flow_base.specs.InMemory.{next, piece_of, Tape, Refuses};

    ghost written = { λ s. Some s.written };

    ghost faults = { λ s. s.faults };

    fn write(&mut self, bytes: &[u8]) -> Result<usize, Failed>
        ensures bound { WritesAtMost result bytes.now }
        ensures some { IfOk result (λ n. bytes.now ≢ [] → n ≢ 0) }
        ensures bytes { WriteAppends (Some self.old.written) (Some self.new.written) result
            bytes.now }
        ensures cause { HasCause self.old.faults self.new.faults result }
        ensures fails { IsErr result ↔ Refuses self.old bytes.now }
        ensures takes { IfOk result (λ n.
            n ≡ piece_of self.old.pieces self.old.writes (length bytes.now)) }
        ensures counts { self.new.writes ≡ next self.old.writes }
        ensures limit { self.new.limit ≡ self.old.limit }
        ensures pieces { self.new.pieces ≡ self.old.pieces }
        ensures failing { self.new.failing ≡ self.old.failing }
        ensures quiet { OnOk result (self.new.faults ≡ self.old.faults) }
        ensures counted { OnErr result (self.new.faults ≡ next self.old.faults) }
    {
        let number = self.writes;
        self.writes = number.saturating_add(1);
        if self.failing.contains(&number) {
            self.faults = self.faults.saturating_add(1);
            return Err(Failed);
        }
        let piece = piece_at(&self.pieces, number, bytes.len());
        if (self.taken.len() as u64).saturating_add(piece as u64) > self.limit {
            self.faults = self.faults.saturating_add(1);
            return Err(Failed);
        }
        self.taken.extend_from_slice(&bytes[..piece]).unwrap();
        Ok(piece)
    }
}

ghost use Rattle.std.specs.Prelude.{◌≡◌, ◌≤◌, [], length, vec_capacity, IfOk};
ghost use Rattle.book_index.specs.Stamps.{cleared};
ghost use Rattle.book_tables.specs.Standing.{StandsFor};

use book_index::{KeyIndex, Stamps, TagIndex};
use flow_base::Memory;
use std::alloc::Global;

/// What a book keeps beside its journal: the position of each ticket's Start, which tickets are
/// settled, the oldest open ticket, how many are open, how many bytes are kept, the positions of
/// what is held, by key and by target, and the stamps of the invalidations since that oldest Start.
#[derive(Drop)]
pub struct Tables {
    pub(crate) starts: Vec<u64>,
    pub(crate) settled: Vec<bool>,
    pub(crate) oldest: usize,
    pub(crate) pending: u64,
    pub(crate) bytes: u64,
    pub(crate) keys: KeyIndex,
    pub(crate) holders: TagIndex,
    pub(crate) stamps: Stamps,
}

impl Tables {
    /// The tables of an empty journal, with room for the tickets and stamps of so many events.
    /// Fails only for want of memory.
    pub fn open(alloc: Global, events: u64) -> Result<Tables, Memory>
        requires { events ≤ 65536 }
        ensures stands { IfOk result (λ t. StandsFor t []) }
        ensures limit { IfOk result (λ t. t.stamps.limit ≡ events) }
        ensures probes { IfOk result (λ t. t.stamps.probes ≡ 0) }
    {
        Ok(Tables {
            starts: Vec::with_capacity(alloc, events as usize)?,
            settled: Vec::with_capacity(alloc, events as usize)?,
            oldest: 0,
            pending: 0,
            bytes: 0,
            keys: KeyIndex::open(alloc),
            holders: TagIndex::open(alloc),
            stamps: Stamps::open(alloc, events)?,
        })
    }

    /// The tables of an empty journal again. Takes no memory.
    pub fn clear(&mut self)
        requires starts { self.old.stamps.limit ≤ vec_capacity self.old.starts }
        requires settled { self.old.stamps.limit ≤ vec_capacity self.old.settled }
        ensures stands { StandsFor self.new [] }
        ensures stamps { self.new.stamps ≡ cleared self.old.stamps }
    {
        self.starts.clear();
        self.settled.clear();
        self.oldest = 0;
        self.pending = 0;
        self.bytes = 0;
        self.keys.clear();
        self.holders.clear();
        self.stamps.clear();
    }

    /// The sizes of the pieces that are kept.
    pub fn bytes(&self) -> u64
        ensures { result ≡ self.now.bytes }
    {
        self.bytes
    }

    /// The number of open tickets.
    pub fn reserved(&self) -> u64
        ensures { result ≡ self.now.pending }
    {
        self.pending
    }

    /// The number of Starts, which is the next ticket.
    pub fn starts(&self) -> u64
        ensures { result ≡ length self.now.starts.items }
    {
        self.starts.len() as u64
    }

    /// The invalidations that a settle may ask for.
    pub fn stamps(&self) -> &Stamps
        ensures { result.now ≡ self.now.stamps }
    {
        &self.stamps
    }
}

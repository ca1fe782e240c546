use crate::{Key, Marks, Tags, Target, Verdict, Why};
use flow_base::{Bytes, Text};

/// How many events a journal has room for, 8 to 65536, and how many bytes of pieces, 16 to 268435456.
#[derive(Clone, Copy, Debug, PartialEq, Eq)]
pub struct Limits {
    pub events: u64,
    pub bytes: u64,
}

/// The ticket of a permit, or why it has none: the epoch of its request is over, the journal is full, the
/// key is too long, or no epoch is left.
#[derive(Clone, Copy, Debug, PartialEq, Eq)]
pub enum Mark {
    Ticket(u64),
    Over {
        pinned: u64,
        current: u64,
    },
    Full {
        length: u64,
        reserved: u64,
        needed: u64,
        limit: u64,
    },
    Wide {
        bytes: u64,
        limit: u64,
    },
    Retired,
}

/// What became of a permit: kept; covered by the invalidation at this position; without room for so many
/// bytes more; not to be kept; not fetched; of an epoch that is over; without a ticket; or memory ran out.
#[derive(Clone, Copy, Debug, PartialEq, Eq)]
pub enum Outcome {
    Stored,
    Void(u64),
    NoRoom { bytes: u64, adds: u64, limit: u64 },
    Unstorable(Why),
    Failed,
    Over { pinned: u64, current: u64 },
    Bypassed,
    Memory,
}

/// What was fetched under a ticket. The value is there exactly where the outcome is Stored.
#[derive(Debug, Drop)]
pub struct Got {
    pub value: Option<Text>,
    pub size: u64,
    pub tags: Tags,
    pub verdict: Verdict,
    pub marks: Marks,
}

/// An entry of the journal. `who` is the number of the caller.
#[derive(Debug, Drop)]
pub enum Event {
    Lookup {
        who: u32,
        key: Key,
        id: Option<Text>,
        now: u64,
        hit: Option<u64>,
    },
    Start {
        who: u32,
        ticket: u64,
        key: Key,
        id: Option<Text>,
        now: u64,
    },
    Settle {
        who: u32,
        ticket: u64,
        got: Option<Got>,
        outcome: Outcome,
    },
    Invalidate {
        who: u32,
        target: Target,
        count: u64,
    },
}

/// A subgraph's reply: its HTTP status, the header texts that say how long it may be kept, and its body.
#[derive(Debug, Drop)]
pub struct Reply {
    pub status: u16,
    pub cache_control: Option<Text>,
    pub age: Option<Text>,
    pub body: Bytes,
}

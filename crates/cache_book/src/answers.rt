use cache_terms::Outcome;

/// What became of a permit. `position` is that of the event, and None where nothing was appended: without a
/// ticket, or in an epoch that is over.
#[derive(Clone, Copy, Debug, PartialEq, Eq)]
pub struct Settled {
    pub position: Option<u64>,
    pub outcome: Outcome,
}

/// Whether an invalidation turned the epoch: no; yes, since the journal had no room for it; or the epoch is the
/// last one, in which nothing is held.
#[derive(Clone, Copy, Debug, PartialEq, Eq)]
pub enum Turned {
    No,
    Full {
        length: u64,
        reserved: u64,
        limit: u64,
    },
    Retired,
}

/// What an invalidation did: its epoch, its position there, and how many held pieces it covers.
#[derive(Clone, Copy, Debug, PartialEq, Eq)]
pub struct Voided {
    pub epoch: u64,
    pub position: u64,
    pub count: u64,
    pub turned: Turned,
}

/// How much of a journal is used: its events, the bytes of its pieces, and its open tickets.
#[derive(Clone, Copy, Debug, PartialEq, Eq)]
pub struct Tally {
    pub epoch: u64,
    pub events: u64,
    pub bytes: u64,
    pub pending: u64,
}

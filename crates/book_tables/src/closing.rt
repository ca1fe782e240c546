ghost use Rattle.std.specs.Prelude.{◌≡◌, ◌<◌, ◌≤◌, length};
ghost use Rattle.std.specs.FinMap as map;
ghost use Rattle.book_tables.specs.Halves.{AreSettled, StampsLeft, ClosesTicket, KeepsPieces};
ghost use Rattle.book_tables.specs.Standing.{IsOldest};

use crate::Tables;
use book_index::Stamps;

/// The first ticket from this one on that is not settled, or the number of tickets.
fn first_open(settled: &[bool], from: usize) -> usize
    requires within { from ≤ length settled.now }
    requires below { AreSettled settled.now from }
    ensures oldest { IsOldest settled.now result }
    ensures later { from ≤ result }
{
    for ticket in from..settled.len() {
        if !settled[ticket] {
            return ticket;
        }
    }
    settled.len()
}

/// Leaves the stamps that the oldest open ticket may ask for, where another was the oldest before.
fn forget(stamps: &mut Stamps, starts: &[u64], before: usize, after: usize)
    requires { before ≤ after }
    ensures left { StampsLeft starts.now before after stamps.old.stamps stamps.new.stamps }
    ensures few { map.len stamps.new.stamps ≤ map.len stamps.old.stamps }
    ensures limit { stamps.new.limit ≡ stamps.old.limit }
    ensures probes { stamps.new.probes ≡ stamps.old.probes }
{
    if after >= starts.len() {
        stamps.clear();
        return;
    }
    if after > before {
        stamps.prune(starts[after]);
    }
}

impl Tables {
    /// Closes an open ticket, and forgets the invalidations for which no open ticket can ask.
    pub(crate) fn close(&mut self, ticket: u64)
        requires within { ticket < length self.old.settled.items }
        requires oldest { IsOldest self.old.settled.items self.old.oldest }
        requires some { 0 < self.old.pending }
        ensures closes { ClosesTicket self.old ticket self.new }
        ensures pieces { KeepsPieces self.old self.new }
        ensures limit { self.new.stamps.limit ≡ self.old.stamps.limit }
        ensures probes { self.new.stamps.probes ≡ self.old.stamps.probes }
    {
        self.settled[ticket as usize] = true;
        self.pending -= 1;
        let oldest = first_open(&self.settled, self.oldest);
        forget(&mut self.stamps, &self.starts, self.oldest, oldest);
        self.oldest = oldest;
    }
}

//! What is counted.

ghost use Rattle.std.specs.Prelude.{◌≡◌, count_by};
ghost use Rattle.line_base.specs.Told.{entries_told};
ghost use Rattle.workload.specs.Between as spec;
ghost use Rattle.workload.specs.Between.{has_hit, is_ticketed, tickets_sent};
ghost use Rattle.workload.specs.Tallying.{raised};

use cache_terms::{Key, Mark};
use line_base::Told;
use partial_fetch::{Answer, Origin, Receipt};

/// How many requests and how many invalidations were made; and of the pieces that were looked for, how many were found and how
/// many were missed. Each goes up to `u64::MAX`.
#[derive(Clone, Copy)]
pub struct Counts {
    pub requests: u64,
    pub voids: u64,
    pub hits: u64,
    pub misses: u64,
}

fn is_hit(origin: &Origin) -> bool
    ensures { result ≡ spec.is_hit origin.now }
{
    match origin {
        Origin::Hit {
            lookup: _,
            stored: _,
        } => true,
        Origin::Own { line: _, call: _ } => false,
        Origin::Absent => false,
    }
}

/// How many of the pieces come from the cache.
fn hits(receipts: &[Receipt]) -> u64
    ensures { result ≡ count_by has_hit receipts.now }
{
    receipts
        .iter()
        .filter(|receipt| is_hit(&receipt.origin))
        .count() as u64
}

fn is_ticket(mark: &Mark) -> bool
    ensures { result ≡ spec.is_ticket mark.now }
{
    match mark {
        Mark::Ticket(_) => true,
        _ => false,
    }
}

/// How many of the permits have a ticket.
fn tickets(permits: &[(u64, Mark, Key)]) -> u64
    ensures { result ≡ count_by is_ticketed permits.now }
{
    permits.iter().filter(|permit| is_ticket(&permit.1)).count() as u64
}

/// The count with one for each ticket under which these calls were made.
fn with_tickets(count: u64, calls: &[Told]) -> u64
    ensures { result ≡ raised count (tickets_sent (entries_told calls.now)) }
{
    let mut sum = count;
    for told in calls {
        sum = sum.saturating_add(tickets(&told.permits));
    }
    sum
}

/// The counts with a request that had this answer and made these calls.
pub fn with_answer(counts: Counts, answer: &Answer, calls: &[Told]) -> Counts
    ensures { result ≡ spec.with_answer counts answer.now (entries_told calls.now) }
{
    Counts {
        requests: counts.requests.saturating_add(1),
        voids: counts.voids,
        hits: counts.hits.saturating_add(hits(&answer.receipts)),
        misses: with_tickets(counts.misses, calls),
    }
}

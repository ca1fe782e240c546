ghost use Rattle.std.specs.Prelude.{◌≤◌, Some, None};
ghost use Rattle.cache_terms.specs.Offers.{offer_size};
ghost use Rattle.cache_model.specs.Journal.{bytes};
ghost use Rattle.cache_model.specs.Legal.{IsDue};
ghost use Rattle.plain_book.specs.Scan.{start_shown};

use crate::scan::{StartRef, bytes_of, last_cover};
use cache_terms::{Event, Limits, Offer, Outcome, why};

/// The outcome that is due to an offer, where memory suffices.
pub fn outcome_of(events: &[Event], limits: Limits, start: StartRef, offer: &Offer) -> Outcome
    requires within { bytes events.now ≤ limits.bytes }
    requires range { limits.bytes ≤ 268435456 }
    ensures { IsDue limits events.now (start_shown start.entry) (Some (record {
      value = None;
      size = offer_size offer.now;
      tags = offer.now.tags;
      verdict = offer.now.verdict;
      marks = offer.now.marks;
    })) result }
{
    if let Some(why) = why(offer, start.id.is_some()) {
        return Outcome::Unstorable(why);
    }
    if let Some(at) = last_cover(events, start.at, start.key, &offer.tags) {
        return Outcome::Void(at as u64);
    }
    let bytes = bytes_of(events);
    let adds = offer.size();
    if limits.bytes - bytes < adds {
        return Outcome::NoRoom {
            bytes,
            adds,
            limit: limits.bytes,
        };
    }
    Outcome::Stored
}

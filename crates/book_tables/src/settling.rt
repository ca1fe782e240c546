ghost use Rattle.std.specs.Prelude.{◌≡◌, ◌↔◌, ◌≤◌, ◌+◌, length, is_some, if◌then◌else◌, IsTrue, Some};
ghost use Rattle.cache_terms.specs.declared.events.Outcome.TheVariants.{Stored};
ghost use Rattle.std.specs.Option.{option_copied};
ghost use Rattle.cache_terms.specs.Offers.{why_of};
ghost use Rattle.cache_model.specs.Legal.{IsLegal, EachFits};
ghost use Rattle.cache_model.specs.Journal.{bytes};
ghost use Rattle.book_index.specs.Stamps.{probed, known_tags};
ghost use Rattle.book_tables.specs.Refs.{start_shown};
ghost use Rattle.book_tables.specs.Closing.{got_of, got_by, IsDueTo, IsUnsettled, is_judged};
ghost use Rattle.book_tables.specs.Closing.{probes_after, StandsSettled, Filled};
ghost use Rattle.book_tables.specs.Halves.{IsJudged, KeepsTickets};
ghost use Rattle.book_tables.specs.Standing.{StandsFor};

use crate::indexing::index;
use crate::reading::start_in;
use crate::{StartRef, Tables};
use book_index::Stamps;
use cache_terms::{Event, Limits, Offer, Outcome, why};

/// The outcome of an offer where memory does not run out. The stamps are asked only where nothing
/// else forbids to keep it.
fn judge(
    stamps: &mut Stamps,
    stored: u64,
    limits: Limits,
    start: StartRef,
    offer: &Offer,
) -> Outcome
    requires { stored ≤ limits.bytes }
    ensures judged { IsJudged (why_of offer.now.marks offer.now.verdict offer.now.tags
        (is_some (start_shown start.entry).id)) stamps.old.stamps stored limits.bytes
        (start_shown start.entry) offer.now result }
    ensures probes { stamps.new ≡ (if is_judged result
        then probed stamps.old (length (known_tags offer.now.tags) + 2) else stamps.old) }
{
    if let Some(why) = why(offer, start.id.is_some()) {
        return Outcome::Unstorable(why);
    }
    if let Some(at) = stamps.last(start.key, &offer.tags) {
        if at > start.at as u64 {
            return Outcome::Void(at);
        }
    }
    let adds = offer.size();
    if limits.bytes - stored < adds {
        return Outcome::NoRoom {
            bytes: stored,
            adds,
            limit: limits.bytes,
        };
    }
    Outcome::Stored
}

fn is_stored(outcome: Outcome) -> bool
    ensures { IsTrue result ↔ (outcome ≡ Stored) }
{
    matches!(outcome, Outcome::Stored)
}

impl Tables {
    /// Judges an offer, and puts it into the indexes where it is to be stored.
    fn take(&mut self, events: &[Event], limits: Limits, ticket: u64, offer: &Offer) -> Outcome
        requires stands { StandsFor self.old events.now }
        requires fits { EachFits limits events.now }
        requires within { bytes events.now ≤ limits.bytes }
        requires unsettled { IsUnsettled events.now ticket }
        ensures due { IsDueTo limits events.now ticket (Some (got_of offer.now result)) result }
        ensures filled { Filled self.new events.now ticket (Some (got_of offer.now result)) result }
        ensures tickets { KeepsTickets self.old self.new }
        ensures probes { self.new.stamps.probes
            ≡ probes_after self.old.stamps.probes (Some offer.now) result }
    {
        let start = start_in(&self.starts, events, ticket).unwrap();
        let outcome = judge(&mut self.stamps, self.bytes, limits, start, offer);
        if !is_stored(outcome) {
            return outcome;
        }
        let scope = start.scope(offer.verdict.private);
        let Ok(()) = index(
            &self.starts,
            &mut self.keys,
            &mut self.holders,
            events,
            start.key,
            scope,
            &offer.tags,
        ) else {
            return Outcome::Memory;
        };
        self.bytes += offer.size();
        Outcome::Stored
    }

    /// The outcome of an offer, or of none, which is a fetch that failed. It is put into the
    /// indexes where it is stored.
    fn fill(
        &mut self,
        events: &[Event],
        limits: Limits,
        ticket: u64,
        offer: Option<&Offer>,
    ) -> Outcome
        requires stands { StandsFor self.old events.now }
        requires fits { EachFits limits events.now }
        requires within { bytes events.now ≤ limits.bytes }
        requires unsettled { IsUnsettled events.now ticket }
        ensures due { IsDueTo limits events.now ticket
            (got_by (option_copied offer.entry) result) result }
        ensures filled { Filled self.new events.now ticket
            (got_by (option_copied offer.entry) result) result }
        ensures tickets { KeepsTickets self.old self.new }
        ensures probes { self.new.stamps.probes
            ≡ probes_after self.old.stamps.probes (option_copied offer.entry) result }
    {
        match offer {
            None => Outcome::Failed,
            Some(offer) => self.take(events, limits, ticket, offer),
        }
    }

    /// Decides the outcome of an open ticket, and notes the Settle that comes next after the
    /// events. An offer of None is a fetch that failed. Where it would be stored and memory runs
    /// out, the outcome is Memory. Nothing else takes memory.
    pub fn settle(
        &mut self,
        events: &[Event],
        limits: Limits,
        ticket: u64,
        offer: Option<&Offer>,
    ) -> Outcome
        requires stands { StandsFor self.old events.now }
        requires legal { IsLegal limits events.now }
        requires unsettled { IsUnsettled events.now ticket }
        ensures due { IsDueTo limits events.now ticket
            (got_by (option_copied offer.entry) result) result }
        ensures stands { StandsSettled self.new events.now ticket
            (got_by (option_copied offer.entry) result) result }
        ensures limit { self.new.stamps.limit ≡ self.old.stamps.limit }
        ensures probes { self.new.stamps.probes
            ≡ probes_after self.old.stamps.probes (option_copied offer.entry) result }
    {
        let outcome = self.fill(events, limits, ticket, offer);
        self.close(ticket);
        outcome
    }
}

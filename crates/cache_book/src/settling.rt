ghost use Rattle.std.specs.Prelude.{◌≡◌, ◌≤◌, [], ◌∷◌, ◌++◌};
ghost use Rattle.cache_terms.specs.declared.events.Event.TheVariants.{Settle};
ghost use Rattle.cache_model.specs.Legal.{IsLegal};
ghost use Rattle.book_tables.specs.Standing.{StandsFor};
ghost use Rattle.book_tables.specs.Closing.{IsUnsettled, IsDueTo, StandsSettled};
ghost use Rattle.cache_book.specs.Settling.{got_by, probes_after, IsOwedTo, IsInRange};

use crate::Report;
use crate::journal::Journal;
use book_tables::Tables;
use cache_terms::{Event, Got, Limits, Offer, Outcome};

/// The outcome that is due to a report. The tables go on with its Settle.
fn decide(
    tables: &mut Tables,
    events: &[Event],
    limits: Limits,
    ticket: u64,
    report: &Report,
) -> Outcome
    requires stands { StandsFor tables.old events.now }
    requires legal { IsLegal limits events.now }
    requires unsettled { IsUnsettled events.now ticket }
    ensures due { IsDueTo limits events.now ticket (got_by report.now result) result }
    ensures stands { StandsSettled tables.new events.now ticket
        (got_by report.now result) result }
    ensures limit { tables.new.stamps.limit ≡ tables.old.stamps.limit }
    ensures probes { tables.new.stamps.probes
        ≡ probes_after tables.old.stamps.probes report.now result }
{
    match report {
        Report::Failed => tables.settle(events, limits, ticket, None),
        Report::Got(offer) => tables.settle(events, limits, ticket, Some(offer)),
    }
}

/// What a Settle with this outcome keeps of a report.
fn kept_of(report: Report, outcome: Outcome) -> Option<Got>
    ensures { result ≡ got_by report outcome }
{
    match report {
        Report::Failed => None,
        Report::Got(offer) => {
            let size = offer.size();
            let Offer {
                value,
                tags,
                verdict,
                marks,
            } = offer;
            let value = match outcome {
                Outcome::Stored => Some(value),
                _ => None,
            };
            Some(Got {
                value,
                size,
                tags,
                verdict,
                marks,
            })
        }
    }
}

impl Journal {
    /// Appends the Settle of an open ticket, whose room was kept.
    pub fn append_settle(&mut self, who: u32, ticket: u64, report: Report) -> Outcome
        requires owed { IsOwedTo self.old.events ticket who }
        requires range { IsInRange report }
        ensures limits { self.new.limits ≡ self.old.limits }
        ensures after { self.new.events
            ≡ self.old.events ++ Settle who ticket (got_by report result) result ∷ [] }
        ensures probes { self.new.probes ≡ probes_after self.old.probes report result }
        ensures due { IsDueTo self.old.limits self.old.events ticket (got_by report result) result }
    {
        let outcome = decide(&mut self.tables, &self.events, self.limits, ticket, &report);
        let got = kept_of(report, outcome);
        let settle = Event::Settle {
            who,
            ticket,
            got,
            outcome,
        };
        self.events.push(settle).unwrap();
        outcome
    }
}

ghost use Rattle.std.specs.Prelude.{◌≡◌, ◌≤◌, Bool, length, map, is_some, IfOk};
ghost use Rattle.std.specs.Option.{option_copied};
ghost use Rattle.std.specs.List.{zip};
ghost use Rattle.cache_terms.specs.Offers.{why_of};
ghost use Rattle.piece_fetch.specs.Between.{AreAllThere, Unpacks};
ghost use Rattle.piece_fetch.specs.Lasting as lasting;
ghost use Rattle.piece_fetch.specs.Offering as offering;
ghost use Rattle.piece_fetch.specs.Offering.{report_of, brought_of};

use crate::{Ask, Brought, Cause, Coming, Lasts};
use cache_book::Report;
use cache_terms::{Marks, Offer, Tags, Verdict, why};
use flow_base::{Memory, Text};
use json_tree::{Json, print};
use reply_read::Pieces;
use std::alloc::Global;
use std::collections::VecDeque;

/// What a fetch's coming gives: a report and a piece for each permit, and what went wrong.
pub struct Unpacked {
    pub reports: Vec<Report>,
    pub brought: Vec<Brought>,
    pub causes: Vec<Cause>,
}

/// Where there is no readable reply each permit is settled as Failed, and each piece is null.
fn unpack_lost(
    alloc: Global,
    ask: &Ask,
    named: bool,
    count: usize,
    why: Cause,
) -> Result<Unpacked, Memory>
    ensures { IfOk result (λ u. Unpacks ask.now named count (Coming.Lost why)
        u.reports.items u.brought.items u.causes.items) }
{
    let mut causes = Vec::new(alloc);
    causes.push(why)?;
    let mut reports = Vec::new(alloc);
    let mut brought = Vec::new(alloc);
    'losing: for _i in 0..count {
        reports.push(Report::Failed)?;
        brought.push(Brought {
            value: Json::Null,
            lasts: None,
        })?;
    }
    Ok(Unpacked {
        reports,
        brought,
        causes,
    })
}

fn is_null(value: &Json) -> bool
    ensures { result ≡ offering.is_null value.now }
{
    match value {
        Json::Null => true,
        _ => false,
    }
}

/// What is offered of a piece.
fn offer_of(
    alloc: Global,
    ask: &Ask,
    status: u16,
    verdict: Verdict,
    errors: bool,
    value: &Json,
    tags: Tags,
) -> Result<Offer, Memory>
    ensures { IfOk result (λ offer. offer
        ≡ offering.offer_of ask.now status verdict errors value.now tags) }
{
    Ok(Offer {
        value: print(alloc, value)?,
        tags,
        verdict,
        marks: Marks {
            status,
            errors,
            absent: is_null(value),
            mutation: ask.mutation,
            uncached: ask.uncached,
        },
    })
}

/// How long what is offered lasts, None where there is a reason not to keep it.
fn lasts_of(offer: &Offer, named: bool) -> Option<Lasts>
    requires lifetime { offer.now.verdict.lifetime ≤ 2147483648 }
    ensures { result ≡ lasting.lasts_of offer.now named }
{
    match why(offer, named) {
        Some(_) => None,
        None => Some(Lasts {
            left_ms: 1000 * offer.verdict.lifetime.saturating_sub(offer.verdict.age),
            private: offer.verdict.private,
        }),
    }
}

/// The report and the piece for each permit of a readable reply.
fn unpack_pieces(
    alloc: Global,
    ask: &Ask,
    named: bool,
    status: u16,
    verdict: Verdict,
    errors: bool,
    values: Vec<Json>,
    tags: Vec<Tags>,
) -> Result<(Vec<Report>, Vec<Brought>), Memory>
    requires count { length tags.items ≡ length values.items }
    requires lifetime { verdict.lifetime ≤ 2147483648 }
    ensures reports { IfOk result (λ u. u.0.items
        ≡ map (report_of ask.now status verdict errors) (zip values.items tags.items)) }
    ensures brought { IfOk result (λ u. u.1.items
        ≡ map (brought_of ask.now named status verdict errors) (zip values.items tags.items)) }
{
    let mut tags = VecDeque::from(tags);
    let mut reports = Vec::new(alloc);
    let mut brought = Vec::new(alloc);
    'offering: for value in values {
        let Some(own) = tags.pop_front() else {
            unreachable!()
        };
        let offer = offer_of(alloc, ask, status, verdict, errors, &value, own)?;
        let lasts = lasts_of(&offer, named);
        reports.push(Report::Got(offer))?;
        brought.push(Brought { value, lasts })?;
    }
    Ok((reports, brought))
}

fn causes_of(alloc: Global, errors: Vec<Text>) -> Result<Vec<Cause>, Memory>
    ensures { IfOk result
        (λ causes. causes.items ≡ map (λ text. Cause.Subgraph text) errors.items) }
{
    let mut causes = Vec::new(alloc);
    'listing: for text in errors {
        causes.push(Cause::Subgraph(text))?;
    }
    Ok(causes)
}

/// What a readable reply gives.
fn unpack_came(
    alloc: Global,
    ask: &Ask,
    named: bool,
    count: usize,
    status: u16,
    verdict: Verdict,
    pieces: Pieces,
) -> Result<Unpacked, Memory>
    requires { AreAllThere (Coming.Came status verdict pieces) }
    ensures { IfOk result (λ u. Unpacks ask.now named count (Coming.Came status verdict pieces)
        u.reports.items u.brought.items u.causes.items) }
{
    let Pieces {
        values,
        tags,
        errors,
    } = pieces;
    let has_errors = !errors.is_empty();
    let (reports, brought) = unpack_pieces(
        alloc, ask, named, status, verdict, has_errors, values, tags,
    )?;
    let causes = causes_of(alloc, errors)?;
    Ok(Unpacked {
        reports,
        brought,
        causes,
    })
}

/// What a coming gives for so many permits.
pub fn unpack(
    alloc: Global,
    ask: &Ask,
    named: bool,
    count: usize,
    coming: Coming,
) -> Result<Unpacked, Memory>
    requires { AreAllThere coming }
    ensures { IfOk result (λ u. Unpacks ask.now named count coming
        u.reports.items u.brought.items u.causes.items) }
{
    match coming {
        Coming::Nothing => Ok(Unpacked {
            reports: Vec::new(alloc),
            brought: Vec::new(alloc),
            causes: Vec::new(alloc),
        }),
        Coming::Lost(why) => unpack_lost(alloc, ask, named, count, why),
        Coming::Came {
            status,
            verdict,
            pieces,
        } => unpack_came(alloc, ask, named, count, status, verdict, pieces),
    }
}

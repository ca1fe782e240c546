ghost use Rattle.std.specs.Prelude.{◌≡◌, ◌++◌, IfOk, OnOk};
ghost use Rattle.std.specs.Option.{option_copied};
ghost use Rattle.plan_run.specs.Outcomes.{receipts_from, errors_from};
ghost use Rattle.plan_run.specs.Outcomes as spec;

use flow_base::Memory;
use json_paths::Place;
use json_value::Json;
use piece_fetch::{Cause, Fetched, Lasts, Origin};
use std::alloc::Global;
use tree_items::{Items, at};

/// Where a piece of a fetch comes from. `index` is that of its key.
#[derive(Clone, Copy, Debug, PartialEq, Eq)]
pub struct Receipt {
    pub fetch: u64,
    pub index: u64,
    pub origin: Origin,
}

/// What went wrong with a fetch: its number in the plan, the number of its subgraph, and the first place of the first
/// piece that was asked for; none for a root fetch.
#[derive(Debug, Drop)]
pub struct PieceError {
    pub fetch: u64,
    pub sub: u64,
    pub cause: Cause,
    pub path: Option<Place>,
}

/// What the fetches of a request give, in the order in which they were done: for each piece where it comes from and how
/// long it lasts, and what went wrong.
#[derive(Drop)]
pub struct Outcome {
    pub receipts: Vec<Receipt>,
    pub lasts: Vec<Option<Lasts>>,
    pub errors: Vec<PieceError>,
}

impl Outcome {
    ghost use Rattle.std.specs.Prelude.{◌≡◌, ◌++◌, IfOk};
    ghost use Rattle.plan_run.specs.Outcomes.{receipts_from, errors_from, path_of};

    /// Adds what a fetch gave, and hands out its pieces. Fails only for want of memory.
    pub fn add(
        &mut self,
        alloc: Global,
        fetch: u64,
        sub: u64,
        places: &[Items<Place>],
        fetched: Fetched,
    ) -> Result<Vec<Json>, Memory>
        ensures receipts { IfOk result
            (λ _. self.new.receipts.items ≡ self.old.receipts.items
            ++ receipts_from fetch 0 fetched.origins.items) }
        ensures lasts { IfOk result
            (λ _. self.new.lasts.items ≡ self.old.lasts.items ++ fetched.lasts.items) }
        ensures errors { IfOk result
            (λ _. self.new.errors.items ≡ self.old.errors.items
            ++ errors_from fetch sub (path_of places.now fetched.first_sent) fetched.causes.items) }
        ensures pieces { IfOk result (λ pieces. pieces.items ≡ fetched.pieces.items) }
    {
        let Fetched {
            pieces,
            origins,
            lasts,
            causes,
            first_sent,
        } = fetched;
        add_receipts(&mut self.receipts, fetch, origins)?;
        add_lasts(&mut self.lasts, lasts)?;
        let path = path_of(places, first_sent);
        add_errors(alloc, &mut self.errors, fetch, sub, path, causes)?;
        Ok(pieces)
    }
}

/// Adds the receipts of a fetch.
fn add_receipts(receipts: &mut Vec<Receipt>, fetch: u64, origins: Vec<Origin>) -> Result<(), Memory>
    ensures { OnOk result (receipts.new.items ≡ receipts.old.items
        ++ receipts_from fetch 0 origins.items) }
{
    let mut index = 0;
    'receiving: for origin in origins {
        receipts.push(Receipt {
            fetch,
            index,
            origin,
        })?;
        index += 1;
    }
    Ok(())
}

/// Adds how long the pieces of a fetch last.
fn add_lasts(lasts: &mut Vec<Option<Lasts>>, more: Vec<Option<Lasts>>) -> Result<(), Memory>
    ensures { OnOk result (lasts.new.items ≡ lasts.old.items ++ more.items) }
{
    let mut more = more;
    lasts.append(&mut more)?;
    Ok(())
}

/// Adds the errors of a fetch.
fn add_errors(
    alloc: Global,
    errors: &mut Vec<PieceError>,
    fetch: u64,
    sub: u64,
    path: Option<&Place>,
    causes: Vec<Cause>,
) -> Result<(), Memory>
    ensures { OnOk result
        (errors.new.items ≡ errors.old.items
        ++ errors_from fetch sub (option_copied path.entry) causes.items) }
{
    'telling: for cause in causes {
        let path = copy_path(alloc, path)?;
        errors.push(PieceError {
            fetch,
            sub,
            cause,
            path,
        })?;
    }
    Ok(())
}

fn copy_path(alloc: Global, path: Option<&Place>) -> Result<Option<Place>, Memory>
    ensures { IfOk result (λ p. p ≡ option_copied path.entry) }
{
    match path {
        Some(place) => Ok(Some(place.copy(alloc)?)),
        None => Ok(None),
    }
}

/// The first place of the first piece that was asked for.
fn path_of(places: &[Items<Place>], first_sent: Option<u64>) -> Option<&Place>
    ensures { option_copied result ≡ spec.path_of places.now first_sent }
{
    let Some(index) = first_sent else {
        return None;
    };
    match at(places, index as usize) {
        Some(users) => users.get(0),
        None => None,
    }
}

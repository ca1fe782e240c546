ghost use Rattle.std.specs.Prelude.{◌≡◌, ◌++◌, IfOk, OnOk, None, Some, MatchOption, map};
ghost use Rattle.plan_exec.specs.Exec.{pieces_of, root_piece, entities, reps_for};
ghost use Rattle.plan_exec.specs.Ready.{unless_given, if_any};
ghost use Rattle.plan_exec.specs.Tasks.{task_of, root_tasks, asked_if};
ghost use Rattle.representations.specs.Gather as rep;
ghost use Rattle.merge_paths.specs.Merge as merge_spec;
ghost use Rattle.merge_paths.specs.Placing.{with_entities};

use crate::tasks::{Asked, Done, Task};
use flow_base::Memory;
use json_paths::{Path, places};
use json_value::{Json, copy};
use merge_paths::{merge, place_entities};
use plan_tree::Fetch;
use representations::{Gathered, gather};
use std::alloc::Global;
use tree_items::{Items, at};

/// A root fetch: its piece is merged into the start value, and without one it is asked for.
pub fn run_root(
    alloc: Global,
    given: &[Done],
    fetch: u64,
    start: Json,
    asking: bool,
    tasks: &mut Vec<Task>,
) -> Result<Json, Memory>
    ensures value { IfOk result (λ v. v
        ≡ merge_spec.merge start (root_piece (pieces_of given.now fetch))) }
    ensures tasks { OnOk result (tasks.new.items ≡ tasks.old.items
        ++ asked_if asking (root_tasks (pieces_of given.now fetch) fetch)) }
{
    let Some(done) = done_of(given, fetch) else {
        ask_root(fetch, asking, tasks)?;
        return Ok(start);
    };
    match done.pieces.as_slice() {
        [] => Ok(start),
        [piece, ..] => merge(alloc, start, copy(alloc, piece)?),
    }
}

fn ask_root(fetch: u64, asking: bool, tasks: &mut Vec<Task>) -> Result<(), Memory>
    ensures { OnOk result (tasks.new.items ≡ tasks.old.items
        ++ asked_if asking (root_tasks None fetch)) }
{
    if !asking {
        return Ok(());
    }
    let asked = Asked::Root;
    tasks.push(Task { fetch, asked })?;
    Ok(())
}

/// A Flatten: its entities are merged into their places, and without them they are asked for, if there are any.
pub fn run_entities(
    alloc: Global,
    fetches: &[Fetch],
    given: &[Done],
    path: &Path,
    fetch: u64,
    start: Json,
    asking: bool,
    tasks: &mut Vec<Task>,
) -> Result<Json, Memory>
    ensures value { IfOk result (λ v. v
        ≡ with_entities start (rep.used_by (reps_for fetches.now start path.now fetch))
        (entities (pieces_of given.now fetch))) }
    ensures tasks { OnOk result (tasks.new.items ≡ tasks.old.items
        ++ asked_if asking (map (task_of fetches.now) (unless_given (pieces_of given.now fetch)
        (if_any (reps_for fetches.now start path.now fetch)
        (record { fetch = fetch; path = Some path.now; start = start }))))) }
{
    let Some(done) = done_of(given, fetch) else {
        if asking {
            ask_entities(alloc, fetches, path, fetch, &start, tasks)?;
        }
        return Ok(start);
    };
    let gathered = gather_for(alloc, fetches, &start, path, fetch)?;
    place_entities(
        alloc,
        start,
        gathered.used_by.as_slice(),
        done.pieces.as_slice(),
    )
}

fn ask_entities(
    alloc: Global,
    fetches: &[Fetch],
    path: &Path,
    fetch: u64,
    start: &Json,
    tasks: &mut Vec<Task>,
) -> Result<(), Memory>
    ensures { OnOk result (tasks.new.items ≡ tasks.old.items
        ++ map (task_of fetches.now) (if_any (reps_for fetches.now start.now path.now fetch)
        (record { fetch = fetch; path = Some path.now; start = start.now }))) }
{
    let gathered = gather_for(alloc, fetches, start, path, fetch)?;
    if gathered.distinct.is_empty() {
        return Ok(());
    }
    let asked = Asked::Entities {
        distinct: gathered.distinct,
        used_by: gathered.used_by,
    };
    tasks.push(Task { fetch, asked })?;
    Ok(())
}

/// The representations for which a Flatten asks.
fn gather_for(
    alloc: Global,
    fetches: &[Fetch],
    value: &Json,
    path: &Path,
    fetch: u64,
) -> Result<Gathered, Memory>
    ensures distinct { IfOk result (λ g. g.distinct
        ≡ rep.distinct_texts (reps_for fetches.now value.now path.now fetch)) }
    ensures used_by { IfOk result
        (λ g. g.used_by ≡ rep.used_by (reps_for fetches.now value.now path.now fetch)) }
{
    if let Some(fetch) = at(fetches, fetch as usize) {
        if let Some(needs) = &fetch.needs {
            let places = places(alloc, value, path)?;
            return gather(alloc, value, &places, needs);
        }
    }
    Ok(Gathered {
        distinct: Items::new(alloc),
        used_by: Items::new(alloc),
    })
}

/// The first that is given for a fetch.
fn done_of(given: &[Done], fetch: u64) -> Option<&Done>
    ensures { MatchOption result (pieces_of given.now fetch ≡ None)
        (λ d. pieces_of given.now fetch ≡ Some d.now.pieces) }
{
    for done in given {
        if done.fetch == fetch {
            return Some(done);
        }
    }
    None
}

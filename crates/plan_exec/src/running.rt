ghost use Rattle.std.specs.Prelude.{◌≡◌, ◌++◌, ◌==◌, ◌&&◌, IfOk, OnOk, map};
ghost use Rattle.plan_exec.specs.Exec.{exec, one_by_one, side_by_side};
ghost use Rattle.plan_exec.specs.Ready.{ready};
ghost use Rattle.plan_exec.specs.Levels.{first_of, each_of};
ghost use Rattle.plan_exec.specs.Tasks.{task_of, asked_if};

use crate::leaves::{run_entities, run_root};
use crate::tasks::{Done, Task};
use flow_base::Memory;
use json_value::{Json, copy};
use merge_paths::merge;
use plan_tree::{Fetch, Node};
use std::alloc::Global;

/// The value of a node that starts at a value, over the pieces that are given. Where it is asking, the tasks of the
/// node's ready fetches are appended. Each node is visited once.
#[cycle(run)]
pub fn run(
    alloc: Global,
    fetches: &[Fetch],
    given: &[Done],
    node: &Node,
    start: Json,
    asking: bool,
    tasks: &mut Vec<Task>,
) -> Result<Json, Memory>
    ensures value { IfOk result (λ v. v ≡ exec fetches.now given.now node.now start) }
    ensures tasks { OnOk result (tasks.new.items ≡ tasks.old.items
        ++ asked_if asking
        (map (task_of fetches.now) (ready fetches.now given.now node.now start))) }
{
    match node {
        Node::Fetch(fetch) => Ok(run_root(alloc, given, *fetch, start, asking, tasks)?),
        Node::Flatten(path, fetch) => Ok(run_entities(
            alloc, fetches, given, path, *fetch, start, asking, tasks,
        )?),
        Node::Sequence(nodes) => Ok(run_in_turn(
            alloc,
            fetches,
            given,
            nodes.as_slice(),
            start,
            asking,
            tasks,
        )?),
        Node::Parallel(nodes) => Ok(run_side_by_side(
            alloc,
            fetches,
            given,
            nodes.as_slice(),
            &start,
            asking,
            tasks,
        )?),
    }
}

#[cycle(run)]
fn run_in_turn(
    alloc: Global,
    fetches: &[Fetch],
    given: &[Done],
    nodes: &[Node],
    start: Json,
    asking: bool,
    tasks: &mut Vec<Task>,
) -> Result<Json, Memory>
    ensures value { IfOk result (λ v. v
        ≡ one_by_one (map (exec fetches.now given.now) nodes.now) start) }
    ensures tasks { OnOk result (tasks.new.items ≡ tasks.old.items
        ++ asked_if asking
        (map (task_of fetches.now) (first_of fetches.now given.now nodes.now start))) }
{
    let mut value = start;
    let before = tasks.len();
    for node in nodes {
        // Once a node has a ready fetch, those after it can't be asked for.
        let still = still_asks(asking, before, tasks.len());
        value = run(alloc, fetches, given, node, value, still, tasks)?;
    }
    Ok(value)
}

#[cycle(run)]
fn run_side_by_side(
    alloc: Global,
    fetches: &[Fetch],
    given: &[Done],
    nodes: &[Node],
    start: &Json,
    asking: bool,
    tasks: &mut Vec<Task>,
) -> Result<Json, Memory>
    ensures value { IfOk result (λ v. v
        ≡ side_by_side (map (exec fetches.now given.now) nodes.now) start.now start.now) }
    ensures tasks { OnOk result (tasks.new.items ≡ tasks.old.items
        ++ asked_if asking
        (map (task_of fetches.now) (each_of fetches.now given.now nodes.now start.now))) }
{
    let mut value = copy(alloc, start)?;
    for node in nodes {
        let other = run(
            alloc,
            fetches,
            given,
            node,
            copy(alloc, start)?,
            asking,
            tasks,
        )?;
        value = merge(alloc, value, other)?;
    }
    Ok(value)
}

fn still_asks(asking: bool, before: usize, now: usize) -> bool
    ensures { result ≡ (asking && (now == before)) }
{
    asking && now == before
}

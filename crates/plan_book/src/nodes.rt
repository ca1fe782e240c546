//! The nodes of a plan, read from the left.

ghost use Rattle.std.specs.Prelude.{◌≡◌, ◌≢◌, ◌+◌, ◌≤◌, ◌∷◌, [], max, length, map, suc, Some, Ok, Err, IfOk, IfErr, OnOk, codes};
ghost use Rattle.json_value.specs.Members as by_name;
ghost use Rattle.plan_tree.specs.Lawful.{depth, deepest};
ghost use Rattle.plan_book.specs.declared.fault.PlanFault.TheVariants as faults;
ghost use Rattle.plan_book.specs.declared.kinds.Kind.TheVariants as kinds;
ghost use Rattle.plan_book.specs.Forms as forms;
ghost use Rattle.plan_book.specs.Nodes.{IsNode, IsOfKind, AreInside, AreNodes, one_node_more, with_fetch};
ghost use Rattle.plan_book.specs.Drafts.{so_far, StandsInside, Deepens};

use crate::fault::PlanFault;
use crate::fetches::{bad_member, entity, fetch};
use crate::forms::{children, kind, object_member, path};
use crate::kinds::{Kind, Standing};
use flow_base::Memory;
use json_value::Json;
use plan_tree::{Fetch, Node};
use std::alloc::Global;
use tree_items::Items;

/// What the nodes so far come to: how many nodes stand in one another down to each of them, and the fetches.
#[derive(Drop)]
pub struct Draft {
    pub levels: Vec<u64>,
    pub fetches: Vec<Fetch>,
}

/// Notes one node more, in which so many stand around it.
fn enter(draft: &mut Draft, around: u64) -> Result<(), Memory>
    requires { StandsInside draft.old around }
    ensures nodes { OnOk result (so_far draft.new ≡ one_node_more (so_far draft.old)) }
    ensures levels { OnOk result (Deepens draft.old draft.new around 1) }
    ensures inside { OnOk result (StandsInside draft.new (around + 1)) }
{
    draft.levels.push(around + 1)?;
    Ok(())
}

/// Adds a fetch, and gives its number.
fn add_fetch(draft: &mut Draft, fetch: Fetch) -> Result<u64, Memory>
    ensures number { IfOk result (λ n. n ≡ length draft.old.fetches.items) }
    ensures fetches { OnOk result (so_far draft.new ≡ with_fetch (so_far draft.old) fetch) }
    ensures levels { OnOk result (draft.new.levels.items ≡ draft.old.levels.items) }
{
    let number = draft.fetches.len() as u64;
    draft.fetches.push(fetch)?;
    Ok(number)
}

fn fetch_node(
    alloc: Global,
    value: &Json,
    standing: Standing,
    around: u64,
    draft: &mut Draft,
) -> Result<Node, PlanFault>
    requires { StandsInside draft.old around }
    ensures node { IfOk result
        (λ n. IsOfKind standing (Some kinds.Fetch) (so_far draft.old) value.now
        (Ok (n, so_far draft.new))) }
    ensures fault { IfErr result (λ f. f ≢ faults.Memory
        → IsOfKind standing (Some kinds.Fetch) (so_far draft.old) value.now (Err f)) }
    ensures levels { IfOk result (λ n. Deepens draft.old draft.new around (depth n)) }
{
    let fetch = fetch(alloc, value, standing, false, draft.levels.len() as u64)?;
    enter(draft, around)?;
    let number = add_fetch(draft, fetch)?;
    Ok(Node::Fetch(number))
}

fn flatten_node(
    alloc: Global,
    value: &Json,
    standing: Standing,
    around: u64,
    draft: &mut Draft,
) -> Result<Node, PlanFault>
    requires { StandsInside draft.old around }
    ensures node { IfOk result
        (λ n. IsOfKind standing (Some kinds.Flatten) (so_far draft.old) value.now
        (Ok (n, so_far draft.new))) }
    ensures fault { IfErr result (λ f. f ≢ faults.Memory
        → IsOfKind standing (Some kinds.Flatten) (so_far draft.old) value.now (Err f)) }
    ensures levels { IfOk result (λ n. Deepens draft.old draft.new around (depth n)) }
{
    let Some(path) = path(alloc, value)? else {
        return Err(bad_member(alloc, standing.entry, "path"));
    };
    let Some(inner) = object_member(value, "node") else {
        return Err(bad_member(alloc, standing.entry, "node"));
    };
    enter(draft, around)?;
    let fetch = entity(alloc, inner, standing, draft.levels.len() as u64)?;
    enter(draft, around + 1)?;
    let number = add_fetch(draft, fetch)?;
    Ok(Node::Flatten(path, number))
}

/// The node that a value is, around which so many stand; a node's own faults come before those of the nodes in it.
/// Recurses once for each level of nodes.
#[cycle(node)]
pub fn node(
    alloc: Global,
    value: &Json,
    standing: Standing,
    around: u64,
    draft: &mut Draft,
) -> Result<Node, PlanFault>
    requires { StandsInside draft.old around }
    ensures node { IfOk result
        (λ n. IsNode standing (so_far draft.old) value.now (Ok (n, so_far draft.new))) }
    ensures fault { IfErr result (λ f. f ≢ faults.Memory
        → IsNode standing (so_far draft.old) value.now (Err f)) }
    ensures levels { IfOk result (λ n. Deepens draft.old draft.new around (depth n)) }
{
    match kind(value) {
        Some(Kind::Fetch) => fetch_node(alloc, value, standing, around, draft),
        Some(Kind::Flatten) => flatten_node(alloc, value, standing, around, draft),
        Some(Kind::Sequence) => {
            let nodes = inside(alloc, value, standing, around, draft)?;
            Ok(Node::Sequence(nodes))
        }
        Some(Kind::Parallel) => {
            let nodes = inside(alloc, value, standing, around, draft)?;
            Ok(Node::Parallel(nodes))
        }
        None => Err(PlanFault::Kind(standing.entry, draft.levels.len() as u64)),
    }
}

/// The nodes in a Sequence or Parallel.
#[cycle(node)]
fn inside(
    alloc: Global,
    value: &Json,
    standing: Standing,
    around: u64,
    draft: &mut Draft,
) -> Result<Items<Node>, PlanFault>
    requires { StandsInside draft.old around }
    ensures nodes { IfOk result
        (λ ns. AreInside standing (forms.children_in (by_name.member value.now (codes "nodes")))
        (so_far draft.old) (Ok (ns, so_far draft.new))) }
    ensures fault { IfErr result (λ f. f ≢ faults.Memory
        → AreInside standing (forms.children_in (by_name.member value.now (codes "nodes")))
        (so_far draft.old) (Err f)) }
    ensures levels { IfOk result
        (λ ns. Deepens draft.old draft.new around (suc (deepest (map depth ns)))) }
{
    let Some(values) = children(value) else {
        return Err(bad_member(alloc, standing.entry, "nodes"));
    };
    enter(draft, around)?;
    nodes(alloc, values.as_slice(), standing, around + 1, draft)
}

/// One after the other.
#[cycle(node)]
fn nodes(
    alloc: Global,
    values: &[Json],
    standing: Standing,
    around: u64,
    draft: &mut Draft,
) -> Result<Items<Node>, PlanFault>
    requires { StandsInside draft.old around }
    ensures nodes { IfOk result
        (λ ns. AreNodes standing (so_far draft.old) values.now (Ok (ns, so_far draft.new))) }
    ensures fault { IfErr result (λ f. f ≢ faults.Memory
        → AreNodes standing (so_far draft.old) values.now (Err f)) }
    ensures levels { IfOk result
        (λ ns. Deepens draft.old draft.new around (deepest (map depth ns))) }
{
    let mut made = Items::new(alloc);
    for i in 0..values.len() {
        let one = node(alloc, &values[i], standing, around, draft)?;
        made.push(one)?;
    }
    Ok(made)
}

/// How many nodes stand in one another at most.
pub fn deepest_level(levels: &[u64]) -> u64
    ensures { result ≡ deepest levels.now }
{
    let mut most = 0;
    for level in levels {
        if *level > most {
            most = *level;
        }
    }
    most
}

ghost use Rattle.std.specs.Prelude.{◌≡◌, ℕ, ◌+◌, ◌-◌, ◌<◌, ◌≤◌, [], ◌∷◌, ◌++◌, length, take, drop, slice_set, slice_index_or, List, All, IfOk, OnOk, vec_len, true, false};
ghost use Rattle.gql_spreads.specs.declared.search.Mark.TheVariants as mark;
ghost use Rattle.gql_spreads.specs.declared.search.Group.{Group};
ghost use Rattle.gql_spreads.specs.Graph.{IsGraph};
ghost use Rattle.gql_spreads.specs.Search.{done_all, group_at, KeepsStack, IsBlank, IsStep, IsExplored};

use crate::search::{Group, Mark, Search};
use flow_base::Memory;
use std::alloc::Global;
use tree_items::Items;

/// A search that has seen nothing of so many nodes.
#[tactic(auto, using(crate::proofs::Marks::fresh_more))]
pub fn blank(alloc: Global, count: usize) -> Result<Search, Memory>
    ensures { IfOk result (λ s. IsBlank count s) }
{
    let mut marks = Vec::new(alloc);
    for _ in 0..count {
        marks.push(Mark::Fresh).map_err(|_| Memory)?;
    }
    Ok(Search {
        marks,
        nodes: Vec::new(alloc),
        edges: Vec::new(alloc),
        groups: Vec::new(alloc),
    })
}

/// Goes on until nothing is open, from a node that may be fresh.
pub fn explore(search: &mut Search, graph: &[Items<usize>], root: usize) -> Result<(), Memory>
    requires root { root < length graph.now }
    requires graph { IsGraph graph.now }
    requires keeps { KeepsStack graph.now search.old }
    requires closed { search.old.groups.items ≡ [] }
    ensures { OnOk result (IsExplored graph.now root search.old search.new) }
{
    if let Mark::Fresh = search.marks[root] {
        enter(search, graph, root)?;
    }
    while !search.groups.is_empty() {
        step(search, graph)?;
    }
    Ok(())
}

/// Follows the last edge of the last group, or leaves the group where it has none left.
fn step(search: &mut Search, graph: &[Items<usize>]) -> Result<(), Memory>
    requires some { 0 < vec_len search.old.groups }
    requires graph { IsGraph graph.now }
    requires keeps { KeepsStack graph.now search.old }
    ensures { OnOk result (IsStep graph.now search.old search.new) }
{
    let group = search.groups[search.groups.len() - 1];
    if search.edges.len() <= group.edge {
        leave(search, group);
        return Ok(());
    }
    let node = search.edges[search.edges.len() - 1];
    match search.marks[node] {
        Mark::Open(place) => {
            if place < group.node {
                swallow(search);
                return Ok(());
            }
            circle(search, group);
            Ok(())
        }
        Mark::Done(_) => {
            search.edges.pop();
            Ok(())
        }
        Mark::Fresh => {
            search.edges.pop();
            enter(search, graph, node)?;
            Ok(())
        }
    }
}

/// Opens a node as a group of its own.
fn enter(search: &mut Search, graph: &[Items<usize>], node: usize) -> Result<(), Memory>
    requires marked { node < vec_len search.old.marks }
    requires is_node { node < length graph.now }
    ensures marks { OnOk result (search.new.marks.items
        ≡ slice_set search.old.marks.items node (mark.Open (vec_len search.old.nodes))) }
    ensures nodes { OnOk result (search.new.nodes.items ≡ search.old.nodes.items ++ (node ∷ [])) }
    ensures edges { OnOk result (search.new.edges.items
        ≡ search.old.edges.items ++ slice_index_or graph.now node []) }
    ensures groups { OnOk result (search.new.groups.items ≡ search.old.groups.items
        ++ (group_at (vec_len search.old.nodes) (vec_len search.old.edges) false ∷ [])) }
{
    let group = Group {
        node: search.nodes.len(),
        edge: search.edges.len(),
        cyclic: false,
    };
    search.groups.push(group).map_err(|_| Memory)?;
    search.marks[node] = Mark::Open(group.node);
    search.nodes.push(node).map_err(|_| Memory)?;
    search.edges.extend_from_slice(graph[node].as_slice())?;
    Ok(())
}

/// Its nodes are done.
fn leave(search: &mut Search, group: Group)
    requires within { group.node ≤ vec_len search.old.nodes }
    requires marked { All (λ v. v < vec_len search.old.marks)
        (drop group.node search.old.nodes.items) }
    ensures marks { search.new.marks.items
        ≡ done_all (drop group.node search.old.nodes.items) group.cyclic search.old.marks.items }
    ensures nodes { search.new.nodes.items ≡ take group.node search.old.nodes.items }
    ensures edges { search.new.edges.items ≡ search.old.edges.items }
    ensures groups { search.new.groups.items
        ≡ take (vec_len search.old.groups - 1) search.old.groups.items }
{
    finish(&mut search.marks, &search.nodes[group.node..], group.cyclic);
    search.nodes.truncate(group.node);
    search.groups.pop();
}

/// Marks the nodes as done.
#[tactic(auto, using(crate::proofs::Marks::done_step, crate::proofs::Marks::done_end))]
fn finish(marks: &mut Vec<Mark>, nodes: &[usize], cyclic: bool)
    requires { All (λ v. v < vec_len marks.old) nodes.now }
    ensures { marks.new.items ≡ done_all nodes.now cyclic marks.old.items }
{
    for node in nodes {
        marks[*node] = Mark::Done(cyclic);
    }
}

/// The last group becomes one with the group below it, which is cyclic then.
fn swallow(search: &mut Search)
    requires { 1 < vec_len search.old.groups }
    ensures marks { search.new.marks.items ≡ search.old.marks.items }
    ensures nodes { search.new.nodes.items ≡ search.old.nodes.items }
    ensures edges { search.new.edges.items ≡ search.old.edges.items }
    ensures groups { (xs : List Group) (f g : Group)
        → search.old.groups.items ≡ (xs ++ (f ∷ [])) ++ (g ∷ [])
        → search.new.groups.items ≡ xs ++ (group_at f.node f.edge true ∷ []) }
{
    search.groups.pop();
    let last = search.groups.len() - 1;
    let group = search.groups[last];
    search.groups[last] = Group {
        node: group.node,
        edge: group.edge,
        cyclic: true,
    };
}

/// The last edge is followed, and the last group is cyclic.
fn circle(search: &mut Search, group: Group)
    requires some { 0 < vec_len search.old.groups }
    requires edge { 0 < vec_len search.old.edges }
    ensures marks { search.new.marks.items ≡ search.old.marks.items }
    ensures nodes { search.new.nodes.items ≡ search.old.nodes.items }
    ensures edges { search.new.edges.items
        ≡ take (vec_len search.old.edges - 1) search.old.edges.items }
    ensures groups { (xs : List Group) (g : Group) → search.old.groups.items ≡ xs ++ (g ∷ [])
        → search.new.groups.items ≡ xs ++ (group_at group.node group.edge true ∷ []) }
{
    search.edges.pop();
    let last = search.groups.len() - 1;
    search.groups[last] = Group {
        node: group.node,
        edge: group.edge,
        cyclic: true,
    };
}

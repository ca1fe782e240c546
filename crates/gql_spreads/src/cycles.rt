ghost use Rattle.std.specs.Prelude.{◌≡◌, IfOk};
ghost use Rattle.gql_spreads.specs.Graph.{IsGraph, AreCycles};
ghost use Rattle.gql_spreads.specs.Search as spec;

use crate::search::Mark;
use crate::steps::{blank, explore};
use flow_base::Memory;
use std::alloc::Global;
use tree_items::Items;

/// For each node of the graph, whether it lies on a cycle: a path of one edge or more leads from it back to it.
/// Fails only for want of memory. Takes time and memory linear in the nodes and edges, and recurses nowhere.
pub fn nodes_on_cycles(alloc: Global, graph: &[Items<usize>]) -> Result<Vec<bool>, Memory>
    requires { IsGraph graph.now }
    ensures { IfOk result (λ flags. AreCycles graph.now flags.items) }
{
    let mut search = blank(alloc, graph.len())?;
    for root in 0..graph.len() {
        explore(&mut search, graph, root)?;
    }
    let mut flags = Vec::new(alloc);
    for mark in &search.marks {
        flags.push(is_cyclic(*mark)).map_err(|_| Memory)?;
    }
    Ok(flags)
}

fn is_cyclic(mark: Mark) -> bool
    ensures { result ≡ spec.is_cyclic mark }
{
    match mark {
        Mark::Done(cyclic) => cyclic,
        _ => false,
    }
}

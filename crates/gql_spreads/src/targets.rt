ghost use Rattle.std.specs.Prelude.{◌≡◌, ◌∷◌, [], ◌++◌, map, OnOk, IfOk};
ghost use Rattle.std.specs.List.{filter_map};
ghost use Rattle.gql_spreads.specs.Spreads.{spreads_of, spreads_in};
ghost use Rattle.gql_spreads.specs.Numbers.{number_in, targets_of};

use flow_base::{Memory, Text};
use gql_terms::{Fragment, Selection};
use std::alloc::Global;
use std::collections::BTreeMap;
use tree_items::Items;

/// For each fragment the numbers of those that it spreads.
pub fn fragment_graph(
    alloc: Global,
    numbers: &BTreeMap<Text, usize>,
    fragments: &[Fragment],
) -> Result<Vec<Items<usize>>, Memory>
    ensures { IfOk result (λ graph. graph.items ≡ map (targets_of numbers.now) fragments.now) }
{
    let mut graph = Vec::new(alloc);
    for fragment in fragments {
        let mut targets = Vec::new(alloc);
        put_targets(&mut targets, numbers, fragment.selections.as_slice())?;
        graph.push(Items::from_vec(targets)).map_err(|_| Memory)?;
    }
    Ok(graph)
}

/// Appends the numbers of the fragments that the selections spread; an unknown one is passed over. Recurses once for
/// each level of selection sets.
#[cycle(put_targets)]
fn put_targets(
    out: &mut Vec<usize>,
    numbers: &BTreeMap<Text, usize>,
    selections: &[Selection],
) -> Result<(), Memory>
    ensures { OnOk result (out.new.items
        ≡ out.old.items ++ filter_map (number_in numbers.now) (spreads_in selections.now)) }
{
    for i in 0..selections.len() {
        put_target(out, numbers, &selections[i])?;
    }
    Ok(())
}

#[cycle(put_targets)]
fn put_target(
    out: &mut Vec<usize>,
    numbers: &BTreeMap<Text, usize>,
    selection: &Selection,
) -> Result<(), Memory>
    ensures { OnOk result (out.new.items
        ≡ out.old.items ++ filter_map (number_in numbers.now) (spreads_of selection.now)) }
{
    match selection {
        Selection::Field { selections, .. } => put_targets(out, numbers, selections.as_slice()),
        Selection::Spread { name, .. } => put_known(out, numbers, name),
        Selection::Inline { selections, .. } => put_targets(out, numbers, selections.as_slice()),
    }
}

fn put_known(
    out: &mut Vec<usize>,
    numbers: &BTreeMap<Text, usize>,
    name: &Text,
) -> Result<(), Memory>
    ensures { OnOk result (out.new.items
        ≡ out.old.items ++ filter_map (number_in numbers.now) (name.now ∷ [])) }
{
    if let Some(number) = numbers.get(name) {
        out.push(*number).map_err(|_| Memory)?;
    }
    Ok(())
}

ghost use Rattle.std.specs.Prelude.{◌≡◌, ◌∷◌, [], IfOk};
ghost use Rattle.std.specs.Option.{option_copied};
ghost use Rattle.std.specs.List.{find, flat_map};
ghost use Rattle.gql_spreads.specs.Spreads.{spreads_of, spreads_in, operation_spreads, fragment_spreads, document_spreads, IsFirstBad};
ghost use Rattle.gql_spreads.specs.Numbers.{is_bad, HaveMarks};

use crate::cycles::nodes_on_cycles;
use crate::numbers::fragment_numbers;
use crate::targets::fragment_graph;
use flow_base::{Memory, Text};
use gql_terms::{Document, Fragment, Operation, Selection};
use std::alloc::Global;
use std::collections::BTreeMap;

/// The name of the first spread, in the order of the canonical text, whose fragment is unknown or reaches itself by
/// spreads; of fragments of one name the first counts. Fails only for want of memory. Takes time linear in the document
/// times the logarithm of its fragments, and recurses once for each level of selection sets, never along spreads.
pub fn bad_spread(alloc: Global, document: &Document) -> Result<Option<Text>, Memory>
    ensures { IfOk result (IsFirstBad document.now) }
{
    let fragments = document.fragments.as_slice();
    let numbers = fragment_numbers(alloc, fragments)?;
    let graph = fragment_graph(alloc, &numbers, fragments)?;
    let cyclic = nodes_on_cycles(alloc, graph.as_slice())?;
    copied(first_bad(&numbers, cyclic.as_slice(), document))
}

fn copied(name: Option<&Text>) -> Result<Option<Text>, Memory>
    ensures { IfOk result (λ copy. copy ≡ option_copied name.entry) }
{
    match name {
        Some(name) => Ok(Some(name.copy()?)),
        None => Ok(None),
    }
}

/// The first spread of the document whose fragment is unknown or marked.
fn first_bad<'a>(
    numbers: &BTreeMap<Text, usize>,
    cyclic: &[bool],
    document: &'a Document,
) -> Option<&'a Text>
    requires { HaveMarks numbers.now cyclic.now }
    ensures { option_copied result
        ≡ find (is_bad numbers.now cyclic.now) (document_spreads document.now) }
{
    match first_in_operations(numbers, cyclic, document.operations.as_slice()) {
        Some(name) => Some(name),
        None => first_in_fragments(numbers, cyclic, document.fragments.as_slice()),
    }
}

fn first_in_operations<'a>(
    numbers: &BTreeMap<Text, usize>,
    cyclic: &[bool],
    operations: &'a [Operation],
) -> Option<&'a Text>
    requires { HaveMarks numbers.now cyclic.now }
    ensures { option_copied result
        ≡ find (is_bad numbers.now cyclic.now) (flat_map operation_spreads operations.now) }
{
    for i in 0..operations.len() {
        match first_in(numbers, cyclic, operations[i].selections.as_slice()) {
            Some(name) => return Some(name),
            None => {}
        }
    }
    None
}

fn first_in_fragments<'a>(
    numbers: &BTreeMap<Text, usize>,
    cyclic: &[bool],
    fragments: &'a [Fragment],
) -> Option<&'a Text>
    requires { HaveMarks numbers.now cyclic.now }
    ensures { option_copied result
        ≡ find (is_bad numbers.now cyclic.now) (flat_map fragment_spreads fragments.now) }
{
    for i in 0..fragments.len() {
        match first_in(numbers, cyclic, fragments[i].selections.as_slice()) {
            Some(name) => return Some(name),
            None => {}
        }
    }
    None
}

#[cycle(first_in)]
fn first_in<'a>(
    numbers: &BTreeMap<Text, usize>,
    cyclic: &[bool],
    selections: &'a [Selection],
) -> Option<&'a Text>
    requires { HaveMarks numbers.now cyclic.now }
    ensures { option_copied result
        ≡ find (is_bad numbers.now cyclic.now) (spreads_in selections.now) }
{
    for i in 0..selections.len() {
        match first_at(numbers, cyclic, &selections[i]) {
            Some(name) => return Some(name),
            None => {}
        }
    }
    None
}

#[cycle(first_in)]
fn first_at<'a>(
    numbers: &BTreeMap<Text, usize>,
    cyclic: &[bool],
    selection: &'a Selection,
) -> Option<&'a Text>
    requires { HaveMarks numbers.now cyclic.now }
    ensures { option_copied result
        ≡ find (is_bad numbers.now cyclic.now) (spreads_of selection.now) }
{
    match selection {
        Selection::Field { selections, .. } => first_in(numbers, cyclic, selections.as_slice()),
        Selection::Spread { name, .. } => {
            if bad_name(numbers, cyclic, name) {
                Some(name)
            } else {
                None
            }
        }
        Selection::Inline { selections, .. } => first_in(numbers, cyclic, selections.as_slice()),
    }
}

fn bad_name(numbers: &BTreeMap<Text, usize>, cyclic: &[bool], name: &Text) -> bool
    requires { HaveMarks numbers.now cyclic.now }
    ensures { result ≡ is_bad numbers.now cyclic.now name.now }
{
    match numbers.get(name) {
        Some(number) => cyclic[*number],
        None => true,
    }
}

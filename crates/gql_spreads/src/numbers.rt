ghost use Rattle.std.specs.Prelude.{IfOk, OnOk, Some};
ghost use Rattle.std.specs.Ordering.{nat_cmp};
ghost use Rattle.std.specs.Cmp.Lexicographic.{slice_cmp};
ghost use Rattle.std.specs.BTreeMap.{Updates};
ghost use Rattle.gql_spreads.specs.Numbers.{AreNumbers};

use flow_base::{Memory, Text};
use gql_terms::Fragment;
use std::alloc::Global;
use std::collections::BTreeMap;

/// The number of the first fragment of each name.
pub fn fragment_numbers(
    alloc: Global,
    fragments: &[Fragment],
) -> Result<BTreeMap<Text, usize>, Memory>
    ensures { IfOk result (AreNumbers fragments.now) }
{
    let mut numbers = BTreeMap::new(alloc);
    for i in 0..fragments.len() {
        let name = &fragments[i].name;
        if !numbers.contains_key(name) {
            add_number(&mut numbers, name.copy()?, i)?;
        }
    }
    Ok(numbers)
}

/// The name has the number now.
fn add_number(numbers: &mut BTreeMap<Text, usize>, name: Text, number: usize) -> Result<(), Memory>
    ensures { OnOk result
        (Updates (λ a b. slice_cmp nat_cmp a b) numbers.old numbers.new name (Some number)) }
{
    match numbers.insert(name, number) {
        Ok(_) => Ok(()),
        Err(_) => Err(Memory),
    }
}

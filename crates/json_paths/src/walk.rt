ghost use Rattle.std.specs.Prelude.{◌≡◌, ◌++◌, ◌∷◌, ◌↔◌, OnOk, IfOk, Contains};
ghost use Rattle.json_paths.specs.declared.path.Place.{Place};
ghost use Rattle.json_paths.specs.declared.path.Step.TheVariants as step;
ghost use Rattle.json_paths.specs.Places.{places_under, spots_in, places_of, IsPlaceOf};

use crate::part::elements_of;
use crate::path::{Path, Place, Spot, Step, copy_spots, enter, leave};
use flow_base::{Memory, Text};
use json_value::{Json, member};
use std::alloc::Global;

/// All places in a value to which a path leads, in order: a name leads into the member of an object,
/// Each into every element of a list, and where there is no such part there is no place. Fails only
/// for want of memory. Takes time in proportion to the places that it gives and to the elements that
/// it passes, and recurses once for each step of the path.
pub fn places(alloc: Global, value: &Json, path: &Path) -> Result<Vec<Place>, Memory>
    ensures value { IfOk result (λ found. found.items ≡ places_of value.now path.now) }
    // Every place that is given is found by `at`, and none that is found is missing.
    ensures exact { IfOk result (λ found. (place : Place) → Contains found.items place
        ↔ IsPlaceOf value.now path.now place) }
{
    let mut spots = Vec::new(alloc);
    let mut found = Vec::new(alloc);
    walk(alloc, value, path.steps.as_slice(), &mut spots, &mut found)?;
    Ok(found)
}

/// Appends the places to which the steps lead from a value that stands at these spots.
#[cycle(walk)]
fn walk(
    alloc: Global,
    value: &Json,
    steps: &[Step],
    spots: &mut Vec<Spot>,
    found: &mut Vec<Place>,
) -> Result<(), Memory>
    ensures places { OnOk result (found.new.items
        ≡ found.old.items ++ places_under spots.old.items (spots_in value.now steps.now)) }
    ensures back { OnOk result (spots.new.items ≡ spots.old.items) }
{
    match steps {
        [] => {
            let spots = copy_spots(alloc, spots)?;
            found.push(Place { spots })?;
            Ok(())
        }
        [Step::Name(name), rest @ ..] => walk_member(alloc, value, name, rest, spots, found),
        [Step::Each, rest @ ..] => walk_each(alloc, value, rest, spots, found),
    }
}

#[cycle(walk)]
fn walk_member(
    alloc: Global,
    value: &Json,
    name: &Text,
    steps: &[Step],
    spots: &mut Vec<Spot>,
    found: &mut Vec<Place>,
) -> Result<(), Memory>
    ensures places { OnOk result
        (found.new.items ≡ found.old.items
        ++ places_under spots.old.items (spots_in value.now (step.Name name.now ∷ steps.now))) }
    ensures back { OnOk result (spots.new.items ≡ spots.old.items) }
{
    if let Some(inner) = member(value, name.as_str()) {
        enter(spots, Spot::Name(name.copy()?))?;
        walk(alloc, inner, steps, spots, found)?;
        leave(spots);
    }
    Ok(())
}

#[cycle(walk)]
fn walk_each(
    alloc: Global,
    value: &Json,
    steps: &[Step],
    spots: &mut Vec<Spot>,
    found: &mut Vec<Place>,
) -> Result<(), Memory>
    ensures places { OnOk result
        (found.new.items ≡ found.old.items
        ++ places_under spots.old.items (spots_in value.now (step.Each ∷ steps.now))) }
    ensures back { OnOk result (spots.new.items ≡ spots.old.items) }
{
    let items = elements_of(value);
    for i in 0..items.len() {
        enter(spots, Spot::Index(i as u64))?;
        walk(alloc, &items[i], steps, spots, found)?;
        leave(spots);
    }
    Ok(())
}

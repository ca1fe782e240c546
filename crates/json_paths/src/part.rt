ghost use Rattle.std.specs.Prelude.{◌≡◌};
ghost use Rattle.std.specs.Option.{option_copied};
ghost use Rattle.json_paths.specs.Parts.{part, elements};
ghost use Rattle.json_paths.specs.Parts as spec;

use crate::path::{Place, Spot};
use json_value::{Json, member};

/// The part of a value at a place, and None exactly where there is no such part. Takes no memory.
pub fn at<'a>(value: &'a Json, place: &Place) -> Option<&'a Json>
    ensures { option_copied result ≡ spec.at value.now place.now.spots }
{
    let mut found = value;
    for spot in place.spots.as_slice() {
        found = part_of(found, spot)?;
    }
    Some(found)
}

fn part_of<'a>(value: &'a Json, spot: &Spot) -> Option<&'a Json>
    ensures { option_copied result ≡ part value.now spot.now }
{
    match spot {
        Spot::Name(name) => member(value, name.as_str()),
        Spot::Index(index) => tree_items::at(elements_of(value), *index as usize),
    }
}

/// The elements of a list; another value has none.
pub fn elements_of(value: &Json) -> &[Json]
    ensures { result.now ≡ elements value.now }
{
    match value {
        Json::List(items) => items.as_slice(),
        _ => &[],
    }
}

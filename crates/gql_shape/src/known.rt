//! Which collections are known of a group, by the name of the object type.

ghost use Rattle.std.specs.Prelude.{◌≡◌};
ghost use Rattle.gql_shape.specs.Indexed as spec;
ghost use Rattle.gql_shape.specs.Indexed.{IsNotedBeside};

use flow_base::{Memory, Text};
use indexmap::IndexMap;
use tree_items::at;

/// The groups of one collection: the place of the first, and the place past the last.
#[derive(Clone, Copy, Drop)]
pub struct Stretch {
    pub first: usize,
    pub past: usize,
}

/// The collection that is known of the group at this place.
pub fn stretch_known(
    known: &[IndexMap<Text, Stretch>],
    group: usize,
    object: &Text,
) -> Option<Stretch>
    ensures { result ≡ spec.stretch_known known.now group object.now }
{
    match at(known, group) {
        Some(stretches) => stretches.get(object).copied(),
        None => None,
    }
}

/// Notes the collection of the group at this place.
pub fn note_known(
    known: &mut Vec<IndexMap<Text, Stretch>>,
    group: usize,
    object: Text,
    stretch: Stretch,
) -> Result<(), Memory>
    ensures { IsNotedBeside known.old.items group object stretch known.new.items }
{
    if group < known.len() {
        known[group].insert(object, stretch)?;
    }
    Ok(())
}

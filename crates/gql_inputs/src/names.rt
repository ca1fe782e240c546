//! Names that are noted, and members that are found by their names.

ghost use Rattle.std.specs.Prelude.{◌≡◌, ◌<◌, not, length, Some, IfOk};
ghost use Rattle.std.specs.Option.{option_copied};
ghost use Rattle.std.specs.Str.{bytes_eq};
ghost use Rattle.indexmap.specs.IndexSet.{contains};
ghost use Rattle.json_value.specs.Members.{named};
ghost use Rattle.gql_inputs.specs.Noted.{Notes, Places, place_from, value_at};

use flow_base::{Memory, Text};
use indexmap::{IndexMap, IndexSet};
use json_value::Json;
use std::alloc::Global;

/// Notes a name, and says whether it is new.
pub fn note(names: &mut IndexSet<Text>, name: &Text) -> Result<bool, Memory>
    ensures is_new { IfOk result (λ new. new ≡ not (contains bytes_eq names.old name.now)) }
    ensures notes { IfOk result (λ _. Notes names.old name.now names.new) }
{
    Ok(names.insert(name.copy()?)?)
}

/// The place of the first member of each name.
pub fn places_of(alloc: Global, members: &[(Text, Json)]) -> Result<IndexMap<Text, usize>, Memory>
    ensures { IfOk result (λ p. Places p members.now) }
{
    let mut places = IndexMap::with_capacity(alloc, members.len())?;
    let mut i = members.len();
    while i > 0 {
        i -= 1;
        places.insert(members[i].0.copy()?, i)?;
    }
    Ok(places)
}

fn value<'a>(members: &'a [(Text, Json)], place: usize) -> &'a Json
    requires { place < length members.now }
    ensures { Some result.now ≡ value_at members.now place }
{
    &members[place].1
}

/// Members, found by their names: of several with one name the first.
#[derive(Drop)]
pub struct Given<'a> {
    pub members: &'a [(Text, Json)],
    places: IndexMap<Text, usize>,
    pub ghost indexed: { Places places members.now },
}

impl<'a> Given<'a> {
    pub fn of(alloc: Global, members: &'a [(Text, Json)]) -> Result<Given<'a>, Memory>
        ensures { IfOk result (λ g. g.members.now ≡ members.now) }
    {
        let places = places_of(alloc, members)?;
        Ok(Given { members, places })
    }

    /// The place of the first member with this name.
    fn find(&self, name: &Text) -> Option<usize>
        ensures { result ≡ place_from 0 name.now self.now.members.now }
    {
        self.places.get(name).copied()
    }

    /// The value of the first member with this name.
    pub fn get(&self, name: &Text) -> Option<&'a Json>
        ensures { option_copied result ≡ named name.now self.now.members.now }
    {
        match self.find(name) {
            Some(place) => Some(value(self.members, place)),
            None => None,
        }
    }
}

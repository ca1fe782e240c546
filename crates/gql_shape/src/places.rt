//! The places of an object's members, by their names.

ghost use Rattle.std.specs.Prelude.{◌≡◌, IfOk};
ghost use Rattle.gql_shape.specs.Completing as spec;
ghost use Rattle.gql_shape.specs.Indexed.{ArePlaces, IsIndexOf};

use crate::rule::place_of;
use flow_base::{Memory, Text};
use indexmap::IndexMap;
use json_value::Json;
use std::alloc::Global;

/// Of so few members, or for so few fields, a name is looked for one by one.
pub const FEW: usize = 32;

/// The place of the first member of each name; None where names are looked for one by one.
#[derive(Drop)]
pub struct Places {
    places: Option<IndexMap<Text, usize>>,
}

fn all_places(alloc: Global, members: &[(Text, Json)]) -> Result<IndexMap<Text, usize>, Memory>
    ensures { IfOk result (λ p. ArePlaces p members.now) }
{
    let mut places = IndexMap::with_capacity(alloc, members.len())?;
    let mut i = members.len();
    while i > 0 {
        i -= 1;
        places.insert(members[i].0.copy()?, i)?;
    }
    Ok(places)
}

impl Places {
    /// The places of these members, in which so many names will be looked for.
    pub fn of(alloc: Global, members: &[(Text, Json)], names: usize) -> Result<Places, Memory>
        ensures { IfOk result (λ p. IsIndexOf p.places members.now) }
    {
        if members.len() <= FEW || names <= FEW {
            return Ok(Places { places: None });
        }
        let places = all_places(alloc, members)?;
        Ok(Places {
            places: Some(places),
        })
    }

    /// The place of the first member with this name, or the number of members.
    pub fn place(&self, members: &[(Text, Json)], name: &Text) -> usize
        requires { IsIndexOf self.now.places members.now }
        ensures { result ≡ spec.place_of name.now members.now }
    {
        match &self.places {
            Some(places) => match places.get(name) {
                Some(place) => *place,
                None => members.len(),
            },
            None => place_of(members, name.as_str()),
        }
    }
}

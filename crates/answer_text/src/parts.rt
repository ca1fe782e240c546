ghost use Rattle.std.specs.Prelude.{◌≡◌, ◌∷◌, [], IfOk};
ghost use Rattle.answer_text.specs.ErrorValues as spec;

use flow_base::{Memory, Text};
use json_paths::{Place, Spot};
use json_value::Json;
use std::alloc::Global;
use tree_items::Items;

/// A string of these characters.
pub fn string(alloc: Global, words: &str) -> Result<Json, Memory>
    ensures { IfOk result (λ v. v ≡ spec.string words.now) }
{
    Ok(Json::Str(Text::of(alloc, words)?))
}

/// A number in decimal.
pub fn number(alloc: Global, n: u64) -> Result<Json, Memory>
    ensures { IfOk result (λ v. v ≡ spec.number n) }
{
    Ok(Json::Number(Text::from_string(format!(in alloc; "{n}")?)?))
}

/// A list of this one member.
pub fn one_member(alloc: Global, name: &str, value: Json) -> Result<Items<(Text, Json)>, Memory>
    ensures { IfOk result (λ ms. ms ≡ (name.now, value) ∷ []) }
{
    let mut members = Items::new(alloc);
    members.push((Text::of(alloc, name)?, value))?;
    Ok(members)
}

/// A list of this one element.
pub fn one_element(alloc: Global, value: Json) -> Result<Json, Memory>
    ensures { IfOk result (λ v. v ≡ spec.list (value ∷ [])) }
{
    let mut items = Items::new(alloc);
    items.push(value)?;
    Ok(Json::List(items))
}

fn spot_value(alloc: Global, spot: Spot) -> Result<Json, Memory>
    ensures { IfOk result (λ v. v ≡ spec.spot_value spot) }
{
    match spot {
        Spot::Name(name) => Ok(Json::Str(name)),
        Spot::Index(index) => number(alloc, index),
    }
}

/// The response path of a place: names and indices, from the whole data down.
fn path_value(alloc: Global, place: Place) -> Result<Json, Memory>
    ensures { IfOk result (λ v. v ≡ spec.path_value place) }
{
    let Place { spots } = place;
    let mut values = Items::new(alloc);
    'listing: for spot in spots.into_vec() {
        values.push(spot_value(alloc, spot)?)?;
    }
    Ok(Json::List(values))
}

/// The member `path`, where there is a place.
pub fn path_members(alloc: Global, place: Option<Place>) -> Result<Items<(Text, Json)>, Memory>
    ensures { IfOk result (λ ms. ms ≡ spec.path_members place) }
{
    match place {
        Some(place) => {
            let path = path_value(alloc, place)?;
            one_member(alloc, "path", path)
        }
        None => Ok(Items::new(alloc)),
    }
}

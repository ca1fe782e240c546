ghost use Rattle.std.specs.Prelude.{◌≡◌, [], ◌∷◌, IfOk};
ghost use Rattle.gql_shape.specs.Completing as spec;

use flow_base::{Memory, Text};
use json_paths::{Place, Spot};
use json_value::Json;
use std::alloc::Global;
use tree_items::Items;

#[derive(Clone, Copy, Debug, PartialEq, Eq)]
pub enum ShapeCode {
    /// The data is null, or lacks the field, where the type is non-null.
    NullInNonNull,
    /// The data is no value of the type.
    WrongKind,
}

/// What is wrong with the data, and where.
#[derive(Debug, Drop)]
pub struct ShapeError {
    pub code: ShapeCode,
    pub place: Place,
}

/// An answer: its value, which is null where a null climbed to the top, and the errors in the order in which they came.
#[derive(Debug, Drop)]
pub struct Shaped {
    pub value: Json,
    pub errors: Items<ShapeError>,
}

/// What a value is completed to: none where it is null in the place of a non-null type.
#[derive(Drop)]
pub struct Completed {
    pub value: Option<Json>,
    pub errors: Items<ShapeError>,
}

/// The member that a field is completed to: none where it leaves no value.
#[derive(Drop)]
pub struct CompletedField {
    pub member: Option<(Text, Json)>,
    pub errors: Items<ShapeError>,
}

/// The elements of a list, or none where one of them leaves no value.
#[derive(Drop)]
pub struct Values {
    pub values: Option<Items<Json>>,
    pub errors: Items<ShapeError>,
}

/// The members of an object, or none where one of them leaves no value.
#[derive(Drop)]
pub struct Members {
    pub members: Option<Items<(Text, Json)>>,
    pub errors: Items<ShapeError>,
}

fn copy_spots(alloc: Global, spots: &[Spot]) -> Result<Items<Spot>, Memory>
    ensures { IfOk result (λ c. c ≡ spots.now) }
{
    let mut copies = Vec::with_capacity(alloc, spots.len())?;
    for spot in spots {
        copies.push(spot.copy()?)?;
    }
    Ok(Items::from_vec(copies))
}

/// The one error with this code at this place.
pub fn one_error(
    alloc: Global,
    code: ShapeCode,
    spots: &[Spot],
) -> Result<Items<ShapeError>, Memory>
    ensures { IfOk result (λ es. es ≡ spec.error code spots.now ∷ []) }
{
    let mut errors = Items::new(alloc);
    let place = Place {
        spots: copy_spots(alloc, spots)?,
    };
    errors.push(ShapeError { code, place })?;
    Ok(errors)
}

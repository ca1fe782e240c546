ghost use Rattle.std.specs.Prelude.{◌≡◌, ◌++◌, ◌∷◌, [], List, Some, false, IfOk, IfErr, OnOk};
ghost use Rattle.std.specs.Option.{option_copied};
ghost use Rattle.json_paths.specs.declared.path.Spot as path;
ghost use Rattle.json_paths.specs.declared.path.Spot.TheVariants as spot;
ghost use Rattle.gql_types.specs.Schemas as schemas;
ghost use Rattle.gql_types.specs.declared.definition.InputField.{InputField};
ghost use Rattle.gql_inputs.specs.Coercing as spec;
ghost use Rattle.gql_inputs.specs.Coercing.{Coerces, CoercesField, CoercesFields, InputIs, ListIs, NamedIs, Makes, StopsThere, RefusesAt, fine};
ghost use Rattle.gql_inputs.specs.Noted.{Places};

use crate::constant::constant;
use crate::fault::Refusal;
use crate::names::places_of;
use flow_base::Text;
use gql_leaves::{fits, is_required};
use gql_terms::TypeRef;
use gql_types::{InputField, Schema};
use indexmap::IndexMap;
use json_paths::{Spot, copy_spots, enter, leave};
use json_value::{Json, copy};
use std::alloc::Global;
use tree_items::Items;

/// The first name that is no field of the input type.
fn unknown_name<'a>(schema: &Schema, input: &Text, members: &'a [(Text, Json)]) -> Option<&'a Text>
    ensures { (fields : List InputField) → schemas.inputs schema.now input.now ≡ Some fields →
        option_copied result ≡ spec.unknown_name fields members.now }
{
    for i in 0..members.len() {
        let name = &members[i].0;
        if !schema.has_input(input, name) {
            return Some(name);
        }
    }
    None
}

/// A refusal at this place, or for want of memory.
fn refusal(alloc: Global, spots: &[Spot]) -> Refusal
    ensures { RefusesAt result (λ q. q ≡ spots.now) }
{
    match copy_spots(alloc, spots) {
        Ok(spots) => Refusal::At(spots),
        Err(_) => Refusal::Memory,
    }
}

fn list_of_one(alloc: Global, value: Json) -> Result<Json, Refusal>
    ensures fine { IfOk result (λ w. fine w ≡ spec.as_one (fine value)) }
    ensures memory { IfErr result (λ e. RefusesAt e (λ _. ⊥)) }
{
    let mut items = Items::new(alloc);
    items.push(value)?;
    Ok(Json::List(items))
}

pub fn is_null(value: &Json) -> bool
    ensures { result ≡ spec.is_null value.now }
{
    matches!(value, Json::Null)
}

/// The value, which stands at the place to which the spots lead, coerced by its type; a refusal has its own place.
#[cycle(coerce)]
pub fn coerce_value(
    alloc: Global,
    schema: &Schema,
    value: &Json,
    of: &TypeRef,
    spots: &mut Vec<Spot>,
) -> Result<Json, Refusal>
    ensures fine { Makes result (Coerces schema.now of.now value.now spots.old.items) }
    ensures refused { StopsThere result (Coerces schema.now of.now value.now spots.old.items) }
    ensures back { OnOk result (spots.new.items ≡ spots.old.items) }
{
    if is_null(value) {
        if is_required(of) {
            return Err(refusal(alloc, spots.as_slice()));
        }
        return Ok(Json::Null);
    }
    coerce_some(alloc, schema, value, of, spots)
}

/// A value that is not null.
#[cycle(coerce)]
fn coerce_some(
    alloc: Global,
    schema: &Schema,
    value: &Json,
    of: &TypeRef,
    spots: &mut Vec<Spot>,
) -> Result<Json, Refusal>
    requires { spec.is_null value.now ≡ false }
    ensures fine { Makes result (Coerces schema.now of.now value.now spots.old.items) }
    ensures refused { StopsThere result (Coerces schema.now of.now value.now spots.old.items) }
    ensures back { OnOk result (spots.new.items ≡ spots.old.items) }
{
    match of {
        TypeRef::NonNull(inner) => coerce_some(alloc, schema, value, inner.get(), spots),
        TypeRef::ListOf(inner) => coerce_list(alloc, schema, value, inner.get(), spots),
        TypeRef::Named(name) => coerce_named(alloc, schema, value, name, spots),
    }
}

/// A list by element; another value becomes a list of one.
#[cycle(coerce)]
fn coerce_list(
    alloc: Global,
    schema: &Schema,
    value: &Json,
    inner: &TypeRef,
    spots: &mut Vec<Spot>,
) -> Result<Json, Refusal>
    requires { spec.is_null value.now ≡ false }
    ensures fine { Makes result (ListIs schema.now inner.now value.now spots.old.items) }
    ensures refused { StopsThere result (ListIs schema.now inner.now value.now spots.old.items) }
    ensures back { OnOk result (spots.new.items ≡ spots.old.items) }
{
    match value {
        Json::List(items) => {
            let made = coerce_items(alloc, schema, items.as_slice(), inner, spots)?;
            Ok(Json::List(made))
        }
        _ => {
            let one = coerce_value(alloc, schema, value, inner, spots)?;
            list_of_one(alloc, one)
        }
    }
}

#[cycle(coerce)]
fn coerce_items(
    alloc: Global,
    schema: &Schema,
    items: &[Json],
    inner: &TypeRef,
    spots: &mut Vec<Spot>,
) -> Result<Items<Json>, Refusal>
    ensures fine { Makes result (spec.Items schema.now inner.now spots.old.items 0 items.now) }
    ensures refused { StopsThere result
        (spec.Items schema.now inner.now spots.old.items 0 items.now) }
    ensures back { OnOk result (spots.new.items ≡ spots.old.items) }
{
    let mut made = Items::new(alloc);
    for i in 0..items.len() {
        let value = coerce_part(
            alloc,
            schema,
            &items[i],
            inner,
            Spot::Index(i as u64),
            spots,
        )?;
        made.push(value)?;
    }
    Ok(made)
}

/// A part of a value, which stands one spot further down.
#[cycle(coerce)]
fn coerce_part(
    alloc: Global,
    schema: &Schema,
    value: &Json,
    of: &TypeRef,
    spot: Spot,
    spots: &mut Vec<Spot>,
) -> Result<Json, Refusal>
    ensures fine { Makes result (Coerces schema.now of.now value.now
        (spots.old.items ++ (spot ∷ []))) }
    ensures refused { StopsThere result (Coerces schema.now of.now value.now
        (spots.old.items ++ (spot ∷ []))) }
    ensures back { OnOk result (spots.new.items ≡ spots.old.items) }
{
    enter(spots, spot)?;
    let made = coerce_value(alloc, schema, value, of, spots)?;
    leave(spots);
    Ok(made)
}

/// A value of the type with this name.
#[cycle(coerce)]
fn coerce_named(
    alloc: Global,
    schema: &Schema,
    value: &Json,
    name: &Text,
    spots: &mut Vec<Spot>,
) -> Result<Json, Refusal>
    requires { spec.is_null value.now ≡ false }
    ensures fine { Makes result (NamedIs schema.now name.now value.now spots.old.items) }
    ensures refused { StopsThere result (NamedIs schema.now name.now value.now spots.old.items) }
    ensures back { OnOk result (spots.new.items ≡ spots.old.items) }
{
    match schema.inputs(name) {
        Some(fields) => match value {
            Json::Object(members) => coerce_input(
                alloc,
                schema,
                members.as_slice(),
                name,
                fields.as_slice(),
                spots,
            ),
            _ => Err(refusal(alloc, spots.as_slice())),
        },
        None => {
            if fits(schema, name, value) {
                Ok(copy(alloc, value)?)
            } else {
                Err(refusal(alloc, spots.as_slice()))
            }
        }
    }
}

/// The members of an object by the fields of the input type with this name.
#[cycle(coerce)]
fn coerce_input(
    alloc: Global,
    schema: &Schema,
    members: &[(Text, Json)],
    name: &Text,
    fields: &[InputField],
    spots: &mut Vec<Spot>,
) -> Result<Json, Refusal>
    requires { schemas.inputs schema.now name.now ≡ Some fields.now }
    ensures fine { Makes result (InputIs schema.now members.now spots.old.items fields.now) }
    ensures refused { StopsThere result
        (InputIs schema.now members.now spots.old.items fields.now) }
    ensures back { OnOk result (spots.new.items ≡ spots.old.items) }
{
    let places = places_of(alloc, members)?;
    let made = coerce_fields(alloc, schema, members, &places, name, fields, spots)?;
    match unknown_name(schema, name, members) {
        Some(other) => {
            enter(spots, Spot::Name(other.copy()?))?;
            Err(refusal(alloc, spots.as_slice()))
        }
        None => Ok(Json::Object(made)),
    }
}

/// Each field in turn, until one is refused.
#[cycle(coerce)]
fn coerce_fields(
    alloc: Global,
    schema: &Schema,
    members: &[(Text, Json)],
    places: &IndexMap<Text, usize>,
    name: &Text,
    fields: &[InputField],
    spots: &mut Vec<Spot>,
) -> Result<Items<(Text, Json)>, Refusal>
    requires places { Places places.now members.now }
    requires fields { schemas.inputs schema.now name.now ≡ Some fields.now }
    ensures fine { Makes result (CoercesFields schema.now members.now spots.old.items fields.now) }
    ensures refused { StopsThere result
        (CoercesFields schema.now members.now spots.old.items fields.now) }
    ensures back { OnOk result (spots.new.items ≡ spots.old.items) }
{
    let mut made: Items<(Text, Json)> = Items::new(alloc);
    for i in 0..fields.len() {
        let field = &fields[i];
        match coerce_field(alloc, schema, members, places, field, spots)? {
            Some(value) => made.push((field.name.copy()?, value))?,
            None => {}
        }
    }
    Ok(made)
}

/// The field's member, or its default, or nothing where it may be left out.
#[cycle(coerce)]
fn coerce_field(
    alloc: Global,
    schema: &Schema,
    members: &[(Text, Json)],
    places: &IndexMap<Text, usize>,
    field: &InputField,
    spots: &mut Vec<Spot>,
) -> Result<Option<Json>, Refusal>
    requires { Places places.now members.now }
    ensures fine { Makes result (CoercesField schema.now members.now spots.old.items field.now) }
    ensures refused { StopsThere result
        (CoercesField schema.now members.now spots.old.items field.now) }
    ensures back { OnOk result (spots.new.items ≡ spots.old.items) }
{
    let at = place_of(places, members, &field.name);
    if at < members.len() {
        let spot = Spot::Name(field.name.copy()?);
        let made = coerce_part(alloc, schema, &members[at].1, &field.of, spot, spots)?;
        return Ok(Some(made));
    }
    match &field.default {
        Some(default) => Ok(Some(constant(alloc, default)?)),
        None => {
            if is_required(&field.of) {
                Err(refusal(alloc, spots.as_slice()))
            } else {
                Ok(None)
            }
        }
    }
}

/// The place of the first member with this name, or the number of members.
fn place_of(places: &IndexMap<Text, usize>, members: &[(Text, Json)], name: &Text) -> usize
    requires { Places places.now members.now }
    ensures { result ≡ spec.place_of name.now members.now }
{
    match places.get(name) {
        Some(place) => *place,
        None => members.len(),
    }
}

ghost use Rattle.std.specs.Prelude.{◌≡◌, ◌<◌, ℕ, List, ◌++◌, ◌∷◌, [], length, IfOk, OnOk};
ghost use Rattle.json_value.specs.Members.{named};
ghost use Rattle.json_paths.specs.declared.path.Spot as path;
ghost use Rattle.json_paths.specs.declared.path.Spot.TheVariants as spot;
ghost use Rattle.gql_leaves.specs.Bares.{is_required};
ghost use Rattle.gql_shape.specs.Completing as spec;
ghost use Rattle.gql_shape.specs.Completing.{Completes, IsLeft, or_null};
ghost use Rattle.gql_shape.specs.Indexed.{selections_at, groups_in, IsIndexOf, IsStretch, AreRuled, Extends};
ghost use Rattle.gql_shape.specs.Kept as kept_rules;
ghost use Rattle.gql_shape.specs.Kept.{base_of, CompletesField};

use crate::base::Base;
use crate::collections::Collections;
use crate::known::Stretch;
use crate::places::{FEW, Places};
use crate::plain::{complete_null, complete_plain, kept, wrong_kind};
use crate::rule::{FieldRule, composite_type};
use crate::shaped::{Completed, CompletedField, Members, ShapeError, Values};
use flow_base::{Memory, Text};
use gql_terms::TypeRef;
use json_paths::Spot;
use json_value::Json;
use std::alloc::Global;
use tree_items::Items;

fn list_or_null(values: Option<Items<Json>>) -> Json
    ensures { result ≡ spec.list_or_null values }
{
    match values {
        Some(values) => Json::List(values),
        None => Json::Null,
    }
}

pub fn object_or_null(members: Option<Items<(Text, Json)>>) -> Json
    ensures { result ≡ spec.object_or_null members }
{
    match members {
        Some(members) => Json::Object(members),
        None => Json::Null,
    }
}

fn member_of(key: Text, value: Option<Json>) -> Option<(Text, Json)>
    ensures { result ≡ kept_rules.member_of key value }
{
    match value {
        Some(value) => Some((key, value)),
        None => None,
    }
}

/// Takes the last spot off.
fn leave(spots: &mut Vec<Spot>)
    ensures { (p : List path.Spot) → (s : path.Spot) → spots.old.items ≡ p ++ (s ∷ []) →
        spots.new.items ≡ p }
{
    let _ = spots.pop();
}

/// Takes the last spot off, and hands out its name.
fn leave_name(spots: &mut Vec<Spot>) -> Text
    requires { (p : List path.Spot) × (name : List ℕ)
        × (spots.old.items ≡ p ++ (spot.Name name ∷ [])) }
    ensures { (p : List path.Spot) → (name : List ℕ) →
        spots.old.items ≡ p ++ (spot.Name name ∷ []) → (result ≡ name) × (spots.new.items ≡ p) }
{
    match spots.pop() {
        Some(Spot::Name(name)) => name,
        _ => unreachable!(),
    }
}

/// What a value is completed to, by its type, whose name stands for this, and with the selections of a group, at the place to
/// which the spots lead.
#[cycle(complete)]
pub fn complete<'a>(
    alloc: Global,
    collected: &mut Collections<'a>,
    value: &Json,
    of: &TypeRef,
    base: Base,
    at: usize,
    spots: &mut Vec<Spot>,
) -> Result<Completed, Memory>
    requires there { at < length collected.old.groups }
    requires based { base ≡ base_of collected.old.scope.schema of.now }
    ensures completed { IfOk result (λ c. Completes collected.old.scope of.now
        (selections_at collected.old.groups at) value.now spots.old.items c.value c.errors) }
    ensures back { OnOk result (spots.new.items ≡ spots.old.items) }
    ensures extends { OnOk result (Extends collected.old collected.new) }
{
    match value {
        Json::Null => complete_null(alloc, of, spots.as_slice()),
        Json::List(items) => match collected.element_type(of, base) {
            Some(inner) => {
                complete_list(
                    alloc,
                    collected,
                    items.as_slice(),
                    of,
                    inner,
                    base,
                    at,
                    spots,
                )
            }
            None => complete_plain(alloc, collected.scope(), of, base, value, spots.as_slice()),
        },
        Json::Object(members) => match composite_type(of, base) {
            Some(name) => complete_object(
                alloc,
                collected,
                members.as_slice(),
                of,
                name,
                at,
                spots,
            ),
            None => complete_plain(alloc, collected.scope(), of, base, value, spots.as_slice()),
        },
        Json::Bool(_) => complete_plain(
            alloc,
            collected.scope(),
            of,
            base,
            value,
            spots.as_slice(),
        ),
        Json::Number(_) => complete_plain(
            alloc,
            collected.scope(),
            of,
            base,
            value,
            spots.as_slice(),
        ),
        Json::Str(_) => complete_plain(alloc, collected.scope(), of, base, value, spots.as_slice()),
    }
}

#[cycle(complete)]
fn complete_list<'a>(
    alloc: Global,
    collected: &mut Collections<'a>,
    items: &[Json],
    of: &TypeRef,
    inner: &TypeRef,
    base: Base,
    at: usize,
    spots: &mut Vec<Spot>,
) -> Result<Completed, Memory>
    requires there { at < length collected.old.groups }
    requires based { base ≡ base_of collected.old.scope.schema inner.now }
    ensures settled { IfOk result (λ c. IsLeft collected.old.scope
        (spec.elements inner.now items.now) (is_required of.now)
        (selections_at collected.old.groups at) spots.old.items c.value c.errors) }
    ensures back { OnOk result (spots.new.items ≡ spots.old.items) }
    ensures extends { OnOk result (Extends collected.old collected.new) }
{
    let Values { values, errors } = complete_items(
        alloc, collected, items, inner, base, at, spots,
    )?;
    let value = kept(of, list_or_null(values));
    Ok(Completed { value, errors })
}

/// Each element in turn, until one leaves no value.
#[cycle(complete)]
fn complete_items<'a>(
    alloc: Global,
    collected: &mut Collections<'a>,
    items: &[Json],
    inner: &TypeRef,
    base: Base,
    at: usize,
    spots: &mut Vec<Spot>,
) -> Result<Values, Memory>
    requires there { at < length collected.old.groups }
    requires based { base ≡ base_of collected.old.scope.schema inner.now }
    ensures elements { IfOk result (λ c. spec.Elements collected.old.scope inner.now
        (selections_at collected.old.groups at) spots.old.items 0 items.now c.values c.errors) }
    ensures back { OnOk result (spots.new.items ≡ spots.old.items) }
    ensures extends { OnOk result (Extends collected.old collected.new) }
{
    let mut values = Items::from_vec(Vec::with_capacity(alloc, items.len())?);
    let mut errors: Items<ShapeError> = Items::new(alloc);
    for i in 0..items.len() {
        let Completed {
            value,
            errors: more,
        } = complete_item(
            alloc, collected, &items[i], i as u64, inner, base, at, spots,
        )?;
        errors.append(more)?;
        match value {
            Some(value) => values.push(value)?,
            None => {
                return Ok(Values {
                    values: None,
                    errors,
                });
            }
        }
    }
    Ok(Values {
        values: Some(values),
        errors,
    })
}

/// The element of a list at this index.
#[cycle(complete)]
fn complete_item<'a>(
    alloc: Global,
    collected: &mut Collections<'a>,
    item: &Json,
    index: u64,
    inner: &TypeRef,
    base: Base,
    at: usize,
    spots: &mut Vec<Spot>,
) -> Result<Completed, Memory>
    requires there { at < length collected.old.groups }
    requires based { base ≡ base_of collected.old.scope.schema inner.now }
    ensures completed { IfOk result (λ c. Completes collected.old.scope inner.now
        (selections_at collected.old.groups at) item.now
        (spots.old.items ++ (spot.Index index ∷ [])) c.value c.errors) }
    ensures back { OnOk result (spots.new.items ≡ spots.old.items) }
    ensures extends { OnOk result (Extends collected.old collected.new) }
{
    spots.push(Spot::Index(index))?;
    let completed = complete(alloc, collected, item, inner, base, at, spots)?;
    leave(spots);
    Ok(completed)
}

/// The members of an object as a value of this object type, interface or union.
#[cycle(complete)]
fn complete_object<'a>(
    alloc: Global,
    collected: &mut Collections<'a>,
    members: &[(Text, Json)],
    of: &TypeRef,
    name: &Text,
    at: usize,
    spots: &mut Vec<Spot>,
) -> Result<Completed, Memory>
    requires { at < length collected.old.groups }
    ensures settled { IfOk result (λ c. IsLeft collected.old.scope
        (spec.fields_rule members.now (spec.object_type collected.old.scope.schema name.now
        members.now)) (is_required of.now) (selections_at collected.old.groups at) spots.old.items
        c.value c.errors) }
    ensures back { OnOk result (spots.new.items ≡ spots.old.items) }
    ensures extends { OnOk result (Extends collected.old collected.new) }
{
    match collected.scope().object_type(name, members) {
        Some(object) => complete_members(alloc, collected, members, of, object, at, spots),
        None => wrong_kind(alloc, of, spots.as_slice()),
    }
}

#[cycle(complete)]
fn complete_members<'a>(
    alloc: Global,
    collected: &mut Collections<'a>,
    members: &[(Text, Json)],
    of: &TypeRef,
    object: &Text,
    at: usize,
    spots: &mut Vec<Spot>,
) -> Result<Completed, Memory>
    requires { at < length collected.old.groups }
    ensures settled { IfOk result (λ c. IsLeft collected.old.scope
        (spec.fields object.now members.now) (is_required of.now)
        (selections_at collected.old.groups at) spots.old.items c.value c.errors) }
    ensures back { OnOk result (spots.new.items ≡ spots.old.items) }
    ensures extends { OnOk result (Extends collected.old collected.new) }
{
    let selected = collected.enter(alloc, at, object)?;
    let Members {
        members: made,
        errors,
    } = complete_fields(alloc, collected, members, object, selected, spots)?;
    let value = kept(of, object_or_null(made));
    Ok(Completed { value, errors })
}

/// Each field in turn, until one leaves no value. A field that the type lacks is left out.
#[cycle(complete)]
pub fn complete_fields<'a>(
    alloc: Global,
    collected: &mut Collections<'a>,
    members: &[(Text, Json)],
    object: &Text,
    stretch: Stretch,
    spots: &mut Vec<Spot>,
) -> Result<Members, Memory>
    requires within { IsStretch stretch collected.old.groups }
    requires ruled { AreRuled collected.old.scope object.now stretch collected.old.groups
        collected.old.rules }
    ensures fields { IfOk result (λ c. spec.CompletesFields collected.old.scope object.now
        members.now spots.old.items (groups_in stretch collected.old.groups) c.members c.errors) }
    ensures back { OnOk result (spots.new.items ≡ spots.old.items) }
    ensures extends { OnOk result (Extends collected.old collected.new) }
{
    let names = stretch.past.saturating_sub(stretch.first);
    let places = Places::of(alloc, members, names)?;
    let mut made: Items<(Text, Json)> = Items::from_vec(Vec::with_capacity(alloc, names.min(FEW))?);
    let mut errors: Items<ShapeError> = Items::new(alloc);
    for at in stretch.first..stretch.past {
        let key = collected.group(at).key();
        match collected.rule(at) {
            FieldRule::TypeName => made.push((key.copy()?, Json::Str(object.copy()?)))?,
            FieldRule::Unknown => {}
            FieldRule::Typed(of, base) => {
                let CompletedField {
                    member,
                    errors: more,
                } = complete_field(alloc, collected, members, &places, of, base, key, at, spots)?;
                errors.append(more)?;
                match member {
                    Some(member) => made.push(member)?,
                    None => {
                        return Ok(Members {
                            members: None,
                            errors,
                        });
                    }
                }
            }
        }
    }
    Ok(Members {
        members: Some(made),
        errors,
    })
}

/// The member of the answer for the member with the key of the group, or for null where there is none, by the type of the
/// field.
#[cycle(complete)]
fn complete_field<'a>(
    alloc: Global,
    collected: &mut Collections<'a>,
    members: &[(Text, Json)],
    places: &Places,
    of: &TypeRef,
    base: Base,
    key: &Text,
    at: usize,
    spots: &mut Vec<Spot>,
) -> Result<CompletedField, Memory>
    requires there { at < length collected.old.groups }
    requires based { base ≡ base_of collected.old.scope.schema of.now }
    requires indexed { IsIndexOf places.now.places members.now }
    ensures completed { IfOk result (λ c. CompletesField collected.old.scope of.now
        (selections_at collected.old.groups at) key.now members.now spots.old.items c.member
        c.errors) }
    ensures back { OnOk result (spots.new.items ≡ spots.old.items) }
    ensures extends { OnOk result (Extends collected.old collected.new) }
{
    spots.push(Spot::Name(key.copy()?))?;
    let Completed { value, errors } = complete_member(
        alloc, collected, members, places, of, base, key, at, spots,
    )?;
    let member = member_of(leave_name(spots), value);
    Ok(CompletedField { member, errors })
}

#[cycle(complete)]
fn complete_member<'a>(
    alloc: Global,
    collected: &mut Collections<'a>,
    members: &[(Text, Json)],
    places: &Places,
    of: &TypeRef,
    base: Base,
    key: &Text,
    at: usize,
    spots: &mut Vec<Spot>,
) -> Result<Completed, Memory>
    requires there { at < length collected.old.groups }
    requires based { base ≡ base_of collected.old.scope.schema of.now }
    requires indexed { IsIndexOf places.now.places members.now }
    ensures completed { IfOk result (λ c. Completes collected.old.scope of.now
        (selections_at collected.old.groups at) (or_null (named key.now members.now))
        spots.old.items c.value c.errors) }
    ensures back { OnOk result (spots.new.items ≡ spots.old.items) }
    ensures extends { OnOk result (Extends collected.old collected.new) }
{
    let place = places.place(members, key);
    if place < members.len() {
        return complete(alloc, collected, &members[place].1, of, base, at, spots);
    }
    complete_null(alloc, of, spots.as_slice())
}

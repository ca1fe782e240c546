//! What an entity fetch requires.

ghost use Rattle.std.specs.Prelude.{◌≡◌, ◌∷◌, [], IfOk, map, codes};
ghost use Rattle.std.specs.List.{list_any};
ghost use Rattle.std.specs.Str.{bytes_eq};
ghost use Rattle.json_value.specs.Members as by_name;
ghost use Rattle.plan_tree.specs.Lawful as plan;
ghost use Rattle.plan_book.specs.Forms as spec;

use crate::forms::text_member;
use flow_base::Memory;
use json_paths::{Need, Requires};
use json_value::{Json, member};
use std::alloc::Global;
use tree_items::Items;

fn has_need(needs: &[Need], name: &str) -> bool
    ensures { result ≡ list_any (bytes_eq name.now) (map spec.need_name needs.now) }
{
    for i in 0..needs.len() {
        if name == needs[i].name.as_str() {
            return true;
        }
    }
    false
}

/// Whether no two have one name. Takes time in the square of their number.
fn differ(needs: &[Need]) -> bool
    ensures { result ≡ plan.differ (map spec.need_name needs.now) }
{
    for i in 0..needs.len() {
        if has_need(&needs[i + 1..], needs[i].name.as_str()) {
            return false;
        }
    }
    true
}

fn are_needs(needs: &[Need]) -> bool
    ensures { result ≡ spec.are_needs needs.now }
{
    !needs.is_empty() && differ(needs) && !has_need(needs, "__typename")
}

/// A field that is required.
#[cycle(need)]
fn need(alloc: Global, value: &Json) -> Result<Option<Need>, Memory>
    ensures { IfOk result (λ o. o ≡ (spec.needing value.now).need) }
{
    let Some(name) = text_member(value, "name") else {
        return Ok(None);
    };
    match fields(alloc, value)? {
        Some(fields) => Ok(Some(Need {
            name: name.copy()?,
            fields,
        })),
        None => Ok(None),
    }
}

/// What is required of a field: nothing more where the member `fields` is absent.
#[cycle(need)]
fn fields(alloc: Global, value: &Json) -> Result<Option<Items<Need>>, Memory>
    ensures { IfOk result (λ o. o ≡ spec.fields_in (by_name.member value.now (codes "fields"))) }
{
    match member(value, "fields") {
        Some(part) => needs(alloc, part),
        None => Ok(Some(Items::new(alloc))),
    }
}

/// A list of fields that are required.
#[cycle(need)]
fn needs(alloc: Global, value: &Json) -> Result<Option<Items<Need>>, Memory>
    ensures { IfOk result (λ o. o ≡ (spec.needing value.now).needs) }
{
    match value {
        Json::List(items) => match each_need(alloc, items.as_slice())? {
            Some(made) => {
                if are_needs(made.as_slice()) {
                    Ok(Some(made))
                } else {
                    Ok(None)
                }
            }
            None => Ok(None),
        },
        _ => Ok(None),
    }
}

#[cycle(need)]
fn each_need(alloc: Global, values: &[Json]) -> Result<Option<Items<Need>>, Memory>
    ensures { IfOk result (λ o. o ≡ spec.all_of (map spec.need_of values.now)) }
{
    let mut made = Items::new(alloc);
    for value in values {
        let Some(one) = need(alloc, value)? else {
            return Ok(None);
        };
        made.push(one)?;
    }
    Ok(Some(made))
}

fn some_requires(alloc: Global, value: &Json) -> Result<Option<Requires>, Memory>
    ensures { IfOk result (λ o. o ≡ spec.requires_of value.now) }
{
    let Some(name) = text_member(value, "type") else {
        return Ok(None);
    };
    let Some(part) = member(value, "fields") else {
        return Ok(None);
    };
    match needs(alloc, part)? {
        Some(fields) => Ok(Some(Requires {
            type_name: name.copy()?,
            fields,
        })),
        None => Ok(None),
    }
}

/// What a fetch requires, from its member `requires`: nothing where it is absent, and None where it has another form.
/// Recurses once for each level of fields.
pub fn requires_member(alloc: Global, value: &Json) -> Result<Option<Option<Requires>>, Memory>
    ensures { IfOk result
        (λ o. o ≡ spec.requires_in (by_name.member value.now (codes "requires"))) }
{
    match member(value, "requires") {
        None => Ok(Some(None)),
        Some(part) => match some_requires(alloc, part)? {
            Some(needs) => Ok(Some(Some(needs))),
            None => Ok(None),
        },
    }
}

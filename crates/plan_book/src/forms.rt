//! The members of a plan file, apart from documents and nodes.

ghost use Rattle.std.specs.Prelude.{◌≡◌, ◌∷◌, [], IfOk, map, codes};
ghost use Rattle.std.specs.List.{list_any, list_all};
ghost use Rattle.std.specs.Str.{bytes_eq};
ghost use Rattle.std.specs.Option.{option_copied};
ghost use Rattle.json_value.specs.Members as by_name;
ghost use Rattle.plan_tree.specs.Lawful as plan;
ghost use Rattle.plan_book.specs.Forms as spec;

use crate::kinds::Kind;
use flow_base::{Memory, Text};
use json_paths::{Path, Step};
use json_value::{Json, member};
use std::alloc::Global;
use tree_items::Items;

fn text_of(value: &Json) -> Option<&Text>
    ensures { option_copied result ≡ spec.text_of value.now }
{
    match value {
        Json::Str(text) => Some(text),
        _ => None,
    }
}

/// The characters of the member with this name, where it is a string.
pub fn text_member<'a>(value: &'a Json, name: &str) -> Option<&'a Text>
    ensures { option_copied result ≡ spec.text_in (by_name.member value.now name.now) }
{
    match member(value, name) {
        Some(part) => text_of(part),
        None => None,
    }
}

fn is_object(value: &Json) -> bool
    ensures { result ≡ spec.is_object value.now }
{
    match value {
        Json::Object(_) => true,
        _ => false,
    }
}

/// The member with this name, where it is an object.
pub fn object_member<'a>(value: &'a Json, name: &str) -> Option<&'a Json>
    ensures { option_copied result ≡ spec.object_in (by_name.member value.now name.now) }
{
    let part = member(value, name)?;
    if is_object(part) { Some(part) } else { None }
}

fn are_objects(values: &[Json]) -> bool
    ensures { result ≡ list_all spec.is_object values.now }
{
    values.iter().all(|v| is_object(v))
}

/// The nodes in a Sequence or Parallel, where they are objects, at least one.
pub fn children(value: &Json) -> Option<&Items<Json>>
    ensures { option_copied result ≡ spec.children_in (by_name.member value.now (codes "nodes")) }
{
    let Some(Json::List(items)) = member(value, "nodes") else {
        return None;
    };
    if !items.is_empty() && are_objects(items.as_slice()) {
        Some(items)
    } else {
        None
    }
}

fn kind_named(name: &str) -> Option<Kind>
    ensures { result ≡ spec.kind_named name.now }
{
    if name == "Fetch" {
        Some(Kind::Fetch)
    } else if name == "Flatten" {
        Some(Kind::Flatten)
    } else if name == "Sequence" {
        Some(Kind::Sequence)
    } else if name == "Parallel" {
        Some(Kind::Parallel)
    } else {
        None
    }
}

/// What a node is by its `kind`.
pub fn kind(value: &Json) -> Option<Kind>
    ensures { result ≡ spec.kind_of value.now }
{
    match text_member(value, "kind") {
        Some(name) => kind_named(name.as_str()),
        None => None,
    }
}

/// The characters of each value, where all are strings.
fn texts(alloc: Global, values: &[Json]) -> Result<Option<Items<Text>>, Memory>
    ensures { IfOk result (λ o. o ≡ spec.all_of (map spec.text_of values.now)) }
{
    let mut made = Items::new(alloc);
    for value in values {
        let Some(text) = text_of(value) else {
            return Ok(None);
        };
        made.push(text.copy()?)?;
    }
    Ok(Some(made))
}

fn has_text(names: &[Text], name: &str) -> bool
    ensures { result ≡ list_any (bytes_eq name.now) names.now }
{
    names.iter().any(|n| name == n.as_str())
}

/// Whether no two are equal. Takes time in the square of their number.
fn differ(names: &[Text]) -> bool
    ensures { result ≡ plan.differ names.now }
{
    for i in 0..names.len() {
        if has_text(&names[i + 1..], names[i].as_str()) {
            return false;
        }
    }
    true
}

fn are_variables(names: &[Text]) -> bool
    ensures { result ≡ spec.are_variables names.now }
{
    differ(names) && !has_text(names, "representations")
}

/// The names of a fetch's variables, from its member `variables`; None where it has another form.
pub fn variables(alloc: Global, value: &Json) -> Result<Option<Items<Text>>, Memory>
    ensures { IfOk result
        (λ o. o ≡ spec.variables_in (by_name.member value.now (codes "variables"))) }
{
    match member(value, "variables") {
        None => Ok(Some(Items::new(alloc))),
        Some(Json::List(items)) => match texts(alloc, items.as_slice())? {
            Some(names) => {
                if are_variables(names.as_slice()) {
                    Ok(Some(names))
                } else {
                    Ok(None)
                }
            }
            None => Ok(None),
        },
        Some(_) => Ok(None),
    }
}

fn step_of(value: &Json) -> Result<Option<Step>, Memory>
    ensures { IfOk result (λ o. o ≡ spec.step_of value.now) }
{
    match text_of(value) {
        Some(name) => {
            if name.as_str() == "@" {
                Ok(Some(Step::Each))
            } else {
                Ok(Some(Step::Name(name.copy()?)))
            }
        }
        None => Ok(None),
    }
}

fn steps(alloc: Global, values: &[Json]) -> Result<Option<Items<Step>>, Memory>
    ensures { IfOk result (λ o. o ≡ spec.all_of (map spec.step_of values.now)) }
{
    let mut made = Items::new(alloc);
    for value in values {
        let Some(step) = step_of(value)? else {
            return Ok(None);
        };
        made.push(step)?;
    }
    Ok(Some(made))
}

/// The path of a Flatten, from its member `path`; None where it has another form.
pub fn path(alloc: Global, value: &Json) -> Result<Option<Path>, Memory>
    ensures { IfOk result (λ o. o ≡ spec.path_in (by_name.member value.now (codes "path"))) }
{
    let Some(Json::List(items)) = member(value, "path") else {
        return Ok(None);
    };
    match steps(alloc, items.as_slice())? {
        Some(steps) => {
            if steps.is_empty() {
                Ok(None)
            } else {
                Ok(Some(Path { steps }))
            }
        }
        None => Ok(None),
    }
}

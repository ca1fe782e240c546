//! What has to hold of the definitions of a text.

ghost use Rattle.std.specs.Prelude.{◌≡◌, ◌++◌, ◌∷◌, [], not, if◌then◌else◌, map, flat_map, IfOk, Some, None};
ghost use Rattle.std.specs.Option.{option_copied};
ghost use Rattle.gql_schema.specs.Rules as spec;

use crate::terms::{Body, Definition, Field, Part};
use flow_base::{Memory, Text};
use gql_terms::TypeRef;
use gql_types::InputField;
use indexmap::IndexSet;
use std::alloc::Global;

/// Notes the name, and says whether it is new.
fn note(names: &mut IndexSet<Text>, name: &Text) -> Result<bool, Memory>
    ensures is_new { IfOk result (λ r. r ≡ not (spec.has_name names.old.keys name.now)) }
    ensures names { IfOk result (λ r. names.new.keys ≡ spec.with_name names.old.keys name.now r) }
{
    let is_new = names.insert(name.copy()?)?;
    Ok(is_new)
}

fn add_name(alloc: Global, names: &mut IndexSet<Text>, name: &str) -> Result<(), Memory>
    ensures { IfOk result (λ r. names.new.keys ≡ spec.added names.old.keys name.now) }
{
    names.insert(Text::of(alloc, name)?)?;
    Ok(())
}

fn built_in(alloc: Global) -> Result<IndexSet<Text>, Memory>
    ensures { IfOk result (λ names. names.keys ≡ spec.built_in) }
{
    let mut names = IndexSet::new(alloc);
    add_name(alloc, &mut names, "Int")?;
    add_name(alloc, &mut names, "Float")?;
    add_name(alloc, &mut names, "String")?;
    add_name(alloc, &mut names, "Boolean")?;
    add_name(alloc, &mut names, "ID")?;
    Ok(names)
}

/// The first of the names that comes again.
fn again_in_names(alloc: Global, names: &[Text]) -> Result<Option<Text>, Memory>
    ensures { IfOk result (λ r. r ≡ spec.first_again [] names.now) }
{
    let mut seen = IndexSet::new(alloc);
    for i in 0..names.len() {
        if !note(&mut seen, &names[i])? {
            return Ok(Some(names[i].copy()?));
        }
    }
    Ok(None)
}

fn again_in_fields(alloc: Global, fields: &[Field]) -> Result<Option<Text>, Memory>
    ensures { IfOk result (λ r. r ≡ spec.first_again [] (map spec.field_name fields.now)) }
{
    let mut seen = IndexSet::new(alloc);
    for i in 0..fields.len() {
        if !note(&mut seen, &fields[i].name)? {
            return Ok(Some(fields[i].name.copy()?));
        }
    }
    Ok(None)
}

fn again_in_inputs(alloc: Global, fields: &[InputField]) -> Result<Option<Text>, Memory>
    ensures { IfOk result (λ r. r ≡ spec.first_again [] (map spec.input_name fields.now)) }
{
    let mut seen = IndexSet::new(alloc);
    for i in 0..fields.len() {
        if !note(&mut seen, &fields[i].name)? {
            return Ok(Some(fields[i].name.copy()?));
        }
    }
    Ok(None)
}

/// The first name that is defined again within a type.
fn again_within(alloc: Global, body: &Body) -> Result<Option<Text>, Memory>
    ensures { IfOk result (λ r. r ≡ spec.first_again [] (spec.members body.now)) }
{
    match body {
        Body::Scalar => Ok(None),
        Body::Object { fields, .. } => again_in_fields(alloc, fields.as_slice()),
        Body::Interface { fields, .. } => again_in_fields(alloc, fields.as_slice()),
        Body::Union(_) => Ok(None),
        Body::Enum(values) => again_in_names(alloc, values.as_slice()),
        Body::Input(fields) => again_in_inputs(alloc, fields.as_slice()),
    }
}

/// The first name that is defined again with this definition. Where there is none, its name is noted.
fn again_at(
    alloc: Global,
    names: &mut IndexSet<Text>,
    definition: &Definition,
) -> Result<Option<Text>, Memory>
    ensures twice { IfOk result (λ r. r ≡ spec.twice_at names.old.keys definition.now) }
    ensures names { IfOk result
        (λ r. r ≡ None → names.new.keys ≡ names.old.keys ++ definition.now.name ∷ []) }
{
    if !note(names, &definition.name)? {
        return Ok(Some(definition.name.copy()?));
    }
    let again = again_within(alloc, &definition.body)?;
    Ok(again)
}

fn again_in(alloc: Global, names: &mut IndexSet<Text>, part: &Part) -> Result<Option<Text>, Memory>
    ensures twice { IfOk result
        (λ r. r ≡ spec.twice_from names.old.keys (spec.own_definition part.now)) }
    ensures names { IfOk result (λ r. r ≡ None
        → names.new.keys ≡ names.old.keys ++ spec.names_of (spec.own_definition part.now)) }
{
    match part {
        Part::Type(definition) => again_at(alloc, names, definition),
        _ => Ok(None),
    }
}

/// The first name that is defined again. Where there is none, the names of all types are noted.
fn first_twice(
    alloc: Global,
    names: &mut IndexSet<Text>,
    parts: &[Part],
) -> Result<Option<Text>, Memory>
    ensures twice { IfOk result
        (λ r. r ≡ spec.twice_from names.old.keys (spec.definitions parts.now)) }
    ensures names { IfOk result (λ r. r ≡ None
        → names.new.keys ≡ names.old.keys ++ spec.names_of (spec.definitions parts.now)) }
{
    for i in 0..parts.len() {
        if let Some(name) = again_in(alloc, names, &parts[i])? {
            return Ok(Some(name));
        }
    }
    Ok(None)
}

/// The name of a type's innermost type. Recurses once for each list and each non-null mark.
fn innermost(of: &TypeRef) -> &Text
    ensures { result.now ≡ spec.innermost of.now }
{
    match of {
        TypeRef::Named(name) => name,
        TypeRef::ListOf(inner) => innermost(inner.get()),
        TypeRef::NonNull(inner) => innermost(inner.get()),
    }
}

fn is_known(known: &IndexSet<Text>, name: &Text) -> bool
    ensures { result ≡ spec.has_name known.now.keys name.now }
{
    known.contains(name)
}

fn unknown_name<'a>(known: &IndexSet<Text>, names: &'a [Text]) -> Option<&'a Text>
    ensures { option_copied result ≡ spec.first_not_in known.now.keys names.now }
{
    for i in 0..names.len() {
        if !is_known(known, &names[i]) {
            return Some(&names[i]);
        }
    }
    None
}

fn unknown_input<'a>(known: &IndexSet<Text>, fields: &'a [InputField]) -> Option<&'a Text>
    ensures { option_copied result
        ≡ spec.first_not_in known.now.keys (map spec.input_type fields.now) }
{
    for i in 0..fields.len() {
        let name = innermost(&fields[i].of);
        if !is_known(known, name) {
            return Some(name);
        }
    }
    None
}

fn unknown_at<'a>(known: &IndexSet<Text>, field: &'a Field) -> Option<&'a Text>
    ensures { option_copied result ≡ spec.first_not_in known.now.keys (spec.field_types field.now) }
{
    if let Some(name) = unknown_input(known, field.arguments.as_slice()) {
        return Some(name);
    }
    let name = innermost(&field.of);
    if is_known(known, name) {
        return None;
    }
    Some(name)
}

fn unknown_field<'a>(known: &IndexSet<Text>, fields: &'a [Field]) -> Option<&'a Text>
    ensures { option_copied result
        ≡ spec.first_not_in known.now.keys (flat_map spec.field_types fields.now) }
{
    for i in 0..fields.len() {
        if let Some(name) = unknown_at(known, &fields[i]) {
            return Some(name);
        }
    }
    None
}

fn unknown_fielded<'a>(
    known: &IndexSet<Text>,
    interfaces: &'a [Text],
    fields: &'a [Field],
) -> Option<&'a Text>
    ensures { option_copied result ≡ spec.first_not_in known.now.keys
        (interfaces.now ++ flat_map spec.field_types fields.now) }
{
    if let Some(name) = unknown_name(known, interfaces) {
        return Some(name);
    }
    unknown_field(known, fields)
}

fn unknown_within<'a>(known: &IndexSet<Text>, body: &'a Body) -> Option<&'a Text>
    ensures { option_copied result ≡ spec.first_not_in known.now.keys (spec.body_types body.now) }
{
    match body {
        Body::Scalar => None,
        Body::Object { interfaces, fields } => {
            unknown_fielded(known, interfaces.as_slice(), fields.as_slice())
        }
        Body::Interface { interfaces, fields } => {
            unknown_fielded(known, interfaces.as_slice(), fields.as_slice())
        }
        Body::Union(names) => unknown_name(known, names.as_slice()),
        Body::Enum(_) => None,
        Body::Input(fields) => unknown_input(known, fields.as_slice()),
    }
}

fn unknown_part<'a>(known: &IndexSet<Text>, part: &'a Part) -> Option<&'a Text>
    ensures { option_copied result ≡ spec.first_not_in known.now.keys (spec.part_types part.now) }
{
    match part {
        Part::Type(definition) => unknown_within(known, &definition.body),
        _ => None,
    }
}

/// The first name that stands for a type and is not known.
fn unknown_in<'a>(known: &IndexSet<Text>, parts: &'a [Part]) -> Option<&'a Text>
    ensures { option_copied result ≡ spec.first_not_in known.now.keys (spec.types_in parts.now) }
{
    for i in 0..parts.len() {
        if let Some(name) = unknown_part(known, &parts[i]) {
            return Some(name);
        }
    }
    None
}

/// The first name that stands for a type and is not known, or `Query`, where there is no such type.
fn first_unknown(
    alloc: Global,
    known: &IndexSet<Text>,
    parts: &[Part],
) -> Result<Option<Text>, Memory>
    ensures { IfOk result (λ r. r ≡ spec.first_not_in known.now.keys (spec.needed parts.now)) }
{
    if let Some(name) = unknown_in(known, parts) {
        return Ok(Some(name.copy()?));
    }
    let query = Text::of(alloc, "Query")?;
    if is_known(known, &query) {
        return Ok(None);
    }
    Ok(Some(query))
}

/// What the rules say of the definitions of a text.
pub enum Ruling {
    Kept,
    Twice(Text),
    Unknown(Text),
}

/// Whether each name is defined once, and each name of a type is known; or the first that is not.
pub fn rule(alloc: Global, parts: &[Part]) -> Result<Ruling, Memory>
    ensures { IfOk result (λ r. spec.HasRuling parts.now r) }
{
    let mut names = built_in(alloc)?;
    if let Some(name) = first_twice(alloc, &mut names, parts)? {
        return Ok(Ruling::Twice(name));
    }
    match first_unknown(alloc, &names, parts)? {
        Some(name) => Ok(Ruling::Unknown(name)),
        None => Ok(Ruling::Kept),
    }
}

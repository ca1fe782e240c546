//! Fields, arguments and values of enums.

ghost use Rattle.std.specs.Prelude.{◌≡◌};
ghost use Rattle.token_read.specs.Parse as parse;
ghost use Rattle.gql_schema.specs.Reading as spec;
ghost use Rattle.gql_schema.specs.Reads.{Reads, prefixed};

use crate::terms::Field;
use crate::tokens::{Left, Test};
use flow_base::Text;
use gql_parser::Stop;
use gql_terms::Value;
use gql_tokens::Kind;
use gql_types::InputField;
use std::alloc::Global;
use tree_items::Items;

/// A description, where there is one (section 3.3).
#[tactic(auto, unfolding(crate::specs::Reading::description))]
pub fn description(left: &mut Left<'_, '_>) -> Result<(), Stop>
    ensures { Reads (spec.description left.old) result left.new }
{
    if !left.sees(Test::Description) {
        return Ok(());
    }
    left.one(Test::Description)?;
    Ok(())
}

#[tactic(auto, unfolding(crate::specs::Reading::default))]
fn default(alloc: Global, left: &mut Left<'_, '_>) -> Result<Option<Value>, Stop>
    ensures { Reads (spec.default left.old) result left.new }
{
    if !left.sees(Test::Is(Kind::Equals)) {
        return Ok(None);
    }
    left.one(Test::Is(Kind::Equals))?;
    Ok(Some(left.value(alloc)?))
}

#[tactic(auto, unfolding(crate::specs::Reading::input))]
fn input(alloc: Global, left: &mut Left<'_, '_>) -> Result<InputField, Stop>
    ensures { Reads (spec.input left.old) result left.new }
{
    description(left)?;
    let name = left.text(alloc, Test::Name)?;
    left.one(Test::Is(Kind::Colon))?;
    let of = left.type_ref(alloc)?;
    let default = default(alloc, left)?;
    left.directives(alloc)?;
    Ok(InputField { name, of, default })
}

fn more_inputs(
    alloc: Global,
    left: &mut Left<'_, '_>,
    found: Items<InputField>,
) -> Result<Items<InputField>, Stop>
    ensures { Reads (prefixed found (parse.many spec.begins_item spec.input left.old)) result
        left.new }
{
    let mut found = found;
    for _ in 0..left.len() {
        if !left.sees(Test::BeginsItem) {
            return Ok(found);
        }
        found.push(input(alloc, left)?)?;
    }
    Ok(found)
}

/// The arguments of a field or a directive, where it has some (section 3.6.1).
#[tactic(auto, unfolding(crate::specs::Reading::arguments))]
pub fn arguments(alloc: Global, left: &mut Left<'_, '_>) -> Result<Items<InputField>, Stop>
    ensures { Reads (spec.arguments left.old) result left.new }
{
    let mut found = Items::new(alloc);
    if !left.sees(Test::Is(Kind::OpenParen)) {
        return Ok(found);
    }
    left.one(Test::Is(Kind::OpenParen))?;
    found.push(input(alloc, left)?)?;
    let found = more_inputs(alloc, left, found)?;
    left.one(Test::Is(Kind::CloseParen))?;
    Ok(found)
}

/// The fields of an input type (section 3.10).
#[tactic(auto, unfolding(crate::specs::Reading::input_fields))]
pub fn input_fields(alloc: Global, left: &mut Left<'_, '_>) -> Result<Items<InputField>, Stop>
    ensures { Reads (spec.input_fields left.old) result left.new }
{
    let mut found = Items::new(alloc);
    left.one(Test::Is(Kind::OpenBrace))?;
    found.push(input(alloc, left)?)?;
    let found = more_inputs(alloc, left, found)?;
    left.one(Test::Is(Kind::CloseBrace))?;
    Ok(found)
}

#[tactic(auto, unfolding(crate::specs::Reading::field))]
fn field(alloc: Global, left: &mut Left<'_, '_>) -> Result<Field, Stop>
    ensures { Reads (spec.field left.old) result left.new }
{
    description(left)?;
    let name = left.text(alloc, Test::Name)?;
    let arguments = arguments(alloc, left)?;
    left.one(Test::Is(Kind::Colon))?;
    let of = left.type_ref(alloc)?;
    left.directives(alloc)?;
    Ok(Field {
        name,
        arguments,
        of,
    })
}

fn more_fields(
    alloc: Global,
    left: &mut Left<'_, '_>,
    found: Items<Field>,
) -> Result<Items<Field>, Stop>
    ensures { Reads (prefixed found (parse.many spec.begins_item spec.field left.old)) result
        left.new }
{
    let mut found = found;
    for _ in 0..left.len() {
        if !left.sees(Test::BeginsItem) {
            return Ok(found);
        }
        found.push(field(alloc, left)?)?;
    }
    Ok(found)
}

/// The fields of an object type or an interface (section 3.6).
#[tactic(auto, unfolding(crate::specs::Reading::fields))]
pub fn fields(alloc: Global, left: &mut Left<'_, '_>) -> Result<Items<Field>, Stop>
    ensures { Reads (spec.fields left.old) result left.new }
{
    let mut found = Items::new(alloc);
    left.one(Test::Is(Kind::OpenBrace))?;
    found.push(field(alloc, left)?)?;
    let found = more_fields(alloc, left, found)?;
    left.one(Test::Is(Kind::CloseBrace))?;
    Ok(found)
}

#[tactic(auto, unfolding(crate::specs::Reading::value))]
fn value(alloc: Global, left: &mut Left<'_, '_>) -> Result<Text, Stop>
    ensures { Reads (spec.value left.old) result left.new }
{
    description(left)?;
    let name = left.text(alloc, Test::Value)?;
    left.directives(alloc)?;
    Ok(name)
}

fn more_values(
    alloc: Global,
    left: &mut Left<'_, '_>,
    found: Items<Text>,
) -> Result<Items<Text>, Stop>
    ensures { Reads (prefixed found (parse.many spec.begins_value spec.value left.old)) result
        left.new }
{
    let mut found = found;
    for _ in 0..left.len() {
        if !left.sees(Test::BeginsValue) {
            return Ok(found);
        }
        found.push(value(alloc, left)?)?;
    }
    Ok(found)
}

/// The values of an enum (section 3.9).
#[tactic(auto, unfolding(crate::specs::Reading::values))]
pub fn values(alloc: Global, left: &mut Left<'_, '_>) -> Result<Items<Text>, Stop>
    ensures { Reads (spec.values left.old) result left.new }
{
    let mut found = Items::new(alloc);
    left.one(Test::Is(Kind::OpenBrace))?;
    found.push(value(alloc, left)?)?;
    let found = more_values(alloc, left, found)?;
    left.one(Test::Is(Kind::CloseBrace))?;
    Ok(found)
}

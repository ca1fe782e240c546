ghost use Rattle.std.specs.Prelude.{◌≡◌, IfOk, map};
ghost use Rattle.gql_inputs.specs.Constants as spec;

use crate::names::note;
use crate::string::unescaped;
use flow_base::{Memory, Text};
use gql_terms::Value;
use indexmap::IndexSet;
use json_value::Json;
use std::alloc::Global;
use tree_items::Items;

#[cycle(constant)]
fn constant_items(alloc: Global, values: &[Value]) -> Result<Items<Json>, Memory>
    ensures { IfOk result (λ made. made ≡ map spec.constant values.now) }
{
    let mut made = Items::new(alloc);
    for i in 0..values.len() {
        made.push(constant(alloc, &values[i])?)?;
    }
    Ok(made)
}

/// The default of a variable or an input field in JSON, as written: an enum name is a string, and a string is its text.
/// Of several members with one name the first counts. A constant has no variable and no block string; they would be null.
#[cycle(constant)]
pub fn constant(alloc: Global, value: &Value) -> Result<Json, Memory>
    ensures { IfOk result (λ made. made ≡ spec.constant value.now) }
{
    match value {
        Value::Variable(_) => Ok(Json::Null),
        Value::Block(_) => Ok(Json::Null),
        Value::Null => Ok(Json::Null),
        Value::Bool(b) => Ok(Json::Bool(*b)),
        Value::Number(text) => Ok(Json::Number(text.copy()?)),
        Value::Str(source) => Ok(Json::Str(unescaped(alloc, source)?)),
        Value::EnumName(name) => Ok(Json::Str(name.copy()?)),
        Value::List(values) => Ok(Json::List(constant_items(alloc, values.as_slice())?)),
        Value::Object(members) => Ok(Json::Object(constant_members(alloc, members.as_slice())?)),
    }
}

#[cycle(constant)]
fn constant_members(alloc: Global, members: &[(Text, Value)]) -> Result<Items<(Text, Json)>, Memory>
    ensures { IfOk result (λ made. made ≡ spec.firsts (map spec.constant_member members.now)) }
{
    let mut names = IndexSet::new(alloc);
    let mut made: Items<(Text, Json)> = Items::new(alloc);
    for i in 0..members.len() {
        let member = &members[i];
        if !note(&mut names, &member.0)? {
            continue;
        }
        made.push((member.0.copy()?, constant(alloc, &member.1)?))?;
    }
    Ok(made)
}

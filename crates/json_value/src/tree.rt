ghost use Rattle.std.specs.Prelude.{◌≡◌, IfOk};

use flow_base::{Memory, Text};
use std::alloc::Global;
use tree_items::Items;

/// A JSON value (RFC 8259, section 3). A number is kept as the text that it was written as, and a string as the
/// characters that it spells. Members keep their order; those of a value that was read have distinct names.
///
/// To let a value go recurses once for each level of lists and objects.
#[derive(Debug, Drop)]
pub enum Json {
    Null,
    Bool(bool),
    Number(Text),
    Str(Text),
    List(Items<Json>),
    Object(Items<(Text, Json)>),
}

#[cycle(copy)]
fn copy_items(alloc: Global, items: &[Json]) -> Result<Items<Json>, Memory>
    ensures { IfOk result (λ v. v ≡ items.now) }
{
    let mut made = Items::new(alloc);
    for item in items {
        made.push(copy(alloc, item)?)?;
    }
    Ok(made)
}

#[cycle(copy)]
fn copy_members(alloc: Global, members: &[(Text, Json)]) -> Result<Items<(Text, Json)>, Memory>
    ensures { IfOk result (λ v. v ≡ members.now) }
{
    let mut made = Items::new(alloc);
    for (name, value) in members {
        let name = name.copy()?;
        made.push((name, copy(alloc, value)?))?;
    }
    Ok(made)
}

/// An equal value. Fails only for want of memory. Recurses once for each level of lists and objects.
#[cycle(copy)]
pub fn copy(alloc: Global, value: &Json) -> Result<Json, Memory>
    ensures { IfOk result (λ v. v ≡ value.now) }
{
    match value {
        Json::Null => Ok(Json::Null),
        Json::Bool(b) => Ok(Json::Bool(*b)),
        Json::Number(text) => Ok(Json::Number(text.copy()?)),
        Json::Str(text) => Ok(Json::Str(text.copy()?)),
        Json::List(items) => Ok(Json::List(copy_items(alloc, items.as_slice())?)),
        Json::Object(members) => Ok(Json::Object(copy_members(alloc, members.as_slice())?)),
    }
}

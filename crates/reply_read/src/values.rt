ghost use Rattle.std.specs.Prelude.{◌≡◌, ◌⊎◌, ◌∷◌, [], Ok, IfOk, replicate, codes};
ghost use Rattle.json_value.specs.Members as by_name;
ghost use Rattle.json_value.specs.declared.tree.Json.TheVariants as json;
ghost use Rattle.reply_read.specs.declared.replies.ReplyFault.TheVariants as fault;
ghost use Rattle.reply_read.specs.Values as spec;

use crate::kinds::{are_pieces, take_member};
use crate::{ReplyFault, Sent};
use flow_base::{Memory, Text};
use json_tree::Json;
use std::alloc::Global;

/// The fault of a member's shape, or that no memory was found for its name.
pub fn misshapen(alloc: Global, name: &str) -> ReplyFault
    ensures { (result ≡ fault.Shape name.now) ⊎ (result ≡ fault.Memory) }
{
    match Text::of(alloc, name) {
        Ok(name) => ReplyFault::Shape(name),
        Err(Memory) => ReplyFault::Memory,
    }
}

/// The data of a reply, moved out; Some None where it is missing or null beside errors.
pub fn take_data(value: Json, failed: bool) -> Option<Option<Json>>
    ensures { result ≡ spec.data_of failed (by_name.member value (codes "data")) }
{
    match take_member(value, "data") {
        Some(Json::Object(members)) => Some(Some(Json::Object(members))),
        Some(Json::Null) => { if failed { Some(None) } else { None } }
        None => { if failed { Some(None) } else { None } }
        Some(_) => None,
    }
}

fn one(alloc: Global, value: Json) -> Result<Vec<Json>, Memory>
    ensures { IfOk result (λ v. v.items ≡ value ∷ []) }
{
    let mut values = Vec::new(alloc);
    values.push(value).map_err(|_| Memory)?;
    Ok(values)
}

fn nulls(alloc: Global, count: u64) -> Result<Vec<Json>, Memory>
    ensures { IfOk result (λ v. v.items ≡ replicate count json.Null) }
{
    let mut values = Vec::new(alloc);
    for _ in 0..count {
        values.push(Json::Null).map_err(|_| Memory)?;
    }
    Ok(values)
}

/// The entities of a reply, moved out.
fn entities(alloc: Global, found: Option<Json>, count: u64) -> Result<Vec<Json>, ReplyFault>
    ensures { spec.GivesValues (spec.entities_of count found) (spec.listed result) }
{
    let Some(Json::List(items)) = found else {
        return Err(misshapen(alloc, "_entities"));
    };
    if items.len() as u64 != count {
        return Err(ReplyFault::Count {
            got: items.len() as u64,
            sent: count,
        });
    }
    if !are_pieces(items.as_slice()) {
        return Err(misshapen(alloc, "entity"));
    }
    Ok(items.into_vec())
}

fn nulls_or_memory(alloc: Global, count: u64) -> Result<Vec<Json>, ReplyFault>
    ensures { spec.GivesValues (Ok (replicate count json.Null)) (spec.listed result) }
{
    match nulls(alloc, count) {
        Ok(values) => Ok(values),
        Err(Memory) => Err(ReplyFault::Memory),
    }
}

fn one_or_memory(alloc: Global, value: Json) -> Result<Vec<Json>, ReplyFault>
    ensures { spec.GivesValues (Ok (value ∷ [])) (spec.listed result) }
{
    match one(alloc, value) {
        Ok(values) => Ok(values),
        Err(Memory) => Err(ReplyFault::Memory),
    }
}

/// The pieces of a reply, moved out of its data.
pub fn take_values(alloc: Global, found: Option<Json>, sent: &Sent) -> Result<Vec<Json>, ReplyFault>
    ensures { spec.GivesValues (spec.values_of sent.now found) (spec.listed result) }
{
    match (sent, found) {
        (Sent::Root, None) => one_or_memory(alloc, Json::Null),
        (Sent::Root, Some(value)) => one_or_memory(alloc, value),
        (Sent::Entities(count), None) => nulls_or_memory(alloc, *count),
        (Sent::Entities(count), Some(value)) => {
            entities(alloc, take_member(value, "_entities"), *count)
        }
    }
}

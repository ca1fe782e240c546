ghost use Rattle.std.specs.Prelude.{◌≡◌, IfOk, map};
ghost use Rattle.std.specs.List.{list_all};
ghost use Rattle.json_value.specs.Members as by_name;
ghost use Rattle.reply_read.specs.Kinds as spec;

use flow_base::{Memory, Text};
use json_tree::Json;
use std::alloc::Global;

pub fn is_object(value: &Json) -> bool
    ensures { result ≡ spec.is_object value.now }
{
    match value {
        Json::Object(_) => true,
        _ => false,
    }
}

/// An object or null.
fn is_piece(value: &Json) -> bool
    ensures { result ≡ spec.is_piece value.now }
{
    match value {
        Json::Object(_) => true,
        Json::Null => true,
        _ => false,
    }
}

fn is_string(value: &Json) -> bool
    ensures { result ≡ spec.is_string value.now }
{
    match value {
        Json::Str(_) => true,
        _ => false,
    }
}

pub fn are_objects(values: &[Json]) -> bool
    ensures { result ≡ list_all spec.is_object values.now }
{
    values.iter().all(|v| is_object(v))
}

pub fn are_pieces(values: &[Json]) -> bool
    ensures { result ≡ list_all spec.is_piece values.now }
{
    values.iter().all(|v| is_piece(v))
}

pub fn are_strings(values: &[Json]) -> bool
    ensures { result ≡ list_all spec.is_string values.now }
{
    values.iter().all(|v| is_string(v))
}

/// Whether it is a list of strings.
pub fn is_strings(value: &Json) -> bool
    ensures { result ≡ spec.is_strings value.now }
{
    match value {
        Json::List(items) => are_strings(items.as_slice()),
        _ => false,
    }
}

/// Its characters where it is a string, and else the words given.
pub fn string_or(alloc: Global, value: &Json, words: &str) -> Result<Text, Memory>
    ensures { IfOk result (λ text. text ≡ spec.string_or words.now value.now) }
{
    match value {
        Json::Str(text) => text.copy(),
        _ => Text::of(alloc, words),
    }
}

fn take_named(members: Vec<(Text, Json)>, name: &str) -> Option<Json>
    ensures { result ≡ by_name.named name.now members.items }
{
    let mut members = members;
    for i in 0..members.len() {
        if members[i].0.as_str() == name {
            let (_, value) = members.remove(i);
            return Some(value);
        }
    }
    None
}

/// The value of the first member with this name, moved out.
pub fn take_member(value: Json, name: &str) -> Option<Json>
    ensures { result ≡ by_name.member value name.now }
{
    match value {
        Json::Object(members) => take_named(members.into_vec(), name),
        _ => None,
    }
}

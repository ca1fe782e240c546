//! The forms of a case's members.

ghost use Rattle.std.specs.Prelude.{◌≡◌, ◌≤◌, IfOk, IfSome};
ghost use Rattle.std.specs.Option.{option_copied};
ghost use Rattle.json_value.specs.Members as by_name;
ghost use Rattle.case_file.specs.Forms as spec;

use flow_base::{Memory, Text};
use json_value::{Json, member, whole};

fn text_of(value: &Json) -> Option<&Text>
    ensures { option_copied result ≡ spec.text_of value.now }
{
    match value {
        Json::Str(text) => Some(text),
        _ => None,
    }
}

/// The characters of the member with this name, where it is a string.
pub fn text_member<'a>(value: &'a Json, name: &str) -> Option<&'a Text>
    ensures { option_copied result ≡ spec.text_in (by_name.member value.now name.now) }
{
    match member(value, name) {
        Some(part) => text_of(part),
        None => None,
    }
}

fn text_or_null(value: &Json) -> Result<Option<Option<Text>>, Memory>
    ensures { IfOk result (λ o. o ≡ spec.text_or_null value.now) }
{
    match value {
        Json::Str(text) => Ok(Some(Some(text.copy()?))),
        Json::Null => Ok(Some(None)),
        _ => Ok(None),
    }
}

/// A copy of the characters of the member with this name, which may be null; None where it is missing or of another kind.
pub fn text_or_null_member(value: &Json, name: &str) -> Result<Option<Option<Text>>, Memory>
    ensures { IfOk result (λ o. o ≡ spec.text_or_null_in (by_name.member value.now name.now)) }
{
    match member(value, name) {
        Some(part) => text_or_null(part),
        None => Ok(None),
    }
}

fn flag_of(value: &Json) -> Option<bool>
    ensures { result ≡ spec.flag_of value.now }
{
    match value {
        Json::Bool(flag) => Some(*flag),
        _ => None,
    }
}

/// The member with this name, where it is `true` or `false`.
pub fn flag_member(value: &Json, name: &str) -> Option<bool>
    ensures { result ≡ spec.flag_in (by_name.member value.now name.now) }
{
    match member(value, name) {
        Some(part) => flag_of(part),
        None => None,
    }
}

fn number_of(value: &Json) -> Option<u64>
    ensures { result ≡ spec.number_of value.now }
{
    match value {
        Json::Number(_) => whole(value),
        _ => None,
    }
}

/// The number of the member with this name, where it is written by 1 to 15 digits.
pub fn number_member(value: &Json, name: &str) -> Option<u64>
    ensures { result ≡ spec.number_in (by_name.member value.now name.now) }
{
    match member(value, name) {
        Some(part) => number_of(part),
        None => None,
    }
}

/// The number of the member with this name, where it lies between the two, or is one of them.
pub fn number_within(value: &Json, name: &str, least: u64, most: u64) -> Option<u64>
    ensures number { result ≡ spec.number_within least most (by_name.member value.now name.now) }
    ensures within { IfSome result (λ n. (least ≤ n) × (n ≤ most)) }
{
    match number_member(value, name) {
        Some(number) => {
            if least <= number && number <= most {
                Some(number)
            } else {
                None
            }
        }
        None => None,
    }
}

fn is_object(value: &Json) -> bool
    ensures { result ≡ spec.is_object value.now }
{
    match value {
        Json::Object(_) => true,
        _ => false,
    }
}

/// The member with this name, where it is an object.
pub fn object_member<'a>(value: &'a Json, name: &str) -> Option<&'a Json>
    ensures { option_copied result ≡ spec.object_in (by_name.member value.now name.now) }
{
    let part = member(value, name)?;
    if is_object(part) { Some(part) } else { None }
}

fn elements(value: &Json) -> Option<&[Json]>
    ensures { option_copied result ≡ spec.elements value.now }
{
    match value {
        Json::List(items) => Some(items.as_slice()),
        _ => None,
    }
}

/// The elements of the member with this name, where it is a list.
pub fn list_member<'a>(value: &'a Json, name: &str) -> Option<&'a [Json]>
    ensures { option_copied result ≡ spec.elements_in (by_name.member value.now name.now) }
{
    match member(value, name) {
        Some(part) => elements(part),
        None => None,
    }
}

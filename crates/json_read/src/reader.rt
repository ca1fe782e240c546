//! Values, by recursive descent: one call deeper for each level of lists and objects.

ghost use Rattle.std.specs.Prelude.{◌≡◌, ◌≢◌, ◌≤◌, ◌<◌, ◌+◌, ◌∷◌, [], ◌++◌, length, slice_index, false, IfOk, IfErr, MatchResult};
ghost use Rattle.json_value.specs.Grammar.{IsText, strict, is_blank};
ghost use Rattle.json_value.specs.declared.tree.Json.{Json};
ghost use Rattle.json_value.specs.declared.tree.Json.TheVariants as values;
ghost use Rattle.json_value.specs.declared.fault.JsonFault.TheVariants as faults;
ghost use Rattle.json_faults.specs.Faults.{Explains};
ghost use Rattle.json_machine.specs.Machine.{Reads, read_of};
ghost use Rattle.json_machine.specs.Mode as modes;
ghost use Rattle.json_read.specs.Reading.{ReadsOn, ReadsMark, ReadsName, HasRoom, Anywhere};

use crate::number::{number, number_start};
use crate::string::string;
use crate::words::{blanks, word_value};
use flow_base::Text;
use json_machine::Word;
use json_members::Members;
use json_value::{Json, JsonFault};
use std::alloc::{AllocError, Global};
use tree_items::Items;

const MAX_DEPTH: usize = 64;

/// The value at this place, which is neither a list nor an object, and the place after it.
fn leaf(alloc: Global, bytes: &[u8], at: usize) -> Result<(Json, usize), JsonFault>
    requires within { at < length bytes.now }
    requires list { slice_index bytes.now at ≢ 91 }
    requires object { slice_index bytes.now at ≢ 123 }
    requires blank { is_blank (slice_index bytes.now at) ≡ false }
    ensures { ReadsOn Anywhere bytes.now at modes.Value result }
{
    match bytes[at] {
        b'"' => {
            let (text, end) = string(alloc, bytes, at + 1)?;
            Ok((Json::Str(text), end + 1))
        }
        b'n' => word_value(bytes, at + 1, Word::Null),
        b't' => word_value(bytes, at + 1, Word::True),
        b'f' => word_value(bytes, at + 1, Word::False),
        byte => match number_start(byte) {
            Some(start) => number(alloc, bytes, at, start),
            None => Err(JsonFault::Syntax(at as u64)),
        },
    }
}

/// After a value: whether a comma follows, or this bracket, and its place.
fn mark(bytes: &[u8], at: usize, bracket: u8) -> Result<(bool, usize), JsonFault>
    requires { at ≤ length bytes.now }
    ensures { ReadsMark bytes.now at bracket result }
{
    let found = blanks(bytes, at);
    if found >= bytes.len() {
        return Err(JsonFault::Ended);
    }
    if bytes[found] == b',' {
        return Ok((true, found));
    }
    if bytes[found] == bracket {
        return Ok((false, found));
    }
    Err(JsonFault::Syntax(found as u64))
}

/// The name of the next member, after these, and the place after its colon.
fn name(
    alloc: Global,
    bytes: &[u8],
    at: usize,
    members: &mut Members,
) -> Result<(Text, usize), JsonFault>
    requires { at ≤ length bytes.now }
    ensures reads { ReadsName bytes.now at members.old result }
    ensures same { members.new ≡ members.old }
{
    let quote = blanks(bytes, at);
    if quote >= bytes.len() {
        return Err(JsonFault::Ended);
    }
    if bytes[quote] != b'"' {
        return Err(JsonFault::Syntax(quote as u64));
    }
    let (name, end) = string(alloc, bytes, quote + 1)?;
    if members.meets(&name)? {
        return Err(JsonFault::Twice(quote as u64));
    }
    let colon = blanks(bytes, end + 1);
    if colon >= bytes.len() {
        return Err(JsonFault::Ended);
    }
    if bytes[colon] != b':' {
        return Err(JsonFault::Syntax(colon as u64));
    }
    Ok((name, colon + 1))
}

/// The same items. The room that none of them takes is given back.
fn fitted<T>(items: Items<T>) -> Items<T>
    ensures { result ≡ items }
{
    let mut elements = items.into_vec();
    elements.shrink_to_fit();
    Items::from_vec(elements)
}

/// The items of a list, of which at least one is wanted, through the bracket.
#[cycle(value)]
fn items_of(alloc: Global, bytes: &[u8], at: usize, room: usize) -> Result<(Json, usize), JsonFault>
    requires within { at ≤ length bytes.now }
    requires some { at < length bytes.now → slice_index bytes.now at ≢ 93 }
    requires begins { at < length bytes.now → is_blank (slice_index bytes.now at) ≡ false }
    ensures { ReadsOn (HasRoom (room + 1)) bytes.now at modes.First result }
{
    let mut items = Items::new(alloc);
    let mut from = at;
    loop {
        let (item, end) = value(alloc, bytes, from, room)?;
        items.push(item)?;
        let (more, place) = mark(bytes, end, b']')?;
        from = place + 1;
        if !more {
            return Ok((Json::List(fitted(items)), from));
        }
    }
}

/// The list whose bracket stands at this place, with room for so many more levels.
#[cycle(value)]
fn list(alloc: Global, bytes: &[u8], at: usize, room: usize) -> Result<(Json, usize), JsonFault>
    requires within { at < length bytes.now }
    requires begins { slice_index bytes.now at ≡ 91 }
    ensures { ReadsOn (HasRoom room) bytes.now at modes.Value result }
{
    if room == 0 {
        return Err(JsonFault::Deep(at as u64));
    }
    let first = blanks(bytes, at + 1);
    if first < bytes.len() && bytes[first] == b']' {
        return Ok((Json::List(Items::new(alloc)), first + 1));
    }
    items_of(alloc, bytes, first, room - 1)
}

/// The members with this one more.
fn closed(members: Members, name: Text, value: Json) -> Result<Json, AllocError>
    ensures { IfOk result (λ v. v ≡ values.Object (members ++ (name, value) ∷ [])) }
{
    let mut items = members.into_items();
    items.push((name, value))?;
    Ok(Json::Object(fitted(items)))
}

/// The members of an object, of which at least one is wanted, through the bracket.
#[cycle(value)]
fn members_of(
    alloc: Global,
    bytes: &[u8],
    at: usize,
    room: usize,
) -> Result<(Json, usize), JsonFault>
    requires within { at ≤ length bytes.now }
    requires some { at < length bytes.now → slice_index bytes.now at ≢ 125 }
    requires begins { at < length bytes.now → is_blank (slice_index bytes.now at) ≡ false }
    ensures { ReadsOn (HasRoom (room + 1)) bytes.now at modes.FirstName result }
{
    let mut members = Members::new(alloc);
    let mut from = at;
    loop {
        let (name, begins) = name(alloc, bytes, from, &mut members)?;
        let (member, end) = value(alloc, bytes, begins, room)?;
        let (more, place) = mark(bytes, end, b'}')?;
        from = place + 1;
        if !more {
            return Ok((closed(members, name, member)?, from));
        }
        members = members.with(name, member)?;
    }
}

/// The object whose bracket stands at this place, with room for so many more levels.
#[cycle(value)]
fn object(alloc: Global, bytes: &[u8], at: usize, room: usize) -> Result<(Json, usize), JsonFault>
    requires within { at < length bytes.now }
    requires begins { slice_index bytes.now at ≡ 123 }
    ensures { ReadsOn (HasRoom room) bytes.now at modes.Value result }
{
    if room == 0 {
        return Err(JsonFault::Deep(at as u64));
    }
    let first = blanks(bytes, at + 1);
    if first < bytes.len() && bytes[first] == b'}' {
        return Ok((Json::Object(Items::new(alloc)), first + 1));
    }
    members_of(alloc, bytes, first, room - 1)
}

/// The value at this place or after white space, with room for so many levels, and the place after it.
#[cycle(value)]
fn value(alloc: Global, bytes: &[u8], at: usize, room: usize) -> Result<(Json, usize), JsonFault>
    requires { at ≤ length bytes.now }
    ensures { ReadsOn (HasRoom room) bytes.now at modes.Value result }
{
    let begins = blanks(bytes, at);
    if begins >= bytes.len() {
        return Err(JsonFault::Ended);
    }
    match bytes[begins] {
        b'[' => list(alloc, bytes, begins, room),
        b'{' => object(alloc, bytes, begins, room),
        _ => leaf(alloc, bytes, begins),
    }
}

fn whole(alloc: Global, bytes: &[u8]) -> Result<Json, JsonFault>
    ensures { Reads (read_of strict bytes.now) result }
{
    let (found, after) = value(alloc, bytes, 0, MAX_DEPTH)?;
    let end = blanks(bytes, after);
    if end < bytes.len() {
        return Err(JsonFault::Syntax(end as u64));
    }
    Ok(found)
}

/// The value that the bytes spell: JSON in UTF-8 (RFC 8259), at most 64 levels deep, with distinct names in each object.
/// Else the first fault from the left; places count bytes from 0. Recurses once for each level of the text, so 64 times
/// at most, and takes time in proportion to its length, times the logarithm of the number of names in one object.
pub fn read(alloc: Global, bytes: &[u8]) -> Result<Json, JsonFault>
    // What is read is the value of the text.
    ensures found { IfOk result (λ v. IsText strict v bytes.now) }

    // The value of a text is read, unless memory runs out.
    ensures only { (v : Json) → IsText strict v bytes.now
        → MatchResult result (λ w. w ≡ v) (λ x. x ≡ faults.Memory) }

    // Any other text has this fault, its first from the left, unless memory runs out.
    ensures fault { IfErr result (Explains bytes.now) }
{
    whole(alloc, bytes)
}

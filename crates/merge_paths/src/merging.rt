ghost use Rattle.std.specs.Prelude.{◌≡◌, IfOk, None, MatchOption};
ghost use Rattle.json_value.specs.Members.{named};
ghost use Rattle.merge_paths.specs.Merge.{IsFirstNamed};
ghost use Rattle.merge_paths.specs.Levels.{merged_members, merged_elements};
ghost use Rattle.merge_paths.specs.Merge as spec;

use crate::others::Others;
use flow_base::{Memory, Text};
use json_value::Json;
use std::alloc::Global;
use tree_items::Items;

/// Two values made one. Of two objects the members of the first, each merged with the member of its name in the second,
/// and then the members that only the second has. Of two lists the elements at each index merged, and then the rest of
/// the longer. Where the second is null, the first; else the second. Both values are spent, also for want of memory.
///
/// Nothing is copied. Takes time in the size of what both have at each level that both have; members are found by an index
/// on their names. Recurses once for each level that both have.
#[cycle(merge)]
pub fn merge(alloc: Global, a: Json, b: Json) -> Result<Json, Memory>
    ensures { IfOk result (λ v. v ≡ spec.merge a b) }
{
    match b {
        Json::Null => Ok(a),
        Json::Object(others) => match a {
            Json::Object(members) => Ok(Json::Object(merge_members(alloc, members, others)?)),
            _ => Ok(Json::Object(others)),
        },
        Json::List(others) => match a {
            Json::List(items) => Ok(Json::List(merge_elements(alloc, items, others)?)),
            _ => Ok(Json::List(others)),
        },
        other => Ok(other),
    }
}

#[cycle(merge)]
fn merge_members(
    alloc: Global,
    mut a: Items<(Text, Json)>,
    b: Items<(Text, Json)>,
) -> Result<Items<(Text, Json)>, Memory>
    ensures { IfOk result (λ v. v ≡ merged_members a b) }
{
    let mut others = Others::of(alloc, b)?;
    for i in 0..a.len() {
        let Some(other) = others.take(&a.as_slice()[i].0) else {
            continue;
        };
        let (name, value) = a.replace(i, blank());
        let merged = merge(alloc, value, other)?;
        a.set(i, (name, merged));
    }
    others.append_to(&mut a)?;
    Ok(a)
}

#[cycle(merge)]
fn merge_elements(
    alloc: Global,
    mut a: Items<Json>,
    mut b: Items<Json>,
) -> Result<Items<Json>, Memory>
    ensures { IfOk result (λ v. v ≡ merged_elements a b) }
{
    let shared = a.len().min(b.len());
    for i in 0..shared {
        let value = a.replace(i, Json::Null);
        let other = b.replace(i, Json::Null);
        let merged = merge(alloc, value, other)?;
        a.set(i, merged);
    }
    for i in shared..b.len() {
        a.push(b.replace(i, Json::Null))?;
    }
    Ok(a)
}

/// A member to stand in the place of one that was taken out.
pub fn blank() -> (Text, Json) {
    (Text::new(), Json::Null)
}

/// The index of the first member with this name.
pub fn first_named(members: &[(Text, Json)], name: &str) -> Option<usize>
    ensures { MatchOption result (named name.now members.now ≡ None)
        (IsFirstNamed name.now members.now) }
{
    for i in 0..members.len() {
        if members[i].0.as_str() == name {
            return Some(i);
        }
    }
    None
}

use crate::building::path;
use flow_base::{Memory, Text};
use json_paths::{Place, places};
use json_tree::{Json, JsonFault, print, read};
use merge_paths::{merge, place_entities};
use std::alloc::Global;
use std::test::Fail;
use tree_items::Items;

fn merged(alloc: Global, a: &str, b: &str) -> Result<Text, Fail> {
    let first = read(alloc, a.as_bytes())?;
    let second = read(alloc, b.as_bytes())?;
    Ok(print(alloc, &merge(alloc, first, second)?)?)
}

#[test]
fn values_are_merged(rt: HostRuntime) -> Result<(), Fail> {
    let table = [
        (
            "{\"a\":[1,2],\"b\":null}",
            "{\"a\":[{\"x\":1},null,3],\"c\":4}",
            "{\"a\":[{\"x\":1},2,3],\"b\":null,\"c\":4}",
        ),
        ("{\"a\":1}", "null", "{\"a\":1}"),
        ("null", "{\"a\":1}", "{\"a\":1}"),
        ("{\"a\":1}", "[2]", "[2]"),
        ("[1,2,3]", "[{\"a\":1}]", "[{\"a\":1},2,3]"),
        (
            "{\"b\":{\"x\":1},\"a\":2}",
            "{\"c\":3,\"b\":{\"y\":4}}",
            "{\"b\":{\"x\":1,\"y\":4},\"a\":2,\"c\":3}",
        ),
        ("\"s\"", "false", "false"),
        ("[]", "[null]", "[null]"),
    ];
    for (a, b, wanted) in table {
        assert_eq!(rt; merged(rt.alloc(), a, b)?.as_str(), wanted);
    }
    Ok(())
}

/// An object with twenty members, `"m0":from` and so on.
fn twenty(alloc: Global, from: u64) -> Result<Json, Fail> {
    let mut members = Items::new(alloc);
    for i in 0..20u64 {
        let name = Text::from_string(format!(in alloc; "m{i}")?)?;
        let number = from % 1000 + i;
        members.push((
            name,
            Json::Number(Text::from_string(format!(in alloc; "{number}")?)?),
        ))?;
    }
    Ok(Json::Object(members))
}

fn over_many(alloc: Global, text: &str) -> Result<Text, Fail> {
    let first = read(alloc, text.as_bytes())?;
    Ok(print(alloc, &merge(alloc, first, twenty(alloc, 0)?)?)?)
}

/// More members than are searched one by one are found by an index, and those that are new stay in their order.
#[test]
fn many_members_are_merged_by_name(rt: HostRuntime) -> Result<(), Fail> {
    assert_eq!(rt;
        over_many(rt.alloc(), "{\"m19\":0,\"x\":1,\"m3\":2}")?.as_str(),
        "{\"m19\":19,\"x\":1,\"m3\":3,\"m0\":0,\"m1\":1,\"m2\":2,\"m4\":4,\"m5\":5,\"m6\":6,\"m7\":7,\"m8\":8,\"m9\":9,\"m10\":10,\"m11\":11,\"m12\":12,\"m13\":13,\"m14\":14,\"m15\":15,\"m16\":16,\"m17\":17,\"m18\":18}"
    );
    Ok(())
}

fn elements(alloc: Global, text: &str) -> Result<Items<Json>, JsonFault> {
    match read(alloc, text.as_bytes())? {
        Json::List(items) => Ok(items),
        _ => Ok(Items::new(alloc)),
    }
}

/// Each of the places for an entity of its own.
fn one_each(alloc: Global, found: &[Place]) -> Result<Vec<Items<Place>>, Memory> {
    let mut users = Vec::new(alloc);
    for place in found {
        let mut places = Items::new(alloc);
        places.push(place.copy(alloc)?)?;
        users.push(places)?;
    }
    Ok(users)
}

fn placed(alloc: Global, value: &str, steps: &[&str], entities: &str) -> Result<Text, Fail> {
    let value = read(alloc, value.as_bytes())?;
    let found = places(alloc, &value, &path(alloc, steps)?)?;
    let users = one_each(alloc, &found)?;
    let entities = elements(alloc, entities)?;
    let made = place_entities(alloc, value, &users, entities.as_slice())?;
    Ok(print(alloc, &made)?)
}

#[test]
fn entities_are_merged_at_their_places(rt: HostRuntime) -> Result<(), Fail> {
    let table = [
        (
            "{\"items\":[{\"id\":1},{\"id\":2}]}",
            "[{\"p\":10},{\"p\":20}]",
            "{\"items\":[{\"id\":1,\"p\":10},{\"id\":2,\"p\":20}]}",
        ),
        (
            "{\"items\":[{\"id\":1},null]}",
            "[null,{\"p\":20}]",
            "{\"items\":[{\"id\":1},{\"p\":20}]}",
        ),
        (
            "{\"items\":[{\"id\":1},{\"id\":2}]}",
            "[{\"p\":10}]",
            "{\"items\":[{\"id\":1,\"p\":10},{\"id\":2}]}",
        ),
    ];
    for (value, entities, wanted) in table {
        assert_eq!(rt;
            placed(rt.alloc(), value, &["items", "@"], entities)?.as_str(),
            wanted
        );
    }
    Ok(())
}

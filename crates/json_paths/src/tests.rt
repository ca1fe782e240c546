use crate::{Need, Path, Place, Requires, Spot, Step, at, places};
use flow_base::{Memory, Text};
use json_value::Json;
use std::alloc::Global;
use std::test::Fail;
use tree_items::Items;

fn name(alloc: Global, name: &str) -> Result<Text, Memory> {
    Text::of(alloc, name)
}

/// `{"b":N}`
fn with_b(alloc: Global, number: &str) -> Result<Json, Memory> {
    let mut members = Items::new(alloc);
    members.push((name(alloc, "b")?, Json::Number(name(alloc, number)?)))?;
    Ok(Json::Object(members))
}

/// `{"a":[{"b":1},null,{"b":2}]}`
fn example(alloc: Global) -> Result<Json, Memory> {
    let mut items = Items::new(alloc);
    items.push(with_b(alloc, "1")?)?;
    items.push(Json::Null)?;
    items.push(with_b(alloc, "2")?)?;
    let mut members = Items::new(alloc);
    members.push((name(alloc, "a")?, Json::List(items)))?;
    Ok(Json::Object(members))
}

/// `a`, `@`, `b`
fn path(alloc: Global) -> Result<Path, Memory> {
    let mut steps = Items::new(alloc);
    steps.push(Step::Name(name(alloc, "a")?))?;
    steps.push(Step::Each)?;
    steps.push(Step::Name(name(alloc, "b")?))?;
    Ok(Path { steps })
}

/// The spots joined by commas.
fn shown(alloc: Global, place: &Place) -> Result<String, Memory> {
    let mut text = String::new(alloc);
    for spot in place.spots.as_slice() {
        if !text.is_empty() {
            text.push_str(",")?;
        }
        match spot {
            Spot::Name(name) => text.push_str(name.as_str())?,
            Spot::Index(index) => text.push_str(format!(in alloc; "{index}")?.as_str())?,
        }
    }
    Ok(text)
}

#[test]
fn a_path_leads_to_each_part_in_order(rt: HostRuntime) -> Result<(), Fail> {
    let alloc = rt.alloc();
    let value = example(alloc)?;
    let path = path(alloc)?.copy(alloc)?;
    let found = places(alloc, &value, &path)?;
    assert_eq!(rt; found.len(), 2);
    let first = found[0].copy(alloc)?;
    assert_eq!(rt; shown(alloc, &first)?.as_str(), "a,0,b");
    assert_eq!(rt; shown(alloc, &found[1])?.as_str(), "a,2,b");
    assert!(rt; matches!(at(&value, &first), Some(Json::Number(_))));
    let none = Place {
        spots: Items::new(alloc),
    };
    assert!(rt; matches!(at(&value, &none), Some(Json::Object(_))));
    Ok(())
}

#[test]
fn requires_are_copied(rt: HostRuntime) -> Result<(), Fail> {
    let alloc = rt.alloc();
    let mut fields = Items::new(alloc);
    fields.push(Need {
        name: name(alloc, "sku")?,
        fields: Items::new(alloc),
    })?;
    let needed = Requires {
        type_name: name(alloc, "Product")?,
        fields,
    };
    let copy = needed.copy(alloc)?;
    assert_eq!(rt; copy.type_name.as_str(), "Product");
    assert_eq!(rt; copy.fields.len(), 1);
    Ok(())
}

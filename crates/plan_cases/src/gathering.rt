use crate::building::{item, path};
use flow_base::Text;
use json_paths::{Place, Spot, places};
use json_tree::{print, read};
use representations::{gather, represent};
use std::alloc::Global;
use std::test::Fail;

fn represented(alloc: Global, value: &str, names: &[&str]) -> Result<Text, Fail> {
    let value = read(alloc, value.as_bytes())?;
    match represent(alloc, &value, &item(alloc, names)?)? {
        Some(rep) => Ok(print(alloc, &rep)?),
        None => Ok(Text::of(alloc, "none")?),
    }
}

#[test]
fn an_item_is_represented(rt: HostRuntime) -> Result<(), Fail> {
    let table = [
        (
            "{\"id\":\"1\",\"x\":2,\"__typename\":\"Item\"}",
            "{\"__typename\":\"Item\",\"id\":\"1\"}",
        ),
        (
            "{\"id\":null,\"__typename\":\"Item\"}",
            "{\"__typename\":\"Item\",\"id\":null}",
        ),
        ("{\"__typename\":\"Item\"}", "none"),
        ("{\"__typename\":\"Other\",\"id\":\"1\"}", "none"),
        ("{\"id\":\"1\"}", "none"),
        ("[{\"__typename\":\"Item\",\"id\":\"1\"}]", "none"),
        ("null", "none"),
    ];
    for (value, wanted) in table {
        assert_eq!(rt; represented(rt.alloc(), value, &["id"])?.as_str(), wanted);
    }
    Ok(())
}

#[test]
fn nested_members_are_represented(rt: HostRuntime) -> Result<(), Fail> {
    let table = [
        (
            "{\"__typename\":\"Item\",\"id\":1,\"owner\":[{\"id\":1,\"x\":2},null,[{\"id\":3}]]}",
            "{\"__typename\":\"Item\",\"owner\":[{\"id\":1},null,[{\"id\":3}]],\"id\":1}",
        ),
        (
            "{\"__typename\":\"Item\",\"id\":1,\"owner\":null}",
            "{\"__typename\":\"Item\",\"owner\":null,\"id\":1}",
        ),
        ("{\"__typename\":\"Item\",\"id\":1,\"owner\":7}", "none"),
        (
            "{\"__typename\":\"Item\",\"id\":1,\"owner\":[{\"id\":1},{}]}",
            "none",
        ),
        (
            "{\"__typename\":\"Item\",\"id\":1,\"owner\":[]}",
            "{\"__typename\":\"Item\",\"owner\":[],\"id\":1}",
        ),
    ];
    for (value, wanted) in table {
        assert_eq!(rt;
            represented(rt.alloc(), value, &["owner", "id"])?.as_str(),
            wanted
        );
    }
    Ok(())
}

/// Appends the indexes of a place, each after a comma.
fn write_indexes(alloc: Global, text: &mut String, place: &Place) -> Result<(), Fail> {
    for spot in place.spots.as_slice() {
        if let Spot::Index(index) = spot {
            text.push_str(format!(in alloc; ",{index}")?.as_str())?;
        }
    }
    Ok(())
}

fn write_places(alloc: Global, text: &mut String, places: &[Place]) -> Result<(), Fail> {
    for place in places {
        write_indexes(alloc, text, place)?;
    }
    text.push_str(" ")?;
    Ok(())
}

/// The representations at `items,@`, and for each the indexes of its places.
fn gathered(alloc: Global, value: &str) -> Result<String, Fail> {
    let value = read(alloc, value.as_bytes())?;
    let found = places(alloc, &value, &path(alloc, &["items", "@"])?)?;
    let gathered = gather(alloc, &value, &found, &item(alloc, &["id"])?)?;
    let mut text = String::new(alloc);
    for rep in gathered.distinct.as_slice() {
        text.push_str(print(alloc, rep)?.as_str())?;
    }
    for places in gathered.used_by.as_slice() {
        write_places(alloc, &mut text, places.as_slice())?;
    }
    Ok(text)
}

#[test]
fn doubles_are_gathered_once(rt: HostRuntime) -> Result<(), Fail> {
    let table = [
        (
            "{\"items\":[{\"__typename\":\"Item\",\"id\":\"1\"},{\"__typename\":\"Item\",\"id\":\"2\"},{\"__typename\":\"Item\",\"id\":\"1\"}]}",
            "{\"__typename\":\"Item\",\"id\":\"1\"}{\"__typename\":\"Item\",\"id\":\"2\"},0,2 ,1 ",
        ),
        ("{\"items\":[null,{\"__typename\":\"Item\"}]}", ""),
        (
            "{\"items\":[null,{\"__typename\":\"Item\",\"id\":1,\"x\":1},{\"__typename\":\"Item\",\"id\":1}]}",
            "{\"__typename\":\"Item\",\"id\":1},1,2 ",
        ),
        ("{}", ""),
    ];
    for (value, wanted) in table {
        assert_eq!(rt; gathered(rt.alloc(), value)?.as_str(), wanted);
    }
    Ok(())
}

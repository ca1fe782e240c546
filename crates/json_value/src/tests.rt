use crate::{Json, copy, equal, member, whole};
use flow_base::{Memory, Text};
use std::alloc::Global;
use tree_items::Items;

fn sample(alloc: Global) -> Result<Json, Memory> {
    let mut members = Items::new(alloc);
    members.push((Text::of(alloc, "a")?, Json::Number(Text::of(alloc, "12")?)))?;
    members.push((Text::of(alloc, "b")?, Json::Str(Text::of(alloc, "12")?)))?;
    Ok(Json::Object(members))
}

fn whole_member(value: &Json, name: &str) -> Option<u64> {
    match member(value, name) {
        Some(found) => whole(found),
        None => None,
    }
}

#[test]
fn copies_compares_and_finds(rt: HostRuntime) {
    match sample(rt.alloc()) {
        Ok(value) => {
            match copy(rt.alloc(), &value) {
                Ok(copied) => assert!(rt; equal(&copied, &value)),
                Err(_) => panic!(rt; "no memory"),
            }
            for (name, number) in [("a", Some(12)), ("b", None), ("c", None)] {
                assert!(rt; whole_member(&value, name) == number, "at {name}");
            }
        }
        Err(_) => panic!(rt; "no memory"),
    }
}

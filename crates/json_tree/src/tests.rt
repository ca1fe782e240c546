use crate::{Json, JsonFault, copy, equal, member, print, read, whole};
use flow_base::{Memory, Text};
use std::alloc::Global;
use std::test::*;

// The compact text of what is read, or the fault.
fn again(alloc: Global, text: &str) -> Result<Text, JsonFault> {
    let value = read(alloc, text.as_bytes())?;
    match print(alloc, &value) {
        Ok(text) => Ok(text),
        Err(Memory) => Err(JsonFault::Memory),
    }
}

// Whether the text prints compactly as the other, and that again as itself.
fn prints(alloc: Global, text: &str, compact: &str) -> bool {
    let Ok(first) = again(alloc, text) else {
        return false;
    };
    let Ok(second) = again(alloc, first.as_str()) else {
        return false;
    };
    first.as_str() == compact && first == second
}

#[test]
fn what_is_read_is_printed(rt: HostRuntime) {
    let alloc = rt.alloc();
    let table = [
        ("{\"p\": 19.90}", "{\"p\":19.90}"),
        (
            " [ 1 , -0.5e+7 , null , true , false ] ",
            "[1,-0.5e+7,null,true,false]",
        ),
        ("\"\\u0041\\u00e9\\ud83d\\ude00\\/\\b\"", "\"Aé😀/\\b\""),
        ("{\"b\":[],\"a\":{}}", "{\"b\":[],\"a\":{}}"),
    ];
    for (text, compact) in table {
        assert!(rt; prints(alloc, text, compact));
    }
}

#[test]
fn values_are_looked_into(rt: HostRuntime) -> Result<(), Fail> {
    let alloc = rt.alloc();
    let value = read(alloc, b"{\"a\":[1,\"x\"],\"n\":12}")?;
    let same = copy(alloc, &value)?;
    assert!(rt; equal(&value, &same));
    assert!(rt; member(&value, "b").is_none());
    let number = member(&value, "n").ok_or("no member n")?;
    assert_eq!(rt; whole(number), Some(12));
    assert!(rt; !equal(&value, number));
    assert!(rt; equal(&Json::Null, &Json::Null));
    Ok(())
}

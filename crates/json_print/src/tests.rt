use crate::print;
use flow_base::{Memory, Text};
use json_value::Json;
use std::alloc::Global;
use std::test::Fail;
use tree_items::Items;

/// `{"p": 19.90}` with two members more: every escape, and every kind of value.
fn example(alloc: Global) -> Result<Json, Memory> {
    let mut items = Items::new(alloc);
    items.push(Json::Null)?;
    items.push(Json::Bool(true))?;
    items.push(Json::Bool(false))?;
    items.push(Json::List(Items::new(alloc)))?;
    items.push(Json::Object(Items::new(alloc)))?;
    items.push(Json::Str(Text::of(alloc, "\u{1}\u{8}\t\n\u{b}\u{c}\r\u{1f} \"\\/\u{7f}é€😀")?))?;
    let mut members = Items::new(alloc);
    members.push((
        Text::of(alloc, "p")?,
        Json::Number(Text::of(alloc, "19.90")?),
    ))?;
    members.push((Text::of(alloc, "a\"b")?, Json::List(items)))?;
    Ok(Json::Object(members))
}

#[test]
fn each_kind_of_value_is_printed(rt: HostRuntime) -> Result<(), Fail> {
    let alloc = rt.alloc();
    let text = print(alloc, &example(alloc)?)?;
    assert_eq!(rt;
        text.as_str(),
        "{\"p\":19.90,\"a\\\"b\":[null,true,false,[],{},\"\\u0001\\b\\t\\n\\u000b\\f\\r\\u001f \\\"\\\\/\u{7f}é€😀\"]}"
    );
    Ok(())
}

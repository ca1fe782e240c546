use anyhow::{Result, anyhow};
use flow_base::Memory;
use json_print::print;
use json_value::{Json, copy, equal};
use std::alloc::Global;
use std::rt::Runtime;
use tree_items::Items;

/// Makes a value of so many lists, one in the other, copies it, compares the two, prints one and lets both go, which recurse
/// once for each level. Prints a line of the levels and of the bytes printed: where it is missing the stack was too small.
pub fn try_levels<R: Runtime<A = Global>>(rt: &R, levels: u32) -> Result<()> {
    let alloc = rt.alloc();
    let value = nested(alloc, levels).map_err(|_| anyhow!("out of memory"))?;
    let other = copy(alloc, &value).map_err(|_| anyhow!("out of memory"))?;
    let same = equal(&value, &other);
    let text = print(alloc, &value).map_err(|_| anyhow!("out of memory"))?;
    let bytes = text.len();
    println!(rt; "depth {levels} levels {bytes} bytes {same}")?;
    Ok(())
}

fn nested(alloc: Global, levels: u32) -> Result<Json, Memory> {
    let mut value = Json::Null;
    for _ in 0..levels {
        let mut items = Items::new(alloc);
        items.push(value)?;
        value = Json::List(items);
    }
    Ok(value)
}

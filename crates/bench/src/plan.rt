use crate::json::nanoseconds;
use anyhow::{Result, anyhow};
use flow_base::{Memory, Text};
use json_paths::{Need, Path, Place, Requires, Step, places};
use json_read::read;
use json_value::Json;
use merge_paths::place_entities;
use representations::{Gathered, gather};
use std::alloc::Global;
use std::rt::Runtime;
use std::time::Instant;
use tree_items::Items;

/// The representations of the last turn, and the nanoseconds of all turns.
#[derive(Clone, Copy)]
struct Flattening {
    distinct: usize,
    gathering: u64,
    placing: u64,
}

/// Times a Flatten over 100,000 entities with 1,000 distinct representations, and over twice as many: what it gathers and
/// what it places. Prints a line for each. What is made in a turn is let go after the clock was read.
pub fn time<R: Runtime<A = Global>>(rt: &R, turns: u32) -> Result<()> {
    time_one(rt, turns, 100_000)?;
    time_one(rt, turns, 200_000)
}

fn time_one<R: Runtime<A = Global>>(rt: &R, turns: u32, count: u64) -> Result<()> {
    let text = entities_text(rt.alloc(), count)?;
    let flattening = flatten_often(rt, text.as_bytes(), turns)?;
    tell(rt, turns, count, flattening)
}

fn tell<R: Runtime<A = Global>>(rt: &R, turns: u32, count: u64, spent: Flattening) -> Result<()> {
    let Flattening {
        distinct,
        gathering,
        placing,
    } = spent;
    println!(rt; "gather {count} entities {distinct} distinct {turns} turns {gathering} ns")?;
    println!(rt; "place {count} entities {distinct} distinct {turns} turns {placing} ns")?;
    Ok(())
}

fn flatten_often<R: Runtime<A = Global>>(rt: &R, text: &[u8], turns: u32) -> Result<Flattening> {
    let (path, needs) = item_ids(rt.alloc()).map_err(|_| anyhow!("out of memory"))?;
    let mut spent = Flattening {
        distinct: 0,
        gathering: 0,
        placing: 0,
    };
    for _ in 0..turns {
        spent = flatten_once(rt, text, &path, &needs, spent)?;
    }
    Ok(spent)
}

fn flatten_once<R: Runtime<A = Global>>(
    rt: &R,
    text: &[u8],
    path: &Path,
    needs: &Requires,
    before: Flattening,
) -> Result<Flattening> {
    let value = read(rt.alloc(), text).map_err(|fault| anyhow!("{fault:?}"))?;
    let (gathered, gathering) = gather_once(rt, &value, path, needs, before.gathering)?;
    let placing = place_once(rt, value, &gathered, before.placing)?;
    Ok(Flattening {
        distinct: gathered.distinct.len(),
        gathering,
        placing,
    })
}

fn gather_once<R: Runtime<A = Global>>(
    rt: &R,
    value: &Json,
    path: &Path,
    needs: &Requires,
    before: u64,
) -> Result<(Gathered, u64)> {
    let start = Instant::now(rt)?;
    let found = found(rt.alloc(), value, path)?;
    let gathered = gathered(rt.alloc(), value, found.as_slice(), needs)?;
    let spent = nanoseconds(rt, before, start)?;
    Ok((gathered, spent))
}

fn found(alloc: Global, value: &Json, path: &Path) -> Result<Vec<Place>> {
    places(alloc, value, path).map_err(|_| anyhow!("out of memory"))
}

fn gathered(alloc: Global, value: &Json, found: &[Place], needs: &Requires) -> Result<Gathered> {
    gather(alloc, value, found, needs).map_err(|_| anyhow!("out of memory"))
}

fn place_once<R: Runtime<A = Global>>(
    rt: &R,
    value: Json,
    gathered: &Gathered,
    before: u64,
) -> Result<u64> {
    let prices = prices(rt.alloc(), gathered.distinct.len()).map_err(|_| anyhow!("out of memory"))?;
    let start = Instant::now(rt)?;
    let _placed = placed(
        rt.alloc(),
        value,
        gathered.used_by.as_slice(),
        prices.as_slice(),
    )?;
    nanoseconds(rt, before, start)
}

fn placed(alloc: Global, value: Json, users: &[Items<Place>], entities: &[Json]) -> Result<Json> {
    place_entities(alloc, value, users, entities).map_err(|_| anyhow!("out of memory"))
}

/// So many items under `items`, with 1,000 distinct ids.
fn entities_text(alloc: Global, count: u64) -> Result<String> {
    let mut text = String::new(alloc);
    text.push_str("{\"items\":[null")?;
    for i in 0..count {
        let id = i % 1000;
        text.push_str(",{\"__typename\":\"Item\",\"id\":\"")?;
        text.push_str(format!(in alloc; "{id}")?.as_str())?;
        text.push_str("\",\"name\":\"a name\"}")?;
    }
    text.push_str("]}")?;
    Ok(text)
}

/// The path `items`, `@`, and the needs Item and `id`.
fn item_ids(alloc: Global) -> Result<(Path, Requires), Memory> {
    let mut steps = Items::new(alloc);
    steps.push(Step::Name(Text::of(alloc, "items")?))?;
    steps.push(Step::Each)?;
    let mut fields = Items::new(alloc);
    fields.push(Need {
        name: Text::of(alloc, "id")?,
        fields: Items::new(alloc),
    })?;
    let type_name = Text::of(alloc, "Item")?;
    Ok((Path { steps }, Requires { type_name, fields }))
}

fn prices(alloc: Global, count: usize) -> Result<Items<Json>, Memory> {
    let mut prices = Items::new(alloc);
    for _ in 0..count {
        prices.push(price(alloc)?)?;
    }
    Ok(prices)
}

fn price(alloc: Global) -> Result<Json, Memory> {
    let mut members = Items::new(alloc);
    let value = Json::Str(Text::of(alloc, "1.00")?);
    members.push((Text::of(alloc, "price")?, value))?;
    Ok(Json::Object(members))
}

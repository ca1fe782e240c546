use flow_base::{Memory, Text};
use json_paths::{Need, Path, Requires, Step};
use plan_tree::{Fetch, Node, Plan};
use std::alloc::Global;
use tree_items::Items;

fn step(alloc: Global, name: &str) -> Result<Step, Memory> {
    if name == "@" {
        return Ok(Step::Each);
    }
    Ok(Step::Name(Text::of(alloc, name)?))
}

/// The path with these steps, `@` for each element.
pub fn path(alloc: Global, names: &[&str]) -> Result<Path, Memory> {
    let mut steps = Items::new(alloc);
    for name in names {
        steps.push(step(alloc, name)?)?;
    }
    Ok(Path { steps })
}

/// Needs of these names, each of which has the inner needs `id` where its name is `owner`.
fn need(alloc: Global, name: &str) -> Result<Need, Memory> {
    let mut fields = Items::new(alloc);
    if name == "owner" {
        fields.push(need_leaf(alloc, "id")?)?;
    }
    Ok(Need {
        name: Text::of(alloc, name)?,
        fields,
    })
}

fn need_leaf(alloc: Global, name: &str) -> Result<Need, Memory> {
    Ok(Need {
        name: Text::of(alloc, name)?,
        fields: Items::new(alloc),
    })
}

/// Item with these members; of `owner` its `id`.
pub fn item(alloc: Global, names: &[&str]) -> Result<Requires, Memory> {
    let mut fields = Items::new(alloc);
    for name in names {
        fields.push(need(alloc, name)?)?;
    }
    Ok(Requires {
        type_name: Text::of(alloc, "Item")?,
        fields,
    })
}

fn fetch(alloc: Global, names: &[&str]) -> Result<Fetch, Memory> {
    let needs = match names {
        [] => None,
        _ => Some(item(alloc, names)?),
    };
    Ok(Fetch {
        sub: Text::of(alloc, "a")?,
        mutation: false,
        sel: Text::of(alloc, "")?,
        needs,
        variables: Items::new(alloc),
    })
}

pub fn flatten(alloc: Global, names: &[&str], fetch: u64) -> Result<Node, Memory> {
    Ok(Node::Flatten(path(alloc, names)?, fetch))
}

pub fn pair(alloc: Global, first: Node, second: Node) -> Result<Items<Node>, Memory> {
    let mut nodes = Items::new(alloc);
    nodes.push(first)?;
    nodes.push(second)?;
    Ok(nodes)
}

/// A plan whose fetches need these members of an item; the first is a root fetch.
pub fn plan(alloc: Global, root: Node, second: &[&str], third: &[&str]) -> Result<Plan, Memory> {
    let mut fetches = Items::new(alloc);
    fetches.push(fetch(alloc, &[])?)?;
    fetches.push(fetch(alloc, second)?)?;
    fetches.push(fetch(alloc, third)?)?;
    Ok(Plan { root, fetches })
}

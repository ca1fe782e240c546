ghost use Rattle.std.specs.Prelude.{◌≡◌};
ghost use Rattle.plan_exec.specs.Giving.{count_asked};

use crate::building::{flatten, pair, plan};
use flow_base::Memory;
use json_tree::{Json, JsonFault, print, read};
use plan_exec::{Asked, Done, Machine, Task};
use plan_tree::{Node, Plan};
use std::alloc::Global;
use std::test::Fail;
use tree_items::{Items, at};

fn count(asked: &Asked) -> usize
    ensures { result ≡ count_asked asked.now }
{
    match asked {
        Asked::Root => 1,
        Asked::Entities { distinct, .. } => distinct.len(),
    }
}

/// Gives these pieces for one of the tasks, where they are as many as it asks.
fn give_one(
    alloc: Global,
    machine: &mut Machine,
    which: usize,
    pieces: Items<Json>,
) -> Result<bool, Memory> {
    let tasks = machine.asks()?;
    let Some(task) = at(&tasks, which) else {
        return Ok(false);
    };
    if count(&task.asked) != pieces.len() {
        return Ok(false);
    }
    let mut results = Vec::new(alloc);
    results.push(Done {
        fetch: task.fetch,
        pieces,
    })?;
    machine.give(results)?;
    Ok(true)
}

/// The value at the end, or nothing where more is asked.
fn finished(alloc: Global, machine: Machine) -> Result<String, Fail> {
    if !machine.asks()?.is_empty() {
        return Ok(String::new(alloc));
    }
    let value = machine.finish();
    Ok(String::from_str(alloc, print(alloc, &value)?.as_str())?)
}

fn write_task(alloc: Global, text: &mut String, task: &Task) -> Result<(), Fail> {
    let number = task.fetch;
    text.push_str(format!(in alloc; "{number}")?.as_str())?;
    if let Asked::Entities { distinct, .. } = &task.asked {
        for rep in distinct.as_slice() {
            text.push_str(print(alloc, rep)?.as_str())?;
        }
    }
    text.push_str(" ")?;
    Ok(())
}

/// What is asked: the fetches' numbers, each with the representations for which it asks.
fn write_asks(alloc: Global, text: &mut String, machine: &Machine) -> Result<(), Fail> {
    let tasks = machine.asks()?;
    for task in &tasks {
        write_task(alloc, text, task)?;
    }
    text.push_str("| ")?;
    Ok(())
}

fn elements(alloc: Global, text: &str) -> Result<Items<Json>, JsonFault> {
    match read(alloc, text.as_bytes())? {
        Json::List(items) => Ok(items),
        _ => Ok(Items::new(alloc)),
    }
}

/// What is asked in each round, and the value at the end. A round gives pieces for one task, by its index.
fn transcript(alloc: Global, plan: &Plan, rounds: &[(usize, &str)]) -> Result<String, Fail> {
    let mut machine = Machine::start(alloc, plan)?;
    let mut text = String::new(alloc);
    for (which, pieces) in rounds {
        write_asks(alloc, &mut text, &machine)?;
        let pieces = elements(alloc, pieces)?;
        if !give_one(alloc, &mut machine, *which, pieces)? {
            text.push_str("not given ")?;
        }
    }
    text.push_str(finished(alloc, machine)?.as_str())?;
    Ok(text)
}

/// A root fetch, and then the price of what stands at these steps.
fn prices(alloc: Global, steps: &[&str]) -> Result<Plan, Memory> {
    let nodes = pair(alloc, Node::Fetch(0), flatten(alloc, steps, 1)?)?;
    plan(alloc, Node::Sequence(nodes), &["id"], &["id"])
}

/// A root fetch, and then price and stock side by side; the stock needs these members.
fn price_and_stock(alloc: Global, needs: &[&str]) -> Result<Plan, Memory> {
    let both = pair(
        alloc,
        flatten(alloc, &["one"], 1)?,
        flatten(alloc, &["one"], 2)?,
    )?;
    let nodes = pair(alloc, Node::Fetch(0), Node::Parallel(both))?;
    plan(alloc, Node::Sequence(nodes), &["id"], needs)
}

#[test]
fn each_item_is_asked_for_once(rt: HostRuntime) -> Result<(), Fail> {
    let alloc = rt.alloc();
    let rounds = [
        (
            0,
            "[{\"items\":[{\"__typename\":\"Item\",\"id\":\"1\"},{\"__typename\":\"Item\",\"id\":\"2\"},{\"__typename\":\"Item\",\"id\":\"1\"}]}]",
        ),
        (0, "[{\"price\":\"1.00\"},{\"price\":\"2.00\"}]"),
    ];
    assert_eq!(rt;
        transcript(alloc, &prices(alloc, &["items", "@"])?, &rounds)?.as_str(),
        "0 | 1{\"__typename\":\"Item\",\"id\":\"1\"}{\"__typename\":\"Item\",\"id\":\"2\"} | {\"items\":[{\"__typename\":\"Item\",\"id\":\"1\",\"price\":\"1.00\"},{\"__typename\":\"Item\",\"id\":\"2\",\"price\":\"2.00\"},{\"__typename\":\"Item\",\"id\":\"1\",\"price\":\"1.00\"}]}"
    );
    Ok(())
}

#[test]
fn nothing_to_ask_is_passed_over(rt: HostRuntime) -> Result<(), Fail> {
    let alloc = rt.alloc();
    let rounds = [(0, "[{\"items\":[null,{\"__typename\":\"Item\"}]}]")];
    assert_eq!(rt;
        transcript(alloc, &prices(alloc, &["items", "@"])?, &rounds)?.as_str(),
        "0 | {\"items\":[null,{\"__typename\":\"Item\"}]}"
    );
    let absent = [(0, "[null]")];
    assert_eq!(rt;
        transcript(alloc, &prices(alloc, &["one"])?, &absent)?.as_str(),
        "0 | {}"
    );
    Ok(())
}

#[test]
fn both_start_from_one_value(rt: HostRuntime) -> Result<(), Fail> {
    let alloc = rt.alloc();
    let one = "[{\"one\":{\"__typename\":\"Item\",\"id\":\"2\"}}]";
    let in_order = [
        (0, one),
        (0, "[{\"price\":\"2.00\"}]"),
        (0, "[{\"stock\":7}]"),
    ];
    assert_eq!(rt;
        transcript(alloc, &price_and_stock(alloc, &["id"])?, &in_order)?.as_str(),
        "0 | 1{\"__typename\":\"Item\",\"id\":\"2\"} 2{\"__typename\":\"Item\",\"id\":\"2\"} | 2{\"__typename\":\"Item\",\"id\":\"2\"} | {\"one\":{\"__typename\":\"Item\",\"id\":\"2\",\"price\":\"2.00\",\"stock\":7}}"
    );
    // The stock came first; it stands behind the price.
    let stock_first = [
        (0, one),
        (1, "[{\"stock\":7}]"),
        (0, "[{\"price\":\"2.00\"}]"),
    ];
    assert_eq!(rt;
        transcript(alloc, &price_and_stock(alloc, &["id"])?, &stock_first)?.as_str(),
        "0 | 1{\"__typename\":\"Item\",\"id\":\"2\"} 2{\"__typename\":\"Item\",\"id\":\"2\"} | 1{\"__typename\":\"Item\",\"id\":\"2\"} | {\"one\":{\"__typename\":\"Item\",\"id\":\"2\",\"price\":\"2.00\",\"stock\":7}}"
    );
    Ok(())
}

#[test]
fn a_sibling_is_not_read(rt: HostRuntime) -> Result<(), Fail> {
    let alloc = rt.alloc();
    let rounds = [
        (0, "[{\"one\":{\"__typename\":\"Item\",\"id\":\"2\"}}]"),
        (0, "[{\"price\":\"2.00\"}]"),
    ];
    assert_eq!(rt;
        transcript(alloc, &price_and_stock(alloc, &["id", "price"])?, &rounds)?.as_str(),
        "0 | 1{\"__typename\":\"Item\",\"id\":\"2\"} | {\"one\":{\"__typename\":\"Item\",\"id\":\"2\",\"price\":\"2.00\"}}"
    );
    Ok(())
}

#[test]
fn an_absent_entity_changes_nothing(rt: HostRuntime) -> Result<(), Fail> {
    let alloc = rt.alloc();
    let rounds = [
        (0, "[{\"one\":{\"__typename\":\"Item\",\"id\":\"2\"}}]"),
        (0, "[null]"),
        (0, "[{\"stock\":7}]"),
    ];
    assert_eq!(rt;
        transcript(alloc, &price_and_stock(alloc, &["id"])?, &rounds)?.as_str(),
        "0 | 1{\"__typename\":\"Item\",\"id\":\"2\"} 2{\"__typename\":\"Item\",\"id\":\"2\"} | 2{\"__typename\":\"Item\",\"id\":\"2\"} | {\"one\":{\"__typename\":\"Item\",\"id\":\"2\",\"stock\":7}}"
    );
    Ok(())
}

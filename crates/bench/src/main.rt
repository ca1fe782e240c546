//! Times the product's hot paths on what it is given: `bench json TURNS` reads one JSON text from standard input, and
//! prints for reading and for printing it a line of bytes, turns and nanoseconds of all turns together; `bench documents
//! TURNS` does so for reading a GraphQL document and writing its canonical text, `bench http TURNS` for reading a stream of
//! requests, `bench request TURNS` for the first request of a case, and `bench shape TURNS` for shaping data by a schema and a
//! query. `bench plan TURNS` makes what it works on itself: entities that are gathered and placed. `bench turns THREADS TURNS`
//! times threads that share one book, `bench book EVENTS` the calls on a book that is almost full, and `bench depth LEVELS` does
//! what recurses over a JSON value.
#![tactic(auto)]

mod book;
mod depth;
mod documents;
mod http;
mod json;
mod plan;
mod request;
mod shape;
mod turns;

use anyhow::{Context, Result, bail};
use std::alloc::Global;
use std::env;
use std::rt::Runtime;
use std::sync::Wait;
use std::thread::Threads;

const USAGE: &str = "usage: bench book EVENTS
       bench depth LEVELS
       bench json TURNS < TEXT
       bench documents TURNS < DOCUMENT
       bench http TURNS < REQUESTS
       bench plan TURNS
       bench request TURNS < CASE
       bench shape TURNS < DATA
       bench turns THREADS TURNS
Times the reading and the printing of a JSON text or of a GraphQL document, the reading of a stream of HTTP requests, the
gathering and placing of entities, the first request of a case (with nothing kept, and with everything kept), or the shaping
of data, each TURNS times; TURNS turns of each of some threads on one book; calls on a book of EVENTS events; or, untimed, what
recurses over a JSON value of LEVELS levels.";

fn main(rt: HostRuntime) -> Result<()> {
    run(&rt)
}

fn run<R: Runtime<A = Global> + Threads + Wait + Clone + Drop + Send + Sync>(rt: &R) -> Result<()> {
    let mut words = env::args(rt)?;
    let _ = words.next();
    let Some(what) = words.next() else {
        rt.println(USAGE)?;
        return Ok(());
    };
    let first = number(words.next())?;
    if what.as_str() == "turns" {
        let each = number(words.next())?;
        return turns::time(rt, first, each);
    }
    time(rt, what.as_str(), first)
}

fn number(word: Option<String>) -> Result<u32> {
    match word {
        Some(digits) => digits.parse::<u32>().context("TURNS is a number"),
        None => bail!("{USAGE}"),
    }
}

fn time<R: Runtime<A = Global>>(rt: &R, what: &str, turns: u32) -> Result<()> {
    match what {
        "book" => book::time(rt, turns),
        "depth" => depth::try_levels(rt, turns),
        "json" => json::time(rt, turns),
        "documents" => documents::time(rt, turns),
        "http" => http::time(rt, turns),
        "plan" => plan::time(rt, turns),
        "request" => request::time(rt, turns),
        "shape" => shape::time(rt, turns),
        _ => bail!("{USAGE}"),
    }
}

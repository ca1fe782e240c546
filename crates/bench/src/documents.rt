use crate::json::nanoseconds;
use anyhow::{Result, anyhow};
use flow_base::Text;
use gql_print::canonical;
use gql_syntax::parse;
use gql_terms::Document;
use std::alloc::Global;
use std::io::Read;
use std::rt::Runtime;
use std::time::Instant;

/// The bytes of the last text that was written, and the nanoseconds of all turns.
#[derive(Clone, Copy)]
struct Written {
    length: usize,
    spent: u64,
}

/// Reads one GraphQL document from standard input, times the reading of it and the writing of its canonical text, and prints a
/// line for each. What is made in a turn is let go after the clock was read.
pub fn time<R: Runtime<A = Global>>(rt: &R, turns: u32) -> Result<()> {
    let text = given(rt)?;
    time_parse(rt, &text, turns)?;
    time_canonical(rt, &text, turns)
}

fn given<R: Runtime<A = Global>>(rt: &R) -> Result<Text> {
    let mut bytes = Vec::new(rt.alloc());
    rt.reader().read_to_end(&mut bytes)?;
    match String::from_utf8(bytes) {
        Ok(source) => Text::from_string(source).map_err(|_| anyhow!("out of memory")),
        Err(_) => Err(anyhow!("the document is not UTF-8")),
    }
}

fn time_parse<R: Runtime<A = Global>>(rt: &R, text: &Text, turns: u32) -> Result<()> {
    let reading = parse_often(rt, text, turns)?;
    let length = text.len();
    println!(rt; "parse {length} bytes {turns} turns {reading} ns")?;
    Ok(())
}

fn parse_often<R: Runtime<A = Global>>(rt: &R, text: &Text, turns: u32) -> Result<u64> {
    let mut reading = 0;
    for _ in 0..turns {
        reading = parse_once(rt, text, reading)?;
    }
    Ok(reading)
}

fn parse_once<R: Runtime<A = Global>>(rt: &R, text: &Text, before: u64) -> Result<u64> {
    let start = Instant::now(rt)?;
    let _document = parsed(rt.alloc(), text)?;
    nanoseconds(rt, before, start)
}

fn parsed(alloc: Global, text: &Text) -> Result<Document> {
    parse(alloc, text).map_err(|fault| anyhow!("{fault:?}"))
}

fn time_canonical<R: Runtime<A = Global>>(rt: &R, text: &Text, turns: u32) -> Result<()> {
    let document = parsed(rt.alloc(), text)?;
    let Written { length, spent } = write_often(rt, &document, turns)?;
    println!(rt; "canonical {length} bytes {turns} turns {spent} ns")?;
    Ok(())
}

fn write_often<R: Runtime<A = Global>>(rt: &R, document: &Document, turns: u32) -> Result<Written> {
    let mut written = Written {
        length: 0,
        spent: 0,
    };
    for _ in 0..turns {
        written = write_once(rt, document, written.spent)?;
    }
    Ok(written)
}

fn write_once<R: Runtime<A = Global>>(rt: &R, document: &Document, before: u64) -> Result<Written> {
    let start = Instant::now(rt)?;
    let text = canonical(rt.alloc(), document).map_err(|_| anyhow!("out of memory"))?;
    let spent = nanoseconds(rt, before, start)?;
    Ok(Written {
        length: text.len(),
        spent,
    })
}

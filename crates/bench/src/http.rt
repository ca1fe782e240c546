use crate::json::nanoseconds;
use anyhow::{Result, anyhow};
use flow_base::{Bytes, MemSource};
use http_wire::{Kept, read_message};
use std::alloc::Global;
use std::io::Read;
use std::rt::Runtime;
use std::time::Instant;

/// What a stream of requests holds.
#[derive(Clone, Copy)]
struct Counted {
    messages: u64,
    body_bytes: u64,
}

/// What the last turn read, and the nanoseconds of all turns.
#[derive(Clone, Copy)]
struct Reading {
    counted: Counted,
    spent: u64,
}

/// Reads a stream of pipelined requests from standard input, times the reading of all of them, and prints a line.
pub fn time<R: Runtime<A = Global>>(rt: &R, turns: u32) -> Result<()> {
    let mut bytes = Vec::new(rt.alloc());
    rt.reader().read_to_end(&mut bytes)?;
    let reading = read_often(rt, bytes.as_slice(), turns)?;
    tell(rt, bytes.len(), turns, reading)
}

fn tell<R: Runtime<A = Global>>(rt: &R, length: usize, turns: u32, reading: Reading) -> Result<()> {
    let Reading { counted, spent } = reading;
    let Counted {
        messages,
        body_bytes,
    } = counted;
    println!(rt;
        "http {length} bytes {messages} messages {body_bytes} in bodies {turns} turns {spent} ns"
    )?;
    Ok(())
}

fn read_often<R: Runtime<A = Global>>(rt: &R, bytes: &[u8], turns: u32) -> Result<Reading> {
    let mut reading = Reading {
        counted: Counted {
            messages: 0,
            body_bytes: 0,
        },
        spent: 0,
    };
    for _ in 0..turns {
        reading = read_once(rt, bytes, reading.spent)?;
    }
    Ok(reading)
}

fn read_once<R: Runtime<A = Global>>(rt: &R, bytes: &[u8], before: u64) -> Result<Reading> {
    let mut source = source_of(rt.alloc(), bytes)?;
    let start = Instant::now(rt)?;
    let counted = read_all(rt.alloc(), &mut source)?;
    let spent = nanoseconds(rt, before, start)?;
    Ok(Reading { counted, spent })
}

fn source_of(alloc: Global, bytes: &[u8]) -> Result<MemSource> {
    match Bytes::of(alloc, bytes) {
        Ok(stream) => Ok(MemSource::of(stream, Vec::new(alloc), Vec::new(alloc))),
        Err(_) => Err(anyhow!("out of memory")),
    }
}

/// Reads the messages of a stream to its end.
fn read_all(alloc: Global, source: &mut MemSource) -> Result<Counted> {
    let mut kept = Kept::empty(alloc);
    let mut counted = Counted {
        messages: 0,
        body_bytes: 0,
    };
    for _ in 0..u64::MAX {
        let Some(size) = next_size(alloc, source, &mut kept)? else {
            break;
        };
        counted.messages = counted.messages.saturating_add(1);
        counted.body_bytes = counted.body_bytes.saturating_add(size);
    }
    Ok(counted)
}

/// The size of the next message's body, or none at the stream's end.
fn next_size(alloc: Global, source: &mut MemSource, kept: &mut Kept) -> Result<Option<u64>> {
    match read_message(alloc, source, kept) {
        Ok(Some(message)) => Ok(Some(message.body.len() as u64)),
        Ok(None) => Ok(None),
        Err(fault) => Err(anyhow!("{fault:?}")),
    }
}

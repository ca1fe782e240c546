use anyhow::{Result, anyhow};
use json_print::print;
use json_read::read;
use std::alloc::Global;
use std::io::Read;
use std::rt::Runtime;
use std::time::Instant;

/// Reads one JSON text from standard input, times the reading and the printing of it, and prints a line for each. What
/// is made in a turn is let go after the clock was read.
pub fn time<R: Runtime<A = Global>>(rt: &R, turns: u32) -> Result<()> {
    let alloc = rt.alloc();
    let mut text = Vec::new(alloc);
    rt.reader().read_to_end(&mut text)?;
    let mut reading = 0;
    for _ in 0..turns {
        let start = Instant::now(rt)?;
        let value = read(alloc, &text).map_err(|fault| anyhow!("{fault:?}"))?;
        reading = nanoseconds(rt, reading, start)?;
    }
    let value = read(alloc, &text).map_err(|fault| anyhow!("{fault:?}"))?;
    let mut printing = 0;
    let mut printed = 0;
    for _ in 0..turns {
        let start = Instant::now(rt)?;
        let out = print(alloc, &value).map_err(|_| anyhow!("out of memory"))?;
        printing = nanoseconds(rt, printing, start)?;
        printed = out.len();
    }
    let bytes = text.len();
    println!(rt; "read {bytes} bytes {turns} turns {reading} ns")?;
    println!(rt; "print {printed} bytes {turns} turns {printing} ns")?;
    Ok(())
}

/// What was counted before, and the nanoseconds since the start.
pub fn nanoseconds<R: Runtime>(rt: &R, before: u64, start: Instant) -> Result<u64> {
    let spent = u64::try_from(start.elapsed(rt)?.as_nanos()).unwrap_or(u64::MAX);
    Ok(before.saturating_add(spent))
}

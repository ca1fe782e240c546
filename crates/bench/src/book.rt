ghost use Rattle.std.specs.Prelude.{◌≡◌, ◌≤◌, ◌*◌, IfOk};
ghost use Rattle.cache_book.specs.Owed.{IsOwedAnswer};
ghost use Rattle.cache_book.specs.Settling.{MaySettle, IsInRange};
ghost use Rattle.cache_model.specs.State.{IsWithinRanges};

use anyhow::{Result, anyhow, bail};
use cache_book::{Book, Fill, Found, Notice, Pass, Report};
use cache_terms::{Key, Limits, Marks, Offer, Tags, Target, Verdict};
use flow_base::{Memory, Text};
use std::alloc::Global;
use std::rt::Runtime;
use std::time::Instant;

/// The nanoseconds of each kind of call.
#[derive(Clone, Copy)]
struct Spent {
    hit: u64,
    miss: u64,
    settle: u64,
    invalidate: u64,
}

const NONE: Spent = Spent {
    hit: 0,
    miss: 0,
    settle: 0,
    invalidate: 0,
};

/// Fills a book of so many events with pieces that have a tag of their own each, but for a tenth of the events. Over these
/// it times a hit, a miss, the miss's settle and an invalidation of one piece's tag, in turns, and prints a line of events,
/// turns and the nanoseconds of each kind of call.
pub fn time<R: Runtime<A = Global>>(rt: &R, events: u32) -> Result<()> {
    if events < 1000 || events > 65536 {
        bail!("EVENTS is a number from 1000 to 65536");
    }
    let limits = Limits {
        events: events as u64,
        bytes: 268435456,
    };
    let mut book = Book::open(rt.alloc(), limits, 0).map_err(|_| anyhow!("out of memory"))?;
    let pass = book.begin(0);
    let turns = limits.events / 50;
    let pieces = (limits.events - 5 * turns) / 3 - 1;
    for number in 0..pieces {
        fill(rt.alloc(), &mut book, &pass, number).map_err(|_| anyhow!("out of memory"))?;
    }
    let mut spent = NONE;
    for turn in 0..turns {
        spent = one_turn(rt, &mut book, &pass, pieces, turn, spent)?;
    }
    let Spent {
        hit,
        miss,
        settle,
        invalidate,
    } = spent;
    println!(rt;
        "book {events} events {turns} turns hit {hit} miss {miss} settle {settle} invalidate {invalidate} ns"
    )?;
    Ok(())
}

fn key(alloc: Global, number: u64) -> Result<Key, Memory> {
    Ok(Key {
        sub: Text::of(alloc, "products")?,
        type_name: Text::of(alloc, "Product")?,
        rep: Text::from_string(format!(in alloc;
            r#"{{"__typename":"Product","upc":"{number}"}}"#
        )?)?,
        sel: Text::of(alloc, "{ name price }")?,
    })
}

fn tag(alloc: Global, number: u64) -> Result<Text, Memory> {
    Text::from_string(format!(in alloc; "p{number}")?)
}

fn report(alloc: Global, number: u64) -> Result<Report, Memory>
    ensures { IfOk result IsInRange }
{
    let mut tags = Vec::new(alloc);
    tags.push(tag(alloc, number)?)?;
    Ok(Report::Got(Offer {
        value: Text::of(alloc, r#"{"name":"Table","price":19.90}"#)?,
        tags: Tags::of(alloc, tags)?,
        verdict: Verdict {
            lifetime: 3600,
            age: 0,
            private: false,
            no_store: false,
        },
        marks: Marks {
            status: 200,
            errors: false,
            absent: false,
            mutation: false,
            uncached: false,
        },
    }))
}

/// What one look for one key finds.
fn look_once(alloc: Global, book: &mut Book, pass: &Pass, key: Key) -> Result<Found, Memory>
    ensures { IfOk result (λ found. IsOwedAnswer book.new found) }
{
    let mut asks = Vec::new(alloc);
    asks.push(key)?;
    let mut answers = book.look(pass, None, asks, 1000)?;
    let found = answers.remove(0);
    answers.destroy_empty();
    Ok(found)
}

/// Settles what was not found, and lets go of a hit.
fn settle_found(book: &mut Book, found: Found, report: Report)
    requires may { IsOwedAnswer book.old found }
    requires range { IsInRange report }
{
    match found {
        Found::Miss { lookup: _, permit } => {
            let _settled = book.settle(Fill { permit, report });
        }
        Found::Bypass { permit } => {
            let _settled = book.settle(Fill { permit, report });
        }
        Found::Hit {
            lookup: _,
            stored: _,
            value: _value,
            left_ms: _,
            private: _,
        } => {}
    }
}

/// Puts a piece into the book.
fn fill(alloc: Global, book: &mut Book, pass: &Pass, number: u64) -> Result<(), Memory> {
    let report = report(alloc, number)?;
    let key = key(alloc, number)?;
    let found = look_once(alloc, book, pass, key)?;
    settle_found(book, found, report);
    Ok(())
}

/// The nanoseconds since the start, and none where the clock fails.
fn since<R: Runtime>(rt: &R, start: Instant) -> u64 {
    match start.elapsed(rt) {
        Ok(spent) => u64::try_from(spent.as_nanos()).unwrap_or(u64::MAX),
        Err(_) => 0,
    }
}

/// A look for a piece that is kept.
fn time_hit<R: Runtime<A = Global>>(
    rt: &R,
    book: &mut Book,
    pass: &Pass,
    number: u64,
) -> Result<u64> {
    let alloc = rt.alloc();
    let key = key(alloc, number).map_err(|_| anyhow!("out of memory"))?;
    let start = Instant::now(rt)?;
    let found = look_once(alloc, book, pass, key).map_err(|_| anyhow!("out of memory"))?;
    let spent = since(rt, start);
    settle_found(book, found, Report::Failed);
    Ok(spent)
}

/// A look for a piece that is not kept, and its settle.
fn time_miss<R: Runtime<A = Global>>(
    rt: &R,
    book: &mut Book,
    pass: &Pass,
    number: u64,
) -> Result<(u64, u64)> {
    let alloc = rt.alloc();
    let report = report(alloc, number).map_err(|_| anyhow!("out of memory"))?;
    let key = key(alloc, number).map_err(|_| anyhow!("out of memory"))?;
    let start = Instant::now(rt)?;
    let found = look_once(alloc, book, pass, key).map_err(|_| anyhow!("out of memory"))?;
    let looked = since(rt, start);
    settle_found(book, found, report);
    Ok((looked, since(rt, start).saturating_sub(looked)))
}

/// An invalidation of the tag of one piece.
fn time_void<R: Runtime<A = Global>>(rt: &R, book: &mut Book, number: u64) -> Result<u64> {
    let notice = notice(rt.alloc(), number).map_err(|_| anyhow!("out of memory"))?;
    let start = Instant::now(rt)?;
    let _voided = book.invalidate(0, notice);
    Ok(since(rt, start))
}

fn notice(alloc: Global, number: u64) -> Result<Notice, Memory> {
    let sub = Text::of(alloc, "products")?;
    Notice::of(&Target::Tag(sub, tag(alloc, number)?))
}

fn one_turn<R: Runtime<A = Global>>(
    rt: &R,
    book: &mut Book,
    pass: &Pass,
    pieces: u64,
    turn: u64,
    spent: Spent,
) -> Result<Spent> {
    let hit = time_hit(rt, book, pass, turn)?;
    let (miss, settle) = time_miss(rt, book, pass, pieces.saturating_add(turn))?;
    let invalidate = time_void(rt, book, pieces.saturating_sub(turn))?;
    Ok(Spent {
        hit: spent.hit.saturating_add(hit),
        miss: spent.miss.saturating_add(miss),
        settle: spent.settle.saturating_add(settle),
        invalidate: spent.invalidate.saturating_add(invalidate),
    })
}

//! How the book is called from code.
ghost use Rattle.std.specs.Prelude.{IfOk};
ghost use Rattle.cache_book.specs.Settling.{IsInRange};
ghost use Rattle.cache_book.specs.declared.permit.Report.TheVariants.{Got};

use crate::acts::{one, only};
use crate::offers::{offered, stated};
use cache_book::{Book, Fill, Found, Pass, Report};
use cache_terms::{Key, Limits, Offer, Tags};
use flow_base::{Memory, Text};
use std::alloc::Global;
use std::test::*;

/// The value of a piece: what the book holds, or else what was fetched, which is then offered to the book.
fn value_of(
    alloc: Global,
    book: &mut Book,
    pass: Pass,
    key: Key,
    now: u64,
    fetched: Offer,
) -> Result<Text, Memory>
    requires { IsInRange (Got fetched) }
{
    let value = fetched.value.copy()?;
    let answers = book.look(&pass, None, one(alloc, key)?, now)?;
    let permit = match only(answers) {
        Found::Hit {
            lookup: _,
            stored: _,
            value,
            left_ms: _,
            private: _,
        } => return Ok(value),
        Found::Miss { lookup: _, permit } => permit,
        Found::Bypass { permit } => permit,
    };
    let _settled = book.settle(Fill {
        permit,
        report: Report::Got(fetched),
    });
    Ok(value)
}

/// A piece of the product 1.
fn key(alloc: Global) -> Result<Key, Memory> {
    Ok(Key {
        sub: Text::of(alloc, "products")?,
        type_name: Text::of(alloc, "Product")?,
        rep: Text::of(alloc, "upc:1")?,
        sel: Text::of(alloc, "name")?,
    })
}

/// A public reply of status 200 with no tags that is good for 60 seconds.
fn reply(alloc: Global, value: &str) -> Result<Offer, Memory>
    ensures { IfOk result (λ offer. IsInRange (Got offer)) }
{
    let tags = Tags::of(alloc, Vec::new(alloc))?;
    Ok(offered(200, stated(60, 0, false), tags, Text::of(alloc, value)?))
}

#[test]
fn a_piece_is_fetched_once(rt: HostRuntime) -> Result<(), Memory> {
    let alloc = rt.alloc();
    let limits = Limits {
        events: 64,
        bytes: 4096,
    };
    let mut book = Book::open(alloc, limits, 0)?;
    let pass = book.begin(1);
    let first = value_of(
        alloc,
        &mut book,
        pass,
        key(alloc)?,
        0,
        reply(alloc, "Table")?,
    )?;
    assert!(rt; first.as_str() == "Table");
    let second = value_of(
        alloc,
        &mut book,
        pass,
        key(alloc)?,
        59_999,
        reply(alloc, "Chair")?,
    )?;
    assert!(rt; second.as_str() == "Table");
    let third = value_of(
        alloc,
        &mut book,
        pass,
        key(alloc)?,
        60_000,
        reply(alloc, "Chair")?,
    )?;
    assert!(rt; third.as_str() == "Chair");
    Ok(())
}

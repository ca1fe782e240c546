//! Names with a mark between them.

ghost use Rattle.std.specs.Prelude.{◌≡◌};
ghost use Rattle.token_read.specs.Parse as parse;
ghost use Rattle.gql_schema.specs.Grammar.{is};
ghost use Rattle.gql_schema.specs.Reading as spec;
ghost use Rattle.gql_schema.specs.Reads as reads;
ghost use Rattle.gql_schema.specs.Reads.{Reads, prefixed};

use crate::tokens::{Left, Test};
use crate::words::Word;
use flow_base::Text;
use gql_parser::Stop;
use gql_tokens::Kind;
use std::alloc::Global;
use tree_items::Items;

#[tactic(auto, unfolding(crate::specs::Reading::leading))]
fn leading(left: &mut Left<'_, '_>, kind: Kind) -> Result<(), Stop>
    ensures { Reads (spec.leading kind left.old) result left.new }
{
    if !left.sees(Test::Is(kind)) {
        return Ok(());
    }
    left.one(Test::Is(kind))?;
    Ok(())
}

fn next_name(alloc: Global, left: &mut Left<'_, '_>, kind: Kind, test: Test) -> Result<Text, Stop>
    ensures { Reads (spec.next_name kind (reads.passes test) left.old) result left.new }
{
    left.one(Test::Is(kind))?;
    let name = left.text(alloc, test)?;
    Ok(name)
}

fn more_names(
    alloc: Global,
    left: &mut Left<'_, '_>,
    kind: Kind,
    test: Test,
    found: Items<Text>,
) -> Result<Items<Text>, Stop>
    ensures { Reads (prefixed found (parse.many (is kind)
        (spec.next_name kind (reads.passes test)) left.old)) result left.new }
{
    let mut found = found;
    for _ in 0..left.len() {
        if !left.sees(Test::Is(kind)) {
            return Ok(found);
        }
        found.push(next_name(alloc, left, kind, test)?)?;
    }
    Ok(found)
}

/// Names that pass the test, with this mark between them, and maybe before the first.
#[tactic(auto, unfolding(crate::specs::Reading::joined))]
pub fn joined(
    alloc: Global,
    left: &mut Left<'_, '_>,
    kind: Kind,
    test: Test,
) -> Result<Items<Text>, Stop>
    ensures { Reads (spec.joined kind (reads.passes test) left.old) result left.new }
{
    leading(left, kind)?;
    let mut found = Items::new(alloc);
    found.push(left.text(alloc, test)?)?;
    let found = more_names(alloc, left, kind, test, found)?;
    Ok(found)
}

/// The interfaces of a type, where it has some (section 3.6).
#[tactic(auto, unfolding(crate::specs::Reading::implements))]
pub fn implements(alloc: Global, left: &mut Left<'_, '_>) -> Result<Items<Text>, Stop>
    ensures { Reads (spec.implements left.old) result left.new }
{
    if !left.sees(Test::Word(Word::Implements)) {
        return Ok(Items::new(alloc));
    }
    left.one(Test::Word(Word::Implements))?;
    let found = joined(alloc, left, Kind::Amp, Test::Name)?;
    Ok(found)
}

/// The members of a union (section 3.8).
#[tactic(auto, unfolding(crate::specs::Reading::members))]
pub fn members(alloc: Global, left: &mut Left<'_, '_>) -> Result<Items<Text>, Stop>
    ensures { Reads (spec.members left.old) result left.new }
{
    left.one(Test::Is(Kind::Equals))?;
    let found = joined(alloc, left, Kind::Bar, Test::Name)?;
    Ok(found)
}

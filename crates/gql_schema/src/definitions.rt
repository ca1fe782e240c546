//! Definitions and whole schemas.

ghost use Rattle.std.specs.Prelude.{◌≡◌};
ghost use Rattle.gql_schema.specs.Grammar as grammar;
ghost use Rattle.gql_schema.specs.Reading as spec;
ghost use Rattle.gql_schema.specs.Reads.{Reads, prefixed};

use crate::fields::{arguments, description, fields, input_fields, values};
use crate::names::{implements, joined, members};
use crate::terms::{Body, Definition, Part};
use crate::tokens::{Left, Test};
use crate::words::Word;
use gql_parser::Stop;
use gql_terms::Refusal;
use gql_tokens::Kind;
use std::alloc::Global;
use tree_items::Items;

#[tactic(auto, unfolding(crate::specs::Reading::scalar))]
fn scalar(alloc: Global, left: &mut Left<'_, '_>) -> Result<Part, Stop>
    ensures { Reads (spec.scalar left.old) result left.new }
{
    left.one(Test::Word(Word::Scalar))?;
    let name = left.text(alloc, Test::Name)?;
    left.directives(alloc)?;
    Ok(Part::Type(Definition {
        name,
        body: Body::Scalar,
    }))
}

#[tactic(auto, unfolding(crate::specs::Reading::object))]
fn object(alloc: Global, left: &mut Left<'_, '_>) -> Result<Part, Stop>
    ensures { Reads (spec.object left.old) result left.new }
{
    left.one(Test::Word(Word::Type))?;
    let name = left.text(alloc, Test::Name)?;
    let interfaces = implements(alloc, left)?;
    left.directives(alloc)?;
    let fields = fields(alloc, left)?;
    Ok(Part::Type(Definition {
        name,
        body: Body::Object { interfaces, fields },
    }))
}

#[tactic(auto, unfolding(crate::specs::Reading::interface))]
fn interface(alloc: Global, left: &mut Left<'_, '_>) -> Result<Part, Stop>
    ensures { Reads (spec.interface left.old) result left.new }
{
    left.one(Test::Word(Word::Interface))?;
    let name = left.text(alloc, Test::Name)?;
    let interfaces = implements(alloc, left)?;
    left.directives(alloc)?;
    let fields = fields(alloc, left)?;
    Ok(Part::Type(Definition {
        name,
        body: Body::Interface { interfaces, fields },
    }))
}

#[tactic(auto, unfolding(crate::specs::Reading::union))]
fn union(alloc: Global, left: &mut Left<'_, '_>) -> Result<Part, Stop>
    ensures { Reads (spec.union left.old) result left.new }
{
    left.one(Test::Word(Word::Union))?;
    let name = left.text(alloc, Test::Name)?;
    left.directives(alloc)?;
    let members = members(alloc, left)?;
    Ok(Part::Type(Definition {
        name,
        body: Body::Union(members),
    }))
}

#[tactic(auto, unfolding(crate::specs::Reading::enumeration))]
fn enumeration(alloc: Global, left: &mut Left<'_, '_>) -> Result<Part, Stop>
    ensures { Reads (spec.enumeration left.old) result left.new }
{
    left.one(Test::Word(Word::Enum))?;
    let name = left.text(alloc, Test::Name)?;
    left.directives(alloc)?;
    let values = values(alloc, left)?;
    Ok(Part::Type(Definition {
        name,
        body: Body::Enum(values),
    }))
}

#[tactic(auto, unfolding(crate::specs::Reading::input_type))]
fn input_type(alloc: Global, left: &mut Left<'_, '_>) -> Result<Part, Stop>
    ensures { Reads (spec.input_type left.old) result left.new }
{
    left.one(Test::Word(Word::Input))?;
    let name = left.text(alloc, Test::Name)?;
    left.directives(alloc)?;
    let fields = input_fields(alloc, left)?;
    Ok(Part::Type(Definition {
        name,
        body: Body::Input(fields),
    }))
}

#[tactic(auto, unfolding(crate::specs::Reading::repeatable))]
fn repeatable(left: &mut Left<'_, '_>) -> Result<(), Stop>
    ensures { Reads (spec.repeatable left.old) result left.new }
{
    if !left.sees(Test::Word(Word::Repeatable)) {
        return Ok(());
    }
    left.one(Test::Word(Word::Repeatable))?;
    Ok(())
}

#[tactic(auto, unfolding(crate::specs::Reading::directive_definition))]
fn directive_definition(alloc: Global, left: &mut Left<'_, '_>) -> Result<Part, Stop>
    ensures { Reads (spec.directive_definition left.old) result left.new }
{
    left.one(Test::Word(Word::Directive))?;
    left.one(Test::Is(Kind::At))?;
    left.text(alloc, Test::Name)?;
    arguments(alloc, left)?;
    repeatable(left)?;
    left.one(Test::Is(Kind::On))?;
    joined(alloc, left, Kind::Bar, Test::Word(Word::Location))?;
    Ok(Part::Directive)
}

#[tactic(auto, unfolding(crate::specs::Reading::root_by))]
fn root_by(left: &mut Left<'_, '_>, kind: Kind, word: Word) -> Result<(), Stop>
    ensures { Reads (spec.root_by kind word left.old) result left.new }
{
    left.one(Test::Is(kind))?;
    left.one(Test::Is(Kind::Colon))?;
    left.one(Test::Word(word))?;
    Ok(())
}

#[tactic(auto, unfolding(crate::specs::Reading::may_root))]
fn may_root(left: &mut Left<'_, '_>, kind: Kind, word: Word) -> Result<(), Stop>
    ensures { Reads (spec.may_root kind word left.old) result left.new }
{
    if !left.sees(Test::Is(kind)) {
        return Ok(());
    }
    root_by(left, kind, word)?;
    Ok(())
}

/// The roots of queries and of mutations, one or both, in either order (section 3.3).
#[tactic(auto, unfolding(crate::specs::Reading::roots))]
fn roots(left: &mut Left<'_, '_>) -> Result<Part, Stop>
    ensures { Reads (spec.roots left.old) result left.new }
{
    if left.sees(Test::Is(Kind::Query)) {
        root_by(left, Kind::Query, Word::QueryRoot)?;
        may_root(left, Kind::Mutation, Word::MutationRoot)?;
        return Ok(Part::Root);
    }
    root_by(left, Kind::Mutation, Word::MutationRoot)?;
    may_root(left, Kind::Query, Word::QueryRoot)?;
    Ok(Part::Root)
}

#[tactic(auto, unfolding(crate::specs::Reading::root))]
fn root(alloc: Global, left: &mut Left<'_, '_>) -> Result<Part, Stop>
    ensures { Reads (spec.root left.old) result left.new }
{
    left.one(Test::Word(Word::Schema))?;
    left.directives(alloc)?;
    left.one(Test::Is(Kind::OpenBrace))?;
    let part = roots(left)?;
    left.one(Test::Is(Kind::CloseBrace))?;
    Ok(part)
}

/// A definition other than that of the roots, without its description.
#[tactic(auto, unfolding(crate::specs::Reading::other))]
fn other(alloc: Global, left: &mut Left<'_, '_>) -> Result<Part, Stop>
    ensures { Reads (spec.other left.old) result left.new }
{
    if left.sees(Test::Word(Word::Directive)) {
        return directive_definition(alloc, left);
    }
    if left.sees(Test::Word(Word::Scalar)) {
        return scalar(alloc, left);
    }
    if left.sees(Test::Word(Word::Type)) {
        return object(alloc, left);
    }
    if left.sees(Test::Word(Word::Interface)) {
        return interface(alloc, left);
    }
    if left.sees(Test::Word(Word::Union)) {
        return union(alloc, left);
    }
    if left.sees(Test::Word(Word::Enum)) {
        return enumeration(alloc, left);
    }
    input_type(alloc, left)
}

/// A definition without its description. The roots are defined once at most.
#[tactic(auto, unfolding(crate::specs::Reading::body))]
fn body(alloc: Global, left: &mut Left<'_, '_>, rooted: bool) -> Result<Part, Stop>
    ensures { Reads (spec.body rooted left.old) result left.new }
{
    if left.sees(Test::Word(Word::Schema)) {
        if rooted {
            return Err(Stop::Refused(Refusal::Unexpected));
        }
        return root(alloc, left);
    }
    other(alloc, left)
}

#[tactic(auto, unfolding(crate::specs::Reading::definition))]
fn definition(alloc: Global, left: &mut Left<'_, '_>, rooted: bool) -> Result<Part, Stop>
    ensures { Reads (spec.definition rooted left.old) result left.new }
{
    description(left)?;
    let part = body(alloc, left, rooted)?;
    Ok(part)
}

fn rooted_by(rooted: bool, part: &Part) -> bool
    ensures { result ≡ grammar.rooted_by rooted part.now }
{
    rooted || matches!(part, Part::Root)
}

fn more_definitions(
    alloc: Global,
    left: &mut Left<'_, '_>,
    rooted: bool,
    found: Items<Part>,
) -> Result<Items<Part>, Stop>
    ensures { Reads (prefixed found (spec.definitions rooted left.old)) result left.new }
{
    let mut found = found;
    let mut rooted = rooted;
    for _ in 0..left.len() {
        if !left.sees(Test::BeginsDefinition) {
            return Ok(found);
        }
        let part = definition(alloc, left, rooted)?;
        rooted = rooted_by(rooted, &part);
        found.push(part)?;
    }
    Ok(found)
}

#[tactic(auto, unfolding(crate::specs::Reading::schema))]
fn schema(alloc: Global, left: &mut Left<'_, '_>) -> Result<Items<Part>, Stop>
    ensures { Reads (spec.schema left.old) result left.new }
{
    let mut found = Items::new(alloc);
    let first = definition(alloc, left, false)?;
    let rooted = rooted_by(false, &first);
    found.push(first)?;
    let found = more_definitions(alloc, left, rooted, found)?;
    Ok(found)
}

/// All tokens of a schema text, definition by definition.
pub fn all(alloc: Global, left: &mut Left<'_, '_>) -> Result<Items<Part>, Stop>
    ensures { Reads (spec.all left.old) result left.new }
{
    let found = schema(alloc, left)?;
    if left.len() != 0 {
        return Err(Stop::Refused(Refusal::Unexpected));
    }
    Ok(found)
}

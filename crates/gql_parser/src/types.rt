//! Types, one call deeper for each list type.

ghost use Rattle.std.specs.Prelude.{◌≡◌};
ghost use Rattle.gql_parser.specs.Reading as spec;
ghost use Rattle.gql_parser.specs.Reads.{Reads};

use crate::tokens::{Stop, Test, Tokens};
use gql_terms::{Refusal, TypeRef};
use gql_tokens::Kind;
use std::alloc::Global;
use tree_items::Boxed;

fn named_type(alloc: Global, tokens: &mut Tokens<'_, '_>) -> Result<TypeRef, Stop>
    ensures { Reads (spec.named_type tokens.old) result tokens.new }
{
    let name = tokens.text(alloc, Test::Name)?;
    Ok(TypeRef::Named(name))
}

#[cycle(type_ref)]
fn list_type(alloc: Global, tokens: &mut Tokens<'_, '_>, room: usize) -> Result<TypeRef, Stop>
    ensures { Reads (spec.list_type (spec.type_ref room) tokens.old) result tokens.new }
{
    tokens.one(Test::Is(Kind::OpenBracket))?;
    let of = type_ref(alloc, tokens, room)?;
    tokens.one(Test::Is(Kind::CloseBracket))?;
    Ok(TypeRef::ListOf(Boxed::new(alloc, of)?))
}

#[cycle(type_ref)]
fn unmarked(alloc: Global, tokens: &mut Tokens<'_, '_>, room: usize) -> Result<TypeRef, Stop>
    ensures { Reads (spec.unmarked room tokens.old) result tokens.new }
{
    if tokens.sees(Test::Is(Kind::OpenBracket)) {
        if room == 0 {
            return Err(Stop::Refused(Refusal::Deep));
        }
        return list_type(alloc, tokens, room - 1);
    }
    named_type(alloc, tokens)
}

/// A type, with room for so many more list types.
#[cycle(type_ref)]
pub fn type_ref(alloc: Global, tokens: &mut Tokens<'_, '_>, room: usize) -> Result<TypeRef, Stop>
    ensures { Reads (spec.type_ref room tokens.old) result tokens.new }
{
    let of = unmarked(alloc, tokens, room)?;
    if !tokens.sees(Test::Is(Kind::Bang)) {
        return Ok(of);
    }
    tokens.one(Test::Is(Kind::Bang))?;
    Ok(TypeRef::NonNull(Boxed::new(alloc, of)?))
}

//! Reads a schema text.

ghost use Rattle.std.specs.Prelude.{IfOk, IfErr};
ghost use Rattle.gql_schema.specs.Judging.{Judged};
ghost use Rattle.gql_schema.specs.Schemas.{IsSchemaText, Explains};

use crate::fault::SdlFault;
use crate::judging::judge;
use crate::making::types_of;
use crate::rules::{Ruling, rule};
use crate::terms::Part;
use flow_base::Text;
use gql_lexer::lex;
use gql_types::Schema;
use std::alloc::Global;
use tree_items::Items;

/// The definitions that the text is, or its first fault of syntax.
fn parts_of(alloc: Global, text: &Text) -> Result<Items<Part>, SdlFault>
    ensures { Judged text.now result }
{
    let source = text.as_str();
    match lex(alloc, source) {
        Err(_) => Err(SdlFault::Memory),
        Ok(lexed) => judge(alloc, source.as_bytes(), lexed),
    }
}

/// The schema that the text is (October 2021, section 3), or the text's first fault: of syntax, then `Twice`, then
/// `UnknownType`; `Memory` where memory runs out.
pub fn read(alloc: Global, text: &Text) -> Result<Schema, SdlFault>
    ensures schema { IfOk result (λ s. IsSchemaText s text.now) }
    ensures fault { IfErr result (λ fault. Explains text.now fault) }
{
    let parts = parts_of(alloc, text)?;
    match rule(alloc, parts.as_slice())? {
        Ruling::Twice(name) => Err(SdlFault::Twice(name)),
        Ruling::Unknown(name) => Err(SdlFault::UnknownType(name)),
        Ruling::Kept => Ok(Schema::of(alloc, types_of(alloc, parts)?)?),
    }
}

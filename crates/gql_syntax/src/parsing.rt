ghost use Rattle.std.specs.Prelude.{IfOk, IfErr, IfSome};
ghost use Rattle.gql_tokens.specs.Lexical.{Lexes};
ghost use Rattle.gql_parser.specs.Faults.{IsText, Explains};
ghost use Rattle.gql_parser.specs.Judging.{Judged};
ghost use Rattle.gql_syntax.specs.Readings.{HasFault};

use crate::judging::{Reading, judge, read};
use flow_base::{Memory, Text};
use gql_lexer::lex;
use gql_terms::{Document, GqlFault};
use gql_tokens::{Last, Lexed, Token};
use std::alloc::Global;

/// The tokens of a text, and None where it ends within something that is no token.
fn tokens_of<'a>(alloc: Global, source: &'a str) -> Result<Option<Vec<Token<'a>>>, Memory>
    ensures { IfOk result (λ found. IfSome found (λ tokens. Lexes tokens.items source.now)) }
{
    match lex(alloc, source) {
        Err(_) => Err(Memory),
        Ok(lexed) => {
            let Lexed { tokens, last, .. } = lexed;
            match last {
                Last::Settled | Last::Whole(_) => Ok(Some(tokens)),
                Last::Cut(_) => Ok(None),
            }
        }
    }
}

/// The document that the text is, if it is one. Where the tokens stand is forgotten before the document is built, since
/// the two together would take more memory.
fn document_of(alloc: Global, source: &str) -> Result<Option<Document>, Memory>
    ensures { IfOk result (λ found. IfSome found (λ d. IsText d source.now)) }
{
    match tokens_of(alloc, source) {
        Err(_) => Err(Memory),
        Ok(None) => Ok(None),
        Ok(Some(tokens)) => match read(alloc, &tokens) {
            Reading::Read(document) => Ok(Some(document)),
            Reading::Refused(_, _) => Ok(None),
            Reading::Memory => Err(Memory),
        },
    }
}

fn judged(alloc: Global, source: &str) -> Result<Document, GqlFault>
    ensures { Judged source.now result }
{
    match lex(alloc, source) {
        Err(_) => Err(GqlFault::Memory),
        Ok(lexed) => judge(alloc, source.as_bytes(), lexed),
    }
}

/// The document that the text is, or the text's first fault from the left; `Memory` where memory runs out. A text with a
/// fault is read a second time, for its place.
pub fn parse(alloc: Global, text: &Text) -> Result<Document, GqlFault>
    ensures document { IfOk result (λ d. IsText d text.now) }
    ensures refused { IfErr result (λ fault. HasFault text.now fault) }
    ensures fault { IfErr result (λ fault. Explains text.now fault) }
{
    let source = text.as_str();
    match document_of(alloc, source) {
        Err(Memory) => Err(GqlFault::Memory),
        Ok(Some(document)) => Ok(document),
        Ok(None) => judged(alloc, source),
    }
}

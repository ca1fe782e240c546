//! What the tokens of a text and its end say of the text.

ghost use Rattle.std.specs.Prelude.{◌≡◌, ◌<◌, ◌≤◌, ◌+◌, [], ◌∷◌, ◌++◌, Ok, Err, IfOk, IfErr, MatchResult, length};
ghost use Rattle.token_read.specs.Lexeme.{Lexeme};
ghost use Rattle.gql_tokens.specs.declared.kinds.Kind.{Kind as Kind_};
ghost use Rattle.token_read.specs.Texts.{Consumed, CanFollow, any_of};
ghost use Rattle.gql_tokens.specs.Lexing as lexing;
ghost use Rattle.gql_terms.specs.Grammar.{strict};
ghost use Rattle.gql_terms.specs.declared.faults.GqlFault.TheVariants as faults;
ghost use Rattle.gql_terms.specs.declared.documents.Document.{Document as Document_};
ghost use Rattle.gql_parser.specs.Reading as spec;
ghost use Rattle.gql_parser.specs.Faults.{IsText, Explains};
ghost use Rattle.gql_parser.specs.Faults as texts;
ghost use Rattle.gql_parser.specs.Judging as judging;
ghost use Rattle.gql_parser.specs.Judging.{TellsWhether, Judged};

use crate::definitions::all;
use crate::tokens::{Stop, Tokens};
use gql_terms::{Document, GqlFault, Refusal};
use gql_tokens::{Kind, Last, Lexed, Token};
use std::alloc::Global;

/// Whether some document begins with the tokens.
fn consumes(alloc: Global, tokens: &[Token<'_>]) -> Result<bool, GqlFault>
    ensures tells { IfOk result (λ b. TellsWhether b (Consumed (spec.all strict tokens.now))) }
    ensures memory { IfErr result (λ e. e ≡ faults.Memory) }
{
    let mut left = Tokens::new(tokens);
    match all(alloc, &mut left) {
        Err(Stop::Memory) => Err(GqlFault::Memory),
        Ok(_) => Ok(left.len() == 0),
        Err(Stop::Refused(_)) => Ok(left.len() == 0),
    }
}

/// Whether some document begins with the tokens and one of this kind. They are left as they were.
fn consumes_with(alloc: Global, tokens: &mut Vec<Token<'_>>, kind: Kind) -> Result<bool, GqlFault>
    ensures tells { IfOk result
        (λ b. TellsWhether b (Consumed (spec.all strict (tokens.old.items ++ any_of kind ∷ [])))) }
    ensures same { IfOk result (λ b. tokens.new.items ≡ tokens.old.items) }
    ensures memory { IfErr result (λ e. e ≡ faults.Memory) }
{
    match tokens.push(Token::new(kind, "")) {
        Err(_) => Err(GqlFault::Memory),
        Ok(()) => {
            let consumed = consumes(alloc, tokens.as_slice())?;
            let _ = tokens.pop();
            Ok(consumed)
        }
    }
}

/// Whether a token of one of the kinds can follow the tokens.
fn can_follow(alloc: Global, tokens: &mut Vec<Token<'_>>, kinds: &[Kind]) -> Result<bool, GqlFault>
    ensures tells { IfOk result
        (λ b. TellsWhether b (CanFollow (spec.all strict) tokens.old.items kinds.now)) }
    ensures memory { IfErr result (λ e. e ≡ faults.Memory) }
{
    for i in 0..kinds.len() {
        if consumes_with(alloc, tokens, kinds[i])? {
            return Ok(true);
        }
    }
    Ok(false)
}

/// The fault of a token that is refused at this place.
pub fn placed(refusal: Refusal, place: usize) -> GqlFault
    ensures { result ≡ texts.placed refusal place }
{
    match refusal {
        Refusal::Unexpected => GqlFault::Unexpected(place as u64),
        Refusal::Deep => GqlFault::Deep(place as u64),
    }
}

fn without_last(tokens: &mut Vec<Token<'_>>)
    requires { 0 < length tokens.old.items }
    ensures { (t : Lexeme Kind_) × (tokens.old.items ≡ tokens.new.items ++ t ∷ []) }
{
    let _ = tokens.pop();
}

/// What a text is whose last token may grow, where that token is refused, or the text ends after it.
pub fn whole(
    alloc: Global,
    text: &[u8],
    tokens: Vec<Token<'_>>,
    kinds: Vec<Kind>,
    place: usize,
    why: Refusal,
) -> Result<Document, GqlFault>
    requires ends { lexing.EndsWhole text.now tokens.items kinds.items }
    requires last { judging.RefusedLast text.now tokens.items place why }
    ensures { Judged text.now result }
{
    let mut tokens = tokens;
    without_last(&mut tokens);
    if can_follow(alloc, &mut tokens, kinds.as_slice())? {
        return Err(GqlFault::Ended);
    }
    Err(placed(why, place))
}

/// What a text is that ends within something that is no token, where some document begins with the tokens before it.
pub fn cut_off(
    alloc: Global,
    text: &[u8],
    tokens: Vec<Token<'_>>,
    kinds: Vec<Kind>,
    place: usize,
) -> Result<Document, GqlFault>
    requires ends { lexing.EndsCut text.now tokens.items place kinds.items }
    requires begins { texts.MayBegin strict tokens.items }
    ensures { Judged text.now result }
{
    let mut tokens = tokens;
    if can_follow(alloc, &mut tokens, kinds.as_slice())? {
        return Err(GqlFault::Ended);
    }
    Err(GqlFault::Unexpected(place as u64))
}

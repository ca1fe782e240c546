ghost use Rattle.std.specs.Prelude.{◌≡◌, ◌∷◌, [], IfOk};
ghost use Rattle.answer_text.specs.Refusals as spec;

use crate::error::error_value;
use crate::parts::{number, one_element, one_member, string};
use flow_base::{Memory, Text};
use json_value::Json;
use std::alloc::Global;
use tree_items::Items;

/// What is wrong with a variable: it is missing, null, or its value is of another kind.
#[derive(Clone, Copy, Debug, PartialEq, Eq)]
pub enum VariableCause {
    Missing,
    Null,
    Kind,
}

/// Why a request is refused. Places count bytes from 0; a text that ends too soon is at fault at its length.
#[derive(Debug, Drop)]
pub enum Refusal {
    /// The message is no HTTP request of this profile.
    BadMessage,
    TooLong,
    NotFound,
    Method,
    /// The key for invalidations and for the journal is missing or another.
    Unauthorized,
    /// The body is no JSON from this byte on.
    BadJson(u64),
    /// The body is no GraphQL request.
    BadRequest,
    /// The body is no list of targets.
    BadTargets,
    /// The document is at fault at this byte.
    BadDocument(u64),
    /// The operation has no plan, or another name than the one that was asked for.
    OperationUnknown,
    /// The variable of this name is refused.
    BadVariables {
        variable: Text,
        cause: VariableCause,
    },
}

impl Refusal {
    /// The status of the response (RFC 9110, section 15).
    pub fn status(&self) -> u16
        ensures { result ≡ spec.status_of self.now }
    {
        match self {
            Refusal::TooLong => 413,
            Refusal::NotFound => 404,
            Refusal::Method => 405,
            Refusal::Unauthorized => 401,
            _ => 400,
        }
    }
}

fn code_of(refusal: &Refusal) -> &'static str
    ensures { result.now ≡ spec.code_of refusal.now }
{
    match refusal {
        Refusal::BadMessage => "BAD_MESSAGE",
        Refusal::TooLong => "TOO_LONG",
        Refusal::NotFound => "NOT_FOUND",
        Refusal::Method => "METHOD",
        Refusal::Unauthorized => "UNAUTHORIZED",
        Refusal::BadJson(_) => "BAD_JSON",
        Refusal::BadRequest => "BAD_REQUEST",
        Refusal::BadTargets => "BAD_TARGETS",
        Refusal::BadDocument(_) => "BAD_DOCUMENT",
        Refusal::OperationUnknown => "OPERATION_UNKNOWN",
        Refusal::BadVariables { .. } => "BAD_VARIABLES",
    }
}

fn message_of(refusal: &Refusal) -> &'static str
    ensures { result.now ≡ spec.message_of refusal.now }
{
    match refusal {
        Refusal::BadMessage => "message not readable",
        Refusal::TooLong => "message too long",
        Refusal::NotFound => "no such path",
        Refusal::Method => "method not allowed",
        Refusal::Unauthorized => "invalidation key refused",
        Refusal::BadJson(_) => "body is not JSON",
        Refusal::BadRequest => "request is not a GraphQL request",
        Refusal::BadTargets => "invalidation list refused",
        Refusal::BadDocument(_) => "document not readable",
        Refusal::OperationUnknown => "operation has no plan",
        Refusal::BadVariables { .. } => "variable refused",
    }
}

fn cause_word(cause: VariableCause) -> &'static str
    ensures { result.now ≡ spec.cause_word cause }
{
    match cause {
        VariableCause::Missing => "missing",
        VariableCause::Null => "null",
        VariableCause::Kind => "kind",
    }
}

/// The members that say more.
fn more_of(alloc: Global, refusal: Refusal) -> Result<Items<(Text, Json)>, Memory>
    ensures { IfOk result (λ ms. ms ≡ spec.more_of refusal) }
{
    match refusal {
        Refusal::BadJson(at) => one_member(alloc, "at", number(alloc, at)?),
        Refusal::BadDocument(at) => one_member(alloc, "at", number(alloc, at)?),
        Refusal::BadVariables { variable, cause } => {
            let mut members = one_member(alloc, "variable", Json::Str(variable))?;
            members.append(one_member(alloc, "cause", string(alloc, cause_word(cause))?)?)?;
            Ok(members)
        }
        _ => Ok(Items::new(alloc)),
    }
}

/// The value of a refusal's body: an object with the one error.
pub fn refusal_value(alloc: Global, refusal: Refusal) -> Result<Json, Memory>
    ensures { IfOk result (λ v. v ≡ spec.refusal_value refusal) }
{
    let code = code_of(&refusal);
    let message = Text::of(alloc, message_of(&refusal))?;
    let more = more_of(alloc, refusal)?;
    let error = error_value(alloc, message, None, code, more)?;
    let errors = one_element(alloc, error)?;
    Ok(Json::Object(one_member(alloc, "errors", errors)?))
}

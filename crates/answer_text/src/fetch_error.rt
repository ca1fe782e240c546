ghost use Rattle.std.specs.Prelude.{◌≡◌, ◌∷◌, [], IfOk};
ghost use Rattle.answer_text.specs.FetchErrors as spec;

use crate::error::error_value;
use crate::parts::{number, one_member};
use flow_base::{Memory, Text};
use json_paths::Place;
use json_value::Json;
use std::alloc::Global;
use tree_items::Items;

/// What went wrong with a call to a subgraph.
#[derive(Debug, Drop)]
pub enum FetchCause {
    /// No reply came.
    Unreachable,
    /// So many bytes were taken or declared, above the limit of a reply.
    TooLong(u64),
    /// The reply has this status, which is not 200.
    Status(u16),
    /// The reply's body is no JSON from this byte on, counted from 0.
    NotJson(u64),
    /// This member of the reply is missing or of another kind; the empty name is the whole.
    Misshapen(Text),
    /// So many entities came, of so many that were asked for.
    Miscounted { got: u64, sent: u64 },
    /// The reply has an error with this text.
    Subgraph(Text),
}

/// What went wrong with a call, to which subgraph, and the place of the first piece that it asked for; a root fetch has none.
#[derive(Debug, Drop)]
pub struct FetchError {
    pub subgraph: Text,
    pub place: Option<Place>,
    pub cause: FetchCause,
}

fn code_of(cause: &FetchCause) -> &'static str
    ensures { result.now ≡ spec.code_of cause.now }
{
    match cause {
        FetchCause::Unreachable => "UNREACHABLE",
        FetchCause::TooLong(_) => "REPLY_TOO_LONG",
        FetchCause::Status(_) => "SUBGRAPH_STATUS",
        FetchCause::NotJson(_) => "BAD_REPLY",
        FetchCause::Misshapen(_) => "BAD_REPLY",
        FetchCause::Miscounted { .. } => "BAD_REPLY",
        FetchCause::Subgraph(_) => "SUBGRAPH_ERROR",
    }
}

/// The members that say more.
fn more_of(alloc: Global, cause: &FetchCause) -> Result<Items<(Text, Json)>, Memory>
    ensures { IfOk result (λ ms. ms ≡ spec.more_of cause.now) }
{
    match cause {
        FetchCause::Unreachable => Ok(Items::new(alloc)),
        FetchCause::TooLong(bytes) => one_member(alloc, "bytes", number(alloc, *bytes)?),
        FetchCause::Status(status) => one_member(alloc, "status", number(alloc, *status as u64)?),
        FetchCause::NotJson(at) => one_member(alloc, "at", number(alloc, *at)?),
        FetchCause::Misshapen(member) => one_member(alloc, "member", Json::Str(member.copy()?)),
        FetchCause::Miscounted { got, sent } => {
            let mut members = one_member(alloc, "got", number(alloc, *got)?)?;
            members.append(one_member(alloc, "sent", number(alloc, *sent)?)?)?;
            Ok(members)
        }
        FetchCause::Subgraph(_) => Ok(Items::new(alloc)),
    }
}

fn message_of(alloc: Global, cause: FetchCause) -> Result<Text, Memory>
    ensures { IfOk result (λ t. t ≡ spec.message_of cause) }
{
    match cause {
        FetchCause::Unreachable => Text::of(alloc, "subgraph unreachable"),
        FetchCause::TooLong(_) => Text::of(alloc, "subgraph reply too long"),
        FetchCause::Status(_) => Text::of(alloc, "subgraph status"),
        FetchCause::NotJson(_) => Text::of(alloc, "subgraph reply not readable"),
        FetchCause::Misshapen(_) => Text::of(alloc, "subgraph reply not readable"),
        FetchCause::Miscounted { .. } => Text::of(alloc, "subgraph reply not readable"),
        FetchCause::Subgraph(text) => Ok(text),
    }
}

/// The members beside the code: the subgraph's name, and those that say more.
fn members_of(
    alloc: Global,
    subgraph: Text,
    cause: &FetchCause,
) -> Result<Items<(Text, Json)>, Memory>
    ensures { IfOk result (λ ms. ms ≡ spec.members_of subgraph cause.now) }
{
    let mut members = one_member(alloc, "subgraph", Json::Str(subgraph))?;
    members.append(more_of(alloc, cause)?)?;
    Ok(members)
}

/// The error as it stands in an answer.
pub fn fetch_error_value(alloc: Global, error: FetchError) -> Result<Json, Memory>
    ensures { IfOk result (λ v. v ≡ spec.fetch_error error) }
{
    let FetchError {
        subgraph,
        place,
        cause,
    } = error;
    let members = members_of(alloc, subgraph, &cause)?;
    let code = code_of(&cause);
    let message = message_of(alloc, cause)?;
    error_value(alloc, message, place, code, members)
}

ghost use Rattle.std.specs.Prelude.{◌≡◌, ◌≢◌, Err, IfOk, length};
ghost use Rattle.reply_read.specs.declared.replies.ReplyFault.TheVariants as fault;
ghost use Rattle.reply_read.specs.Pieces.{ArePieces};
ghost use Rattle.reply_read.specs.Values.{values_of};
ghost use Rattle.reply_read.specs.Replies as spec;
ghost use Rattle.reply_read.specs.Replies.{read_of, Gives, ReadsReply, place_in};

use crate::errors::error_texts;
use crate::kinds::is_object;
use crate::tag_texts::reply_tags;
use crate::values::{misshapen, take_data, take_values};
use cache_terms::{Reply, Tags};
use flow_base::{Memory, Text};
use json_tree::{Json, JsonFault, member, read};
use std::alloc::Global;

/// What was sent: a query for a root's data, or so many representations of entities.
#[derive(Clone, Copy, Debug, PartialEq, Eq)]
pub enum Sent {
    Root,
    Entities(u64),
}

impl Sent {
    ghost use Rattle.std.specs.Prelude.{◌≡◌};
    ghost use Rattle.reply_read.specs.Values.{count_of};

    /// The number of pieces that were asked for.
    pub fn count(&self) -> u64
        ensures { result ≡ count_of self.now }
    {
        match self {
            Sent::Root => 1,
            Sent::Entities(count) => *count,
        }
    }
}

/// What a reply holds: the pieces, one for each that was asked for and in the same order, each an object or null; the
/// tags of each; and the texts of the errors.
#[derive(Debug, Drop)]
pub struct Pieces {
    pub values: Vec<Json>,
    pub tags: Vec<Tags>,
    pub errors: Vec<Text>,
}

/// Why a reply holds no pieces: its status is not 200; its body is no JSON, from this place on; a member is missing or
/// of another kind; or the number of entities is not the number that was sent.
#[derive(Debug, Drop)]
pub enum ReplyFault {
    Status(u16),
    Json(u64),
    Shape(Text),
    Count { got: u64, sent: u64 },
    Memory,
}

fn unread(body: &[u8], fault: JsonFault) -> ReplyFault
    ensures { result ≡ place_in body.now fault }
{
    match fault {
        JsonFault::Syntax(at) => ReplyFault::Json(at),
        JsonFault::Ended => ReplyFault::Json(body.len() as u64),
        JsonFault::Deep(at) => ReplyFault::Json(at),
        JsonFault::Twice(at) => ReplyFault::Json(at),
        JsonFault::Surrogate(at) => ReplyFault::Json(at),
        JsonFault::Memory => ReplyFault::Memory,
    }
}

/// The pieces with their tags and the errors.
fn with_values(
    alloc: Global,
    found: Option<Json>,
    sent: &Sent,
    tags: Vec<Tags>,
    errors: Vec<Text>,
) -> Result<Pieces, ReplyFault>
    ensures { Gives (spec.with_values tags.items errors.items (values_of sent.now found)) result }
{
    match take_values(alloc, found, sent) {
        Ok(values) => Ok(Pieces {
            values,
            tags,
            errors,
        }),
        Err(fault) => Err(fault),
    }
}

/// The pieces of a body's value.
fn pieces_of(alloc: Global, value: Json, sent: &Sent) -> Result<Pieces, ReplyFault>
    ensures { Gives (read_of value sent.now) result }
{
    if !is_object(&value) {
        return Err(misshapen(alloc, ""));
    }
    let errors = match error_texts(alloc, member(&value, "errors")) {
        Ok(Some(errors)) => errors,
        Ok(None) => return Err(misshapen(alloc, "errors")),
        Err(Memory) => return Err(ReplyFault::Memory),
    };
    let tags = match reply_tags(alloc, sent, member(&value, "extensions")) {
        Ok(tags) => tags,
        Err(Memory) => return Err(ReplyFault::Memory),
    };
    let Some(found) = take_data(value, !errors.is_empty()) else {
        return Err(misshapen(alloc, "data"));
    };
    with_values(alloc, found, sent, tags, errors)
}

fn read_body(alloc: Global, body: &[u8], sent: &Sent) -> Result<Pieces, ReplyFault>
    ensures { ReadsReply body.now sent.now result }
{
    match read(alloc, body) {
        Ok(value) => pieces_of(alloc, value, sent),
        Err(fault) => Err(unread(body, fault)),
    }
}

/// ReadsReply a subgraph's reply. Its status has to be 200 and its body JSON; then `errors`, `data` and the entities are
/// looked at, and the first fault is answered. The tags come from `extensions.cacheTags` and
/// `extensions.entityCacheTags`. It takes time in the length of the body, and moves the pieces out of the value read.
#[tactic(auto, using(crate::proofs::PieceTexts::pieces_read))]
pub fn read_reply(alloc: Global, reply: &Reply, sent: &Sent) -> Result<Pieces, ReplyFault>
    // Another status is the fault.
    ensures status { reply.now.status ≢ 200 → result ≡ Err (fault.Status reply.now.status) }

    // With status 200 the body decides.
    ensures body { reply.now.status ≡ 200 → ReadsReply reply.now.body sent.now result }

    // There is a piece for each that was asked for, an object or null, for which some text stands.
    ensures pieces { IfOk result (λ p. ArePieces sent.now p.values.items p.tags.items) }
{
    if reply.status != 200 {
        return Err(ReplyFault::Status(reply.status));
    }
    read_body(alloc, reply.body.as_slice(), sent)
}

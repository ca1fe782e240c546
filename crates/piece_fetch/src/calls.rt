ghost use Rattle.std.specs.Prelude.{◌≡◌, ◌≢◌, ◌≤◌, ◌++◌, ℕ, [], false, length, map, string_bytes, All, IfOk, OnOk, OnErr};
ghost use Rattle.std.specs.Option.{option_copied};
ghost use Rattle.fetch_asks.specs.Asking as asking;
ghost use Rattle.fetch_asks.specs.Asking.{joined, representation_of};
ghost use Rattle.piece_fetch.specs.Coming as spec;
ghost use Rattle.piece_fetch.specs.Coming.{ComesOf};
ghost use Rattle.piece_fetch.specs.Between.{after_commas, refusal, HasSent, MayHaveSent};

use crate::{Ask, Cause, Coming};
use cache_book::Permit;
use cache_control::verdict;
use cache_terms::Reply;
use flow_base::{Memory, Text};
use line_base::{Call, Line, LineFault};
use reply_read::{ReplyFault, Sent, read_reply};
use std::alloc::Global;

/// Appends each representation with a comma before it.
fn put_behind(body: &mut String, permits: &[Permit]) -> Result<(), Memory>
    ensures { OnOk result (string_bytes body.new
        ≡ string_bytes body.old ++ after_commas (map representation_of permits.now)) }
{
    'listing: for permit in permits {
        body.push(',')?;
        body.push_str(permit.key().rep.as_str())?;
    }
    Ok(())
}

/// Appends the representations of the pieces, with commas between them.
fn put_joined(body: &mut String, permits: &[Permit]) -> Result<(), Memory>
    ensures { OnOk result (string_bytes body.new
        ≡ string_bytes body.old ++ joined (map representation_of permits.now)) }
{
    match permits.split_first() {
        None => Ok(()),
        Some((first, others)) => {
            body.push_str(first.key().rep.as_str())?;
            put_behind(body, others)
        }
    }
}

/// The body of the call for the pieces of these permits.
fn body_of(alloc: Global, ask: &Ask, permits: &[Permit]) -> Result<Text, Memory>
    ensures { IfOk result (λ body. body
        ≡ ask.now.front ++ (joined (map representation_of permits.now) ++ ask.now.back)) }
{
    let mut body = String::from_str(alloc, ask.front.as_str())?;
    put_joined(&mut body, permits)?;
    body.push_str(ask.back.as_str())?;
    Text::from_string(body)
}

fn copy_id(id: Option<&Text>) -> Result<Option<Text>, Memory>
    ensures { IfOk result (λ copy. copy ≡ option_copied id.entry) }
{
    match id {
        Some(id) => Ok(Some(id.copy()?)),
        None => Ok(None),
    }
}

/// The call for the pieces of these permits.
fn call_of(alloc: Global, id: Option<&Text>, ask: &Ask, permits: &[Permit]) -> Result<Call, Memory>
    ensures { IfOk result (λ call. call
        ≡ asking.call_of ask.now (option_copied id.entry) permits.now) }
{
    let body = body_of(alloc, ask, permits)?;
    let id = copy_id(id)?;
    Ok(Call {
        sub: ask.sub,
        name: ask.name.copy()?,
        body,
        id,
    })
}

/// What is sent for so many pieces.
fn sent_of(ask: &Ask, count: usize) -> Sent
    ensures { result ≡ spec.sent_of ask.now count }
{
    if ask.entities {
        Sent::Entities(count as u64)
    } else {
        Sent::Root
    }
}

/// What a fault of the reader means. Want of memory is handed on.
fn refused(fault: ReplyFault) -> Result<Coming, Memory>
    ensures { IfOk result (λ coming. (coming ≡ refusal fault) × (fault ≢ ReplyFault.Memory)) }
{
    match fault {
        ReplyFault::Status(status) => Ok(Coming::Lost(Cause::Status(status))),
        ReplyFault::Memory => Err(Memory),
        fault => Ok(Coming::Lost(Cause::BadReply(fault))),
    }
}

/// What a reply gives.
fn read_coming(alloc: Global, reply: &Reply, sent: &Sent) -> Result<Coming, Memory>
    ensures { IfOk result (λ coming. ComesOf sent.now (Ok reply.now) coming) }
{
    match read_reply(alloc, reply, sent) {
        Ok(pieces) => Ok(Coming::Came {
            status: reply.status,
            verdict: verdict(reply.cache_control.as_ref(), reply.age.as_ref()),
            pieces,
        }),
        Err(fault) => refused(fault),
    }
}

/// What a fault of the line means. Want of memory is handed on.
fn lost(fault: LineFault) -> Result<Coming, Memory>
    ensures { IfOk result (λ coming. (sent : Sent) → ComesOf sent (Err fault) coming) }
{
    match fault {
        LineFault::Failed => Ok(Coming::Lost(Cause::Unreachable)),
        LineFault::TooLong(n) => Ok(Coming::Lost(Cause::TooLong(n))),
        LineFault::Memory => Err(Memory),
    }
}

/// Asks for the pieces of these permits in one call.
fn send<L: Line>(
    alloc: Global,
    line: &mut L,
    id: Option<&Text>,
    ask: &Ask,
    permits: &[Permit],
) -> Result<Coming, Memory>
    requires some { permits.now ≢ [] }
    requires named { All (λ p. p.key.sub ≡ ask.now.name) permits.now }
    ensures ok { IfOk result (λ coming. HasSent ask.now (option_copied id.entry) permits.now
        (L.line line.old) (L.line line.new) coming) }
    ensures err { OnErr result (MayHaveSent ask.now (option_copied id.entry) permits.now
        (L.line line.old) (L.line line.new)) }
{
    let call = call_of(alloc, id, ask, permits)?;
    match line.fetch(permits, &call) {
        Ok(reply) => read_coming(alloc, &reply, &sent_of(ask, permits.len())),
        Err(fault) => lost(fault),
    }
}

/// Asks for the pieces of these permits, where there are any.
pub fn send_any<L: Line>(
    alloc: Global,
    line: &mut L,
    id: Option<&Text>,
    ask: &Ask,
    permits: &[Permit],
) -> Result<Coming, Memory>
    requires { All (λ p. p.key.sub ≡ ask.now.name) permits.now }
    ensures ok { IfOk result (λ coming. HasSent ask.now (option_copied id.entry) permits.now
        (L.line line.old) (L.line line.new) coming) }
    ensures err { OnErr result (MayHaveSent ask.now (option_copied id.entry) permits.now
        (L.line line.old) (L.line line.new)) }
{
    if permits.is_empty() {
        Ok(Coming::Nothing)
    } else {
        send(alloc, line, id, ask, permits)
    }
}

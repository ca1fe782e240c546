ghost use Rattle.std.specs.Prelude.{◌≡◌, ◌≤◌};
ghost use Rattle.http_wire.specs.Answers.{GivesWhereTold};
ghost use Rattle.http_wire.specs.Heads.{head_said};
ghost use Rattle.http_wire.specs.Messages.{IsMessageOf, ReadsMessage};

use crate::body::gather_to;
use crate::gather::gather_head;
use crate::head::{HeadFault, Opened, open_head};
use crate::{Kept, Message, WireFault};
use flow_base::{Bytes, Source};
use std::alloc::Global;

const MOST_OF_A_BODY: u64 = 1048576;

/// ReadsMessage one message, from the bytes that are kept and then from the source; None where the input ends
/// between messages. What is read and not used is kept, and a fault leaves all that there was; the
/// connection is then not to be read again. For every way in which the source cuts its bytes the answer
/// and what is left are those of the bytes alone, but for `Failed`, `Memory`, and the number in
/// `TooLong` where no head ends within its limit.
pub fn read_message<S: Source>(
    alloc: Global,
    source: &mut S,
    kept: &mut Kept,
) -> Result<Option<Message>, WireFault>
    ensures reads { ReadsMessage kept.old kept.new (S.left source.old) (S.left source.new)
        (S.faults source.old) (S.faults source.new) result }
    ensures later { S.faults source.old ≤ S.faults source.new }
    ensures gives { GivesWhereTold kept.old kept.new (S.left source.old) (S.left source.new)
        result }
{
    read_one(alloc, source, kept)
}

fn read_one<S: Source>(
    alloc: Global,
    source: &mut S,
    kept: &mut Kept,
) -> Result<Option<Message>, WireFault>
    ensures reads { ReadsMessage kept.old kept.new (S.left source.old) (S.left source.new)
        (S.faults source.old) (S.faults source.new) result }
    ensures later { S.faults source.old ≤ S.faults source.new }
{
    let count = match gather_head(source, kept) {
        Err(fault) => return Err(fault),
        Ok(None) => return Ok(None),
        Ok(Some(count)) => count,
    };
    let opened = match open_head(alloc, &kept.as_slice()[..count]) {
        Err(HeadFault::Bad) => return Err(WireFault::Bad(count as u64)),
        Err(HeadFault::Memory) => return Err(WireFault::Memory),
        Ok(opened) => opened,
    };
    if opened.length > MOST_OF_A_BODY {
        return Err(WireFault::TooLong(opened.length));
    }
    let whole = count + opened.length as usize;
    match gather_to(source, kept, whole) {
        Err(fault) => return Err(fault),
        Ok(()) => (),
    }
    let body = match Bytes::of(alloc, &kept.as_slice()[count..whole]) {
        Err(_) => return Err(WireFault::Memory),
        Ok(body) => body,
    };
    kept.advance(whole);
    Ok(Some(with_body(opened, body)))
}

fn with_body(opened: Opened, body: Bytes) -> Message
    ensures head { IsMessageOf result (head_said opened) }
    ensures body { result.body ≡ body }
{
    let Opened {
        method,
        target,
        fields,
        close,
        length: _,
    } = opened;
    Message {
        method,
        target,
        fields,
        body,
        close,
    }
}

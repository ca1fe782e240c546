ghost use Rattle.std.specs.Prelude.{◌≤◌, length};
ghost use Rattle.http_wire.specs.Bodies.{BodyOr};
ghost use Rattle.http_wire.specs.declared.framing.Framing.TheVariants as framing;

use crate::body::gather_to;
use crate::chunked::read_chunks;
use crate::framing::Framing;
use crate::{Kept, WireFault};
use flow_base::{Bytes, Source};
use std::alloc::Global;

const MOST_OF_A_BODY: usize = 4194304;

// Reads the body of a reply, which begins at `head` in what is kept.
pub(crate) fn read_body<S: Source>(
    alloc: Global,
    source: &mut S,
    kept: &mut Kept,
    head: usize,
    framing: Framing,
) -> Result<Bytes, WireFault>
    requires within { head ≤ length kept.old }
    requires short { head ≤ 16384 }
    ensures body { BodyOr framing head kept.old kept.new (S.left source.old) (S.left source.new)
        (S.faults source.old) (S.faults source.new) result }
    ensures later { S.faults source.old ≤ S.faults source.new }
{
    match framing {
        Framing::Length(count) => read_counted(alloc, source, kept, head, count),
        Framing::Chunked => read_chunks(alloc, source, kept, head),
        Framing::ToEnd => read_to_end(alloc, source, kept, head),
    }
}

fn read_counted<S: Source>(
    alloc: Global,
    source: &mut S,
    kept: &mut Kept,
    head: usize,
    count: u64,
) -> Result<Bytes, WireFault>
    requires within { head ≤ length kept.old }
    requires short { head ≤ 16384 }
    ensures body { BodyOr (framing.Length count) head kept.old kept.new (S.left source.old)
        (S.left source.new) (S.faults source.old) (S.faults source.new) result }
    ensures later { S.faults source.old ≤ S.faults source.new }
{
    if count > MOST_OF_A_BODY as u64 {
        return Err(WireFault::TooLong(count));
    }
    let whole = head + count as usize;
    match gather_to(source, kept, whole) {
        Err(fault) => return Err(fault),
        Ok(()) => (),
    }
    match Bytes::of(alloc, &kept.as_slice()[head..whole]) {
        Err(_) => Err(WireFault::Memory),
        Ok(body) => Ok(body),
    }
}

fn read_to_end<S: Source>(
    alloc: Global,
    source: &mut S,
    kept: &mut Kept,
    head: usize,
) -> Result<Bytes, WireFault>
    requires within { head ≤ length kept.old }
    requires short { head ≤ 16384 }
    ensures body { BodyOr framing.ToEnd head kept.old kept.new (S.left source.old)
        (S.left source.new) (S.faults source.old) (S.faults source.new) result }
    ensures later { S.faults source.old ≤ S.faults source.new }
{
    let end = head + MOST_OF_A_BODY;
    match gather_to(source, kept, end + 1) {
        Ok(()) => Err(WireFault::TooLong((kept.as_slice().len() - head) as u64)),
        Err(WireFault::Cut(_)) => match Bytes::of(alloc, &kept.as_slice()[head..]) {
            Err(_) => Err(WireFault::Memory),
            Ok(body) => Ok(body),
        },
        Err(fault) => Err(fault),
    }
}

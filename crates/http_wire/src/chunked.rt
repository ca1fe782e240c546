ghost use Rattle.std.specs.Prelude.{◌≤◌, length};
ghost use Rattle.http_wire.specs.Bodies.{BodyOr};
ghost use Rattle.http_wire.specs.declared.framing.Framing.TheVariants as framing;

use crate::step::{Step, step_of};
use crate::wanted::go_on;
use crate::{Kept, WireFault};
use flow_base::{Bytes, Source};
use std::alloc::Global;

const MOST_OF_A_REPLY: usize = 4194304;

// Reads a chunked body, which begins at `head` in what is kept.
pub(crate) fn read_chunks<S: Source>(
    alloc: Global,
    source: &mut S,
    kept: &mut Kept,
    head: usize,
) -> Result<Bytes, WireFault>
    requires within { head ≤ length kept.old }
    requires short { head ≤ 16384 }
    ensures body { BodyOr framing.Chunked head kept.old kept.new (S.left source.old)
        (S.left source.new) (S.faults source.old) (S.faults source.new) result }
    ensures later { S.faults source.old ≤ S.faults source.new }
{
    let end = head + MOST_OF_A_REPLY;
    let mut body: Vec<u8> = Vec::new(alloc);
    let mut at = head;
    let mut ended = false;
    'chunks: loop {
        let there = kept.as_slice().len();
        match step_of(&kept.as_slice()[at..there.min(end)]) {
            Step::Chunk(from, to, next) => {
                if body
                    .extend_from_slice(&kept.as_slice()[at + from..at + to])
                    .is_err()
                {
                    return Err(WireFault::Memory);
                }
                at += next;
            }
            Step::Last(_) => return Ok(Bytes::from_vec(body)),
            Step::Bad => return Err(WireFault::Bad(there as u64)),
            Step::More(want) => match go_on(source, kept, head, at, want, ended) {
                Err(fault) => return Err(fault),
                Ok(now) => ended = now,
            },
        }
    }
}

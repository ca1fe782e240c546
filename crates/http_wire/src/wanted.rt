ghost use Rattle.std.specs.Io.KnownBytes.{IsAtEnd};
ghost use Rattle.std.specs.Prelude.{◌≡◌, ◌+◌, ◌≤◌, true, false, drop, length, take, OnOk};
ghost use Rattle.http_wire.specs.Bodies.{GoesOnOr};
ghost use Rattle.http_wire.specs.Chunks.{AreUnfinishedChunks};
ghost use Rattle.http_wire.specs.Taking.{GathersMore};

use crate::empty_line::empty_line_end;
use crate::step::Want;
use crate::{Kept, WireFault};
use flow_base::Source;

const LINE_FEED: u8 = 10;

const MOST_OF_A_REPLY: usize = 4194304;

// Keeps more of an unfinished body whose chunk begins at `at`, or says why there is none; true where the
// input ended.
pub(crate) fn go_on<S: Source>(
    source: &mut S,
    kept: &mut Kept,
    head: usize,
    at: usize,
    want: Want,
    ended: bool,
) -> Result<bool, WireFault>
    requires within { at ≤ length kept.old }
    requires short { head ≤ 16384 }
    requires unfinished { AreUnfinishedChunks (take 4194304 (drop head kept.old)) }
    requires ended { ended ≡ true → IsAtEnd (S.left source.old) }
    ensures goes { GoesOnOr head kept.old kept.new (S.left source.old) (S.left source.new)
        (S.faults source.old) (S.faults source.new) result }
    ensures later { S.faults source.old ≤ S.faults source.new }
    ensures before { OnOk result (ended ≡ false) }
    ensures room { OnOk result (length kept.old ≤ head + 4194304) }
{
    let end = head + MOST_OF_A_REPLY;
    let there = kept.as_slice().len();
    if there > end {
        return Err(WireFault::TooLong((there - head) as u64));
    }
    if ended {
        return Err(WireFault::Cut(there as u64));
    }
    gather_wanted(source, kept, at, end, want)
}

// Keeps pieces of the source until more than `end` bytes are there or what is wanted of the bytes from `at`
// on; true where the input ended. Looks at each byte that comes once.
fn gather_wanted<S: Source>(
    source: &mut S,
    kept: &mut Kept,
    at: usize,
    end: usize,
    want: Want,
) -> Result<bool, WireFault>
    requires within { at ≤ length kept.old }
    requires room { length kept.old ≤ end }
    ensures gathers { GathersMore kept.old kept.new (S.left source.old) (S.left source.new)
        (S.faults source.old) (S.faults source.new) result }
    ensures later { S.faults source.old ≤ S.faults source.new }
{
    let mut seen = kept.as_slice().len();
    'pieces: loop {
        match kept.fill(source) {
            Err(fault) => return Err(fault),
            Ok(count) => {
                if count == 0 {
                    return Ok(true);
                }
            }
        }
        let there = kept.as_slice().len();
        if there > end {
            return Ok(false);
        }
        if is_there(kept.as_slice(), at, seen, want) {
            return Ok(false);
        }
        seen = there;
    }
}

// Whether what is wanted of the bytes from `at` on has come with those from `seen` on. A look too many
// costs time alone, so nothing is promised of the answer.
fn is_there(bytes: &[u8], at: usize, seen: usize, want: Want) -> bool
    requires begun { at ≤ seen }
    requires within { seen ≤ length bytes.now }
{
    match want {
        Want::Bytes(count) => bytes.len() - at >= count,
        Want::LineFeed => bytes[seen..].contains(&LINE_FEED),
        Want::EmptyLine(from) => {
            let first = seen.max(at.saturating_add(from));
            empty_line_end(bytes, first, bytes.len()).is_some()
        }
    }
}

ghost use Rattle.std.specs.Prelude.{◌≡◌, ◌≤◌};
ghost use Rattle.cache_model.specs.State.{IsWithinRanges};
ghost use Rattle.script_lines.specs.Script.{lines};
ghost use Rattle.rehearsal.specs.Outside.{input, output, outside};
ghost use Rattle.rehearsal.specs.Scene.{opening};
ghost use Rattle.rehearsal.specs.Runs.{Runs};
ghost use Rattle.rehearsal.specs.Rehearsing.{IsRehearsed, Rehearses, EndsWith, IsRefusedScript, status_of};

use crate::play::play;
use crate::stage::{Ending, Stage};
use cache_terms::Limits;
use flow_base::{Memory, Sink, Source, TakeFault, put_all, take_all};
use std::alloc::Global;

// The most bytes of a script.
const MOST: u64 = 1_048_576;

/// Reads a whole script, runs it on a book that begins with epoch 0 and an empty journal, and writes one
/// line for each line of it that is neither blank nor a comment.
///
/// The status is 0 where the script was done to its end, 5 where it or a line of it is refused, 6 where the
/// source failed, 7 where the sink failed, and 9 for want of memory. A line costs the book's work for one
/// call, and beside that the line's length and the logarithm of the number of callers and of permits in hand.
pub fn rehearse<S: Source, K: Sink>(
    alloc: Global,
    limits: Limits,
    source: &mut S,
    sink: &mut K,
) -> u8
    requires { IsWithinRanges limits }
    ensures rehearsed { IsRehearsed limits
        (outside (input (S.left source.old) (S.faults source.old))
        (output (K.written sink.old) (K.faults sink.old)))
        result
        (outside (input (S.left source.new) (S.faults source.new))
        (output (K.written sink.new) (K.faults sink.new))) }
    ensures source_later { S.faults source.old ≤ S.faults source.new }
    ensures sink_later { K.faults sink.old ≤ K.faults sink.new }
{
    status(run(alloc, limits, source, sink))
}

// The status of an ending.
fn status(ending: Ending) -> u8
    ensures { result ≡ status_of ending }
{
    match ending {
        Ending::Finished => 0,
        Ending::Refused => 5,
        Ending::SourceFailed => 6,
        Ending::SinkFailed => 7,
        Ending::NoMemory => 9,
    }
}

fn run<S: Source, K: Sink>(alloc: Global, limits: Limits, source: &mut S, sink: &mut K) -> Ending
    requires { IsWithinRanges limits }
    ensures rehearses { Rehearses limits
        (outside (input (S.left source.old) (S.faults source.old))
        (output (K.written sink.old) (K.faults sink.old)))
        (outside (input (S.left source.new) (S.faults source.new))
        (output (K.written sink.new) (K.faults sink.new)))
        result }
    ensures source_later { S.faults source.old ≤ S.faults source.new }
    ensures sink_later { K.faults sink.old ≤ K.faults sink.new }
{
    match take_all(alloc, source, MOST) {
        Err(TakeFault::Failed) => Ending::SourceFailed,
        Err(TakeFault::Memory) => Ending::NoMemory,
        Err(TakeFault::TooLong(_)) => refuse_script(sink),
        Ok(bytes) => match str::from_utf8(bytes.as_slice()) {
            Err(_) => refuse_script(sink),
            Ok(script) => perform(alloc, limits, script, sink),
        },
    }
}

// Runs a script on a new book.
fn perform<K: Sink>(alloc: Global, limits: Limits, script: &str, sink: &mut K) -> Ending
    requires { IsWithinRanges limits }
    ensures ends { EndsWith (Runs 1 (opening limits) (lines script.now))
        (output (K.written sink.old) (K.faults sink.old))
        (output (K.written sink.new) (K.faults sink.new)) result }
    ensures later { K.faults sink.old ≤ K.faults sink.new }
{
    match Stage::open(alloc, limits) {
        Err(Memory) => Ending::NoMemory,
        Ok(stage) => {
            let mut stage = stage;
            let ending = play(alloc, &mut stage, script, sink);
            stage.end();
            ending
        }
    }
}

// Refuses the whole script.
fn refuse_script<K: Sink>(sink: &mut K) -> Ending
    ensures ends { EndsWith IsRefusedScript
        (output (K.written sink.old) (K.faults sink.old))
        (output (K.written sink.new) (K.faults sink.new)) result }
    ensures later { K.faults sink.old ≤ K.faults sink.new }
{
    match put_all(sink, "script refused\n".as_bytes()) {
        Ok(()) => Ending::Refused,
        Err(_) => Ending::SinkFailed,
    }
}

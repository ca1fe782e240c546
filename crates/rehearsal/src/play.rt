ghost use Rattle.std.specs.Prelude.{◌≤◌};
ghost use Rattle.script_lines.specs.Script.{lines};
ghost use Rattle.script_lines.specs.Replies.{reply_text};
ghost use Rattle.rehearsal.specs.Outside.{output};
ghost use Rattle.rehearsal.specs.Runs.{Runs};
ghost use Rattle.rehearsal.specs.Rehearsing.{EndsWith};
ghost use Rattle.rehearsal.specs.Answering.{PutsText, PlaysLine};

use crate::stage::{Ending, Played, Stage};
use flow_base::{Memory, Sink, put_all};
use script_lines::{Reply, first_line, reply_line};
use std::alloc::Global;

// Writes a reply. It is None where it was written.
fn put_reply<K: Sink>(alloc: Global, reply: &Reply, sink: &mut K) -> Option<Ending>
    ensures puts { PutsText (reply_text reply.now)
        (output (K.written sink.old) (K.faults sink.old))
        (output (K.written sink.new) (K.faults sink.new)) result }
    ensures later { K.faults sink.old ≤ K.faults sink.new }
{
    match reply_line(alloc, reply) {
        Err(Memory) => Some(Ending::NoMemory),
        Ok(text) => match put_all(sink, text.as_str().as_bytes()) {
            Ok(()) => None,
            Err(_) => Some(Ending::SinkFailed),
        },
    }
}

// Plays one line and writes its reply. It is None where the script goes on.
fn play_line<K: Sink>(
    alloc: Global,
    stage: &mut Stage,
    line: &str,
    number: u64,
    sink: &mut K,
) -> Option<Ending>
    ensures plays { PlaysLine stage.old line.now number stage.new
        (output (K.written sink.old) (K.faults sink.old))
        (output (K.written sink.new) (K.faults sink.new)) result }
    ensures later { K.faults sink.old ≤ K.faults sink.new }
{
    match stage.answer(line) {
        Err(Memory) => Some(Ending::NoMemory),
        Ok(Played::Quiet) => None,
        Ok(Played::Replied(reply)) => put_reply(alloc, &reply, sink),
        Ok(Played::Refused(cause)) => {
            let refusal = Reply::Refused { number, cause };
            match put_reply(alloc, &refusal, sink) {
                None => Some(Ending::Refused),
                Some(ending) => Some(ending),
            }
        }
    }
}

/// Plays the lines of a script, one after the other.
pub fn play<K: Sink>(alloc: Global, stage: &mut Stage, script: &str, sink: &mut K) -> Ending
    ensures ends { EndsWith (Runs 1 stage.old (lines script.now))
        (output (K.written sink.old) (K.faults sink.old))
        (output (K.written sink.new) (K.faults sink.new)) result }
    ensures later { K.faults sink.old ≤ K.faults sink.new }
{
    let mut rest = script;
    let mut number = 1u64;
    loop {
        let (line, after) = first_line(rest);
        if let Some(ending) = play_line(alloc, stage, line, number, sink) {
            return ending;
        }
        let Some(more) = after else {
            return Ending::Finished;
        };
        rest = more;
        number += 1;
    }
}

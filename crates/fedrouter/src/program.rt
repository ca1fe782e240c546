ghost use Rattle.std.specs.Prelude.{◌≤◌};
ghost use Rattle.rehearsal.specs.Outside.{input, output, outside};
ghost use Rattle.fedrouter.specs.Program.{Obeys, Prints};

use crate::words::{Command, read_words};
use case_run::ask;
use flow_base::{Sink, Source, Text, put_all};
use rehearsal::rehearse;
use std::alloc::Global;
use workload::run_workload;

/// The status where a command was done.
const DONE: u8 = 0;

/// The status where the words are those of no command.
const WORDS_REFUSED: u8 = 2;

/// The status where the sink failed.
const SINK_FAILED: u8 = 7;

/// The status where memory ran out.
pub const NO_MEMORY: u8 = 9;

/// What `--help` writes.
const USAGE: &str = "usage: fedrouter rehearse EVENTS BYTES\n\
    or: fedrouter ask\n\
    or: fedrouter workload STEPS\n\
    or: fedrouter --help\n\
    or: fedrouter --version\n\
    \n\
    rehearse reads a script of cache steps from standard input, runs it on a cache with room for\n\
    EVENTS events (8 to 65536) and BYTES bytes of pieces (16 to 268435456), and writes one line\n\
    for each step.\n\
    ask reads a case from standard input, a schema with plans, requests and replies, runs the\n\
    requests one after the other over one cache, and writes what is sent and what is answered.\n\
    workload makes STEPS (1 to 100000) requests and invalidations that a generator of numbers draws,\n\
    over one cache, and writes one line of what was made, found and missed.\n\
    \n\
    for example:\n\
    fedrouter rehearse 64 4096 < examples/late_tag.txt\n\
    fedrouter ask < examples/shop.json\n\
    fedrouter workload 100\n";

/// What `--version` writes.
const VERSION: &str = "fedrouter 0.1.0\n";

/// Does what the words ask for, from `source` to `sink`, and answers the status of the process: 0 where
/// it is done, 2 where the words ask for nothing, 5 where the script or the case is refused, 6 where the source
/// failed, 7 where the sink failed, 9 where memory ran out.
pub fn run_program<S: Source, K: Sink>(
    alloc: Global,
    words: &Vec<Text>,
    source: &mut S,
    sink: &mut K,
) -> u8
    ensures does { Obeys words.now.items
        (outside (input (S.left source.old) (S.faults source.old))
        (output (K.written sink.old) (K.faults sink.old)))
        result
        (outside (input (S.left source.new) (S.faults source.new))
        (output (K.written sink.new) (K.faults sink.new))) }
    ensures source_later { S.faults source.old ≤ S.faults source.new }
    ensures sink_later { K.faults sink.old ≤ K.faults sink.new }
{
    match read_words(words) {
        Some(Command::Rehearse(limits)) => rehearse(alloc, limits, source, sink),
        Some(Command::Ask) => ask(alloc, source, sink),
        Some(Command::Workload(steps)) => run_workload(alloc, steps, sink),
        Some(Command::Help) => print(sink, USAGE, DONE),
        Some(Command::Version) => print(sink, VERSION, DONE),
        None => print(sink, "words refused\n", WORDS_REFUSED),
    }
}

// Writes a text and answers the status, or that the sink failed.
fn print<K: Sink>(sink: &mut K, text: &str, status: u8) -> u8
    ensures prints { Prints text.now status
        (output (K.written sink.old) (K.faults sink.old)) result
        (output (K.written sink.new) (K.faults sink.new)) }
    ensures later { K.faults sink.old ≤ K.faults sink.new }
{
    match put_all(sink, text.as_bytes()) {
        Ok(()) => status,
        Err(_) => SINK_FAILED,
    }
}

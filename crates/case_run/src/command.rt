ghost use Rattle.std.specs.Prelude.{◌≡◌, ◌≤◌, codes};
ghost use Rattle.router_config.specs.Lawful.{IsLawful};
ghost use Rattle.rehearsal.specs.Outside.{input, output, outside};
ghost use Rattle.case_run.specs.Runs.{Runs, opening};
ghost use Rattle.case_run.specs.Asking.{IsAsked, Asks, EndsWith, RefusesCase};

use crate::ending::{Ending, status};
use crate::play::play;
use crate::texts::refusal;
use cache_seam::Alone;
use case_file::{Case, read_case};
use flow_base::{Memory, Sink, Source, TakeFault, put_all, take_all};
use line_base::ScriptLine;
use std::alloc::Global;

// The most bytes of a case.
const MOST: u64 = 1_048_576;

/// Reads a whole case, and runs its requests one after the other over one cache and one line, each at its moment. For each
/// request it writes one line for each call that it makes, `sent SUBGRAPH BODY`; where its answer has status 200, how long
/// that may be kept, `cache TEXT`; and the answer, `answer STATUS BODY`. The line answers by the case's replies: a call takes
/// the first unused one of its subgraph, and fails where there is none.
///
/// The status is 0 where the requests were all answered, errors in their answers included, 5 where the case is refused, 6
/// where the source failed, 7 where the sink failed, and 9 for want of memory.
pub fn ask<S: Source, K: Sink>(alloc: Global, source: &mut S, sink: &mut K) -> u8
    ensures asked { IsAsked (outside (input (S.left source.old) (S.faults source.old))
        (output (K.written sink.old) (K.faults sink.old)))
        result
        (outside (input (S.left source.new) (S.faults source.new))
        (output (K.written sink.new) (K.faults sink.new))) }
    ensures source_later { S.faults source.old ≤ S.faults source.new }
    ensures sink_later { K.faults sink.old ≤ K.faults sink.new }
{
    status(run(alloc, source, sink))
}

fn run<S: Source, K: Sink>(alloc: Global, source: &mut S, sink: &mut K) -> Ending
    ensures asks { Asks (outside (input (S.left source.old) (S.faults source.old))
        (output (K.written sink.old) (K.faults sink.old)))
        (outside (input (S.left source.new) (S.faults source.new))
        (output (K.written sink.new) (K.faults sink.new)))
        result }
    ensures source_later { S.faults source.old ≤ S.faults source.new }
    ensures sink_later { K.faults sink.old ≤ K.faults sink.new }
{
    match take_all(alloc, source, MOST) {
        Err(TakeFault::Failed) => Ending::SourceFailed,
        Err(TakeFault::Memory) => Ending::NoMemory,
        Err(TakeFault::TooLong(_)) => refuse(sink, "case refused size\n"),
        Ok(bytes) => match read_case(alloc, bytes.as_slice()) {
            Ok(case) => perform(alloc, case, sink),
            Err(fault) => match refusal(fault) {
                Some(text) => refuse(sink, text),
                None => Ending::NoMemory,
            },
        },
    }
}

// Runs a case over a new cache and a new line.
fn perform<K: Sink>(alloc: Global, case: Case, sink: &mut K) -> Ending
    requires lawful { IsLawful case.site }
    ensures ends { EndsWith (Runs case.site
        (opening case.site.config.limits case.replies) case.requests)
        (output (K.written sink.old) (K.faults sink.old))
        (output (K.written sink.new) (K.faults sink.new)) result }
    ensures later { K.faults sink.old ≤ K.faults sink.new }
{
    let Case {
        site,
        requests,
        replies,
    } = case;
    let Ok(mut cache) = Alone::open(alloc, site.config.limits) else {
        return Ending::NoMemory;
    };
    let mut lines = Vec::new(alloc);
    if lines
        .push(ScriptLine::of(alloc, replies.into_vec()))
        .is_err()
    {
        return Ending::NoMemory;
    }
    play(
        alloc,
        &site,
        requests.as_slice(),
        &mut cache,
        &mut lines,
        sink,
    )
}

// Refuses the case.
fn refuse<K: Sink>(sink: &mut K, text: &str) -> Ending
    ensures ends { EndsWith (RefusesCase text.now)
        (output (K.written sink.old) (K.faults sink.old))
        (output (K.written sink.new) (K.faults sink.new)) result }
    ensures later { K.faults sink.old ≤ K.faults sink.new }
{
    match put_all(sink, text.as_bytes()) {
        Ok(()) => Ending::Refused,
        Err(_) => Ending::SinkFailed,
    }
}

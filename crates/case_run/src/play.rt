//! The requests of a case, one after the other.

ghost use Rattle.std.specs.Prelude.{◌≡◌, ◌≤◌, IfOk, drop};
ghost use Rattle.router_config.specs.Lawful.{IsLawful};
ghost use Rattle.rehearsal.specs.Outside.{output};
ghost use Rattle.case_run.specs.Asking.{EndsWith};
ghost use Rattle.case_run.specs.Runs.{Runs};
ghost use Rattle.case_run.specs.Playing.{IsOneLine, script_in, case_state, PlaysOne, Tells};
ghost use Rattle.line_base.specs.Told.{entries_told};

use crate::ending::Ending;
use crate::texts::request_text;
use cache_seam::Alone;
use case_file::Timed;
use flow_base::{Memory, Sink, Text, put_all};
use line_base::{ScriptLine, Solo, Told};
use partial_fetch::run_request;
use router_config::Site;
use std::alloc::Global;
use still_clock::Still;

/// The calls that the one line has told.
#[tactic(auto, using(crate::proofs::Telling::first_log))]
fn calls_told(lines: &[ScriptLine]) -> &[Told]
    requires one { IsOneLine lines.now }
    ensures { entries_told result.now ≡ (script_in lines.now).log }
{
    lines[0].log().as_slice()
}

/// The calls of this number on.
fn since(log: &[Told], number: usize) -> &[Told]
    ensures { result.now ≡ drop number log.now }
{
    if number <= log.len() {
        &log[number..]
    } else {
        &[]
    }
}

/// Runs one request, and says what is to be written for it.
fn tell(
    alloc: Global,
    site: &Site,
    timed: &Timed,
    cache: &mut Alone,
    lines: &mut Vec<ScriptLine>,
) -> Result<Text, Memory>
    requires lawful { IsLawful site.now }
    requires one { IsOneLine lines.old.items }
    ensures one { IsOneLine lines.new.items }
    ensures told { IfOk result (Tells site.now timed.now (case_state cache.old lines.old.items)
        (case_state cache.new lines.new.items)) }
{
    let before = calls_told(lines.as_slice()).len();
    let mut clock = Still {
        moment: timed.moment,
        reads: 0,
    };
    let answer = run_request(alloc, &Solo, site, cache, lines, &mut clock, &timed.request)?;
    request_text(alloc, since(calls_told(lines.as_slice()), before), &answer)
}

/// Runs one request, and writes its lines. It is None where the case goes on.
fn play_one<K: Sink>(
    alloc: Global,
    site: &Site,
    timed: &Timed,
    cache: &mut Alone,
    lines: &mut Vec<ScriptLine>,
    sink: &mut K,
) -> Option<Ending>
    requires lawful { IsLawful site.now }
    requires one { IsOneLine lines.old.items }
    ensures one { IsOneLine lines.new.items }
    ensures plays { PlaysOne site.now timed.now (case_state cache.old lines.old.items)
        (case_state cache.new lines.new.items) (output (K.written sink.old) (K.faults sink.old))
        (output (K.written sink.new) (K.faults sink.new)) result }
    ensures later { K.faults sink.old ≤ K.faults sink.new }
{
    match tell(alloc, site, timed, cache, lines) {
        Err(Memory) => Some(Ending::NoMemory),
        Ok(text) => match put_all(sink, text.as_str().as_bytes()) {
            Ok(()) => None,
            Err(_) => Some(Ending::SinkFailed),
        },
    }
}

/// Runs the requests of a case, one after the other, and writes their lines.
pub fn play<K: Sink>(
    alloc: Global,
    site: &Site,
    timeds: &[Timed],
    cache: &mut Alone,
    lines: &mut Vec<ScriptLine>,
    sink: &mut K,
) -> Ending
    requires lawful { IsLawful site.now }
    requires one { IsOneLine lines.old.items }
    ensures ends { EndsWith (Runs site.now (case_state cache.old lines.old.items) timeds.now)
        (output (K.written sink.old) (K.faults sink.old))
        (output (K.written sink.new) (K.faults sink.new)) result }
    ensures later { K.faults sink.old ≤ K.faults sink.new }
{
    for timed in timeds {
        if let Some(ending) = play_one(alloc, site, timed, cache, lines, sink) {
            return ending;
        }
    }
    Ending::Finished
}

ghost use Rattle.std.specs.Prelude.{◌≡◌, ◌≢◌, ◌≤◌, ◌++◌, codes, IfOk, IfSome, OnOk, string_bytes};
ghost use Rattle.rehearsal.specs.Outside.{output};
ghost use Rattle.router_config.specs.Lawful.{IsLawful};
ghost use Rattle.case_file.specs.declared.fault.CaseFault.TheVariants as faults;
ghost use Rattle.workload.specs.Between.{WritesAs};
ghost use Rattle.workload.specs.Running.{IsRun, IsSummary, FinishesBy};
ghost use Rattle.workload.specs.Running.{made_text, looked_text, left_text, summary_text};

use crate::counts::Counts;
use crate::finish::{Finish, status};
use crate::site::site_text;
use crate::steps::{do_steps, open_shop};
use cache_book::Tally;
use cache_seam::Cache;
use case_file::{Case, CaseFault, read_case};
use flow_base::{Memory, Sink, Text, put_all};
use std::alloc::Global;

/// Does so many steps. Each draws a number: one of ten invalidates the tag of an item, and the others make a request for five items
/// and their stars. It writes one line, `steps N requests A voids V hits H misses M epoch E events L`: how many requests and
/// invalidations were made, how many pieces the looks of the requests found and missed, and the epoch and the events of the cache
/// at the end. The same steps write the same line.
///
/// The status is 0 where that is written, 7 where the sink failed, and 9 for want of memory. It would be 5 where the text of the
/// site were no case.
pub fn run_workload<K: Sink>(alloc: Global, steps: u64, sink: &mut K) -> u8
    requires some { 1 ≤ steps }
    requires few { steps ≤ 100000 }
    ensures runs { IsRun steps (output (K.written sink.old) (K.faults sink.old))
        result
        (output (K.written sink.new) (K.faults sink.new)) }
    ensures later { K.faults sink.old ≤ K.faults sink.new }
{
    status(run(alloc, steps, sink))
}

fn run<K: Sink>(alloc: Global, steps: u64, sink: &mut K) -> Finish
    requires few { steps ≤ 100000 }
    ensures finishes { FinishesBy steps (output (K.written sink.old) (K.faults sink.old))
        (output (K.written sink.new) (K.faults sink.new)) result }
    ensures later { K.faults sink.old ≤ K.faults sink.new }
{
    match read_case(alloc, site_text().as_bytes()) {
        Ok(case) => match summary(alloc, &case, steps) {
            Ok(text) => put(sink, text.as_str(), Finish::Done),
            Err(Memory) => Finish::NoMemory,
        },
        Err(fault) => match refusal(fault) {
            Some(text) => put(sink, text, Finish::Refused),
            None => Finish::NoMemory,
        },
    }
}

/// What refuses the text of the site, or None for want of memory.
fn refusal(fault: CaseFault) -> Option<&'static str>
    ensures text { IfSome result (λ text. text.now ≡ codes "case refused\n") }
    ensures refused { IfSome result (λ _. fault ≢ faults.Memory) }
{
    match fault {
        CaseFault::Json => Some("case refused\n"),
        CaseFault::Member(_) => Some("case refused\n"),
        CaseFault::Schema => Some("case refused\n"),
        CaseFault::Plans => Some("case refused\n"),
        CaseFault::Site => Some("case refused\n"),
        CaseFault::Memory => None,
    }
}

/// Does the steps over the site, and says what came of them.
fn summary(alloc: Global, case: &Case, steps: u64) -> Result<Text, Memory>
    requires lawful { IsLawful case.now.site }
    requires few { steps ≤ 100000 }
    ensures { IfOk result (λ text. IsSummary case.now steps text) }
{
    let mut shop = open_shop(alloc, &case.site)?;
    do_steps(alloc, &case.site, steps, &mut shop)?;
    let tally = shop.cache.tally();
    summary_of(alloc, steps, shop.counts, tally)
}

fn put_made(alloc: Global, text: &mut String, steps: u64, counts: Counts) -> Result<(), Memory>
    ensures { OnOk result
        (string_bytes text.new ≡ string_bytes text.old ++ made_text steps counts) }
{
    let requests = counts.requests;
    let voids = counts.voids;
    let line = format!(in alloc; "steps {steps} requests {requests} voids {voids} ")?;
    text.push_str(&line)?;
    Ok(())
}

fn put_looked(alloc: Global, text: &mut String, counts: Counts) -> Result<(), Memory>
    ensures { OnOk result (string_bytes text.new ≡ string_bytes text.old ++ looked_text counts) }
{
    let hits = counts.hits;
    let misses = counts.misses;
    let line = format!(in alloc; "hits {hits} misses {misses} ")?;
    text.push_str(&line)?;
    Ok(())
}

fn put_left(alloc: Global, text: &mut String, tally: Tally) -> Result<(), Memory>
    ensures { OnOk result (string_bytes text.new ≡ string_bytes text.old ++ left_text tally) }
{
    let epoch = tally.epoch;
    let events = tally.events;
    let line = format!(in alloc; "epoch {epoch} events {events}\n")?;
    text.push_str(&line)?;
    Ok(())
}

fn summary_of(alloc: Global, steps: u64, counts: Counts, tally: Tally) -> Result<Text, Memory>
    ensures { IfOk result (λ text. text ≡ summary_text steps counts tally) }
{
    let mut text = String::new(alloc);
    put_made(alloc, &mut text, steps, counts)?;
    put_looked(alloc, &mut text, counts)?;
    put_left(alloc, &mut text, tally)?;
    Text::from_string(text)
}

/// Writes the text, and finishes so, or as the sink failed.
fn put<K: Sink>(sink: &mut K, text: &str, finish: Finish) -> Finish
    ensures puts { WritesAs text.now finish (output (K.written sink.old) (K.faults sink.old))
        (output (K.written sink.new) (K.faults sink.new)) result }
    ensures later { K.faults sink.old ≤ K.faults sink.new }
{
    match put_all(sink, text.as_bytes()) {
        Ok(()) => finish,
        Err(_) => Finish::SinkFailed,
    }
}

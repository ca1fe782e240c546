ghost use Rattle.std.specs.Prelude.{IfOk};
ghost use Rattle.router_config.specs.Lawful.{IsLawful};

use crate::json::nanoseconds;
use anyhow::{Result, anyhow};
use cache_book::Permit;
use cache_seam::Alone;
use cache_terms::Reply;
use case_file::{Case, Timed, read_case};
use flow_base::{ListClock, Memory};
use line_base::{Call, Line, LineFault, Scripted, Solo, copy_reply};
use partial_fetch::run_request;
use router_config::Site;
use std::alloc::Global;
use std::io::Read;
use std::rt::Runtime;
use std::time::Instant;

/// A line that answers each call with the first reply of its subgraph, however often it is asked.
#[derive(Drop)]
struct SameReplies<'a> {
    alloc: Global,
    replies: &'a [Scripted],
    calls: u64,
    faults: u64,
}

fn reply_of(replies: &[Scripted], sub: u64) -> Option<&Reply> {
    for scripted in replies {
        if scripted.sub == sub {
            return scripted.reply.as_ref();
        }
    }
    None
}

impl Line for SameReplies<'_> {
    ghost use Rattle.std.specs.Prelude.{◌≡◌, None};
    ghost use Rattle.line_base.specs.Lines as lines;

    ghost line = { λ l. record
        { log = None; calls = l.calls; faults = λ _. l.faults; foretold = None } };

    fn fetch(&mut self, _permits: &[Permit], call: &Call) -> Result<Reply, LineFault> {
        let Some(reply) = reply_of(self.replies, call.sub) else {
            self.calls = self.calls.saturating_add(1);
            self.faults = self.faults.saturating_add(1);
            return Err(LineFault::Failed);
        };
        match copy_reply(self.alloc, reply) {
            Err(Memory) => Err(LineFault::Memory),
            Ok(reply) => {
                self.calls = self.calls.saturating_add(1);
                Ok(reply)
            }
        }
    }

    fn calls(&self) -> u64 {
        self.calls
    }

    fn faults(&self, _sub: u64) -> u64 {
        self.faults
    }
}

/// The nanoseconds of all turns: where nothing is kept yet, and where everything is.
#[derive(Clone, Copy)]
struct Spent {
    nothing_kept: u64,
    all_kept: u64,
}

/// Reads one case from standard input, and times its first request: over a new cache, and once more over this cache. Its
/// replies come as often as they are asked for. Prints a line for each.
pub fn time<R: Runtime<A = Global>>(rt: &R, turns: u32) -> Result<()> {
    let case = given(rt)?;
    let Some(timed) = case.requests.get(0) else {
        return Err(anyhow!("the case has no request"));
    };
    let mut spent = Spent {
        nothing_kept: 0,
        all_kept: 0,
    };
    for _ in 0..turns {
        spent = ask_twice(rt, &case.site, timed, case.replies.as_slice(), spent)?;
    }
    let Spent {
        nothing_kept,
        all_kept,
    } = spent;
    println!(rt; "nothing-kept 1 request {turns} turns {nothing_kept} ns")?;
    println!(rt; "all-kept 1 request {turns} turns {all_kept} ns")?;
    Ok(())
}

fn given<R: Runtime<A = Global>>(rt: &R) -> Result<Case>
    ensures { IfOk result (λ case. IsLawful case.site) }
{
    let mut bytes = Vec::new(rt.alloc());
    rt.reader().read_to_end(&mut bytes)?;
    match read_case(rt.alloc(), bytes.as_slice()) {
        Ok(case) => Ok(case),
        Err(fault) => Err(anyhow!("{fault:?}")),
    }
}

fn ask_twice<R: Runtime<A = Global>>(
    rt: &R,
    site: &Site,
    timed: &Timed,
    replies: &[Scripted],
    before: Spent,
) -> Result<Spent>
    requires { IsLawful site.now }
{
    let Ok(mut cache) = Alone::open(rt.alloc(), site.config.limits) else {
        return Err(anyhow!("out of memory"));
    };
    let nothing_kept = ask(rt, site, &mut cache, timed, replies, before.nothing_kept)?;
    let all_kept = ask(rt, site, &mut cache, timed, replies, before.all_kept)?;
    Ok(Spent {
        nothing_kept,
        all_kept,
    })
}

fn ask<R: Runtime<A = Global>>(
    rt: &R,
    site: &Site,
    cache: &mut Alone,
    timed: &Timed,
    replies: &[Scripted],
    before: u64,
) -> Result<u64>
    requires { IsLawful site.now }
{
    let alloc = rt.alloc();
    let mut lines = Vec::new(alloc);
    lines.push(SameReplies {
        alloc,
        replies,
        calls: 0,
        faults: 0,
    })?;
    let mut clock = ListClock::of(Vec::from_slice(alloc, &[timed.moment])?);
    let start = Instant::now(rt)?;
    match run_request(
        alloc,
        &Solo,
        site,
        cache,
        &mut lines,
        &mut clock,
        &timed.request,
    ) {
        Ok(_answer) => nanoseconds(rt, before, start),
        Err(Memory) => Err(anyhow!("out of memory")),
    }
}

ghost use Rattle.std.specs.Prelude.{◌≡◌};

use crate::asking::{clock, is_answer, shop};
use cache_book::Permit;
use cache_seam::Alone;
use cache_terms::Reply;
use case_file::Case;
use line_base::{Call, Line, LineFault, Solo};
use partial_fetch::run_request;
use std::test::Fail;

/// A line over which each reply is one byte longer than a reply may be.
#[derive(Drop)]
struct LongLine {
    calls: u64,
}

impl Line for LongLine {
    ghost use Rattle.std.specs.Prelude.{◌≡◌, None};
    ghost use Rattle.line_base.specs.Lines as lines;

    ghost line = { λ l. record
        { log = None; calls = l.calls; faults = λ _. 0; foretold = None } };

    fn fetch(&mut self, _permits: &[Permit], _call: &Call) -> Result<Reply, LineFault> {
        self.calls = self.calls.saturating_add(1);
        Err(LineFault::TooLong(4194305))
    }

    fn calls(&self) -> u64 {
        self.calls
    }

    fn faults(&self, _sub: u64) -> u64 {
        0
    }
}

#[test]
fn a_reply_is_too_long(rt: HostRuntime) -> Result<(), Fail> {
    let alloc = rt.alloc();
    let Case {
        site,
        requests,
        replies: _,
    } = shop(alloc)?;
    let Some(timed) = requests.get(0) else {
        return Ok(());
    };
    let mut cache = Alone::open(alloc, site.config.limits)?;
    let mut lines = Vec::new(alloc);
    lines.push(LongLine { calls: 0 })?;
    let mut clock = clock(alloc)?;
    let answer = run_request(
        alloc,
        &Solo,
        &site,
        &mut cache,
        &mut lines,
        &mut clock,
        &timed.request,
    )?;
    assert!(rt;
        is_answer(
            &answer,
            200,
            "no-store",
            r#"{"data":{"one":null},"errors":[{"message":"subgraph reply too long","extensions":{"code":"REPLY_TOO_LONG","subgraph":"a","bytes":4194305}}]}"#,
        )
    );
    Ok(())
}

ghost use Rattle.std.specs.Prelude.{All, IfOk};
ghost use Rattle.cache_seam.specs.Meddling.{IsFitting, steps_of};

use crate::asking::{clock, is_answer, shop};
use cache_book::Tally;
use cache_seam::{Cache, Foreign, Meddled};
use cache_terms::Target;
use case_file::Case;
use flow_base::Text;
use line_base::{ScriptLine, Solo};
use partial_fetch::{Origin, Receipt, run_request};
use std::alloc::{AllocError, Global};
use std::test::Fail;

#[tactic(auto, using(cache_seam::proofs::TestObjects::fits_one))]
fn one_step(alloc: Global, step: Foreign) -> Result<Vec<Foreign>, AllocError>
    requires { IsFitting step }
    ensures { IfOk result (λ steps. All IsFitting steps.items) }
{
    let mut steps = Vec::new(alloc);
    steps.push(step)?;
    Ok(steps)
}

/// The step stands before the call with this number.
#[tactic(auto, using(cache_seam::proofs::TestObjects::fits_push, cache_seam::proofs::TestObjects::fits_none))]
fn before_call(alloc: Global, call: usize, step: Foreign) -> Result<Vec<Vec<Foreign>>, AllocError>
    requires { IsFitting step }
    ensures { IfOk result (λ lists. All (All IsFitting) (steps_of lists.items)) }
{
    let last = one_step(alloc, step)?;
    let mut lists = Vec::new(alloc);
    for _ in 0..call {
        lists.push(Vec::new(alloc))?;
    }
    lists.push(last)?;
    Ok(lists)
}

/// The receipts of the two pieces, each of a call of this request.
fn are_own(receipts: &[Receipt]) -> bool {
    let own = [
        Receipt {
            fetch: 0,
            index: 0,
            origin: Origin::Own { line: 0, call: 0 },
        },
        Receipt {
            fetch: 1,
            index: 0,
            origin: Origin::Own { line: 0, call: 1 },
        },
    ];
    receipts == own.as_slice()
}

#[test]
fn an_invalidation_falls_inside_a_fill(rt: HostRuntime) -> Result<(), Fail> {
    let alloc = rt.alloc();
    let Case {
        site,
        requests,
        replies,
    } = shop(alloc)?;
    let Some(timed) = requests.get(0) else {
        return Ok(());
    };
    let void = Foreign::Void(Target::Subgraph(Text::of(alloc, "a")?));
    let steps = before_call(alloc, 2, void)?;
    let mut cache = Meddled::open(alloc, site.config.limits, steps)?;
    let mut lines = Vec::new(alloc);
    lines.push(ScriptLine::of(alloc, replies.into_vec()))?;
    let mut clock = clock(alloc)?;
    let answer = run_request(
        alloc,
        &Solo,
        &site,
        &mut cache,
        &mut lines,
        &mut clock,
        &timed.request,
    )?;
    assert!(rt;
        is_answer(
            &answer,
            200,
            "max-age=60, public",
            r#"{"data":{"one":{"id":"2","price":"2.00"}}}"#,
        )
    );
    assert!(rt; are_own(answer.receipts.as_slice()));
    // The item's record is missing: its settle was void.
    assert_eq!(rt;
        cache.tally(),
        Tally {
            epoch: 0,
            events: 7,
            bytes: 16,
            pending: 0,
        }
    );
    Ok(())
}

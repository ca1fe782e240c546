use crate::run_workload;
use flow_base::{MemSink, Memory};
use std::alloc::Global;
use std::test::*;

/// Whether so many steps, 1 to 100000, are done and write this.
fn writes(alloc: Global, steps: u64, output: &str) -> Result<bool, Memory> {
    if steps < 1 || steps > 100_000 {
        return Ok(false);
    }
    let mut sink = MemSink::of(alloc, 4096, Vec::new(alloc), Vec::new(alloc))?;
    let status = run_workload(alloc, steps, &mut sink);
    Ok(status == 0 && sink.written() == output.as_bytes())
}

/// By hand: the draws of the first four steps are 16838, 5758, 10113 and 17515, so items are asked for from 38, 8, 13 and 15 on. The
/// last finds the stars of the three items 15, 16 and 17, and each of the others misses six pieces. A step has three events for a
/// miss and one for a hit. The line of a hundred steps was counted apart, by a few lines of Python that keep for each item the
/// moment at which it was fetched.
#[test]
fn a_small_workload(rt: HostRuntime) -> Result<(), Fail> {
    let alloc = rt.alloc();
    let table = [
        (
            1,
            "steps 1 requests 1 voids 0 hits 0 misses 6 epoch 0 events 18\n",
        ),
        (
            4,
            "steps 4 requests 4 voids 0 hits 3 misses 21 epoch 0 events 66\n",
        ),
        (
            100,
            "steps 100 requests 93 voids 7 hits 464 misses 94 epoch 0 events 753\n",
        ),
    ];
    for (steps, output) in table {
        assert!(rt; writes(alloc, steps, output)?);
    }
    Ok(())
}

/// The status where the one write fails, and how much is written.
#[test]
fn a_write_fails(rt: HostRuntime) -> Result<(), Fail> {
    let alloc = rt.alloc();
    let first = vec![in alloc; 0u64; 1]?;
    let mut sink = MemSink::of(alloc, 4096, Vec::new(alloc), first)?;
    assert_eq!(&rt; run_workload(alloc, 1, &mut sink), 7);
    assert!(&rt; sink.written().is_empty());
    Ok(())
}

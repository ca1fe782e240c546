use crate::json::nanoseconds;
use anyhow::{Result, anyhow, bail};
use cache_seam::Cache;
use cache_terms::Limits;
use shared_book::{Handle, open};
use std::alloc::Global;
use std::rt::Runtime;
use std::sync::Wait;
use std::thread::{Threads, for_each_mut};
use std::time::Instant;

const LIMITS: Limits = Limits {
    events: 64,
    bytes: 4096,
};

/// Times threads that share one book, each with so many turns that only begin a request, and prints a line of threads,
/// turns of all threads together and nanoseconds from the first thread's start to the last one's end.
pub fn time<R: Runtime<A = Global> + Threads + Wait + Clone + Drop + Send + Sync>(
    rt: &R,
    threads: u32,
    turns: u32,
) -> Result<()> {
    let spent = time_turns(rt, threads, turns)?;
    let all = u64::from(threads).saturating_mul(u64::from(turns));
    println!(rt; "turns {threads} threads {all} turns {spent} ns")?;
    Ok(())
}

fn time_turns<R: Runtime<A = Global> + Threads + Wait + Clone + Drop + Send + Sync>(
    rt: &R,
    threads: u32,
    turns: u32,
) -> Result<u64> {
    let mut handles = handles(rt.alloc(), rt, threads)?;
    let start = Instant::now(rt)?;
    begin_all(rt, handles.as_mut_slice(), threads as usize, turns);
    nanoseconds(rt, 0, start)
}

fn handles<R: Wait + Clone + Drop>(alloc: Global, rt: &R, threads: u32) -> Result<Vec<Handle<R>>> {
    if threads < 1 || threads > 64 {
        bail!("THREADS is a number from 1 to 64");
    }
    open(alloc, rt, threads, LIMITS).map_err(|_| anyhow!("out of memory"))
}

fn begin_all<R: Threads + Wait + Clone + Drop + Send + Sync>(
    rt: &R,
    handles: &mut [Handle<R>],
    threads: usize,
    turns: u32,
) {
    if threads > 0 {
        for_each_mut(
            rt,
            handles,
            threads,
            &|_, handle: &mut Handle<R>| { begin_often(handle, turns) },
        );
    }
}

fn begin_often<C: Cache>(cache: &mut C, turns: u32) {
    for _ in 0..turns {
        let _epoch = cache.begin();
    }
}

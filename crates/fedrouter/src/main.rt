//! The program `fedrouter`: its words pick a command, which reads standard input and writes standard
//! output.
#![tactic(auto)]

mod program;
mod run;
mod standard;
#[cfg(test)]
mod tests;
mod words;

use run::run;
use standard::{StdSink, StdSource};
use std::env;
use std::process::ExitCode;

fn main(rt: HostRuntime) -> ExitCode {
    let mut source = StdSource::new(&rt);
    let mut sink = StdSink::new(&rt);
    run(rt.alloc(), env::args(&rt), &mut source, &mut sink)
}

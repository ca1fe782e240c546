//! The line to the shop, which computes its replies.

ghost use Rattle.std.specs.Prelude.{◌≡◌};
ghost use Rattle.line_base.specs.Foretold.{answer_told};

use crate::replying::reply_to;
use cache_book::Permit;
use cache_terms::Reply;
use line_base::{Call, Line, LineFault, Told, failed_calls, tell, telling};
use std::alloc::Global;
use std::marker::Model;

/// A line to a shop of 50 items. Its subgraph `catalog` answers five items, and `reviews` the stars of items, each with a tag of
/// its own. Any other call fails and counts.
#[derive(Drop)]
pub struct ShopLine {
    alloc: Global,
    log: Vec<Told>,
}

impl Model for ShopLine {
    ghost use Rattle.std.specs.Prelude.{List, All};
    ghost use Rattle.line_base.specs.Lines.{Entry};
    ghost use Rattle.line_base.specs.Told.{entries_told};
    ghost use Rattle.workload.specs.Answered.{IsAsReplied};

    ghost Value = { List Entry };

    ghost view = { λ s. entries_told s.log.items };

    ghost invariant = { λ s. All IsAsReplied (entries_told s.log.items) };
}

impl ShopLine {
    ghost use Rattle.std.specs.Prelude.{◌≡◌, [], All};
    ghost use Rattle.line_base.specs.Told.{entries_told};
    ghost use Rattle.workload.specs.Answered.{IsAsReplied};

    /// A line over which no call was made yet.
    pub fn new(alloc: Global) -> ShopLine
        ensures { result ≡ [] }
    {
        ShopLine {
            alloc,
            log: Vec::new(alloc),
        }
    }

    /// The calls that it has answered, in order.
    pub fn log(&self) -> &Vec<Told>
        ensures told { entries_told result.now.items ≡ self.now }
        ensures replied { All IsAsReplied self.now }
    {
        &self.log
    }
}

/// The answer that a line tells.
fn answer(reply: Option<Reply>) -> Result<Reply, LineFault>
    ensures { result ≡ answer_told reply }
{
    match reply {
        Some(reply) => Ok(reply),
        None => Err(LineFault::Failed),
    }
}

impl Line for ShopLine {
    ghost use Rattle.workload.specs.Answered.{shop_line};

    ghost line = { λ s. shop_line s };

    fn fetch(&mut self, permits: &[Permit], call: &Call) -> Result<Reply, LineFault> {
        let Ok(reply) = reply_to(self.alloc, call) else {
            return Err(LineFault::Memory);
        };
        let Ok(told) = telling(self.alloc, permits, call, reply.as_ref()) else {
            return Err(LineFault::Memory);
        };
        if tell(&mut self.log, told).is_err() {
            return Err(LineFault::Memory);
        }
        answer(reply)
    }

    fn calls(&self) -> u64 {
        self.log.len() as u64
    }

    fn faults(&self, sub: u64) -> u64 {
        failed_calls(&self.log, sub) as u64
    }
}

ghost use Rattle.std.specs.Prelude.{◌≡◌, All, length, replicate};
ghost use Rattle.cache_book.specs.Settling.{IsInRange};
ghost use Rattle.cache_book.specs.declared.permit.Report.TheVariants as report;
ghost use Rattle.cache_seam.specs.Objects.{OffersObject};
ghost use Rattle.cache_seam.specs.Hand.{IsHand};
ghost use Rattle.piece_fetch.specs.Between.{SettlesAll};

use cache_book::{Fill, Permit, Report};
use cache_seam::Cache;
use std::collections::VecDeque;

/// Settles each permit with its report, in order. Takes no memory.
pub fn settle_all<C: Cache>(cache: &mut C, permits: Vec<Permit>, reports: Vec<Report>)
    requires hand { IsHand (C.seen cache.old) permits.items }
    requires length { length reports.items ≡ length permits.items }
    requires range { All IsInRange reports.items }
    requires objects { All OffersObject reports.items }
    ensures { SettlesAll (C.seen cache.old) permits.items reports.items (C.seen cache.new) }
{
    let mut permits = VecDeque::from(permits);
    let mut reports = VecDeque::from(reports);
    'settling: while let Some(permit) = permits.pop_front() {
        let Some(report) = reports.pop_front() else {
            unreachable!()
        };
        let _settled = cache.settle(Fill { permit, report });
    }
    permits.destroy_empty();
}

/// Settles each permit as Failed, in order. Takes no memory.
pub fn give_up<C: Cache>(cache: &mut C, permits: Vec<Permit>)
    requires { IsHand (C.seen cache.old) permits.items }
    ensures { SettlesAll (C.seen cache.old) permits.items
        (replicate (length permits.items) report.Failed) (C.seen cache.new) }
{
    let mut permits = VecDeque::from(permits);
    'settling: while let Some(permit) = permits.pop_front() {
        let _settled = cache.settle(Fill {
            permit,
            report: Report::Failed,
        });
    }
    permits.destroy_empty();
}

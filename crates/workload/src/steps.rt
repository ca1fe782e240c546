//! The steps, one after the other.

ghost use Rattle.std.specs.Prelude.{◌≡◌, ◌≤◌, All, IfOk, OnOk, drop};
ghost use Rattle.line_base.specs.Told.{entries_told};
ghost use Rattle.router_config.specs.Lawful.{IsLawful};
ghost use Rattle.workload.specs.Answered.{IsAsReplied};
ghost use Rattle.workload.specs.Between.{HasOneLine, first_line, midway};
ghost use Rattle.workload.specs.Steps.{InvalidatesOne, RequestsOne, DoesOne, StandsAfter, outset};

use crate::counts::{Counts, with_answer};
use crate::draws::{FIRST, number_after};
use crate::line::ShopLine;
use crate::site::{notice_drawn, request_drawn};
use cache_seam::{Alone, Cache};
use flow_base::Memory;
use line_base::{Solo, Told};
use partial_fetch::run_request;
use router_config::Site;
use std::alloc::Global;
use still_clock::Still;

/// What stands between two steps: the cache, the one line to the shop, and the counts.
#[derive(Drop)]
pub struct Shop {
    pub cache: Alone,
    pub lines: Vec<ShopLine>,
    pub counts: Counts,
}

/// A shop in which nothing was done yet.
pub fn open_shop(alloc: Global, site: &Site) -> Result<Shop, Memory>
    requires lawful { IsLawful site.now }
    ensures one { IfOk result (λ s. HasOneLine s.lines.items) }
    ensures outset { IfOk result (λ s. midway s ≡ outset site.now.config.limits) }
{
    let cache = Alone::open(alloc, site.config.limits)?;
    let mut lines = Vec::new(alloc);
    lines.push(ShopLine::new(alloc))?;
    Ok(Shop {
        cache,
        lines,
        counts: Counts {
            requests: 0,
            voids: 0,
            hits: 0,
            misses: 0,
        },
    })
}

/// The calls that the one line has told.
fn calls_told(lines: &[ShopLine]) -> &[Told]
    requires one { HasOneLine lines.now }
    ensures told { entries_told result.now ≡ first_line lines.now }
    ensures replied { All IsAsReplied (first_line lines.now) }
{
    lines[0].log().as_slice()
}

/// The calls of this number on.
fn since(log: &[Told], number: usize) -> &[Told]
    ensures { result.now ≡ drop number log.now }
{
    if number <= log.len() {
        &log[number..]
    } else {
        &[]
    }
}

/// Invalidates the tag that is drawn.
fn invalidate(alloc: Global, drawn: u64, shop: &mut Shop) -> Result<(), Memory>
    requires one { HasOneLine shop.old.lines.items }
    ensures one { HasOneLine shop.new.lines.items }
    ensures ok { OnOk result (InvalidatesOne drawn (midway shop.old) (midway shop.new)) }
{
    let notice = notice_drawn(alloc, drawn)?;
    let _voided = shop.cache.invalidate(notice);
    shop.counts.voids = shop.counts.voids.saturating_add(1);
    Ok(())
}

/// Makes the request that is drawn, at this moment.
fn request(
    alloc: Global,
    site: &Site,
    drawn: u64,
    moment: u64,
    shop: &mut Shop,
) -> Result<(), Memory>
    requires lawful { IsLawful site.now }
    requires one { HasOneLine shop.old.lines.items }
    ensures one { HasOneLine shop.new.lines.items }
    ensures ok { OnOk result
        (RequestsOne site.now drawn moment (midway shop.old) (midway shop.new)) }
{
    let request = request_drawn(alloc, drawn)?;
    let before = calls_told(shop.lines.as_slice()).len();
    let mut clock = Still { moment, reads: 0 };
    let answer = run_request(
        alloc,
        &Solo,
        site,
        &mut shop.cache,
        &mut shop.lines,
        &mut clock,
        &request,
    )?;
    let calls = since(calls_told(shop.lines.as_slice()), before);
    shop.counts = with_answer(shop.counts, &answer, calls);
    Ok(())
}

/// One step.
fn step(alloc: Global, site: &Site, drawn: u64, moment: u64, shop: &mut Shop) -> Result<(), Memory>
    requires lawful { IsLawful site.now }
    requires one { HasOneLine shop.old.lines.items }
    ensures one { HasOneLine shop.new.lines.items }
    ensures ok { OnOk result (DoesOne site.now drawn moment (midway shop.old) (midway shop.new)) }
{
    if drawn % 10 == 0 {
        invalidate(alloc, drawn, shop)
    } else {
        request(alloc, site, drawn, moment, shop)
    }
}

/// So many steps, in a shop in which nothing was done yet.
pub fn do_steps(alloc: Global, site: &Site, steps: u64, shop: &mut Shop) -> Result<(), Memory>
    requires lawful { IsLawful site.now }
    requires few { steps ≤ 100000 }
    requires one { HasOneLine shop.old.lines.items }
    requires outset { midway shop.old ≡ outset site.now.config.limits }
    ensures stands { OnOk result (StandsAfter site.now steps (midway shop.new)) }
{
    let mut number = FIRST;
    for k in 0..steps {
        let next = number_after(number);
        step(alloc, site, next / 65_536, 100 * (k + 1), shop)?;
        number = next;
    }
    Ok(())
}

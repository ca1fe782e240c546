ghost use Rattle.std.specs.Prelude.{◌≡◌, ◌<◌, ◌≤◌, nat_lt, filter, IfOk, IfErr, vec_len, vec_capacity};
ghost use Rattle.std.specs.FinMap.{put, find};
ghost use Rattle.book_index.specs.Targets.{shown, target_cmp};
ghost use Rattle.book_index.specs.Stamps.{IsInOrder, IsRowOf, IsGapFor};

use crate::targets::{TargetRef, compare};
use cache_terms::Target;
use flow_base::Memory;
use std::alloc::Global;
use std::marker::Model;

/// Targets with a position each, sorted by target, and the number of times that one was looked up.
/// `read` alone looks one up.
#[derive(Debug, Drop)]
pub struct Table {
    rows: Vec<(Target, u64)>,
    limit: u64,
    steps: u64,
}

impl Model for Table {
    ghost use Rattle.std.specs.Prelude.{◌≤◌, vec_capacity};
    ghost use Rattle.book_index.specs.Stamps.{Stamped, coded_stamped, stamped, IsInOrder};

    ghost Value = { Stamped };

    ghost coded = { coded_stamped };

    ghost view = { λ t. stamped t.limit t.steps t.rows.items };

    ghost invariant = { λ t. IsInOrder t.rows.items × (t.limit ≤ vec_capacity t.rows) };
}

impl Table {
    ghost use Rattle.std.specs.Prelude.{◌≡◌, ◌<◌, ◌≤◌, ◌+◌, IfOk};
    ghost use Rattle.std.specs.FinMap as map;
    ghost use Rattle.book_index.specs.Targets.{shown};
    ghost use Rattle.book_index.specs.Stamps.{unstamped, probed, noted, cleared, IsPruned};

    /// No stamps, with room for `limit`. Fails only for want of memory.
    pub fn open(alloc: Global, limit: u64) -> Result<Table, Memory>
        ensures opened { IfOk result (λ t. t ≡ unstamped limit) }
        ensures none { IfOk result (λ t. map.len t.stamps ≡ 0) }
    {
        Ok(Table {
            rows: Vec::with_capacity(alloc, limit as usize)?,
            limit,
            steps: 0,
        })
    }

    /// The position of a target, in one step.
    pub fn read(&mut self, target: TargetRef<'_>) -> Option<u64>
        ensures value { result ≡ map.get self.old.stamps (shown target.entry) }
        ensures step { self.new ≡ probed self.old 1 }
    {
        self.steps = self.steps.saturating_add(1);
        position_of(&self.rows, target)
    }

    /// The target has this position from now on. Takes no memory.
    pub fn note(&mut self, target: Target, position: u64)
        requires { map.len self.old.stamps < self.old.limit }
        ensures noted { self.new ≡ noted self.old target position }
        ensures few { map.len self.new.stamps ≤ map.len self.old.stamps + 1 }
    {
        put_row(&mut self.rows, target, position);
    }

    /// Drops what stands at or before the horizon. Takes no memory.
    pub fn prune(&mut self, horizon: u64)
        ensures stamps { IsPruned horizon self.old.stamps self.new.stamps }
        ensures limit { self.new.limit ≡ self.old.limit }
        ensures probes { self.new.probes ≡ self.old.probes }
        ensures few { map.len self.new.stamps ≤ map.len self.old.stamps }
    {
        keep_above(&mut self.rows, horizon);
    }

    /// Drops all that stands. Takes no memory.
    pub fn clear(&mut self)
        ensures { self.new ≡ cleared self.old }
    {
        self.rows.clear();
    }

    /// How many targets have a position.
    pub fn count(&self) -> u64
        ensures { result ≡ map.len self.now.stamps }
    {
        self.rows.len() as u64
    }

    /// The number of steps.
    pub fn steps(&self) -> u64
        ensures { result ≡ self.now.probes }
    {
        self.steps
    }
}

/// Where a target stands, or where it would go.
fn search(rows: &[(Target, u64)], target: TargetRef<'_>) -> Result<usize, usize>
    requires { IsInOrder rows.now }
    ensures found { IfOk result (IsRowOf rows.now (shown target.entry)) }
    ensures absent { IfErr result (IsGapFor rows.now (shown target.entry)) }
{
    rows.binary_search_by(|row| compare(TargetRef::of(&row.0), target))
}

/// The position of a target.
fn position_of(rows: &[(Target, u64)], target: TargetRef<'_>) -> Option<u64>
    requires { IsInOrder rows.now }
    ensures { result ≡ find target_cmp (shown target.entry) rows.now }
{
    match search(rows, target) {
        Ok(at) => Some(rows[at].1),
        Err(_) => None,
    }
}

/// Puts a target at its place.
fn put_row(rows: &mut Vec<(Target, u64)>, target: Target, position: u64)
    requires sorted { IsInOrder rows.old.items }
    requires room { vec_len rows.old < vec_capacity rows.old }
    ensures rows { rows.new.items ≡ put target_cmp target position rows.old.items }
    ensures room { vec_capacity rows.old ≤ vec_capacity rows.new }
{
    match search(rows, TargetRef::of(&target)) {
        Ok(at) => rows[at] = (target, position),
        Err(at) => rows.insert(at, (target, position)).unwrap(),
    }
}

/// Keeps the rows above the horizon.
fn keep_above(rows: &mut Vec<(Target, u64)>, horizon: u64)
    ensures rows { rows.new.items ≡ filter (λ row. nat_lt horizon row.1) rows.old.items }
    ensures room { vec_capacity rows.new ≡ vec_capacity rows.old }
{
    rows.retain(|row| horizon < row.1);
}

ghost use Rattle.std.specs.Prelude.{◌≡◌, slice_get};
ghost use Rattle.plan_run.specs.Fetches.{places_of};

use crate::plan as plans;
use crate::subgraphs::{Subgraph, find};
use fetch_asks::ask_of;
use flow_base::Memory;
use json_paths::Place;
use json_value::Json;
use plan_exec::{Asked, Done, Machine, Task as Ready};
use plan_tree::Plan;
use std::alloc::Global;
use std::marker::Model;
use tree_items::{Items, at};

/// A query plan that is run for a request, one fetch at a time: always the first that is ready.
#[derive(Drop)]
pub struct PlanFetches<'a> {
    alloc: Global,
    plan: &'a Plan,
    subgraphs: &'a [Subgraph],
    variables: &'a Json,
    machine: Machine,
}

impl<'a> Model for PlanFetches<'a> {
    ghost use Rattle.std.specs.Prelude.{map};
    ghost use Rattle.std.specs.Coded.{codes};
    ghost use Rattle.plan_tree.specs.contracts.plan.Node as node_row;
    ghost use Rattle.json_paths.specs.contracts.needs.Need as need_row;
    ghost use Rattle.json_value.specs.contracts.tree.Json as json_row;
    ghost use Rattle.plan_run.specs.Fetches.{Execution, IsRunSound, given_pieces};

    ghost Value = { Execution };

    ghost coded = { Prim.hlevel
        (codes, node_row.the_row.coded, need_row.the_row.coded, json_row.the_row.coded) };

    ghost view = { λ f. record {
      plan = f.plan.now;
      subgraphs = f.subgraphs.now;
      variables = f.variables.now;
      given = map
          given_pieces f.machine.given;
    } };

    ghost invariant = { λ f. IsRunSound f.plan.now f.subgraphs.now f.machine };
}

impl<'a> PlanFetches<'a> {
    ghost use Rattle.std.specs.Prelude.{◌≡◌, [], None, IfOk};
    ghost use Rattle.plan_tree.specs.Lawful.{IsLawful};
    ghost use Rattle.plan_exec.specs.Tasks.{value};
    ghost use Rattle.plan_run.specs.Subgraphs.{AreFrom};
    ghost use Rattle.plan_run.specs.Fetches.{progress_of, next_of};

    /// Nothing is fetched yet. Each fetch is from one of the subgraphs. Fails only for want of memory.
    pub fn start(
        alloc: Global,
        plan: &'a Plan,
        subgraphs: &'a [Subgraph],
        variables: &'a Json,
    ) -> Result<PlanFetches<'a>, Memory>
        requires lawful { IsLawful plan.now }
        requires known { AreFrom subgraphs.now plan.now.fetches }
        ensures { IfOk result (λ f. f
            ≡ record {
              plan = plan.now;
              subgraphs = subgraphs.now;
              variables = variables.now;
              given
                  = [];
            }) }
    {
        let machine = Machine::start(alloc, plan)?;
        Ok(PlanFetches {
            alloc,
            plan,
            subgraphs,
            variables,
            machine,
        })
    }

    /// The value of the plan over the pieces given, once nothing comes next. Takes no memory.
    pub fn finish(self) -> Json
        requires { next_of self.plan self.subgraphs self.variables self.given ≡ None }
        ensures { result ≡ value (progress_of self.entry.plan self.entry.given) }
    {
        let PlanFetches {
            alloc: _,
            plan: _,
            subgraphs: _,
            variables: _,
            machine,
        } = self;
        machine.finish()
    }
}

impl plans::Plan for PlanFetches<'_> {
    ghost use Rattle.plan_exec.specs.Tasks.{value};
    ghost use Rattle.plan_exec.specs.Giving.{fetches_left};
    ghost use Rattle.plan_run.specs.Fetches.{progress_of, next_of};

    ghost next = { λ f. next_of f.plan f.subgraphs f.variables };

    ghost given = { λ f. f.given };

    ghost value_over = { λ f given. value (progress_of f.plan given) };

    ghost left = { λ f. fetches_left (progress_of f.plan f.given) };

    fn task(&self) -> Result<Option<plans::Task>, Memory> {
        let Some(task) = first(self.machine.asks()?) else {
            return Ok(None);
        };
        let Ready {
            fetch: number,
            asked,
        } = task;
        let Some(fetch) = at(self.plan.fetches.as_slice(), number as usize) else {
            return Ok(None);
        };
        let Some((sub, uncached)) = find(self.subgraphs, &fetch.sub) else {
            return Ok(None);
        };
        let (ask, keys) = ask_of(self.alloc, sub, uncached, fetch, &asked, self.variables)?;
        Ok(Some(plans::Task {
            fetch: number,
            ask,
            keys,
            places: places_of(self.alloc, asked),
        }))
    }

    fn give(&mut self, fetch: u64, pieces: Vec<Json>) -> Result<(), Memory> {
        let mut results = Vec::with_capacity(self.alloc, 1)?;
        results.push(Done {
            fetch,
            pieces: Items::from_vec(pieces),
        })?;
        self.machine.give(results)
    }
}

/// The first task, if there is one.
fn first(tasks: Vec<Ready>) -> Option<Ready>
    ensures { result ≡ slice_get tasks.items 0 }
{
    let mut tasks = Items::from_vec(tasks);
    if tasks.is_empty() {
        return None;
    }
    Some(tasks.remove(0))
}

/// The places that use each piece; the data of a root fetch is used as a whole.
fn places_of(alloc: Global, asked: Asked) -> Items<Items<Place>>
    ensures { result ≡ places_of asked }
{
    match asked {
        Asked::Root => Items::new(alloc),
        Asked::Entities {
            distinct: _,
            used_by,
        } => used_by,
    }
}

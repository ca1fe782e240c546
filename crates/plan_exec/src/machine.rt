use crate::moving::{advance, progress};
use crate::tasks::{Done, Task, copy_tasks};
use flow_base::Memory;
use json_value::Json;
use plan_tree::Plan;
use std::alloc::Global;
use std::marker::Model;

/// The execution of a plan: pieces are given, and it says what can be asked for next. Contracts see it as the plan and
/// the pieces given so far.
///
/// After each `give` it computes the value and what is ready anew, from the empty object.
#[derive(Drop)]
pub struct Machine {
    alloc: Global,
    plan: Plan,
    given: Vec<Done>,
    whole: Json,
    ready: Vec<Task>,
}

impl Model for Machine {
    ghost use Rattle.plan_exec.specs.Tasks.{Progress, IsKept};
    ghost use Rattle.std.specs.Coded.{codes};
    ghost use Rattle.plan_tree.specs.contracts.plan.Node as node_row;
    ghost use Rattle.json_paths.specs.contracts.needs.Need as need_row;
    ghost use Rattle.json_value.specs.contracts.tree.Json as json_row;

    ghost Value = { Progress };

    ghost coded = { Prim.hlevel
        (codes, node_row.the_row.coded, need_row.the_row.coded, json_row.the_row.coded) };

    ghost view = { λ m. record { plan = m.plan; given = m.given.items } };

    ghost invariant = { λ m. IsKept m.plan m.given.items m.whole m.ready.items };
}

impl Machine {
    ghost use Rattle.std.specs.Prelude.{◌≡◌, ◌++◌, ◌<◌, [], None, length, map, IfOk, OnOk, OnErr};
    ghost use Rattle.plan_tree.specs.Numbers.{numbers};
    ghost use Rattle.plan_tree.specs.Lawful.{IsLawful};
    ghost use Rattle.plan_exec.specs.declared.tasks.Task.{Task};
    ghost use Rattle.plan_exec.specs.Exec.{pieces_of};
    ghost use Rattle.plan_exec.specs.Tasks.{waiting, value, task_of};
    ghost use Rattle.plan_exec.specs.Giving.{Among, CanTake, fetches_left};
    ghost use Rattle.plan_exec.specs.Keeping.{IsPart, still_open};

    /// A machine that keeps a copy of the plan, with no pieces given. Fails only for want of memory.
    pub fn start(alloc: Global, plan: &Plan) -> Result<Machine, Memory>
        ensures machine { IfOk result (λ m. m ≡ record { plan = plan.now; given = [] }) }
        // No more rounds come than the plan has fetches, since each leaves fewer.
        ensures bound { IfOk result (λ m. fetches_left m ≡ length (numbers plan.now.root)) }
        ensures lawful { IfOk result
            (λ m. IsLawful plan.now → fetches_left m ≡ length plan.now.fetches) }
    {
        let plan = plan.copy(alloc)?;
        let given = Vec::new(alloc);
        let (whole, ready) = progress(alloc, &plan, &given)?;
        Ok(Machine {
            alloc,
            plan,
            given,
            whole,
            ready,
        })
    }

    /// The ready fetches in the plan's order. A Flatten without representations is passed over. Fails only for want of
    /// memory.
    pub fn asks(&self) -> Result<Vec<Task>, Memory>
        ensures tasks { IfOk result
            (λ tasks. tasks.items ≡ map (task_of self.now.plan.fetches) (waiting self.now)) }
        // What is asked was not given before.
        ensures fresh { IfOk result
            (λ tasks. (t : Task) → Among t tasks.items → pieces_of self.now.given t.fetch ≡ None) }
    {
        let tasks = copy_tasks(self.alloc, &self.ready)?;
        Ok(tasks)
    }

    /// Gives the pieces of some of the ready fetches. After want of memory the machine is as before.
    pub fn give(&mut self, results: Vec<Done>) -> Result<(), Memory>
        requires { CanTake self.old results.items }
        ensures ok { OnOk result (self.new
            ≡ record { plan = self.old.plan; given = self.old.given ++ results.items }) }
        ensures err { OnErr result (self.new ≡ self.old) }
        // What was ready and is not given yet stays ready, with the same start values and in the same order.
        ensures others { OnOk result
            (IsPart (still_open self.new.given (waiting self.old)) (waiting self.new)) }
        ensures fewer { OnOk result (fetches_left self.new < fetches_left self.old) }
    {
        let (whole, ready) = advance(self.alloc, &self.plan, &mut self.given, results)?;
        self.whole = whole;
        self.ready = ready;
        Ok(())
    }

    /// The value of the plan. Takes no memory.
    pub fn finish(self) -> Json
        requires { waiting self ≡ [] }
        ensures { result ≡ value self }
    {
        let Machine {
            alloc: _,
            plan: _,
            given: _,
            whole,
            ready: _,
        } = self;
        whole
    }
}

//! What tasks do to limiters and channels in a moment is served at its end, in the order of records.
ghost use Rattle.std.specs.Prelude.{◌≡◌, ◌<◌, ◌≤◌, ◌^◌, ◌++◌, ℕ, [], None, List, IsSome, All, IfOk, OnOk, map};
ghost use Rattle.clock.specs.Clock.{due_of};
ghost use Rattle.run_refinement.specs.Sharing.{waits_in};
ghost use Rattle.task_table.specs.TaskTable.{running_at, task_count, task_of, IsTaskTable};
ghost use Rattle.job_runner.specs.Grants.{call_of, getter_of, Grants, GrantsOnly, MayGetAll, RecordsAll, ServesRound};
ghost use Rattle.job_runner.specs.Serving.{act_of_placed, AreOrdered, ArePlaced, ServesAct, ServesActs, StayLent};
ghost use Rattle.job_runner.specs.Shared.{later_calls};
ghost use Rattle.job_runner.specs.Shelves.{AreShelved, IsActOf, IsGoing, IsUnserved};
ghost use Rattle.job_runner.specs.Steps.{TakesActs, KeepsAsk};

use crate::runner::Runner;
use cancel_scopes::ScopeId;
use exceptions::Label;
use input_lines::Part;
use job_tree::{Ask, ObjectKind};
use objects::{Given, Operation, Ticket};
use std::alloc::{AllocError, Global};
use std::mem;
use task_machine::Act;
use task_table::{Call, TaskTable};

// What the task of a row did to a limiter or channel in the present moment, or asked of it.
#[derive(Drop)]
pub(crate) struct RoundAct<'a> {
    pub(crate) row: usize,
    pub(crate) object: Label,
    pub(crate) done: Done<'a>,
}

// What is done to a limiter or channel. Who asks for something has this part of the input.
#[derive(Clone, Copy)]
pub(crate) enum Done<'a> {
    Opens(ObjectKind),
    Asks(Ask, Part<'a>),
    GivesBack,
    Closes,
}

// An act, with the rows from the root's to that of its task.
#[derive(Drop)]
struct PlacedAct<'a> {
    path: Vec<usize>,
    act: RoundAct<'a>,
}

impl<'a> Runner<'a> {
    // Takes what the task of a row did to limiters and channels in its turn from the world.
    pub(crate) fn take_acts(&mut self, row: usize) -> Result<(), AllocError>
        ensures { OnOk result (TakesActs self.old self.new row) }
    {
        'acts: while let Some(act) = self.world.take_act() {
            let done = match act.act {
                Act::Opens(kind) => Done::Opens(kind),
                Act::GivesBack => Done::GivesBack,
                Act::Closes => Done::Closes,
            };
            self.round.push(RoundAct {
                row,
                object: act.object,
                done,
            })?;
        }
        Ok(())
    }

    // Keeps what the task of a row asks of a limiter or channel in the present moment.
    pub(crate) fn keep_ask(
        &mut self,
        row: usize,
        object: ScopeId,
        ask: Ask,
        part: Part<'a>,
    ) -> Result<(), AllocError>
        ensures { OnOk result (KeepsAsk self.old self.new row (record { object = object; ask = ask; part = part.entry })) }
    {
        let Some(label) = self.world.label_of(object) else {
            return Ok(());
        };
        let object = label.copy(self.alloc)?;
        let done = Done::Asks(ask, part);
        self.round.push(RoundAct { row, object, done })?;
        Ok(())
    }

    // Serves what was done to limiters and channels in the present moment. The tasks that are granted something by it continue in
    // the next one.
    pub(crate) fn serve_round(&mut self) -> Result<(), AllocError>
        requires going { IsGoing self.old }
        requires unserved { IsUnserved self.old }
        requires none_ready { (self.old.batch.current ≡ []) × (self.old.batch.next ≡ []) }
        ensures going { OnOk result (IsGoing self.new) }
        ensures served { OnOk result (ServesRound self.old self.new) }
    {
        self.through = self.world.now() + 1;
        let round = mem::replace(&mut self.round, Vec::new(self.alloc));
        let ordered = in_record_order(self.alloc, round, &self.task_table)?;
        let given = self.serve_acts(ordered)?;
        self.grant_all(given)?;
        Ok(())
    }

    // Serves acts, one after the other, and returns what is granted by them.
    fn serve_acts(&mut self, ordered: Vec<PlacedAct<'a>>) -> Result<Vec<Given<'a>>, AllocError>
        ensures serves { IfOk result (λ given.
            ServesActs (waits_in (task_of self.old.task_table)) self.old.world.tick self.old.objects self.new.objects
            (map act_of_placed ordered.entry.items) given.items) }
        ensures lent { IfOk result (λ given. All (IsActOf self.old.input.now) (map act_of_placed ordered.entry.items) →
            StayLent self.old.input.now self.old.objects self.new.objects [] given.items) }
        ensures rest { OnOk result (self.new ≡ record self.old { objects = self.new.objects }) }
    {
        let mut given = Vec::new(self.alloc);
        'acts: for placed in ordered {
            self.serve_act(placed.act, &mut given)?;
        }
        Ok(given)
    }

    // Serves one act.
    fn serve_act(&mut self, act: RoundAct<'a>, given: &mut Vec<Given<'a>>) -> Result<(), AllocError>
        ensures serves { OnOk result (ServesAct (waits_in (task_of self.old.task_table)) self.old.world.tick self.old.objects self.new.objects act.entry given.old.items given.new.items) }
        ensures lent { OnOk result (IsActOf self.old.input.now act.entry → StayLent self.old.input.now self.old.objects self.new.objects given.old.items given.new.items) }
        ensures rest { OnOk result (self.new ≡ record self.old { objects = self.new.objects }) }
    {
        let who = Ticket {
            row: act.row,
            since: self.world.now(),
        };
        match act.done {
            Done::Opens(kind) => self.objects.open(act.object, kind)?,
            Done::Asks(ask, part) => {
                let asks = Operation::Asks { who, ask, part };
                self.objects
                    .serve(&act.object, asks, &self.task_table, given)?
            }
            Done::GivesBack => {
                self.objects
                    .serve(&act.object, Operation::GivesBack, &self.task_table, given)?
            }
            Done::Closes => {
                self.objects
                    .serve(&act.object, Operation::Closes, &self.task_table, given)?
            }
        }
        Ok(())
    }

    // Each task that is granted something continues a round later, and waits no more.
    fn grant_all(&mut self, given: Vec<Given<'a>>) -> Result<(), AllocError>
        requires shelved { AreShelved None self.old }
        requires may { MayGetAll self.old given.items }
        ensures shelved { OnOk result (AreShelved None self.new) }
        ensures later { OnOk result (later_calls self.new ≡ later_calls self.old ++ map (call_of self.old.task_table) given.entry.items) }
        ensures recorded { OnOk result (RecordsAll given.entry.items self.old self.new) }
        ensures rest { OnOk result (GrantsOnly self.old self.new) }
    {
        'given: for one in given {
            self.grant(one)?;
        }
        Ok(())
    }

    // One task does.
    fn grant(&mut self, given: Given<'a>) -> Result<(), AllocError>
        requires row { given.who.row < task_count self.old.task_table }
        requires lives { IsSome (running_at self.old.task_table (getter_of self.old.task_table given)) }
        requires timed { IsSome (due_of self.old.clock (getter_of self.old.task_table given)) }
        requires bounded { self.old.world.tick ≤ 2 ^ 62 }
        ensures { OnOk result (Grants given.entry self.old self.new) }
    {
        let id = self.task_table.id(given.who.row);
        self.clock.wake(id);
        self.sleepers.remove(id);
        self.record(id, given)?;
        self.later.add(id, Call::Granted(given.grant))?;
        Ok(())
    }
}

// The acts in the order of records, those of one task in the order in which it did them.
fn in_record_order<'a>(
    alloc: Global,
    round: Vec<RoundAct<'a>>,
    task_table: &TaskTable<'a>,
) -> Result<Vec<PlacedAct<'a>>, AllocError>
    requires agree { IsTaskTable task_table.now }
    requires rows { All (λ a. a.row < task_count task_table.now) round.items }
    ensures order { IfOk result (λ ordered. AreOrdered task_table.now round.entry.items ordered.items) }
    ensures lent { IfOk result (λ ordered. (input : List ℕ) → All (IsActOf input) round.entry.items → All (IsActOf input) (map act_of_placed ordered.items)) }
{
    let mut placed = placed_acts(alloc, round, task_table)?;
    placed.sort_by(|a: &PlacedAct, b: &PlacedAct| a.path.cmp(&b.path))?;
    Ok(placed)
}

// The acts, each with the rows from the root's to that of its task.
fn placed_acts<'a>(
    alloc: Global,
    round: Vec<RoundAct<'a>>,
    task_table: &TaskTable<'a>,
) -> Result<Vec<PlacedAct<'a>>, AllocError>
    requires agree { IsTaskTable task_table.now }
    requires rows { All (λ a. a.row < task_count task_table.now) round.items }
    ensures { IfOk result (λ placed. ArePlaced task_table.now round.entry.items placed.items) }
{
    let mut placed = Vec::new(alloc);
    'acts: for act in round {
        let path = task_table.path(act.row)?;
        placed.push(PlacedAct { path, act })?;
    }
    Ok(placed)
}

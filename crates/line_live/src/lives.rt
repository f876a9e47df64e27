//! The machine that lets go: it answers as the world does, and keeps no more than it needs.
ghost use Rattle.std.specs.Prelude.{◌≡◌, ◌≢◌, ◌<◌, ◌≤◌, ◌↔◌, ◌⊎◌, ℕ, None, Some, length, map};
ghost use Rattle.std.specs.Prelude.{IfErr, IfOk, IsErrOf, IsOk, IsTrue, OnOk, take};
ghost use Rattle.line_tape.specs.declared.modes.Mode.TheVariants.{Fifo};
ghost use Rattle.line_tape.specs.StepShown.{step_of_ref, HasShortBody};
ghost use Rattle.line_world.specs.declared.replies.Answer.TheVariants.{Done, Refused};
ghost use Rattle.line_world.specs.Machine.{is_open};
ghost use Rattle.line_world.specs.Refusals.{has_stranger, refusal_of};
ghost use Rattle.line_world.specs.Steps.{IsPlan};
ghost use Rattle.line_cuts.specs.Cuts.{floor_check, whole_floor, FloorSurvives, IsFloor};
ghost use Rattle.line_cuts.specs.Floors.{HasNumbers, LacksNumbers};
ghost use Rattle.line_live.specs.CutMachines.{cut_step, whole_plan};
ghost use Rattle.line_live.specs.Forgets.{forget_refusal, idle_refusal};
ghost use Rattle.line_live.specs.Lives.{floor_refusal, start_live, ForgetsLive, ForgetsRound};
ghost use Rattle.line_live.specs.Lived.{LetsNothingGo};
ghost use Rattle.line_live.specs.Lives.{IsLineKept, IsPlanOfKept, IsRoundKept};
ghost use Rattle.line_live.specs.Lives.{LetsGo, RunLive, TakesLive};
ghost use Rattle.line_live.specs.Resumed.{checks_in_round, resumed_machine, AreByNumber};
ghost use Rattle.line_live.specs.Resumed.{IsFloorOfAll, IsResumable, IsResumeRefused};

use crate::forgets::round_floor;
use crate::kept_steps::{step_kept, step_of_kept};
use crate::live_floors::line_floor;
use crate::refusals::{ForgetError, ResumeError};
use crate::resumed::{RoundChecks, lets_nothing_go, look_at_rounds, resumed_listing, test_parts};
use crate::whole_names::bring_plan;
use crate::worlds::cut_world;
use line_catalogue::Catalogue;
use line_cuts::{OwnedFloor, whole_floor};
use line_names::{MOST_PROCESSES, ProcSet};
use line_plan::Plan;
use line_tape::{CountError, Mode, Step, StepRef};
use line_world::{Answer, Reply, RunStopped, StepError, World};
use std::alloc::Global;
use std::marker::Model;

/// Processes with a link from each to each other, as a `World` has them, whose tapes may be cut.
///
/// It answers in the names and numbers of a world that keeps everything, whatever was let go: it
/// brings back what the world that it keeps answers. As long as nothing was let go, a step costs
/// what it costs there.
#[derive(Drop)]
pub struct Live {
    world: World,
    floor: OwnedFloor,
    /// Whether something may have been let go.
    forgot: bool,
}

impl Model for Live {
    ghost use Rattle.line_live.specs.Lives.{LiveMachine};

    ghost Value = { LiveMachine };

    ghost use Rattle.line_live.specs.Numbers.{IsTallied};

    ghost view = { λ l. record {
      floor = l.floor;
      kept = l.world;
    } };

    ghost invariant = { λ l. IsTallied l.floor l.forgot l.world };
}

impl Live {
    /// The machine of `n` processes that have done nothing yet.
    ///
    /// It makes a queue for each pair of processes.
    pub fn new(alloc: Global, n: u32, mode: Mode) -> Result<Live, CountError>
        ensures ok { IfOk result (λ live. live ≡ start_live n mode) }
        ensures count { IsErrOf result CountError.BadCount ↔ ((n ≡ 0) ⊎ (MOST_PROCESSES < n)) }
    {
        let world = World::new(alloc, n, mode)?;
        let floor = OwnedFloor::first(alloc, n)?;
        Ok(Live {
            world,
            floor,
            forgot: false,
        })
    }

    /// The machine that goes on from the parts of one, as they were saved: what its processes did,
    /// in names and numbers of what is kept, with marks and bars; the floor; the last round begun;
    /// and the listed rounds. Links keep their order, and no round is open.
    ///
    /// It asks whether links could lead to the tapes, at the cost of `is_idle`, which takes a byte
    /// for each round up to the last one begun; and whether the floor survives, by a vector of each
    /// process. For each listed round it looks at a vector of each process and at what was sent and
    /// received since the round before, and `World::resume` makes a queue for each pair of
    /// processes.
    pub fn resume(
        alloc: Global,
        catalogue: Catalogue,
        floor: OwnedFloor,
        last_round: u32,
        rounds: &[RoundChecks],
    ) -> Result<Live, ResumeError>
        ensures floor { IfOk result (λ live. live.floor ≡ floor) }
        ensures kept { IfOk result (λ live. live.kept
            ≡ resumed_machine catalogue.processes catalogue.marks last_round rounds.now) }
        ensures resumable { OnOk result
            (IsResumable catalogue.processes catalogue.marks floor last_round rounds.now) }

        // The refusals, in their order.
        ensures refused { IfErr result (λ e. e ≢ ResumeError.OutOfMemory
            → IsResumeRefused catalogue.processes catalogue.marks floor last_round rounds.now e) }
        ensures memory { IsErrOf result ResumeError.OutOfMemory
            → IsFloorOfAll (length catalogue.processes) floor
            × HasNumbers floor × AreByNumber last_round rounds.now }
    {
        test_parts(alloc, &catalogue, &floor, last_round, rounds)?;
        let mut catalogue = catalogue;
        let rounds = resumed_listing(alloc, &mut catalogue, rounds)?;
        let world = World::resume(alloc, catalogue, last_round, rounds)?;
        let forgot = !lets_nothing_go(&floor);
        Ok(Live {
            world,
            floor,
            forgot,
        })
    }

    /// Whether the machine can be saved now, so that `resume` opens it again: links keep their
    /// order, and no round is open. It looks once at each listed round.
    pub fn may_save(&self) -> Result<(), ForgetError>
        ensures done { OnOk result
            (idle_refusal self.now.kept.mode (is_open self.now.kept) None ≡ None) }
        ensures refused { IfErr result
            (λ e. idle_refusal self.now.kept.mode (is_open self.now.kept) None ≡ Some e) }

        // What is saved is opened as what it was.
        ensures resumable { OnOk result
            (IsResumable self.now.kept.history self.now.kept.marks self.now.floor
            self.now.kept.last_round (map checks_in_round self.now.kept.rounds)) }
        ensures same { OnOk result
            (resumed_machine self.now.kept.history self.now.kept.marks self.now.kept.last_round
            (map checks_in_round self.now.kept.rounds) ≡ self.now.kept) }
    {
        match self.world.mode() {
            Mode::Unordered => Err(ForgetError::WrongMode),
            Mode::Fifo => {
                if self.world.is_open() {
                    return Err(ForgetError::RoundOpen);
                }
                look_at_rounds(&self.world);
                Ok(())
            }
        }
    }

    /// What is kept: a world in names and numbers of its own.
    pub fn kept(&self) -> &World
        ensures { result.now ≡ self.now.kept }
    {
        &self.world
    }

    /// The floor that all else was let go before, counted from the beginning; where nothing was let
    /// go, no process has one.
    pub fn floor(&self) -> &OwnedFloor
        ensures value { result.now ≡ self.now.floor }
        ensures of_all { IsFloorOfAll (length self.now.kept.history) self.now.floor }
    {
        &self.floor
    }

    /// Whether nothing was let go, as a flag tells at once: it says no as soon as something was
    /// forgotten, also where that was nothing.
    #[inline(always)]
    pub fn keeps_all(&self) -> bool
        ensures { IsTrue result → LetsNothingGo self.now.floor }
    {
        !self.forgot
    }

    /// The latest line that the processes could go on from, if those of the set failed, as
    /// `World::plan_for` finds it.
    pub fn plan_for(&self, alloc: Global, failed: &ProcSet) -> Result<Plan, StepError>
        ensures plan { IfOk result (λ plan. IsPlanOfKept self.now failed.now plan) }
        ensures stranger { IsErrOf result StepError.NoSuchProcess
            ↔ IsTrue (has_stranger self.now.kept failed.now) }
        ensures others { IfErr result
            (λ e. (e ≡ StepError.NoSuchProcess) ⊎ (e ≡ StepError.OutOfMemory)) }
    {
        let history = self.world.history();
        let _n = history.n();
        let mut plan = self.world.plan_for(alloc, failed)?;
        if self.forgot {
            bring_plan(&self.floor, &mut plan);
        }
        Ok(plan)
    }

    /// Brings a plan of what is kept back, in its place: into names and numbers that are counted
    /// from the beginning.
    pub fn bring_back(&self, failed: &ProcSet, plan: &mut Plan)
        requires { IsPlan self.now.kept failed.now plan.old }
        ensures { plan.new ≡ whole_plan self.now.floor plan.old }
    {
        let history = self.world.history();
        let _n = history.n();
        if self.forgot {
            bring_plan(&self.floor, plan);
        }
    }

    /// Takes one step as `World::step` does, and at its cost.
    ///
    /// Of a process that has a floor the checks up to it are as an initial state: they cannot be
    /// damaged, and those below it are not there to be barred at. A tape is full when what is kept
    /// of it is as long as a tape may be.
    #[inline(always)]
    pub fn step(&mut self, alloc: Global, step: &Step) -> Result<Reply, StepError>
        ensures done { IfOk result (λ reply. TakesLive self.old step.now (Done reply) self.new) }
        ensures refused { IfErr result
            (λ e. e ≢ StepError.OutOfMemory → TakesLive self.old step.now (Refused e) self.new) }
        ensures memory { IsErrOf result StepError.OutOfMemory → self.new ≡ self.old }
        ensures spared { IsErrOf result StepError.OutOfMemory
            → floor_refusal self.old.floor step.now ≡ None }
        ensures unrefused { IsErrOf result StepError.OutOfMemory
            → refusal_of self.old.kept (cut_step self.old.floor step.now) ≡ None }
    {
        if self.forgot {
            return step_of_kept(alloc, &mut self.world, &self.floor, step);
        }
        self.world.step(alloc, step)
    }

    /// Takes one step as `step` does, and at its cost. What the step carries is lent.
    #[inline(always)]
    pub fn step_lent(&mut self, alloc: Global, step: &StepRef<'_>) -> Result<Reply, StepError>
        requires short { HasShortBody step.now }
        ensures done { IfOk result
            (λ reply. TakesLive self.old (step_of_ref step.now) (Done reply) self.new) }
        ensures refused { IfErr result
            (λ e. e ≢ StepError.OutOfMemory
            → TakesLive self.old (step_of_ref step.now) (Refused e) self.new) }
        ensures memory { IsErrOf result StepError.OutOfMemory → self.new ≡ self.old }
        ensures spared { IsErrOf result StepError.OutOfMemory
            → floor_refusal self.old.floor (step_of_ref step.now) ≡ None }
        ensures unrefused { IsErrOf result StepError.OutOfMemory
            → refusal_of self.old.kept (cut_step self.old.floor (step_of_ref step.now)) ≡ None }
    {
        if self.forgot {
            return step_kept(alloc, &mut self.world, &self.floor, step);
        }
        self.world.step_lent(alloc, step)
    }

    /// Takes steps, one after another, and answers each.
    ///
    /// A refused step is answered, and the run goes on. It stops at the first step for which memory
    /// runs out, and the machine is then as the steps before that one leave it.
    pub fn run(&mut self, alloc: Global, steps: &[Step]) -> Result<Vec<Answer>, RunStopped>
        ensures done { IfOk result (λ answers. RunLive self.old steps.now answers.items self.new) }
        ensures stopped { IfErr result
            (λ stopped. RunLive self.old (take (length stopped.done.items) steps.now)
            stopped.done.items self.new) }
        ensures short { IfErr result (λ stopped. length stopped.done.items < length steps.now) }
    {
        let mut done = match Vec::with_capacity(alloc, steps.len()) {
            Ok(done) => done,
            Err(_) => {
                return Err(RunStopped {
                    done: Vec::new(alloc),
                });
            }
        };
        for step in steps {
            match self.step(alloc, step) {
                Ok(reply) => done.push(Answer::Done(reply)).unwrap(),
                Err(e) => {
                    if e.is_out_of_memory() {
                        return Err(RunStopped { done });
                    }
                    done.push(Answer::Refused(e)).unwrap();
                }
            }
        }
        Ok(done)
    }

    /// Lets go what stands before a floor of what is kept, if there are numbers for it.
    fn let_go(&mut self, alloc: Global, later: &OwnedFloor) -> Result<(), ForgetError>
        requires fifo { self.old.kept.mode ≡ Fifo }
        requires last { later.now.round ≡ self.old.kept.last_round }
        requires floor { IsFloor self.old.kept.history later.now }
        requires stays { FloorSurvives self.old.kept.history self.old.kept.marks later.now }
        requires count { length later.now.sends ≡ length self.old.kept.history }
        requires further { (p : ℕ) → 1 ≤ floor_check self.old.floor p
            → 1 ≤ floor_check later.now p }
        ensures done { IsOk result → LetsGo self.old later.now self.new }
        ensures same { IfErr result (λ _. self.new ≡ self.old) }
        ensures refused { IfErr result (λ e. e ≢ ForgetError.OutOfMemory
            → LacksNumbers (whole_floor self.old.floor later.now)
            × (e ≡ ForgetError.NoMoreNumbers)) }
    {
        let _history = self.world.history();
        let floor = match whole_floor(alloc, &self.floor, later)? {
            Some(floor) => floor,
            None => return Err(ForgetError::NoMoreNumbers),
        };
        if !floor.has_numbers() {
            return Err(ForgetError::NoMoreNumbers);
        }
        let world = cut_world(alloc, &self.world, later)?;
        self.world = world;
        self.floor = floor;
        self.forgot = true;
        Ok(())
    }

    /// Lets go what stands before the checks of the listed round of this number, and the rounds
    /// before it.
    ///
    /// Where something is refused nothing has changed. The last refusal of those named is that of
    /// numbers: it takes the floor to tell. The same round may be forgotten again. It costs what
    /// `forget_round` does, and holds what is left twice while it runs.
    pub fn forget(&mut self, alloc: Global, round: u32) -> Result<(), ForgetError>
        ensures done { IsOk result → ForgetsRound self.old round self.new }

        // The refusals, in their order.
        ensures same { IfErr result (λ _. self.new ≡ self.old) }
        ensures refused { IfErr result (λ e. e ≢ ForgetError.OutOfMemory
            → IsRoundKept self.old round e) }
        ensures memory { IsErrOf result ForgetError.OutOfMemory
            → forget_refusal self.old.kept round ≡ None }
    {
        let later = round_floor(alloc, &self.world, round)?;
        self.let_go(alloc, &later)
    }

    /// Lets go what stands before the line that a recovery would go back to if every process
    /// failed. It needs no round.
    ///
    /// Where something is refused nothing has changed. The last refusal of those named is that of
    /// numbers: it takes a plan to tell. It costs what `forget_live` does, and holds what is left
    /// twice while it runs.
    pub fn forget_live(&mut self, alloc: Global) -> Result<(), ForgetError>
        ensures done { IsOk result → ForgetsLive self.old self.new }

        // The refusals, in their order.
        ensures same { IfErr result (λ _. self.new ≡ self.old) }
        ensures refused { IfErr result (λ e. e ≢ ForgetError.OutOfMemory
            → IsLineKept self.old e) }
        ensures memory { IsErrOf result ForgetError.OutOfMemory
            → idle_refusal self.old.kept.mode (is_open self.old.kept) None ≡ None }
    {
        let later = line_floor(alloc, &self.world)?;
        self.let_go(alloc, &later)
    }
}

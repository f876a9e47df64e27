//! What was collected of reports, where what is never needed again is let go.

ghost use Rattle.std.specs.Prelude.{◌≡◌, ◌≢◌, ◌<◌, ◌+◌, ◌↔◌, ◌⊎◌, IfErr, IfOk, IsErrOf, IsOk};
ghost use Rattle.std.specs.Prelude.{length, max};
ghost use Rattle.line_names.specs.declared.limits.TheConstants.{MOST_PROCESSES};
ghost use Rattle.line_collect.specs.Collections.{HasSpentProcess, IsPlanToGoBack, gone_back};
ghost use Rattle.line_collect.specs.declared.reports.Report.TheVariants as reports;
ghost use Rattle.line_collect.specs.Lives.{ForgetsReports, IsForgetSpent, IsLivePlan, RecoversLive};
ghost use Rattle.line_collect.specs.Lives.{TakesLiveReport, keeping, nothing_live};
ghost use Rattle.line_cuts.specs.Cuts.{floor_check, lost_checks};
ghost use Rattle.line_live.specs.CutMachines.{whole_plan};
ghost use Rattle.line_tape.specs.Front.{HasChoice};
ghost use Rattle.line_tape.specs.History.{tape_at};
ghost use Rattle.line_tape.specs.Line.{IsConsistent, IsLine};
ghost use Rattle.line_tape.specs.Restart.{HaveFurther};
ghost use Rattle.line_tape.specs.Transit.{in_transit};

use crate::collections::Collection;
use crate::refusals::CollectError;
use crate::tellings::Told;
use crate::whole_names::{bring_names_back, bring_plan_back, kept_check, kept_name};
use line_cuts::{OwnedFloor, whole_check, whole_floor, whole_name};
use line_live::ForgetError;
use line_names::{Choice, Line, MOST_PROCESSES, MsgName, ProcId, ProcSet};
use line_plan::Plan;
use line_tape::CountError;
use std::alloc::Global;
use std::marker::Model;

/// What processes reported so far, as a `Collection` has it, of which what is never needed again
/// may be let go.
///
/// It tells and is told messages and checks in the names and numbers of a collection that keeps
/// everything, whatever was let go. A message that was let go is one that its sender cannot send
/// still; of a process that has a floor the checks up to it are as an initial state. `TapeFull`
/// counts what is kept.
#[derive(Drop)]
pub struct LiveCollection {
    kept: Collection,
    floor: OwnedFloor,
}

impl Model for LiveCollection {
    ghost use Rattle.line_collect.specs.Lives.{LiveCollectionView};

    ghost Value = { LiveCollectionView };

    ghost use Rattle.line_collect.specs.Brought.{HasWholeNumbers};

    ghost view = { λ l. record {
      floor = l.floor;
      kept = l.kept;
    } };

    ghost invariant = { λ l. HasWholeNumbers (record { floor = l.floor; kept = l.kept }) };
}

impl LiveCollection {
    /// Nothing yet, of `n` processes.
    pub fn new(alloc: Global, n: u32) -> Result<LiveCollection, CountError>
        ensures ok { IfOk result (λ live. live ≡ nothing_live n) }
        ensures count { IsErrOf result CountError.BadCount ↔ ((n ≡ 0) ⊎ (MOST_PROCESSES < n)) }
    {
        let kept = Collection::new(alloc, n)?;
        let floor = OwnedFloor::first(alloc, n)?;
        Ok(LiveCollection { kept, floor })
    }

    /// What is kept: a collection in names and numbers of its own.
    pub fn kept(&self) -> &Collection
        ensures { result.now ≡ self.now.kept }
    {
        &self.kept
    }

    /// The floor that all else was let go before, counted from the beginning; where nothing was let
    /// go, no process has one.
    pub fn floor(&self) -> &OwnedFloor
        ensures { result.now ≡ self.now.floor }
    {
        &self.floor
    }

    /// A process sent a message to another.
    pub fn send(
        &mut self,
        by: ProcId,
        incarnation: u16,
        to: ProcId,
        body: &[u8],
    ) -> Result<Told, CollectError>
        requires by { by < length self.old.kept.history }
        requires to { to < length self.old.kept.history }
        ensures { TakesLiveReport self.old (reports.Send by incarnation to body.now) result
            self.new }
    {
        let number = self.kept.history().tape(by).sends();
        match self.kept.send(by, incarnation, to, body) {
            Ok(_) => {
                let sent = MsgName {
                    from: by,
                    inc: incarnation,
                    number,
                };
                Ok(Told::Sent(whole_name(&self.floor, sent)))
            }
            Err(error) => Err(error),
        }
    }

    /// A process received a message.
    pub fn receive(
        &mut self,
        by: ProcId,
        incarnation: u16,
        message: &MsgName,
    ) -> Result<Told, CollectError>
        requires by { by < length self.old.kept.history }
        requires from { message.now.from < length self.old.kept.history }
        ensures { TakesLiveReport self.old (reports.Receive by incarnation message.now) result
            self.new }
    {
        match kept_name(&self.floor, message) {
            Some(kept) => match self.kept.receive(by, incarnation, &kept) {
                Ok(_) => Ok(Told::Took(*message)),
                Err(error) => Err(error),
            },
            None => Err(self.kept.refusal_of_gone(by, incarnation)),
        }
    }

    /// A process took a check; one that belongs to a round carries the round's number.
    pub fn check(
        &mut self,
        alloc: Global,
        by: ProcId,
        incarnation: u16,
        state: &[u8],
        round: Option<u32>,
    ) -> Result<Told, CollectError>
        requires { by < length self.old.kept.history }
        ensures { TakesLiveReport self.old (reports.Check by incarnation state.now round) result
            self.new }
    {
        let check = self.kept.history().tape(by).checks();
        match self.kept.check(alloc, by, incarnation, state, round) {
            Ok(_) => {
                let check = whole_check(&self.floor, by, check + 1);
                Ok(Told::Checked { at: by, check })
            }
            Err(error) => Err(error),
        }
    }

    /// The marker of a round came to a process from another.
    pub fn mark(
        &mut self,
        by: ProcId,
        incarnation: u16,
        from: ProcId,
        round: u32,
    ) -> Result<Told, CollectError>
        requires by { by < length self.old.kept.history }
        requires from { from < length self.old.kept.history }
        ensures { TakesLiveReport self.old (reports.Mark by incarnation from round) result
            self.new }
    {
        match self.kept.mark(by, incarnation, from, round) {
            Ok(_) => Ok(Told::Marked(round)),
            Err(error) => Err(error),
        }
    }

    /// A check of a process is found to be damaged.
    pub fn damage(&mut self, by: ProcId, check: u32) -> Result<Told, CollectError>
        requires { by < length self.old.kept.history }
        ensures { TakesLiveReport self.old (reports.Damage by check) result self.new }
    {
        if check <= self.floor.check(by) {
            return Err(CollectError::InitialDamage);
        }
        match self.kept.damage(by, kept_check(&self.floor, by, check)) {
            Ok(_) => Ok(Told::Damaged { at: by, check }),
            Err(error) => Err(error),
        }
    }

    /// A process is barred at a check, until the next recovery.
    pub fn bar(&mut self, by: ProcId, check: u32) -> Result<Told, CollectError>
        requires { by < length self.old.kept.history }
        ensures { TakesLiveReport self.old (reports.Bar by check) result self.new }
    {
        if check < self.floor.check(by) {
            return Err(CollectError::NoSuchCheck);
        }
        match self.kept.bar(by, kept_check(&self.floor, by, check)) {
            Ok(_) => Ok(Told::Barred { at: by, check }),
            Err(error) => Err(error),
        }
    }

    /// The plan where those of the set failed, if each process that goes back has a further
    /// incarnation.
    ///
    /// It costs what `line_plan::plan` does, and a look at each part of the plan.
    pub fn plan(&self, alloc: Global, failed: &ProcSet) -> Result<Plan, CollectError>
        ensures plan { IfOk result (λ plan. IsLivePlan self.now failed.now plan) }
        ensures refused { IfErr result (λ error. error ≢ CollectError.OutOfMemory
            → (error ≡ CollectError.NoMoreIncarnations)
            × HasSpentProcess self.now.kept failed.now) }
    {
        let _n = self.kept.history().n();
        let mut plan = self.kept.plan(alloc, failed)?;
        bring_plan_back(&self.floor, &mut plan);
        Ok(plan)
    }

    /// The index in the whole of a check that a line of what is kept goes back to.
    pub(crate) fn told_check(&self, p: ProcId, check: u32) -> u32
        requires { HasChoice (tape_at self.now.kept.history p) (Choice.Check check) }
        ensures { result
            ≡ max (check + lost_checks self.now.floor p) (floor_check self.now.floor p) }
    {
        let _n = self.kept.history().n();
        whole_check(&self.floor, p, check).max(self.floor.check(p))
    }

    /// Brings a plan of what is kept back, in its place, but for its line.
    pub(crate) fn bring_names_back(&self, failed: &ProcSet, plan: &mut Plan)
        requires { IsPlanToGoBack self.now.kept failed.now plan.old }
        ensures { plan.new ≡ record (whole_plan self.now.floor plan.old) { line = plan.old.line } }
    {
        let _n = self.kept.history().n();
        bring_names_back(&self.floor, plan);
    }

    /// Has each process go on from its choice of a line of what is kept, at which these messages of
    /// that are in transit.
    pub(crate) fn go_on(&mut self, line: &Line, replays: Vec<MsgName>)
        requires line { IsLine self.old.kept.history line.now }
        requires consistent { IsConsistent self.old.kept.history line.now }
        requires further { HaveFurther self.old.kept.history line.now }
        requires replays { replays.items ≡ in_transit self.old.kept.history line.now }
        ensures { self.new ≡ keeping self.old (gone_back self.old.kept line.now) }
    {
        self.kept.go_on(line, replays);
    }

    /// Plans where those of the set failed, and has each process go on from its choice of the line.
    ///
    /// Where something is refused nothing has changed. It costs what `plan` does, and a copy of the
    /// names of the messages that are sent again.
    pub fn recover(&mut self, alloc: Global, failed: &ProcSet) -> Result<Plan, CollectError>
        ensures done { IfOk result (λ plan. RecoversLive self.old failed.now plan self.new) }
        ensures same { IfErr result (λ _. self.new ≡ self.old) }
        ensures refused { IfErr result (λ error. error ≢ CollectError.OutOfMemory
            → (error ≡ CollectError.NoMoreIncarnations)
            × HasSpentProcess self.old.kept failed.now) }
    {
        let _n = self.kept.history().n();
        let mut plan = self.kept.plan(alloc, failed)?;
        let replays = Vec::from_slice(alloc, plan.replays.as_slice())?;
        self.kept.go_on(&plan.line, replays);
        bring_plan_back(&self.floor, &mut plan);
        Ok(plan)
    }

    /// Lets go what stands before the line that all would go back to if every process failed: its
    /// checks stay, and what was sent and received before it and is not in transit there goes.
    ///
    /// Where something is refused nothing has changed. It costs what a plan, `line_cuts::floor_at`
    /// and `line_cuts::cut_catalogue` do, and holds what is left twice while it runs.
    pub fn forget(&mut self, alloc: Global) -> Result<(), ForgetError>
        ensures done { IsOk result → ForgetsReports self.old self.new }
        ensures same { IfErr result (λ _. self.new ≡ self.old) }
        ensures refused { IfErr result (λ e. e ≢ ForgetError.OutOfMemory
            → IsForgetSpent self.old e) }
    {
        let later = self.kept.live_floor(alloc)?;
        let floor = match whole_floor(alloc, &self.floor, &later)? {
            Some(floor) => floor,
            None => return Err(ForgetError::NoMoreNumbers),
        };
        if !floor.has_numbers() {
            return Err(ForgetError::NoMoreNumbers);
        }
        let kept = self.kept.cut_at(alloc, &later)?;
        self.kept = kept;
        self.floor = floor;
        Ok(())
    }
}

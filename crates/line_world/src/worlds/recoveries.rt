//! How a world recovers.
ghost use Rattle.std.specs.Prelude.{◌≡◌, ◌≢◌, ◌↔◌, ◌⊎◌, None, IfOk, IfErr, IsErrOf, IsTrue, false};
ghost use Rattle.line_world.specs.declared.replies.Answer.TheVariants.{Done, Refused};
ghost use Rattle.line_tape.specs.declared.steps.Step.TheVariants.{Recover};
ghost use Rattle.line_world.specs.Refusals.{refusal_of, has_stranger};
ghost use Rattle.line_world.specs.Runs.{Takes};
ghost use Rattle.line_world.specs.Steps.{IsPlan, Recovers};

use super::World;
use crate::replies::{Reply, StepError};
use line_moves::{restarted_incarnations, restored_states};
use line_names::ProcSet;
use line_plan::Plan;
use line_tape::State;
use std::alloc::{AllocError, Global};

impl World {
    /// The plan for those of the set, in memory of its own: a plan is as large as a whole line, and
    /// what a step is answered is moved often.
    #[inline(never)]
    fn boxed_plan_for(&self, alloc: Global, failed: &ProcSet) -> Result<Box<Plan>, StepError>
        ensures plan { IfOk result (λ plan. IsPlan self.now failed.now plan.value) }
        ensures stranger { IsErrOf result StepError.NoSuchProcess
            ↔ IsTrue (has_stranger self.now failed.now) }
        ensures others { IfErr result
            (λ e. (e ≡ StepError.NoSuchProcess) ⊎ (e ≡ StepError.OutOfMemory)) }
    {
        let plan = self.plan_for(alloc, failed)?;
        let plan = Box::new(alloc, plan).map_err(AllocError::from)?;
        Ok(plan)
    }

    /// Restarts every process at the planned line; returns each one's state and new incarnation.
    fn go_back(
        &mut self,
        alloc: Global,
        _failed: &ProcSet,
        plan: &Plan,
    ) -> Result<(Vec<Option<State>>, Vec<u16>), StepError>
        requires known { has_stranger self.old _failed.now ≡ false }
        requires plan { IsPlan self.old _failed.now plan.now }
        ensures done { IfOk result
            (λ told. Recovers self.old _failed.now plan.now told.0.items told.1.items self.new) }
        ensures refused { IfErr result
            (λ e. e ≢ StepError.OutOfMemory
            → Takes self.old (Recover _failed.now) (Refused e) self.new) }
        ensures memory { IsErrOf result StepError.OutOfMemory → self.new ≡ self.old }
    {
        let history = self.catalogue.history();
        if !history.has_further(&plan.line) {
            return Err(StepError::NoMoreIncarnations);
        }
        let states = restored_states(alloc, history, &plan.line)?;
        let incarnations = restarted_incarnations(alloc, history, &plan.line)?;
        let left = Vec::from_slice(alloc, plan.replays.as_slice())?;
        self.protocol
            .restart(history, &mut self.links, &plan.line, &left)?;
        self.catalogue.restart_with(&plan.line, left);
        self.rounds.keep(&plan.line);
        Ok((states, incarnations))
    }

    /// Plans for those of the set, and restarts every process at the planned line.
    pub(super) fn recover(&mut self, alloc: Global, failed: &ProcSet) -> Result<Reply, StepError>
        ensures done { IfOk result
            (λ reply. Takes self.old (Recover failed.now) (Done reply) self.new) }
        ensures refused { IfErr result
            (λ e. e ≢ StepError.OutOfMemory
            → Takes self.old (Recover failed.now) (Refused e) self.new) }
        ensures memory { IsErrOf result StepError.OutOfMemory → self.new ≡ self.old }
        ensures unrefused { IsErrOf result StepError.OutOfMemory
            → refusal_of self.old (Recover failed.now) ≡ None }
    {
        let plan = self.boxed_plan_for(alloc, failed)?;
        let (states, incarnations) = self.go_back(alloc, failed, &plan)?;
        Ok(Reply::Recovered {
            plan,
            states,
            incarnations,
        })
    }
}

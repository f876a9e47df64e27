//! How a world begins a round, and how a process turns to it.
ghost use Rattle.std.specs.Prelude.{◌≡◌, ◌≢◌, None, IfOk, IfErr, IsErrOf};
ghost use Rattle.line_tape.specs.declared.modes.Mode.TheVariants.{Fifo, Unordered};
ghost use Rattle.line_world.specs.declared.replies.Answer.TheVariants.{Done, Refused};
ghost use Rattle.line_tape.specs.declared.steps.Step.TheVariants.{Begin, Turn};
ghost use Rattle.line_world.specs.Refusals.{refusal_of};
ghost use Rattle.line_world.specs.Runs.{Takes};

use super::World;
use crate::protocols::Protocol;
use crate::replies::{Reply, StepError};
use line_moves::{TurnCheck, begin_round, list_completed, turn_round};
use line_names::ProcId;
use line_rounds::Turning;
use std::alloc::Global;

impl World {
    /// Begins a round of markers.
    fn begin_markers(&mut self, alloc: Global, at: ProcId, state: &[u8]) -> Result<Reply, StepError>
        requires fifo { self.old.mode ≡ Fifo }
        requires passed { refusal_of self.old (Begin at state.now) ≡ None }
        ensures done { IfOk result
            (λ reply. Takes self.old (Begin at state.now) (Done reply) self.new) }
        ensures refused { IfErr result
            (λ e. e ≢ StepError.OutOfMemory
            → Takes self.old (Begin at state.now) (Refused e) self.new) }
        ensures memory { IsErrOf result StepError.OutOfMemory → self.new ≡ self.old }
    {
        match &mut self.protocol {
            Protocol::Markers { running } => {
                self.rounds.reserve()?;
                let (begun, check) = begin_round(
                    alloc,
                    &mut self.catalogue,
                    &mut self.links,
                    at,
                    state,
                    self.last_round,
                )?;
                self.last_round += 1;
                *running = Some(begun);
                let history = self.catalogue.history();
                list_completed(alloc, running, history, &mut self.rounds);
                Ok(Reply::Begun {
                    at,
                    check,
                    round: self.last_round,
                })
            }
            Protocol::Colours { .. } => unreachable!(),
        }
    }

    /// Begins a round of colours.
    fn begin_colours(&mut self, alloc: Global, at: ProcId, state: &[u8]) -> Result<Reply, StepError>
        requires unordered { self.old.mode ≡ Unordered }
        requires passed { refusal_of self.old (Begin at state.now) ≡ None }
        ensures done { IfOk result
            (λ reply. Takes self.old (Begin at state.now) (Done reply) self.new) }
        ensures refused { IfErr result
            (λ e. e ≢ StepError.OutOfMemory
            → Takes self.old (Begin at state.now) (Refused e) self.new) }
        ensures memory { IsErrOf result StepError.OutOfMemory → self.new ≡ self.old }
    {
        match &mut self.protocol {
            Protocol::Markers { .. } => unreachable!(),
            Protocol::Colours {
                turning,
                colours,
                ..
            } => {
                let n = self.catalogue.n();
                let round = self.last_round + 1;
                let mut begun = Some(Turning::new(alloc, n, round)?);
                let turn = TurnCheck {
                    at,
                    round,
                    state,
                    further: 0,
                };
                let check = turn_round(
                    alloc,
                    &mut self.catalogue,
                    colours,
                    &mut begun,
                    &mut self.rounds,
                    &turn,
                )?;
                self.last_round = round;
                *turning = begun;
                Ok(Reply::Begun { at, check, round })
            }
        }
    }

    /// Begins a round.
    pub(super) fn begin(
        &mut self,
        alloc: Global,
        at: ProcId,
        state: &[u8],
    ) -> Result<Reply, StepError>
        ensures done { IfOk result
            (λ reply. Takes self.old (Begin at state.now) (Done reply) self.new) }
        ensures refused { IfErr result
            (λ e. e ≢ StepError.OutOfMemory
            → Takes self.old (Begin at state.now) (Refused e) self.new) }
        ensures memory { IsErrOf result StepError.OutOfMemory → self.new ≡ self.old }
        ensures unrefused { IsErrOf result StepError.OutOfMemory
            → refusal_of self.old (Begin at state.now) ≡ None }
    {
        if let Some(e) = self.begin_refusal(at, state) {
            return Err(e);
        }
        match &self.protocol {
            Protocol::Markers { .. } => self.begin_markers(alloc, at, state),
            Protocol::Colours { .. } => self.begin_colours(alloc, at, state),
        }
    }

    /// Turns to the round of colours that is open.
    pub(super) fn turn(
        &mut self,
        alloc: Global,
        at: ProcId,
        state: &[u8],
    ) -> Result<Reply, StepError>
        ensures done { IfOk result
            (λ reply. Takes self.old (Turn at state.now) (Done reply) self.new) }
        ensures refused { IfErr result
            (λ e. e ≢ StepError.OutOfMemory
            → Takes self.old (Turn at state.now) (Refused e) self.new) }
        ensures memory { IsErrOf result StepError.OutOfMemory → self.new ≡ self.old }
        ensures unrefused { IsErrOf result StepError.OutOfMemory
            → refusal_of self.old (Turn at state.now) ≡ None }
    {
        if let Some(e) = self.turn_refusal(at, state) {
            return Err(e);
        }
        match &mut self.protocol {
            Protocol::Markers { .. } => Err(StepError::WrongMode),
            Protocol::Colours {
                turning,
                colours,
                ..
            } => {
                let turn = TurnCheck {
                    at,
                    round: self.last_round,
                    state,
                    further: 0,
                };
                let check = turn_round(
                    alloc,
                    &mut self.catalogue,
                    colours,
                    turning,
                    &mut self.rounds,
                    &turn,
                )?;
                Ok(Reply::Turned {
                    at,
                    check,
                    round: self.last_round,
                })
            }
        }
    }
}

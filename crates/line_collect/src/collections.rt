//! What was collected of reports, and each kind of report.

ghost use Rattle.std.specs.Prelude.{◌≡◌, ◌≢◌, ◌<◌, ◌↔◌, ◌⊎◌, IfErr, IfOk, IsErrOf, IsTrue, OnErr};
ghost use Rattle.std.specs.Prelude.{OnOk, None, Some, false, length};
ghost use Rattle.line_names.specs.declared.limits.TheConstants.{MOST_PROCESSES};
ghost use Rattle.line_collect.specs.declared.reports.Report.TheVariants as reports;
ghost use Rattle.line_tape.specs.Event.{NamesBelow};
ghost use Rattle.line_tape.specs.History.{with_event};
ghost use Rattle.line_tape.specs.Line.{IsConsistent, IsLine};
ghost use Rattle.line_tape.specs.Restart.{HaveFurther};
ghost use Rattle.line_tape.specs.Transit.{in_transit};
ghost use Rattle.line_catalogue.specs.Agreement.{Agrees, IsSentAsNow};
ghost use Rattle.line_cuts.specs.Cuts.{cut_history, cut_marks};
ghost use Rattle.line_cuts.specs.Marks.{AreSameMarks};
ghost use Rattle.line_collect.specs.Answers.{TakesReport};
ghost use Rattle.line_collect.specs.Collections.{IsPlanOf, IsPlanToGoBack, HasSpentProcess};
ghost use Rattle.line_collect.specs.Collections.{gone_back, nothing_collected};
ghost use Rattle.line_collect.specs.Lives.{IsFloorOfLive, refusal_of_gone};
ghost use Rattle.line_collect.specs.Refusals.{is_stale, report_error_code};
ghost use Rattle.line_collect.specs.Writing.{refusal_of_event};

use crate::refusals::CollectError;
use crate::tellings::Told;
use line_catalogue::{AddError, Catalogue, DamageError};
use line_cuts::{OwnedFloor, cut_catalogue, floor_at};
use line_names::{Body, Line, MOST_PROCESSES, MsgName, ProcId, ProcSet};
use line_plan::{Plan, PlanError};
use line_tape::{BarError, CountError, Event, History, MOST_EVENTS, MOST_STATE, Marks, State};
use line_text::everybody;
use std::alloc::{AllocError, Global};
use std::marker::Model;

/// What processes reported so far, with marks of damage and bars.
///
/// The reports of one process come in the order in which it did what they tell; those of several
/// interleave in any way, so that a receipt may come long before its send. A report that is
/// refused, or for which memory is out, changes nothing.
#[derive(Drop)]
pub struct Collection {
    catalogue: Catalogue,
}

impl Model for Collection {
    ghost use Rattle.line_collect.specs.Collections.{CollectionView};

    ghost Value = { CollectionView };

    ghost view = { λ c. record {
      history = c.catalogue.processes;
      marks = c.catalogue.marks;
    } };
}

/// Adds an event at the end of the tape of a process.
fn add_event(catalogue: &mut Catalogue, by: ProcId, event: Event) -> Result<(), CollectError>
    requires by { by < length catalogue.old.processes }
    requires named { NamesBelow (length catalogue.old.processes) event }
    requires present { IsSentAsNow catalogue.old.processes by event }
    ensures ok { OnOk result
        (catalogue.new.processes ≡ with_event catalogue.old.processes by event) }
    ensures err { OnErr result (catalogue.new.processes ≡ catalogue.old.processes) }
    ensures marks { catalogue.new.marks ≡ catalogue.old.marks }
    ensures unrefused { OnOk result (refusal_of_event catalogue.old.processes by event ≡ None) }
    ensures refused { IfErr result (λ error. error ≢ CollectError.OutOfMemory
        → refusal_of_event catalogue.old.processes by event ≡ Some (report_error_code error)) }
    ensures memory { IfErr result (λ error. error ≡ CollectError.OutOfMemory
        → refusal_of_event catalogue.old.processes by event ≡ None) }
{
    let _history = catalogue.history();
    match catalogue.add(by, event) {
        Ok(()) => Ok(()),
        Err(AddError::OutOfMemory) => Err(CollectError::OutOfMemory),
        Err(AddError::StateTooLong) => Err(CollectError::StateTooLong),
        Err(AddError::TapeFull) => Err(CollectError::TapeFull),
        Err(AddError::NamesDisagree) => Err(CollectError::NamesDisagree),
        Err(AddError::NoSuchProcess) => unreachable!(),
    }
}

impl Collection {
    /// Nothing yet, of `n` processes.
    pub fn new(alloc: Global, n: u32) -> Result<Collection, CountError>
        ensures ok { IfOk result (λ collection. collection ≡ nothing_collected n) }
        ensures count { IsErrOf result CountError.BadCount ↔ ((n ≡ 0) ⊎ (MOST_PROCESSES < n)) }
    {
        let catalogue = Catalogue::new(alloc, n)?;
        Ok(Collection { catalogue })
    }

    /// What each process reported, and the incarnation under which it goes on.
    pub fn history(&self) -> &History
        ensures value { result.now.processes ≡ self.now.history }
        ensures agrees { Agrees self.now.history }
    {
        self.catalogue.history()
    }

    /// Which checks are damaged, and where processes are barred.
    pub fn marks(&self) -> &Marks
        ensures { result.now ≡ self.now.marks }
    {
        self.catalogue.marks()
    }

    /// Whether a process does nothing under this incarnation now: it has gone back since, or the
    /// incarnation is one to come.
    fn is_stale(&self, by: ProcId, incarnation: u16) -> bool
        requires { by < length self.now.history }
        ensures { result ≡ is_stale self.now.history by incarnation }
    {
        incarnation != self.catalogue.history().incarnation(by)
    }

    /// A process sent a message to another.
    pub fn send(
        &mut self,
        by: ProcId,
        incarnation: u16,
        to: ProcId,
        body: &[u8],
    ) -> Result<Told, CollectError>
        requires by { by < length self.old.history }
        requires to { to < length self.old.history }
        ensures { TakesReport self.old (reports.Send by incarnation to body.now) result self.new }
    {
        if self.is_stale(by, incarnation) {
            return Err(CollectError::StaleReport);
        }
        let Ok(body) = Body::try_new(body) else {
            return Err(CollectError::BodyTooLong);
        };
        let number = self.catalogue.history().tape(by).sends();
        let inc = incarnation;
        add_event(&mut self.catalogue, by, Event::Send { to, inc, body })?;
        Ok(Told::Sent(MsgName {
            from: by,
            inc,
            number,
        }))
    }

    /// A process received a message.
    pub fn receive(
        &mut self,
        by: ProcId,
        incarnation: u16,
        message: &MsgName,
    ) -> Result<Told, CollectError>
        requires by { by < length self.old.history }
        requires from { message.now.from < length self.old.history }
        ensures { TakesReport self.old (reports.Receive by incarnation message.now) result
            self.new }
    {
        if self.is_stale(by, incarnation) {
            return Err(CollectError::StaleReport);
        }
        add_event(&mut self.catalogue, by, Event::Recv { message: *message })?;
        Ok(Told::Took(*message))
    }

    /// A process took a check; one that belongs to a round carries the round's number.
    pub fn check(
        &mut self,
        alloc: Global,
        by: ProcId,
        incarnation: u16,
        state: &[u8],
        round: Option<u32>,
    ) -> Result<Told, CollectError>
        requires { by < length self.old.history }
        ensures { TakesReport self.old (reports.Check by incarnation state.now round) result
            self.new }
    {
        if self.is_stale(by, incarnation) {
            return Err(CollectError::StaleReport);
        }
        if state.len() > MOST_STATE {
            return Err(CollectError::StateTooLong);
        }
        let tape = self.catalogue.history().tape(by);
        if tape.len() as usize == MOST_EVENTS {
            return Err(CollectError::TapeFull);
        }
        let check = tape.checks() + 1;
        let state = State::of(Vec::from_slice(alloc, state)?);
        add_event(&mut self.catalogue, by, Event::Check { state, round })?;
        Ok(Told::Checked { at: by, check })
    }

    /// The marker of a round came to a process from another.
    pub fn mark(
        &mut self,
        by: ProcId,
        incarnation: u16,
        from: ProcId,
        round: u32,
    ) -> Result<Told, CollectError>
        requires by { by < length self.old.history }
        requires from { from < length self.old.history }
        ensures { TakesReport self.old (reports.Mark by incarnation from round) result self.new }
    {
        if self.is_stale(by, incarnation) {
            return Err(CollectError::StaleReport);
        }
        add_event(&mut self.catalogue, by, Event::Mark { from, round })?;
        Ok(Told::Marked(round))
    }

    /// A check of a process is found to be damaged.
    pub fn damage(&mut self, by: ProcId, check: u32) -> Result<Told, CollectError>
        requires { by < length self.old.history }
        ensures { TakesReport self.old (reports.Damage by check) result self.new }
    {
        match self.catalogue.damage(by, check) {
            Ok(()) => Ok(Told::Damaged { at: by, check }),
            Err(DamageError::OutOfMemory) => Err(CollectError::OutOfMemory),
            Err(DamageError::InitialDamage) => Err(CollectError::InitialDamage),
            Err(DamageError::NoSuchCheck) => Err(CollectError::NoSuchCheck),
            Err(DamageError::AlreadyDamaged) => Err(CollectError::AlreadyDamaged),
        }
    }

    /// A process is barred at a check, until the next recovery.
    pub fn bar(&mut self, by: ProcId, check: u32) -> Result<Told, CollectError>
        requires { by < length self.old.history }
        ensures { TakesReport self.old (reports.Bar by check) result self.new }
    {
        match self.catalogue.bar(by, check) {
            Ok(()) => Ok(Told::Barred { at: by, check }),
            Err(BarError::NoSuchCheck) => Err(CollectError::NoSuchCheck),
            Err(BarError::BarNotLower) => Err(CollectError::BarNotLower),
        }
    }

    /// The plan of the latest line that the processes could go on from, if those of the set failed.
    ///
    /// It costs what `line_plan::plan` does.
    #[inline(never)]
    pub fn plan_for(&self, alloc: Global, failed: &ProcSet) -> Result<Plan, PlanError>
        ensures { IfOk result (λ plan. IsPlanOf self.now failed.now plan) }
    {
        line_plan::plan(alloc, &self.catalogue, failed)
    }

    /// The plan where those of the set failed, if each process that goes back has a further
    /// incarnation.
    #[inline(never)]
    pub fn plan(&self, alloc: Global, failed: &ProcSet) -> Result<Plan, CollectError>
        ensures plan { IfOk result (λ plan. IsPlanToGoBack self.now failed.now plan) }
        ensures refused { IfErr result (λ error. error ≢ CollectError.OutOfMemory
            → (error ≡ CollectError.NoMoreIncarnations) × HasSpentProcess self.now failed.now) }
    {
        let Ok(plan) = self.plan_for(alloc, failed) else {
            return Err(CollectError::OutOfMemory);
        };
        if !self.catalogue.history().has_further(&plan.line) {
            return Err(CollectError::NoMoreIncarnations);
        }
        Ok(plan)
    }

    /// Has each process go on from its choice of a line, at which these messages are in transit.
    pub(crate) fn go_on(&mut self, line: &Line, replays: Vec<MsgName>)
        requires line { IsLine self.old.history line.now }
        requires consistent { IsConsistent self.old.history line.now }
        requires further { HaveFurther self.old.history line.now }
        requires replays { replays.items ≡ in_transit self.old.history line.now }
        ensures { self.new ≡ gone_back self.old line.now }
    {
        self.catalogue.restart_with(line, replays);
    }

    /// Has each process go on from its choice of the line of a plan. It takes no memory.
    pub fn go_back(&mut self, plan: Plan)
        requires line { IsLine self.old.history plan.line }
        requires consistent { IsConsistent self.old.history plan.line }
        requires further { HaveFurther self.old.history plan.line }
        requires replays { plan.replays.items ≡ in_transit self.old.history plan.line }
        ensures { self.new ≡ gone_back self.old plan.line }
    {
        let replays = plan.replays;
        self.catalogue.restart_with(&plan.line, replays);
    }

    /// Why a receipt is refused of a message that was let go.
    pub(crate) fn refusal_of_gone(&self, by: ProcId, incarnation: u16) -> CollectError
        requires { by < length self.now.history }
        ensures cause { Some (report_error_code result)
            ≡ refusal_of_gone self.now.history by incarnation }
        ensures others { result ≢ CollectError.OutOfMemory }
    {
        if self.is_stale(by, incarnation) {
            return CollectError::StaleReport;
        }
        let events = self.catalogue.history().tape(by).len();
        if events as usize == MOST_EVENTS {
            return CollectError::TapeFull;
        }
        CollectError::NamesDisagree
    }

    /// The floor at the latest line where every process fails.
    pub(crate) fn live_floor(&self, alloc: Global) -> Result<OwnedFloor, AllocError>
        ensures { IfOk result (λ floor. IsFloorOfLive self.now floor) }
    {
        let failed = everybody(self.catalogue.n());
        match self.plan_for(alloc, &failed) {
            Ok(plan) => match floor_at(alloc, &self.catalogue, &plan.line, 0)? {
                Some(floor) => Ok(floor),
                None => unreachable!(),
            },
            Err(_) => Err(AllocError),
        }
    }

    /// What is left of it where it is cut at a floor, in memory of its own.
    pub(crate) fn cut_at(&self, alloc: Global, floor: &OwnedFloor) -> Result<Collection, AllocError>
        ensures history { IfOk result
            (λ cut. cut.history ≡ cut_history floor.now self.now.history) }
        ensures marks { IfOk result
            (λ cut. AreSameMarks cut.marks (cut_marks floor.now self.now.marks)) }
    {
        let catalogue = cut_catalogue(alloc, &self.catalogue, floor)?;
        Ok(Collection { catalogue })
    }
}

//! What a collector lets go, and what it keeps: what is left of the history that it has taken, cut
//! at a floor.
ghost use Rattle.std.specs.Prelude.{◌≡◌, ◌≢◌, ◌<◌, ◌≤◌, ℕ, List, IfErr, IfOk, OnErr, OnOk, Some};
ghost use Rattle.std.specs.Prelude.{length};
ghost use Rattle.line_tape.specs.declared.events.Event.TheVariants.{Recv as RecvEvent};
ghost use Rattle.line_tape.specs.History.{Process, with_event};
ghost use Rattle.line_tape.specs.Views.{MarksView};
ghost use Rattle.line_catalogue.specs.Views.{catalogue_room_at};
ghost use Rattle.line_cuts.specs.Cuts.{cut_name, cut_round, Floor, FloorSurvives, IsFloor};
ghost use Rattle.line_posts.specs.Collected.{IsNotAdded};
ghost use Rattle.line_cuts.specs.Floors.{LacksNumbers};
ghost use Rattle.line_posts.specs.Forgotten.{floor_after, HaveAllFailed, IsLiveFloor};
ghost use Rattle.line_posts.specs.Kept.{floor_of, whole_marks, HasLetGo, IsKeptOf, IsLeftAt};
ghost use Rattle.line_posts.specs.Kept.{IsPlanned, IsTested, IsTestRefused, MayAdd};

use crate::refusals::ForgetWhy;
use crate::whole_names::bring_back;
use line_catalogue::{AddError, Catalogue};
use line_cuts::{OwnedFloor, cut_catalogue, cut_name, cut_round, floor_at, whole_floor};
use line_names::{MOST_PROCESSES, MsgName, ProcId, ProcSet};
use line_plan::{Plan, PlanError};
use line_tape::{Event, Marks};
use std::alloc::{AllocError, Global};

/// The greatest number of a round. A floor with it lets go the markers of all rounds, also of those
/// to come: no plan looks at one.
pub(crate) const ALL_ROUNDS: u32 = 4_294_967_295;

/// What was let go: all that stands before the floor, which is counted from the beginning. The
/// marks are those of the whole.
#[derive(Drop)]
pub(crate) struct Forgotten {
    pub(crate) floor: OwnedFloor,
    pub(crate) marks: Marks,
}

/// All processes below `n`.
pub(crate) fn everyone(n: u32) -> ProcSet
    requires { n ≤ MOST_PROCESSES }
    ensures { HaveAllFailed n result }
{
    let mut all = ProcSet::empty();
    for r in 0..n {
        let p = ProcId::try_new(r, n).unwrap();
        all = all.with(p);
    }
    all
}

/// Whether the receipt of a message may come next on the tape of a process.
fn test_receipt(catalogue: &Catalogue, p: ProcId, message: MsgName) -> Result<(), AddError>
    ensures ok { OnOk result (IsTested catalogue.now.processes p (RecvEvent message)) }
    ensures why { IfErr result
        (λ why. IsTestRefused catalogue.now.processes p (RecvEvent message) why) }
{
    let receipt = Event::Recv { message };
    catalogue.test(p, &receipt)
}

/// Whether an event may come next on the tape of a process, of which this is left.
fn test_left(
    catalogue: &Catalogue,
    floor: &OwnedFloor,
    p: ProcId,
    event: &Event,
) -> Result<(), AddError>
    ensures ok { OnOk result ((history : List Process) (marks : MarksView)
        → IsLeftAt floor.now history marks catalogue.now.processes catalogue.now.marks
        → MayAdd (Some floor.now) history p event.now) }
    ensures why { IfErr result (λ why. (history : List Process) (marks : MarksView)
        → IsLeftAt floor.now history marks catalogue.now.processes catalogue.now.marks
        → p < length history → IsNotAdded (Some floor.now) history p event.now why) }
{
    let Event::Recv { message } = event else {
        return catalogue.test(p, event);
    };
    match test_receipt(catalogue, p, cut_name(floor, message)) {
        Ok(()) => {
            if message.number < floor.sends(message.from) {
                return Err(AddError::NamesDisagree);
            }
            Ok(())
        }
        Err(why) => Err(why),
    }
}

/// Whether an event may come next on the tape of a process, of whose history this is kept.
pub(crate) fn test_next(
    catalogue: &Catalogue,
    forgotten: &Option<Forgotten>,
    p: ProcId,
    event: &Event,
) -> Result<(), AddError>
    ensures ok { OnOk result ((history : List Process)
        → IsKeptOf forgotten.now history catalogue.now.processes catalogue.now.marks
        → MayAdd (floor_of forgotten.now) history p event.now) }
    ensures why { IfErr result (λ why. (history : List Process)
        → IsKeptOf forgotten.now history catalogue.now.processes catalogue.now.marks
        → p < length history → IsNotAdded (floor_of forgotten.now) history p event.now why) }
{
    match forgotten {
        None => catalogue.test(p, event),
        Some(forgotten) => test_left(catalogue, &forgotten.floor, p, event),
    }
}

/// Adds what is left of an event that may come next, in room that was made for it.
fn add_left(catalogue: &mut Catalogue, floor: &OwnedFloor, p: ProcId, event: Event)
    requires may { (history : List Process) × (marks : MarksView)
        × IsLeftAt floor.now history marks catalogue.old.processes catalogue.old.marks
        × MayAdd (Some floor.now) history p event }
    requires room { 0 < catalogue_room_at catalogue.old p }
    ensures left { (history : List Process) (marks : MarksView)
        → IsLeftAt floor.now history marks catalogue.old.processes catalogue.old.marks
        → MayAdd (Some floor.now) history p event
        → IsLeftAt floor.now (with_event history p event) marks catalogue.new.processes
        catalogue.new.marks }
    ensures marks { catalogue.new.marks ≡ catalogue.old.marks }
{
    match event {
        Event::Send { to, inc, body } => catalogue.append(p, Event::Send { to, inc, body }),
        Event::Recv { message } => {
            let message = cut_name(floor, &message);
            catalogue.append(p, Event::Recv { message });
        }
        Event::Check { state, round } => {
            let round = cut_round(floor.round(), round);
            catalogue.append(p, Event::Check { state, round });
        }
        Event::Mark { from, round } => {
            let last = floor.round();
            if last < round {
                catalogue.append(p, Event::Mark { from, round });
            }
        }
    }
}

/// Adds what is kept of an event that may come next, in room that was made for it.
pub(crate) fn add_next(
    catalogue: &mut Catalogue,
    forgotten: &Option<Forgotten>,
    p: ProcId,
    event: Event,
)
    requires may { (history : List Process)
        × IsKeptOf forgotten.now history catalogue.old.processes catalogue.old.marks
        × MayAdd (floor_of forgotten.now) history p event }
    requires room { 0 < catalogue_room_at catalogue.old p }
    ensures kept { (history : List Process)
        → IsKeptOf forgotten.now history catalogue.old.processes catalogue.old.marks
        → MayAdd (floor_of forgotten.now) history p event
        → IsKeptOf forgotten.now (with_event history p event) catalogue.new.processes
        catalogue.new.marks }
    ensures marks { catalogue.new.marks ≡ catalogue.old.marks }
{
    match forgotten {
        None => catalogue.append(p, event),
        Some(forgotten) => add_left(catalogue, &forgotten.floor, p, event),
    }
}

/// The floor at the latest line where each process fails.
fn live_floor(alloc: Global, catalogue: &Catalogue) -> Result<OwnedFloor, AllocError>
    ensures live { IfOk result
        (λ floor. IsLiveFloor catalogue.now.processes catalogue.now.marks floor) }
    ensures is { IfOk result (λ floor. IsFloor catalogue.now.processes floor) }
    ensures stays { IfOk result
        (λ floor. FloorSurvives catalogue.now.processes catalogue.now.marks floor) }
{
    let failed = everyone(catalogue.n());
    match line_plan::plan(alloc, catalogue, &failed) {
        Ok(plan) => match floor_at(alloc, catalogue, &plan.line, ALL_ROUNDS)? {
            Some(floor) => Ok(floor),
            None => unreachable!(),
        },
        Err(_) => Err(AllocError),
    }
}

/// Both floors as one, the later one of what the first leaves, if there are numbers for all that is
/// let go then.
fn both_floors(
    alloc: Global,
    floor: &OwnedFloor,
    later: &OwnedFloor,
) -> Result<OwnedFloor, ForgetWhy>
    ensures value { IfOk result (λ both. both ≡ floor_after (Some floor.now) later.now) }
    ensures spent { IfErr result (λ why. why ≢ ForgetWhy.OutOfMemory
        → (why ≡ ForgetWhy.NoMoreNumbers)
        × LacksNumbers (floor_after (Some floor.now) later.now)) }
{
    match whole_floor(alloc, floor, later)? {
        Some(both) => {
            if both.has_numbers() {
                return Ok(both);
            }
            Err(ForgetWhy::NoMoreNumbers)
        }
        None => Err(ForgetWhy::NoMoreNumbers),
    }
}

/// What is let go in all, where this floor of what is kept is taken.
fn forgotten_after(
    alloc: Global,
    catalogue: &Catalogue,
    forgotten: &Option<Forgotten>,
    later: OwnedFloor,
) -> Result<Forgotten, ForgetWhy>
    ensures floor { IfOk result (λ next. next.floor ≡ floor_after (floor_of forgotten.now) later) }
    ensures marks { IfOk result
        (λ next. next.marks ≡ whole_marks forgotten.now catalogue.now.marks) }
    ensures spent { IfErr result (λ why. why ≢ ForgetWhy.OutOfMemory
        → (why ≡ ForgetWhy.NoMoreNumbers)
        × LacksNumbers (floor_after (floor_of forgotten.now) later)) }
{
    match forgotten {
        None => {
            let marks = catalogue.marks().copy(alloc)?;
            Ok(Forgotten {
                floor: later,
                marks,
            })
        }
        Some(before) => {
            let floor = both_floors(alloc, &before.floor, &later)?;
            let marks = before.marks.copy(alloc)?;
            Ok(Forgotten { floor, marks })
        }
    }
}

/// Lets go what stands before the line that a plan of what is kept would answer if every process
/// failed, and the markers of all rounds.
pub(crate) fn let_go(
    alloc: Global,
    catalogue: &mut Catalogue,
    forgotten: &mut Option<Forgotten>,
) -> Result<(), ForgetWhy>
    ensures done { OnOk result ((history : List Process)
        → IsKeptOf forgotten.old history catalogue.old.processes catalogue.old.marks
        → HasLetGo forgotten.old catalogue.old history forgotten.new catalogue.new) }
    ensures same { OnErr result (catalogue.new ≡ catalogue.old) }
    ensures still { OnErr result (forgotten.new ≡ forgotten.old) }
    ensures spent { IfErr result (λ why. why ≢ ForgetWhy.OutOfMemory
        → (why ≡ ForgetWhy.NoMoreNumbers) × (later : Floor)
        × IsLiveFloor catalogue.old.processes catalogue.old.marks later
        × LacksNumbers (floor_after (floor_of forgotten.old) later)) }
{
    let _history = catalogue.history();
    let _marks = catalogue.marks();
    let later = live_floor(alloc, catalogue)?;
    let cut = cut_catalogue(alloc, catalogue, &later)?;
    let next = forgotten_after(alloc, catalogue, forgotten, later)?;
    *catalogue = cut;
    *forgotten = Some(next);
    Ok(())
}

/// Plans as if these processes failed, in the names of the whole.
///
/// Where a name of the whole would have no number, it answers as where memory is out; no worker has
/// so many events.
pub(crate) fn plan_kept(
    alloc: Global,
    catalogue: &Catalogue,
    forgotten: &Option<Forgotten>,
    failed: &ProcSet,
) -> Result<Plan, PlanError>
    ensures { IfOk result (λ plan. (history : List Process)
        → IsKeptOf forgotten.now history catalogue.now.processes catalogue.now.marks
        → IsPlanned history (whole_marks forgotten.now catalogue.now.marks) failed.now plan) }
{
    let mut plan = line_plan::plan(alloc, catalogue, failed)?;
    match forgotten {
        None => Ok(plan),
        Some(forgotten) => {
            if bring_back(&forgotten.floor, &mut plan) {
                return Ok(plan);
            }
            Err(PlanError::OutOfMemory)
        }
    }
}

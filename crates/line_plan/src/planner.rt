//! Sweeps over the processes, each of which is lowered until it has no orphan.
ghost use Rattle.std.specs.Prelude.{◌≡◌, ◌<◌, ◌≤◌, ◌+◌, ◌++◌, ◌∷◌, [], ℕ, suc, true, false};
ghost use Rattle.std.specs.Prelude.{length, vec_len, OnOk, IfOk};
ghost use Rattle.line_names.specs.Sets.{is_member};
ghost use Rattle.line_names.specs.Lines.{choice_at};
ghost use Rattle.line_names.specs.Order.{IsNoLater};
ghost use Rattle.line_tape.specs.Chain.{latest_choice, first_ceilings, IsChain, IsLed};
ghost use Rattle.line_tape.specs.Height.{height};
ghost use Rattle.line_tape.specs.Line.{events_before, IsLine, IsOrphan, AreSentBefore};
ghost use Rattle.line_tape.specs.Survival.{IsLatest};
ghost use Rattle.line_tape.specs.Transit.{in_transit};
ghost use Rattle.line_plan.specs.Search.{IsMoved, IsSameBut, AreSentBelow, AreClean};
ghost use Rattle.line_plan.specs.Search.{AreHearersDirty, AreStillDirty};
ghost use Rattle.line_plan.specs.Sweeps.{AreOfNextSweep, HasPassed, sweeps_with_entries};
ghost use Rattle.line_vectors.specs.Reach.{sents_of};

use crate::dirty::Dirty;
use crate::orphans::orphan_at;
use crate::plans::{Plan, PlanError};
use line_catalogue::Catalogue;
use line_names::{Choice, Line, MsgName, Passed, ProcId, ProcSet};
use line_vectors::{LAST_NUMBER, Sent};
use std::alloc::{AllocError, Global};

/// A message that a process has received, and its sender has not sent.
#[derive(Clone, Copy)]
struct Orphan {
    at: ProcId,
    message: MsgName,
}

/// What visits go by: how many sends of each process stand before its choice, and who is to be
/// visited.
#[derive(Drop)]
struct Visits {
    sent: Sent,
    dirty: Dirty,
}

/// The latest surviving choice of a process. It looks at one check for each that does not survive.
fn latest_choice(catalogue: &Catalogue, failed: &ProcSet, p: ProcId) -> Choice
    requires { p < length catalogue.now.processes }
    ensures { result ≡ latest_choice catalogue.now.processes catalogue.now.marks failed.now p }
{
    if catalogue.survives(p, Choice::Now, failed) {
        return Choice::Now;
    }
    catalogue.next_lower(p, Choice::Now, failed).unwrap()
}

/// The line of the latest surviving choice of each process.
fn first_ceilings(catalogue: &Catalogue, failed: &ProcSet) -> Line
    ensures { result ≡ first_ceilings catalogue.now.processes catalogue.now.marks failed.now }
{
    let n = catalogue.n();
    let mut line = Line::new();
    for q in 0..n {
        let p = ProcId::try_new(q, n).unwrap();
        line.push(latest_choice(catalogue, failed, p));
    }
    line
}

/// Notes each process to be visited that has received, at any time, a message of p past so many
/// first ones. It looks at one lane of each process.
fn mark_hearers(catalogue: &Catalogue, p: ProcId, count: u32, dirty: &mut Dirty)
    requires process { p < length catalogue.now.processes }
    requires few { count < LAST_NUMBER }
    ensures heard { AreHearersDirty catalogue.now.processes p count dirty.new }
    ensures still { AreStillDirty dirty.old dirty.new }
{
    let n = catalogue.n();
    for q in 0..n {
        let hearer = ProcId::try_new(q, n).unwrap();
        let was = dirty.has(hearer);
        let lane = catalogue.heard(hearer, p);
        dirty.set(hearer, was || lane > count);
    }
}

/// Passes the choice of a process over, for an orphan that it has received.
fn pass_over(
    catalogue: &Catalogue,
    failed: &ProcSet,
    orphan: Orphan,
    line: &mut Line,
    sent: &mut Sent,
    certificate: &mut Vec<Passed>,
) -> Result<(), AllocError>
    requires process { orphan.at < length catalogue.now.processes }
    requires led { IsLed catalogue.now.processes catalogue.now.marks failed.now
        certificate.old.items line.old }
    requires orphan { IsOrphan catalogue.now.processes line.old orphan.at orphan.message }
    requires sent { sent.old ≡ sents_of catalogue.now.processes line.old }
    ensures led { OnOk result
        (IsLed catalogue.now.processes catalogue.now.marks failed.now certificate.new.items
        line.new) }
    ensures longer { OnOk result (vec_len certificate.new ≡ vec_len certificate.old + 1) }
    ensures entry { OnOk result (certificate.new.items ≡ certificate.old.items
        ++ record {
          at = orphan.at;
          choice = choice_at line.old orphan.at;
          message = orphan.message;
        } ∷ []) }
    ensures lower { OnOk result
        (height catalogue.now.processes line.new < height catalogue.now.processes line.old) }
    ensures alone { OnOk result (IsSameBut line.old line.new orphan.at) }
    ensures earlier { OnOk result (IsNoLater (choice_at line.new orphan.at)
        (choice_at line.old orphan.at)) }
    ensures sent { OnOk result (sent.new ≡ sents_of catalogue.now.processes line.new) }
{
    let Orphan { at, message } = orphan;
    let choice = line.at(at);
    let next = catalogue.next_lower(at, choice, failed).unwrap();
    certificate.push(Passed {
        at,
        choice,
        message,
    })?;
    line.set(at, next);
    let count = catalogue.history().tape(at).sends_before(next);
    sent.set(at, count);
    Ok(())
}

/// Lowers a process until it has received no orphan, and says whether it was lowered.
///
/// Where no lane before one was beyond its count, that stays so while this process alone is
/// lowered, but for the lane of its own messages: a lower choice received no more, and the others
/// sent as many. So it looks on from there.
fn visit(
    catalogue: &Catalogue,
    failed: &ProcSet,
    at: ProcId,
    line: &mut Line,
    sent: &mut Sent,
    certificate: &mut Vec<Passed>,
) -> Result<bool, AllocError>
    requires process { at < length catalogue.now.processes }
    requires led { IsLed catalogue.now.processes catalogue.now.marks failed.now
        certificate.old.items line.old }
    requires sent { sent.old ≡ sents_of catalogue.now.processes line.old }
    ensures led { OnOk result
        (IsLed catalogue.now.processes catalogue.now.marks failed.now certificate.new.items
        line.new) }
    ensures none { OnOk result
        (AreSentBefore catalogue.now.processes line.new
        (events_before catalogue.now.processes line.new at)) }
    ensures alone { OnOk result (IsSameBut line.old line.new at) }
    ensures sent { OnOk result (sent.new ≡ sents_of catalogue.now.processes line.new) }
    ensures moved { IfOk result (λ lowered.
        IsMoved catalogue.now.processes line.old (vec_len certificate.old) lowered line.new
        (vec_len certificate.new)) }
    ensures passed { IfOk result
        (λ lowered. HasPassed at lowered certificate.old.items certificate.new.items) }
{
    let mut lowered = false;
    let mut clear = 0;
    'orphans: loop {
        match orphan_at(catalogue, line, sent, at, &mut clear) {
            Some(message) => {
                let orphan = Orphan { at, message };
                pass_over(catalogue, failed, orphan, line, sent, certificate)?;
                lowered = true;
                clear = clear.min(at.get() as usize);
            }
            None => return Ok(lowered),
        }
    }
}

/// Visits a process if it is to be visited, after which it is not, and says whether it was lowered;
/// whoever received what it has then no longer sent is to be visited.
///
/// Who that is depends only on where the process ends up: it is asked once, for all the choices
/// that are passed over here.
fn visit_dirty(
    catalogue: &Catalogue,
    failed: &ProcSet,
    at: ProcId,
    line: &mut Line,
    visits: &mut Visits,
    certificate: &mut Vec<Passed>,
) -> Result<bool, AllocError>
    requires process { at < length catalogue.now.processes }
    requires led { IsLed catalogue.now.processes catalogue.now.marks failed.now
        certificate.old.items line.old }
    requires sent { visits.old.sent ≡ sents_of catalogue.now.processes line.old }
    requires clean { AreClean catalogue.now.processes line.old visits.old.dirty }
    ensures led { OnOk result
        (IsLed catalogue.now.processes catalogue.now.marks failed.now certificate.new.items
        line.new) }
    ensures none { OnOk result
        (AreSentBefore catalogue.now.processes line.new
        (events_before catalogue.now.processes line.new at)) }
    ensures sent { OnOk result (visits.new.sent ≡ sents_of catalogue.now.processes line.new) }
    ensures clean { OnOk result (AreClean catalogue.now.processes line.new visits.new.dirty) }
    ensures moved { IfOk result (λ lowered.
        IsMoved catalogue.now.processes line.old (vec_len certificate.old) lowered line.new
        (vec_len certificate.new)) }
    ensures passed { IfOk result
        (λ lowered. HasPassed at lowered certificate.old.items certificate.new.items) }
    ensures begun { IfOk result (λ lowered. lowered ≡ true → is_member visits.old.dirty at ≡ true) }
    ensures visited { OnOk result (is_member visits.new.dirty at ≡ false) }
    ensures fewer { IfOk result (λ lowered. lowered ≡ false → (q : ℕ)
        → is_member visits.new.dirty q ≡ true → is_member visits.old.dirty q ≡ true) }
{
    if !visits.dirty.has(at) {
        return Ok(false);
    }
    let lowered = visit(catalogue, failed, at, line, &mut visits.sent, certificate)?;
    if lowered {
        let count = catalogue.history().tape(at).sends_before(line.at(at));
        mark_hearers(catalogue, at, count, &mut visits.dirty);
    }
    visits.dirty.set(at, false);
    Ok(lowered)
}

/// Visits each process that is to be visited once, in their order, and says whether one was
/// lowered.
fn sweep(
    catalogue: &Catalogue,
    failed: &ProcSet,
    line: &mut Line,
    visits: &mut Visits,
    certificate: &mut Vec<Passed>,
) -> Result<bool, AllocError>
    requires led { IsLed catalogue.now.processes catalogue.now.marks failed.now
        certificate.old.items line.old }
    requires sent { visits.old.sent ≡ sents_of catalogue.now.processes line.old }
    requires clean { AreClean catalogue.now.processes line.old visits.old.dirty }
    requires due { AreOfNextSweep (length catalogue.now.processes) certificate.old.items
        visits.old.dirty }
    ensures led { OnOk result
        (IsLed catalogue.now.processes catalogue.now.marks failed.now certificate.new.items
        line.new) }
    ensures sent { OnOk result (visits.new.sent ≡ sents_of catalogue.now.processes line.new) }
    ensures clean { OnOk result (AreClean catalogue.now.processes line.new visits.new.dirty) }
    ensures none { IfOk result (λ lowered. lowered ≡ false
        → AreSentBelow catalogue.now.processes line.new (length catalogue.now.processes)) }
    ensures moved { IfOk result (λ lowered.
        IsMoved catalogue.now.processes line.old (vec_len certificate.old) lowered line.new
        (vec_len certificate.new)) }
    ensures due { OnOk result
        (AreOfNextSweep (length catalogue.now.processes) certificate.new.items visits.new.dirty) }
    ensures same { IfOk result
        (λ lowered. lowered ≡ false → certificate.new.items ≡ certificate.old.items) }
    ensures swept { IfOk result (λ lowered. lowered ≡ true
        → sweeps_with_entries certificate.new.items
        ≡ suc (sweeps_with_entries certificate.old.items)) }
{
    let n = catalogue.n();
    let mut lowered = false;
    for q in 0..n {
        let at = ProcId::try_new(q, n).unwrap();
        let moved = visit_dirty(catalogue, failed, at, line, visits, certificate)?;
        lowered |= moved;
    }
    Ok(lowered)
}

/// How many sends of each process stand before its choice of the line.
fn sents_before(alloc: Global, catalogue: &Catalogue, line: &Line) -> Result<Sent, AllocError>
    requires { IsLine catalogue.now.processes line.now }
    ensures { IfOk result (λ sent. sent ≡ sents_of catalogue.now.processes line.now) }
{
    let n = catalogue.n();
    let mut sent = Sent::new(alloc, n)?;
    for q in 0..n {
        let p = ProcId::try_new(q, n).unwrap();
        sent.set(p, catalogue.history().tape(p).sends_before(line.at(p)));
    }
    Ok(sent)
}

/// Plans the latest line of surviving choices that has no orphan.
///
/// The ceilings start at each process's latest surviving choice. A sweep visits the processes in
/// the order of their numbers; at a visit a process is lowered to its next lower surviving choice
/// while it has received an orphan, and each choice passed over is written down with the orphan
/// from the lowest sender, of its messages the one with the greatest number. Sweeps go on until one
/// lowers nothing; that one counts too.
///
/// The first sweep visits all processes. A later one visits those alone that received, from a
/// process lowered since their last visit, a message that is no longer sent: no other one can have
/// an orphan. So the line, the entries and the sweeps are those of visiting all.
///
/// Each visit costs a look at a vector, and one more for each choice that it passes over; where it
/// passes one over, it also costs a look at one lane of each process. At the end
/// `Catalogue::transit` tells what is in transit at the line. Where nobody failed that is all: one
/// look at a vector for each process, and at what `transit` looks at.
pub fn plan(alloc: Global, catalogue: &Catalogue, failed: &ProcSet) -> Result<Plan, PlanError>
    ensures latest { IfOk result
        (λ plan. IsLatest catalogue.now.processes catalogue.now.marks failed.now plan.line) }
    ensures chain { IfOk result (λ plan.
        IsChain catalogue.now.processes catalogue.now.marks failed.now plan.certificate.items
        plan.line) }
    ensures some_sweep { IfOk result (λ plan. 1 ≤ plan.sweeps) }
    ensures few_sweeps { IfOk result (λ plan. plan.sweeps ≤ vec_len plan.certificate + 1) }
    ensures sweeps { IfOk result
        (λ plan. plan.sweeps ≡ sweeps_with_entries plan.certificate.items + 1) }
    ensures replays { IfOk result
        (λ plan. plan.replays.items ≡ in_transit catalogue.now.processes plan.line) }
{
    let _n = catalogue.n();
    let mut line = first_ceilings(catalogue, failed);
    let mut visits = Visits {
        sent: sents_before(alloc, catalogue, &line)?,
        dirty: Dirty::everyone(),
    };
    let mut certificate = Vec::new(alloc);
    let mut sweeps = 0u32;
    'sweeps: loop {
        let lowered = sweep(catalogue, failed, &mut line, &mut visits, &mut certificate)?;
        sweeps += 1;
        if !lowered {
            let replays = catalogue.transit(alloc, &line)?;
            return Ok(Plan {
                line,
                certificate,
                sweeps,
                replays,
            });
        }
    }
}

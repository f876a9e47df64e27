//! Catalogues: what they take, refuse and show.
use crate::tests::build::{Did, catalogue_of, failed, history_of, process};
use crate::tests::parts::{are_same_lanes, has_lanes};
use crate::tests::{DOMINO, ROUND, passed, reads};
use line_catalogue::{AddError, Catalogue, CatalogueError, DamageError, Row};
use line_names::{Body, Choice, Line, MsgName, Passed, ProcId, ProcSet};
use line_plan::{PlanError, plan};
use line_tape::{BarError, Event, History, Marks};
use std::alloc::Global;
use std::test::Fail;

/// The receipt of a message of the first process.
fn receipt(inc: u16, number: u32) -> Result<Event, Fail> {
    let from = process(0)?;
    let message = MsgName { from, inc, number };
    Ok(Event::Recv { message })
}

/// A send to the second process.
fn send(inc: u16) -> Result<Event, Fail> {
    let to = process(1)?;
    let body = Body::try_new(b"a")?;
    Ok(Event::Send { to, inc, body })
}

/// The catalogue that is made of a history of two processes at once, without marks.
fn made_of(alloc: Global, history: &History) -> Result<Catalogue, Fail> {
    if history.n() != 2 {
        return Err(Fail::new("not two processes"));
    }
    let marks = Marks::new(alloc, 2)?;
    Ok(Catalogue::of(alloc, history, &marks)?)
}

/// The same of what two processes did.
fn made_at_once(alloc: Global, all: &[Did]) -> Result<Catalogue, Fail> {
    let history = history_of(alloc, all)?;
    made_of(alloc, &history)
}

/// Whether two rows tell the same of a check.
fn is_same_row(one: &Row<'_>, other: &Row<'_>) -> bool {
    one.place == other.place
        && one.sends == other.sends
        && one.damaged == other.damaged
        && are_same_lanes(&one.reach, &other.reach)
}

/// Whether two catalogues show the same of a process: its rows, one by one, and the vector of where
/// it stands.
fn show_the_same(one: &Catalogue, other: &Catalogue, p: ProcId) -> bool {
    if p.get() >= one.n() || p.get() >= other.n() {
        return false;
    }
    let rows = one.rows(p);
    let others = other.rows(p);
    if rows.len() != others.len() {
        return false;
    }
    for i in 0..rows.len() {
        if !is_same_row(&rows.at(i), &others.at(i)) {
            return false;
        }
    }
    are_same_lanes(&one.reach(p, Choice::Now), &other.reach(p, Choice::Now))
}

/// Whether two catalogues show the same of each of two processes.
fn are_the_same(one: &Catalogue, other: &Catalogue) -> Result<bool, Fail> {
    Ok(show_the_same(one, other, process(0)?) && show_the_same(one, other, process(1)?))
}

/// Whether the catalogue that is fed what two processes did shows the same as another one.
fn is_fed_the_same(alloc: Global, all: &[Did], other: &Catalogue) -> Result<bool, Fail> {
    let fed = catalogue_of(alloc, all)?;
    are_the_same(&fed, other)
}

/// Whether it shows the same as the one that is made at once.
fn is_made_as_it_is_fed(alloc: Global, all: &[Did]) -> Result<bool, Fail> {
    let at_once = made_at_once(alloc, all)?;
    is_fed_the_same(alloc, all, &at_once)
}

#[test]
fn fed_event_by_event(rt: HostRuntime) -> Result<(), Fail> {
    assert!(rt; is_made_as_it_is_fed(rt.alloc(), &ROUND)?);
    Ok(())
}

/// The choices of a line of two processes.
fn pair_of(line: &Line) -> Option<(Choice, Choice)> {
    match line.choices() {
        [first, second] => Some((*first, *second)),
        _ => None,
    }
}

/// What a plan comes to: its line, and how many sweeps, entries and replays it has.
type Outcome = (Option<(Choice, Choice)>, u32, usize, usize);

/// What the plan for a catalogue comes to, where these failed.
fn planned(alloc: Global, catalogue: &Catalogue, lost: &ProcSet) -> Result<Outcome, Fail> {
    let plan = plan(alloc, catalogue, lost)?;
    let line = pair_of(&plan.line);
    Ok((
        line,
        plan.sweeps,
        plan.certificate.len(),
        plan.replays.len(),
    ))
}

/// The same for the catalogue that is made of what two processes did at once.
fn planned_at_once(alloc: Global, all: &[Did], lost: &ProcSet) -> Result<Outcome, Fail> {
    let catalogue = made_at_once(alloc, all)?;
    planned(alloc, &catalogue, lost)
}

#[test]
fn plans_of_both_are_the_same(rt: HostRuntime) -> Result<(), Fail> {
    let lost = failed(&[0])?;
    let back = Some((Choice::Check(0), Choice::Check(0)));
    assert!(rt; planned_at_once(rt.alloc(), &DOMINO, &lost)? == (back, 3, 4, 0));
    Ok(())
}

/// What a catalogue says where its first process sends.
fn sends(catalogue: &mut Catalogue, inc: u16) -> Result<Option<AddError>, Fail> {
    let event = send(inc)?;
    Ok(catalogue.add(process(0)?, event).err())
}

/// What a catalogue says where its second process receives from the first.
fn receives(catalogue: &mut Catalogue, inc: u16, number: u32) -> Result<Option<AddError>, Fail> {
    let event = receipt(inc, number)?;
    Ok(catalogue.add(process(1)?, event).err())
}

/// A send of another incarnation, one of the present one, and three receipts.
fn told_of_names(catalogue: &mut Catalogue) -> Result<[Option<AddError>; 5], Fail> {
    Ok([
        sends(catalogue, 1)?,
        sends(catalogue, 0)?,
        receives(catalogue, 1, 0)?,
        receives(catalogue, 1, 7)?,
        receives(catalogue, 0, 7)?,
    ])
}

/// The same of the catalogue of two processes that have done nothing yet.
fn told_anew(alloc: Global) -> Result<[Option<AddError>; 5], Fail> {
    let mut catalogue = Catalogue::new(alloc, 2)?;
    told_of_names(&mut catalogue)
}

#[test]
fn names_that_disagree(rt: HostRuntime) -> Result<(), Fail> {
    let refused = Some(AddError::NamesDisagree);
    assert!(rt; told_anew(rt.alloc())? == [refused, None, refused, refused, None]);
    Ok(())
}

/// A send of the first process is received by the second one under another incarnation.
fn disagree(history: &mut History) -> Result<(), Fail> {
    history.push(process(0)?, send(0)?)?;
    history.push(process(1)?, receipt(1, 0)?)?;
    Ok(())
}

/// Why no catalogue is made of a history of two processes with these marks, where none is.
fn why_not(alloc: Global, history: &History, marks: &Marks) -> Option<CatalogueError> {
    if history.n() != 2 || marks.processes() != 2 {
        return None;
    }
    Catalogue::of(alloc, history, marks).err()
}

/// The same where there are no marks, and where one is on a check that there is not.
fn why_not_twice(alloc: Global, history: &History) -> Result<[Option<CatalogueError>; 2], Fail> {
    let first = process(0)?;
    let mut marks = Marks::new(alloc, 2)?;
    let unmarked = why_not(alloc, history, &marks);
    marks.mark(first, 1)?;
    Ok([unmarked, why_not(alloc, history, &marks)])
}

#[test]
fn a_history_that_disagrees(rt: HostRuntime) -> Result<(), Fail> {
    let mut history = History::new(rt.alloc(), 2)?;
    disagree(&mut history)?;
    let names = Some(CatalogueError::NamesDisagree);
    let check = Some(CatalogueError::NoSuchCheck);
    assert!(rt; why_not_twice(rt.alloc(), &history)? == [names, check]);
    Ok(())
}

/// The second process received the message of the greatest number, which the first never sent.
fn received_the_greatest(alloc: Global) -> Result<History, Fail> {
    let mut history = History::new(alloc, 2)?;
    let event = receipt(0, 4_294_967_295)?;
    history.push(process(1)?, event)?;
    Ok(history)
}

/// The catalogue of that.
fn made_of_the_greatest(alloc: Global) -> Result<Catalogue, Fail> {
    let history = received_the_greatest(alloc)?;
    made_of(alloc, &history)
}

/// Whether the plan for a catalogue, where nobody failed, has these entries.
fn has_entries(alloc: Global, catalogue: &Catalogue, entries: &[Passed]) -> Result<bool, Fail> {
    let plan = plan(alloc, catalogue, &ProcSet::empty())?;
    Ok(plan.certificate.as_slice() == entries)
}

/// What the plan for a catalogue comes to, where nobody failed, and whether it has these entries.
fn planned_by(
    alloc: Global,
    catalogue: &Catalogue,
    entries: &[Passed],
) -> Result<(Outcome, bool), Fail> {
    let outcome = planned(alloc, catalogue, &ProcSet::empty())?;
    Ok((outcome, has_entries(alloc, catalogue, entries)?))
}

/// The same for that catalogue.
fn planned_greatest(alloc: Global, entries: &[Passed]) -> Result<(Outcome, bool), Fail> {
    let catalogue = made_of_the_greatest(alloc)?;
    planned_by(alloc, &catalogue, entries)
}

#[test]
fn plans_with_the_greatest_number(rt: HostRuntime) -> Result<(), Fail> {
    let entry = passed(1, Choice::Now, 0, 4_294_967_295)?;
    let line = Some((Choice::Now, Choice::Check(0)));
    let (outcome, by_this) = planned_greatest(rt.alloc(), &[entry])?;
    assert!(rt; outcome == (line, 2, 1, 0));
    assert!(rt; by_this);
    Ok(())
}

/// Makes room for three events more of the first process, and marks its check 1 as damaged.
fn damage(catalogue: &mut Catalogue) -> Result<(), Fail> {
    let first = process(0)?;
    if first.get() < catalogue.n() {
        catalogue.reserve(first, 3)?;
        catalogue.damage(first, 1)?;
    }
    Ok(())
}

/// The domino, its first process's only check damaged, with room for three events more.
fn damaged_domino(alloc: Global) -> Result<Catalogue, Fail> {
    let mut catalogue = catalogue_of(alloc, &DOMINO)?;
    damage(&mut catalogue)?;
    Ok(catalogue)
}

/// What is said of a process: the choices below where it stands and below its initial state, and
/// whether its check survives.
type Choices = (Option<Choice>, Option<Choice>, bool);

/// What a catalogue says so of a failed first process.
fn choices_of(catalogue: &Catalogue) -> Result<Choices, Fail> {
    let first = process(0)?;
    let lost = failed(&[0])?;
    if first.get() >= catalogue.n() {
        return Ok((None, None, true));
    }
    Ok((
        catalogue.next_lower(first, Choice::Now, &lost),
        catalogue.next_lower(first, Choice::Check(0), &lost),
        catalogue.survives(first, Choice::Check(1), &lost),
    ))
}

/// The same of the domino.
fn choices_of_domino(alloc: Global) -> Result<Choices, Fail> {
    let catalogue = catalogue_of(alloc, &DOMINO)?;
    choices_of(&catalogue)
}

#[test]
fn lower_choices(rt: HostRuntime) -> Result<(), Fail> {
    assert!(rt; choices_of_domino(rt.alloc())? == (Some(Choice::Check(1)), None, true));
    Ok(())
}

/// The same of the damaged domino.
fn choices_beside_damage(alloc: Global) -> Result<Choices, Fail> {
    let catalogue = damaged_domino(alloc)?;
    choices_of(&catalogue)
}

#[test]
fn lower_choices_beside_damage(rt: HostRuntime) -> Result<(), Fail> {
    assert!(rt; choices_beside_damage(rt.alloc())? == (Some(Choice::Check(0)), None, false));
    Ok(())
}

/// What is answered where a catalogue's second process is barred at checks 3, 1 and 2.
fn bars(catalogue: &mut Catalogue) -> Result<[Option<BarError>; 3], Fail> {
    let second = process(1)?;
    if second.get() >= catalogue.n() {
        return Ok([None; 3]);
    }
    Ok([
        catalogue.bar(second, 3).err(),
        catalogue.bar(second, 1).err(),
        catalogue.bar(second, 2).err(),
    ])
}

/// The same, and what the plan comes to then, where nobody failed.
fn bars_and_plans(
    alloc: Global,
    catalogue: &mut Catalogue,
) -> Result<([Option<BarError>; 3], Outcome), Fail> {
    let refused = bars(catalogue)?;
    Ok((refused, planned(alloc, catalogue, &ProcSet::empty())?))
}

/// The same of the domino.
fn barred_domino(alloc: Global) -> Result<([Option<BarError>; 3], Outcome), Fail> {
    let mut catalogue = catalogue_of(alloc, &DOMINO)?;
    bars_and_plans(alloc, &mut catalogue)
}

#[test]
fn a_barred_process_goes_back(rt: HostRuntime) -> Result<(), Fail> {
    let (refused, plan) = barred_domino(rt.alloc())?;
    let (missing, again) = (Some(BarError::NoSuchCheck), Some(BarError::BarNotLower));
    assert!(rt; refused == [missing, None, again]);
    let back = Some((Choice::Check(0), Choice::Check(0)));
    assert!(rt; plan == (back, 2, 3, 0));
    Ok(())
}

#[test]
fn refusals_of_bars_read_well(rt: HostRuntime) {
    let missing = "the process has no such check";
    assert!(rt; reads(rt.alloc(), BarError::NoSuchCheck, missing));
    let again = "the process is barred at that check or an earlier one already";
    assert!(rt; reads(rt.alloc(), BarError::BarNotLower, again));
}

/// Whether the last row of a process has this place, these sends and this damage, and these lanes.
fn ends_with(catalogue: &Catalogue, p: ProcId, row: (u32, u32, bool), lanes: &[u32]) -> bool {
    if p.get() >= catalogue.n() {
        return false;
    }
    let rows = catalogue.rows(p);
    if rows.is_empty() {
        return false;
    }
    let last = rows.at(rows.len() - 1);
    (last.place, last.sends, last.damaged) == row && has_lanes(&last.reach, lanes)
}

/// Whether the rows of the damaged domino's first process end so.
fn damage_ends_with(alloc: Global, row: (u32, u32, bool), lanes: &[u32]) -> Result<bool, Fail> {
    let first = process(0)?;
    let catalogue = damaged_domino(alloc)?;
    Ok(ends_with(&catalogue, first, row, lanes))
}

#[test]
fn rows_of_a_damaged_check(rt: HostRuntime) -> Result<(), Fail> {
    assert!(rt; damage_ends_with(rt.alloc(), (3, 1, true), &[0, 1])?);
    Ok(())
}

#[test]
fn refusals_of_catalogues_read_well(rt: HostRuntime) {
    let mark = "a mark or a bar is on a check that its tape does not have";
    assert!(rt; reads(rt.alloc(), CatalogueError::NoSuchCheck, mark));
    let received = "a received message has a name that its sender did not give it";
    assert!(rt; reads(rt.alloc(), CatalogueError::NamesDisagree, received));
    let full = "the tape has no room under 1000000 events";
    assert!(rt; reads(rt.alloc(), AddError::TapeFull, full));
    let named = "the event has a name that its sender did not give it";
    assert!(rt; reads(rt.alloc(), AddError::NamesDisagree, named));
}

#[test]
fn refusals_of_marks_and_plans_read_well(rt: HostRuntime) {
    let missing = "the tape has no such check";
    assert!(rt; reads(rt.alloc(), DamageError::NoSuchCheck, missing));
    let already = "the check is marked already";
    assert!(rt; reads(rt.alloc(), DamageError::AlreadyDamaged, already));
    assert!(rt; reads(rt.alloc(), PlanError::OutOfMemory, "out of memory"));
}

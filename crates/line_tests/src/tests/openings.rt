//! Machines that let go, opened of what others keep.
use crate::tests::build::{Did, catalogue_of, process};
use crate::tests::lives::{FIRST_FLOOR, FIRST_ROUND, forgets, goes_on, has_floor};
use line_catalogue::Catalogue;
use line_cuts::OwnedFloor;
use line_live::{Live, ResumeError, RoundChecks};
use line_world::{Mode, Round, World};
use std::alloc::{AllocError, Global};
use std::test::Fail;

/// The catalogue of what a world keeps.
fn kept_of(alloc: Global, world: &World) -> Result<Catalogue, Fail> {
    let (history, marks) = (world.history(), world.marks());
    if marks.processes() != history.n() as usize {
        return Err(Fail::new("marks of other processes"));
    }
    Ok(Catalogue::of(alloc, history, marks)?)
}

/// A floor of these checks, sends and round.
fn floor_of(
    alloc: Global,
    checks: &[u32],
    sends: &[u32],
    round: u32,
) -> Result<OwnedFloor, AllocError> {
    let checks = Vec::from_slice(alloc, checks)?;
    let sends = Vec::from_slice(alloc, sends)?;
    Ok(OwnedFloor::of(checks, sends, round))
}

/// A round of this number, by its checks.
fn round_of(alloc: Global, number: u32, checks: &[u32]) -> Result<RoundChecks, AllocError> {
    let checks = Vec::from_slice(alloc, checks)?;
    Ok(RoundChecks::of(number, checks))
}

/// What tells each of listed rounds.
fn rounds_of(alloc: Global, rounds: &[Round]) -> Result<Vec<RoundChecks>, AllocError> {
    let mut all = Vec::new(alloc);
    for round in rounds {
        all.push(round_of(alloc, round.number(), round.checks())?)?;
    }
    Ok(all)
}

/// The machine that is opened of what another one keeps.
fn opened_of(alloc: Global, live: &Live) -> Result<Live, Fail> {
    let (world, floor) = (live.kept(), live.floor());
    let rounds = rounds_of(alloc, world.rounds())?;
    let floor = floor_of(alloc, floor.checks(), floor.counts(), floor.round())?;
    let catalogue = kept_of(alloc, world)?;
    let last = world.last_round();
    Ok(Live::resume(alloc, catalogue, floor, last, &rounds)?)
}

/// Whether the machine that is opened of what another one keeps goes on as that one does.
fn go_on_alike(alloc: Global, live: &mut Live) -> Result<bool, Fail> {
    let mut opened = opened_of(alloc, live)?;
    Ok(has_floor(&opened, &FIRST_FLOOR) && goes_on(alloc, &mut opened)? && goes_on(alloc, live)?)
}

#[test]
fn what_is_opened_goes_on_alike(rt: HostRuntime) -> Result<(), Fail> {
    let mut live = Live::new(rt.alloc(), 2, Mode::Fifo)?;
    assert!(rt; forgets(rt.alloc(), &mut live, &FIRST_ROUND, 1, &FIRST_FLOOR)?);
    assert!(rt; live.may_save().is_ok());
    assert!(rt; go_on_alike(rt.alloc(), &mut live)?);
    Ok(())
}

/// A check of each.
const CHECKED: [Did; 2] = [Did::Checks(0), Did::Checks(1)];

/// A check of each, of which the second one has what was sent after the first.
const ORPHANED: [Did; 4] = [
    Did::Checks(0),
    Did::Sends(0, 1),
    Did::Receives(1, 0, 0),
    Did::Checks(1),
];

/// Why no machine with this floor, and with this round listed, is opened of a catalogue, where the
/// last round begun has number 1.
fn why_not(
    alloc: Global,
    catalogue: Catalogue,
    floor: (&[u32], &[u32]),
    round: (u32, &[u32]),
) -> Result<Option<ResumeError>, Fail> {
    let floor = floor_of(alloc, floor.0, floor.1, 1)?;
    let rounds = vec![in alloc; round_of(alloc, round.0, round.1)?]?;
    Ok(Live::resume(alloc, catalogue, floor, 1, &rounds).err())
}

/// Why none with a floor at the first check of each is opened of a catalogue.
fn why_not_at_checks(alloc: Global, catalogue: Catalogue) -> Result<Option<ResumeError>, Fail> {
    why_not(alloc, catalogue, (&[1, 1], &[0, 0]), (1, &[1, 1]))
}

/// The same of what two processes did.
fn why_not_of(alloc: Global, all: &[Did]) -> Result<Option<ResumeError>, Fail> {
    let catalogue = catalogue_of(alloc, all)?;
    why_not_at_checks(alloc, catalogue)
}

/// The same of two processes each of which has a check, if the second one's is damaged.
fn why_not_damaged(alloc: Global) -> Result<Option<ResumeError>, Fail> {
    let mut catalogue = catalogue_of(alloc, &CHECKED)?;
    let second = process(1)?;
    if second.get() < catalogue.n() {
        catalogue.damage(second, 1)?;
    }
    why_not_at_checks(alloc, catalogue)
}

/// The same, if the second one is barred at its initial state.
fn why_not_barred(alloc: Global) -> Result<Option<ResumeError>, Fail> {
    let mut catalogue = catalogue_of(alloc, &CHECKED)?;
    let second = process(1)?;
    if second.get() < catalogue.n() {
        catalogue.bar(second, 0)?;
    }
    why_not_at_checks(alloc, catalogue)
}

/// Whether none is opened where the checks at the floor are not all there, where they make no
/// consistent line, where one is damaged, and where a process is barred below.
fn is_lost(alloc: Global) -> Result<bool, Fail> {
    let lost = Some(ResumeError::FloorLost);
    Ok(
        why_not_of(alloc, &[Did::Checks(0)])? == lost
            && why_not_of(alloc, &ORPHANED)? == lost
            && why_not_damaged(alloc)? == lost
            && why_not_barred(alloc)? == lost,
    )
}

/// What is answered of a machine with a floor and a listed round, if each process has a check.
fn told_of(
    alloc: Global,
    floor: (&[u32], &[u32]),
    round: (u32, &[u32]),
) -> Result<Option<ResumeError>, Fail> {
    let catalogue = catalogue_of(alloc, &CHECKED)?;
    why_not(alloc, catalogue, floor, round)
}

/// Whether a floor of one process is refused, and one that lets too many messages go.
fn are_floors_refused(alloc: Global) -> Result<bool, Fail> {
    let (foreign, spent) = (ResumeError::ForeignFloor, ResumeError::NoMoreNumbers);
    let most = [0, 4_293_967_296];
    Ok(
        told_of(alloc, (&[1], &[0]), (1, &[1, 1]))? == Some(foreign)
            && told_of(alloc, (&[1, 1], &most), (1, &[1, 1]))? == Some(spent),
    )
}

/// Whether a round is refused that was not begun, and one at an initial state.
fn are_rounds_refused(alloc: Global) -> Result<bool, Fail> {
    let (order, state) = (ResumeError::RoundsDisordered, ResumeError::NotConsistent);
    Ok(
        told_of(alloc, (&[1, 1], &[0, 0]), (2, &[1, 1]))? == Some(order)
            && told_of(alloc, (&[1, 1], &[0, 0]), (1, &[1, 0]))? == Some(state),
    )
}

/// Whether a machine is opened that has its floor, and none of whose second process received what
/// the first one did not send.
fn is_opened(alloc: Global) -> Result<bool, Fail> {
    let idle = Some(ResumeError::NotIdle);
    let unsent = [Did::Checks(0), Did::Checks(1), Did::Receives(1, 0, 0)];
    Ok(why_not_of(alloc, &CHECKED)?.is_none() && why_not_of(alloc, &unsent)? == idle)
}

#[test]
fn nothing_is_opened_without_its_floor(rt: HostRuntime) -> Result<(), Fail> {
    assert!(rt; is_opened(rt.alloc())?);
    assert!(rt; is_lost(rt.alloc())?);
    assert!(rt; are_floors_refused(rt.alloc())? && are_rounds_refused(rt.alloc())?);
    Ok(())
}

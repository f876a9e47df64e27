//! Two workers and their collector on one thread, step by step.
use crate::tests::workers::gatherings::gather_in_order;
use crate::tests::workers::seen::{
    is_first, is_first_sent, is_handed_back, is_nothing, is_planned, is_reported, is_taken,
    is_tape, is_whole,
};
use crate::tests::workers::steps::{
    Planned, Sent, Taken, drain, gather_unreported, open_and_check, open_and_report,
    report_and_plan, send_two_and_check,
};
use line_names::{Body, BodyError, Choice, Passed};
use line_posts::{GatherWhy, Gathered, fleet};
use line_tape::TapeError;
use std::alloc::Global;
use std::test::Fail;

/// Whether the ring took the first of two sends, and the second came back with its body.
pub fn is_ring_full(seen: &Sent) -> bool {
    is_first_sent(&seen.0) && is_handed_back(&seen.1, &[6; 64])
}

#[test]
fn long_body(rt: HostRuntime) {
    assert_eq!(rt; Body::try_new(&[5; 65]), Err(BodyError::BodyTooLong));
}

/// What the first of two workers with one slot is answered that sends twice and takes a check.
fn send_and_check(alloc: Global) -> Result<(Sent, Result<u32, TapeError>), Fail> {
    let (_collector, mut posts) = fleet(alloc, 2, 1)?;
    send_two_and_check(alloc, &mut posts)
}

#[test]
fn ring_full(rt: HostRuntime) -> Result<(), Fail> {
    let (sent, checked) = send_and_check(rt.alloc())?;
    assert!(rt; is_ring_full(&sent) && checked == Ok(1));
    Ok(())
}

/// Whether one event was reported and taken and so many are left, and a plan has this line with so
/// many replays, nothing having been passed.
fn is_told(seen: &Planned, left: u32, line: &[Choice], replays: usize) -> bool {
    is_reported(&seen.report, 1, left)
        && seen.take == Ok(1)
        && is_planned(&seen.plan, line, 0, 1, replays)
}

/// What is answered at the first report.
fn first_report(alloc: Global) -> Result<Planned, Fail> {
    let (mut collector, mut posts) = open_and_check(alloc)?;
    Ok(report_and_plan(&mut collector, &mut posts))
}

#[test]
fn send_is_reported_first(rt: HostRuntime) -> Result<(), Fail> {
    let line = [Choice::Check(0), Choice::Check(0)];
    assert!(rt; is_told(&first_report(rt.alloc())?, 1, &line, 0));
    Ok(())
}

/// What is answered at the second report.
fn second_report(alloc: Global) -> Result<Planned, Fail> {
    let (mut collector, mut posts) = open_and_check(alloc)?;
    let _ = report_and_plan(&mut collector, &mut posts);
    Ok(report_and_plan(&mut collector, &mut posts))
}

#[test]
fn check_is_reported_then(rt: HostRuntime) -> Result<(), Fail> {
    let line = [Choice::Check(1), Choice::Check(0)];
    assert!(rt; is_told(&second_report(rt.alloc())?, 0, &line, 1));
    Ok(())
}

/// What the second worker takes of the first.
fn open_and_drain(alloc: Global) -> Result<Taken, Fail> {
    let (_collector, mut posts) = open_and_report(alloc)?;
    drain(alloc, &mut posts)
}

#[test]
fn rings_move_items(rt: HostRuntime) -> Result<(), Fail> {
    let (taken, again) = open_and_drain(rt.alloc())?;
    assert!(rt; is_taken(&taken, &[5; 64]) && is_nothing(&again));
    Ok(())
}

/// What is gathered of two workers, at the second try, where the second one took all there was.
fn gather_drained(alloc: Global) -> Result<(Option<GatherWhy>, Gathered), Fail> {
    let (collector, mut posts) = open_and_report(alloc)?;
    let _ = drain(alloc, &mut posts)?;
    Ok(gather_in_order(collector, posts)?)
}

#[test]
fn gather_succeeds(rt: HostRuntime) -> Result<(), Fail> {
    let (refused, gathered) = gather_drained(rt.alloc())?;
    assert!(rt; refused == Some(GatherWhy::Unfinished));
    assert!(rt; is_whole(&gathered));
    Ok(())
}

/// Whether the entry passes over that choice of process 1 by the first message of process 0.
fn is_passed(passed: &Passed, choice: Choice) -> bool {
    passed.at.get() == 1 && passed.choice == choice && is_first(&passed.message)
}

/// Whether the failed process 0 has its check alone, and process 1 goes back after what it
/// received of it.
fn is_lost(gathered: &Gathered) -> bool {
    match gathered.plan() {
        Ok(plan) => {
            plan.line.choices() == [Choice::Check(1), Choice::Check(0)].as_slice()
                && plan.certificate.len() == 2
                && is_passed(&plan.certificate[0], Choice::Now)
                && is_passed(&plan.certificate[1], Choice::Check(1))
                && plan.sweeps == 2
                && plan.replays.is_empty()
        }
        Err(_) => false,
    }
}

#[test]
fn unreported_events_are_lost(rt: HostRuntime) -> Result<(), Fail> {
    let (taken, gathered) = gather_unreported(rt.alloc())?;
    assert!(rt; taken == Ok(1));
    assert!(rt; is_tape(&gathered, 0, 1, 0, 1) && is_tape(&gathered, 1, 2, 0, 1));
    assert!(rt; is_lost(&gathered));
    Ok(())
}

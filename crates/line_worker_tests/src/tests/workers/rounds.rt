//! Rounds of two workers, and a restart after one of them.
use crate::tests::workers::gatherings::gather_reported;
use crate::tests::workers::restart_steps::restart;
use crate::tests::workers::round_steps::{
    Answers, Begun, BothReported, begin_next, damage_second, report_both, run_and_begin, run_round,
    send_and_begin,
};
use crate::tests::workers::seen::{is_planned, is_reported};
use line_catalogue::DamageError;
use line_names::Choice;
use line_posts::{BeginWhy, FleetError, Gathered, ReceiveWhy, Received, fleet};
use std::alloc::Global;
use std::test::Fail;

/// Whether the marker of the first round was taken, and whether it forced a check.
fn is_marked(seen: &Result<Received, ReceiveWhy>, is_forced: bool) -> bool {
    match seen {
        Ok(Received::Marked { round, forced }) => *round == 1 && *forced == is_forced,
        _ => false,
    }
}

/// Whether the lead alone began a round, once, and each took the marker of the other.
fn is_round(seen: &Answers) -> bool {
    seen.begun == Ok(1)
        && seen.again == Err(BeginWhy::RoundOpen)
        && seen.other == Err(BeginWhy::NotLead)
        && is_marked(&seen.forced, true)
        && is_marked(&seen.closed, false)
}

/// A round of two workers, and the number of the next one.
fn open_and_run(alloc: Global) -> Result<(Answers, Result<u32, BeginWhy>), Fail> {
    let (_collector, mut posts) = fleet(alloc, 2, 2)?;
    run_and_begin(alloc, &mut posts)
}

#[test]
fn rounds_of_posts(rt: HostRuntime) -> Result<(), Fail> {
    let (seen, next) = open_and_run(rt.alloc())?;
    assert!(rt; is_round(&seen) && next == Ok(2));
    Ok(())
}

/// A message and a round of the first of two workers with one slot.
fn open_and_begin(alloc: Global) -> Result<Begun, Fail> {
    let (_collector, mut posts) = fleet(alloc, 2, 1)?;
    send_and_begin(alloc, &mut posts)
}

/// Whether the message alone was sent.
fn is_sent_alone(seen: &Begun) -> bool {
    seen.0 && seen.1 == Err(BeginWhy::RingFull) && seen.2 == 1 && seen.3 == 1
}

#[test]
fn marker_finds_no_slot(rt: HostRuntime) -> Result<(), Fail> {
    assert!(rt; is_sent_alone(&open_and_begin(rt.alloc())?));
    Ok(())
}

/// Whether there is no fleet of this capacity.
fn is_bad(alloc: Global, capacity: usize) -> bool {
    match fleet(alloc, 2, capacity) {
        Ok(_) => false,
        Err(why) => why == FleetError::BadCapacity,
    }
}

#[test]
fn capacities(rt: HostRuntime) {
    assert!(rt; is_bad(rt.alloc(), 0) && is_bad(rt.alloc(), 1_025));
}

/// Whether both go on from their checks of the round.
fn is_at_the_round(gathered: &Gathered) -> bool {
    let line = [Choice::Check(1), Choice::Check(1)];
    is_planned(&gathered.plan(), &line, 0, 1, 0)
}

/// Whether process 1, whose check of the round is damaged, goes on from its initial state.
fn is_before_the_round(gathered: &Gathered) -> bool {
    let line = [Choice::Check(1), Choice::Check(0)];
    is_planned(&gathered.plan(), &line, 0, 1, 0)
}

/// Whether the marks of damage were refused as they should.
fn is_damaged(seen: Option<(DamageError, DamageError, DamageError)>) -> bool {
    seen == Some((
        DamageError::InitialDamage,
        DamageError::NoSuchCheck,
        DamageError::AlreadyDamaged,
    ))
}

/// What both workers report after a round, and what is gathered of them then, as if both failed.
fn report_round(alloc: Global) -> Result<(BothReported, Gathered), Fail> {
    let (collector, mut posts) = fleet(alloc, 2, 2)?;
    let _ = run_round(alloc, &mut posts)?;
    let reported = report_both(&mut posts);
    let gathered = gather_reported(collector, posts)?;
    Ok((reported, gathered))
}

#[test]
fn round_is_reported(rt: HostRuntime) -> Result<(), Fail> {
    let ((first, second), gathered) = report_round(rt.alloc())?;
    assert!(rt; is_reported(&first, 2, 0) && is_reported(&second, 2, 0));
    assert!(rt; is_at_the_round(&gathered));
    Ok(())
}

/// The number of the next round, begun after a restart.
fn begin_again(alloc: Global, gathered: Gathered) -> Result<Result<u32, BeginWhy>, Fail> {
    let (_collector, mut posts) = restart(gathered)?;
    begin_next(alloc, &mut posts, 4)
}

#[test]
fn damaged_round_of_posts(rt: HostRuntime) -> Result<(), Fail> {
    let (_reported, mut gathered) = report_round(rt.alloc())?;
    assert!(rt; is_damaged(damage_second(&mut gathered)));
    assert!(rt; is_before_the_round(&gathered));
    assert!(rt; begin_again(rt.alloc(), gathered)? == Ok(2));
    Ok(())
}

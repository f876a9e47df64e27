//! Two workers that go on from what was gathered of them.
use crate::tests::workers::gatherings::{gather_all, gather_reported};
use crate::tests::workers::posts::is_ring_full;
use crate::tests::workers::restart_steps::{go_on, restart};
use crate::tests::workers::seen::{is_nothing, is_received, is_sent, is_taken, is_tape, is_whole};
use crate::tests::workers::steps::{
    Sent, Taken, drain, gather_unreported, open_and_report, send_two,
};
use line_posts::{Gathered, fleet};
use std::alloc::Global;
use std::test::Fail;

/// Whether both tapes have what was done since, and both go on from where they stand.
fn is_gone_on(gathered: &Gathered) -> bool {
    is_whole(gathered) && is_tape(gathered, 0, 2, 1, 1) && is_tape(gathered, 1, 1, 0, 0)
}

#[test]
fn lost_message_is_sent_again(rt: HostRuntime) -> Result<(), Fail> {
    let (_taken, gathered) = gather_unreported(rt.alloc())?;
    let ((sent, received), gathered) = go_on(rt.alloc(), gathered)?;
    assert!(rt; is_sent(&sent) && is_received(&received));
    assert!(rt; is_gone_on(&gathered));
    Ok(())
}

/// What the second of two workers takes after a restart, where a message was in transit.
fn drain_again(alloc: Global) -> Result<Taken, Fail> {
    let (collector, posts) = open_and_report(alloc)?;
    let gathered = gather_reported(collector, posts)?;
    let (_collector, mut posts) = restart(gathered)?;
    drain(alloc, &mut posts)
}

#[test]
fn message_in_transit_is_received_again(rt: HostRuntime) -> Result<(), Fail> {
    let (taken, again) = drain_again(rt.alloc())?;
    assert!(rt; is_taken(&taken, &[5; 64]) && is_nothing(&again));
    Ok(())
}

/// What the first of two workers with one slot is answered that sends twice after a restart, before
/// which they did nothing.
fn send_again(alloc: Global) -> Result<Sent, Fail> {
    let (collector, posts) = fleet(alloc, 2, 1)?;
    let gathered = gather_all(collector, posts)?;
    let (_collector, mut posts) = restart(gathered)?;
    send_two(&mut posts)
}

#[test]
fn new_rings_have_the_old_capacity(rt: HostRuntime) -> Result<(), Fail> {
    assert!(rt; is_ring_full(&send_again(rt.alloc())?));
    Ok(())
}

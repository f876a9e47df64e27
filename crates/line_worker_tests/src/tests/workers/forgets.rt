//! A collector that lets go what no later plan can need, beside one that keeps everything.
ghost use Rattle.std.specs.Prelude.{◌<◌, IfOk, List, OnOk, length};
ghost use Rattle.line_posts.specs.Generations.{AreLined, AreSamePosts, IsGeneration, IsSamePost};
ghost use Rattle.line_posts.specs.Posts.{PostView};

use crate::tests::reads;
use crate::tests::workers::gatherings::gather_without_first;
use crate::tests::workers::restart_steps::{restart, send_and_receive};
use crate::tests::workers::seen::{has_tape, is_planned, is_tape};
use crate::tests::workers::steps::{no_state, state_of};
use line_cuts::OwnedFloor;
use line_names::{Body, Choice, MsgName, Passed, ProcId};
use line_plan::Plan;
use line_posts::{Collector, ForgetWhy, Gathered, Post, ReceiveWhy, Received, SendRefused, fleet};
use line_tape::State;
use std::alloc::{AllocError, Global};
use std::test::Fail;

/// Two states.
fn two_states(alloc: Global) -> Result<(State, State), AllocError> {
    Ok((state_of(alloc, &[1])?, state_of(alloc, &[2])?))
}

/// A worker sends a message, takes a check, and reports both.
fn send_and_report(post: &mut Post, to: ProcId, body: Body, state: State)
    ensures { IsSamePost post.old post.new }
{
    let _ = post.send(to, body);
    let _ = post.check(state);
    let _ = post.report();
}

/// The first of two workers does so.
fn first_reports(alloc: Global, posts: &mut Vec<Post>) -> Result<(), Fail>
    requires { 1 < length posts.old.items }
    ensures { OnOk result (AreSamePosts posts.old.items posts.new.items) }
{
    let to = ProcId::try_new(1, 2)?;
    let body = Body::try_new(b"a")?;
    let state = state_of(alloc, &[1])?;
    let post = &mut posts[0];
    send_and_report(post, to, body, state);
    Ok(())
}

/// A worker sends a message after its last check, and reports it.
fn send_one_and_report(post: &mut Post, to: ProcId, body: Body)
    ensures { IsSamePost post.old post.new }
{
    let _ = post.send(to, body);
    let _ = post.report();
}

/// The first of two workers does so.
fn first_reports_one(posts: &mut Vec<Post>) -> Result<(), Fail>
    requires { 1 < length posts.old.items }
    ensures { OnOk result (AreSamePosts posts.old.items posts.new.items) }
{
    let to = ProcId::try_new(1, 2)?;
    let body = Body::try_new(b"c")?;
    let post = &mut posts[0];
    send_one_and_report(post, to, body);
    Ok(())
}

/// A worker receives a message.
fn receive_one(post: &mut Post, from: ProcId, state: State)
    ensures { IsSamePost post.old post.new }
{
    let _ = post.receive(from, state);
}

/// The second of two workers receives a message of the first.
fn second_receives(alloc: Global, posts: &mut Vec<Post>) -> Result<(), Fail>
    requires { 1 < length posts.old.items }
    ensures { OnOk result (AreSamePosts posts.old.items posts.new.items) }
{
    let from = ProcId::try_new(0, 2)?;
    let state = no_state(alloc);
    let post = &mut posts[1];
    receive_one(post, from, state);
    Ok(())
}

/// A worker takes two checks, and reports.
fn check_and_report(post: &mut Post, states: (State, State))
    ensures { IsSamePost post.old post.new }
{
    let (one, other) = states;
    let _ = post.check(one);
    let _ = post.check(other);
    let _ = post.report();
}

/// The second of two workers does so.
fn second_reports(alloc: Global, posts: &mut Vec<Post>) -> Result<(), Fail>
    requires { 1 < length posts.old.items }
    ensures { OnOk result (AreSamePosts posts.old.items posts.new.items) }
{
    let states = two_states(alloc)?;
    let post = &mut posts[1];
    check_and_report(post, states);
    Ok(())
}

/// The first of two workers sends a message and takes a check, and the second one receives it and
/// takes two; both report.
fn both_check(alloc: Global, posts: &mut Vec<Post>) -> Result<(), Fail>
    requires { 1 < length posts.old.items }
    ensures { OnOk result (AreSamePosts posts.old.items posts.new.items) }
{
    first_reports(alloc, posts)?;
    second_receives(alloc, posts)?;
    second_reports(alloc, posts)?;
    Ok(())
}

/// The same, where the first one sends one more message, after its check, and the second one
/// receives that too.
fn both_go_on(alloc: Global, posts: &mut Vec<Post>) -> Result<(), Fail>
    requires { 1 < length posts.old.items }
    ensures { OnOk result (AreSamePosts posts.old.items posts.new.items) }
{
    first_reports(alloc, posts)?;
    first_reports_one(posts)?;
    second_receives(alloc, posts)?;
    second_receives(alloc, posts)?;
    second_reports(alloc, posts)?;
    Ok(())
}

/// The collector lets go what no plan needs, if that is asked for.
fn forget_if(collector: &mut Collector, forgets: bool) -> Result<(), ForgetWhy>
    ensures { OnOk result ((posts : List PostView)
        → AreLined collector.old posts → AreLined collector.new posts) }
{
    if !forgets {
        return Ok(());
    }
    collector.forget()
}

/// The collector takes what was reported, and lets go then if that is asked for.
fn take(collector: &mut Collector, forgets: bool) -> Result<(), Fail>
    ensures { OnOk result ((posts : List PostView)
        → AreLined collector.old posts → AreLined collector.new posts) }
{
    let _ = collector.take(9)?;
    forget_if(collector, forgets)?;
    Ok(())
}

/// Two workers that both took checks and reported, and their collector.
fn open(alloc: Global, forgets: bool) -> Result<(Collector, Vec<Post>), Fail>
    ensures two { IfOk result (λ r. 1 < length r.1.items) }
    ensures generation { IfOk result (λ r. IsGeneration r.1.items) }
    ensures lines { IfOk result (λ r. AreLined r.0 r.1.items) }
{
    let (mut collector, mut posts) = fleet(alloc, 2, 4)?;
    both_check(alloc, &mut posts)?;
    take(&mut collector, forgets)?;
    Ok((collector, posts))
}

/// The same, where both went on and reported after that.
fn open_and_go_on(alloc: Global, forgets: bool) -> Result<(Collector, Vec<Post>), Fail>
    ensures two { IfOk result (λ r. 1 < length r.1.items) }
    ensures generation { IfOk result (λ r. IsGeneration r.1.items) }
    ensures lines { IfOk result (λ r. AreLined r.0 r.1.items) }
{
    let (mut collector, mut posts) = open(alloc, forgets)?;
    both_go_on(alloc, &mut posts)?;
    take(&mut collector, false)?;
    Ok((collector, posts))
}

/// Whether a collector let go what stands before these checks, and so many messages of process 0.
fn is_floor(floor: Option<&OwnedFloor>, checks: &[u32], sends: u32) -> bool {
    match floor {
        Some(floor) => {
            floor.checks() == checks
                && floor.counts() == [sends, 0].as_slice()
                && floor.round() == 4_294_967_295
        }
        None => false,
    }
}

/// Whether a collector plans to go back to the last check of each, of which nothing is in transit.
fn plans_last_checks(collector: &Collector) -> bool {
    let line = [Choice::Check(1), Choice::Check(2)];
    is_planned(&collector.plan_live(), &line, 0, 1, 0)
}

/// Whether a collector that let something go keeps the checks of that line alone, which are the
/// floor.
fn keeps_last_checks(collector: &Collector) -> bool {
    is_floor(collector.floor(), &[1, 2], 1)
        && has_tape(collector.history(), 0, 1, 0, 1)
        && has_tape(collector.history(), 1, 1, 0, 1)
}

#[test]
fn what_stands_before_the_live_line_is_let_go(rt: HostRuntime) -> Result<(), Fail> {
    let (collector, _posts) = open(rt.alloc(), true)?;
    assert!(rt; keeps_last_checks(&collector));
    assert!(rt; plans_last_checks(&collector));
    Ok(())
}

/// Whether a collector that let nothing go has all, and plans the same.
fn keeps_all(collector: &Collector) -> bool {
    collector.floor().is_none()
        && has_tape(collector.history(), 0, 2, 1, 1)
        && has_tape(collector.history(), 1, 3, 0, 2)
        && plans_last_checks(collector)
}

#[test]
fn a_collector_keeps_what_it_is_not_to_let_go(rt: HostRuntime) -> Result<(), Fail> {
    let (collector, _posts) = open(rt.alloc(), false)?;
    assert!(rt; keeps_all(&collector));
    Ok(())
}

/// Whether it is the message of process 0 of this incarnation and number.
fn is_message(name: &MsgName, inc: u16, number: u32) -> bool {
    name.from.get() == 0 && name.inc == inc && name.number == number
}

/// Whether the entry passes over that check of process 1 by the last message of process 0.
fn is_passed(passed: &Passed, check: u32) -> bool {
    passed.at.get() == 1
        && passed.choice == Choice::Check(check)
        && is_message(&passed.message, 0, 2)
}

/// Whether the plan passes over both checks that process 1 took last, and sends again the message
/// before the last.
fn is_live_plan(plan: &Plan) -> bool {
    plan.line.choices() == [Choice::Check(2), Choice::Check(2)].as_slice()
        && plan.certificate.len() == 2
        && is_passed(&plan.certificate[0], 4)
        && is_passed(&plan.certificate[1], 3)
        && plan.sweeps == 2
        && plan.replays.len() == 1
        && is_message(&plan.replays[0], 0, 1)
}

/// Whether a collector plans so, after both went on.
fn plans(alloc: Global, forgets: bool) -> Result<bool, Fail> {
    let (collector, _posts) = open_and_go_on(alloc, forgets)?;
    match collector.plan_live() {
        Ok(plan) => Ok(is_live_plan(&plan)),
        Err(_) => Ok(false),
    }
}

#[test]
fn live_plans_are_those_of_the_whole(rt: HostRuntime) -> Result<(), Fail> {
    assert!(rt; plans(rt.alloc(), false)?);
    assert!(rt; plans(rt.alloc(), true)?);
    Ok(())
}

/// Whether a collector that lets go a second time keeps the checks of the later line, what came
/// after them, and the message in transit there.
fn keeps_the_rest(collector: &Collector) -> bool {
    is_floor(collector.floor(), &[2, 2], 1)
        && has_tape(collector.history(), 0, 3, 2, 1)
        && has_tape(collector.history(), 1, 5, 0, 3)
}

#[test]
fn a_later_floor_counts_from_the_beginning(rt: HostRuntime) -> Result<(), Fail> {
    let (mut collector, _posts) = open_and_go_on(rt.alloc(), true)?;
    collector.forget()?;
    assert!(rt; keeps_the_rest(&collector));
    Ok(())
}

/// What is gathered after both went on, where the first one failed.
fn gather(alloc: Global, forgets: bool) -> Result<Gathered, Fail> {
    let (collector, posts) = open_and_go_on(alloc, forgets)?;
    gather_without_first(collector, posts)
}

/// Whether all is gathered, and process 1 goes back to its second check.
fn is_whole(gathered: &Gathered) -> bool {
    let line = [Choice::Check(2), Choice::Check(2)];
    is_tape(gathered, 0, 5, 3, 2)
        && is_tape(gathered, 1, 7, 0, 4)
        && is_planned(&gathered.plan(), &line, 3, 2, 1)
}

/// Whether the third message of process 0 is sent under its next incarnation.
fn is_sent_on(seen: &Result<MsgName, SendRefused>) -> bool {
    match seen {
        Ok(name) => is_message(name, 1, 2),
        Err(_) => false,
    }
}

/// Whether the message in transit is received, with its body.
fn is_received_again(seen: &Result<Received, ReceiveWhy>) -> bool {
    match seen {
        Ok(Received::Message { name, body }) => is_message(name, 0, 1)
            && body.bytes() == b"a".as_slice(),
        _ => false,
    }
}

/// Whether both go on from there.
fn goes_on(alloc: Global, gathered: Gathered) -> Result<bool, Fail> {
    let (_collector, mut posts) = restart(gathered)?;
    let (sent, received) = send_and_receive(alloc, &mut posts)?;
    Ok(is_sent_on(&sent) && is_received_again(&received))
}

/// Whether all is gathered, and both go on.
fn is_gathered_and_goes_on(alloc: Global, forgets: bool) -> Result<bool, Fail> {
    let gathered = gather(alloc, forgets)?;
    Ok(is_whole(&gathered) && goes_on(alloc, gathered)?)
}

#[test]
fn a_restart_is_that_of_the_whole(rt: HostRuntime) -> Result<(), Fail> {
    assert!(rt; is_gathered_and_goes_on(rt.alloc(), false)?);
    assert!(rt; is_gathered_and_goes_on(rt.alloc(), true)?);
    Ok(())
}

#[test]
fn refusals_to_let_go_have_their_numbers(rt: HostRuntime) {
    assert!(rt; ForgetWhy::OutOfMemory.code() == 0 && ForgetWhy::NoMoreNumbers.code() == 50);
    let numbers = "more of a process would be let go than there are numbers for";
    assert!(rt; reads(rt.alloc(), ForgetWhy::NoMoreNumbers, numbers));
}

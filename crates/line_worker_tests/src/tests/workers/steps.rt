//! The steps of the tests on one thread, and what their calls answered.
ghost use Rattle.std.specs.Prelude.{◌<◌, IfOk, OnOk, length};
ghost use Rattle.line_posts.specs.Collected.{HasCollectedMore};
ghost use Rattle.line_posts.specs.Generations.{AreLined, AreSamePosts, IsGeneration, IsSamePost};

use crate::tests::workers::gatherings::gather_without_first;
use line_catalogue::AddError;
use line_names::{Body, MsgName, ProcId};
use line_plan::{Plan, PlanError};
use line_posts::{
    Collector, Gathered, Post, ReceiveWhy, Received, ReportError, Reported, SendRefused, fleet,
};
use line_tape::{State, TapeError};
use std::alloc::{AllocError, Global};
use std::test::Fail;

/// What the first of two workers was answered that sends twice.
pub type Sent = (Result<MsgName, SendRefused>, Result<MsgName, SendRefused>);

/// What the first worker was answered that reports, and the collector that takes and plans then.
#[derive(Drop)]
pub struct Planned {
    pub report: Result<Reported, ReportError>,
    pub take: Result<u32, AddError>,
    pub plan: Result<Plan, PlanError>,
}

/// A state of these bytes.
pub fn state_of(alloc: Global, bytes: &[u8]) -> Result<State, AllocError> {
    Ok(State::of(Vec::from_slice(alloc, bytes)?))
}

/// A state of no bytes.
pub fn no_state(alloc: Global) -> State {
    State::of(Vec::new(alloc))
}

/// A worker sends twice.
fn send_both(post: &mut Post, to: ProcId, bodies: (Body, Body)) -> Sent
    ensures { IsSamePost post.old post.new }
{
    let (one, other) = bodies;
    let first = post.send(to, one);
    let second = post.send(to, other);
    (first, second)
}

/// The first of two workers sends twice.
pub fn send_two(posts: &mut Vec<Post>) -> Result<Sent, Fail>
    requires { 1 < length posts.old.items }
    ensures { OnOk result (AreSamePosts posts.old.items posts.new.items) }
{
    let to = ProcId::try_new(1, 2)?;
    let bodies = (Body::try_new(&[5; 64])?, Body::try_new(&[6; 64])?);
    let post = &mut posts[0];
    Ok(send_both(post, to, bodies))
}

/// It takes a check.
fn check_first(alloc: Global, posts: &mut Vec<Post>) -> Result<Result<u32, TapeError>, AllocError>
    requires { 1 < length posts.old.items }
    ensures { OnOk result (AreSamePosts posts.old.items posts.new.items) }
{
    let state = state_of(alloc, &[7])?;
    let post = &mut posts[0];
    Ok(post.check(state))
}

/// It sends twice, and takes a check.
pub fn send_two_and_check(
    alloc: Global,
    posts: &mut Vec<Post>,
) -> Result<(Sent, Result<u32, TapeError>), Fail>
    requires { 1 < length posts.old.items }
    ensures { OnOk result (AreSamePosts posts.old.items posts.new.items) }
{
    let sent = send_two(posts)?;
    let checked = check_first(alloc, posts)?;
    Ok((sent, checked))
}

/// It reports, and the collector takes that and plans.
pub fn report_and_plan(collector: &mut Collector, posts: &mut Vec<Post>) -> Planned
    requires { 1 < length posts.old.items }
    ensures posts { AreSamePosts posts.old.items posts.new.items }
    ensures collector { HasCollectedMore collector.old collector.new }
{
    let post = &mut posts[0];
    let report = post.report();
    let take = collector.take(10);
    let plan = collector.plan_live();
    Planned { report, take, plan }
}

/// Two workers with one slot, of which the first sends twice and takes a check, and their
/// collector.
pub fn open_and_check(alloc: Global) -> Result<(Collector, Vec<Post>), Fail>
    ensures two { IfOk result (λ r. 1 < length r.1.items) }
    ensures generation { IfOk result (λ r. IsGeneration r.1.items) }
    ensures lines { IfOk result (λ r. AreLined r.0 r.1.items) }
{
    let (collector, mut posts) = fleet(alloc, 2, 1)?;
    let _ = send_two_and_check(alloc, &mut posts)?;
    Ok((collector, posts))
}

/// The same, where it then reports twice and the collector plans.
pub fn open_and_report(alloc: Global) -> Result<(Collector, Vec<Post>), Fail>
    ensures two { IfOk result (λ r. 1 < length r.1.items) }
    ensures generation { IfOk result (λ r. IsGeneration r.1.items) }
    ensures lines { IfOk result (λ r. AreLined r.0 r.1.items) }
{
    let (mut collector, mut posts) = open_and_check(alloc)?;
    let _ = report_and_plan(&mut collector, &mut posts);
    let _ = report_and_plan(&mut collector, &mut posts);
    Ok((collector, posts))
}

/// What a worker takes of another, twice.
pub type Taken = (Result<Received, ReceiveWhy>, Result<Received, ReceiveWhy>);

/// A worker takes of another, twice.
fn take_two(post: &mut Post, from: ProcId, states: (State, State)) -> Taken
    ensures { IsSamePost post.old post.new }
{
    let (one, other) = states;
    let first = post.receive(from, one);
    let second = post.receive(from, other);
    (first, second)
}

/// What the second worker takes of the first, twice.
pub fn drain(alloc: Global, posts: &mut Vec<Post>) -> Result<Taken, Fail>
    requires { 1 < length posts.old.items }
    ensures { OnOk result (AreSamePosts posts.old.items posts.new.items) }
{
    let from = ProcId::try_new(0, 2)?;
    let states = (no_state(alloc), no_state(alloc));
    let post = &mut posts[1];
    Ok(take_two(post, from, states))
}

/// A worker takes a check and reports it, and then sends a message that it does not report.
fn check_and_send(
    collector: &mut Collector,
    post: &mut Post,
    to: ProcId,
    body: Body,
    state: State,
) -> Result<u32, AddError>
    ensures post { IsSamePost post.old post.new }
    ensures collector { HasCollectedMore collector.old collector.new }
{
    let _ = post.check(state);
    let _ = post.report();
    let taken = collector.take(9);
    let _ = post.send(to, body);
    taken
}

/// The first of two workers sends a message after its last report. How many reports the collector
/// took is answered.
fn send_unreported(
    alloc: Global,
    collector: &mut Collector,
    posts: &mut Vec<Post>,
) -> Result<Result<u32, AddError>, Fail>
    requires { 1 < length posts.old.items }
    ensures posts { OnOk result (AreSamePosts posts.old.items posts.new.items) }
    ensures collector { OnOk result (HasCollectedMore collector.old collector.new) }
{
    let to = ProcId::try_new(1, 2)?;
    let body = Body::try_new(b"a")?;
    let state = state_of(alloc, &[1])?;
    let post = &mut posts[0];
    Ok(check_and_send(collector, post, to, body, state))
}

/// A worker receives a message, and takes a check.
fn receive_and_check(post: &mut Post, from: ProcId, states: (State, State))
    ensures { IsSamePost post.old post.new }
{
    let (none, state) = states;
    let _ = post.receive(from, none);
    let _ = post.check(state);
}

/// The second of two workers receives that message, and takes a check.
fn receive_unreported(alloc: Global, posts: &mut Vec<Post>) -> Result<(), Fail>
    requires { 1 < length posts.old.items }
    ensures { OnOk result (AreSamePosts posts.old.items posts.new.items) }
{
    let from = ProcId::try_new(0, 2)?;
    let states = (no_state(alloc), state_of(alloc, &[2])?);
    let post = &mut posts[1];
    receive_and_check(post, from, states);
    Ok(())
}

/// The first of two workers sends a message after its last report, and the second receives it. How
/// many reports the collector took is answered.
fn pass_unreported(
    alloc: Global,
    collector: &mut Collector,
    posts: &mut Vec<Post>,
) -> Result<Result<u32, AddError>, Fail>
    requires { 1 < length posts.old.items }
    ensures posts { OnOk result (AreSamePosts posts.old.items posts.new.items) }
    ensures collector { OnOk result (HasCollectedMore collector.old collector.new) }
{
    let taken = send_unreported(alloc, collector, posts)?;
    receive_unreported(alloc, posts)?;
    Ok(taken)
}

/// Two workers of which the first failed after it sent a message that it did not report, gathered.
/// How many reports the collector took is answered too.
pub fn gather_unreported(alloc: Global) -> Result<(Result<u32, AddError>, Gathered), Fail> {
    let (mut collector, mut posts) = fleet(alloc, 2, 4)?;
    let taken = pass_unreported(alloc, &mut collector, &mut posts)?;
    let gathered = gather_without_first(collector, posts)?;
    Ok((taken, gathered))
}

//! What one end of a ring cannot know before it looks anew: freed slots, and further items.
ghost use Rattle.std.specs.Prelude.{◌≡◌, ◌<◌, OnOk, length};

use crate::tests::workers::seen::{is_nothing, is_reported};
use crate::tests::workers::steps::{no_state, state_of};
use line_catalogue::AddError;
use line_names::{Body, ProcId};
use line_posts::{Collector, Post, ReceiveWhy, Received, ReportError, Reported, fleet};
use line_tape::State;
use std::alloc::{AllocError, Global};
use std::test::Fail;

/// What a worker is answered that takes two checks and reports.
fn check_twice(
    alloc: Global,
    post: &mut Post,
) -> Result<Result<Reported, ReportError>, AllocError> {
    let one = state_of(alloc, &[1])?;
    let other = state_of(alloc, &[2])?;
    let _ = post.check(one);
    let _ = post.check(other);
    Ok(post.report())
}

/// Whether two events are reported at once, then taken, and then once more.
fn report_and_take(
    alloc: Global,
    collector: &mut Collector,
    post: &mut Post,
) -> Result<bool, Fail> {
    let first = check_twice(alloc, post)?;
    let taken = collector.take(9);
    let again = check_twice(alloc, post)?;
    Ok(is_reported(&first, 2, 0) && taken == Ok(2) && is_reported(&again, 2, 0))
}

/// Whether that is so over a line of two slots.
fn report_twice(alloc: Global) -> Result<bool, Fail> {
    let (mut collector, mut posts) = fleet(alloc, 2, 2)?;
    let post = &mut posts[0];
    report_and_take(alloc, &mut collector, post)
}

#[test]
fn as_many_are_reported_as_fit(rt: HostRuntime) -> Result<(), Fail> {
    assert!(rt; report_twice(rt.alloc())?);
    Ok(())
}

/// How many reports are taken where the last worker alone has one.
fn take_of_the_last(alloc: Global) -> Result<Result<u32, AddError>, Fail> {
    let state = state_of(alloc, &[1])?;
    let (mut collector, mut posts) = fleet(alloc, 2, 1)?;
    let post = &mut posts[1];
    let _ = post.check(state);
    let _ = post.report();
    Ok(collector.take(9))
}

#[test]
fn report_of_the_last_is_taken(rt: HostRuntime) -> Result<(), Fail> {
    assert!(rt; take_of_the_last(rt.alloc())? == Ok(1));
    Ok(())
}

/// Whether a message was received.
fn is_message(seen: &Result<Received, ReceiveWhy>) -> bool {
    match seen {
        Ok(Received::Message { .. }) => true,
        _ => false,
    }
}

/// Whether a worker finds one message and then nothing.
fn finds_one(post: &mut Post, from: ProcId, states: (State, State)) -> bool {
    let (one, other) = states;
    let first = post.receive(from, one);
    let again = post.receive(from, other);
    is_message(&first) && is_nothing(&again)
}

/// Whether the second worker finds what the first one sends, and then nothing.
fn pass_one(alloc: Global, posts: &mut Vec<Post>) -> Result<bool, Fail>
    requires { 1 < length posts.old.items }
    ensures { OnOk result (length posts.new.items ≡ length posts.old.items) }
{
    let to = ProcId::try_new(1, 2)?;
    let from = ProcId::try_new(0, 2)?;
    let body = Body::try_new(b"a")?;
    let states = (no_state(alloc), no_state(alloc));
    let post = &mut posts[0];
    let is_sent = post.send(to, body).is_ok();
    let post = &mut posts[1];
    Ok(is_sent && finds_one(post, from, states))
}

/// Whether a message passes, and then another one.
fn pass_again(alloc: Global, posts: &mut Vec<Post>) -> Result<bool, Fail>
    requires { 1 < length posts.old.items }
{
    let first = pass_one(alloc, posts)?;
    let again = pass_one(alloc, posts)?;
    Ok(first && again)
}

/// Whether that is so over a ring of one slot.
fn pass_two(alloc: Global) -> Result<bool, Fail> {
    let (_collector, mut posts) = fleet(alloc, 2, 1)?;
    pass_again(alloc, &mut posts)
}

#[test]
fn both_ends_look_anew(rt: HostRuntime) -> Result<(), Fail> {
    assert!(rt; pass_two(rt.alloc())?);
    Ok(())
}

//! A report line without a free slot, and what is lost of it where its worker fails.
ghost use Rattle.std.specs.Prelude.{◌<◌, IfOk, OnOk, length};
ghost use Rattle.line_posts.specs.Generations.{AreLined, AreSamePosts, IsGeneration, IsSamePost};

use crate::tests::workers::gatherings::{gather_all, gather_without_first};
use crate::tests::workers::restart_steps::go_on;
use crate::tests::workers::seen::{
    is_first_sent, is_planned, is_received, is_reported, is_sent, is_taken, is_tape,
};
use crate::tests::workers::steps::state_of;
use line_names::{Body, Choice, MsgName, ProcId};
use line_posts::{Collector, Gathered, Post, ReportError, Reported, SendRefused, fleet};
use line_tape::{State, TapeError};
use std::alloc::Global;
use std::test::Fail;

/// What a worker was answered that sends a message and reports it, and takes a check that its
/// report line has no slot for.
#[derive(Drop)]
struct Told {
    sent: Result<MsgName, SendRefused>,
    report: Result<Reported, ReportError>,
    check: Result<u32, TapeError>,
    last_report: Result<Reported, ReportError>,
}

/// The steps of that worker.
fn report_twice(post: &mut Post, to: ProcId, body: Body, state: State) -> Told
    ensures { IsSamePost post.old post.new }
{
    let sent = post.send(to, body);
    let reported = post.report();
    let checked = post.check(state);
    let last_report = post.report();
    Told {
        sent,
        report: reported,
        check: checked,
        last_report,
    }
}

/// The steps of the first of two workers.
fn fill_line(alloc: Global, posts: &mut Vec<Post>) -> Result<Told, Fail>
    requires { 1 < length posts.old.items }
    ensures { OnOk result (AreSamePosts posts.old.items posts.new.items) }
{
    let to = ProcId::try_new(1, 2)?;
    let body = Body::try_new(b"a")?;
    let state = state_of(alloc, &[1])?;
    let post = &mut posts[0];
    Ok(report_twice(post, to, body, state))
}

/// Two workers with one slot, of which the first did so, and their collector.
fn open_and_tell(alloc: Global) -> Result<(Told, Collector, Vec<Post>), Fail>
    ensures generation { IfOk result (λ r. IsGeneration r.2.items) }
    ensures lines { IfOk result (λ r. AreLined r.1 r.2.items) }
{
    let (collector, mut posts) = fleet(alloc, 2, 1)?;
    let told = fill_line(alloc, &mut posts)?;
    Ok((told, collector, posts))
}

/// Whether the message was sent and reported, and the check was taken and not reported.
fn is_told(told: &Told) -> bool {
    is_first_sent(&told.sent)
        && told.check == Ok(1)
        && is_reported(&told.report, 1, 0)
        && is_reported(&told.last_report, 0, 1)
}

#[test]
fn report_line_without_a_slot(rt: HostRuntime) -> Result<(), Fail> {
    let (told, _collector, _posts) = open_and_tell(rt.alloc())?;
    assert!(rt; is_told(&told));
    Ok(())
}

/// What is gathered where that worker failed.
fn lose_the_check(alloc: Global) -> Result<Gathered, Fail> {
    let (_told, collector, posts) = open_and_tell(alloc)?;
    gather_without_first(collector, posts)
}

/// Whether the first worker, which failed, goes on from its initial state, and the other one from
/// where it stands; no message is in transit then.
fn is_back(gathered: &Gathered) -> bool {
    let line = [Choice::Check(0), Choice::Now];
    is_tape(gathered, 0, 1, 1, 0) && is_planned(&gathered.plan(), &line, 0, 1, 0)
}

/// Whether a message that is sent after the restart is received.
fn is_received_again(alloc: Global, gathered: Gathered) -> Result<bool, Fail> {
    let ((sent, received), _gathered) = go_on(alloc, gathered)?;
    Ok(is_sent(&sent) && is_received(&received))
}

#[test]
fn unreported_check_is_lost(rt: HostRuntime) -> Result<(), Fail> {
    let gathered = lose_the_check(rt.alloc())?;
    assert!(rt; is_back(&gathered));
    assert!(rt; is_received_again(rt.alloc(), gathered)?);
    Ok(())
}

/// What is gathered where nobody failed.
fn keep_the_check(alloc: Global) -> Result<Gathered, Fail> {
    let (_told, collector, posts) = open_and_tell(alloc)?;
    Ok(gather_all(collector, posts)?)
}

/// Whether nobody goes back, and one message is in transit.
fn is_where_it_stands(gathered: &Gathered) -> bool {
    let line = [Choice::Now, Choice::Now];
    is_tape(gathered, 0, 2, 1, 1) && is_planned(&gathered.plan(), &line, 0, 1, 1)
}

/// Whether the message in transit is received after the restart.
fn is_taken_again(alloc: Global, gathered: Gathered) -> Result<bool, Fail> {
    let ((_sent, received), _gathered) = go_on(alloc, gathered)?;
    Ok(is_taken(&received, b"a"))
}

#[test]
fn unreported_check_is_kept(rt: HostRuntime) -> Result<(), Fail> {
    let gathered = keep_the_check(rt.alloc())?;
    assert!(rt; is_where_it_stands(&gathered));
    assert!(rt; is_taken_again(rt.alloc(), gathered)?);
    Ok(())
}

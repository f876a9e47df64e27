//! The steps of the tests of rounds on one thread, and what their calls answered.
ghost use Rattle.std.specs.Prelude.{◌<◌, OnOk, length};
ghost use Rattle.line_posts.specs.Generations.{AreSamePosts, IsSamePost};

use crate::tests::workers::steps::{no_state, state_of};
use line_catalogue::DamageError;
use line_names::{Body, ProcId};
use line_posts::{BeginWhy, Gathered, Post, ReceiveWhy, Received, ReportError, Reported};
use line_tape::State;
use std::alloc::Global;
use std::test::Fail;

/// What two workers were answered in a round: the lead begins it twice, the other one too, and each
/// takes the marker of the other.
#[derive(Drop)]
pub struct Answers {
    pub begun: Result<u32, BeginWhy>,
    pub again: Result<u32, BeginWhy>,
    pub other: Result<u32, BeginWhy>,
    pub forced: Result<Received, ReceiveWhy>,
    pub closed: Result<Received, ReceiveWhy>,
}

/// A worker begins a round twice.
fn begin_two(
    post: &mut Post,
    states: (State, State),
) -> (Result<u32, BeginWhy>, Result<u32, BeginWhy>)
    ensures { IsSamePost post.old post.new }
{
    let (one, other) = states;
    let begun = post.begin(one);
    let again = post.begin(other);
    (begun, again)
}

/// A worker begins a round, and takes what comes next from another.
fn begin_and_receive(
    post: &mut Post,
    from: ProcId,
    states: (State, State),
) -> (Result<u32, BeginWhy>, Result<Received, ReceiveWhy>)
    ensures { IsSamePost post.old post.new }
{
    let (one, other) = states;
    let begun = post.begin(one);
    let received = post.receive(from, other);
    (begun, received)
}

/// The first of two workers begins a round, and once more.
fn open_round(
    alloc: Global,
    posts: &mut Vec<Post>,
) -> Result<(Result<u32, BeginWhy>, Result<u32, BeginWhy>), Fail>
    requires { 1 < length posts.old.items }
    ensures { OnOk result (AreSamePosts posts.old.items posts.new.items) }
{
    let states = (state_of(alloc, &[1])?, state_of(alloc, &[3])?);
    let post = &mut posts[0];
    Ok(begin_two(post, states))
}

/// The second one begins a round too, and takes the marker of the first.
fn answer_round(
    alloc: Global,
    posts: &mut Vec<Post>,
) -> Result<(Result<u32, BeginWhy>, Result<Received, ReceiveWhy>), Fail>
    requires { 1 < length posts.old.items }
    ensures { OnOk result (AreSamePosts posts.old.items posts.new.items) }
{
    let from = ProcId::try_new(0, 2)?;
    let states = (state_of(alloc, &[2])?, state_of(alloc, &[2])?);
    let post = &mut posts[1];
    Ok(begin_and_receive(post, from, states))
}

/// The first one takes the marker of the second.
fn close_round(alloc: Global, posts: &mut Vec<Post>) -> Result<Result<Received, ReceiveWhy>, Fail>
    requires { 1 < length posts.old.items }
    ensures { OnOk result (AreSamePosts posts.old.items posts.new.items) }
{
    let from = ProcId::try_new(1, 2)?;
    let post = &mut posts[0];
    Ok(post.receive(from, no_state(alloc)))
}

/// A round of two workers.
pub fn run_round(alloc: Global, posts: &mut Vec<Post>) -> Result<Answers, Fail>
    requires { 1 < length posts.old.items }
    ensures { OnOk result (AreSamePosts posts.old.items posts.new.items) }
{
    let (begun, again) = open_round(alloc, posts)?;
    let (other, forced) = answer_round(alloc, posts)?;
    let closed = close_round(alloc, posts)?;
    Ok(Answers {
        begun,
        again,
        other,
        forced,
        closed,
    })
}

/// The first worker begins a round with this state.
pub fn begin_next(
    alloc: Global,
    posts: &mut Vec<Post>,
    byte: u8,
) -> Result<Result<u32, BeginWhy>, Fail>
    requires { 0 < length posts.old.items }
{
    let state = state_of(alloc, &[byte])?;
    let post = &mut posts[0];
    Ok(post.begin(state))
}

/// A round of two workers, and the number of the next one.
pub fn run_and_begin(
    alloc: Global,
    posts: &mut Vec<Post>,
) -> Result<(Answers, Result<u32, BeginWhy>), Fail>
    requires { 1 < length posts.old.items }
{
    let seen = run_round(alloc, posts)?;
    let next = begin_next(alloc, posts, 3)?;
    Ok((seen, next))
}

/// Whether a message was sent, what its sender was answered that began a round then, and how many
/// events and sends its tape has.
pub type Begun = (bool, Result<u32, BeginWhy>, u32, u32);

/// The first of two workers sends a message and begins a round.
pub fn send_and_begin(alloc: Global, posts: &mut Vec<Post>) -> Result<Begun, Fail>
    requires { 0 < length posts.old.items }
{
    let to = ProcId::try_new(1, 2)?;
    let body = Body::try_new(b"a")?;
    let state = state_of(alloc, &[1])?;
    let post = &mut posts[0];
    let sent = post.send(to, body).is_ok();
    let begun = post.begin(state);
    Ok((sent, begun, post.tape().len(), post.tape().sends()))
}

/// What both workers were answered.
pub type BothReported = (Result<Reported, ReportError>, Result<Reported, ReportError>);

/// Both workers report.
pub fn report_both(posts: &mut Vec<Post>) -> BothReported
    requires { 1 < length posts.old.items }
    ensures { AreSamePosts posts.old.items posts.new.items }
{
    let first = report_at(posts, 0);
    let second = report_at(posts, 1);
    (first, second)
}

/// The worker of that place reports.
fn report_at(posts: &mut Vec<Post>, at: usize) -> Result<Reported, ReportError>
    requires { at < length posts.old.items }
    ensures { AreSamePosts posts.old.items posts.new.items }
{
    let post = &mut posts[at];
    post.report()
}

/// Marks check 1 of process 1 as damaged, after two refusals and before a third one. The refusals
/// are answered.
pub fn damage_second(gathered: &mut Gathered) -> Option<(DamageError, DamageError, DamageError)> {
    let one = ProcId::try_new(1, gathered.history().n()).ok()?;
    let Err(initial) = gathered.damage(one, 0) else {
        return None;
    };
    let Err(missing) = gathered.damage(one, 2) else {
        return None;
    };
    let Ok(()) = gathered.damage(one, 1) else {
        return None;
    };
    let Err(already) = gathered.damage(one, 1) else {
        return None;
    };
    Some((initial, missing, already))
}

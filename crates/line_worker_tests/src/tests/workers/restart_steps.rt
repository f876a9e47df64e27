//! The steps of the tests of restarts on one thread.
ghost use Rattle.std.specs.Prelude.{◌<◌, IfOk, OnOk, length};
ghost use Rattle.line_posts.specs.Generations.{AreLined, AreSamePosts, IsGeneration};

use crate::tests::workers::gatherings::gather_all;
use line_names::{Body, MsgName, ProcId};
use line_posts::{Collector, Gathered, Post, ReceiveWhy, Received, RestartWhy, SendRefused};
use line_tape::State;
use std::alloc::Global;
use std::test::Fail;

/// What was answered to the worker that sent, and to the one that received.
pub type Exchanged = (Result<MsgName, SendRefused>, Result<Received, ReceiveWhy>);

/// The generation that goes on from what was gathered, without its line.
fn unplanned(gathered: Gathered) -> Result<(Collector, Vec<Post>), RestartWhy>
    ensures generation { IfOk result (λ r. IsGeneration r.1.items) }
    ensures lines { IfOk result (λ r. AreLined r.0 r.1.items) }
{
    match gathered.restart() {
        Ok((collector, posts, _plan)) => Ok((collector, posts)),
        Err(refused) => Err(refused.why),
    }
}

/// The generation that goes on from what was gathered of two workers or more.
pub fn restart(gathered: Gathered) -> Result<(Collector, Vec<Post>), Fail>
    ensures two { IfOk result (λ r. 1 < length r.1.items) }
    ensures generation { IfOk result (λ r. IsGeneration r.1.items) }
    ensures lines { IfOk result (λ r. AreLined r.0 r.1.items) }
{
    let (collector, posts) = unplanned(gathered)?;
    if posts.len() < 2 {
        return Err(Fail::new("fewer than two workers"));
    }
    Ok((collector, posts))
}

/// The first of two workers sends a message.
fn send_one(posts: &mut Vec<Post>, to: ProcId, body: Body) -> Result<MsgName, SendRefused>
    requires { 1 < length posts.old.items }
    ensures { AreSamePosts posts.old.items posts.new.items }
{
    let post = &mut posts[0];
    post.send(to, body)
}

/// The second one receives what comes next from the first.
fn receive_one(posts: &mut Vec<Post>, from: ProcId, alloc: Global) -> Result<Received, ReceiveWhy>
    requires { 1 < length posts.old.items }
    ensures { AreSamePosts posts.old.items posts.new.items }
{
    let post = &mut posts[1];
    post.receive(from, State::of(Vec::new(alloc)))
}

/// The first of two workers sends a message, and the second one receives what comes next.
pub fn send_and_receive(alloc: Global, posts: &mut Vec<Post>) -> Result<Exchanged, Fail>
    requires { 1 < length posts.old.items }
    ensures { OnOk result (AreSamePosts posts.old.items posts.new.items) }
{
    let zero = ProcId::try_new(0, 2)?;
    let one = ProcId::try_new(1, 2)?;
    let body = Body::try_new(b"b")?;
    let sent = send_one(posts, one, body);
    let received = receive_one(posts, zero, alloc);
    Ok((sent, received))
}

/// Both go on from the line, exchange messages once, and are gathered.
pub fn go_on(alloc: Global, gathered: Gathered) -> Result<(Exchanged, Gathered), Fail> {
    let (collector, mut posts) = restart(gathered)?;
    let exchanged = send_and_receive(alloc, &mut posts)?;
    let gathered = gather_all(collector, posts)?;
    Ok((exchanged, gathered))
}

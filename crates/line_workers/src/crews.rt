//! Each worker and the collector in a thread of its own.
ghost use Rattle.std.specs.Prelude.{◌≡◌, IfOk, vec_capacity};
ghost use Rattle.line_posts.specs.Collected.{HasCollectedMore};
ghost use Rattle.line_posts.specs.Generations.{AreLined, AreSamePosts, IsGeneration, IsSamePost};

use line_posts::{Collector, Post};
use std::snapshot::Snapshot;
use std::sync::Wait;
use std::thread;
use std::thread::{Promise, PromisedHandle, Scope, Threads};
use thiserror::Error;

/// What workers and their collector do in their threads.
///
/// Each function hands back the post or the collector that it was given. Before that it may make
/// any calls of it, as often as it likes: none of them gives a post or a collector other rings,
/// another number or another opening history, and no more than this is asked.
pub trait Work: Sync {
    /// What a worker does with its post.
    fn work(&self, post: Post) -> Post
        ensures { IsSamePost post result };

    /// What the collector does while the workers are at work.
    fn collect(&self, collector: Collector) -> Collector
        ensures { HasCollectedMore collector result };
}

/// A thread could not be started.
#[derive(Clone, Copy, Debug, PartialEq, Eq, Error)]
#[error("a thread could not be started")]
pub struct NoThread;

/// The promise that a post comes back from its thread with the rings that it went with.
#[derive(Drop)]
struct SamePost(Snapshot<Post>);

impl Promise<Post> for SamePost {
    ghost use Rattle.line_posts.specs.Generations.{IsSamePost};

    ghost kept_by = { λ p r. IsSamePost p.0.value r };
}

/// The promise that the collector comes back from its thread with the lines that it went with.
#[derive(Drop)]
struct SameCollector(Snapshot<Collector>);

impl Promise<Collector> for SameCollector {
    ghost use Rattle.line_posts.specs.Collected.{HasCollectedMore};

    ghost kept_by = { λ p r. HasCollectedMore p.0.value r };
}

/// Starts a worker in a thread.
fn start<'s, E, W: Work>(
    scope: &'s Scope<'s, E>,
    work: &'s W,
    post: Post,
) -> Result<PromisedHandle<Post, SamePost>, NoThread>
    ensures { IfOk result (λ handle. handle.promise.0.value ≡ post) }
{
    let promise = SamePost(Snapshot::of(&post));
    let Ok(handle) = scope.spawn_with(promise, move || work.work(post)) else {
        return Err(NoThread);
    };
    Ok(handle)
}

/// Starts the last worker of the list, has a call of itself start and join the others, and then
/// joins the last one. The list keeps its room, so that to push the post back takes no memory.
fn level<'s, E, W: Work, R: Threads>(
    rt: &R,
    scope: &'s Scope<'s, E>,
    work: &'s W,
    posts: Vec<Post>,
) -> Result<Vec<Post>, NoThread>
    ensures same { IfOk result (λ back. AreSamePosts posts.items back.items) }
    ensures room { IfOk result (λ back. vec_capacity back ≡ vec_capacity posts) }
{
    let mut posts = posts;
    let Some(post) = posts.pop() else {
        return Ok(posts);
    };
    let handle = start(scope, work, post)?;
    let others = level(rt, scope, work, posts);
    let back = handle.join(rt);
    let mut all = others?;
    all.push_reserved(back);
    Ok(all)
}

/// Starts the collector, starts and joins the workers, and then joins the collector.
fn all_at_once<'s, E, W: Work, R: Threads>(
    rt: &R,
    scope: &'s Scope<'s, E>,
    work: &'s W,
    collector: Collector,
    posts: Vec<Post>,
) -> Result<(Collector, Vec<Post>), NoThread>
    ensures workers { IfOk result (λ r. AreSamePosts posts.items r.1.items) }
    ensures collector { IfOk result (λ r. HasCollectedMore collector r.0) }
{
    let promise = SameCollector(Snapshot::of(&collector));
    let Ok(handle) = scope.spawn_with(promise, move || work.collect(collector)) else {
        return Err(NoThread);
    };
    let back = level(rt, scope, work, posts);
    let collector = handle.join(rt);
    Ok((collector, back?))
}

/// Runs workers and collector in a scope of threads, which ends when all its threads have ended.
fn in_scope<W: Work, R: Threads + Wait + Sync>(
    rt: &R,
    work: &W,
    collector: Collector,
    posts: Vec<Post>,
) -> Result<(Collector, Vec<Post>), NoThread>
    ensures workers { IfOk result (λ r. AreSamePosts posts.items r.1.items) }
    ensures collector { IfOk result (λ r. HasCollectedMore collector r.0) }
{
    thread::scope(
        thread::scope_env(),
        rt,
        |scope| -> Result<(Collector, Vec<Post>), NoThread>
            ensures workers { IfOk result (λ r. AreSamePosts posts.items r.1.items) }
            ensures collector { IfOk result (λ r. HasCollectedMore collector r.0) }
        { all_at_once(rt, scope, work, collector, posts) },
    )
}

/// Has all workers and the collector do their work at once, each in a thread of its own. The posts
/// come back in the order in which they went, and are still of one generation with the collector.
///
/// Where a thread cannot be started, posts and collector are dropped once the threads that were
/// started have ended.
pub fn run_crew<W: Work, R: Threads + Wait + Sync>(
    rt: &R,
    work: &W,
    collector: Collector,
    posts: Vec<Post>,
) -> Result<(Collector, Vec<Post>), NoThread>
    ensures workers { IfOk result (λ r. AreSamePosts posts.items r.1.items) }
    ensures collector { IfOk result (λ r. HasCollectedMore collector r.0) }
    ensures generation { IfOk result (λ r. IsGeneration posts.items → IsGeneration r.1.items) }
    ensures lines { IfOk result (λ r. AreLined collector posts.items → AreLined r.0 r.1.items) }
{
    let back = in_scope(rt, work, collector, posts)?;
    Ok(back)
}

//! All workers at once, each in a thread of its own.
ghost use Rattle.std.specs.Prelude.{◌≡◌, ◌≢◌, ◌<◌, ◌≤◌, ◌⊎◌, ◌↔◌, ◌++◌, ◌∷◌, [], ℕ, length};
ghost use Rattle.std.specs.Prelude.{Some, Ok, Err, IfOk, IfErr, IsErrOf, IsOk, OnOk};
ghost use Rattle.std.specs.Prelude.{slice_get, vec_capacity};
ghost use Rattle.std.specs.declared.vec.Vec.{Vec};
ghost use Rattle.std.specs.declared.alloc.Global.{Global};
ghost use Rattle.line_rounds.specs.Recording.{latest};
ghost use Rattle.line_names.specs.Sets.{nobody};
ghost use Rattle.line_tape.specs.Fit.{IsFitFifo};
ghost use Rattle.line_tape.specs.History.{incarnation_at, tape_at};
ghost use Rattle.line_tape.specs.Views.{no_marks};
ghost use Rattle.line_posts.specs.Extension.{Extends};
ghost use Rattle.line_posts.specs.Gathered.{AreGathered};
ghost use Rattle.line_posts.specs.Generations.{own_history, AreLined, AreWhole, IsGeneration};
ghost use Rattle.line_posts.specs.Posts.{PostView};
ghost use Rattle.line_workers.specs.Faults.{of_no_order, AreStopped, HasFilledRing, IsFault};
ghost use Rattle.line_workers.specs.Followed.{AreDrilled, HasDone};
ghost use Rattle.line_workers.specs.Scripts.{scripts_of, IsScripted};

use crate::gates::Gate;
use crate::orders::Order;
use crate::refusals::{DrillError, DrillWhy, of_no_order};
use crate::workers::follow;
use line_names::ProcSet;
use line_posts::{
    Collector, GatherWhy, Gathered, MOST_CAPACITY, MOST_WORKERS, Post, fleet, gather,
};
use std::alloc::Global;
use std::snapshot::Snapshot;
use std::sync::Wait;
use std::thread;
use std::thread::{Promise, PromisedHandle, Scope, Threads};

/// The worker that comes back has done its script, or could not do one of its orders.
#[derive(Drop)]
struct Drilled(Snapshot<Post>, Snapshot<Vec<Order>>);

impl Promise<Result<Post, DrillError>> for Drilled {
    ghost use Rattle.std.specs.Prelude.{IfOk, IfErr};
    ghost use Rattle.line_workers.specs.Faults.{HasFailed};
    ghost use Rattle.line_workers.specs.Followed.{HasDone};

    ghost kept_by = { λ p r. IfOk r (λ back. HasDone p.1.value.items p.0.value back)
        × IfErr r (λ e. HasFailed p.1.value.items p.0.value e) };
}

/// Starts a worker.
fn start<'s, E, G: Gate>(
    scope: &'s Scope<'s, E>,
    post: Post,
    script: &'s Vec<Order>,
    turns: u64,
    gate: &'s G,
) -> Result<PromisedHandle<Result<Post, DrillError>, Drilled>, DrillError>
    ensures started { IfOk result (λ handle. (handle.promise.0.value ≡ post)
        × (handle.promise.1.value ≡ script.now)) }
    ensures none { IfErr result (λ e. e ≡ of_no_order DrillWhy.NoThread) }
{
    let promise = Drilled(Snapshot::of(&post), Snapshot::of(script));
    let Ok(handle) = scope.spawn_with(promise, move || follow(script, gate, turns, post)) else {
        return Err(of_no_order(DrillWhy::NoThread));
    };
    Ok(handle)
}

/// The others that are back, and the last one at its place, which is kept for it. Where both failed
/// the fault of the others is told.
fn with_last(
    others: Result<Vec<Post>, DrillError>,
    last: Result<Post, DrillError>,
) -> Result<Vec<Post>, DrillError>
    requires { IfOk others (λ posts. length posts.items < vec_capacity posts) }
    ensures back { IfOk result (λ all. (posts : Vec PostView Global) × (post : PostView)
        × (others ≡ Ok posts) × (last ≡ Ok post) × (all.items ≡ posts.items ++ post ∷ [])
        × (vec_capacity all ≡ vec_capacity posts)) }
    ensures fault { IfErr result (λ e. (others ≡ Err e) ⊎ (IsOk others × (last ≡ Err e))) }
{
    let mut all = others?;
    all.push_reserved(last?);
    Ok(all)
}

/// Starts the last worker, then the others, and then joins it. Its place in the list is kept for
/// it.
///
/// Of several that failed the lowest is named, and before all that a thread could not be started.
fn level<'s, E, G: Gate, R: Threads>(
    rt: &R,
    scope: &'s Scope<'s, E>,
    posts: Vec<Post>,
    scripts: &'s [Vec<Order>],
    turns: u64,
    gate: &'s G,
) -> Result<Vec<Post>, DrillError>
    requires { length posts.items ≤ length scripts.now }
    ensures drilled { IfOk result (λ back.
        AreDrilled (scripts_of scripts.now) posts.items back.items) }
    ensures room { IfOk result (λ back. vec_capacity back ≡ vec_capacity posts) }
    ensures stopped { IfErr result (λ e. AreStopped (scripts_of scripts.now) posts.items e) }
{
    let mut posts = posts;
    let Some(post) = posts.pop() else {
        return Ok(posts);
    };
    let script = &scripts[posts.len()];
    let handle = start(scope, post, script, turns, gate)?;
    let others = level(rt, scope, posts, scripts, turns, gate);
    let last = handle.join(rt);
    with_last(others, last)
}

/// All workers do their scripts in a scope, which ends when all its threads have ended.
fn all_at_once<G: Gate, R: Threads + Wait + Sync>(
    rt: &R,
    posts: Vec<Post>,
    scripts: &[Vec<Order>],
    turns: u64,
    gate: &G,
) -> Result<Vec<Post>, DrillError>
    requires { length posts.items ≤ length scripts.now }
    ensures drilled { IfOk result (λ back.
        AreDrilled (scripts_of scripts.now) posts.items back.items) }
    ensures stopped { IfErr result (λ e. AreStopped (scripts_of scripts.now) posts.items e) }
{
    thread::scope(
        thread::scope_env(),
        rt,
        |scope| -> Result<Vec<Post>, DrillError>
            requires { length posts.items ≤ length scripts.now }
            ensures drilled { IfOk result (λ back.
                AreDrilled (scripts_of scripts.entry.now) posts.items back.items) }
            ensures stopped { IfErr result (λ e.
                AreStopped (scripts_of scripts.entry.now) posts.items e) }
        { level(rt, scope, posts, scripts, turns, gate) },
    )
}

/// Gathers what the workers of a drill did, of which nobody failed.
fn gather_all(collector: Collector, posts: Vec<Post>) -> Result<Gathered, DrillError>
    requires generation { IsGeneration posts.items }
    requires lines { AreLined collector posts.items }
    requires whole { AreWhole collector posts.items }
    ensures own { OnOk result (IsFitFifo (own_history posts.items)) }
    ensures gathered { IfOk result (λ g. AreGathered nobody posts.items g.processes) }
    ensures fit { IfOk result (λ g. IsFitFifo g.processes) }
    ensures failed { IfOk result (λ g. g.failed ≡ nobody) }
    ensures onward { IfOk result (λ g. Extends g.processes collector.processes) }
    ensures marks { IfOk result (λ g. g.marks ≡ collector.marks) }
    ensures floor { IfOk result (λ g. (lead : PostView) → slice_get posts.items 0 ≡ Some lead
        → g.floor ≡ latest lead.floor lead.rounds) }
    ensures slots { IfOk result (λ g. g.capacity ≡ collector.capacity) }
    ensures memory { IfErr result (λ e. e ≡ of_no_order DrillWhy.OutOfMemory) }
{
    match gather(collector, posts, ProcSet::empty()) {
        Ok(gathered) => {
            let _fit = gathered.history();
            Ok(gathered)
        }
        Err(refused) => match refused.why {
            GatherWhy::OutOfMemory => Err(of_no_order(DrillWhy::OutOfMemory)),
            GatherWhy::NoSuchProcess | GatherWhy::Unfinished => unreachable!(),
        },
    }
}

/// Drills a worker for each script, 1 to `MOST_WORKERS` of them, each in a thread of its own and
/// over rings of this capacity, and gathers what they did, nobody having failed.
///
/// Before each order a worker asks the gate, at most `turns` times, and goes on once it is let on.
/// A Send that finds no free slot, and a Receive that finds nothing there, are tried at most
/// `turns` times too. After each order the worker reports. The call returns once all threads have
/// ended, whatever came of them.
///
/// Where several workers could not do an order, the lowest is named. Where a thread could not be
/// started, that is the answer, whatever came of the others.
pub fn drill<G: Gate, R: Threads + Wait + Sync>(
    rt: &R,
    alloc: Global,
    capacity: usize,
    turns: u64,
    scripts: &[Vec<Order>],
    gate: &G,
) -> Result<Gathered, DrillError>
    ensures count { IfOk result (λ g. length g.processes ≡ length scripts.now) }
    ensures failed { IfOk result (λ g. g.failed ≡ nobody) }
    ensures fit { IfOk result (λ g. IsFitFifo g.processes) }
    ensures scripted { IfOk result (λ g. (q : ℕ)
        → IsScripted (scripts_of scripts.now) q (tape_at g.processes q)) }
    ensures incarnations { IfOk result (λ g. (q : ℕ) → incarnation_at g.processes q ≡ 0) }
    ensures marks { IfOk result (λ g. g.marks ≡ no_marks (length scripts.now)) }
    ensures floor { IfOk result (λ g. g.floor ≡ 0) }
    ensures slots { IfOk result (λ g. g.capacity ≡ capacity) }
    ensures scripts { OnOk result ((1 ≤ length scripts.now)
        × (length scripts.now ≤ MOST_WORKERS)) }
    ensures capacity { OnOk result ((1 ≤ capacity) × (capacity ≤ MOST_CAPACITY)) }

    // The refusals.
    ensures bad_count { IsErrOf result (of_no_order DrillWhy.BadCount)
        ↔ ((length scripts.now ≡ 0) ⊎ (MOST_WORKERS < length scripts.now)) }
    ensures bad_capacity { IsErrOf result (of_no_order DrillWhy.BadCapacity)
        ↔ ((length scripts.now ≢ 0) × (length scripts.now ≤ MOST_WORKERS)
        × ((capacity ≡ 0) ⊎ (MOST_CAPACITY < capacity))) }
    ensures fault { IfErr result (λ e. IsFault (scripts_of scripts.now) e) }
    ensures filled { IfErr result (λ e. HasFilledRing (scripts_of scripts.now) capacity e) }
{
    if scripts.len() > MOST_WORKERS {
        return Err(of_no_order(DrillWhy::BadCount));
    }
    let (collector, posts) = fleet(alloc, scripts.len() as u32, capacity)?;
    let back = all_at_once(rt, posts, scripts, turns, gate)?;
    let gathered = gather_all(collector, back)?;
    Ok(gathered)
}

//! How a generation begins.
ghost use Rattle.std.specs.Prelude.{◌≡◌, ◌≢◌, ◌<◌, ◌≤◌, ◌∷◌, [], ◌↔◌, ◌⊎◌, ℕ, List, IfOk, IsErrOf};
ghost use Rattle.std.specs.Prelude.{length, replicate, vec_capacity};
ghost use Rattle.line_tape.specs.History.{fresh, Process};
ghost use Rattle.line_tape.specs.Fit.{IsFitFifo};
ghost use Rattle.line_tape.specs.Views.{no_marks};
ghost use Rattle.line_tape.specs.declared.events.Event.{Event};
ghost use Rattle.line_posts.specs.Ends.{in_ends, in_rows, out_rows, AreLinked, End};
ghost use Rattle.line_posts.specs.Collected.{collector_of};
ghost use Rattle.line_posts.specs.Generations.{AreLined, IsGeneration};
ghost use Rattle.line_posts.specs.Openings.{AreOpened};
ghost use Rattle.line_posts.specs.Fleets.{AreAllMade};
ghost use Rattle.line_posts.specs.Preparations.{AreJournals, IsPrepared};
ghost use Rattle.line_posts.specs.Replays.{packets_of, AreAllReplays};

use crate::collectors::{Collector, open_collector};
use crate::journals::Journal;
use crate::limits::{MOST_CAPACITY, MOST_WORKERS};
use crate::links::{Rings, make_rings};
use crate::parcels::{Packet, Parcel};
use crate::posts::{Post, PostEnds, open_post};
use crate::refusals::FleetError;
use crate::replays::no_packets_yet;
use line_catalogue::Catalogue;
use line_names::{MOST_PROCESSES, ProcId};
use line_tape::{Event, History, Tape};
use rtrb::{Consumer, Producer};
use std::alloc::{AllocError, Global};
use std::collections::VecDeque;

/// Takes the first item of a list.
fn take_first<T>(items: &mut Vec<T>) -> T
    requires { 0 < length items.old.items }
    ensures { items.old.items ≡ result ∷ items.new.items }
{
    items.remove(0)
}

/// All that the workers of a generation take memory for: the journal of each, the replays that it
/// keeps, the rings and the report lines, and room for the list of workers.
#[derive(Drop)]
pub(crate) struct Prepared {
    pub(crate) journals: Vec<Journal>,
    pub(crate) replays: Vec<Vec<VecDeque<Packet>>>,
    pub(crate) rings: Rings<Parcel>,
    pub(crate) lines: Rings<Event>,
    pub(crate) posts: Vec<Post>,
}

/// Makes rings and report lines of this capacity for workers with these journals and replays, and
/// room for the list of workers.
pub(crate) fn prepare(
    alloc: Global,
    journals: Vec<Journal>,
    replays: Vec<Vec<VecDeque<Packet>>>,
    capacity: usize,
) -> Result<Prepared, AllocError>
    ensures { IfOk result (λ prepared. (opening : List Process) (floor : ℕ)
        → AreJournals opening floor journals.items
        → AreAllReplays opening (packets_of replays.items)
        → IsPrepared opening floor capacity prepared) }
{
    let count = journals.len();
    let rings = make_rings(alloc, count, count, capacity)?;
    let lines = make_rings(alloc, count, 1, capacity)?;
    let posts = Vec::with_capacity(alloc, count)?;
    Ok(Prepared {
        journals,
        replays,
        rings,
        lines,
        posts,
    })
}

/// The ends that all workers hold: of the rings between them, and by worker the one of its report
/// line that pushes.
#[derive(Drop)]
struct FleetEnds {
    rings: Rings<Parcel>,
    lines: Vec<Vec<Producer<Event>>>,
}

/// Makes the workers, each with its own ends of the rings, in room that was made for them.
fn make_posts(
    alloc: Global,
    history: &History,
    mut journals: Vec<Journal>,
    mut replays: Vec<Vec<VecDeque<Packet>>>,
    ends: FleetEnds,
    mut posts: Vec<Post>,
) -> Vec<Post>
    requires fit { IsFitFifo history.now.processes }
    requires journals { (floor : ℕ) × AreJournals history.now.processes floor journals.items }
    requires replays { AreAllReplays history.now.processes (packets_of replays.items) }
    requires rings { AreLinked (length history.now.processes) (length history.now.processes)
        (out_rows ends.rings.outs.items) (in_rows ends.rings.ins.items) }
    requires lines { (in_lines : List (List (End Event)))
        × AreLinked (length history.now.processes) 1 (out_rows ends.lines.items) in_lines }
    requires none { posts.items ≡ [] }
    requires room { length history.now.processes ≤ vec_capacity posts }
    ensures { (floor : ℕ) → AreJournals history.now.processes floor journals.items
        → AreAllMade history.now.processes floor (out_rows ends.rings.outs.items)
        (in_rows ends.rings.ins.items) (out_rows ends.lines.items) result.items }
{
    let FleetEnds {
        mut rings,
        mut lines,
    } = ends;
    let n = history.n();
    for q in 0..n {
        let me = ProcId::try_new(q, n).unwrap();
        let journal = take_first(&mut journals);
        let kept = take_first(&mut replays);
        let outs = take_first(&mut rings.outs);
        let ins = take_first(&mut rings.ins);
        let mut line = take_first(&mut lines);
        let end = take_first(&mut line);
        let own = PostEnds {
            outs,
            ins,
            line: end,
        };
        let post = open_post(alloc, me, history, journal, kept, own);
        posts.push_reserved(post);
    }
    posts
}

/// The workers of a new generation, and the other ends of their report lines.
#[derive(Drop)]
pub(crate) struct Opened {
    pub(crate) posts: Vec<Post>,
    pub(crate) lines: Vec<Consumer<Event>>,
}

/// Opens the workers of a generation that begins with this history. It takes no memory and cannot
/// fail.
pub(crate) fn open_all(alloc: Global, history: &History, prepared: Prepared) -> Opened
    requires fit { IsFitFifo history.now.processes }
    requires prepared { (floor : ℕ) × (capacity : ℕ)
        × IsPrepared history.now.processes floor capacity prepared }
    ensures { (floor capacity : ℕ) → IsPrepared history.now.processes floor capacity prepared
        → AreOpened history.now.processes floor capacity result.posts.items
        (in_ends result.lines.items) }
{
    let _limits = history.n();
    let Prepared {
        journals,
        replays,
        rings,
        lines,
        posts,
    } = prepared;
    let Rings { outs, mut ins } = lines;
    let lines = take_first(&mut ins);
    let ends = FleetEnds { rings, lines: outs };
    let posts = make_posts(alloc, history, journals, replays, ends, posts);
    Opened { posts, lines }
}

/// All that `n` workers of a first generation take memory for.
fn prepare_fresh(alloc: Global, n: u32, capacity: usize) -> Result<Prepared, AllocError>
    requires { n ≤ MOST_PROCESSES }
    ensures { IfOk result (λ prepared. IsPrepared (replicate n fresh) 0 capacity prepared) }
{
    let mut journals = Vec::with_capacity(alloc, n as usize)?;
    for q in 0..n {
        let me = ProcId::try_new(q, n).unwrap();
        let tape = Tape::new(alloc);
        let journal = Journal::new(alloc, n, me, tape, 0)?;
        journals.push(journal)?;
    }
    let replays = no_packets_yet(alloc, n)?;
    prepare(alloc, journals, replays, capacity)
}

/// Opens a first generation: `n` workers that have done nothing yet, 1 to `MOST_WORKERS`, and their
/// collector. A ring of this capacity, 1 to `MOST_CAPACITY`, leads from each worker to each, and
/// one from each to the collector.
///
/// It makes n² rings for messages, one from each worker to itself among them, which stays empty.
pub fn fleet(alloc: Global, n: u32, capacity: usize) -> Result<(Collector, Vec<Post>), FleetError>
    ensures collector { IfOk result (λ r. r.0
        ≡ collector_of (replicate n fresh) (replicate n fresh)
        (no_marks n) r.0.lines r.0.seen capacity) }
    ensures opened { IfOk result (λ r.
        AreOpened (replicate n fresh) 0 capacity r.1.items r.0.lines) }
    ensures generation { IfOk result (λ r. IsGeneration r.1.items × AreLined r.0 r.1.items) }

    // The refusals, in their order.
    ensures count { IsErrOf result FleetError.BadCount ↔ ((n ≡ 0) ⊎ (MOST_WORKERS < n)) }
    ensures capacity { IsErrOf result FleetError.BadCapacity
        ↔ ((n ≢ 0) × (n ≤ MOST_WORKERS) × ((capacity ≡ 0) ⊎ (MOST_CAPACITY < capacity))) }
{
    if n == 0 || n as usize > MOST_WORKERS {
        return Err(FleetError::BadCount);
    }
    if capacity == 0 || capacity > MOST_CAPACITY {
        return Err(FleetError::BadCapacity);
    }
    let Ok(catalogue) = Catalogue::new(alloc, n) else {
        return Err(FleetError::OutOfMemory);
    };
    let prepared = prepare_fresh(alloc, n, capacity)?;
    let opened = open_all(alloc, catalogue.history(), prepared);
    let collector = open_collector(alloc, catalogue, opened.lines, capacity);
    Ok((collector, opened.posts))
}

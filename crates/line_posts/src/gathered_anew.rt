//! What is gathered where the collector let something go: made anew from the workers' own tapes.
ghost use Rattle.std.specs.Prelude.{◌≡◌, ◌≢◌, ◌<◌, ◌≤◌, ◌++◌, [], ℕ, All, List, IfOk, OnOk};
ghost use Rattle.std.specs.Prelude.{length, take};
ghost use Rattle.line_catalogue.specs.Agreement.{Agrees};
ghost use Rattle.line_catalogue.specs.Damage.{AreOnChecks};
ghost use Rattle.line_names.specs.declared.limits.TheConstants.{MOST_PROCESSES};
ghost use Rattle.line_tape.specs.Event.{NamesBelow};
ghost use Rattle.line_tape.specs.History.{incarnation_at, process_at, tape_at, Process};
ghost use mathlib.Core.List.{IsPrefix};
ghost use Rattle.line_posts.specs.Ends.{in_ends, items_at, known_rows, StillKnow};
ghost use Rattle.line_posts.specs.Gathered.{gathered_tape};
ghost use Rattle.line_posts.specs.Gathering.{AreAtLines, AreGatheredOnward, IsAtLine};
ghost use Rattle.line_posts.specs.Posts.{incarnation_of_post, opening_tape};

use crate::keeping::keep_planned;
use crate::posts::Post;
use line_catalogue::{Catalogue, CatalogueError};
use line_names::{ProcId, ProcSet};
use line_tape::{CountError, Event, History, Marks, Tape};
use rtrb::Consumer;
use std::alloc::{AllocError, Global};

/// Copies the first `upto` events of a tape to a process of a history, which has none yet.
fn copy_events(
    alloc: Global,
    history: &mut History,
    p: ProcId,
    tape: &Tape,
    upto: u32,
) -> Result<(), AllocError>
    requires within { p < length history.old.processes }
    requires empty { tape_at history.old.processes p ≡ [] }
    requires there { upto ≤ length tape.now.events }
    requires named { All (NamesBelow (length history.old.processes)) tape.now.events }
    ensures count { length history.new.processes ≡ length history.old.processes }
    ensures copied { OnOk result (tape_at history.new.processes p ≡ take upto tape.now.events) }
    ensures incarnation { incarnation_at history.new.processes p
        ≡ incarnation_at history.old.processes p }
    ensures others { (q : ℕ) → q ≢ p
        → process_at history.new.processes q ≡ process_at history.old.processes q }
{
    let _limits = tape.len();
    for i in 0..upto {
        let event = tape.event(i).to_event(alloc)?;
        history.reserve(p, 1)?;
        history.append(p, event);
    }
    Ok(())
}

/// Copies what is gathered of a worker to its process of a history, which has no events yet.
fn copy_gathered(
    alloc: Global,
    history: &mut History,
    lines: &mut Vec<Consumer<Event>>,
    post: &mut Post,
    p: ProcId,
    failed: bool,
) -> Result<(), AllocError>
    requires within { p < length history.old.processes }
    requires empty { tape_at history.old.processes p ≡ [] }
    requires at { IsAtLine (length history.old.processes) (in_ends lines.old.items) p post.old }
    ensures post { post.new ≡ post.old }
    ensures lines { in_ends lines.new.items ≡ in_ends lines.old.items }
    ensures seen { StillKnow (known_rows lines.old.items) lines.new.items }
    ensures count { length history.new.processes ≡ length history.old.processes }
    ensures copied { OnOk result (process_at history.new.processes p ≡ record {
      incarnation = incarnation_of_post post.old;
      tape = gathered_tape failed post.old;
    }) }
    ensures begins { OnOk result (IsPrefix
        (opening_tape post.old ++ items_at (in_ends lines.old.items) p)
        (gathered_tape failed post.old)) }
    ensures others { (q : ℕ) → q ≢ p
        → process_at history.new.processes q ≡ process_at history.old.processes q }
{
    let upto = post.gathered_len(lines, p.get() as usize, failed);
    history.set_incarnation(p, post.incarnation());
    copy_events(alloc, history, p, post.tape(), upto)
}

/// What is gathered of all workers, as a history in memory of its own.
fn gathered_history(
    alloc: Global,
    n: u32,
    lines: &mut Vec<Consumer<Event>>,
    posts: &mut Vec<Post>,
    failed: &ProcSet,
) -> Result<History, AllocError>
    requires some { 1 ≤ n }
    requires few { n ≤ MOST_PROCESSES }
    requires count { length posts.old.items ≡ n }
    requires at { AreAtLines n (in_ends lines.old.items) posts.old.items }
    ensures lines { in_ends lines.new.items ≡ in_ends lines.old.items }
    ensures seen { StillKnow (known_rows lines.old.items) lines.new.items }
    ensures posts { posts.new.items ≡ posts.old.items }
    ensures gathered { IfOk result
        (λ history. AreGatheredOnward failed.now (in_ends lines.old.items) posts.old.items
        history.processes) }
{
    let mut history = match History::new(alloc, n) {
        Ok(history) => history,
        Err(CountError::OutOfMemory) => return Err(AllocError),
        Err(CountError::BadCount) => unreachable!(),
    };
    for r in 0..n {
        let p = ProcId::try_new(r, n).unwrap();
        let post = &mut posts[r as usize];
        copy_gathered(alloc, &mut history, lines, post, p, failed.has(p))?;
    }
    Ok(history)
}

/// What is gathered of all workers, as a catalogue with these marks, which keeps what is in transit
/// at the line that it plans as if these processes failed.
pub(crate) fn gathered_anew(
    alloc: Global,
    n: u32,
    marks: &Marks,
    lines: &mut Vec<Consumer<Event>>,
    posts: &mut Vec<Post>,
    failed: &ProcSet,
) -> Result<Catalogue, AllocError>
    requires some { 1 ≤ n }
    requires few { n ≤ MOST_PROCESSES }
    requires count { length posts.old.items ≡ n }
    requires at { AreAtLines n (in_ends lines.old.items) posts.old.items }
    requires marked { length marks.now.damaged ≡ n }
    requires agree { (gathered : List Process)
        → AreGatheredOnward failed.now (in_ends lines.old.items) posts.old.items gathered
        → Agrees gathered × AreOnChecks gathered marks.now }
    ensures lines { in_ends lines.new.items ≡ in_ends lines.old.items }
    ensures seen { StillKnow (known_rows lines.old.items) lines.new.items }
    ensures posts { posts.new.items ≡ posts.old.items }
    ensures gathered { IfOk result
        (λ catalogue. AreGatheredOnward failed.now (in_ends lines.old.items) posts.old.items
        catalogue.processes) }
    ensures marks { IfOk result (λ catalogue. catalogue.marks ≡ marks.now) }
{
    let history = gathered_history(alloc, n, lines, posts, failed)?;
    match Catalogue::of(alloc, &history, marks) {
        Ok(mut catalogue) => {
            let _ = keep_planned(alloc, &mut catalogue, failed);
            Ok(catalogue)
        }
        Err(CatalogueError::OutOfMemory) => Err(AllocError),
        Err(CatalogueError::NoSuchCheck) => unreachable!(),
        Err(CatalogueError::NamesDisagree) => unreachable!(),
    }
}

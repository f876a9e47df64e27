//! The events that the collector has not taken when the workers are back are copied and added.
ghost use Rattle.std.specs.Prelude.{◌≡◌, ◌≢◌, ◌<◌, ◌≤◌, ◌+◌, ◌++◌, [], ℕ, List, IfOk, Some};
ghost use Rattle.std.specs.Prelude.{length, take, drop};
ghost use Rattle.std.specs.VecDeque.{deque_items};
ghost use Rattle.line_tape.specs.declared.events.Event.{Event};
ghost use Rattle.line_tape.specs.History.{process_at, tape_at, incarnation_at};
ghost use Rattle.line_catalogue.specs.Views.{catalogue_room_at};
ghost use Rattle.line_posts.specs.Ends.{in_ends, items_at, known_rows, ring_at, row_at, StillKnow};
ghost use Rattle.line_posts.specs.Posts.{opening_tape};
ghost use Rattle.line_posts.specs.Gathered.{gathered_tape};
ghost use Rattle.line_posts.specs.Gathering.{rows_of, AreFurtherBelow, AreReady, IsOnWay, IsReady};

use crate::ends::meet_end;
use crate::keeping::keep_planned;
use crate::posts::Post;
use crate::queues::{keeps, take_kept};
use line_catalogue::Catalogue;
use line_names::{ProcId, ProcSet};
use line_tape::{Event, Tape};
use rtrb::Consumer;
use std::alloc::{AllocError, Global};
use std::collections::VecDeque;

impl Post {
    /// How many events of the worker's tape are gathered: all or, where it failed, those that it
    /// reported. What lies on its report line is known from here on.
    pub(crate) fn gathered_len(
        &mut self,
        lines: &mut Vec<Consumer<Event>>,
        p: usize,
        failed: bool,
    ) -> u32
        requires within { p < length lines.old.items }
        requires ring { Some self.old.line.ring ≡ ring_at (in_ends lines.old.items) p }
        ensures post { self.new ≡ self.old }
        ensures lines { in_ends lines.new.items ≡ in_ends lines.old.items }
        ensures seen { StillKnow (known_rows lines.old.items) lines.new.items }
        ensures within { result ≤ length self.old.tape }
        ensures told { take result self.old.tape ≡ gathered_tape failed self.old }
        ensures known { (rest : List Event) × (gathered_tape failed self.old
            ≡ (opening_tape self.old ++ items_at (in_ends lines.old.items) p) ++ rest) }
    {
        let _ = meet_end(&mut self.line, lines, p);
        if failed {
            self.reported
        } else {
            self.journal.len()
        }
    }
}

/// Copies `k` events of a tape, from place `from` on.
fn copies(alloc: Global, tape: &Tape, from: u32, k: u32) -> Result<VecDeque<Event>, AllocError>
    requires { from + k ≤ length tape.now.events }
    ensures { IfOk result (λ events. deque_items events ≡ take k (drop from tape.now.events)) }
{
    let _limits = tape.len();
    let mut events = VecDeque::with_capacity(alloc, k as usize)?;
    for i in 0..k {
        let event = tape.event(from + i).to_event(alloc)?;
        events.push_back(event)?;
    }
    Ok(events)
}

/// Copies the events of a worker that are gathered and that the collector has not taken, and makes
/// room for them.
fn further_of(
    alloc: Global,
    catalogue: &mut Catalogue,
    lines: &mut Vec<Consumer<Event>>,
    post: &mut Post,
    p: ProcId,
    failed: bool,
) -> Result<VecDeque<Event>, AllocError>
    requires within { p < length catalogue.old.processes }
    requires ready { IsReady catalogue.old.processes (in_ends lines.old.items) p post.old }
    ensures processes { catalogue.new.processes ≡ catalogue.old.processes }
    ensures marks { catalogue.new.marks ≡ catalogue.old.marks }
    ensures others { (q : ℕ) → q ≢ p
        → catalogue_room_at catalogue.new q ≡ catalogue_room_at catalogue.old q }
    ensures lines { in_ends lines.new.items ≡ in_ends lines.old.items }
    ensures seen { StillKnow (known_rows lines.old.items) lines.new.items }
    ensures post { post.new ≡ post.old }
    ensures events { IfOk result (λ events.
        tape_at catalogue.old.processes p ++ deque_items events ≡ gathered_tape failed post.old) }
    ensures room { IfOk result
        (λ events. length (deque_items events) ≤ catalogue_room_at catalogue.new p) }
{
    let from = catalogue.history().tape(p).len();
    let upto = post.gathered_len(lines, p.get() as usize, failed);
    let k = upto - from;
    let events = copies(alloc, post.tape(), from, k)?;
    catalogue.reserve(p, k)?;
    Ok(events)
}

/// Copies, of each worker, the events that are gathered and that the collector has not taken, and
/// makes room for them.
pub(crate) fn further_of_all(
    alloc: Global,
    catalogue: &mut Catalogue,
    lines: &mut Vec<Consumer<Event>>,
    posts: &mut Vec<Post>,
    failed: &ProcSet,
) -> Result<Vec<VecDeque<Event>>, AllocError>
    requires count { length posts.old.items ≡ length catalogue.old.processes }
    requires ready { AreReady catalogue.old.processes (in_ends lines.old.items) posts.old.items }
    ensures processes { catalogue.new.processes ≡ catalogue.old.processes }
    ensures marks { catalogue.new.marks ≡ catalogue.old.marks }
    ensures lines { in_ends lines.new.items ≡ in_ends lines.old.items }
    ensures seen { StillKnow (known_rows lines.old.items) lines.new.items }
    ensures posts { posts.new.items ≡ posts.old.items }
    ensures further { IfOk result (λ further. AreFurtherBelow (length posts.old.items) failed.now
        catalogue.old.processes catalogue.new.rooms posts.old.items (rows_of further.items)) }
{
    let n = catalogue.n();
    let mut further = Vec::with_capacity(alloc, n as usize)?;
    for r in 0..n {
        let p = ProcId::try_new(r, n).unwrap();
        let post = &mut posts[r as usize];
        let events = further_of(alloc, catalogue, lines, post, p, failed.has(p))?;
        further.push_reserved(events);
    }
    Ok(further)
}

/// Adds the further events of a process, in room that was made for them.
fn add_events(catalogue: &mut Catalogue, further: &mut Vec<VecDeque<Event>>, p: ProcId)
    requires within { p < length catalogue.old.processes }
    requires way { IsOnWay catalogue.old.processes (rows_of further.old.items)
        catalogue.old.processes catalogue.old.rooms (rows_of further.old.items) }
    ensures way { IsOnWay catalogue.old.processes (rows_of further.old.items)
        catalogue.new.processes catalogue.new.rooms (rows_of further.new.items) }
    ensures marks { catalogue.new.marks ≡ catalogue.old.marks }
    ensures none { row_at (rows_of further.new.items) p ≡ [] }
    ensures others { (k : ℕ) → k ≢ p
        → row_at (rows_of further.new.items) k ≡ row_at (rows_of further.old.items) k }
{
    let at = p.get() as usize;
    'events: while keeps(further, at) {
        let event = take_kept(further, at);
        catalogue.append(p, event);
    }
}

/// Adds the further events of each process, in room that was made for them. Then it plans as if
/// these processes failed and keeps what is in transit at that line, so that later plans look at
/// little.
pub(crate) fn add_and_keep(
    alloc: Global,
    catalogue: &mut Catalogue,
    further: &mut Vec<VecDeque<Event>>,
    failed: &ProcSet,
)
    requires way { IsOnWay catalogue.old.processes (rows_of further.old.items)
        catalogue.old.processes catalogue.old.rooms (rows_of further.old.items) }
    ensures marks { catalogue.new.marks ≡ catalogue.old.marks }
    ensures count { length catalogue.new.processes ≡ length catalogue.old.processes }
    ensures each { (p : ℕ) → process_at catalogue.new.processes p
        ≡ record {
          incarnation = incarnation_at catalogue.old.processes p;
          tape = tape_at catalogue.old.processes p ++ row_at (rows_of further.old.items) p;
        } }
{
    let n = catalogue.n();
    for r in 0..n {
        let p = ProcId::try_new(r, n).unwrap();
        add_events(catalogue, further, p);
    }
    let _ = keep_planned(alloc, catalogue, failed);
}

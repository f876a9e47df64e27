//! Rounds at a worker.
ghost use Rattle.std.specs.Prelude.{◌≡◌, ◌<◌, ◌≤◌, ◌+◌, false, IfOk, IfErr, OnOk, OnErr, length};
ghost use Rattle.line_rounds.specs.Recording.{latest};
ghost use Rattle.line_tape.specs.Rounds.{has_check_of};
ghost use Rattle.line_posts.specs.Ends.{out_ends, HasRoomBelow};
ghost use Rattle.line_posts.specs.Journals.{IsOpen, IsRecorded, IsSameJournal};
ghost use Rattle.line_posts.specs.Markers.{checked_by};
ghost use Rattle.line_posts.specs.Posts.{PostView};
ghost use Rattle.line_posts.specs.Generations.{IsSamePost};
ghost use Rattle.line_posts.specs.Refusals.{IsNotBegun, MayBegin};

use crate::journals::Journal;
use crate::markers::push_markers;
use crate::parcels::Parcel;
use crate::posts::Post;
use crate::refusals::BeginWhy;
use crate::rooms::has_room;
use line_names::ProcId;
use line_rounds::Marker;
use line_tape::{LAST_ROUND, MOST_EVENTS, MOST_STATE, State};
use rtrb::Producer;

/// Tests whether a worker can begin a round with this state now, and makes room for its check.
/// Where it can, each ring has a free slot, and the number of the round is answered.
fn make_round(
    me: ProcId,
    journal: &mut Journal,
    outs: &mut Vec<Producer<Parcel>>,
    state: &State,
) -> Result<u32, BeginWhy>
    requires me { journal.old.me ≡ me }
    ensures tape { journal.new.tape ≡ journal.old.tape }
    ensures rounds { journal.new.rounds ≡ journal.old.rounds }
    ensures same { IsSameJournal journal.old journal.new }
    ensures ends { out_ends outs.new.items ≡ out_ends outs.old.items }

    // What a round needs.
    ensures round { IfOk result (λ r. (r ≡ latest journal.old.floor journal.old.rounds + 1)
        × (has_check_of r journal.old.tape ≡ false)) }
    ensures lead { OnOk result (me ≡ 0) }
    ensures short { OnOk result (length state.now ≤ MOST_STATE) }
    ensures closed { OnOk result
        (IsOpen journal.old.n me journal.old.floor journal.old.rounds → ⊥) }
    ensures further { OnOk result (latest journal.old.floor journal.old.rounds < LAST_ROUND) }
    ensures few { OnOk result (length journal.old.tape < MOST_EVENTS) }
    ensures room { OnOk result (0 < journal.new.room) }
    ensures ready { OnOk result (0 < journal.new.ready) }
    ensures slots { OnOk result (HasRoomBelow (length outs.new.items) outs.new.items) }

    // The refusals, in their order.
    ensures why { IfErr result (λ e. (post : PostView) → length post.opening ≡ journal.old.n
        → post.number ≡ me → post.tape ≡ journal.old.tape → post.outs ≡ out_ends outs.old.items
        → post.floor ≡ journal.old.floor → post.rounds ≡ journal.old.rounds
        → IsNotBegun post state.now e) }
{
    if me.get() != 0 {
        return Err(BeginWhy::NotLead);
    }
    if state.bytes().len() > MOST_STATE {
        return Err(BeginWhy::StateTooLong);
    }
    if journal.is_open() {
        return Err(BeginWhy::RoundOpen);
    }
    let last = journal.latest();
    if last >= LAST_ROUND {
        return Err(BeginWhy::NoMoreRounds);
    }
    if journal.len() as usize >= MOST_EVENTS {
        return Err(BeginWhy::TapeFull);
    }
    if !has_room(outs) {
        return Err(BeginWhy::RingFull);
    }
    if journal.reserve(1).is_err() {
        return Err(BeginWhy::OutOfMemory);
    }
    Ok(last + 1)
}

impl Post {
    /// Begins a round (Chandy and Lamport, 1985): the lead takes its check, puts a marker on the
    /// ring to each other process, and answers the number of the round.
    pub fn begin(&mut self, state: State) -> Result<u32, BeginWhy>
        ensures ok { IfOk result (λ r. (r ≡ latest self.old.floor self.old.rounds + 1)
            × (self.new ≡ checked_by self.old state r)) }
        ensures err { OnErr result (self.new ≡ self.old) }
        ensures same { IsSamePost self.old self.new }

        // The refusals, in their order.
        ensures may { OnOk result (MayBegin self.old state) }
        ensures why { IfErr result (λ e. IsNotBegun self.old state e) }
    {
        let round = make_round(self.me, &mut self.journal, &mut self.outs, &state)?;
        push_markers(&mut self.outs, self.me.get() as usize, round);
        self.journal.begin(state, round);
        Ok(round)
    }

    /// The last round that the worker has recorded or, where it has none, the last one before its
    /// generation.
    pub fn latest(&self) -> u32
        ensures { result ≡ latest self.now.floor self.now.rounds }
    {
        self.journal.latest()
    }

    /// What the worker has recorded of rounds: of each, what its tape has.
    pub fn marker(&self) -> &Marker
        ensures rounds { result.now.rounds ≡ self.now.rounds }
        ensures recorded { IsRecorded (length self.now.opening) self.now.floor self.now.tape
            self.now.rounds }
    {
        self.journal.marker()
    }
}

//! The list of the rounds that are completed.
ghost use Rattle.std.specs.Prelude.{◌≡◌, ◌<◌, ◌-◌, ◌++◌, ◌∷◌, [], true, false, filter};
ghost use Rattle.std.specs.Prelude.{OnOk, All};
ghost use Rattle.line_moves.specs.Listed.{stays, IsSnapshotOf};
ghost use Rattle.line_moves.specs.Listings.{Climb};

use crate::leanings::{are_one, lean_in_block};
use crate::rounds::Round;
use line_names::Line;
use line_tape::History;
use std::alloc::{AllocError, Global};
use std::marker::Model;

/// Whether the rounds climb with one more; `climbs` says whether they do without it.
fn climb_on(rounds: &[Round], climbs: bool, round: &Round) -> bool
    requires { climbs ≡ true → Climb rounds.now }
    ensures { result ≡ true → Climb (rounds.now ++ round.now ∷ []) }
{
    let n = rounds.len();
    if n == 0 {
        return true;
    }
    if !climbs {
        return false;
    }
    rounds[n - 1].is_below(round)
}

/// Whether a round has channels that were counted, and does not hold them in one place with the
/// last of the rounds. It takes constant time.
fn is_counted_anew(rounds: &[Round], round: &Round) -> bool {
    if round.counted().is_none() {
        return false;
    }
    match rounds.last() {
        Some(last) => !are_one(last, round),
        None => true,
    }
}

/// At the first level the rounds of so many tables of channels lean on the last of them, and at
/// each further level those of so many blocks. With each table that is counted one leans at each
/// level, and some 32 tables of a level at most are still to lean. A greater number would keep more
/// of them, and a smaller one would have each lean more often.
const LEANING: usize = 16;

/// The completed rounds whose checks no restart has cut, by number.
///
/// In a machine the checks of each process climb from round to round. So a restart cuts checks of
/// the last rounds alone, and looks at no earlier round.
#[derive(Drop)]
pub struct Listing {
    rounds: Vec<Round>,
    climbs: bool,
    /// Where the rounds stand whose channels were counted and are not held in one place with the
    /// last round's.
    counted: Vec<usize>,
    /// Whether one of these has been listed since rounds leaned.
    is_due: bool,
}

impl Model for Listing {
    ghost use Rattle.std.specs.Prelude.{◌≡◌, ◌-◌, true, vec_len, vec_capacity};
    ghost use Rattle.line_moves.specs.Listings.{ListingView, Climb};

    ghost Value = { ListingView };

    ghost view = { λ l. record {
      items = l.rounds.items;
      room = vec_capacity l.rounds - vec_len l.rounds;
    } };

    ghost invariant = { λ l. l.climbs ≡ true → Climb l.rounds.items };
}

impl Listing {
    /// No round yet.
    pub fn new(alloc: Global) -> Listing
        ensures { result.items ≡ [] }
    {
        Listing {
            rounds: Vec::new(alloc),
            climbs: true,
            counted: Vec::new(alloc),
            is_due: false,
        }
    }

    /// The rounds, by number.
    pub fn as_slice(&self) -> &[Round]
        ensures { result.now ≡ self.now.items }
    {
        self.rounds.as_slice()
    }

    /// Makes room for one more round.
    pub fn reserve(&mut self) -> Result<(), AllocError>
        ensures items { self.new.items ≡ self.old.items }
        ensures ok { OnOk result (0 < self.new.room) }
    {
        self.counted.reserve(1)?;
        self.rounds.reserve(1)
    }

    /// Lists a round, in room that was made for it. It looks at each of its checks.
    pub fn push(&mut self, round: Round)
        requires { 0 < self.old.room }
        ensures { self.new.items ≡ self.old.items ++ round ∷ [] }
    {
        let climbs = climb_on(&self.rounds, self.climbs, &round);
        if is_counted_anew(&self.rounds, &round) {
            self.is_due = self.counted.push(self.rounds.len()).is_ok();
        }
        self.rounds.push_reserved(round);
        self.climbs = climbs;
    }

    /// Has some earlier rounds lean on later ones, if channels were counted for a round since it
    /// was last called.
    ///
    /// At each of four levels it looks at what is in transit at the checks of one round, and at
    /// each round that holds this in one place with it. It takes memory for each process that
    /// something is in transit to, and for each sender; where a block is whole, also for what is in
    /// transit at the checks of its first round and its last. Where memory is refused, rounds stay
    /// as they are held.
    pub(crate) fn settle(&mut self, alloc: Global, history: &History)
        requires { All (IsSnapshotOf history.now.processes) self.old.items }
        ensures { self.new.items ≡ self.old.items }
    {
        if !self.is_due {
            return;
        }
        self.is_due = false;
        // The largest first: what is joined for a block serves the last ones of its smaller blocks.
        self.settle_at(alloc, history, LEANING * LEANING * LEANING * LEANING);
        self.settle_at(alloc, history, LEANING * LEANING * LEANING);
        self.settle_at(alloc, history, LEANING * LEANING);
        self.settle_at(alloc, history, LEANING);
    }

    /// Has one round lean at the level whose blocks have so many channels that were counted: of the
    /// last whole block, the one at the place that the last has in its own. A block that has just
    /// become whole has its last round joined with its first one before.
    fn settle_at(&mut self, alloc: Global, history: &History, size: usize)
        requires size { 0 < size }
        requires rounds { All (IsSnapshotOf history.now.processes) self.old.items }
        ensures { self.new.items ≡ self.old.items }
    {
        let place = self.counted.len() % size;
        let end = self.counted.len() - place;
        if end < size {
            return;
        }
        let first = self.counted[end - size + place];
        let target = self.counted[end - 1];
        let _leans = lean_in_block(alloc, history, &mut self.rounds, first, target, place).is_ok();
    }

    /// Keeps the rounds none of whose checks a restart at the line cuts. It takes no memory. Where
    /// checks climb it looks at the rounds that go and at one more, and else at each.
    pub fn keep(&mut self, line: &Line)
        ensures { self.new.items ≡ filter (stays line.now) self.old.items }
    {
        if !self.climbs {
            self.counted.truncate(0);
            self.rounds.retain(|round| round.stays(line));
            return;
        }
        let mut end = self.rounds.len();
        'cut: while end > 0 && !self.rounds[end - 1].stays(line) {
            end -= 1;
        }
        self.rounds.truncate(end);
        let counted = self.counted.partition_point(|place| *place < end);
        self.counted.truncate(counted);
    }
}

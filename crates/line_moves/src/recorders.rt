//! What one process records of one round of markers (Chandy and Lamport, ACM TOCS 3(1), 1985).
ghost use Rattle.std.specs.Prelude.{◌≡◌, ◌≢◌, ◌<◌, ◌≤◌, ◌↔◌, ◌++◌, ◌∷◌, ℕ, [], false, true, IsTrue};
ghost use Rattle.std.specs.Prelude.{slice_index_or, length, MatchOption, OnOk, OnErr};
ghost use Rattle.std.specs.Option.{unwrap_or};
ghost use Rattle.line_names.specs.Sets.{is_member};
ghost use Rattle.line_rounds.specs.Recording.{channel_at, messages_by, round_of, with_marker};
ghost use Rattle.line_rounds.specs.Recording.{rounds_with_message, with_round, RecordedRound};
ghost use Rattle.line_rounds.specs.Recording.{IsOver, IsSameProcess};

use line_names::{MOST_PROCESSES, MsgName, ProcId, ProcSet};
use std::alloc::{AllocError, Global};
use std::marker::Model;

/// The messages noted from one process, in the order in which they came.
#[derive(Drop)]
struct Noted {
    names: Vec<MsgName>,
}

impl Model for Noted {
    ghost use Rattle.std.specs.Prelude.{List};
    ghost use Rattle.line_names.specs.declared.messages.MsgName.{MsgName as Name};

    ghost Value = { List Name };

    ghost view = { λ n. n.names.items };
}

/// Adds a message to those of its sender, in a list that is made if there is none.
fn put(alloc: Global, noted: &mut Vec<Noted>, message: MsgName) -> Result<(), AllocError>
    ensures here { OnOk result
        (slice_index_or noted.new.items message.from []
        ≡ slice_index_or noted.old.items message.from [] ++ message ∷ []) }
    ensures others { (q : ℕ) → q ≢ message.from
        → slice_index_or noted.new.items q [] ≡ slice_index_or noted.old.items q [] }
    ensures few { (n : ℕ) → message.from < n → length noted.old.items ≤ n
        → length noted.new.items ≤ n }
    ensures err { OnErr result
        (slice_index_or noted.new.items message.from []
        ≡ slice_index_or noted.old.items message.from []) }
{
    for _q in noted.len()..message.from.get() as usize + 1 {
        noted.push(Noted {
            names: Vec::new(alloc),
        })?;
    }
    let own = &mut noted[message.from.get() as usize];
    own.names.push(message)?;
    Ok(())
}

/// The messages noted from a process.
fn names_of(noted: &[Noted], from: ProcId) -> &[MsgName]
    ensures { result.now ≡ slice_index_or noted.now from [] }
{
    match noted.get(from.get() as usize) {
        Some(own) => &own.names,
        None => &[],
    }
}

/// Whether the marker of each of `n` processes but this one has come.
fn have_come(closed: &ProcSet, n: u32, me: ProcId) -> bool
    requires { n ≤ MOST_PROCESSES }
    ensures { IsTrue result
        ↔ ((q : ℕ) → q < n → q ≢ me → IsTrue (is_member closed.now q)) }
{
    'each: for q in 0..n {
        let p = ProcId::try_new(q, n).unwrap();
        if p != me && !closed.has(p) {
            return false;
        }
    }
    true
}

/// What one process has recorded of one round: a bit for each channel to it, and the messages on
/// the channels.
///
/// A message costs one push, but the first ones of a round also make lists, one for each process
/// at most. A marker sets a bit.
#[derive(Drop)]
pub(crate) struct Recorder {
    alloc: Global,
    n: u32,
    me: ProcId,
    /// The number of the round, once the process has its check of it.
    round: Option<u32>,
    /// The processes whose markers have come.
    closed: ProcSet,
    /// For each of the first processes the messages noted from it; none from the others.
    noted: Vec<Noted>,
}

// What an open round takes for each process, beside the messages on its channels.
const _: () = prove!(size_of::<Recorder>() == 72);

impl Model for Recorder {
    ghost use Rattle.std.specs.Prelude.{◌≤◌, length};
    ghost use Rattle.line_names.specs.declared.limits.TheConstants.{MOST_PROCESSES};
    ghost use Rattle.line_rounds.specs.Recording.{MarkerView};
    ghost use Rattle.line_moves.specs.Recorders.{rounds_noted, IsUnheard};

    ghost Value = { MarkerView };

    ghost view = { λ r. record {
      n = r.n;
      me = r.me;
      floor = 0;
      rounds = rounds_noted r.round r.n r.closed r.noted.items;
      room = 0;
    } };

    ghost invariant = { λ r. IsUnheard r.round r.closed r.noted.items
        × (r.n ≤ MOST_PROCESSES) × (length r.noted.items ≤ r.n) };
}

impl Recorder {
    /// What process `me` of `n` has recorded before it has done anything.
    pub(crate) fn new(alloc: Global, n: u32, me: ProcId) -> Recorder
        requires { n ≤ MOST_PROCESSES }
        ensures n { result.n ≡ n }
        ensures me { result.me ≡ me }
        ensures floor { result.floor ≡ 0 }
        ensures rounds { result.rounds ≡ [] }
    {
        Recorder {
            alloc,
            n,
            me,
            round: None,
            closed: ProcSet::empty(),
            noted: Vec::new(alloc),
        }
    }

    /// The process.
    pub(crate) fn me(&self) -> ProcId
        ensures { result ≡ self.now.me }
    {
        self.me
    }

    /// The process takes its check of the round: all channels are open and empty.
    pub(crate) fn begin(&mut self, round: u32)
        requires { self.old.rounds ≡ [] }
        ensures begun { self.new.rounds ≡ with_round self.old.rounds self.old.n round }
        ensures same { IsSameProcess self.old self.new }
    {
        self.round = Some(round);
    }

    /// The marker of the round has come from another process. It tells whether it is the first one
    /// from there; else, and where the round is not recorded, nothing changes.
    pub(crate) fn close_channel(&mut self, from: ProcId, round: u32) -> bool
        requires { from < self.old.n }
        ensures first { IsTrue result
            ↔ MatchOption (round_of self.old.rounds round) ⊥
            (λ (recorded : RecordedRound). (channel_at recorded from).is_closed ≡ false) }
        ensures closed { IsTrue result → self.new.rounds ≡ with_marker self.old.rounds from round }
        ensures unchanged { result ≡ false → self.new.rounds ≡ self.old.rounds }
        ensures same { IsSameProcess self.old self.new }
    {
        match self.round {
            Some(number) => {
                if number != round {
                    return false;
                }
            }
            None => return false,
        }
        if self.closed.has(from) {
            return false;
        }
        self.closed = self.closed.with(from);
        true
    }

    /// The marker of the round has the process take its check: the channel from the sender of the
    /// marker is closed and empty, and the others are open and empty.
    pub(crate) fn force(&mut self, from: ProcId, round: u32)
        requires process { from < self.old.n }
        requires first { self.old.rounds ≡ [] }
        ensures forced { self.new.rounds
            ≡ with_marker (with_round self.old.rounds self.old.n round) from round }
        ensures same { IsSameProcess self.old self.new }
    {
        self.round = Some(round);
        self.closed = self.closed.with(from);
    }

    /// A message has come from another process. The round has it from now on, if it is recorded and
    /// the channel from its sender is not closed.
    pub(crate) fn note(&mut self, message: MsgName) -> Result<(), AllocError>
        requires { message.from < self.old.n }
        ensures ok { OnOk result (self.new.rounds ≡ rounds_with_message self.old.rounds message) }
        ensures err { OnErr result (self.new.rounds ≡ self.old.rounds) }
        ensures same { IsSameProcess self.old self.new }
    {
        match self.round {
            Some(_) => {}
            None => return Ok(()),
        }
        if self.closed.has(message.from) {
            return Ok(());
        }
        put(self.alloc, &mut self.noted, message)
    }

    /// The messages that the round has from a process, in their order; none where another round is
    /// recorded, or none.
    pub(crate) fn names(&self, from: ProcId, round: u32) -> &[MsgName]
        requires { from < self.now.n }
        ensures { result.now ≡ unwrap_or (messages_by (round_of self.now.rounds round) from) [] }
    {
        match self.round {
            Some(number) => {
                if number != round {
                    return &[];
                }
            }
            None => return &[],
        }
        names_of(&self.noted, from)
    }

    /// Whether no channel has a message. It looks at the lists that there are.
    pub(crate) fn is_silent(&self) -> bool
        ensures { IsTrue result ↔ ((round p : ℕ)
            → unwrap_or (messages_by (round_of self.now.rounds round) p) [] ≡ []) }
    {
        'each: for q in 0..self.noted.len() {
            let own = &self.noted[q];
            if !own.names.is_empty() {
                return false;
            }
        }
        true
    }

    /// Whether the round is recorded and its marker has come from each other process. It looks at
    /// each.
    pub(crate) fn is_closed(&self, round: u32) -> bool
        ensures { IsTrue result ↔ IsOver self.now round }
    {
        match self.round {
            Some(number) => {
                if number != round {
                    return false;
                }
            }
            None => return false,
        }
        have_come(&self.closed, self.n, self.me)
    }
}

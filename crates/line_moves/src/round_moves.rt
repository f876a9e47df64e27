//! What the steps of a round do to the tapes, the links, the colours and the rounds.
//!
//! All room is made first: if memory runs out, the tapes and the marks are as they were.
ghost use Rattle.std.specs.Prelude.{◌≡◌, ◌≢◌, ◌<◌, ◌≤◌, ◌+◌, ℕ, ◌∷◌, [], length, false};
ghost use Rattle.std.specs.Prelude.{slice_get, All, IfOk, OnOk, OnErr, Option, Some, None};
ghost use Rattle.line_tape.specs.declared.events.Event.TheVariants.{Check as CheckEvent};
ghost use Rattle.line_tape.specs.declared.events.Event.TheVariants.{Mark as MarkEvent};
ghost use Rattle.line_tape.specs.declared.items.Item.TheVariants.{Marker};
ghost use Rattle.line_tape.specs.History.{tape_at, with_event};
ghost use Rattle.line_catalogue.specs.Views.{catalogue_room_at};
ghost use Rattle.line_tape.specs.Colours.{colour};
ghost use Rattle.line_tape.specs.Rounds.{has_check_of};
ghost use Rattle.line_rounds.specs.Kept.{AreTurned};
ghost use Rattle.line_rounds.specs.Turning.{IsTurning};
ghost use Rattle.line_tape.specs.declared.modes.Mode.TheVariants.{Fifo};
ghost use Rattle.line_moves.specs.Fates.{is_forced, marker_events};
ghost use Rattle.line_moves.specs.Listed.{IsSnapshotOf};
ghost use Rattle.line_moves.specs.Moves.{with_events, next_check};
ghost use Rattle.line_moves.specs.Openings.{open_number, IsCountedAtRound, IsOnlyOpen};
ghost use Rattle.line_moves.specs.Openings.{IsOpenTurning};
ghost use Rattle.line_moves.specs.Openings.{IsRecording, IsListedOrOpen};
ghost use Rattle.line_rounds.specs.Tables.{between};
ghost use Rattle.line_moves.specs.Worlds.{IsWorld};

use crate::counts::count_channels;
use crate::links::Links;
use crate::listings::Listing;
use crate::openings::{OpenRound, hear};
use crate::rounds::Round;
use line_catalogue::Catalogue;
use line_names::ProcId;
use line_rounds::{Colours, SharedChannels, Turning};
use line_tape::{Event, Item, LAST_ROUND, MOST_EVENTS, MOST_STATE, State};
use std::alloc::{AllocError, Global};

/// A marker that is first on its link, where its process takes it.
#[derive(Clone, Copy)]
pub struct ArrivedMarker {
    /// The process that sent it.
    pub from: ProcId,
    /// The process that takes it.
    pub to: ProcId,
    /// Its round.
    pub round: u32,
    /// Whether the process has no check of that round yet, and takes it first: what `is_forced`
    /// says.
    pub forced: bool,
}

/// The check by which a process turns to a round of colours, its state lent.
#[derive(Clone, Copy)]
pub struct TurnCheck<'a> {
    /// The process.
    pub at: ProcId,
    /// The number of the round. Contracts alone name it: the round that is open has it.
    pub round: u32,
    /// The state that the check stores.
    pub state: &'a [u8],
    /// How many events of the process come with the check, for which room is made too: one where a
    /// message forces it, and else none.
    pub further: u32,
}

/// Begins the round of markers after the last one (Chandy and Lamport, ACM TOCS 3(1), 1985): the
/// check goes on the tape of the process, and a marker on each link from it to another. The round,
/// which is open now, and the index of the check are returned.
///
/// It takes memory for what each process records of the round, which is of a fixed size before
/// messages come, and for the state.
pub fn begin_round(
    alloc: Global,
    catalogue: &mut Catalogue,
    links: &mut Links,
    at: ProcId,
    state: &[u8],
    last: u32,
) -> Result<(OpenRound, u32), AllocError>
    requires at { at < length catalogue.old.processes }
    requires short { length state.now ≤ MOST_STATE }
    requires few { length (tape_at catalogue.old.processes at) < MOST_EVENTS }
    requires numbers { last < LAST_ROUND }
    requires fresh { (q : ℕ) → has_check_of (last + 1) (tape_at catalogue.old.processes q) ≡ false }
    requires world { IsWorld Fifo catalogue.old.processes links.old }
    ensures check { IfOk result (λ begun. begun.1 ≡ next_check catalogue.old.processes at) }
    ensures number { IfOk result (λ begun. begun.0.number ≡ last + 1) }
    ensures recording { IfOk result (λ begun. IsRecording catalogue.new.processes begun.0) }
    ensures checked { OnOk result
        (catalogue.new.processes
        ≡ with_event catalogue.old.processes at (CheckEvent state.now (Some (last + 1)))) }
    ensures world { OnOk result (IsWorld Fifo catalogue.new.processes links.new) }
    ensures err { OnErr result (catalogue.new.processes ≡ catalogue.old.processes) }
    ensures marks { catalogue.new.marks ≡ catalogue.old.marks }
    ensures kept { OnErr result (links.new ≡ links.old) }
{
    let state = State::of(Vec::from_slice(alloc, state)?);
    catalogue.reserve(at, 1)?;
    let mut running = OpenRound::new(alloc, catalogue.history(), last)?;
    links.push_each(at, Item::Marker(last + 1))?;
    let check = catalogue.history().tape(at).checks() + 1;
    running.begin(catalogue.history(), at);
    let round = Some(last + 1);
    catalogue.append(at, Event::Check { state, round });
    Ok((running, check))
}

/// The marker of the open round has a process take its check. The check and the mark go on its
/// tape, a marker goes on each link from it to another, and the marker that came goes off its link.
fn force_round(
    alloc: Global,
    catalogue: &mut Catalogue,
    links: &mut Links,
    running: &mut OpenRound,
    marker: &ArrivedMarker,
    state: &[u8],
) -> Result<(), AllocError>
    requires from { marker.now.from < length catalogue.old.processes }
    requires to { marker.now.to < length catalogue.old.processes }
    requires other { marker.now.from ≢ marker.now.to }
    requires short { length state.now ≤ MOST_STATE }
    requires few { length (tape_at catalogue.old.processes marker.now.to) + 1 < MOST_EVENTS }
    requires first { has_check_of running.old.number (tape_at catalogue.old.processes marker.now.to)
        ≡ false }
    requires marker { slice_get (between links.old marker.now.from marker.now.to) 0
        ≡ Some (Marker running.old.number) }
    requires world { IsWorld Fifo catalogue.old.processes links.old }
    requires recording { IsRecording catalogue.old.processes running.old }
    ensures taken { OnOk result (catalogue.new.processes
        ≡ with_events catalogue.old.processes marker.now.to
        (CheckEvent state.now (Some running.old.number)
        ∷ MarkEvent marker.now.from running.old.number ∷ [])) }
    ensures world { IsWorld Fifo catalogue.new.processes links.new }
    ensures recording { IsRecording catalogue.new.processes running.new }
    ensures number { running.new.number ≡ running.old.number }
    ensures err { OnErr result (catalogue.new.processes ≡ catalogue.old.processes) }
    ensures marks { catalogue.new.marks ≡ catalogue.old.marks }
{
    let number = running.number();
    let state = State::of(Vec::from_slice(alloc, state)?);
    catalogue.reserve(marker.to, 2)?;
    links.push_each(marker.to, Item::Marker(number))?;
    links.drop_first(marker.from, marker.to);
    running.force(catalogue.history(), marker.from, marker.to);
    let round = Some(number);
    catalogue.append(marker.to, Event::Check { state, round });
    catalogue.append_mark(marker.to, marker.from, number);
    Ok(())
}

/// Takes the marker that is first on a link. If the process has no check of its round yet, it takes
/// that first.
///
/// A forced check puts a marker on each link from the process to another. Else it takes constant
/// time.
pub fn take_marker(
    alloc: Global,
    catalogue: &mut Catalogue,
    links: &mut Links,
    running: &mut Option<OpenRound>,
    marker: &ArrivedMarker,
    state: &[u8],
) -> Result<(), AllocError>
    requires from { marker.now.from < length catalogue.old.processes }
    requires to { marker.now.to < length catalogue.old.processes }
    requires other { marker.now.from ≢ marker.now.to }
    requires short { length state.now ≤ MOST_STATE }
    requires forced { marker.now.forced
        ≡ is_forced catalogue.old.processes marker.now.to marker.now.round }
    requires few { length (tape_at catalogue.old.processes marker.now.to)
        + length
        (marker_events (is_forced catalogue.old.processes marker.now.to marker.now.round)
        marker.now.from state.now marker.now.round)
        ≤ MOST_EVENTS }
    requires marker { slice_get (between links.old marker.now.from marker.now.to) 0
        ≡ Some (Marker marker.now.round) }
    requires world { IsWorld Fifo catalogue.old.processes links.old }
    requires opening { IsOnlyOpen Fifo catalogue.old.processes running.old }
    ensures taken { OnOk result (catalogue.new.processes
        ≡ with_events catalogue.old.processes marker.now.to
        (marker_events (is_forced catalogue.old.processes marker.now.to marker.now.round)
        marker.now.from state.now marker.now.round)) }
    ensures world { IsWorld Fifo catalogue.new.processes links.new }
    ensures opening { IsOnlyOpen Fifo catalogue.new.processes running.new }
    ensures number { open_number running.new ≡ open_number running.old }
    ensures err { OnErr result (catalogue.new.processes ≡ catalogue.old.processes) }
    ensures marks { catalogue.new.marks ≡ catalogue.old.marks }
{
    if marker.forced {
        return match running {
            Some(kept) => force_round(alloc, catalogue, links, kept, marker, state),
            None => unreachable!(),
        };
    }
    catalogue.reserve(marker.to, 1)?;
    hear(
        running,
        catalogue.history(),
        marker.from,
        marker.to,
        marker.round,
    );
    links.drop_first(marker.from, marker.to);
    catalogue.append_mark(marker.to, marker.from, marker.round);
    Ok(())
}

/// A process takes its check of the open round of colours, and has its new colour. The index of the
/// check is returned, and what is in transit at the round's checks if this was the last of them.
fn take_turn(
    alloc: Global,
    catalogue: &mut Catalogue,
    colours: &mut Colours,
    turning: &mut Turning,
    rounds: &[Round],
    turn: &TurnCheck<'_>,
) -> Result<(u32, Option<SharedChannels>), AllocError>
    requires at { turn.now.at < length catalogue.old.processes }
    requires short { length turn.now.state.now ≤ MOST_STATE }
    requires few { length (tape_at catalogue.old.processes turn.now.at) < MOST_EVENTS }
    requires further { turn.now.further ≤ 1 }
    requires first { has_check_of turning.old.number (tape_at catalogue.old.processes turn.now.at)
        ≡ false }
    requires greater { colour (tape_at catalogue.old.processes turn.now.at) < turning.old.number }
    requires turned { AreTurned catalogue.old.processes colours.old }
    requires turning { IsTurning catalogue.old.processes turning.old }
    requires rounds { All (IsSnapshotOf catalogue.old.processes) rounds.now }
    ensures check { IfOk result
        (λ turned. turned.0 ≡ next_check catalogue.old.processes turn.now.at) }
    ensures channels { IfOk result
        (λ turned. IsCountedAtRound catalogue.new.processes turning.new.number turned.1) }
    ensures checked { OnOk result
        (catalogue.new.processes
        ≡ with_event catalogue.old.processes turn.now.at
        (CheckEvent turn.now.state.now (Some turning.old.number))) }
    ensures turned { OnOk result (AreTurned catalogue.new.processes colours.new) }
    ensures turning { OnOk result (IsTurning catalogue.new.processes turning.new) }
    ensures number { turning.new.number ≡ turning.old.number }
    ensures room { OnOk result (turn.now.further ≤ catalogue_room_at catalogue.new turn.now.at) }
    ensures err { OnErr result (catalogue.new.processes ≡ catalogue.old.processes) }
    ensures marks { catalogue.new.marks ≡ catalogue.old.marks }
    ensures colours { OnErr result (colours.new ≡ colours.old) }
    ensures kept { OnErr result (turning.new ≡ turning.old) }
{
    let state = State::of(Vec::from_slice(alloc, turn.state)?);
    catalogue.reserve(turn.at, 1 + turn.further)?;
    let channels = count_channels(alloc, catalogue, turning, rounds, turn.at)?;
    let tape = catalogue.history().tape(turn.at);
    let check = tape.checks() + 1;
    let sends = tape.sends();
    let number = turning.number();
    colours.turn(turn.at, number, sends)?;
    turning.check(turn.at, check);
    let round = Some(number);
    catalogue.append(turn.at, Event::Check { state, round });
    Ok((check, channels))
}

/// A process takes its check of the open round of colours (Lai and Yang, Information Processing
/// Letters 25(3), 1987), and the index of the check is returned. The round is listed if this was
/// the last of its checks.
///
/// The last check of a round costs one step for each process if nothing was sent or received since
/// the checks of the round before. Else it looks at what was sent and received since channels were
/// last counted, and at each message in transit at its checks. Any other check costs a push.
pub fn turn_round(
    alloc: Global,
    catalogue: &mut Catalogue,
    colours: &mut Colours,
    turning: &mut Option<Turning>,
    rounds: &mut Listing,
    turn: &TurnCheck<'_>,
) -> Result<u32, AllocError>
    requires at { turn.now.at < length catalogue.old.processes }
    requires short { length turn.now.state.now ≤ MOST_STATE }
    requires few { length (tape_at catalogue.old.processes turn.now.at) < MOST_EVENTS }
    requires further { turn.now.further ≤ 1 }
    requires first { has_check_of turn.now.round (tape_at catalogue.old.processes turn.now.at)
        ≡ false }
    requires greater { colour (tape_at catalogue.old.processes turn.now.at) < turn.now.round }
    requires turned { AreTurned catalogue.old.processes colours.old }
    requires kept { IsOpenTurning catalogue.old.processes turn.now.round turning.old }
    requires rounds { All (IsSnapshotOf catalogue.old.processes) rounds.old.items }
    ensures check { IfOk result (λ check. check ≡ next_check catalogue.old.processes turn.now.at) }
    ensures checked { OnOk result
        (catalogue.new.processes
        ≡ with_event catalogue.old.processes turn.now.at
        (CheckEvent turn.now.state.now (Some turn.now.round))) }
    ensures turned { OnOk result (AreTurned catalogue.new.processes colours.new) }
    ensures settled { OnOk result
        (IsListedOrOpen catalogue.new.processes turn.now.round rounds.old.items turning.new
        rounds.new.items) }
    ensures room { OnOk result (turn.now.further ≤ catalogue_room_at catalogue.new turn.now.at) }
    ensures err { OnErr result (catalogue.new.processes ≡ catalogue.old.processes) }
    ensures marks { catalogue.new.marks ≡ catalogue.old.marks }
    ensures colours { OnErr result (colours.new ≡ colours.old) }
    ensures kept { OnErr result (turning.new ≡ turning.old) }
    ensures unlisted { OnErr result (rounds.new.items ≡ rounds.old.items) }
{
    rounds.settle(alloc, catalogue.history());
    rounds.reserve()?;
    let (check, channels) = match turning {
        Some(round) => {
            let listed = rounds.as_slice();
            take_turn(alloc, catalogue, colours, round, listed, turn)?
        },
        None => unreachable!(),
    };
    if let Some(channels) = channels {
        if let Some(round) = turning.take() {
            rounds.push(Round::of_turning(alloc, round, channels, catalogue.history()));
        }
    }
    Ok(check)
}

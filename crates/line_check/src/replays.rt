//! The messages that are sent again.
ghost use Rattle.std.specs.Prelude.{◌≡◌, ◌≤◌, ◌↔◌, List, IsTrue, IsOk, IfErr, IfSome, Some};
ghost use Rattle.std.specs.Prelude.{Contains, drop, length, slice_get};
ghost use Rattle.line_tape.specs.Line.{events_before, IsLine};
ghost use Rattle.line_tape.specs.Received.{AreTold};
ghost use Rattle.line_check.specs.declared.answers.Replay.{Replay};
ghost use Rattle.line_check.specs.Answers.{replay_of_ref, replays_due};
ghost use Rattle.line_check.specs.Faults.{ArePartOf, IsFaultOfReplays, IsInTransit};
ghost use Rattle.line_check.specs.Faults.{IsReplayFault};
ghost use Rattle.line_check.specs.Matches.{Leaves};

use crate::answers::{Replay, ReplayRef};
use crate::cursors::{ReplayCursor, is_received, next_due, next_replay};
use crate::faults::{CertFault, FaultCode};
use line_names::{Line, MsgName};
use line_tape::{History, ReceivedFlags, is_sent_before};

// Whether a message that is sent again is the one that is lent.
fn is_replay(replay: &Replay, due: &ReplayRef<'_>) -> bool
    ensures { IsTrue result ↔ (replay.now ≡ replay_of_ref due.now) }
{
    replay.message == due.message
        && replay.to == due.to
        && replay.place == due.place
        && replay.body.bytes() == due.body
}

// Whether the message that is lent stands at that place.
fn is_at(replays: &[Replay], k: usize, due: &ReplayRef<'_>) -> bool
    ensures { IsTrue result ↔ (slice_get replays.now k ≡ Some (replay_of_ref due.now)) }
{
    match replays.get(k) {
        Some(replay) => is_replay(replay, due),
        None => false,
    }
}

/// How many of the messages that are sent again are found in order among those that are due, and
/// whether these are all that are due.
struct Match {
    found: usize,
    whole: bool,
}

// Goes through the messages that are due, and looks for those that are sent again, in their order.
fn find_replays(
    history: &History,
    line: &Line,
    received: Option<&ReceivedFlags>,
    replays: &[Replay],
) -> Match
    requires line { IsLine history.now.processes line.now }
    requires told { IfSome received
        (λ flags. AreTold history.now.processes line.now
        (events_before history.now.processes line.now) flags.now) }
    ensures left { Leaves (replays_due history.now.processes line.now) replays.now
        (drop result.found replays.now) }
    ensures within { result.found ≤ length replays.now }
    ensures among { result.found ≤ length (replays_due history.now.processes line.now) }
    ensures whole { IsTrue result.whole
        ↔ (result.found ≡ length (replays_due history.now.processes line.now)) }
{
    let mut cursor = ReplayCursor::new();
    let mut found = 0;
    let mut whole = true;
    'due: loop {
        match next_due(history, line, received, &mut cursor) {
            Some(due) => {
                if is_at(replays, found, &due) {
                    found += 1;
                } else {
                    whole = false;
                }
            }
            None => return Match { found, whole },
        }
    }
}

// Whether a message is in transit at the line.
fn is_in_transit(history: &History, line: &Line, message: &MsgName) -> bool
    requires { IsLine history.now.processes line.now }
    ensures { IsTrue result ↔ IsInTransit history.now.processes line.now message.now }
{
    if !is_sent_before(history, line, message) {
        return false;
    }
    match history.addressee(message) {
        Some(to) => !is_received(history, line, to, message),
        None => true,
    }
}

// Whether a message is one that is due, as it is sent again.
fn is_due(history: &History, line: &Line, replay: &Replay) -> bool
    requires { IsLine history.now.processes line.now }
    ensures { IsTrue result
        ↔ Contains (replays_due history.now.processes line.now) replay.now }
{
    let mut cursor = ReplayCursor::new();
    'due: loop {
        match next_replay(history, line, &mut cursor) {
            Some(due) => {
                if is_replay(replay, &due) {
                    return true;
                }
            }
            None => return false,
        }
    }
}

// What is wrong with a message that does not follow those before it.
fn fault_of_replay(history: &History, line: &Line, replay: &Replay) -> FaultCode
    requires { IsLine history.now.processes line.now }
    ensures { (replays : List Replay)
        → (ArePartOf replays (replays_due history.now.processes line.now) → ⊥)
        → IsReplayFault history.now.processes line.now replays replay.now result }
{
    if !is_in_transit(history, line, &replay.message) {
        return FaultCode::NotInTransit;
    }
    if !is_due(history, line, replay) {
        return FaultCode::ReplayDiffers;
    }
    FaultCode::ReplayRepeated
}

// Tests the messages that are sent again: by flags that tell what is received, where there are
// some.
fn check_by(
    history: &History,
    line: &Line,
    received: Option<&ReceivedFlags>,
    replays: &[Replay],
) -> Result<(), CertFault>
    requires line { IsLine history.now.processes line.now }
    requires told { IfSome received
        (λ flags. AreTold history.now.processes line.now
        (events_before history.now.processes line.now) flags.now) }
    ensures ok { IsOk result ↔ (replays.now ≡ replays_due history.now.processes line.now) }
    ensures fault { IfErr result
        (IsFaultOfReplays history.now.processes line.now replays.now) }
{
    // Its limits bound the number of messages in transit.
    let _n = history.n();
    let Match { found, whole } = find_replays(history, line, received, replays);
    if found < replays.len() {
        return Err(CertFault {
            entry: Some(found as u32),
            code: fault_of_replay(history, line, &replays[found]),
        });
    }
    if !whole {
        return Err(CertFault {
            entry: None,
            code: FaultCode::ReplayMissing,
        });
    }
    Ok(())
}

/// Tests the messages that are sent again, one after another, and last whether one is missing.
///
/// Where the flags that are lent are enough, what is received before the line is marked there.
/// Otherwise a receipt is looked up for each send.
pub(crate) fn check_replays(
    history: &History,
    line: &Line,
    replays: &[Replay],
    flags: &mut ReceivedFlags,
) -> Result<(), CertFault>
    requires { IsLine history.now.processes line.now }
    ensures ok { IsOk result ↔ (replays.now ≡ replays_due history.now.processes line.now) }
    ensures fault { IfErr result
        (IsFaultOfReplays history.now.processes line.now replays.now) }
{
    if !flags.is_whole(history, line) {
        return check_by(history, line, None, replays);
    }
    flags.mark(history, line);
    check_by(history, line, Some(flags), replays)
}

//! The check of a round: as an event, and on a tape.
ghost use Rattle.std.specs.Prelude.{◌≡◌, Some};
ghost use Rattle.line_tape.specs.declared.events.Event.TheVariants.{Check};
ghost use Rattle.line_tape.specs.Rounds.{has_check_of, is_check_of};
ghost use Rattle.line_tape.specs.Shown.{event_of_ref};

use line_tape::{Event, EventRef, State, Tape};

/// The check of a round.
pub(crate) fn round_event(state: State, round: u32) -> Event
    ensures { result ≡ Check state (Some round) }
{
    Event::Check {
        state,
        round: Some(round),
    }
}

/// Whether an event is the check of a round.
fn is_check(event: &EventRef<'_>, r: u32) -> bool
    ensures { result ≡ is_check_of r (event_of_ref event.now) }
{
    match event {
        EventRef::Send { .. } => false,
        EventRef::Recv { .. } => false,
        EventRef::Check { round: None, .. } => false,
        EventRef::Check {
            round: Some(round),
            ..
        } => *round == r,
        EventRef::Mark { .. } => false,
    }
}

/// Whether a tape has the check of a round. It looks at each event.
pub(crate) fn has_check(tape: &Tape, r: u32) -> bool
    ensures { result ≡ has_check_of r tape.now.events }
{
    for i in 0..tape.len() {
        if is_check(&tape.event(i), r) {
            return true;
        }
    }
    false
}

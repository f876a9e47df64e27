//! Where the bytes and the states of events begin.
ghost use Rattle.std.specs.Prelude.{◌≡◌, ◌≤◌};
ghost use Rattle.line_tape.specs.Laid.{first_byte, first_state};

use super::KeptEvent;

/// Where the bytes of the first body or small state of these events stand, or `all` where they have
/// none.
pub(super) fn bytes_before(events: &[KeptEvent], all: usize) -> usize
    ensures { result ≡ first_byte events.now all }
{
    for i in 0..events.len() {
        match &events[i] {
            KeptEvent::Send { start, .. } => return *start as usize,
            KeptEvent::Recv { .. } => {}
            KeptEvent::Check { start, .. } => return *start as usize,
            KeptEvent::LargeCheck { .. } => {}
            KeptEvent::Mark { .. } => {}
        }
    }
    all
}

/// How many large states stand before those of these events, of `all` that there are up to their
/// end. Where there is none, it looks at no event.
pub(super) fn states_before(events: &[KeptEvent], all: usize) -> usize
    requires { first_state events.now all ≤ all }
    ensures { result ≡ first_state events.now all }
{
    if all == 0 {
        return 0;
    }
    for i in 0..events.len() {
        match &events[i] {
            KeptEvent::Send { .. } => {}
            KeptEvent::Recv { .. } => {}
            KeptEvent::Check { .. } => {}
            KeptEvent::LargeCheck { before, .. } => return *before as usize,
            KeptEvent::Mark { .. } => {}
        }
    }
    all
}

//! What a restart leaves of the events that are kept.
ghost use Rattle.std.specs.Prelude.{◌≡◌, ◌≤◌, if◌then◌else◌, All, None, Some, take, vec_capacity};
ghost use Rattle.std.specs.Prelude.{vec_len};
ghost use Rattle.std.specs.List.{filter_map};
ghost use Rattle.line_tape.specs.Laid.{restarted_kept};

use super::KeptEvent;

/// Takes the round off a check, and tells whether the event stays: marks don't.
fn restart_event(event: &mut KeptEvent) -> bool
    ensures { restarted_kept event.old ≡ (if result then Some event.new else None) }
{
    match event {
        KeptEvent::Send { .. } => true,
        KeptEvent::Recv { .. } => true,
        KeptEvent::Check { of_round, .. } => {
            *of_round = false;
            true
        }
        KeptEvent::LargeCheck { round, .. } => {
            *round = None;
            true
        }
        KeptEvent::Mark { .. } => false,
    }
}

/// Takes marks out and the rounds off checks, where a restart leaves the first `settled` events as
/// they are.
pub(super) fn restart_events(events: &mut Vec<KeptEvent>, settled: usize)
    requires within { settled ≤ vec_len events.old }
    requires settled { All (λ event. restarted_kept event ≡ Some event)
        (take settled events.old.items) }
    ensures items { events.new.items ≡ filter_map restarted_kept events.old.items }
    ensures few { vec_len events.new ≤ vec_len events.old }
    ensures capacity { vec_capacity events.new ≡ vec_capacity events.old }
{
    let mut end = settled;
    for i in settled..events.len() {
        if restart_event(&mut events[i]) {
            events.swap(i, end);
            end += 1;
        }
    }
    events.truncate(end);
}

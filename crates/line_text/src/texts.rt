//! The texts of what is left from a floor on, as a machine that lets go writes them: of version 4
//! where a check or a send was let go.

ghost use Rattle.std.specs.Prelude.{◌≡◌, ◌++◌, length};
ghost use Rattle.line_text.specs.Answers as spec;
ghost use Rattle.line_claims.specs.Records.{in_order, line_claim, version_of, whole_claim};
ghost use Rattle.line_devices.specs.Devices.{Outputs};
ghost use Rattle.line_fields.specs.Texts.{records_text};
ghost use Rattle.line_tape.specs.Line.{IsLine};

use line_claims::{
    ClaimRef, FloorRef, earliest_version, put_answer, put_answer_from, put_check_text,
    put_check_text_from, put_history, put_history_from,
};
use line_devices::{DeviceFault, Sink};
use line_fields::RecordWriter;
use line_live::{Live, OwnedFloor};
use line_tape::History;

// Whether one of some numbers is not 0.
fn has_some(numbers: &[u32]) -> bool
    ensures { result ≡ spec.has_some numbers.now }
{
    for i in 0..numbers.len() {
        if numbers[i] != 0 {
            return true;
        }
    }
    false
}

// Whether a check or a send stands before a floor.
fn is_above(floor: &OwnedFloor) -> bool
    ensures { result ≡ spec.is_above floor.now }
{
    has_some(floor.checks()) || has_some(floor.counts())
}

/// What stands before a floor, lent.
pub(crate) fn floor_ref(floor: &OwnedFloor) -> FloorRef<'_>
    ensures checks { result.checks.now ≡ floor.now.checks }
    ensures sends { result.sends.now ≡ floor.now.sends }
{
    FloorRef {
        checks: floor.checks(),
        sends: floor.counts(),
    }
}

/// What was let go, lent.
pub(crate) fn floor_lent(live: &Live) -> FloorRef<'_>
    ensures checks { result.checks.now ≡ live.now.floor.checks }
    ensures sends { result.sends.now ≡ live.now.floor.sends }
{
    floor_ref(live.floor())
}

/// Writes the history text of what is left of a history from a floor on, after what a writer holds:
/// of version 4 where a check or a send was let go.
///
/// It takes no memory, and fails only where the sink fails.
pub fn put_left_history<K: Sink>(
    sink: &mut K,
    writer: &mut RecordWriter,
    floor: &OwnedFloor,
    history: &History,
) -> Result<(), DeviceFault>
    ensures { Outputs result (K.taken sink.old) (K.taken sink.new) (K.faults sink.old)
        (K.faults sink.new) writer.new
        (writer.old
        ++ records_text
        (spec.shown_records (spec.floors_above (length history.now.processes) floor.now)
        history.now.processes)) }
{
    if is_above(floor) {
        return put_history_from(sink, writer, &floor_ref(floor), history);
    }
    put_history(sink, writer, earliest_version(history.n()), history)
}

/// Writes the check text of what is left of a history from a floor on and a claim on it, after what
/// a writer holds: of version 4 where a check or a send was let go.
///
/// It takes no memory, and fails only where the sink fails.
pub fn put_left_claim<K: Sink>(
    sink: &mut K,
    writer: &mut RecordWriter,
    floor: &OwnedFloor,
    history: &History,
    claim: &ClaimRef<'_>,
) -> Result<(), DeviceFault>
    ensures { Outputs result (K.taken sink.old) (K.taken sink.new) (K.faults sink.old)
        (K.faults sink.new) writer.new
        (writer.old
        ++ records_text
        (spec.claimed_records (version_of (in_order history.now.processes claim.now.marks.now))
        (spec.floors_above (length history.now.processes) floor.now) history.now.processes
        (line_claim (in_order history.now.processes claim.now.marks.now) claim.now.failed.now
        claim.now.line.now claim.now.certificate.now))) }
{
    if is_above(floor) {
        return put_check_text_from(sink, writer, &floor_ref(floor), history, claim);
    }
    put_check_text(sink, writer, history, claim)
}

/// Writes the history text of what a machine keeps.
pub(crate) fn put_shown<K: Sink>(
    sink: &mut K,
    writer: &mut RecordWriter,
    live: &Live,
) -> Result<(), DeviceFault>
    ensures { Outputs result (K.taken sink.old) (K.taken sink.new) (K.faults sink.old)
        (K.faults sink.new) writer.new
        (writer.old
        ++ records_text (spec.shown_records (spec.floors_gone live.now) live.now.kept.history)) }
{
    put_left_history(sink, writer, live.floor(), live.kept().history())
}

/// Writes the check text of what a machine keeps and a claim on it.
pub(crate) fn put_claimed<K: Sink>(
    sink: &mut K,
    writer: &mut RecordWriter,
    live: &Live,
    claim: &ClaimRef<'_>,
) -> Result<(), DeviceFault>
    ensures { Outputs result (K.taken sink.old) (K.taken sink.new) (K.faults sink.old)
        (K.faults sink.new) writer.new
        (writer.old
        ++ records_text
        (spec.claimed_records
        (version_of (in_order live.now.kept.history claim.now.marks.now))
        (spec.floors_gone live.now) live.now.kept.history
        (line_claim (in_order live.now.kept.history claim.now.marks.now) claim.now.failed.now
        claim.now.line.now claim.now.certificate.now))) }
{
    put_left_claim(sink, writer, live.floor(), live.kept().history(), claim)
}

/// Writes the check text of what a machine keeps, and a claim on it with the whole answer.
pub(crate) fn put_judged<K: Sink>(
    sink: &mut K,
    writer: &mut RecordWriter,
    live: &Live,
    claim: &ClaimRef<'_>,
) -> Result<(), DeviceFault>
    requires { IsLine live.now.kept.history claim.now.line.now }
    ensures { Outputs result (K.taken sink.old) (K.taken sink.new) (K.faults sink.old)
        (K.faults sink.new) writer.new
        (writer.old
        ++ records_text
        (spec.claimed_records 3 (spec.floors_gone live.now) live.now.kept.history
        (whole_claim live.now.kept.history
        (in_order live.now.kept.history claim.now.marks.now) claim.now.failed.now
        claim.now.line.now claim.now.certificate.now))) }
{
    let history = live.kept().history();
    if is_above(live.floor()) {
        return put_answer_from(sink, writer, &floor_lent(live), history, claim);
    }
    put_answer(sink, writer, history, claim)
}

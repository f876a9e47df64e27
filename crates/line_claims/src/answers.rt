//! The right answer to a recovery, written record by record, and claims on what is left.

ghost use Rattle.std.specs.Prelude.{◌≡◌, ◌<◌, ◌++◌, length, map};
ghost use Rattle.line_check.specs.Answers.{replay_of_ref, replays_due, start_due, starts_due};
ghost use Rattle.line_devices.specs.Devices.{Outputs};
ghost use Rattle.line_fields.specs.Outlets.{field_text};
ghost use Rattle.line_fields.specs.Texts.{record_text, records_text};
ghost use Rattle.line_tape.specs.Front.{HasChoice};
ghost use Rattle.line_tape.specs.Line.{IsLine};
ghost use Rattle.line_claims.specs.declared.versions.TheConstants.{LAST_CHECK_VERSION};
ghost use Rattle.line_claims.specs.Records as spec;

use crate::floors::FloorRef;
use crate::judgements::{ClaimRef, put_claim};
use crate::versions::ANSWER_VERSION;
use crate::writers::{put_history, put_history_from};
use line_check::{ReplayCursor, ReplayRef, next_replay};
use line_devices::{DeviceFault, Sink};
use line_fields::{Field, RecordWriter, put_ending, put_fields, put_numbers};
use line_names::{Choice, Line, ProcId};
use line_tape::History;

// Writes `start,P,INC,HEX` of a process that goes on from its choice of the line.
fn put_start<K: Sink>(
    sink: &mut K,
    writer: &mut RecordWriter,
    history: &History,
    line: &Line,
    p: ProcId,
) -> Result<(), DeviceFault>
    requires line { IsLine history.now.processes line.now }
    requires process { p < length history.now.processes }
    ensures { Outputs result (K.taken sink.old) (K.taken sink.new) (K.faults sink.old)
        (K.faults sink.new) writer.new
        (writer.old
        ++ record_text (spec.start_record p (start_due history.now.processes line.now p))) }
{
    let at = p.get();
    let inc = history.incarnation(p);
    match line.at(p) {
        Choice::Check(check) => {
            let numbers = [at as u64, inc as u64 + 1];
            let state = history.tape(p).state(check);
            put_ending(sink, writer, b"start", &numbers, Field::Bytes(state))
        }
        Choice::Now => {
            let numbers = [at as u64, inc as u64];
            put_ending(sink, writer, b"start", &numbers, Field::Word(b"-"))
        }
    }
}

// Writes where each process of a history goes on from the line.
fn put_starts<K: Sink>(
    sink: &mut K,
    writer: &mut RecordWriter,
    history: &History,
    line: &Line,
) -> Result<(), DeviceFault>
    requires { IsLine history.now.processes line.now }
    ensures { Outputs result (K.taken sink.old) (K.taken sink.new) (K.faults sink.old)
        (K.faults sink.new) writer.new
        (writer.old
        ++ records_text (spec.starts_records 0 (starts_due history.now.processes line.now))) }
{
    let n = history.n();
    for value in 0..n {
        let Ok(p) = ProcId::try_new(value, n) else {
            unreachable!()
        };
        put_start(sink, writer, history, line, p)?;
    }
    Ok(())
}

// Writes `replay,FROM,INC,NUMBER,TO,PLACE,HEX`.
fn put_replay<K: Sink>(
    sink: &mut K,
    writer: &mut RecordWriter,
    replay: &ReplayRef<'_>,
) -> Result<(), DeviceFault>
    ensures { Outputs result (K.taken sink.old) (K.taken sink.new) (K.faults sink.old)
        (K.faults sink.new) writer.new
        (writer.old ++ record_text (spec.full_replay_record (replay_of_ref replay.now))) }
{
    let from = replay.message.from.get();
    let to = replay.to.get();
    let numbers = [
        from as u64,
        replay.message.inc as u64,
        replay.message.number as u64,
        to as u64,
        replay.place as u64,
    ];
    put_ending(sink, writer, b"replay", &numbers, Field::Bytes(replay.body))
}

// Writes the messages in transit at the line, as they are sent again.
fn put_replays<K: Sink>(
    sink: &mut K,
    writer: &mut RecordWriter,
    history: &History,
    line: &Line,
) -> Result<(), DeviceFault>
    requires { IsLine history.now.processes line.now }
    ensures { Outputs result (K.taken sink.old) (K.taken sink.new) (K.faults sink.old)
        (K.faults sink.new) writer.new
        (writer.old
        ++ records_text
        (map spec.full_replay_record (replays_due history.now.processes line.now))) }
{
    let mut cursor = ReplayCursor::new();
    'due: loop {
        match next_replay(history, line, &mut cursor) {
            Some(replay) => put_replay(sink, writer, &replay)?,
            None => return Ok(()),
        }
    }
}

/// Writes a check text of version 3 after what a writer holds: a history, the claim on it, and what
/// a restart at its line asks for, which is where each process goes on, and the messages in transit
/// at the line, as they are sent again. So where the claim is right, the whole answer is.
///
/// It asks for no memory, and fails only where the sink fails; then a prefix of what was held and
/// of the check text is put. It asks once for a mark of each check, and looks once at each event
/// before the line.
pub fn put_answer<K: Sink>(
    sink: &mut K,
    writer: &mut RecordWriter,
    history: &History,
    claim: &ClaimRef<'_>,
) -> Result<(), DeviceFault>
    requires { IsLine history.now.processes claim.now.line.now }
    ensures { Outputs result (K.taken sink.old) (K.taken sink.new) (K.faults sink.old)
        (K.faults sink.new) writer.new
        (writer.old
        ++ records_text
        (spec.whole_answer_records history.now.processes
        (spec.in_order history.now.processes claim.now.marks.now) claim.now.failed.now
        claim.now.line.now claim.now.certificate.now)) }
{
    put_history(sink, writer, ANSWER_VERSION, history)?;
    put_claim(sink, writer, history, claim)?;
    put_starts(sink, writer, history, claim.line)?;
    put_replays(sink, writer, history, claim.line)?;
    put_numbers(sink, writer, b"end", &[])
}

/// Writes a check text of version 4 after what a writer holds: what is left of a history, what was
/// let go before it, and the claim on what is left, in its numbers.
///
/// It fails as `put_check_text` does, and takes no memory either.
pub fn put_check_text_from<K: Sink>(
    sink: &mut K,
    writer: &mut RecordWriter,
    floor: &FloorRef<'_>,
    history: &History,
    claim: &ClaimRef<'_>,
) -> Result<(), DeviceFault>
    ensures { Outputs result (K.taken sink.old) (K.taken sink.new) (K.faults sink.old)
        (K.faults sink.new) writer.new
        (writer.old
        ++ records_text
        (spec.check_records_in LAST_CHECK_VERSION
        (spec.floors_at (length history.now.processes) floor.now.checks.now floor.now.sends.now)
        history.now.processes
        (spec.line_claim (spec.in_order history.now.processes claim.now.marks.now)
        claim.now.failed.now claim.now.line.now claim.now.certificate.now))) }
{
    put_history_from(sink, writer, floor, history)?;
    put_claim(sink, writer, history, claim)?;
    put_numbers(sink, writer, b"end", &[])
}

/// Writes a check text of version 4 as `put_check_text_from` does, with what a restart at its line
/// asks for, so that where the claim is right, the whole answer is.
///
/// It fails as `put_answer` does, and takes no memory either.
pub fn put_answer_from<K: Sink>(
    sink: &mut K,
    writer: &mut RecordWriter,
    floor: &FloorRef<'_>,
    history: &History,
    claim: &ClaimRef<'_>,
) -> Result<(), DeviceFault>
    requires { IsLine history.now.processes claim.now.line.now }
    ensures { Outputs result (K.taken sink.old) (K.taken sink.new) (K.faults sink.old)
        (K.faults sink.new) writer.new
        (writer.old
        ++ records_text
        (spec.check_records_in LAST_CHECK_VERSION
        (spec.floors_at (length history.now.processes) floor.now.checks.now floor.now.sends.now)
        history.now.processes
        (spec.whole_claim history.now.processes
        (spec.in_order history.now.processes claim.now.marks.now) claim.now.failed.now
        claim.now.line.now claim.now.certificate.now))) }
{
    put_history_from(sink, writer, floor, history)?;
    put_claim(sink, writer, history, claim)?;
    put_starts(sink, writer, history, claim.line)?;
    put_replays(sink, writer, history, claim.line)?;
    put_numbers(sink, writer, b"end", &[])
}

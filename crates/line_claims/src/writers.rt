//! Histories, written record by record.

ghost use Rattle.std.specs.Prelude.{◌<◌, ◌++◌, [], OnOk, length, map};
ghost use Rattle.std.specs.List.{AllByRecursion};
ghost use Rattle.line_devices.specs.Devices.{Outputs};
ghost use Rattle.line_fields.specs.Texts.{record_text, records_text};
ghost use Rattle.line_tape.specs.History.{process_at};
ghost use Rattle.line_tape.specs.Shown.{event_of_ref};
ghost use Rattle.line_claims.specs.Ranges.{AreRoundsInRange, FitsMemory, FitsProcess, FitsWords};
ghost use Rattle.line_claims.specs.Ranges.{IsHistoryInRange};
ghost use Rattle.line_claims.specs.Records as spec;
ghost use Rattle.line_claims.specs.declared.versions.TheConstants.{LAST_CHECK_VERSION};

use crate::floors::{FloorRef, put_floors};
use crate::spellings::{number_field, numbers_of};
use crate::versions::LAST_CHECK_VERSION;
use line_devices::{DeviceFault, Sink};
use line_fields::{Field, RecordWriter, put_ending, put_fields, put_numbers};
use line_names::{Choice, MsgName, ProcId};
use line_tape::{Event, EventRef, Events, History};

// Writes `send,TO,INC,HEX`.
fn put_send<K: Sink>(
    sink: &mut K,
    writer: &mut RecordWriter,
    to: ProcId,
    inc: u16,
    body: &[u8],
) -> Result<(), DeviceFault>
    ensures put { Outputs result (K.taken sink.old) (K.taken sink.new) (K.faults sink.old)
        (K.faults sink.new) writer.new
        (writer.old ++ record_text (spec.event_record (Event.Send to inc body.now))) }
    ensures fits { OnOk result (FitsWords (Event.Send to inc body.now)) }
{
    let place = to.get();
    let numbers = [place as u64, inc as u64];
    put_ending(sink, writer, b"send", &numbers, Field::Bytes(body))
}

// Writes `recv,FROM,INC,NUMBER`.
fn put_recv<K: Sink>(
    sink: &mut K,
    writer: &mut RecordWriter,
    message: MsgName,
) -> Result<(), DeviceFault>
    ensures put { Outputs result (K.taken sink.old) (K.taken sink.new) (K.faults sink.old)
        (K.faults sink.new) writer.new
        (writer.old ++ record_text (spec.event_record (Event.Recv message))) }
    ensures fits { OnOk result (FitsWords (Event.Recv message)) }
{
    put_numbers(sink, writer, b"recv", &numbers_of(message))
}

// Writes `check,HEX,ROUND`.
fn put_check<K: Sink>(
    sink: &mut K,
    writer: &mut RecordWriter,
    state: &[u8],
    round: Option<u32>,
) -> Result<(), DeviceFault>
    ensures put { Outputs result (K.taken sink.old) (K.taken sink.new) (K.faults sink.old)
        (K.faults sink.new) writer.new
        (writer.old ++ record_text (spec.event_record (Event.Check state.now round))) }
    ensures fits { OnOk result (FitsWords (Event.Check state.now round)) }
{
    let last = number_field(round);
    put_fields(sink, writer, b"check", &[Field::Bytes(state), last])
}

// Writes the record of an event: `send,TO,INC,HEX`, `recv,FROM,INC,NUMBER`, `check,HEX,ROUND` or
// `mark,FROM,ROUND`.
fn put_event<K: Sink>(
    sink: &mut K,
    writer: &mut RecordWriter,
    event: &EventRef<'_>,
) -> Result<(), DeviceFault>
    ensures put { Outputs result (K.taken sink.old) (K.taken sink.new) (K.faults sink.old)
        (K.faults sink.new) writer.new
        (writer.old ++ record_text (spec.event_record (event_of_ref event.now))) }
    ensures fits { OnOk result (FitsWords (event_of_ref event.now)) }
{
    match event {
        EventRef::Send { to, inc, body } => put_send(sink, writer, *to, *inc, body),
        EventRef::Recv { message } => put_recv(sink, writer, *message),
        EventRef::Check { state, round } => put_check(sink, writer, state, *round),
        EventRef::Mark { from, round } => {
            let place = from.get();
            put_numbers(sink, writer, b"mark", &[place as u64, *round as u64])
        }
    }
}

// Writes the records of events.
fn put_events<K: Sink>(
    sink: &mut K,
    writer: &mut RecordWriter,
    events: &Events<'_>,
) -> Result<(), DeviceFault>
    ensures put { Outputs result (K.taken sink.old) (K.taken sink.new) (K.faults sink.old)
        (K.faults sink.new) writer.new
        (writer.old ++ records_text (map spec.event_record events.now)) }
    ensures fits { OnOk result (AllByRecursion FitsWords events.now) }
{
    for i in 0..events.len() {
        put_event(sink, writer, &events.at(i))?;
    }
    Ok(())
}

// Writes `tape,P,INC` for a process, and the records of the events of its tape.
fn put_tape_of<K: Sink>(
    sink: &mut K,
    writer: &mut RecordWriter,
    history: &History,
    p: ProcId,
) -> Result<(), DeviceFault>
    requires { p < length history.now.processes }
    ensures put { Outputs result (K.taken sink.old) (K.taken sink.new) (K.faults sink.old)
        (K.faults sink.new) writer.new
        (writer.old ++ records_text (spec.tape_records p (process_at history.now.processes p))) }
    ensures fits { OnOk result (FitsProcess (process_at history.now.processes p)) }
{
    let inc = history.incarnation(p);
    let events = history.tape(p).front(Choice::Now);
    let place = p.get();
    put_numbers(sink, writer, b"tape", &[place as u64, inc as u64])?;
    put_events(sink, writer, &events)
}

// Writes the records of the tapes of a history.
fn put_tapes<K: Sink>(
    sink: &mut K,
    writer: &mut RecordWriter,
    history: &History,
) -> Result<(), DeviceFault>
    ensures put { Outputs result (K.taken sink.old) (K.taken sink.new) (K.faults sink.old)
        (K.faults sink.new) writer.new
        (writer.old ++ records_text (spec.tapes_records 0 history.now.processes)) }
    ensures fits { OnOk result (FitsMemory history.now.processes) }
    ensures range { OnOk result
        (AreRoundsInRange history.now.processes → IsHistoryInRange history.now.processes) }
{
    let n = history.n();
    for p in 0..n {
        let Ok(p) = ProcId::try_new(p, n) else {
            unreachable!()
        };
        put_tape_of(sink, writer, history, p)?;
    }
    Ok(())
}

/// Writes the records of a history in a text of that version, where nothing was let go, after what
/// a writer holds.
///
/// It asks for no memory, and fails only where the sink fails; then a prefix of what was held and
/// of the records is put. What was written stood in memory, so it is known to be in the ranges of
/// its fields where its rounds are.
pub fn put_history<K: Sink>(
    sink: &mut K,
    writer: &mut RecordWriter,
    version: u32,
    history: &History,
) -> Result<(), DeviceFault>
    ensures put { Outputs result (K.taken sink.old) (K.taken sink.new) (K.faults sink.old)
        (K.faults sink.new) writer.new
        (writer.old ++ records_text (spec.front_records version [] history.now.processes)) }
    ensures fits { OnOk result (FitsMemory history.now.processes) }
    ensures range { OnOk result
        (AreRoundsInRange history.now.processes → IsHistoryInRange history.now.processes) }
{
    let n = history.n();
    put_numbers(sink, writer, b"history", &[version as u64, n as u64])?;
    put_tapes(sink, writer, history)
}

/// Writes the records of what is left of a history, in a text of version 4, after what a writer
/// holds: what was let go of each process before it, and then its tapes, in numbers of its own.
///
/// It fails as `put_history` does, and takes no memory either.
pub fn put_history_from<K: Sink>(
    sink: &mut K,
    writer: &mut RecordWriter,
    floor: &FloorRef<'_>,
    history: &History,
) -> Result<(), DeviceFault>
    ensures put { Outputs result (K.taken sink.old) (K.taken sink.new) (K.faults sink.old)
        (K.faults sink.new) writer.new
        (writer.old
        ++ records_text
        (spec.front_records LAST_CHECK_VERSION
        (spec.floors_at (length history.now.processes) floor.now.checks.now floor.now.sends.now)
        history.now.processes)) }
    ensures fits { OnOk result (FitsMemory history.now.processes) }
    ensures range { OnOk result
        (AreRoundsInRange history.now.processes → IsHistoryInRange history.now.processes) }
{
    let n = history.n();
    let numbers = [LAST_CHECK_VERSION as u64, n as u64];
    put_numbers(sink, writer, b"history", &numbers)?;
    put_floors(sink, writer, n, floor)?;
    put_tapes(sink, writer, history)
}

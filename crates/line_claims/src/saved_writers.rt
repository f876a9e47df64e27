//! A saved machine, written part by part.

ghost use Rattle.std.specs.Prelude.{◌≡◌, ◌++◌, length};
ghost use Rattle.line_devices.specs.Devices.{Outputs};
ghost use Rattle.line_fields.specs.Texts.{record_text, records_text};
ghost use Rattle.line_claims.specs.Records.{floors_at, in_order};
ghost use Rattle.line_claims.specs.Saved as spec;

use crate::floors::FloorRef;
use crate::marks::put_marks;
use crate::writers::put_history_from;
use line_devices::{DeviceFault, Sink};
use line_fields::{Field, RecordWriter, add_field, begin_record, close_record, put_numbers};
use line_tape::{History, Marks};

/// Writes what a saved machine begins with, after what a writer holds: what was let go of each
/// process, the tapes that are left, in numbers of their own, the damaged checks and the bars.
/// `put_saved_round` follows for each listed round, and then `put_saved_end`.
///
/// It fails as `put_history` does, and takes no memory either. It asks once for a mark of each
/// check.
pub fn put_saved_front<K: Sink>(
    sink: &mut K,
    writer: &mut RecordWriter,
    floor: &FloorRef<'_>,
    history: &History,
    marks: &Marks,
) -> Result<(), DeviceFault>
    ensures { Outputs result (K.taken sink.old) (K.taken sink.new) (K.faults sink.old)
        (K.faults sink.new) writer.new
        (writer.old
        ++ records_text
        (spec.saved_front
        (floors_at (length history.now.processes) floor.now.checks.now floor.now.sends.now)
        history.now.processes (in_order history.now.processes marks.now))) }
{
    put_history_from(sink, writer, floor, history)?;
    put_marks(sink, writer, history, marks)
}

/// Writes `round,R,C0,C1,..` after what a writer holds: a listed round of a saved machine, with its
/// check of each process. Rounds come by their numbers.
///
/// It asks for no memory, and fails only where the sink fails.
pub fn put_saved_round<K: Sink>(
    sink: &mut K,
    writer: &mut RecordWriter,
    number: u32,
    checks: &[u32],
) -> Result<(), DeviceFault>
    ensures { Outputs result (K.taken sink.old) (K.taken sink.new) (K.faults sink.old)
        (K.faults sink.new) writer.new
        (writer.old ++ record_text (spec.saved_round_record number checks.now)) }
{
    begin_record(sink, writer, b"round", &[number as u64])?;
    for i in 0..checks.len() {
        add_field(sink, writer, Field::Number(checks[i] as u64))?;
    }
    close_record(sink, writer)
}

/// Writes `saved,ROUND` after what a writer holds: the last round that a saved machine has begun,
/// or 0. It is the last record of a saved machine.
///
/// It asks for no memory, and fails only where the sink fails.
pub fn put_saved_end<K: Sink>(
    sink: &mut K,
    writer: &mut RecordWriter,
    last_round: u32,
) -> Result<(), DeviceFault>
    ensures { Outputs result (K.taken sink.old) (K.taken sink.new) (K.faults sink.old)
        (K.faults sink.new) writer.new
        (writer.old ++ record_text (spec.saved_end_record last_round)) }
{
    put_numbers(sink, writer, b"saved", &[last_round as u64])
}

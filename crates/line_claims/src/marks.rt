//! The marks of a history, written record by record: its damaged checks and its bars.

ghost use Rattle.std.specs.Prelude.{◌++◌, map};
ghost use Rattle.line_devices.specs.Devices.{Outputs};
ghost use Rattle.line_fields.specs.Texts.{records_text};
ghost use Rattle.line_claims.specs.Records as spec;
ghost use Rattle.line_tape.specs.Views.{bar_at};

use line_devices::{DeviceFault, Sink};
use line_fields::{RecordWriter, put_numbers};
use line_names::ProcId;
use line_tape::{History, Marks};

// Writes `damage,P,C` for each damaged check of a process, in order, of its checks up to the last
// one.
fn put_damages_of<K: Sink>(
    sink: &mut K,
    writer: &mut RecordWriter,
    marks: &Marks,
    p: ProcId,
    last: u32,
) -> Result<(), DeviceFault>
    ensures { Outputs result (K.taken sink.old) (K.taken sink.new) (K.faults sink.old)
        (K.faults sink.new) writer.new
        (writer.old
        ++ records_text (map (spec.damage_record p) (spec.damaged_checks marks.now p last))) }
{
    let place = p.get();
    for before in 0..last {
        let check = before + 1;
        if marks.has(p, check) {
            put_numbers(sink, writer, b"damage", &[place as u64, check as u64])?;
        }
    }
    Ok(())
}

// Writes `damage,P,C` for each damaged check of a history, by process and then check.
fn put_damages<K: Sink>(
    sink: &mut K,
    writer: &mut RecordWriter,
    history: &History,
    marks: &Marks,
) -> Result<(), DeviceFault>
    ensures { Outputs result (K.taken sink.old) (K.taken sink.new) (K.faults sink.old)
        (K.faults sink.new) writer.new
        (writer.old
        ++ records_text
        (spec.damages_records 0 (spec.in_order history.now.processes marks.now).damaged)) }
{
    let n = history.n();
    for value in 0..n {
        let Ok(p) = ProcId::try_new(value, n) else {
            unreachable!()
        };
        let last = history.tape(p).checks();
        put_damages_of(sink, writer, marks, p, last)?;
    }
    Ok(())
}

// Writes `bar,P,C` where process P is barred at check C, and nothing where it isn't barred.
fn put_bar_of<K: Sink>(
    sink: &mut K,
    writer: &mut RecordWriter,
    marks: &Marks,
    p: ProcId,
) -> Result<(), DeviceFault>
    ensures { Outputs result (K.taken sink.old) (K.taken sink.new) (K.faults sink.old)
        (K.faults sink.new) writer.new
        (writer.old ++ records_text (spec.bar_records p (bar_at marks.now p))) }
{
    match marks.bar_of(p) {
        Some(bar) => {
            let place = p.get();
            put_numbers(sink, writer, b"bar", &[place as u64, bar as u64])
        }
        None => Ok(()),
    }
}

// Writes `bar,P,C` for each process of a history that is barred.
fn put_bars<K: Sink>(
    sink: &mut K,
    writer: &mut RecordWriter,
    history: &History,
    marks: &Marks,
) -> Result<(), DeviceFault>
    ensures { Outputs result (K.taken sink.old) (K.taken sink.new) (K.faults sink.old)
        (K.faults sink.new) writer.new
        (writer.old
        ++ records_text
        (spec.bars_records 0 (spec.in_order history.now.processes marks.now).bars)) }
{
    let n = history.n();
    for value in 0..n {
        let Ok(p) = ProcId::try_new(value, n) else {
            unreachable!()
        };
        put_bar_of(sink, writer, marks, p)?;
    }
    Ok(())
}

/// Writes the marks of a history: the damaged checks, and the bars.
pub(crate) fn put_marks<K: Sink>(
    sink: &mut K,
    writer: &mut RecordWriter,
    history: &History,
    marks: &Marks,
) -> Result<(), DeviceFault>
    ensures { Outputs result (K.taken sink.old) (K.taken sink.new) (K.faults sink.old)
        (K.faults sink.new) writer.new
        (writer.old
        ++ records_text (spec.marks_records (spec.in_order history.now.processes marks.now))) }
{
    put_damages(sink, writer, history, marks)?;
    put_bars(sink, writer, history, marks)
}

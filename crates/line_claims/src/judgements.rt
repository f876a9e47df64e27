//! Claims, written record by record.

ghost use Rattle.std.specs.Prelude.{◌≡◌, ◌≤◌, ◌++◌, ◌∷◌, [], length, map};
ghost use Rattle.line_devices.specs.Devices.{Outputs};
ghost use Rattle.line_names.specs.declared.limits.TheConstants.{MOST_PROCESSES};
ghost use Rattle.line_fields.specs.Texts.{record_text, records_text};
ghost use Rattle.line_claims.specs.Records as spec;

use crate::marks::put_marks;
use crate::spellings::choice_field;
use crate::versions::earliest_version;
use crate::writers::put_history;
use line_devices::{DeviceFault, Sink};
use line_fields::{
    Field, RecordWriter, add_field, begin_record, close_record, put_fields, put_numbers,
};
use line_names::{Choice, Line, MOST_PROCESSES, Passed, ProcId, ProcSet};
use line_tape::{History, Marks};

/// A claim on a history, lent: that this is the latest line, where these checks are damaged,
/// processes are barred at these checks and these failed, and that this certificate shows it.
#[derive(Clone, Copy)]
pub struct ClaimRef<'a> {
    /// The checks that are damaged, and those at which processes are barred.
    pub marks: &'a Marks,
    /// The processes that failed.
    pub failed: &'a ProcSet,
    /// The line.
    pub line: &'a Line,
    /// The entries of its certificate, in the order in which they are to be tested.
    pub certificate: &'a [Passed],
}

/// Writes `failed,P,..`: the processes of a set, of the first `n`, in order.
fn put_failed<K: Sink>(
    sink: &mut K,
    writer: &mut RecordWriter,
    n: u32,
    failed: &ProcSet,
) -> Result<(), DeviceFault>
    requires { n ≤ MOST_PROCESSES }
    ensures { Outputs result (K.taken sink.old) (K.taken sink.new) (K.faults sink.old)
        (K.faults sink.new) writer.new
        (writer.old ++ record_text (spec.failed_record n failed.now)) }
{
    begin_record(sink, writer, b"failed", &[])?;
    for value in 0..n {
        let Ok(p) = ProcId::try_new(value, n) else {
            unreachable!()
        };
        if failed.has(p) {
            add_field(sink, writer, Field::Number(value as u64))?;
        }
    }
    close_record(sink, writer)
}

/// Writes `line,CHOICE,..`.
fn put_line<K: Sink>(
    sink: &mut K,
    writer: &mut RecordWriter,
    line: &Line,
) -> Result<(), DeviceFault>
    ensures { Outputs result (K.taken sink.old) (K.taken sink.new) (K.faults sink.old)
        (K.faults sink.new) writer.new (writer.old ++ record_text (spec.line_record line.now)) }
{
    let choices = line.choices();
    begin_record(sink, writer, b"line", &[])?;
    for i in 0..choices.len() {
        let field = choice_field(choices[i]);
        add_field(sink, writer, field)?;
    }
    close_record(sink, writer)
}

// Writes `pass,P,CHOICE,FROM,INC,NUMBER`, whatever the choice is.
#[cold]
#[inline(never)]
fn put_any_pass<K: Sink>(
    sink: &mut K,
    writer: &mut RecordWriter,
    entry: &Passed,
) -> Result<(), DeviceFault>
    ensures { Outputs result (K.taken sink.old) (K.taken sink.new) (K.faults sink.old)
        (K.faults sink.new) writer.new (writer.old ++ record_text (spec.pass_record entry.now)) }
{
    let at = entry.at.get();
    let choice = choice_field(entry.choice);
    let from = entry.message.from.get();
    let fields = [
        Field::Number(at as u64),
        choice,
        Field::Number(from as u64),
        Field::Number(entry.message.inc as u64),
        Field::Number(entry.message.number as u64),
    ];
    put_fields(sink, writer, b"pass", &fields)
}

/// Writes `pass,P,CHOICE,FROM,INC,NUMBER` after what a writer holds: an entry of a certificate.
///
/// It asks for no memory, and fails only where the sink fails.
pub fn put_pass<K: Sink>(
    sink: &mut K,
    writer: &mut RecordWriter,
    entry: &Passed,
) -> Result<(), DeviceFault>
    ensures { Outputs result (K.taken sink.old) (K.taken sink.new) (K.faults sink.old)
        (K.faults sink.new) writer.new (writer.old ++ record_text (spec.pass_record entry.now)) }
{
    let at = entry.at.get();
    let from = entry.message.from.get();
    let Choice::Check(check) = entry.choice else {
        return put_any_pass(sink, writer, entry);
    };
    let numbers = [
        at as u64,
        check as u64,
        from as u64,
        entry.message.inc as u64,
        entry.message.number as u64,
    ];
    put_numbers(sink, writer, b"pass", &numbers)
}

/// Writes the entries of a certificate.
fn put_passes<K: Sink>(
    sink: &mut K,
    writer: &mut RecordWriter,
    entries: &[Passed],
) -> Result<(), DeviceFault>
    ensures { Outputs result (K.taken sink.old) (K.taken sink.new) (K.faults sink.old)
        (K.faults sink.new) writer.new
        (writer.old ++ records_text (map spec.pass_record entries.now)) }
{
    for entry in entries {
        put_pass(sink, writer, entry)?;
    }
    Ok(())
}

/// Writes a claim on a history: its marks, who failed, its line and its certificate.
pub(crate) fn put_claim<K: Sink>(
    sink: &mut K,
    writer: &mut RecordWriter,
    history: &History,
    claim: &ClaimRef<'_>,
) -> Result<(), DeviceFault>
    ensures { Outputs result (K.taken sink.old) (K.taken sink.new) (K.faults sink.old)
        (K.faults sink.new) writer.new
        (writer.old
        ++ records_text
        (spec.marks_records (spec.in_order history.now.processes claim.now.marks.now)
        ++ (spec.failed_record (length history.now.processes) claim.now.failed.now
        ∷ spec.line_record claim.now.line.now ∷ map spec.pass_record claim.now.certificate.now))) }
{
    put_marks(sink, writer, history, claim.marks)?;
    put_failed(sink, writer, history.n(), claim.failed)?;
    put_line(sink, writer, claim.line)?;
    put_passes(sink, writer, claim.certificate)
}

// The version of a check text on these marks of a history: 2 where one of its processes is barred
// or it has more than 64 of them, and else 1. It asks once for the bar of each process.
fn version_of(history: &History, marks: &Marks) -> u32
    ensures { result ≡ spec.version_of (spec.in_order history.now.processes marks.now) }
{
    let n = history.n();
    for value in 0..n {
        let Ok(p) = ProcId::try_new(value, n) else {
            unreachable!()
        };
        if marks.bar_of(p).is_some() {
            return 2;
        }
    }
    earliest_version(n)
}

/// Writes a check text after what a writer holds: a history, and the claim on it. It is of version
/// 2 where a process is barred or there are more than 64, and else of version 1.
///
/// It asks for no memory, and fails only where the sink fails; then a prefix of what was held and
/// of the check text is put. It asks once for a mark of each check.
pub fn put_check_text<K: Sink>(
    sink: &mut K,
    writer: &mut RecordWriter,
    history: &History,
    claim: &ClaimRef<'_>,
) -> Result<(), DeviceFault>
    ensures { Outputs result (K.taken sink.old) (K.taken sink.new) (K.faults sink.old)
        (K.faults sink.new) writer.new
        (writer.old
        ++ records_text
        (spec.check_records history.now.processes
        (spec.line_claim (spec.in_order history.now.processes claim.now.marks.now)
        claim.now.failed.now claim.now.line.now claim.now.certificate.now))) }
{
    let version = version_of(history, claim.marks);
    put_history(sink, writer, version, history)?;
    put_claim(sink, writer, history, claim)?;
    put_numbers(sink, writer, b"end", &[])
}

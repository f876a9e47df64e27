//! The records that are written for a plan.

ghost use Rattle.std.specs.Prelude.{◌≡◌, ◌<◌, ◌++◌, length};
ghost use Rattle.line_collect.specs.Answers.{plan_records_with};
ghost use Rattle.line_collect.specs.LiveAnswers as spec;
ghost use Rattle.line_devices.specs.Devices.{Outputs};
ghost use Rattle.line_fields.specs.Texts.{record_text, records_text};
ghost use Rattle.line_tape.specs.Line.{IsLine};
ghost use Rattle.line_tape.specs.Restart.{HaveFurther};

use crate::live_collections::LiveCollection;
use line_devices::{DeviceFault, Sink};
use line_fields::{Field, RecordWriter, put_ending, put_fields, put_numbers};
use line_names::{Choice, Line, ProcId};
use line_plan::Plan;
use line_text::{put_certificate, put_replays};

// Writes `line,P,CHOICE,INC,HEX`: where a process would go on.
fn put_going_on<K: Sink>(
    sink: &mut K,
    writer: &mut RecordWriter,
    live: &LiveCollection,
    line: &Line,
    p: ProcId,
) -> Result<(), DeviceFault>
    requires process { p < length live.now.kept.history }
    requires line { IsLine live.now.kept.history line.now }
    requires further { HaveFurther live.now.kept.history line.now }
    ensures { Outputs result (K.taken sink.old) (K.taken sink.new) (K.faults sink.old)
        (K.faults sink.new) writer.new
        (writer.old ++ record_text (spec.live_going_on_record live.now line.now p)) }
{
    let history = live.kept().history();
    let place = p.get() as u64;
    let inc = u64::from(history.incarnation(p));
    match line.at(p) {
        Choice::Check(check) => {
            let state = Field::Bytes(history.tape(p).state(check));
            let told = live.told_check(p, check);
            put_ending(sink, writer, b"line", &[place, told as u64, inc + 1], state)
        }
        Choice::Now => {
            let fields = [
                Field::Number(place),
                Field::Word(b"now"),
                Field::Number(inc),
                Field::Word(b"-"),
            ];
            put_fields(sink, writer, b"line", &fields)
        }
    }
}

// Writes the line records of all processes.
fn put_all_going_on<K: Sink>(
    sink: &mut K,
    writer: &mut RecordWriter,
    live: &LiveCollection,
    line: &Line,
) -> Result<(), DeviceFault>
    requires line { IsLine live.now.kept.history line.now }
    requires further { HaveFurther live.now.kept.history line.now }
    ensures { Outputs result (K.taken sink.old) (K.taken sink.new) (K.faults sink.old)
        (K.faults sink.new) writer.new
        (writer.old ++ records_text (spec.live_going_on_records live.now line.now)) }
{
    let n = live.kept().history().n();
    for p in 0..n {
        let Ok(at) = ProcId::try_new(p, n) else {
            unreachable!()
        };
        put_going_on(sink, writer, live, line, at)?;
    }
    Ok(())
}

/// Writes the records of a plan after what a writer holds: where each process would go on, which
/// choices were passed over, and which messages are sent again. The first record begins with the
/// word. The line of the plan is one of what is kept, and its other names and numbers are written
/// as they stand.
pub(crate) fn put_plan_records<K: Sink>(
    sink: &mut K,
    writer: &mut RecordWriter,
    word: &[u8],
    live: &LiveCollection,
    plan: &Plan,
) -> Result<(), DeviceFault>
    requires line { IsLine live.now.kept.history plan.now.line }
    requires further { HaveFurther live.now.kept.history plan.now.line }
    ensures { Outputs result (K.taken sink.old) (K.taken sink.new) (K.faults sink.old)
        (K.faults sink.new) writer.new
        (writer.old
        ++ records_text
        (plan_records_with word.now (spec.live_going_on_records live.now plan.now.line)
        plan.now)) }
{
    let entries = plan.certificate.as_slice();
    let replays = plan.replays.as_slice();
    let numbers = [
        plan.sweeps as u64,
        entries.len() as u64,
        replays.len() as u64,
    ];
    put_numbers(sink, writer, word, &numbers)?;
    put_all_going_on(sink, writer, live, &plan.line)?;
    put_certificate(sink, writer, entries)?;
    put_replays(sink, writer, replays)
}

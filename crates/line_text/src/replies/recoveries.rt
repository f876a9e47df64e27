//! The records that are written for a recovery.

ghost use Rattle.std.specs.Prelude.{◌≡◌, ◌<◌, ◌++◌, ◌∷◌, [], None, codes, decimal, length};
ghost use Rattle.std.specs.Prelude.{slice_index_or};
ghost use Rattle.line_claims.specs.Records.{choice_text};
ghost use Rattle.line_devices.specs.Devices.{Outputs};
ghost use Rattle.line_names.specs.Lines.{choice_at};
ghost use Rattle.line_fields.specs.Outlets.{field_text};
ghost use Rattle.line_fields.specs.Texts.{record_text, records_text};
ghost use Rattle.line_text.specs.Replies as spec;

use line_claims::{numbers_of, put_pass};
use line_devices::{DeviceFault, Sink};
use line_fields::{Field, RecordWriter, put_ending, put_fields, put_numbers};
use line_names::{Choice, MsgName, Passed};
use line_plan::Plan;
use line_tape::State;

// The incarnation of a process.
fn incarnation_at(incarnations: &[u16], p: usize) -> u64
    ensures { result ≡ slice_index_or incarnations.now p 0 }
{
    match incarnations.get(p) {
        Some(inc) => u64::from(*inc),
        None => 0,
    }
}

// The state that a process goes on from, or `-`.
fn state_field<'a>(states: &'a [Option<State>], p: usize) -> Field<'a>
    ensures { field_text result ≡ spec.state_text (slice_index_or states.now p None) }
{
    match states.get(p) {
        Some(Some(state)) => Field::Bytes(state.bytes()),
        Some(None) => Field::Word(b"-"),
        None => Field::Word(b"-"),
    }
}

// The choice of a process.
fn choice_of(choices: &[Choice], p: usize) -> Choice
    requires { p < length choices.now }
    ensures { result ≡ choice_at choices.now p }
{
    choices[p]
}

// Writes `line,P,now,INC,HEX`.
#[cold]
#[inline(never)]
fn put_now<K: Sink>(
    sink: &mut K,
    writer: &mut RecordWriter,
    p: usize,
    inc: u64,
    state: Field<'_>,
) -> Result<(), DeviceFault>
    ensures { Outputs result (K.taken sink.old) (K.taken sink.new) (K.faults sink.old)
        (K.faults sink.new) writer.new
        (writer.old
        ++ record_text
        (codes "line" ∷ decimal p ∷ choice_text Choice.Now ∷ decimal inc
        ∷ field_text state.entry ∷ [])) }
{
    let fields = [
        Field::Number(p as u64),
        Field::Word(b"now"),
        Field::Number(inc),
        state,
    ];
    put_fields(sink, writer, b"line", &fields)
}

// Writes `line,P,CHOICE,INC,HEX`.
fn put_line<K: Sink>(
    sink: &mut K,
    writer: &mut RecordWriter,
    choices: &[Choice],
    incarnations: &[u16],
    states: &[Option<State>],
    p: usize,
) -> Result<(), DeviceFault>
    requires { p < length choices.now }
    ensures { Outputs result (K.taken sink.old) (K.taken sink.new) (K.faults sink.old)
        (K.faults sink.new) writer.new
        (writer.old ++ record_text (spec.process_of choices.now incarnations.now states.now p)) }
{
    let inc = incarnation_at(incarnations, p);
    let state = state_field(states, p);
    match choice_of(choices, p) {
        Choice::Check(check) => {
            let numbers = [p as u64, check as u64, inc];
            put_ending(sink, writer, b"line", &numbers, state)
        }
        Choice::Now => put_now(sink, writer, p, inc, state),
    }
}

// Writes the line records of all processes.
fn put_lines<K: Sink>(
    sink: &mut K,
    writer: &mut RecordWriter,
    choices: &[Choice],
    incarnations: &[u16],
    states: &[Option<State>],
) -> Result<(), DeviceFault>
    ensures { Outputs result (K.taken sink.old) (K.taken sink.new) (K.faults sink.old)
        (K.faults sink.new) writer.new
        (writer.old ++ records_text
        (spec.process_records choices.now incarnations.now states.now)) }
{
    for p in 0..choices.len() {
        put_line(sink, writer, choices, incarnations, states, p)?;
    }
    Ok(())
}

/// Writes the pass records of a certificate after what a writer holds. It takes no memory.
pub fn put_certificate<K: Sink>(
    sink: &mut K,
    writer: &mut RecordWriter,
    entries: &[Passed],
) -> Result<(), DeviceFault>
    ensures { Outputs result (K.taken sink.old) (K.taken sink.new) (K.faults sink.old)
        (K.faults sink.new) writer.new
        (writer.old ++ records_text (spec.pass_records entries.now)) }
{
    for entry in entries {
        put_pass(sink, writer, entry)?;
    }
    Ok(())
}

/// Writes the records of messages that are sent again after what a writer holds. It takes no
/// memory.
pub fn put_replays<K: Sink>(
    sink: &mut K,
    writer: &mut RecordWriter,
    replays: &[MsgName],
) -> Result<(), DeviceFault>
    ensures { Outputs result (K.taken sink.old) (K.taken sink.new) (K.faults sink.old)
        (K.faults sink.new) writer.new
        (writer.old ++ records_text (spec.replay_records replays.now)) }
{
    for i in 0..replays.len() {
        put_numbers(sink, writer, b"replay", &numbers_of(replays[i]))?;
    }
    Ok(())
}

/// Writes the records of a recovery, or of one that is only told of, after what a writer holds. The
/// first one begins with the word.
pub(crate) fn put_recovery<K: Sink>(
    sink: &mut K,
    writer: &mut RecordWriter,
    word: &[u8],
    plan: &Plan,
    incarnations: &Vec<u16>,
    states: &Vec<Option<State>>,
) -> Result<(), DeviceFault>
    ensures { Outputs result (K.taken sink.old) (K.taken sink.new) (K.faults sink.old)
        (K.faults sink.new) writer.new
        (writer.old
        ++ records_text
        (spec.recovery_records word.now plan.now.sweeps plan.now.certificate.items
        plan.now.replays.items
        plan.now.line incarnations.now.items states.now.items)) }
{
    let entries = plan.certificate.as_slice();
    let replays = plan.replays.as_slice();
    let numbers = [
        plan.sweeps as u64,
        entries.len() as u64,
        replays.len() as u64,
    ];
    put_numbers(sink, writer, word, &numbers)?;
    let choices = plan.line.choices();
    put_lines(
        sink,
        writer,
        choices,
        incarnations.as_slice(),
        states.as_slice(),
    )?;
    put_certificate(sink, writer, entries)?;
    put_replays(sink, writer, replays)
}

//! A machine as a saved text, from which it is opened again.

ghost use Rattle.std.specs.Prelude.{◌≡◌, ◌++◌, IfErr, IfOk, OnOk, map};
ghost use Rattle.line_text.specs.Answers as spec;
ghost use Rattle.line_claims.specs.Saved.{saved_records, saved_rest};
ghost use Rattle.line_devices.specs.Devices.{Outputs, one_more};
ghost use Rattle.line_fields.specs.Texts.{records_text};

use crate::forgets::refusal_number;
use crate::halts::Halt;
use crate::replies::put_refusal;
use crate::texts::floor_lent;
use line_claims::{put_saved_end, put_saved_front, put_saved_round};
use line_devices::{DeviceFault, Sink};
use line_fields::RecordWriter;
use line_live::{ForgetError, Live};
use line_scripts::Command;
use line_tape::Mode;
use line_world::Round;

// Why a machine is not saved.
fn save_refusal(live: &Live) -> Option<ForgetError>
    ensures { result ≡ spec.save_refusal live.now }
{
    let world = live.kept();
    match world.mode() {
        Mode::Unordered => Some(ForgetError::WrongMode),
        Mode::Fifo => {
            if world.is_open() {
                Some(ForgetError::RoundOpen)
            } else {
                None
            }
        }
    }
}

// Writes the records of listed rounds, and that of the last round begun.
fn put_saved_rest<K: Sink>(
    sink: &mut K,
    writer: &mut RecordWriter,
    rounds: &[Round],
    last: u32,
) -> Result<(), DeviceFault>
    ensures { Outputs result (K.taken sink.old) (K.taken sink.new) (K.faults sink.old)
        (K.faults sink.new) writer.new
        (writer.old ++ records_text (saved_rest (map spec.saved_round rounds.now) last)) }
{
    for i in 0..rounds.len() {
        let round = &rounds[i];
        put_saved_round(sink, writer, round.number(), round.checks())?;
    }
    put_saved_end(sink, writer, last)
}

// Writes the saved text of what a machine keeps.
fn put_saved<K: Sink>(
    sink: &mut K,
    writer: &mut RecordWriter,
    live: &Live,
) -> Result<(), DeviceFault>
    ensures { Outputs result (K.taken sink.old) (K.taken sink.new) (K.faults sink.old)
        (K.faults sink.new) writer.new
        (writer.old ++ records_text (saved_records (spec.saved_parts_of live.now))) }
{
    let world = live.kept();
    let floor = floor_lent(live);
    put_saved_front(sink, writer, &floor, world.history(), world.marks())?;
    put_saved_rest(sink, writer, world.rounds(), world.last_round())
}

/// Writes a machine as a saved text after what a writer holds, and says whether it was refused: it
/// is while a round is open, and always over links that keep no order.
///
/// It takes time in proportion to what the machine keeps, and no memory.
#[inline(never)]
pub(crate) fn put_saved_machine<K: Sink>(
    live: &Live,
    sink: &mut K,
    writer: &mut RecordWriter,
) -> Result<bool, Halt>
    ensures ok { IfOk result
        (λ refused. spec.DoesCommand live.now Command.Save live.now
        (K.taken sink.old)
        (K.taken sink.new) writer.old writer.new refused) }
    ensures memory { IfErr result
        (λ halt. halt ≡ Halt.Memory → (sink.new ≡ sink.old) × (writer.new ≡ writer.old)) }
    ensures write { IfErr result
        (λ halt. halt ≡ Halt.Write
        → spec.DoesFront live.now Command.Save live.now (K.taken sink.old)
        (K.taken sink.new) writer.old) }
    ensures sound { OnOk result (K.faults sink.new ≡ K.faults sink.old) }
    ensures failed { IfErr result
        (λ halt. halt ≡ Halt.Write → K.faults sink.new ≡ one_more (K.faults sink.old)) }
{
    match save_refusal(live) {
        None => {
            put_saved(sink, writer, live)?;
            Ok(false)
        }
        Some(error) => {
            put_refusal(sink, writer, refusal_number(error))?;
            Ok(true)
        }
    }
}

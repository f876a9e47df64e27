//! What is let go, and what is told of it.

ghost use Rattle.std.specs.Prelude.{◌≡◌, ◌≢◌, ◌++◌, ◌∷◌, IfErr, IfOk, IsOk, IsErrOf, OnOk};
ghost use Rattle.line_text.specs.Answers as spec;
ghost use Rattle.line_claims.specs.Records.{floors_records};
ghost use Rattle.line_devices.specs.Devices.{Outputs, one_more};
ghost use Rattle.line_fields.specs.Texts.{records_text};

use crate::halts::Halt;
use crate::replies::put_refusal;
use crate::texts::floor_ref;
use line_claims::{number_field, put_floors};
use line_devices::{DeviceFault, Sink};
use line_fields::{RecordWriter, put_fields};
use line_live::{ForgetError, Live, OwnedFloor};
use line_scripts::Command;
use std::alloc::Global;

// Lets go what stands before a listed round, or without one what stands before the line where every
// process fails.
fn forget(alloc: Global, live: &mut Live, round: Option<u32>) -> Result<(), ForgetError>
    ensures done { IsOk result → spec.Forgets live.old round live.new }
    ensures same { IfErr result (λ _. live.new ≡ live.old) }
    ensures refused { IfErr result
        (λ e. e ≢ ForgetError.OutOfMemory → spec.IsKeptBy live.old round e) }
{
    match round {
        Some(round) => live.forget(alloc, round),
        None => live.forget_live(alloc),
    }
}

/// The number of a cause, as a refusal shows it.
pub fn refusal_number(error: ForgetError) -> u32
    ensures { result ≡ spec.forget_code error }
{
    error.code()
}

/// Writes `forgot,R`, and what was let go before a floor of each of `n` processes, after what a
/// writer holds. Without a round it writes `forgot,-`.
///
/// It takes no memory, and fails only where the sink fails.
pub fn put_let_go<K: Sink>(
    sink: &mut K,
    writer: &mut RecordWriter,
    n: u32,
    floor: &OwnedFloor,
    round: Option<u32>,
) -> Result<(), DeviceFault>
    ensures { Outputs result (K.taken sink.old) (K.taken sink.new) (K.faults sink.old)
        (K.faults sink.new) writer.new
        (writer.old
        ++ records_text
        (spec.forgot_record round ∷ floors_records 0 (spec.floors_before n floor.now))) }
{
    put_fields(sink, writer, b"forgot", &[number_field(round)])?;
    put_floors(sink, writer, n, &floor_ref(floor))
}

// Writes `forgot,R`, and what was let go of each process in all.
fn put_floor_told<K: Sink>(
    sink: &mut K,
    writer: &mut RecordWriter,
    live: &Live,
    round: Option<u32>,
) -> Result<(), DeviceFault>
    ensures { Outputs result (K.taken sink.old) (K.taken sink.new) (K.faults sink.old)
        (K.faults sink.new) writer.new
        (writer.old
        ++ records_text
        (spec.forgot_record round ∷ floors_records 0 (spec.floors_of_live live.now))) }
{
    let n = live.kept().history().n();
    put_let_go(sink, writer, n, live.floor(), round)
}

/// Lets go what stands before a listed round, or without one what stands before the line where
/// every process fails, writes what was let go in all after what a writer holds, and says whether
/// it was refused.
#[inline(never)]
pub(crate) fn put_forgot<K: Sink>(
    alloc: Global,
    live: &mut Live,
    sink: &mut K,
    writer: &mut RecordWriter,
    round: Option<u32>,
) -> Result<bool, Halt>
    ensures ok { IfOk result
        (λ refused. spec.DoesCommand live.old (Command.Forget round) live.new
        (K.taken sink.old)
        (K.taken sink.new) writer.old writer.new refused) }
    ensures memory { IfErr result
        (λ halt. halt ≡ Halt.Memory
        → (live.new ≡ live.old) × (sink.new ≡ sink.old) × (writer.new ≡ writer.old)) }
    ensures write { IfErr result
        (λ halt. halt ≡ Halt.Write
        → spec.DoesFront live.old (Command.Forget round) live.new (K.taken sink.old)
        (K.taken sink.new) writer.old) }
    ensures sound { OnOk result (K.faults sink.new ≡ K.faults sink.old) }
    ensures failed { IfErr result
        (λ halt. halt ≡ Halt.Write → K.faults sink.new ≡ one_more (K.faults sink.old)) }
{
    match forget(alloc, live, round) {
        Ok(()) => {
            put_floor_told(sink, writer, live, round)?;
            Ok(false)
        }
        Err(ForgetError::OutOfMemory) => Err(Halt::Memory),
        Err(error) => {
            put_refusal(sink, writer, refusal_number(error))?;
            Ok(true)
        }
    }
}

//! What was let go before a history, written record by record.

ghost use Rattle.std.specs.Prelude.{◌≡◌, ◌≤◌, ◌++◌, slice_index_or};
ghost use Rattle.line_devices.specs.Devices.{Outputs};
ghost use Rattle.line_fields.specs.Texts.{record_text, records_text};
ghost use Rattle.line_claims.specs.Records as spec;

use line_devices::{DeviceFault, Sink};
use line_fields::{RecordWriter, put_numbers};

/// What was let go of each process before a history, lent; 0 stands where a list has no number for
/// a process.
#[derive(Clone, Copy)]
pub struct FloorRef<'a> {
    /// The checks that processes begin with, by their numbers; 0 is the initial state.
    pub checks: &'a [u32],
    /// How many first sends of processes were let go, by their numbers.
    pub sends: &'a [u32],
}

// The number of a process in a list; 0 where the list has none for it.
fn number_of(numbers: &[u32], p: u32) -> u32
    ensures { result ≡ slice_index_or numbers.now p 0 }
{
    match numbers.get(p as usize) {
        Some(number) => *number,
        None => 0,
    }
}

// Writes `floor,P,C,SENDS`.
fn put_floor<K: Sink>(
    sink: &mut K,
    writer: &mut RecordWriter,
    floor: &FloorRef<'_>,
    p: u32,
) -> Result<(), DeviceFault>
    ensures { Outputs result (K.taken sink.old) (K.taken sink.new) (K.faults sink.old)
        (K.faults sink.new) writer.new
        (writer.old
        ++ record_text
        (spec.floor_record p
        (slice_index_or floor.now.checks.now p 0, slice_index_or floor.now.sends.now p 0))) }
{
    let check = number_of(floor.checks, p);
    let sends = number_of(floor.sends, p);
    let numbers = [p as u64, check as u64, sends as u64];
    put_numbers(sink, writer, b"floor", &numbers)
}

/// Writes `floor,P,C,SENDS` for each of `n` processes after what a writer holds: what was let go of
/// it.
///
/// It asks for no memory, and fails only where the sink fails; then a prefix of what was held and
/// of the records is put.
pub fn put_floors<K: Sink>(
    sink: &mut K,
    writer: &mut RecordWriter,
    n: u32,
    floor: &FloorRef<'_>,
) -> Result<(), DeviceFault>
    ensures { Outputs result (K.taken sink.old) (K.taken sink.new) (K.faults sink.old)
        (K.faults sink.new) writer.new
        (writer.old
        ++ records_text
        (spec.floors_records 0
        (spec.floors_at n floor.now.checks.now floor.now.sends.now))) }
{
    for p in 0..n {
        put_floor(sink, writer, floor, p)?;
    }
    Ok(())
}

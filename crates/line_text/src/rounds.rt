//! The records that are written for rounds that were completed, one at a time.

ghost use Rattle.std.specs.Prelude.{◌≡◌, ◌≤◌, ◌++◌, length};
ghost use Rattle.line_devices.specs.Devices.{Outputs};
ghost use Rattle.line_fields.specs.Texts.{record_text};
ghost use Rattle.line_names.specs.declared.limits.TheConstants.{MOST_PROCESSES};
ghost use Rattle.line_text.specs.Rounds as spec;

use line_devices::{DeviceFault, Sink};
use line_fields::{Field, RecordWriter, add_field, begin_record, close_record, put_numbers};
use line_live::OwnedFloor;
use line_names::{MOST_PROCESSES, MsgName, ProcId};
use line_world::Round;

/// Writes `round,R,C0,C1,..` after what a writer holds: a round among `n` processes, with its check
/// of each. The messages on its channels follow.
///
/// It asks for no memory, and fails only where the sink fails.
pub(crate) fn put_round<K: Sink>(
    sink: &mut K,
    writer: &mut RecordWriter,
    floor: &OwnedFloor,
    n: u32,
    round: &Round,
) -> Result<(), DeviceFault>
    requires few { n ≤ MOST_PROCESSES }
    requires checks { length round.now.checks ≡ n }
    ensures { Outputs result (K.taken sink.old) (K.taken sink.new) (K.faults sink.old)
        (K.faults sink.new) writer.new
        (writer.old ++ record_text (spec.round_record floor.now n round.now)) }
{
    let number = round.number();
    begin_record(sink, writer, b"round", &[number as u64])?;
    for value in 0..n {
        let Ok(p) = ProcId::try_new(value, n) else {
            unreachable!()
        };
        let check = round.check(p);
        let lost = floor.checks_lost(p);
        add_field(sink, writer, Field::Number(check as u64 + lost as u64))?;
    }
    close_record(sink, writer)
}

/// Writes `channel,R,FROM,TO,INC,NUMBER` after what a writer holds: a message that was on a channel
/// as that round was completed.
///
/// It asks for no memory, and fails only where the sink fails.
pub(crate) fn put_channel_message<K: Sink>(
    sink: &mut K,
    writer: &mut RecordWriter,
    floor: &OwnedFloor,
    round: u32,
    link: &(ProcId, ProcId),
    message: MsgName,
) -> Result<(), DeviceFault>
    ensures { Outputs result (K.taken sink.old) (K.taken sink.new) (K.faults sink.old)
        (K.faults sink.new) writer.new
        (writer.old
        ++ record_text (spec.channel_record floor.now round link.now.0 link.now.1 message)) }
{
    let (from, to) = *link;
    let sender = from.get();
    let receiver = to.get();
    let lost = floor.sends(from);
    let numbers = [
        round as u64,
        sender as u64,
        receiver as u64,
        message.inc as u64,
        message.number as u64 + lost as u64,
    ];
    put_numbers(sink, writer, b"channel", &numbers)
}

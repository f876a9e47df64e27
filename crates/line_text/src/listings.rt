//! Rounds that were completed, listed.

ghost use Rattle.std.specs.Prelude.{◌≡◌, ◌<◌, ◌≤◌, ◌++◌, All, length, map};
ghost use Rattle.std.specs.List.{flat_map};
ghost use Rattle.line_devices.specs.Devices.{Outputs};
ghost use Rattle.line_fields.specs.Texts.{records_text};
ghost use Rattle.line_names.specs.declared.limits.TheConstants.{MOST_PROCESSES};
ghost use Rattle.line_text.specs.Rounds as records;

use crate::rounds::{put_channel_message, put_round};
use line_devices::{DeviceFault, Sink};
use line_fields::{RecordWriter, put_numbers};
use line_live::OwnedFloor;
use line_names::{MOST_PROCESSES, MsgName, ProcId};
use line_world::Round;

// Writes the messages of a channel.
fn put_messages<K: Sink>(
    sink: &mut K,
    writer: &mut RecordWriter,
    floor: &OwnedFloor,
    round: u32,
    link: &(ProcId, ProcId),
    messages: &[MsgName],
) -> Result<(), DeviceFault>
    ensures { Outputs result (K.taken sink.old) (K.taken sink.new) (K.faults sink.old)
        (K.faults sink.new) writer.new
        (writer.old
        ++ records_text
        (map (records.channel_record floor.now round link.now.0 link.now.1) messages.now)) }
{
    for i in 0..messages.len() {
        put_channel_message(sink, writer, floor, round, link, messages[i])?;
    }
    Ok(())
}

// Writes the channels from one process to each other.
fn put_channels_from<K: Sink>(
    sink: &mut K,
    writer: &mut RecordWriter,
    floor: &OwnedFloor,
    n: u32,
    round: &Round,
    from: ProcId,
) -> Result<(), DeviceFault>
    requires few { n ≤ MOST_PROCESSES }
    requires checks { length round.now.checks ≡ n }
    requires from { from < n }
    ensures { Outputs result (K.taken sink.old) (K.taken sink.new) (K.faults sink.old)
        (K.faults sink.new) writer.new
        (writer.old ++ records_text (records.channels_from floor.now n round.now from)) }
{
    let number = round.number();
    for value in 0..n {
        let Ok(to) = ProcId::try_new(value, n) else {
            unreachable!()
        };
        if value != from.get() {
            let messages = round.channel(from, to);
            put_messages(sink, writer, floor, number, &(from, to), messages)?;
        }
    }
    Ok(())
}

// Writes a round and its channels.
fn put_whole_round<K: Sink>(
    sink: &mut K,
    writer: &mut RecordWriter,
    floor: &OwnedFloor,
    n: u32,
    round: &Round,
) -> Result<(), DeviceFault>
    requires few { n ≤ MOST_PROCESSES }
    requires checks { length round.now.checks ≡ n }
    ensures { Outputs result (K.taken sink.old) (K.taken sink.new) (K.faults sink.old)
        (K.faults sink.new) writer.new
        (writer.old ++ records_text (records.round_records floor.now n round.now)) }
{
    put_round(sink, writer, floor, n, round)?;
    for value in 0..n {
        let Ok(from) = ProcId::try_new(value, n) else {
            unreachable!()
        };
        put_channels_from(sink, writer, floor, n, round, from)?;
    }
    Ok(())
}

/// Writes the rounds among `n` processes after what a writer holds: how many there are, and then of
/// each its checks and the messages on its channels, by sender and receiver. They are counted from
/// the beginning, and the rounds are those of what this floor left.
pub(crate) fn put_rounds<K: Sink>(
    sink: &mut K,
    writer: &mut RecordWriter,
    floor: &OwnedFloor,
    n: u32,
    rounds: &[Round],
) -> Result<(), DeviceFault>
    requires few { n ≤ MOST_PROCESSES }
    requires checks { All (λ round. length round.checks ≡ n) rounds.now }
    ensures { Outputs result (K.taken sink.old) (K.taken sink.new) (K.faults sink.old)
        (K.faults sink.new) writer.new
        (writer.old ++ records_text (records.rounds_records floor.now n rounds.now)) }
{
    put_numbers(sink, writer, b"rounds", &[rounds.len() as u64])?;
    for i in 0..rounds.len() {
        put_whole_round(sink, writer, floor, n, &rounds[i])?;
    }
    Ok(())
}

//! The records that are written for what the machine answers.

ghost use Rattle.std.specs.Prelude.{◌≡◌, ◌++◌, ◌∷◌, [], IfOk, decimal};
ghost use Rattle.line_claims.specs.Records.{name_fields};
ghost use Rattle.line_devices.specs.Devices.{Outputs};
ghost use Rattle.line_fields.specs.Texts.{record_text, records_text};
ghost use Rattle.line_text.specs.Replies as spec;

mod recoveries;

use line_claims::{name_of, number_field, numbers_of};
use line_devices::{DeviceFault, MemSink, Sink, put_all};
use line_fields::{Field, RecordWriter, put_ending, put_numbers};
use line_names::{MsgName, ProcId};
use line_world::Reply;
pub(crate) use recoveries::put_recovery;
pub use recoveries::{put_certificate, put_replays};
use std::alloc::{AllocError, Global};

// Writes a record of a name and a message. Like `put_took` it is put into its caller, so that its
// numbers take no room where another reply is written.
#[inline(always)]
fn put_named<K: Sink>(
    sink: &mut K,
    writer: &mut RecordWriter,
    name: &[u8],
    message: MsgName,
) -> Result<(), DeviceFault>
    ensures { Outputs result (K.taken sink.old) (K.taken sink.new) (K.faults sink.old)
        (K.faults sink.new) writer.new
        (writer.old ++ record_text (name.now ∷ name_fields message)) }
{
    put_numbers(sink, writer, name, &numbers_of(message))
}

// Writes `took,FROM,INC,NUMBER,ROUND`.
#[inline(always)]
fn put_took<K: Sink>(
    sink: &mut K,
    writer: &mut RecordWriter,
    message: MsgName,
    forced: Option<u32>,
) -> Result<(), DeviceFault>
    ensures { Outputs result (K.taken sink.old) (K.taken sink.new) (K.faults sink.old)
        (K.faults sink.new) writer.new
        (writer.old ++ record_text (spec.took_record message forced)) }
{
    let last = number_field(forced);
    put_ending(sink, writer, b"took", &numbers_of(message), last)
}

// Writes a record of a name, a process and one of its checks.
fn put_at_check<K: Sink>(
    sink: &mut K,
    writer: &mut RecordWriter,
    name: &[u8],
    at: ProcId,
    check: u32,
) -> Result<(), DeviceFault>
    ensures { Outputs result (K.taken sink.old) (K.taken sink.new) (K.faults sink.old)
        (K.faults sink.new) writer.new
        (writer.old ++ record_text (name.now ∷ decimal at ∷ decimal check ∷ [])) }
{
    put_numbers(sink, writer, name, &[at.get() as u64, check as u64])
}

// Writes a record of a name, a process, one of its checks and the round of this check.
fn put_in_round<K: Sink>(
    sink: &mut K,
    writer: &mut RecordWriter,
    name: &[u8],
    at: ProcId,
    check: u32,
    round: u32,
) -> Result<(), DeviceFault>
    ensures { Outputs result (K.taken sink.old) (K.taken sink.new) (K.faults sink.old)
        (K.faults sink.new) writer.new
        (writer.old
        ++ record_text (name.now ∷ decimal at ∷ decimal check ∷ decimal round ∷ [])) }
{
    put_numbers(
        sink,
        writer,
        name,
        &[at.get() as u64, check as u64, round as u64],
    )
}

// Writes `marked,ROUND,forced` or `marked,ROUND,closed`.
fn put_marked<K: Sink>(
    sink: &mut K,
    writer: &mut RecordWriter,
    round: u32,
    forced: bool,
) -> Result<(), DeviceFault>
    ensures { Outputs result (K.taken sink.old) (K.taken sink.new) (K.faults sink.old)
        (K.faults sink.new) writer.new
        (writer.old ++ record_text (spec.marked_record round forced)) }
{
    let word: &[u8] = if forced { b"forced" } else { b"closed" };
    put_ending(sink, writer, b"marked", &[round as u64], Field::Word(word))
}

/// Writes the records of a reply after what a writer holds.
///
/// It asks for no memory, and fails only where the sink fails; then a prefix of what was held and
/// of the reply is put.
pub fn put_reply<K: Sink>(
    sink: &mut K,
    writer: &mut RecordWriter,
    reply: &Reply,
) -> Result<(), DeviceFault>
    ensures { Outputs result (K.taken sink.old) (K.taken sink.new) (K.faults sink.old)
        (K.faults sink.new) writer.new (writer.old ++ records_text (spec.reply_records reply.now)) }
{
    match reply {
        Reply::Sent { message } => put_named(sink, writer, b"sent", *message),
        Reply::Took { message, forced } => put_took(sink, writer, *message, *forced),
        Reply::Marked { round, forced } => put_marked(sink, writer, *round, *forced),
        Reply::Stale { message } => put_named(sink, writer, b"stale", *message),
        Reply::Repeated { message } => put_named(sink, writer, b"repeated", *message),
        Reply::Checked { at, check } => put_at_check(sink, writer, b"checked", *at, *check),
        Reply::Begun { at, check, round } => {
            put_in_round(sink, writer, b"begun", *at, *check, *round)
        }
        Reply::Turned { at, check, round } => {
            put_in_round(sink, writer, b"turned", *at, *check, *round)
        }
        Reply::Damaged { at, check } => put_at_check(sink, writer, b"damaged", *at, *check),
        Reply::Barred { at, check } => put_at_check(sink, writer, b"barred", *at, *check),
        Reply::Recovered {
            plan,
            states,
            incarnations,
        } => put_recovery(sink, writer, b"recovered", plan, incarnations, states),
    }
}

/// Writes `refused,CODE,NAME` after what a writer holds. It asks for no memory, and fails only
/// where the sink fails.
pub fn put_refusal<K: Sink>(
    sink: &mut K,
    writer: &mut RecordWriter,
    code: u32,
) -> Result<(), DeviceFault>
    ensures { Outputs result (K.taken sink.old) (K.taken sink.new) (K.faults sink.old)
        (K.faults sink.new) writer.new (writer.old ++ record_text (spec.refusal_record code)) }
{
    let name = name_of(code).as_bytes();
    put_ending(sink, writer, b"refused", &[code as u64], Field::Word(name))
}

/// The text of a reply. It takes memory for the text, and for 64 KiB.
pub fn write_reply(alloc: Global, reply: &Reply) -> Result<Vec<u8>, AllocError>
    ensures { IfOk result (λ text. text.items ≡ records_text (spec.reply_records reply.now)) }
{
    let mut writer = RecordWriter::with_room(alloc)?;
    let mut sink = MemSink::new(alloc, usize::MAX, None);
    let Ok(()) = put_reply(&mut sink, &mut writer, reply) else {
        return Err(AllocError);
    };
    let Ok(()) = put_all(&mut sink, writer.text()) else {
        return Err(AllocError);
    };
    Ok(sink.into_bytes())
}

//! Bytes that come: the records of the lines that end within them are answered, and the answers are
//! put.

ghost use Rattle.std.specs.Prelude.{◌≡◌, [], OnErr, OnOk};
ghost use Rattle.line_devices.specs.Devices.{Puts, PutsFront, one_more};
ghost use Rattle.line_text.specs.Lines.{last_record, pending_after};
ghost use Rattle.line_text.specs.Progress as spec;
ghost use Rattle.line_text.specs.Conversations.{records_ending_in};
ghost use Rattle.line_text.specs.Answerers.{PutsAnswersFront};

use crate::answerers::Answerer;
use crate::lines::{PendingLine, first_feed};
use crate::records::{answer_bare_line, answer_first, answer_lines};
use crate::seats::{Seat, answer_fault};
use line_devices::{DeviceFault, Sink, put_all};
use line_fields::{Fault, ReadError, RecordWriter};

/// Answers the records of the lines that end within bytes that came, and keeps what is left of them
/// with the line that is pending. What is not put yet is held.
pub(crate) fn hear_bytes<C: Answerer, K: Sink>(
    pending: &mut PendingLine,
    seat: &mut Seat<C>,
    bytes: &[u8],
    sink: &mut K,
) -> Result<(), DeviceFault>
    ensures pending { OnOk result (pending.new ≡ pending_after pending.old bytes.now) }
    ensures ok { OnOk result
        (spec.AnswersRecords C.rules (spec.spot seat.old.answerer seat.old.outcome seat.old.writer)
        (records_ending_in pending.old bytes.now)
        (spec.spot seat.new.answerer seat.new.outcome seat.new.writer) (K.taken sink.old) (K.taken
        sink.new)) }
    ensures err { OnErr result (PutsAnswersFront C.rules seat.old.answerer seat.old.writer
        (records_ending_in pending.old bytes.now) (K.taken sink.old) (K.taken sink.new)) }
    ensures sound { OnOk result (K.faults sink.new ≡ K.faults sink.old) }
    ensures failed { OnErr result (K.faults sink.new ≡ one_more (K.faults sink.old)) }
{
    match first_feed(bytes) {
        Some(end) => {
            answer_first(pending, seat, &bytes[..end], sink)?;
            let left = answer_lines(seat, &bytes[end + 1..], sink)?;
            pending.add(left);
            Ok(())
        }
        None => {
            pending.add(bytes);
            Ok(())
        }
    }
}

/// Answers the record of what is pending where the input ends.
pub(crate) fn hear_end<C: Answerer, K: Sink>(
    pending: &PendingLine,
    seat: &mut Seat<C>,
    sink: &mut K,
) -> Result<(), DeviceFault>
    ensures ok { OnOk result (spec.AnswersRecords C.rules (spec.spot seat.old.answerer
        seat.old.outcome seat.old.writer) (last_record pending.now)
        (spec.spot seat.new.answerer seat.new.outcome seat.new.writer) (K.taken sink.old) (K.taken
        sink.new)) }
    ensures err { OnErr result (PutsAnswersFront C.rules seat.old.answerer seat.old.writer
        (last_record pending.now) (K.taken sink.old) (K.taken sink.new)) }
    ensures sound { OnOk result (K.faults sink.new ≡ K.faults sink.old) }
    ensures failed { OnErr result (K.faults sink.new ≡ one_more (K.faults sink.old)) }
{
    match pending.bytes() {
        Some(line) => answer_bare_line(seat, line, sink),
        None => answer_fault(seat, ReadError::Fault(Fault::BadRecord), sink),
    }
}

/// Puts what is held, and lets it out.
pub(crate) fn put_held<K: Sink>(writer: &mut RecordWriter, sink: &mut K) -> Result<(), DeviceFault>
    ensures cleared { writer.new ≡ [] }
    ensures ok { OnOk result (Puts (K.taken sink.old) (K.taken sink.new) writer.old) }
    ensures err { OnErr result (PutsFront (K.taken sink.old) (K.taken sink.new) writer.old) }
    ensures sound { OnOk result (K.faults sink.new ≡ K.faults sink.old) }
    ensures failed { OnErr result (K.faults sink.new ≡ one_more (K.faults sink.old)) }
{
    let all = match put_all(sink, writer.text()) {
        Ok(()) => sink.finish(),
        Err(failed) => Err(failed),
    };
    writer.clear();
    all
}

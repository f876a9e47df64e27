//! The records of lines, each answered where its line has ended.

ghost use Rattle.std.specs.Prelude.{◌≡◌, [], true, IfOk, OnErr, OnOk};
ghost use Rattle.line_devices.specs.Devices.{one_more};
ghost use Rattle.line_fields.specs.Bytes.{is_input_text, is_line_text};
ghost use Rattle.line_text.specs.Lines.{Kept, ended_record, has_no_feed, pending_after};
ghost use Rattle.line_text.specs.Lines.{record_of};
ghost use Rattle.line_text.specs.Progress as spec;
ghost use Rattle.line_text.specs.Conversations.{records_ending_in};
ghost use Rattle.line_text.specs.Answerers.{PutsAnswersFront};

use crate::answerers::Answerer;
use crate::limits::MOST_LINE;
use crate::lines::{PendingLine, feed_after, first_feed, without_return};
use crate::seats::{Seat, answer_fault, answer_record};
use line_devices::{DeviceFault, Sink};
use line_fields::{Fault, FieldRow, ReadError, is_plain};

/// Answers the record of a line that is given without what ends it, read into this row.
fn answer_by_row<'a, C: Answerer, K: Sink>(
    seat: &mut Seat<C>,
    row: &mut FieldRow<'a>,
    line: &'a [u8],
    sink: &mut K,
) -> Result<(), DeviceFault>
    ensures ok { OnOk result (spec.AnswersRecords C.rules (spec.spot seat.old.answerer
        seat.old.outcome seat.old.writer)
        (record_of (is_line_text line.now) line.now) (spec.spot seat.new.answerer seat.new.outcome
        seat.new.writer) (K.taken sink.old)
        (K.taken sink.new)) }
    ensures err { OnErr result (PutsAnswersFront C.rules seat.old.answerer seat.old.writer
        (record_of (is_line_text line.now) line.now) (K.taken sink.old) (K.taken sink.new)) }
    ensures sound { OnOk result (K.faults sink.new ≡ K.faults sink.old) }
    ensures failed { OnErr result (K.faults sink.new ≡ one_more (K.faults sink.old)) }
{
    if line.is_empty() {
        return Ok(());
    }
    match row.read_line(line) {
        Ok(true) => answer_record(seat, row, sink),
        Ok(false) => answer_fault(seat, ReadError::Fault(Fault::BadRecord), sink),
        Err(_) => answer_fault(seat, ReadError::OutOfMemory, sink),
    }
}

/// Answers the record of a line that is given without what ends it.
pub(crate) fn answer_bare_line<C: Answerer, K: Sink>(
    seat: &mut Seat<C>,
    line: &[u8],
    sink: &mut K,
) -> Result<(), DeviceFault>
    ensures ok { OnOk result (spec.AnswersRecords C.rules (spec.spot seat.old.answerer
        seat.old.outcome seat.old.writer)
        (record_of (is_line_text line.now) line.now) (spec.spot seat.new.answerer seat.new.outcome
        seat.new.writer) (K.taken sink.old)
        (K.taken sink.new)) }
    ensures err { OnErr result (PutsAnswersFront C.rules seat.old.answerer seat.old.writer
        (record_of (is_line_text line.now) line.now) (K.taken sink.old) (K.taken sink.new)) }
    ensures sound { OnOk result (K.faults sink.new ≡ K.faults sink.old) }
    ensures failed { OnErr result (K.faults sink.new ≡ one_more (K.faults sink.old)) }
{
    let mut row = FieldRow::new(seat.alloc);
    answer_by_row(seat, &mut row, line, sink)
}

/// Answers the record of a line that a line feed ended, with as many bytes as a line may have.
fn answer_line<C: Answerer, K: Sink>(
    seat: &mut Seat<C>,
    line: &[u8],
    sink: &mut K,
) -> Result<(), DeviceFault>
    requires { has_no_feed line.now ≡ true }
    ensures ok { OnOk result
        (spec.AnswersRecords C.rules (spec.spot seat.old.answerer seat.old.outcome seat.old.writer)
        (ended_record (Kept line.now))
        (spec.spot seat.new.answerer seat.new.outcome seat.new.writer) (K.taken sink.old) (K.taken
        sink.new)) }
    ensures err { OnErr result (PutsAnswersFront C.rules seat.old.answerer seat.old.writer
        (ended_record (Kept line.now)) (K.taken sink.old) (K.taken sink.new)) }
    ensures sound { OnOk result (K.faults sink.new ≡ K.faults sink.old) }
    ensures failed { OnErr result (K.faults sink.new ≡ one_more (K.faults sink.old)) }
{
    answer_bare_line(seat, without_return(line), sink)
}

/// Answers the record of a line that stands whole among bytes that came.
fn answer_whole<C: Answerer, K: Sink>(
    seat: &mut Seat<C>,
    line: &[u8],
    sink: &mut K,
) -> Result<(), DeviceFault>
    requires { has_no_feed line.now ≡ true }
    ensures ok { OnOk result (spec.AnswersRecords C.rules (spec.spot seat.old.answerer
        seat.old.outcome seat.old.writer)
        (ended_record (pending_after (Kept []) line.now)) (spec.spot seat.new.answerer
        seat.new.outcome seat.new.writer) (K.taken sink.old)
        (K.taken sink.new)) }
    ensures err { OnErr result (PutsAnswersFront C.rules seat.old.answerer seat.old.writer
        (ended_record (pending_after (Kept []) line.now)) (K.taken sink.old) (K.taken sink.new)) }
    ensures sound { OnOk result (K.faults sink.new ≡ K.faults sink.old) }
    ensures failed { OnErr result (K.faults sink.new ≡ one_more (K.faults sink.old)) }
{
    if line.len() > MOST_LINE {
        return answer_fault(seat, ReadError::Fault(Fault::BadRecord), sink);
    }
    answer_line(seat, line, sink)
}

/// Answers the record of the line that was pending, whose last bytes these are.
pub(crate) fn answer_first<C: Answerer, K: Sink>(
    pending: &mut PendingLine,
    seat: &mut Seat<C>,
    bytes: &[u8],
    sink: &mut K,
) -> Result<(), DeviceFault>
    requires { has_no_feed bytes.now ≡ true }
    ensures none_pending { OnOk result (pending.new ≡ Kept []) }
    ensures ok { OnOk result (spec.AnswersRecords C.rules (spec.spot seat.old.answerer
        seat.old.outcome seat.old.writer)
        (ended_record (pending_after pending.old bytes.now)) (spec.spot seat.new.answerer
        seat.new.outcome seat.new.writer) (K.taken sink.old)
        (K.taken sink.new)) }
    ensures err { OnErr result (PutsAnswersFront C.rules seat.old.answerer seat.old.writer
        (ended_record (pending_after pending.old bytes.now)) (K.taken sink.old)
        (K.taken sink.new)) }
    ensures sound { OnOk result (K.faults sink.new ≡ K.faults sink.old) }
    ensures failed { OnErr result (K.faults sink.new ≡ one_more (K.faults sink.old)) }
{
    if pending.is_empty() {
        return answer_whole(seat, bytes, sink);
    }
    pending.add(bytes);
    let answered = match pending.bytes() {
        Some(line) => answer_line(seat, line, sink),
        None => answer_fault(seat, ReadError::Fault(Fault::BadRecord), sink),
    };
    pending.clear();
    answered
}

/// Answers the record that was read into a row, of a line of so many bytes with the carriage
/// return at its end, and of so many without.
fn answer_row<C: Answerer, K: Sink>(
    seat: &mut Seat<C>,
    row: &FieldRow<'_>,
    len: usize,
    bare: usize,
    sink: &mut K,
) -> Result<(), DeviceFault>
    ensures ok { OnOk result (spec.AnswersRecords C.rules (spec.spot seat.old.answerer
        seat.old.outcome seat.old.writer)
        (spec.row_records len bare row.now) (spec.spot seat.new.answerer seat.new.outcome
        seat.new.writer) (K.taken sink.old)
        (K.taken sink.new)) }
    ensures err { OnErr result (PutsAnswersFront C.rules seat.old.answerer seat.old.writer
        (spec.row_records len bare row.now) (K.taken sink.old) (K.taken sink.new)) }
    ensures sound { OnOk result (K.faults sink.new ≡ K.faults sink.old) }
    ensures failed { OnErr result (K.faults sink.new ≡ one_more (K.faults sink.old)) }
{
    if len > MOST_LINE {
        return answer_fault(seat, ReadError::Fault(Fault::BadRecord), sink);
    }
    if bare == 0 {
        return Ok(());
    }
    answer_record(seat, row, sink)
}

/// Answers the first line of bytes that came, where it ends within them, and says where its line
/// feed stands. Bytes that are known to be plain are looked at many at a time.
fn answer_next<'a, C: Answerer, K: Sink>(
    seat: &mut Seat<C>,
    row: &mut FieldRow<'a>,
    bytes: &'a [u8],
    plain: bool,
    sink: &mut K,
) -> Result<Option<usize>, DeviceFault>
    requires { plain ≡ true → is_input_text bytes.now ≡ true }
    ensures ok { IfOk result (λ at. spec.AnswersNext C.rules (spec.spot seat.old.answerer
        seat.old.outcome seat.old.writer) bytes.now at
        (spec.spot seat.new.answerer seat.new.outcome seat.new.writer) (K.taken sink.old) (K.taken
        sink.new)) }
    ensures err { OnErr result (PutsAnswersFront C.rules seat.old.answerer seat.old.writer
        (records_ending_in (Kept []) bytes.now) (K.taken sink.old) (K.taken sink.new)) }
    ensures sound { OnOk result (K.faults sink.new ≡ K.faults sink.old) }
    ensures failed { OnErr result (K.faults sink.new ≡ one_more (K.faults sink.old)) }
{
    if plain {
        if let Ok(end) = row.take_line(bytes) {
            if end == bytes.len() {
                return Ok(None);
            }
            let at = feed_after(bytes, end);
            answer_row(seat, row, at, end, sink)?;
            return Ok(Some(at));
        }
    }
    match first_feed(bytes) {
        Some(at) => {
            answer_whole(seat, &bytes[..at], sink)?;
            Ok(Some(at))
        }
        None => Ok(None),
    }
}

/// Answers the lines that stand whole among bytes that came, where no line was pending, and answers
/// what is left after the last of them.
pub(crate) fn answer_lines<'a, C: Answerer, K: Sink>(
    seat: &mut Seat<C>,
    bytes: &'a [u8],
    sink: &mut K,
) -> Result<&'a [u8], DeviceFault>
    ensures ok { IfOk result (λ left. spec.AnswersWhole C.rules (spec.spot seat.old.answerer
        seat.old.outcome seat.old.writer) bytes.now left.now
        (spec.spot seat.new.answerer seat.new.outcome seat.new.writer) (K.taken sink.old) (K.taken
        sink.new)) }
    ensures left { IfOk result (λ left. has_no_feed left.now ≡ true) }
    ensures err { OnErr result (PutsAnswersFront C.rules seat.old.answerer seat.old.writer
        (records_ending_in (Kept []) bytes.now) (K.taken sink.old) (K.taken sink.new)) }
    ensures sound { OnOk result (K.faults sink.new ≡ K.faults sink.old) }
    ensures failed { OnErr result (K.faults sink.new ≡ one_more (K.faults sink.old)) }
{
    let plain = is_plain(bytes);
    let mut row = FieldRow::new(seat.alloc);
    let mut rest = bytes;
    'lines: loop {
        match answer_next(seat, &mut row, rest, plain, sink)? {
            Some(at) => rest = &rest[at + 1..],
            None => return Ok(rest),
        }
    }
}

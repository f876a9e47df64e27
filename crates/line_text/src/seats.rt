//! Who answers the records of a conversation, and what was answered so far.

ghost use Rattle.std.specs.Prelude.{◌≡◌, ◌∷◌, [], Ok, Result, OnErr, OnOk};
ghost use Rattle.line_text.specs.Answerers.{PutsAnswersFront};
ghost use Rattle.line_text.specs.Progress as spec;
ghost use Rattle.line_devices.specs.Devices.{one_more};
ghost use Rattle.line_fields.specs.declared.faults.Fault.{Fault};
ghost use Rattle.line_fields.specs.Records.{Record};

use crate::answerers::Answerer;
use crate::faults::put_fault;
use crate::outcomes::Outcome;
use crate::stops::Stop;
use line_devices::{DeviceFault, Sink};
use line_fields::{FieldRow, ReadError, RecordWriter, close_record};
use std::alloc::Global;

/// Who answers the records of a conversation, and what was answered so far.
#[derive(Drop)]
pub(crate) struct Seat<C> {
    pub alloc: Global,
    /// Who answers.
    pub answerer: C,
    /// The worst of what was answered.
    pub outcome: Outcome,
    /// The text of answers that is not put yet.
    pub writer: RecordWriter,
}

/// Answers a record that was not done for this fault, from whatever state it led to the one that
/// there is.
fn tell_fault<C: Answerer, K: Sink>(
    seat: &mut Seat<C>,
    error: ReadError,
    sink: &mut K,
) -> Result<(), DeviceFault>
    ensures ok { (before : C) (one : Result Record Fault)
        → C.rules.hears before one (C.faulted error) seat.old.answerer
        → OnOk result (spec.AnswersRecords C.rules
        (spec.spot before seat.old.outcome seat.old.writer) (one ∷ [])
        (spec.spot seat.new.answerer seat.new.outcome seat.new.writer) (K.taken sink.old)
        (K.taken sink.new)) }
    ensures err { (before : C) (one : Result Record Fault)
        → C.rules.hears before one (C.faulted error) seat.old.answerer
        → OnErr result (PutsAnswersFront C.rules before seat.old.writer (one ∷ [])
        (K.taken sink.old) (K.taken sink.new)) }
    ensures sound { OnOk result (K.faults sink.new ≡ K.faults sink.old) }
    ensures failed { OnErr result (K.faults sink.new ≡ one_more (K.faults sink.old)) }
{
    seat.outcome = Outcome::Faulted;
    put_fault(sink, &mut seat.writer, error)
}

/// Answers a record that was missed, for this fault.
pub(crate) fn answer_fault<C: Answerer, K: Sink>(
    seat: &mut Seat<C>,
    error: ReadError,
    sink: &mut K,
) -> Result<(), DeviceFault>
    ensures ok { (one : Result Record Fault)
        → C.rules.hears seat.old.answerer one (C.faulted error)
        (C.missed error seat.old.answerer)
        → OnOk result (spec.AnswersRecords C.rules
        (spec.spot seat.old.answerer seat.old.outcome seat.old.writer) (one ∷ [])
        (spec.spot seat.new.answerer seat.new.outcome seat.new.writer) (K.taken sink.old)
        (K.taken sink.new)) }
    ensures err { (one : Result Record Fault)
        → C.rules.hears seat.old.answerer one (C.faulted error)
        (C.missed error seat.old.answerer)
        → OnErr result (PutsAnswersFront C.rules seat.old.answerer seat.old.writer (one ∷ [])
        (K.taken sink.old) (K.taken sink.new)) }
    ensures sound { OnOk result (K.faults sink.new ≡ K.faults sink.old) }
    ensures failed { OnErr result (K.faults sink.new ≡ one_more (K.faults sink.old)) }
{
    seat.answerer.miss(error);
    tell_fault(seat, error, sink)
}

/// Answers the record whose fields a row has.
pub(crate) fn answer_record<C: Answerer, K: Sink>(
    seat: &mut Seat<C>,
    row: &FieldRow<'_>,
    sink: &mut K,
) -> Result<(), DeviceFault>
    ensures ok { OnOk result (spec.AnswersRecords C.rules
        (spec.spot seat.old.answerer seat.old.outcome seat.old.writer) (Ok row.now ∷ [])
        (spec.spot seat.new.answerer seat.new.outcome seat.new.writer) (K.taken sink.old)
        (K.taken sink.new)) }
    ensures err { OnErr result (PutsAnswersFront C.rules seat.old.answerer seat.old.writer
        (Ok row.now ∷ []) (K.taken sink.old) (K.taken sink.new)) }
    ensures sound { OnOk result (K.faults sink.new ≡ K.faults sink.old) }
    ensures failed { OnErr result (K.faults sink.new ≡ one_more (K.faults sink.old)) }
{
    match seat.answerer.answer(row, sink, &mut seat.writer) {
        Ok(outcome) => {
            seat.outcome = seat.outcome.worse(outcome);
            close_record(sink, &mut seat.writer)
        }
        Err(Stop::Fault(error)) => tell_fault(seat, error, sink),
        Err(Stop::Write) => Err(DeviceFault),
    }
}

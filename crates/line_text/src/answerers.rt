//! Whoever answers records.

ghost use Rattle.std.specs.Prelude.{◌≡◌, ◌∷◌, [], Ok, Err, Result, IfErr, IfOk, OnOk};
ghost use Rattle.line_text.specs.declared.outcomes.Outcome.TheVariants as outcomes;
ghost use Rattle.line_text.specs.Answerers.{AnswersOne, BlamesSink, StopsOne};
ghost use Rattle.line_text.specs.Rules.{Rules, error_code, fault_record};
ghost use Rattle.line_fields.specs.declared.faults.Fault.{Fault};
ghost use Rattle.line_fields.specs.declared.faults.Fault.TheVariants.{BadRecord};
ghost use Rattle.line_fields.specs.declared.faults.ReadError.{ReadError};
ghost use Rattle.line_fields.specs.declared.faults.ReadError.TheVariants as read_errors;
ghost use Rattle.line_fields.specs.Records.{Record};

use crate::outcomes::Outcome;
use crate::stops::Stop;
use line_devices::Sink;
use line_fields::{FieldRow, ReadError, RecordWriter};

/// Whoever answers the records of a conversation: it has a state, which a record may change, and
/// says what each record is answered.
pub trait Answerer: Drop {
    /// What a record is answered.
    ghost Answer: { Type 0 };

    /// How records may be answered.
    ghost rules: { Rules Self Answer };

    /// The answer to a record that was not done, for this fault or since memory is out.
    ghost faulted: { ReadError → Answer };

    /// The state once a record was missed, for this fault or since memory is out.
    ghost missed: { ReadError → Self → Self };

    /// Does what the record of a row asks for, and writes its answer, but for the empty line that
    /// ends it, after what a writer holds.
    ///
    /// A record that is not done, as it has a fault or memory is out, leaves the state, the sink
    /// and the writer as they were. Where the sink fails, a prefix of what was held and of the
    /// answer is put.
    fn answer<K: Sink>(
        &mut self,
        row: &FieldRow<'_>,
        sink: &mut K,
        writer: &mut RecordWriter,
    ) -> Result<Outcome, Stop>
        ensures ok { IfOk result (λ outcome. AnswersOne rules self.old (Ok row.now) self.new
            (K.taken sink.old) (K.taken sink.new) writer.old writer.new outcome) }
        ensures err { IfErr result (λ stop. StopsOne rules faulted stop self.old (Ok row.now)
            self.new (K.taken sink.old) (K.taken sink.new) writer.old writer.new) }
        ensures sound { OnOk result (K.faults sink.new ≡ K.faults sink.old) }
        ensures blamed { IfErr result (λ stop. BlamesSink stop (K.faults sink.old)
            (K.faults sink.new)) };

    /// Is told that a record was missed: its line is none, or memory was out before it was read.
    fn miss(&mut self, error: ReadError)
        ensures { self.new ≡ missed error self.old };

    // A line that is no record is a fault, and memory may be out for any record.
    ghost bad_record: { (s : Self)
        → rules.hears s (Err BadRecord) (faulted (read_errors.Fault BadRecord))
        (missed (read_errors.Fault BadRecord) s) };

    ghost no_memory: { (s : Self) (one : Result Record Fault)
        → rules.hears s one (faulted read_errors.OutOfMemory)
        (missed read_errors.OutOfMemory s) };

    // A fault is told by one record, and is the worst outcome.
    ghost fault_records: { (error : ReadError)
        → rules.records (faulted error) ≡ fault_record (error_code error) ∷ [] };

    ghost fault_outcome: { (error : ReadError)
        → rules.outcome (faulted error) ≡ outcomes.Faulted };
}

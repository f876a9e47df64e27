//! The collector of reports, which answers records as they come.

ghost use Rattle.std.specs.Prelude.{◌≡◌, ◌+◌, ◌-◌, ◌^◌, ◌≤◌, ◌⊎◌, ℕ, List, None, Some, Ok, Err};
ghost use Rattle.std.specs.Prelude.{IfErr, IfOk, OnOk};
ghost use Rattle.line_text.specs.declared.faults.ServeError.TheVariants as errors;
ghost use Rattle.line_text.specs.Answerers.{AnswersOne, BlamesSink, StopsOne};
ghost use Rattle.line_text.specs.Turns.{GivesText};
ghost use Rattle.line_text.specs.Turns as spec;
ghost use Rattle.line_devices.specs.Devices.{one_more};
ghost use Rattle.line_collect.specs.Collecting.{Began, Faulted, HearsReport, collect_rules};

use crate::answering::answer_report;
use crate::live_collections::LiveCollection;
use crate::readers::ReportReader;
use crate::reports::reports_of;
use line_devices::{Sink, Source};
use line_fields::{FieldRow, ReadError, RecordWriter};
use line_tape::CountError;
use line_text::{Answerer, Outcome, ServeError, Stop, converse};
use std::alloc::Global;
use std::marker::Model;

/// What was collected, once a first record was good, and what reads the records after that.
#[derive(Drop)]
pub(crate) struct Collecting {
    alloc: Global,
    collection: Option<LiveCollection>,
    // The report of the record that is read.
    reader: ReportReader,
}

impl Model for Collecting {
    ghost use Rattle.std.specs.Prelude.{Option};
    ghost use Rattle.line_collect.specs.Lives.{LiveCollectionView};

    ghost Value = { Option LiveCollectionView };

    ghost view = { λ s. s.collection };
}

/// Begins to collect, as a first record says.
#[inline(never)]
fn begin(
    alloc: Global,
    collection: &mut Option<LiveCollection>,
    row: &FieldRow<'_>,
) -> Result<(), ReadError>
    requires { collection.old ≡ None }
    ensures ok { OnOk result (HearsReport None (Ok row.now) Began collection.new) }
    ensures err { IfErr result (λ error. HearsReport None (Ok row.now) (Faulted error) None) }
    ensures same { IfErr result (λ _. collection.new ≡ None) }
{
    let n = match reports_of(row) {
        Ok(n) => n,
        Err(fault) => return Err(ReadError::Fault(fault)),
    };
    match LiveCollection::new(alloc, n) {
        Ok(begun) => {
            *collection = Some(begun);
            Ok(())
        }
        Err(CountError::OutOfMemory) => Err(ReadError::OutOfMemory),
        Err(CountError::BadCount) => unreachable!(),
    }
}

/// Answers the report that a record spells.
fn answer_read<K: Sink>(
    alloc: Global,
    collection: &mut LiveCollection,
    row: &FieldRow<'_>,
    reader: &mut ReportReader,
    sink: &mut K,
    writer: &mut RecordWriter,
) -> Result<Outcome, Stop>
    ensures ok { IfOk result (λ outcome. AnswersOne collect_rules (Some collection.old) (Ok row.now)
        (Some collection.new) (K.taken sink.old) (K.taken sink.new) writer.old writer.new
        outcome) }
    ensures err { IfErr result (λ stop. StopsOne collect_rules Faulted stop (Some collection.old)
        (Ok row.now) (Some collection.new) (K.taken sink.old) (K.taken sink.new) writer.old
        writer.new) }
    ensures sound { OnOk result (K.faults sink.new ≡ K.faults sink.old) }
    ensures blamed { IfErr result (λ stop. BlamesSink stop (K.faults sink.old)
        (K.faults sink.new)) }
{
    let n = collection.kept().history().n();
    match reader.read(n, row) {
        Ok(()) => answer_report(alloc, collection, sink, writer, &reader.report()),
        Err(fault) => Err(Stop::Fault(fault)),
    }
}

/// Answers a record, but for the empty line.
fn answer_one<K: Sink>(
    alloc: Global,
    collection: &mut Option<LiveCollection>,
    row: &FieldRow<'_>,
    reader: &mut ReportReader,
    sink: &mut K,
    writer: &mut RecordWriter,
) -> Result<Outcome, Stop>
    ensures ok { IfOk result (λ outcome. AnswersOne collect_rules collection.old (Ok row.now)
        collection.new (K.taken sink.old) (K.taken sink.new) writer.old writer.new outcome) }
    ensures err { IfErr result (λ stop. StopsOne collect_rules Faulted stop collection.old
        (Ok row.now) collection.new (K.taken sink.old) (K.taken sink.new) writer.old writer.new) }
    ensures sound { OnOk result (K.faults sink.new ≡ K.faults sink.old) }
    ensures blamed { IfErr result (λ stop. BlamesSink stop (K.faults sink.old)
        (K.faults sink.new)) }
{
    match collection {
        Some(collection) => answer_read(alloc, collection, row, reader, sink, writer),
        None => match begin(alloc, collection, row) {
            Ok(()) => Ok(Outcome::Done),
            Err(error) => Err(Stop::Fault(error)),
        },
    }
}

impl Collecting {
    /// Nothing yet: the first good record begins it.
    pub fn new(alloc: Global) -> Collecting
        ensures { result ≡ None }
    {
        Collecting {
            alloc,
            collection: None,
            reader: ReportReader::new(alloc),
        }
    }
}

impl Answerer for Collecting {
    ghost use Rattle.std.specs.Prelude.{refl};
    ghost use Rattle.line_collect.specs.Collecting.{CollectAnswer, Faulted, collect_rules};
    ghost use Rattle.line_collect.specs.Laws.{fault_of_no_report, out_of_memory_any_report};

    ghost Answer = { CollectAnswer };

    ghost rules = { collect_rules };

    ghost faulted = { Faulted };

    ghost missed = { λ _ old. old };

    fn answer<K: Sink>(
        &mut self,
        row: &FieldRow<'_>,
        sink: &mut K,
        writer: &mut RecordWriter,
    ) -> Result<Outcome, Stop> {
        answer_one(
            self.alloc,
            &mut self.collection,
            row,
            &mut self.reader,
            sink,
            writer,
        )
    }

    fn miss(&mut self, _error: ReadError) {}

    ghost bad_record = { fault_of_no_report };

    ghost no_memory = { out_of_memory_any_report };

    ghost fault_records = { λ _. refl };

    ghost fault_outcome = { λ _. refl };
}

/// Reads reports from a source for as long as it gives bytes, and puts the answers to them.
///
/// The first record is `reports,V,N`; each record after it is a report of what a process did, or
/// asks for a plan, a recovery, the history or a check text, or that what is never needed again is
/// let go (docs/REPORTS.md). Each is answered by
/// its records, or by `fault,CODE,NAME`, and then by an empty line. All that was read is answered,
/// put and let out before more is asked for. It fails where memory does not suffice for the start,
/// before anything is read, and where a device fails. After a failure of the source what was read
/// of a line that has not ended is not answered.
pub fn collect<S: Source, K: Sink>(
    alloc: Global,
    source: &mut S,
    sink: &mut K,
) -> Result<Outcome, ServeError>
    // What the source gave, to its end, was answered, and this is the worst of the answers.
    ensures done { IfOk result (λ outcome. (text : List ℕ)
        × GivesText text (S.left source.old) (S.left source.new) (S.given source.old)
        (S.given source.new)
        × spec.AnswersText collect_rules None text outcome (K.taken sink.old) (K.taken sink.new)) }

    // Where memory is out, nothing begins.
    ensures memory { result ≡ Err errors.OutOfMemory → (source.new ≡ source.old)
        × (sink.new ≡ sink.old) }

    // Where the source failed, all lines that ended before are answered.
    ensures read { result ≡ Err errors.Read → spec.AnswersUntilFailure collect_rules None
        (S.left source.old) (S.left source.new) (S.given source.old) (S.given source.new)
        (K.taken sink.old) (K.taken sink.new) }
    ensures cause { result ≡ Err errors.Read
        → (S.faults source.new ≡ one_more (S.faults source.old))
        ⊎ (S.given source.old + (2 ^ 64 - 1) ≤ S.given source.new) }

    // Where the sink failed, what it took is a prefix of the answers.
    ensures write { result ≡ Err errors.Write → spec.AnswersFrontOf collect_rules None
        (S.left source.old) (S.left source.new) (S.given source.old) (S.given source.new)
        (K.taken sink.old) (K.taken sink.new) }

    // No failure is passed over, and a device that is sound is not blamed.
    ensures heard { OnOk result (S.faults source.new ≡ S.faults source.old) }
    ensures sound { OnOk result (K.faults sink.new ≡ K.faults sink.old) }
    ensures kept { result ≡ Err errors.Read → K.faults sink.new ≡ K.faults sink.old }
    ensures blamed { result ≡ Err errors.Write → (S.faults source.new ≡ S.faults source.old)
        × (K.faults sink.new ≡ one_more (K.faults sink.old)) }

    // Once the source said that nothing is left, it is asked no more.
    ensures ended { OnOk result (S.ends source.new ≡ one_more (S.ends source.old)) }
{
    converse(alloc, Collecting::new(alloc), source, sink)
}

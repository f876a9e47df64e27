//! One report: what it asks for is done, and the answer is written.

ghost use Rattle.std.specs.Prelude.{◌≡◌, ◌++◌, Ok, Err, length};
ghost use Rattle.line_collect.specs.Answers as spec;
ghost use Rattle.line_collect.specs.Collections.{IsPlanToGoBack};
ghost use Rattle.line_collect.specs.Lives.{LiveCollectionView};
ghost use Rattle.line_collect.specs.Writing.{DoesReport, TellsLive, outcome_if_written};
ghost use Rattle.line_devices.specs.Devices.{Outputs};
ghost use Rattle.line_fields.specs.Texts.{record_text};
ghost use Rattle.line_collect.specs.declared.reports.Report.{Report};
ghost use Rattle.line_collect.specs.declared.reports.Report.TheVariants as reports;
ghost use Rattle.line_collect.specs.Ranges.{IsReportInRange};
ghost use Rattle.line_collect.specs.Shown.{report_of_ref};

use crate::live_collections::LiveCollection;
use crate::plan_records::put_plan_records;
use crate::refusals::CollectError;
use crate::reports::ReportRef;
use crate::tellings::Told;
use line_claims::{ClaimRef, numbers_of};
use line_devices::{DeviceFault, Sink};
use line_fields::{Field, ReadError, RecordWriter, put_ending, put_numbers};
use line_live::ForgetError;
use line_names::{MsgName, ProcSet};
use line_plan::Plan;
use line_text::{
    Outcome, Stop, everybody, put_left_claim, put_left_history, put_let_go, put_refusal,
    refusal_number,
};
use std::alloc::Global;

/// The outcome of an answer, if all of it was written.
fn outcome_if_written(written: Result<(), DeviceFault>, outcome: Outcome) -> Result<Outcome, Stop>
    ensures { result ≡ outcome_if_written written outcome }
{
    match written {
        Ok(()) => Ok(outcome),
        Err(_) => Err(Stop::Write),
    }
}

/// Writes what became of a report that was taken.
fn put_told<K: Sink>(
    sink: &mut K,
    writer: &mut RecordWriter,
    told: &Told,
) -> Result<(), DeviceFault>
    ensures { Outputs result (K.taken sink.old) (K.taken sink.new) (K.faults sink.old)
        (K.faults sink.new) writer.new
        (writer.old ++ record_text (spec.told_record told.now)) }
{
    match told {
        Told::Sent(message) => put_numbers(sink, writer, b"sent", &numbers_of(*message)),
        Told::Took(message) => {
            put_ending(
                sink,
                writer,
                b"took",
                &numbers_of(*message),
                Field::Word(b"-"),
            )
        }
        Told::Checked { at, check } => {
            put_numbers(sink, writer, b"checked", &[at.get() as u64, *check as u64])
        }
        Told::Marked(round) => {
            put_ending(sink, writer, b"marked", &[*round as u64], Field::Word(b"-"))
        }
        Told::Damaged { at, check } => {
            put_numbers(sink, writer, b"damaged", &[at.get() as u64, *check as u64])
        }
        Told::Barred { at, check } => {
            put_numbers(sink, writer, b"barred", &[at.get() as u64, *check as u64])
        }
    }
}

/// Writes what became of a report, or its refusal. Where memory was out nothing is written.
fn tell<K: Sink>(
    sink: &mut K,
    writer: &mut RecordWriter,
    answer: Result<Told, CollectError>,
) -> Result<Outcome, Stop>
    ensures { (old new : LiveCollectionView) (report : Report) → TellsLive old report answer new
        → DoesReport old report result new (K.taken sink.old) (K.taken sink.new)
        (K.faults sink.old) (K.faults sink.new) writer.old writer.new }
{
    match answer {
        Ok(told) => outcome_if_written(put_told(sink, writer, &told), Outcome::Done),
        Err(CollectError::OutOfMemory) => Err(Stop::Fault(ReadError::OutOfMemory)),
        Err(error) => {
            let put = put_refusal(sink, writer, error.code());
            outcome_if_written(put, Outcome::Refused)
        }
    }
}

/// Writes what is kept of the history.
fn put_collected<K: Sink>(
    live: &LiveCollection,
    sink: &mut K,
    writer: &mut RecordWriter,
) -> Result<Outcome, Stop>
    ensures { DoesReport live.now reports.History result live.now (K.taken sink.old)
        (K.taken sink.new) (K.faults sink.old) (K.faults sink.new) writer.old writer.new }
{
    let put = put_left_history(sink, writer, live.floor(), live.kept().history());
    outcome_if_written(put, Outcome::Done)
}

/// Writes the check text of the plan for these failed processes.
#[inline(never)]
fn put_bundle<K: Sink>(
    alloc: Global,
    live: &LiveCollection,
    sink: &mut K,
    writer: &mut RecordWriter,
    failed: &ProcSet,
) -> Result<Outcome, Stop>
    ensures { DoesReport live.now (reports.Bundle failed.now) result live.now (K.taken sink.old)
        (K.taken sink.new) (K.faults sink.old) (K.faults sink.new) writer.old writer.new }
{
    let kept = live.kept();
    match kept.plan_for(alloc, failed) {
        Ok(plan) => {
            let claim = ClaimRef {
                marks: kept.marks(),
                failed,
                line: &plan.line,
                certificate: plan.certificate.as_slice(),
            };
            let put = put_left_claim(sink, writer, live.floor(), kept.history(), &claim);
            outcome_if_written(put, Outcome::Done)
        }
        Err(_) => Err(Stop::Fault(ReadError::OutOfMemory)),
    }
}

/// Writes the plan for these failed processes.
#[inline(never)]
fn put_plan_for<K: Sink>(
    alloc: Global,
    live: &LiveCollection,
    sink: &mut K,
    writer: &mut RecordWriter,
    failed: &ProcSet,
) -> Result<Outcome, Stop>
    ensures { DoesReport live.now (reports.Plan failed.now) result live.now (K.taken sink.old)
        (K.taken sink.new) (K.faults sink.old) (K.faults sink.new) writer.old writer.new }
{
    match live.kept().plan(alloc, failed) {
        Ok(plan) => {
            let mut plan = plan;
            live.bring_names_back(failed, &mut plan);
            let put = put_plan_records(sink, writer, b"planned", live, &plan);
            outcome_if_written(put, Outcome::Done)
        }
        Err(error) => tell(sink, writer, Err(error)),
    }
}

/// Writes the plan where every process fails.
#[inline(never)]
fn put_live_plan<K: Sink>(
    alloc: Global,
    live: &LiveCollection,
    sink: &mut K,
    writer: &mut RecordWriter,
) -> Result<Outcome, Stop>
    ensures { DoesReport live.now reports.Live result live.now (K.taken sink.old)
        (K.taken sink.new) (K.faults sink.old) (K.faults sink.new) writer.old writer.new }
{
    let failed = everybody(live.kept().history().n());
    put_plan_for(alloc, live, sink, writer, &failed)
}

/// Writes a plan for these failed processes, and has each process go on from its line.
fn recover_by<K: Sink>(
    live: &mut LiveCollection,
    sink: &mut K,
    writer: &mut RecordWriter,
    failed: &ProcSet,
    plan: Plan,
    replays: Vec<MsgName>,
) -> Result<Outcome, Stop>
    requires plan { IsPlanToGoBack live.old.kept failed.now plan }
    requires replays { replays.items ≡ plan.replays.items }
    ensures { DoesReport live.old (reports.Recover failed.now) result live.new (K.taken sink.old)
        (K.taken sink.new) (K.faults sink.old) (K.faults sink.new) writer.old writer.new }
{
    let mut plan = plan;
    live.bring_names_back(failed, &mut plan);
    let put = put_plan_records(sink, writer, b"recovered", live, &plan);
    live.go_on(&plan.line, replays);
    outcome_if_written(put, Outcome::Done)
}

/// Plans for these failed processes, writes the plan, and has each process go on from its line.
#[inline(never)]
fn recover<K: Sink>(
    alloc: Global,
    live: &mut LiveCollection,
    sink: &mut K,
    writer: &mut RecordWriter,
    failed: &ProcSet,
) -> Result<Outcome, Stop>
    ensures { DoesReport live.old (reports.Recover failed.now) result live.new (K.taken sink.old)
        (K.taken sink.new) (K.faults sink.old) (K.faults sink.new) writer.old writer.new }
{
    match live.kept().plan(alloc, failed) {
        Ok(plan) => match Vec::from_slice(alloc, plan.replays.as_slice()) {
            Ok(replays) => recover_by(live, sink, writer, failed, plan, replays),
            Err(_) => Err(Stop::Fault(ReadError::OutOfMemory)),
        },
        Err(error) => tell(sink, writer, Err(error)),
    }
}

/// Lets go what stands before the line where every process fails, and writes what was let go of
/// each process in all.
#[inline(never)]
fn forget<K: Sink>(
    alloc: Global,
    live: &mut LiveCollection,
    sink: &mut K,
    writer: &mut RecordWriter,
) -> Result<Outcome, Stop>
    ensures { DoesReport live.old reports.Forget result live.new (K.taken sink.old)
        (K.taken sink.new) (K.faults sink.old) (K.faults sink.new) writer.old writer.new }
{
    match live.forget(alloc) {
        Ok(()) => {
            let n = live.kept().history().n();
            let put = put_let_go(sink, writer, n, live.floor(), None);
            outcome_if_written(put, Outcome::Done)
        }
        Err(ForgetError::OutOfMemory) => Err(Stop::Fault(ReadError::OutOfMemory)),
        Err(error) => {
            let put = put_refusal(sink, writer, refusal_number(error));
            outcome_if_written(put, Outcome::Refused)
        }
    }
}

/// Does what a report asks for, and writes the answer after what a writer holds.
///
/// Memory is asked for before anything is changed or written.
pub(crate) fn answer_report<K: Sink>(
    alloc: Global,
    live: &mut LiveCollection,
    sink: &mut K,
    writer: &mut RecordWriter,
    report: &ReportRef<'_>,
) -> Result<Outcome, Stop>
    requires { IsReportInRange (length live.old.kept.history) (report_of_ref report.now) }
    ensures { DoesReport live.old (report_of_ref report.now) result live.new
        (K.taken sink.old) (K.taken sink.new) (K.faults sink.old) (K.faults sink.new) writer.old
        writer.new }
{
    match report {
        ReportRef::Send {
            by,
            incarnation,
            to,
            body,
        } => tell(sink, writer, live.send(*by, *incarnation, *to, body)),
        ReportRef::Receive {
            by,
            incarnation,
            message,
        } => tell(sink, writer, live.receive(*by, *incarnation, message)),
        ReportRef::Check {
            by,
            incarnation,
            state,
            round,
        } => {
            let answer = live.check(alloc, *by, *incarnation, state, *round);
            tell(sink, writer, answer)
        }
        ReportRef::Mark {
            by,
            incarnation,
            from,
            round,
        } => tell(sink, writer, live.mark(*by, *incarnation, *from, *round)),
        ReportRef::Damage { by, check } => tell(sink, writer, live.damage(*by, *check)),
        ReportRef::Bar { by, check } => tell(sink, writer, live.bar(*by, *check)),
        ReportRef::Plan(failed) => put_plan_for(alloc, live, sink, writer, failed),
        ReportRef::Live => put_live_plan(alloc, live, sink, writer),
        ReportRef::Recover(failed) => recover(alloc, live, sink, writer, failed),
        ReportRef::Forget => forget(alloc, live, sink, writer),
        ReportRef::History => put_collected(live, sink, writer),
        ReportRef::Bundle(failed) => put_bundle(alloc, live, sink, writer, failed),
        ReportRef::Refused(code) => {
            let put = put_refusal(sink, writer, *code);
            outcome_if_written(put, Outcome::Refused)
        }
    }
}

//! The report of a record of each kind, by its fields after the first.

ghost use Rattle.std.specs.Prelude.{◌≡◌, ◌≤◌, ◌==◌, ℕ, Bool, List};
ghost use Rattle.line_names.specs.declared.limits.TheConstants.{MOST_PROCESSES};
ghost use Rattle.line_fields.specs.declared.faults.Fault.TheVariants as faults;
ghost use Rattle.line_fields.specs.Faults.{code_of};
ghost use Rattle.line_fields.specs.Fields.{Gives};
ghost use Rattle.line_fields.specs.Shapes.{alone};
ghost use Rattle.line_collect.specs.declared.reports.Report.{Report};
ghost use Rattle.line_collect.specs.Keeping.{of_some_or_refused, report_with_bytes};
ghost use Rattle.line_collect.specs.Reports as spec;

use crate::keeping::KeptReport;
use crate::numbers::{incarnation_in, round_in, round_or_none_in};
use line_claims::{failed_of, plain, want};
use line_fields::{Fault, FieldRow, ReadError, hex_into};
use line_names::{MsgName, ProcId, ProcSet};

// A report of which a process isn't below the number of processes.
fn no_such_process() -> KeptReport
    ensures { result ≡ KeptReport.Refused (code_of faults.NoSuchProcess) }
{
    KeptReport::Refused(Fault::NoSuchProcess.code())
}

/// The report of a `send` record.
#[tactic(auto, unfolding(crate::specs::Reports::send_report, line_fields::specs::Shapes::four))]
pub(crate) fn send_report(
    n: u32,
    row: &FieldRow<'_>,
    bytes: &mut Vec<u8>,
) -> Result<KeptReport, ReadError>
    requires { n ≤ MOST_PROCESSES }
    ensures { Gives (λ kept. report_with_bytes kept bytes.new.items) result
        (spec.send_report n row.now) }
{
    want(row.len() == 5, Fault::BadRecord)?;
    let by = plain(row, 1)?;
    let incarnation = incarnation_in(row, 2)?;
    let to = plain(row, 3)?;
    hex_into(bytes, row.field(4))?;
    let Ok(by) = ProcId::try_new(by, n) else {
        return Ok(no_such_process());
    };
    let Ok(to) = ProcId::try_new(to, n) else {
        return Ok(no_such_process());
    };
    Ok(KeptReport::Send {
        by,
        incarnation,
        to,
    })
}

/// The report of a `recv` record, which carries no bytes.
#[inline(never)]
#[tactic(auto, unfolding(crate::specs::Reports::receive_report, line_fields::specs::Shapes::five))]
pub(crate) fn receive_report(n: u32, row: &FieldRow<'_>) -> Result<KeptReport, ReadError>
    requires { n ≤ MOST_PROCESSES }
    ensures { (bytes : List ℕ) → Gives (λ kept. report_with_bytes kept bytes) result
        (spec.receive_report n row.now) }
{
    want(row.len() == 6, Fault::BadRecord)?;
    let by = plain(row, 1)?;
    let incarnation = incarnation_in(row, 2)?;
    let sender = plain(row, 3)?;
    let inc = incarnation_in(row, 4)?;
    let number = plain(row, 5)?;
    let Ok(by) = ProcId::try_new(by, n) else {
        return Ok(no_such_process());
    };
    let Ok(sender) = ProcId::try_new(sender, n) else {
        return Ok(no_such_process());
    };
    let message = MsgName {
        from: sender,
        inc,
        number,
    };
    Ok(KeptReport::Receive {
        by,
        incarnation,
        message,
    })
}

/// The report of a `check` record.
#[tactic(auto, unfolding(crate::specs::Reports::check_report, line_fields::specs::Shapes::four))]
pub(crate) fn check_report(
    n: u32,
    row: &FieldRow<'_>,
    bytes: &mut Vec<u8>,
) -> Result<KeptReport, ReadError>
    requires { n ≤ MOST_PROCESSES }
    ensures { Gives (λ kept. report_with_bytes kept bytes.new.items) result
        (spec.check_report n row.now) }
{
    want(row.len() == 5, Fault::BadRecord)?;
    let by = plain(row, 1)?;
    let incarnation = incarnation_in(row, 2)?;
    hex_into(bytes, row.field(3))?;
    let round = round_or_none_in(row, 4)?;
    let Ok(by) = ProcId::try_new(by, n) else {
        return Ok(no_such_process());
    };
    Ok(KeptReport::Check {
        by,
        incarnation,
        round,
    })
}

/// The report of a `mark` record, which carries no bytes.
#[inline(never)]
#[tactic(auto, unfolding(crate::specs::Reports::mark_report, line_fields::specs::Shapes::four))]
pub(crate) fn mark_report(n: u32, row: &FieldRow<'_>) -> Result<KeptReport, ReadError>
    requires { n ≤ MOST_PROCESSES }
    ensures { (bytes : List ℕ) → Gives (λ kept. report_with_bytes kept bytes) result
        (spec.mark_report n row.now) }
{
    want(row.len() == 5, Fault::BadRecord)?;
    let by = plain(row, 1)?;
    let incarnation = incarnation_in(row, 2)?;
    let from = plain(row, 3)?;
    let round = round_in(row, 4)?;
    let Ok(by) = ProcId::try_new(by, n) else {
        return Ok(no_such_process());
    };
    let Ok(from) = ProcId::try_new(from, n) else {
        return Ok(no_such_process());
    };
    Ok(KeptReport::Mark {
        by,
        incarnation,
        from,
        round,
    })
}

// The process and the check of a record; none where there is no such process.
#[tactic(auto, unfolding(crate::specs::Reports::report_of_check, line_fields::specs::Shapes::two))]
fn process_and_check(n: u32, row: &FieldRow<'_>) -> Result<Option<(ProcId, u32)>, ReadError>
    requires { n ≤ MOST_PROCESSES }
    ensures { (report : ℕ → ℕ → Report)
        → Gives (of_some_or_refused (λ found. report found.0 found.1)) result
        (spec.report_of_check report n row.now) }
{
    want(row.len() == 3, Fault::BadRecord)?;
    let by = plain(row, 1)?;
    let check = plain(row, 2)?;
    match ProcId::try_new(by, n) {
        Ok(by) => Ok(Some((by, check))),
        Err(_) => Ok(None),
    }
}

/// The report of a `damage` record, which carries no bytes.
#[inline(never)]
pub(crate) fn damage_report(n: u32, row: &FieldRow<'_>) -> Result<KeptReport, ReadError>
    requires { n ≤ MOST_PROCESSES }
    ensures { (bytes : List ℕ) → Gives (λ kept. report_with_bytes kept bytes) result
        (spec.report_of_check Report.Damage n row.now) }
{
    match process_and_check(n, row)? {
        Some((by, check)) => Ok(KeptReport::Damage { by, check }),
        None => Ok(no_such_process()),
    }
}

/// The report of a `bar` record, which carries no bytes.
#[inline(never)]
pub(crate) fn bar_report(n: u32, row: &FieldRow<'_>) -> Result<KeptReport, ReadError>
    requires { n ≤ MOST_PROCESSES }
    ensures { (bytes : List ℕ) → Gives (λ kept. report_with_bytes kept bytes) result
        (spec.report_of_check Report.Bar n row.now) }
{
    match process_and_check(n, row)? {
        Some((by, check)) => Ok(KeptReport::Bar { by, check }),
        None => Ok(no_such_process()),
    }
}

// The fault says that there is no such process.
fn is_no_such_process(fault: Fault) -> bool
    ensures { result ≡ (code_of fault == code_of faults.NoSuchProcess) }
{
    fault.code() == Fault::NoSuchProcess.code()
}

// The processes of a record; none where there is no such process.
fn failed_or_none(n: u32, row: &FieldRow<'_>) -> Result<Option<ProcSet>, ReadError>
    requires { n ≤ MOST_PROCESSES }
    ensures { (report : List Bool → Report)
        → Gives (of_some_or_refused report) result (spec.report_of_failed report n row.now) }
{
    match failed_of(n, row) {
        Ok(failed) => Ok(Some(failed)),
        Err(fault) if is_no_such_process(fault) => Ok(None),
        Err(fault) => Err(ReadError::Fault(fault)),
    }
}

/// The report of a `plan` record, which carries no bytes.
#[inline(never)]
pub(crate) fn plan_report(n: u32, row: &FieldRow<'_>) -> Result<KeptReport, ReadError>
    requires { n ≤ MOST_PROCESSES }
    ensures { (bytes : List ℕ) → Gives (λ kept. report_with_bytes kept bytes) result
        (spec.report_of_failed Report.Plan n row.now) }
{
    match failed_or_none(n, row)? {
        Some(failed) => Ok(KeptReport::Plan(failed)),
        None => Ok(no_such_process()),
    }
}

/// The report of a `recover` record, which carries no bytes.
#[inline(never)]
pub(crate) fn recover_report(n: u32, row: &FieldRow<'_>) -> Result<KeptReport, ReadError>
    requires { n ≤ MOST_PROCESSES }
    ensures { (bytes : List ℕ) → Gives (λ kept. report_with_bytes kept bytes) result
        (spec.report_of_failed Report.Recover n row.now) }
{
    match failed_or_none(n, row)? {
        Some(failed) => Ok(KeptReport::Recover(failed)),
        None => Ok(no_such_process()),
    }
}

/// The report of a `bundle` record, which carries no bytes.
#[inline(never)]
pub(crate) fn bundle_report(n: u32, row: &FieldRow<'_>) -> Result<KeptReport, ReadError>
    requires { n ≤ MOST_PROCESSES }
    ensures { (bytes : List ℕ) → Gives (λ kept. report_with_bytes kept bytes) result
        (spec.report_of_failed Report.Bundle n row.now) }
{
    match failed_or_none(n, row)? {
        Some(failed) => Ok(KeptReport::Bundle(failed)),
        None => Ok(no_such_process()),
    }
}

/// The report of a `live` record, which has no other field.
#[inline(never)]
#[tactic(auto, unfolding(line_fields::specs::Shapes::alone))]
pub(crate) fn live_report(row: &FieldRow<'_>) -> Result<KeptReport, ReadError>
    ensures { (bytes : List ℕ) → Gives (λ kept. report_with_bytes kept bytes) result
        (alone Report.Live row.now) }
{
    want(row.len() == 1, Fault::BadRecord)?;
    Ok(KeptReport::Live)
}

/// The report of a `forget` record, which has no other field.
#[inline(never)]
#[tactic(auto, unfolding(line_fields::specs::Shapes::alone))]
pub(crate) fn forget_report(row: &FieldRow<'_>) -> Result<KeptReport, ReadError>
    ensures { (bytes : List ℕ) → Gives (λ kept. report_with_bytes kept bytes) result
        (alone Report.Forget row.now) }
{
    want(row.len() == 1, Fault::BadRecord)?;
    Ok(KeptReport::Forget)
}

/// The report of a `history` record, which has no other field.
#[inline(never)]
#[tactic(auto, unfolding(line_fields::specs::Shapes::alone))]
pub(crate) fn history_report(row: &FieldRow<'_>) -> Result<KeptReport, ReadError>
    ensures { (bytes : List ℕ) → Gives (λ kept. report_with_bytes kept bytes) result
        (alone Report.History row.now) }
{
    want(row.len() == 1, Fault::BadRecord)?;
    Ok(KeptReport::History)
}

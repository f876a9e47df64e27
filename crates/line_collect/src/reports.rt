//! What one record of reports says.

ghost use Rattle.std.specs.Prelude.{◌≡◌, ◌≤◌, IfOk};
ghost use Rattle.line_names.specs.declared.limits.TheConstants.{MOST_PROCESSES};
ghost use Rattle.line_fields.specs.Fields.{Gives};
ghost use Rattle.line_collect.specs.Keeping.{report_with_bytes};
ghost use Rattle.line_collect.specs.Reports as spec;

use crate::keeping::KeptReport;
use crate::kinds::{
    bar_report, bundle_report, check_report, damage_report, forget_report, history_report,
    live_report, mark_report, plan_report, receive_report, recover_report, send_report,
};
use crate::names::{ReportName, report_name_in};
use line_claims::{LAST_VERSION, most_in, plain, want};
use line_fields::{Fault, FieldRow, ReadError};
use line_names::{MsgName, ProcId, ProcSet};
use line_tape::State;

/// What a record says that a process did, or what it asks for. Each process is one of those that
/// there are.
#[derive(Debug, Drop)]
pub enum Report {
    /// A process, under its incarnation, sent a message to another. The bytes of the body may be
    /// more than a message has.
    Send {
        by: ProcId,
        incarnation: u16,
        to: ProcId,
        body: State,
    },
    /// A process, under its incarnation, received a message.
    Receive {
        by: ProcId,
        incarnation: u16,
        message: MsgName,
    },
    /// A process, under its incarnation, took a check; one that belongs to a round carries the
    /// round's number. The bytes of the state may be more than a check stores.
    Check {
        by: ProcId,
        incarnation: u16,
        state: State,
        round: Option<u32>,
    },
    /// The marker of a round came to a process, under its incarnation, from another.
    Mark {
        by: ProcId,
        incarnation: u16,
        from: ProcId,
        round: u32,
    },
    /// A check of a process is found to be damaged.
    Damage {
        by: ProcId,
        check: u32,
    },
    /// A process is barred at a check, until the next recovery.
    Bar {
        by: ProcId,
        check: u32,
    },
    /// Where each process would go on if these failed now. Nothing changes.
    Plan(ProcSet),
    /// Where each process would go on if every process failed now. Nothing changes.
    Live,
    /// These processes failed, and all go on from the latest line.
    Recover(ProcSet),
    /// What stands before the line where every process fails is let go.
    Forget,
    /// The history as it stands, as a text.
    History,
    /// A check text of the plan for these failed processes.
    Bundle(ProcSet),
    /// Nothing: a process isn't below the number of processes. It has the number of the refusal.
    Refused(u32),
}

/// What a record says, its bytes or set lent, so that the reader keeps them. It is the report that
/// `report_of_ref` says.
#[derive(Clone, Copy, Debug)]
pub enum ReportRef<'a> {
    /// A process, under its incarnation, sent a message to another. The bytes of the body may be
    /// more than a message has.
    Send {
        by: ProcId,
        incarnation: u16,
        to: ProcId,
        body: &'a [u8],
    },
    /// A process, under its incarnation, received a message.
    Receive {
        by: ProcId,
        incarnation: u16,
        message: MsgName,
    },
    /// A process, under its incarnation, took a check; one that belongs to a round carries the
    /// round's number. The bytes of the state may be more than a check stores.
    Check {
        by: ProcId,
        incarnation: u16,
        state: &'a [u8],
        round: Option<u32>,
    },
    /// The marker of a round came to a process, under its incarnation, from another.
    Mark {
        by: ProcId,
        incarnation: u16,
        from: ProcId,
        round: u32,
    },
    /// A check of a process is found to be damaged.
    Damage {
        by: ProcId,
        check: u32,
    },
    /// A process is barred at a check, until the next recovery.
    Bar {
        by: ProcId,
        check: u32,
    },
    /// Where each process would go on if these failed now. Nothing changes.
    Plan(&'a ProcSet),
    /// Where each process would go on if every process failed now. Nothing changes.
    Live,
    /// These processes failed, and all go on from the latest line.
    Recover(&'a ProcSet),
    /// What stands before the line where every process fails is let go.
    Forget,
    /// The history as it stands, as a text.
    History,
    /// A check text of the plan for these failed processes.
    Bundle(&'a ProcSet),
    /// Nothing: a process isn't below the number of processes. It has the number of the refusal.
    Refused(u32),
}

/// The number of processes, as the first record of reports says, or its first fault.
#[tactic(auto, unfolding(crate::specs::Reports::reports_of))]
pub fn reports_of(row: &FieldRow<'_>) -> Result<u32, Fault>
    ensures exact { result ≡ spec.reports_of row.now }
    ensures within { IfOk result (λ n. (1 ≤ n) × (n ≤ MOST_PROCESSES)) }
{
    want(row.field(0) == b"reports".as_slice(), Fault::NoWorld)?;
    want(row.len() == 3, Fault::BadRecord)?;
    let version = plain(row, 1)?;
    let n = plain(row, 2)?;
    let known = 1 <= version && version <= LAST_VERSION;
    want(known, Fault::BadVersion)?;
    want(1 <= n && n <= most_in(version), Fault::BadCount)?;
    Ok(n)
}

/// The report that a record after the first spells, or its first fault. The bytes that the report
/// carries are put in place of those that a list has.
#[inline(always)]
#[tactic(auto, unfolding(crate::specs::Reports::report_in))]
pub(crate) fn report_in(
    n: u32,
    row: &FieldRow<'_>,
    bytes: &mut Vec<u8>,
) -> Result<KeptReport, ReadError>
    requires { n ≤ MOST_PROCESSES }
    ensures { Gives (λ kept. report_with_bytes kept bytes.new.items) result
        (spec.report_in n row.now) }
{
    let Some(name) = report_name_in(row.field(0)) else {
        return Err(ReadError::Fault(Fault::BadRecord));
    };
    match name {
        ReportName::Send => send_report(n, row, bytes),
        ReportName::Recv => receive_report(n, row),
        ReportName::Check => check_report(n, row, bytes),
        ReportName::Mark => mark_report(n, row),
        ReportName::Damage => damage_report(n, row),
        ReportName::Bar => bar_report(n, row),
        ReportName::Plan => plan_report(n, row),
        ReportName::Live => live_report(row),
        ReportName::Recover => recover_report(n, row),
        ReportName::Forget => forget_report(row),
        ReportName::History => history_report(row),
        ReportName::Bundle => bundle_report(n, row),
    }
}

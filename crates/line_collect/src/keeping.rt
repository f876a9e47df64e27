//! A report that is kept, beside the bytes that it carries.

ghost use Rattle.std.specs.Prelude.{◌≡◌};
ghost use Rattle.line_collect.specs.Keeping.{report_with_bytes};
ghost use Rattle.line_collect.specs.Shown.{report_of_ref};

use crate::reports::ReportRef;
use line_names::{MsgName, ProcId, ProcSet};
use std::mem::size_of;

/// A report without the bytes that a body or a state has.
#[derive(Clone, Copy)]
pub(crate) enum KeptReport {
    Send {
        by: ProcId,
        incarnation: u16,
        to: ProcId,
    },
    Receive {
        by: ProcId,
        incarnation: u16,
        message: MsgName,
    },
    Check {
        by: ProcId,
        incarnation: u16,
        round: Option<u32>,
    },
    Mark {
        by: ProcId,
        incarnation: u16,
        from: ProcId,
        round: u32,
    },
    Damage {
        by: ProcId,
        check: u32,
    },
    Bar {
        by: ProcId,
        check: u32,
    },
    Plan(ProcSet),
    Live,
    Recover(ProcSet),
    Forget,
    History,
    Bundle(ProcSet),
    Refused(u32),
}

const _: () = prove!(size_of::<KeptReport>() == 40);

/// The report that it makes with its bytes, which are lent.
#[inline(always)]
pub(crate) fn report_lent<'a>(kept: &'a KeptReport, bytes: &'a [u8]) -> ReportRef<'a>
    ensures { report_of_ref result ≡ report_with_bytes kept.now bytes.now }
{
    match kept {
        KeptReport::Send {
            by,
            incarnation,
            to,
        } => ReportRef::Send {
            by: *by,
            incarnation: *incarnation,
            to: *to,
            body: bytes,
        },
        KeptReport::Receive {
            by,
            incarnation,
            message,
        } => ReportRef::Receive {
            by: *by,
            incarnation: *incarnation,
            message: *message,
        },
        KeptReport::Check {
            by,
            incarnation,
            round,
        } => ReportRef::Check {
            by: *by,
            incarnation: *incarnation,
            state: bytes,
            round: *round,
        },
        KeptReport::Mark {
            by,
            incarnation,
            from,
            round,
        } => ReportRef::Mark {
            by: *by,
            incarnation: *incarnation,
            from: *from,
            round: *round,
        },
        KeptReport::Damage { by, check } => ReportRef::Damage {
            by: *by,
            check: *check,
        },
        KeptReport::Bar { by, check } => ReportRef::Bar {
            by: *by,
            check: *check,
        },
        KeptReport::Plan(failed) => ReportRef::Plan(failed),
        KeptReport::Live => ReportRef::Live,
        KeptReport::Recover(failed) => ReportRef::Recover(failed),
        KeptReport::Forget => ReportRef::Forget,
        KeptReport::History => ReportRef::History,
        KeptReport::Bundle(failed) => ReportRef::Bundle(failed),
        KeptReport::Refused(code) => ReportRef::Refused(*code),
    }
}

//! The report of one record at a time.

ghost use Rattle.std.specs.Prelude.{◌≡◌, ◌≤◌, OnOk};
ghost use Rattle.line_fields.specs.Fields.{Gives};
ghost use Rattle.line_names.specs.declared.limits.TheConstants.{MOST_PROCESSES};
ghost use Rattle.line_collect.specs.Ranges.{IsReportInRange};
ghost use Rattle.line_collect.specs.Reports as spec;
ghost use Rattle.line_collect.specs.Shown.{report_of_ref};

use crate::keeping::{KeptReport, report_lent};
use crate::reports::{Report, ReportRef, report_in};
use line_fields::{FieldRow, ReadError};
use std::alloc::Global;
use std::marker::Model;

/// The report that a record spells, in room that is used again for the next record.
///
/// The room is as large as the bytes of the longest body or state so far.
#[derive(Drop)]
pub struct ReportReader {
    kept: KeptReport,
    // What it carries, if it carries bytes.
    bytes: Vec<u8>,
}

impl Model for ReportReader {
    ghost use Rattle.line_collect.specs.declared.reports.Report.{Report};
    ghost use Rattle.line_collect.specs.Keeping.{report_with_bytes};

    ghost Value = { Report };

    ghost view = { λ s. report_with_bytes s.kept s.bytes.items };
}

impl ReportReader {
    /// A reader that has read no record: its report is `History`. It takes no memory.
    pub fn new(alloc: Global) -> ReportReader
        ensures { result ≡ Report.History }
    {
        ReportReader {
            kept: KeptReport::History,
            bytes: Vec::new(alloc),
        }
    }

    /// Reads the report that a record after the first spells, among `n` processes, or its first
    /// fault.
    ///
    /// It takes memory where the bytes of a body or a state are more than those of each record
    /// before.
    pub fn read(&mut self, n: u32, row: &FieldRow<'_>) -> Result<(), ReadError>
        requires { n ≤ MOST_PROCESSES }
        ensures exact { Gives (λ _. self.new) result (spec.report_in n row.now) }
        ensures range { OnOk result (IsReportInRange n self.new) }
    {
        self.kept = KeptReport::History;
        match report_in(n, row, &mut self.bytes) {
            Ok(kept) => {
                self.kept = kept;
                Ok(())
            }
            Err(error) => Err(error),
        }
    }

    /// The report that was read last, its bytes or set lent.
    pub fn report(&self) -> ReportRef<'_>
        ensures { report_of_ref result ≡ self.now }
    {
        report_lent(&self.kept, &self.bytes)
    }
}

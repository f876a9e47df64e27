//! The rows of a process, as it keeps and shows them.
ghost use Rattle.std.specs.Prelude.{◌≡◌, ◌<◌, ◌≤◌, ◌↔◌, [], IsTrue, Some, length, map, slice_get};
ghost use Rattle.line_catalogue.specs.Laid.{AreAmong, row_of};

use line_names::MOST_PROCESSES;
use line_vectors::{ReachRef, part_count};
use std::marker::Model;

/// What is kept of a check in sixteen bytes: after `start` lanes it is told where the parts of its
/// vector begin.
#[derive(Clone, Copy)]
pub(crate) struct KeptRow {
    pub(crate) place: u32,
    pub(crate) sends: u32,
    pub(crate) start: u32,
    pub(crate) damaged: bool,
}

/// What is known of a check: how many events of its tape, and how many sends among them, stand
/// before the choice of it, whether it is damaged, and how much the process had heard of each other
/// one.
#[derive(Drop)]
pub struct Row<'a> {
    pub place: u32,
    pub sends: u32,
    pub damaged: bool,
    pub reach: ReachRef<'a>,
}

/// The rows of a process, in the order of its checks.
#[derive(Drop)]
pub struct Rows<'a> {
    rows: &'a [KeptRow],
    lanes: &'a [u32],
    /// How many lanes a vector has.
    n: usize,
}

impl<'a> Model for Rows<'a> {
    ghost use Rattle.std.specs.Prelude.{◌≤◌, List, length, map};
    ghost use Rattle.line_names.specs.declared.limits.TheConstants.{MOST_PROCESSES};
    ghost use Rattle.line_catalogue.specs.declared.kept_rows.Row.{Row};
    ghost use Rattle.line_catalogue.specs.Laid.{AreAmong, row_of};

    ghost Value = { List Row };

    ghost view = { λ r. map (row_of r.n r.lanes.now) r.rows.now };

    ghost invariant = { λ r.
        (r.n ≤ MOST_PROCESSES) × AreAmong r.n r.lanes.now r.rows.now };
}

impl<'a> Rows<'a> {
    /// The rows that are kept so, their vectors of `n` lanes among these.
    pub(crate) fn of(rows: &'a [KeptRow], lanes: &'a [u32], n: usize) -> Rows<'a>
        requires few { n ≤ MOST_PROCESSES }
        requires among { AreAmong n lanes.now rows.now }
        ensures { result ≡ map (row_of n lanes.now) rows.now }
    {
        Rows { rows, lanes, n }
    }

    /// How many they are.
    pub fn len(&self) -> usize
        ensures { result ≡ length self.now }
    {
        self.rows.len()
    }

    /// Whether there is none.
    pub fn is_empty(&self) -> bool
        ensures { IsTrue result ↔ (self.now ≡ []) }
    {
        self.rows.is_empty()
    }

    /// The row of a check. It costs nothing.
    pub fn at(&self, check: usize) -> Row<'a>
        requires { check < length self.now }
        ensures { slice_get self.now check ≡ Some result }
    {
        let rows = self.rows;
        let lanes = self.lanes;
        let row = rows[check];
        let start = row.start as usize;
        let starts = &lanes[start..start + part_count(self.n)];
        Row {
            place: row.place,
            sends: row.sends,
            damaged: row.damaged,
            reach: ReachRef::in_parts(starts, lanes, self.n),
        }
    }
}

//! The rows and vectors of all processes.
ghost use Rattle.std.specs.Prelude.{◌≡◌, ◌≢◌, ◌<◌, ◌≤◌, ◌+◌, ℕ, [], All, length};
ghost use Rattle.std.specs.Prelude.{slice_set, slice_index_or, IfOk, IsOk, OnOk, if◌then◌else◌};
ghost use Rattle.line_names.specs.declared.choices.Choice.TheVariants.{Check as AtCheck};
ghost use Rattle.line_names.specs.Lines.{choice_at};
ghost use Rattle.line_tape.specs.Event.{checks, sends, NamesBelow};
ghost use Rattle.line_tape.specs.History.{tape_at};
ghost use Rattle.line_tape.specs.Survival.{is_damaged};
ghost use Rattle.line_tape.specs.Views.{damaged_at};
ghost use Rattle.line_vectors.specs.Reach.{reach_of};
ghost use Rattle.line_catalogue.specs.Damage.{AreOnChecks};
ghost use Rattle.line_catalogue.specs.Kept.{present_at, rows_at};
ghost use Rattle.line_catalogue.specs.Rows.{AreInStep, AreRows, WithPlaces, vector_after_event};
ghost use Rattle.line_catalogue.specs.Rows.{row_added};
ghost use Rattle.line_catalogue.specs.Rows.{rows_kept, vector_at, with_damage, with_row};

use crate::kept_rows::Rows;
use crate::rows::ProcessRows;
use line_names::{Choice, Line, MOST_PROCESSES, ProcId};
use line_tape::{Event, EventRef, History, MOST_EVENTS, Marks, Tape};
use line_vectors::{Reach, ReachRef};
use std::alloc::{AllocError, Global};
use std::marker::Model;

/// The rows of all processes, and the vectors of where they stand.
#[derive(Drop)]
pub struct RowTable {
    table: Vec<ProcessRows>,
}

impl Model for RowTable {
    ghost use Rattle.std.specs.Prelude.{map};
    ghost use Rattle.line_catalogue.specs.Kept.{TableView};

    ghost Value = { TableView };

    ghost use Rattle.line_catalogue.specs.Plain.{check_rows_of, present_of, rows_room};

    ghost view = { λ t. record {
      rows = map check_rows_of t.table.items;
      presents = map present_of t.table.items;
      rooms = map rows_room t.table.items;
    } };
}

/// The rows of a tape, with no damage, and its vector. It looks once at each event.
fn rows_of_tape(alloc: Global, n: u32, tape: &Tape) -> Result<ProcessRows, AllocError>
    requires some { 0 < n }
    requires few { n ≤ MOST_PROCESSES }
    requires named { All (NamesBelow n) tape.now.events }
    ensures rows { IfOk result (λ process. AreRows n tape.now.events [] process.rows) }
    ensures present { IfOk result (λ process. process.present ≡ reach_of n tape.now.events) }
{
    let mut process = ProcessRows::new(alloc, n)?;
    let mut sent = 0;
    for i in 0..tape.len() {
        let event = tape.event(i);
        process.reserve(1)?;
        process.append(&event, i + 1, sent);
        if let EventRef::Send { .. } = event {
            sent += 1;
        }
    }
    Ok(process)
}

/// The rows of the tape of a process with its marks, and its vector. It asks once for a mark of
/// each check.
fn rows_of(
    alloc: Global,
    n: u32,
    tape: &Tape,
    marks: &Marks,
    p: ProcId,
) -> Result<ProcessRows, AllocError>
    requires some { 0 < n }
    requires few { n ≤ MOST_PROCESSES }
    requires named { All (NamesBelow n) tape.now.events }
    ensures rows { IfOk result (λ process.
        AreRows n tape.now.events (damaged_at marks.now p) process.rows) }
    ensures present { IfOk result (λ process. process.present ≡ reach_of n tape.now.events) }
{
    let mut process = rows_of_tape(alloc, n, tape)?;
    for check in 0..tape.checks() + 1 {
        if marks.has(p, check) {
            process.damage(check);
        }
    }
    Ok(process)
}

impl RowTable {
    /// The rows of a history and its marks. It looks once at each event, and asks once for a mark
    /// of each check.
    pub fn of(alloc: Global, history: &History, marks: &Marks) -> Result<RowTable, AllocError>
        requires marked { AreOnChecks history.now.processes marks.now }
        requires count { length marks.now.damaged ≡ length history.now.processes }
        ensures count { IfOk result (λ table. length table.rows ≡ length history.now.processes) }
        ensures presents { IfOk result
            (λ table. length table.presents ≡ length history.now.processes) }
        ensures shown { IfOk result (λ table. (p : ℕ) → p < length history.now.processes
            → AreRows (length history.now.processes) (tape_at history.now.processes p)
            (damaged_at marks.now p) (rows_at table.rows p)) }
        ensures heard { IfOk result (λ table. (p : ℕ) → p < length history.now.processes
            → present_at table.presents p
            ≡ reach_of (length history.now.processes) (tape_at history.now.processes p)) }
    {
        let n = history.n();
        let mut table = Vec::with_capacity(alloc, n as usize)?;
        for q in 0..n {
            let p = ProcId::try_new(q, n).unwrap();
            let process = rows_of(alloc, n, history.tape(p), marks, p)?;
            table.push_reserved(process);
        }
        Ok(RowTable { table })
    }

    /// The rows of a process.
    pub fn at(&self, p: ProcId) -> Rows<'_>
        requires { p < length self.now.rows }
        ensures { result ≡ rows_at self.now.rows p }
    {
        self.table[p.get() as usize].rows()
    }

    /// The vector of where a process stands.
    pub fn present(&self, p: ProcId) -> &Reach
        requires { p < length self.now.presents }
        ensures { result.now ≡ present_at self.now.presents p }
    {
        self.table[p.get() as usize].present()
    }

    /// The vector of a choice of a process.
    pub fn reach(&self, p: ProcId, choice: Choice) -> ReachRef<'_>
        requires process { p < length self.now.rows }
        requires choice { (c : ℕ) → choice ≡ AtCheck c → c < length (rows_at self.now.rows p) }
        ensures { result
            ≡ vector_at (rows_at self.now.rows p) (present_at self.now.presents p) choice }
    {
        self.table[p.get() as usize].reach(choice)
    }

    /// Makes room for so many further events of a process.
    pub fn reserve(&mut self, p: ProcId, k: u32) -> Result<(), AllocError>
        requires { p < length self.old.rows }
        ensures same { self.new.rows ≡ self.old.rows }
        ensures presents { self.new.presents ≡ self.old.presents }
        ensures ok { OnOk result (k ≤ slice_index_or self.new.rooms p 0) }
        ensures succeeds { k ≤ slice_index_or self.old.rooms p 0 → IsOk result }
        ensures room { slice_index_or self.old.rooms p 0 ≤ slice_index_or self.new.rooms p 0 }
        ensures others { (q : ℕ) → q ≢ p
            → slice_index_or self.new.rooms q 0 ≡ slice_index_or self.old.rooms q 0 }
    {
        self.table[p.get() as usize].reserve(k)
    }

    /// Follows an event that comes next to the tape of a process, in room that was made for it.
    pub fn append(&mut self, p: ProcId, event: &Event, tape: &Tape)
        requires process { p < length self.old.rows }
        requires few { length (rows_at self.old.rows p) ≤ MOST_EVENTS }
        requires short { length tape.now.events < MOST_EVENTS }
        requires named { NamesBelow (length (present_at self.old.presents p)) event.now }
        requires room { 0 < slice_index_or self.old.rooms p 0 }
        ensures rows { self.new.rows
            ≡ slice_set self.old.rows p
            (with_row (rows_at self.old.rows p)
            (row_added (length tape.now.events + 1) (sends tape.now.events)
            (present_at self.old.presents p) event.now)) }
        ensures presents { self.new.presents
            ≡ slice_set self.old.presents p
            (vector_after_event (present_at self.old.presents p) event.now) }
        ensures room { slice_index_or self.old.rooms p 0 ≤ slice_index_or self.new.rooms p 0 + 1 }
        ensures others { (q : ℕ) → q ≢ p
            → slice_index_or self.new.rooms q 0 ≡ slice_index_or self.old.rooms q 0 }
    {
        self.table[p.get() as usize].append_next(event, tape);
    }

    /// Notes that a check of a process is damaged.
    pub fn damage(&mut self, p: ProcId, check: u32)
        requires process { p < length self.old.rows }
        requires check { check < length (rows_at self.old.rows p) }
        ensures rows { self.new.rows
            ≡ slice_set self.old.rows p (with_damage (rows_at self.old.rows p) check) }
        ensures presents { self.new.presents ≡ self.old.presents }
        ensures rooms { self.new.rooms ≡ self.old.rooms }
    {
        self.table[p.get() as usize].damage(check);
    }

    /// Has each process go on from its choice of the line, where this is the history that is left.
    /// It takes no memory.
    ///
    /// It lets go of what it cuts off, sets one vector for each process that goes back, and looks
    /// at the last check of each process, and at each other one until it finds one that stands
    /// where it did.
    pub fn restart(&mut self, history: &History, line: &Line)
        requires count { length self.old.rows ≡ length history.now.processes }
        requires there { (p c : ℕ) → p < length history.now.processes
            → choice_at line.now p ≡ AtCheck c
            → c < length (rows_at self.old.rows p) }
        requires left { (p : ℕ) → p < length history.now.processes
            → length (rows_kept (choice_at line.now p) (rows_at self.old.rows p))
            ≡ checks (tape_at history.now.processes p) + 1 }
        requires in_step { (p : ℕ) → p < length history.now.processes
            → AreInStep (tape_at history.now.processes p)
            (rows_kept (choice_at line.now p) (rows_at self.old.rows p)) }
        ensures count { length self.new.rows ≡ length self.old.rows }
        ensures presents_count { length self.new.presents ≡ length self.old.rows }
        ensures rows { (p : ℕ) → p < length history.now.processes
            → WithPlaces (tape_at history.now.processes p)
            (rows_kept (choice_at line.now p) (rows_at self.old.rows p))
            (rows_at self.new.rows p) }
        ensures presents { (p : ℕ) → p < length history.now.processes
            → present_at self.new.presents p
            ≡ vector_at (rows_at self.old.rows p) (present_at self.old.presents p)
            (choice_at line.now p) }
        ensures rooms { (p : ℕ)
            → slice_index_or self.old.rooms p 0 ≤ slice_index_or self.new.rooms p 0 }
    {
        let n = history.n();
        for q in 0..n {
            let p = ProcId::try_new(q, n).unwrap();
            self.table[q as usize].restart(history.tape(p), line.at(p));
        }
    }
}

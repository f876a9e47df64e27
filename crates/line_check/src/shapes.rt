//! Whether a claim names only what a history has.
ghost use Rattle.std.specs.Prelude.{◌≡◌, ◌<◌, ◌↔◌, ℕ, IsTrue, All, Some, length};
ghost use Rattle.line_tape.specs.Event.{checks};
ghost use Rattle.line_tape.specs.Survival.{is_damaged};
ghost use Rattle.line_tape.specs.Views.{bar_at, damaged_at};
ghost use Rattle.line_check.specs.Shape.{IsEntryOf, IsCheckOf, HasShape};

use line_names::{Line, Passed, ProcId, ProcSet};
use line_tape::{History, Marks, is_line};

/// Whether the entry is about a process and a choice of it that there are, and its message has a
/// sender that there is.
fn is_entry_of(history: &History, entry: &Passed) -> bool
    ensures { IsTrue result ↔ IsEntryOf history.now.processes entry.now }
{
    let n = history.n();
    entry.at.get() < n
        && entry.message.from.get() < n
        && history.tape(entry.at).place(entry.choice).is_some()
}

/// Whether each entry is about what there is.
fn are_entries_of(history: &History, entries: &[Passed]) -> bool
    ensures { IsTrue result ↔ All (IsEntryOf history.now.processes) entries.now }
{
    for entry in entries {
        if !is_entry_of(history, entry) {
            return false;
        }
    }
    true
}

/// Whether the history has the process of that number, and this check of it.
fn is_check_of(history: &History, p: usize, check: u32) -> bool
    ensures { IsTrue result ↔ IsCheckOf history.now.processes p check }
{
    let n = history.n();
    if p >= n as usize {
        return false;
    }
    let at = ProcId::try_new(p as u32, n).unwrap();
    check <= history.tape(at).checks()
}

/// Whether the marks of the process of that number are on checks that there are: the latest tells.
fn are_checks_of(history: &History, marks: &Marks, p: usize) -> bool
    requires { p < length marks.now.damaged }
    ensures { IsTrue result ↔ All (IsCheckOf history.now.processes p) (damaged_at marks.now p) }
{
    match marks.latest(p) {
        Some(check) => is_check_of(history, p, check),
        None => true,
    }
}

/// Whether each mark of damage is on a check that there is.
fn are_marks_of(history: &History, marks: &Marks) -> bool
    ensures { IsTrue result
        ↔ ((p c : ℕ) → IsTrue (is_damaged marks.now p c) → IsCheckOf history.now.processes p c) }
{
    for p in 0..marks.processes() {
        if !are_checks_of(history, marks, p) {
            return false;
        }
    }
    true
}

/// Whether the process of that number is barred at a check that there is, if it is barred.
fn is_bar_of(history: &History, marks: &Marks, p: usize) -> bool
    ensures { IsTrue result
        ↔ ((c : ℕ) → bar_at marks.now p ≡ Some c → IsCheckOf history.now.processes p c) }
{
    match marks.bar_at(p) {
        Some(check) => is_check_of(history, p, check),
        None => true,
    }
}

/// Whether each bar is at a check that there is.
fn are_bars_of(history: &History, marks: &Marks) -> bool
    ensures { IsTrue result
        ↔ ((p c : ℕ) → bar_at marks.now p ≡ Some c → IsCheckOf history.now.processes p c) }
{
    for p in 0..marks.processes() {
        if !is_bar_of(history, marks, p) {
            return false;
        }
    }
    true
}

/// Whether the claim names only processes, choices and checks that the history has. It looks at
/// each entry, and at the latest mark and the bar of each process.
pub(crate) fn has_shape(
    history: &History,
    marks: &Marks,
    failed: &ProcSet,
    entries: &[Passed],
    line: &Line,
) -> bool
    ensures { IsTrue result
        ↔ HasShape history.now.processes marks.now failed.now entries.now line.now }
{
    is_line(history, line)
        && are_entries_of(history, entries)
        && are_marks_of(history, marks)
        && are_bars_of(history, marks)
        && failed.is_below(history.n())
}

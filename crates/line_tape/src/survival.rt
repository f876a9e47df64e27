//! Surviving choices: which there are, the latest one, and the next lower one.
ghost use Rattle.std.specs.Prelude.{◌≡◌, ◌≢◌, ◌<◌, IsTrue, length};
ghost use Rattle.line_names.specs.declared.choices.Choice.{Choice};
ghost use Rattle.line_names.specs.Order.{IsNoLater};
ghost use Rattle.line_tape.specs.Survival.{survives};
ghost use Rattle.line_tape.specs.Chain.{latest_check, latest_choice, next_lower, first_ceilings};

use crate::histories::History;
use crate::marks::Marks;
use line_names::{Choice, Line, ProcId, ProcSet};

/// Whether a choice of a process survives: its initial state does, and of what the process's bar
/// allows each check without a mark, and `Now` where it did not fail.
pub fn survives(
    history: &History,
    marks: &Marks,
    failed: &ProcSet,
    p: ProcId,
    choice: Choice,
) -> bool
    requires { p < length history.now.processes }
    ensures { result ≡ survives history.now.processes marks.now failed.now p choice }
{
    match choice {
        Choice::Check(0) => true,
        Choice::Check(c) => {
            c <= history.tape(p).checks() && !marks.has(p, c) && marks.allows(p, choice)
        }
        Choice::Now => !failed.has(p) && marks.allows(p, Choice::Now),
    }
}

/// The latest surviving check up to check `last`; the initial state where none survives.
fn latest_check(history: &History, marks: &Marks, failed: &ProcSet, p: ProcId, last: u32) -> Choice
    requires { p < length history.now.processes }
    ensures { result ≡ latest_check (survives history.now.processes marks.now failed.now p) last }
{
    let mut check = last;
    while check > 0 {
        if survives(history, marks, failed, p, Choice::Check(check)) {
            return Choice::Check(check);
        }
        check -= 1;
    }
    Choice::Check(0)
}

/// The latest surviving choice of a process. It looks at one check for each that does not survive.
pub fn latest_choice(history: &History, marks: &Marks, failed: &ProcSet, p: ProcId) -> Choice
    requires { p < length history.now.processes }
    ensures value { result ≡ latest_choice history.now.processes marks.now failed.now p }
    ensures survives { IsTrue (survives history.now.processes marks.now failed.now p result) }
    ensures latest { (other : Choice)
        → IsTrue (survives history.now.processes marks.now failed.now p other)
        → IsNoLater other result }
{
    if survives(history, marks, failed, p, Choice::Now) {
        return Choice::Now;
    }
    latest_check(history, marks, failed, p, history.tape(p).checks())
}

/// The latest surviving choice of a process before a choice; of the initial state, that state
/// again. It looks at one check for each that does not survive.
pub fn next_lower(
    history: &History,
    marks: &Marks,
    failed: &ProcSet,
    p: ProcId,
    choice: Choice,
) -> Choice
    requires { p < length history.now.processes }
    ensures value { result ≡ next_lower history.now.processes marks.now failed.now p choice }
    ensures survives { IsTrue (survives history.now.processes marks.now failed.now p result) }
    ensures latest { (other : Choice)
        → IsTrue (survives history.now.processes marks.now failed.now p other)
        → IsNoLater other choice → other ≢ choice → IsNoLater other result }
{
    match choice {
        Choice::Check(c) => latest_check(history, marks, failed, p, c.saturating_sub(1)),
        Choice::Now => latest_check(history, marks, failed, p, history.tape(p).checks()),
    }
}

/// The line of the latest surviving choice of each process, where a planner starts.
pub fn first_ceilings(history: &History, marks: &Marks, failed: &ProcSet) -> Line
    ensures { result ≡ first_ceilings history.now.processes marks.now failed.now }
{
    let n = history.n();
    let mut line = Line::new();
    for q in 0..n {
        let p = ProcId::try_new(q, n).unwrap();
        line.push(latest_choice(history, marks, failed, p));
    }
    line
}

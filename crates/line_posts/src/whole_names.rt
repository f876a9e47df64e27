//! Plans of what is kept, in the names and numbers of the whole. Nothing here takes memory.
ghost use Rattle.std.specs.Prelude.{◌≡◌, ◌↔◌, true, IsTrue};
ghost use Rattle.line_cuts.specs.Numbers.{IsNumbered, IsNumberedChoice, IsNumberedEntry};
ghost use Rattle.line_cuts.specs.Numbers.{IsNumberedLine};
ghost use Rattle.line_posts.specs.Kept.{IsBroughtBack, IsNumberedPlan};

use line_cuts::{OwnedFloor, bring_entries, bring_line, bring_names};
use line_names::{Choice, Line, MsgName, Passed, ProcId};
use line_plan::Plan;

/// Whether the name of a message has a number in the whole.
fn is_numbered(floor: &OwnedFloor, message: &MsgName) -> bool
    ensures { IsTrue result ↔ IsNumbered floor.now message.now }
{
    message.number <= u32::MAX - floor.sends(message.from)
}

/// Whether a choice of a process has one.
fn is_numbered_choice(floor: &OwnedFloor, p: ProcId, choice: Choice) -> bool
    ensures { IsTrue result ↔ IsNumberedChoice floor.now p choice }
{
    match choice {
        Choice::Check(check) => check <= u32::MAX - floor.checks_lost(p),
        Choice::Now => true,
    }
}

/// Whether an entry of a certificate has both.
fn is_numbered_entry(floor: &OwnedFloor, entry: &Passed) -> bool
    ensures { IsTrue result ↔ IsNumberedEntry floor.now entry.now }
{
    is_numbered_choice(floor, entry.at, entry.choice) && is_numbered(floor, &entry.message)
}

/// Whether each choice of a line has one.
fn is_numbered_line(floor: &OwnedFloor, line: &Line) -> bool
    ensures { result ≡ true → IsNumberedLine floor.now line.now }
{
    let n = line.len();
    for q in 0..n {
        let p = ProcId::try_new(q, n).unwrap();
        if !is_numbered_choice(floor, p, line.at(p)) {
            return false;
        }
    }
    true
}

/// Whether all of a plan has numbers in the whole.
fn is_numbered_plan(floor: &OwnedFloor, plan: &Plan) -> bool
    ensures { result ≡ true → IsNumberedPlan floor.now plan.now }
{
    is_numbered_line(floor, &plan.line)
        && plan
            .certificate
            .iter()
            .all(|entry| is_numbered_entry(floor, entry))
        && plan
            .replays
            .iter()
            .all(|message| is_numbered(floor, message))
}

/// Brings a plan back, and answers whether all its numbers can be kept.
pub(crate) fn bring_back(floor: &OwnedFloor, plan: &mut Plan) -> bool
    ensures { result ≡ true → IsBroughtBack floor.now plan.old plan.new }
{
    if !is_numbered_plan(floor, plan) {
        return false;
    }
    bring_line(floor, &mut plan.line);
    bring_entries(floor, &mut plan.certificate);
    bring_names(floor, &mut plan.replays);
    true
}

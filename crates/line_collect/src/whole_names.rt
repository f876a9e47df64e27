//! Names and checks of the whole in the numbers of what is kept, and its plans brought back.
//! Nothing here takes memory.

ghost use Rattle.std.specs.Prelude.{◌≡◌, None, true, false, IfSome};
ghost use Rattle.line_collect.specs.Brought.{IsToldPlan};
ghost use Rattle.line_collect.specs.Lives.{kept_check};
ghost use Rattle.line_cuts.specs.Cuts.{cut_name, is_left};
ghost use Rattle.line_cuts.specs.Numbers.{IsNumbered};
ghost use Rattle.line_live.specs.CutMachines.{whole_plan};

use line_cuts::{OwnedFloor, bring_entries, bring_line, bring_names};
use line_names::{MsgName, ProcId};
use line_plan::Plan;

/// The name of a message in what is kept; none where it was let go.
pub(crate) fn kept_name(floor: &OwnedFloor, message: &MsgName) -> Option<MsgName>
    ensures left { IfSome result (λ kept. is_left floor.now message.now ≡ true) }
    ensures name { IfSome result (λ kept. kept ≡ cut_name floor.now message.now) }
    ensures numbered { IfSome result (λ kept. IsNumbered floor.now kept) }
    ensures gone { result ≡ None → is_left floor.now message.now ≡ false }
{
    let lost = floor.sends(message.from);
    if lost <= message.number {
        return Some(MsgName {
            from: message.from,
            inc: message.inc,
            number: message.number - lost,
        });
    }
    None
}

/// The index of a check in what is kept.
pub(crate) fn kept_check(floor: &OwnedFloor, p: ProcId, check: u32) -> u32
    ensures { result ≡ kept_check floor.now p check }
{
    check.saturating_sub(floor.checks_lost(p))
}

/// Brings a plan back, in its place, but for its line.
pub(crate) fn bring_names_back(floor: &OwnedFloor, plan: &mut Plan)
    requires { IsToldPlan floor.now plan.old }
    ensures { plan.new ≡ record (whole_plan floor.now plan.old) { line = plan.old.line } }
{
    bring_entries(floor, &mut plan.certificate);
    bring_names(floor, &mut plan.replays);
}

/// Brings a plan back, in its place.
pub(crate) fn bring_plan_back(floor: &OwnedFloor, plan: &mut Plan)
    requires { IsToldPlan floor.now plan.old }
    ensures { plan.new ≡ whole_plan floor.now plan.old }
{
    bring_names_back(floor, plan);
    bring_line(floor, &mut plan.line);
}

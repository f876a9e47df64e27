//! Plans and replies of what is kept, in the names and numbers of the whole. Nothing here takes
//! memory.
ghost use Rattle.std.specs.Prelude.{◌≡◌};
ghost use Rattle.line_cuts.specs.Floors.{HasNumbers};
ghost use Rattle.line_live.specs.CutMachines.{whole_plan, whole_reply};
ghost use Rattle.line_live.specs.Numbers.{IsFewPlan, IsFewReply};

use line_cuts::{OwnedFloor, bring_entries, bring_line, bring_names, whole_check, whole_name};
use line_plan::Plan;
use line_world::Reply;

/// Brings a plan back, in its place.
pub(crate) fn bring_plan(floor: &OwnedFloor, plan: &mut Plan)
    requires numbers { HasNumbers floor.now }
    requires few { IsFewPlan plan.old }
    ensures { plan.new ≡ whole_plan floor.now plan.old }
{
    bring_line(floor, &mut plan.line);
    bring_entries(floor, &mut plan.certificate);
    bring_names(floor, &mut plan.replays);
}

/// A reply in the whole.
pub(crate) fn whole_reply(floor: &OwnedFloor, reply: Reply) -> Reply
    requires numbers { HasNumbers floor.now }
    requires few { IsFewReply reply }
    ensures { result ≡ whole_reply floor.now reply }
{
    match reply {
        Reply::Sent { message } => Reply::Sent {
            message: whole_name(floor, message),
        },
        Reply::Took { message, forced } => Reply::Took {
            message: whole_name(floor, message),
            forced,
        },
        Reply::Marked { round, forced } => Reply::Marked { round, forced },
        Reply::Stale { message } => Reply::Stale {
            message: whole_name(floor, message),
        },
        Reply::Repeated { message } => Reply::Repeated {
            message: whole_name(floor, message),
        },
        Reply::Checked { at, check } => Reply::Checked {
            at,
            check: whole_check(floor, at, check),
        },
        Reply::Begun { at, check, round } => Reply::Begun {
            at,
            check: whole_check(floor, at, check),
            round,
        },
        Reply::Turned { at, check, round } => Reply::Turned {
            at,
            check: whole_check(floor, at, check),
            round,
        },
        Reply::Damaged { at, check } => Reply::Damaged {
            at,
            check: whole_check(floor, at, check),
        },
        Reply::Barred { at, check } => Reply::Barred {
            at,
            check: whole_check(floor, at, check),
        },
        Reply::Recovered {
            mut plan,
            states,
            incarnations,
        } => {
            bring_plan(floor, &mut plan);
            Reply::Recovered {
                plan,
                states,
                incarnations,
            }
        }
    }
}

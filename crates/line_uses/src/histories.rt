//! Plan a history that is at hand.
ghost use Rattle.std.specs.Prelude.{◌≡◌, length, IfOk};
ghost use Rattle.recline.specs.Survival.{IsLatest};
ghost use Rattle.recline.specs.Transit.{in_transit};

use anyhow::Result;
use recline::plan::{Catalogue, Plan, plan};
use recline::{History, Marks, ProcSet};
use std::alloc::Global;

/// Where the processes of a history go on from if these failed: the latest recovery line, its
/// certificate, and the messages that are sent again.
///
/// It fails where a mark is on a checkpoint that there isn't, where a receipt names a message as
/// its sender could not, and where memory doesn't suffice. A caller who plans more than once keeps
/// the catalogue, and adds events to it as they come.
pub fn plan_history(
    alloc: Global,
    history: &History,
    marks: &Marks,
    failed: &ProcSet,
) -> Result<Plan>
    requires { length marks.now.damaged ≡ length history.now.processes }
    ensures latest { IfOk result (λ plan.
        IsLatest history.now.processes marks.now failed.now plan.line) }
    ensures replays { IfOk result (λ plan.
        plan.replays.items ≡ in_transit history.now.processes plan.line) }
{
    let catalogue = Catalogue::of(alloc, history, marks)?;
    Ok(plan(alloc, &catalogue, failed)?)
}

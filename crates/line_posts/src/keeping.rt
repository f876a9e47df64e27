//! What a plan leaves in the catalogue, so that later plans look at little.
ghost use Rattle.std.specs.Prelude.{◌≡◌};

use line_catalogue::Catalogue;
use line_names::ProcSet;
use line_plan::{Plan, plan};
use std::alloc::Global;

/// Plans as if these processes failed, and keeps in the catalogue what is in transit at that line:
/// of the sends before the line, later plans look at these alone. It answers how many entries and
/// replays the plan has, or 0 where memory for the plan is refused, and then keeps nothing.
///
/// It is not inlined, since a plan is a large value and is made seldom.
#[inline(never)]
pub(crate) fn keep_planned(alloc: Global, catalogue: &mut Catalogue, failed: &ProcSet) -> usize
    ensures { catalogue.new ≡ catalogue.old }
{
    match plan(alloc, catalogue, failed) {
        Ok(
            Plan {
                line,
                certificate,
                sweeps: _,
                replays,
            },
        ) => {
            let found = certificate.len().saturating_add(replays.len());
            catalogue.keep_transit(&line, replays);
            found
        }
        Err(_) => 0,
    }
}

//! What is left of a catalogue.
ghost use Rattle.std.specs.Prelude.{◌≡◌, IfOk};
ghost use Rattle.line_cuts.specs.Cuts.{cut_history, cut_marks};
ghost use Rattle.line_cuts.specs.Marks.{AreSameMarks};

use crate::floors::OwnedFloor;
use crate::histories::cut_history;
use crate::marked::cut_marks;
use line_catalogue::{Catalogue, CatalogueError};
use std::alloc::{AllocError, Global};

/// What is left of a catalogue that is cut at a floor, in memory of its own, which follows what is
/// left.
///
/// It looks some times at each event, and asks for a mark of each check after the floor's. While it
/// runs it holds what is left twice.
pub fn cut_catalogue(
    alloc: Global,
    catalogue: &Catalogue,
    floor: &OwnedFloor,
) -> Result<Catalogue, AllocError>
    ensures processes { IfOk result
        (λ cut. cut.processes ≡ cut_history floor.now catalogue.now.processes) }
    ensures marks { IfOk result
        (λ cut. AreSameMarks cut.marks (cut_marks floor.now catalogue.now.marks)) }
{
    let _n = catalogue.n();
    let history = cut_history(alloc, catalogue.history(), floor)?;
    let marks = cut_marks(alloc, catalogue.marks(), floor)?;
    match Catalogue::of(alloc, &history, &marks) {
        Ok(cut) => Ok(cut),
        Err(CatalogueError::OutOfMemory) => Err(AllocError),
        Err(CatalogueError::NoSuchCheck) => unreachable!(),
        Err(CatalogueError::NamesDisagree) => unreachable!(),
    }
}

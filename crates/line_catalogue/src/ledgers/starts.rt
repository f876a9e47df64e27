//! How many sends and events of each process stand before the line that a ledger keeps.
ghost use Rattle.std.specs.Prelude.{◌≡◌, ℕ, length, replicate, IfOk};
ghost use Rattle.line_names.specs.Lines.{choice_at};
ghost use Rattle.line_tape.specs.Event.{sends};
ghost use Rattle.line_tape.specs.Front.{place};
ghost use Rattle.line_tape.specs.History.{tape_at};
ghost use Rattle.line_tape.specs.Line.{events_before, IsLine};
ghost use Rattle.line_catalogue.specs.Left.{place_at, start_at};

use line_names::{Line, ProcId};
use line_tape::History;
use std::alloc::{AllocError, Global};

/// The starts of `n` processes of whose sends each is to be looked at.
pub fn no_starts(alloc: Global, n: u32) -> Result<Vec<u32>, AllocError>
    ensures { IfOk result (λ starts. starts.items ≡ replicate n 0) }
{
    vec![in alloc; 0; n as usize]
}

/// Has each send be looked at.
pub fn clear_starts(starts: &mut Vec<u32>)
    ensures count { length starts.new.items ≡ length starts.old.items }
    ensures starts { (p : ℕ) → start_at starts.new.items p ≡ 0 }
{
    starts.fill(0);
}

/// Has each start be the number of sends before the process's choice of the line.
pub fn move_starts(history: &History, line: &Line, starts: &mut Vec<u32>)
    requires line { IsLine history.now.processes line.now }
    requires count { length starts.old.items ≡ length history.now.processes }
    ensures count { length starts.new.items ≡ length history.now.processes }
    ensures starts { (p : ℕ)
        → start_at starts.new.items p ≡ sends (events_before history.now.processes line.now p) }
{
    let n = history.n();
    for q in 0..n {
        let p = ProcId::try_new(q, n).unwrap();
        starts[q as usize] = history.tape(p).sends_before(line.at(p));
    }
}

/// Has each place be the number of events before the process's choice of the line.
pub fn move_places(history: &History, line: &Line, places: &mut Vec<u32>)
    requires line { IsLine history.now.processes line.now }
    requires count { length places.old.items ≡ length history.now.processes }
    ensures count { length places.new.items ≡ length history.now.processes }
    ensures places { (p : ℕ) → place_at places.new.items p
        ≡ place (tape_at history.now.processes p) (choice_at line.now p) }
{
    let n = history.n();
    for q in 0..n {
        let p = ProcId::try_new(q, n).unwrap();
        let before = history.tape(p).place(line.at(p)).unwrap();
        places[q as usize] = before;
    }
}

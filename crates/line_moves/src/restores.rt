//! What each process goes on from after a restart at a line.
ghost use Rattle.std.specs.Prelude.{◌≡◌, ◌<◌, length, map, IfOk};
ghost use Rattle.line_tape.specs.History.{Process, process_at, incarnation_at};
ghost use Rattle.line_tape.specs.Line.{IsLine};
ghost use Rattle.line_tape.specs.Restart.{restarted_history, restarted_incarnation, HasFurther};
ghost use Rattle.line_tape.specs.Restart.{HaveFurther};
ghost use Rattle.line_names.specs.Lines.{choice_at};
ghost use Rattle.line_moves.specs.Restarts.{restored_states};

use line_names::{Choice, Line, ProcId};
use line_tape::{History, State};
use std::alloc::{AllocError, Global};

/// The bytes that each process goes on from: a copy of the state of its check, or none if it stays
/// where it stands.
pub fn restored_states(
    alloc: Global,
    history: &History,
    line: &Line,
) -> Result<Vec<Option<State>>, AllocError>
    requires { IsLine history.now.processes line.now }
    ensures { IfOk result
        (λ states. states.items ≡ restored_states history.now.processes line.now) }
{
    let n = history.n();
    let mut states = Vec::with_capacity(alloc, n as usize)?;
    for q in 0..n {
        let p = ProcId::try_new(q, n).unwrap();
        let state = match line.at(p) {
            Choice::Check(check) => {
                Some(State::of(Vec::from_slice(alloc, history.tape(p).state(check))?))
            }
            Choice::Now => None,
        };
        states.push_reserved(state);
    }
    Ok(states)
}

/// The incarnation of a process after a restart at a line.
fn restarted_incarnation(history: &History, line: &Line, p: ProcId) -> u16
    requires process { p < length history.now.processes }
    requires further { HasFurther (process_at history.now.processes p) (choice_at line.now p) }
    ensures { result
        ≡ restarted_incarnation (choice_at line.now p) (incarnation_at history.now.processes p) }
{
    let inc = history.incarnation(p);
    match line.at(p) {
        Choice::Check(_) => inc + 1,
        Choice::Now => inc,
    }
}

/// The incarnation of each process after a restart at a line: one higher if it goes back.
pub fn restarted_incarnations(
    alloc: Global,
    history: &History,
    line: &Line,
) -> Result<Vec<u16>, AllocError>
    requires line { length line.now ≡ length history.now.processes }
    requires further { HaveFurther history.now.processes line.now }
    ensures { IfOk result (λ incarnations. incarnations.items
        ≡ map (λ (process : Process). process.incarnation)
        (restarted_history history.now.processes line.now)) }
{
    let n = history.n();
    let mut incarnations = Vec::with_capacity(alloc, n as usize)?;
    for q in 0..n {
        let p = ProcId::try_new(q, n).unwrap();
        incarnations.push_reserved(restarted_incarnation(history, line, p));
    }
    Ok(incarnations)
}

//! Where the processes go on.
ghost use Rattle.std.specs.Prelude.{◌≡◌, ◌<◌, ◌↔◌, IsTrue, IsOk, IfErr, length};
ghost use Rattle.line_tape.specs.Front.{HasChoice};
ghost use Rattle.line_tape.specs.Line.{IsLine};
ghost use Rattle.line_tape.specs.Restart.{restarted_incarnation};
ghost use Rattle.line_check.specs.Answers.{state_at, start_due, starts_due};
ghost use Rattle.line_check.specs.Faults.{IsFaultOfStarts, IsStartFault};

use crate::answers::Start;
use crate::faults::{CertFault, FaultCode};
use line_names::{Choice, Line, ProcId};
use line_tape::{History, State, Tape};

// Whether a state is the one that a process goes on from at a choice.
fn is_state_at(tape: &Tape, choice: Choice, state: &Option<State>) -> bool
    requires { HasChoice tape.now.events choice }
    ensures { IsTrue result ↔ (state.now ≡ state_at tape.now.events choice) }
{
    match choice {
        Choice::Check(check) => match state {
            Some(state) => state.bytes() == tape.state(check),
            None => false,
        },
        Choice::Now => state.is_none(),
    }
}

// Whether an incarnation is the one that a process has after it goes on from a choice.
fn is_incarnation_after(choice: Choice, before: u16, after: u16) -> bool
    ensures { IsTrue result ↔ (after ≡ restarted_incarnation choice before) }
{
    match choice {
        Choice::Check(_) => after as u32 == before as u32 + 1,
        Choice::Now => after == before,
    }
}

// Tests where a process goes on.
fn check_start(history: &History, line: &Line, p: ProcId, start: &Start) -> Result<(), FaultCode>
    requires line { IsLine history.now.processes line.now }
    requires process { p < length history.now.processes }
    ensures ok { IsOk result ↔ (start.now ≡ start_due history.now.processes line.now p) }
    ensures fault { IfErr result
        (IsStartFault (start_due history.now.processes line.now p) start.now) }
{
    let choice = line.at(p);
    if !is_state_at(history.tape(p), choice, &start.state) {
        return Err(FaultCode::StateDiffers);
    }
    if !is_incarnation_after(choice, history.incarnation(p), start.inc) {
        return Err(FaultCode::IncarnationDiffers);
    }
    Ok(())
}

/// Tests where each process goes on, process by process.
pub(crate) fn check_starts(
    history: &History,
    line: &Line,
    starts: &[Start],
) -> Result<(), CertFault>
    requires line { IsLine history.now.processes line.now }
    requires count { length starts.now ≡ length history.now.processes }
    ensures ok { IsOk result ↔ (starts.now ≡ starts_due history.now.processes line.now) }
    ensures fault { IfErr result
        (IsFaultOfStarts history.now.processes line.now starts.now) }
{
    let n = history.n();
    for (q, start) in starts.iter().enumerate() {
        let p = ProcId::try_new(q as u32, n).unwrap();
        if let Err(code) = check_start(history, line, p, start) {
            return Err(CertFault {
                entry: Some(q as u32),
                code,
            });
        }
    }
    Ok(())
}

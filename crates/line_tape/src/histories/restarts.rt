//! A restart of a whole history at a line.
ghost use Rattle.std.specs.Prelude.{◌≡◌, ◌≤◌, ◌↔◌, ℕ, IsTrue};
ghost use Rattle.line_tape.specs.Front.{HasChoice};
ghost use Rattle.line_tape.specs.Line.{IsLine};
ghost use Rattle.line_tape.specs.Plain.{process_kept, tape_room};
ghost use Rattle.line_tape.specs.Restart.{restarted_history, restarted_process, HasFurther};
ghost use Rattle.line_tape.specs.Restart.{HaveFurther};
ghost use Rattle.line_tape.specs.Views.{room_at};

use super::{History, ProcessTape};
use crate::limits::LAST_INCARNATION;
use line_names::{Choice, Line, ProcId};

/// Has a process go on from a choice.
fn restart_process(process: &mut ProcessTape, choice: Choice)
    requires choice { HasChoice process.old.tape.events choice }
    requires further { HasFurther (process_kept process.old) choice }
    ensures process { process_kept process.new
        ≡ restarted_process (process_kept process.old) choice }
    ensures room { tape_room process.old ≤ tape_room process.new }
{
    match choice {
        Choice::Check(_) => process.incarnation += 1,
        Choice::Now => {}
    }
    process.tape.restart(choice);
}

impl History {
    /// Whether each process that goes back at the line has a further incarnation, so that a restart
    /// there can be.
    pub fn has_further(&self, line: &Line) -> bool
        ensures { IsTrue result ↔ HaveFurther self.now.processes line.now }
    {
        let n = self.n();
        for q in 0..n {
            let p = ProcId::try_new(q, n).unwrap();
            if matches!(line.at(p), Choice::Check(_)) && self.incarnation(p) == LAST_INCARNATION {
                return false;
            }
        }
        true
    }

    /// Has each process go on from its choice of the line: what came after the line goes from the
    /// tapes, all marks and round numbers go, and a process that goes back does so under its next
    /// incarnation. It takes no memory and cannot fail.
    ///
    /// What is in transit at the line (`transit`) is to be asked before. It looks at most
    /// twice at each event that comes after the line, and twice at each before it that came since
    /// the last restart: over a whole run each event is looked at four times at most.
    pub fn restart(&mut self, line: &Line)
        requires line { IsLine self.old.processes line.now }
        requires further { HaveFurther self.old.processes line.now }
        ensures processes { self.new.processes ≡ restarted_history self.old.processes line.now }
        ensures rooms { (p : ℕ) → room_at self.old p ≤ room_at self.new p }
    {
        let choices = line.choices();
        for p in 0..self.processes.len() {
            restart_process(&mut self.processes[p], choices[p]);
        }
    }
}

//! What is in transit at a line.
ghost use Rattle.std.specs.Prelude.{◌≡◌, ◌<◌, ◌++◌, length, map, IfOk, OnOk};
ghost use Rattle.line_tape.specs.Line.{events_before, IsLine};
ghost use Rattle.line_tape.specs.Received.{AreTold};
ghost use Rattle.line_tape.specs.Transit.{Letter, open_letters, in_transit};

use crate::flags::ReceivedFlags;
use crate::histories::History;
use line_names::{Line, MsgName, ProcId};
use std::alloc::{AllocError, Global};

/// Adds the messages of one sender that are in transit, by number.
fn add_open(
    history: &History,
    line: &Line,
    p: ProcId,
    received: &ReceivedFlags,
    messages: &mut Vec<MsgName>,
) -> Result<(), AllocError>
    requires line { IsLine history.now.processes line.now }
    requires process { p < length history.now.processes }
    requires told { AreTold history.now.processes line.now
        (events_before history.now.processes line.now) received.now }
    ensures { OnOk result (messages.new.items
        ≡ messages.old.items
        ++ map (λ (letter : Letter). letter.message)
        (open_letters history.now.processes line.now p)) }
{
    let tape = history.tape(p);
    let incarnations = tape.incarnations();
    let choice = line.at(p);
    for number in 0..tape.sends_before(choice) {
        if !received.has(p, number) {
            messages.push(MsgName {
                from: p,
                inc: incarnations[number as usize],
                number,
            })?;
        }
    }
    Ok(())
}

impl History {
    /// The messages in transit at a line, by sender, then number: those whose send stands before
    /// the line, and which the process that the send names has not received before its own choice.
    ///
    /// It looks once at each receipt and at each send before the line; it takes a flag for each
    /// send, and room for the result. Without memory the history stays as it is.
    pub fn transit(&self, alloc: Global, line: &Line) -> Result<Vec<MsgName>, AllocError>
        requires { IsLine self.now.processes line.now }
        ensures { IfOk result
            (λ messages. messages.items ≡ in_transit self.now.processes line.now) }
    {
        let n = self.n();
        let mut received = ReceivedFlags::new(alloc, self)?;
        received.mark(self, line);
        let mut messages = Vec::new(alloc);
        for sender in 0..n {
            let p = ProcId::try_new(sender, n).unwrap();
            add_open(self, line, p, &received, &mut messages)?;
        }
        Ok(messages)
    }
}

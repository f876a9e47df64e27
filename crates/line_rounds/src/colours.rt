//! The colours of processes and of what they sent.
ghost use Rattle.std.specs.Prelude.{◌≡◌, ◌<◌, ◌≤◌, ◌++◌, ℕ, List, [], ◌∷◌, AllPairs, length};
ghost use Rattle.std.specs.Prelude.{replicate, IfOk, OnOk, OnErr, Some};
ghost use Rattle.std.specs.Option.{SomeIff};
ghost use Rattle.line_names.specs.declared.choices.Choice.{Choice};
ghost use Rattle.line_tape.specs.declared.events.Event.TheVariants.{Check};
ghost use Rattle.line_tape.specs.Colours.{colour, message_colour, AreColoured};
ghost use Rattle.line_tape.specs.Event as Events;
ghost use Rattle.line_tape.specs.History.{Process, fresh, tape_at, with_event};
ghost use Rattle.line_tape.specs.Restart.{restarted_history};
ghost use Rattle.line_tape.specs.Turns as Turns;
ghost use Rattle.line_rounds.specs.Kept.{turns_at, no_turns, AreTurned};

use crate::rules::Colour;
use line_names::{MsgName, ProcId};
use std::alloc::{AllocError, Global};
use std::marker::Model;

/// A check of a round, and how many sends of its tape stand before it.
#[derive(Clone, Copy)]
struct RoundTurn {
    round: u32,
    sends: u32,
}

impl Model for RoundTurn {
    ghost use Rattle.line_tape.specs.Turns.{Turn};

    ghost Value = { Turn };

    ghost view = { λ t. record { round = t.round; sends = t.sends } };

    ghost inverse = { λ t. record { round = t.round; sends = t.sends } };
}

/// One process: its colour, and the turns of its tape in their order.
#[derive(Drop)]
struct ProcessColour {
    colour: Colour,
    turns: Vec<RoundTurn>,
}

impl Model for ProcessColour {
    ghost use Rattle.line_rounds.specs.Kept.{ProcessTurns};

    ghost Value = { ProcessTurns };

    ghost view = { λ p. record { colour = p.colour; turns = p.turns.items } };
}

impl ProcessColour {
    /// The colour of its send of that number: the round of the last turn with no more sends before
    /// it, or 0. It looks at the last of all turns, which most messages that are received have, and
    /// else it searches the turns by halves.
    fn colour_at(&self, number: u32) -> u32
        ensures { AllPairs (λ (s t : Turns.Turn). s.round < t.round) self.now.turns
            → AllPairs (λ (s t : Turns.Turn). s.sends ≤ t.sends) self.now.turns
            → result ≡ Turns.colour_by self.now.turns number }
    {
        let turns = self.turns.as_slice();
        if let Some(last) = turns.last() {
            if last.sends <= number {
                return last.round;
            }
        }
        let count = turns.partition_point(|turn| turn.sends <= number);
        if count == 0 {
            0
        } else {
            let turn = turns[count - 1];
            turn.round
        }
    }

    /// It takes its check of a round, whose number is greater than its colour.
    fn turn(&mut self, round: u32, sends: u32) -> Result<(), AllocError>
        requires { self.old.colour < round }
        ensures ok { OnOk result
            (self.new
            ≡ (record {
              colour = round;
              turns = self.old.turns ++ record { round = round; sends = sends } ∷ [];
            })) }
        ensures err { OnErr result (self.new ≡ self.old) }
    {
        self.turns.push(RoundTurn { round, sends })?;
        self.colour.turn(round).unwrap();
        Ok(())
    }

    /// None of its checks is of a round any longer.
    fn clear(&mut self)
        ensures { self.new ≡ no_turns }
    {
        self.colour = Colour::new();
        self.turns.clear();
    }
}

/// The colour of each process, and the turns by which each message that it sent has its own.
///
/// It follows the tapes of a history: whoever adds a check of a round to a tape calls `turn`, and
/// whoever restarts the tapes calls `clear`. No other event changes it.
#[derive(Drop)]
pub struct Colours {
    processes: Vec<ProcessColour>,
}

impl Model for Colours {
    ghost use Rattle.std.specs.Prelude.{List};
    ghost use Rattle.line_rounds.specs.Kept.{ProcessTurns};

    ghost Value = { List ProcessTurns };

    ghost view = { λ c. c.processes.items };
}

impl Colours {
    /// The colours of `n` processes that have done nothing yet. It takes memory for each, and fails
    /// if memory runs out.
    pub fn new(alloc: Global, n: u32) -> Result<Colours, AllocError>
        ensures value { IfOk result (λ colours. colours ≡ replicate n no_turns) }
        ensures turned { IfOk result (λ colours. AreTurned (replicate n fresh) colours) }
    {
        let mut processes = Vec::with_capacity(alloc, n as usize)?;
        for _p in 0..n {
            processes.push(ProcessColour {
                colour: Colour::new(),
                turns: Vec::new(alloc),
            })?;
        }
        Ok(Colours { processes })
    }

    /// The colour of a process. It takes constant time.
    pub fn colour(&self, p: ProcId) -> u32
        requires { p < length self.now }
        ensures value { result ≡ (turns_at self.now p).colour }
        ensures colour { (history : List Process) → AreTurned history self.now
            → result ≡ colour (tape_at history p) }
    {
        let process = &self.processes[p.get() as usize];
        process.colour.now()
    }

    /// The round of the check that process `to` takes before it receives the message; none if the
    /// message's colour is no greater than its own.
    ///
    /// It takes constant time if the sender took no check of a round after it sent the message.
    /// Else it searches the sender's turns by halves, which takes time in the logarithm of the
    /// number of rounds since the last restart.
    pub fn before_receive(&self, to: ProcId, message: &MsgName) -> Option<u32>
        requires from { message.now.from < length self.now }
        requires to { to < length self.now }
        ensures { (history : List Process) → AreTurned history self.now → AreColoured history
            → Events.Holds (tape_at history message.now.from) message.now.inc message.now.number
            → SomeIff result (colour (tape_at history to) < message_colour history message.now)
            (message_colour history message.now) }
    {
        let sender = &self.processes[message.from.get() as usize];
        let colour = sender.colour_at(message.number);
        let receiver = &self.processes[to.get() as usize];
        receiver.colour.before_receive(colour)
    }

    /// A process takes its check of a round, with `sends` sends on its tape before it.
    ///
    /// It takes constant time, unless the list of turns has to grow. If memory runs out, nothing
    /// changes.
    pub fn turn(&mut self, p: ProcId, round: u32, sends: u32) -> Result<(), AllocError>
        requires p { p < length self.old }
        requires greater { (turns_at self.old p).colour < round }
        ensures ok { OnOk result
            ((history : List Process) (state : List ℕ) → AreTurned history self.old
            → sends ≡ Events.sends (tape_at history p)
            → AreTurned (with_event history p (Check state (Some round))) self.new) }
        ensures err { OnErr result (self.new ≡ self.old) }
        ensures count { length self.new ≡ length self.old }
    {
        self.processes[p.get() as usize].turn(round, sends)
    }

    /// The processes are restarted: no check is of a round any longer, and all colours are 0. It
    /// takes constant time for each process, and no memory.
    pub fn clear(&mut self)
        ensures restart { (history : List Process) (line : List Choice)
            → length line ≡ length history → AreTurned history self.old
            → AreTurned (restarted_history history line) self.new }
        ensures count { length self.new ≡ length self.old }
    {
        for p in 0..self.processes.len() {
            self.processes[p].clear();
        }
    }
}

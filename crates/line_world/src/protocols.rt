//! What a world keeps of rounds and of received messages for its kind of links.
ghost use Rattle.std.specs.Prelude.{◌≡◌, ◌<◌, ◌++◌, ℕ, None, length, map, replicate, IfOk};
ghost use Rattle.std.specs.Prelude.{OnOk, OnErr};
ghost use Rattle.line_tape.specs.declared.items.Item.TheVariants.{Message};
ghost use Rattle.line_tape.specs.History.{fresh};
ghost use Rattle.line_tape.specs.Line.{IsLine};
ghost use Rattle.line_tape.specs.Restart.{restarted_history};
ghost use Rattle.line_tape.specs.Transit.{in_transit, in_transit_between};
ghost use Rattle.line_rounds.specs.Tables.{between};
ghost use Rattle.line_moves.specs.Modes.{copies_in};
ghost use Rattle.line_moves.specs.Worlds.{AreQueues};
ghost use Rattle.line_world.specs.Protocols.{mode_of, open_round_of, IsFollowing};

use line_moves::{Links, OpenRound, restart_copies, restart_links};
use line_names::{Line, MsgName, ProcId};
use line_rounds::{Colours, ReceivedSends, Turning};
use line_tape::{History, Mode};
use std::alloc::{AllocError, Global};

/// What is kept of rounds and of received messages for each kind of links.
#[derive(Drop)]
pub(crate) enum Protocol {
    /// Links keep their order, and rounds are of markers (Chandy and Lamport, ACM TOCS 3(1), 1985).
    Markers {
        /// The open round.
        running: Option<OpenRound>,
    },
    /// Links keep no order, and rounds are of colours (Lai and Yang, Information Processing Letters
    /// 25(3), 1987).
    Colours {
        /// The open round.
        turning: Option<Turning>,
        /// The colours of the processes.
        colours: Colours,
        /// Which messages are received.
        received: ReceivedSends,
    },
}

impl Protocol {
    /// For `n` processes that have done nothing yet.
    pub(crate) fn new(alloc: Global, n: u32, mode: Mode) -> Result<Protocol, AllocError>
        ensures mode { IfOk result (λ protocol. mode_of protocol ≡ mode) }
        ensures closed { IfOk result (λ protocol. open_round_of protocol ≡ None) }
        ensures following { IfOk result (λ protocol. IsFollowing (replicate n fresh) protocol) }
    {
        match mode {
            Mode::Fifo => Ok(Protocol::Markers { running: None }),
            Mode::Unordered => Ok(Protocol::Colours {
                turning: None,
                colours: Colours::new(alloc, n)?,
                received: ReceivedSends::new(alloc, n)?,
            }),
        }
    }

    /// Has this and the links follow the processes, which go on from a line where these messages
    /// are in transit. No round is open then.
    pub(crate) fn restart(
        &mut self,
        history: &History,
        links: &mut Links,
        line: &Line,
        messages: &[MsgName],
    ) -> Result<(), AllocError>
        requires line { IsLine history.now.processes line.now }
        requires transit { messages.now ≡ in_transit history.now.processes line.now }
        requires queued { AreQueues history.now.processes links.old }
        requires following { IsFollowing history.now.processes self.old }
        ensures mode { mode_of self.new ≡ mode_of self.old }
        ensures queued { OnOk result (AreQueues history.now.processes links.new) }
        ensures put { OnOk result ((p q : ℕ)
            → p < length history.now.processes → q < length history.now.processes
            → between links.new p q ≡ between (copies_in (mode_of self.old) links.old) p q
            ++ map (λ m. Message m) (in_transit_between history.now.processes line.now p q)) }
        ensures closed { OnOk result (open_round_of self.new ≡ None) }
        ensures following { OnOk result
            (IsFollowing (restarted_history history.now.processes line.now) self.new) }
        ensures err { OnErr result (links.new ≡ links.old) }
        ensures kept { OnErr result (self.new ≡ self.old) }
    {
        match self {
            Protocol::Markers { running } => {
                restart_links(history, links, line, messages)?;
                *running = None;
                Ok(())
            }
            Protocol::Colours {
                turning,
                colours,
                received,
            } => {
                restart_copies(history, links, line, messages)?;
                received.restart(history, line, messages);
                colours.clear();
                *turning = None;
                Ok(())
            }
        }
    }
}

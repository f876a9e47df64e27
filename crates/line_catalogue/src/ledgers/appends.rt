//! What each kind of event adds to a ledger, in room that was made for it.
ghost use Rattle.std.specs.Prelude.{◌≡◌, ◌≢◌, ◌<◌, ◌≤◌, ◌+◌, ℕ, length};
ghost use Rattle.line_names.specs.declared.limits.TheConstants.{MOST_BODY};
ghost use Rattle.line_tape.specs.declared.events.Event.TheVariants.{Send as SendEvent};
ghost use Rattle.line_tape.specs.declared.events.Event.TheVariants.{Recv as RecvEvent};
ghost use Rattle.line_tape.specs.declared.events.Event.TheVariants.{Mark as MarkEvent};
ghost use Rattle.line_tape.specs.History.{tape_at, with_event};
ghost use Rattle.line_tape.specs.Views.{room_at};

use super::Ledger;
use line_names::{MsgName, ProcId};
use line_tape::MOST_EVENTS;

impl Ledger {
    /// Adds a send, whose bytes are lent, as `append` does.
    pub fn append_send(&mut self, p: ProcId, to: ProcId, inc: u16, body: &[u8])
        requires process { p < length self.old.processes }
        requires to { to < length self.old.processes }
        requires short { length body.now ≤ MOST_BODY }
        requires few { length (tape_at self.old.processes p) < MOST_EVENTS }
        requires room { 0 < room_at self.old p }
        ensures processes { self.new.processes
            ≡ with_event self.old.processes p (SendEvent to inc body.now) }
        ensures spent { room_at self.old p ≤ room_at self.new p + 1 }
        ensures others { (q : ℕ) → q ≢ p → room_at self.new q ≡ room_at self.old q }
    {
        self.history.append_send(p, to, inc, body);
        self.count_event();
    }

    /// Adds the receipt of a message, as `append` does.
    pub fn append_receipt(&mut self, p: ProcId, message: &MsgName)
        requires process { p < length self.old.processes }
        requires from { message.now.from < length self.old.processes }
        requires few { length (tape_at self.old.processes p) < MOST_EVENTS }
        requires room { 0 < room_at self.old p }
        ensures processes { self.new.processes
            ≡ with_event self.old.processes p (RecvEvent message.now) }
        ensures spent { room_at self.old p ≤ room_at self.new p + 1 }
        ensures others { (q : ℕ) → q ≢ p → room_at self.new q ≡ room_at self.old q }
    {
        self.history.append_receipt(p, message);
        self.count_event();
    }

    /// Adds the receipt of a marker, as `append` does.
    pub fn append_mark(&mut self, p: ProcId, from: ProcId, round: u32)
        requires process { p < length self.old.processes }
        requires from { from < length self.old.processes }
        requires few { length (tape_at self.old.processes p) < MOST_EVENTS }
        requires room { 0 < room_at self.old p }
        ensures processes { self.new.processes
            ≡ with_event self.old.processes p (MarkEvent from round) }
        ensures spent { room_at self.old p ≤ room_at self.new p + 1 }
        ensures others { (q : ℕ) → q ≢ p → room_at self.new q ≡ room_at self.old q }
    {
        self.history.append_mark(p, from, round);
        self.count_event();
    }
}

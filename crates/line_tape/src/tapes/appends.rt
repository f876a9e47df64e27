//! What each kind of event adds to a tape, in room that was made for it.
//!
//! Where a list that `spare` does not count has no room for one more, no further event counts.
ghost use Rattle.std.specs.Prelude.{◌≡◌, ◌<◌, ◌≤◌, ◌+◌, [], ◌∷◌, ◌++◌, length};
ghost use Rattle.line_names.specs.declared.limits.TheConstants.{MOST_BODY};
ghost use Rattle.line_tape.specs.declared.events.Event.TheVariants.{Check, Mark, Recv, Send};
ghost use Rattle.line_tape.specs.declared.limits.TheConstants.{MOST_STATE};
ghost use Rattle.line_tape.specs.History.{IsTape};

use super::{CheckRow, Tape};
use crate::events::State;
use crate::limits::MOST_EVENTS;
use line_names::{MsgName, ProcId};

impl Tape {
    /// Adds a send, with the incarnation and the addressee of it: what `append` does with one.
    #[inline]
    pub fn append_send(&mut self, to: ProcId, inc: u16, body: &[u8])
        requires room { 0 < self.old.room }
        requires few { length self.old.events < MOST_EVENTS }
        requires short { length body.now ≤ MOST_BODY }
        ensures events { self.new.events ≡ self.old.events ++ Send to inc body.now ∷ [] }
        ensures room { self.old.room ≤ self.new.room + 1 }
        ensures limits { IsTape self.new.events }
    {
        self.incarnations.push_reserved(inc);
        self.addressees.push_reserved(to);
        let beside = self.log.append_send(to, inc, body);
        let spare = if beside { self.spare - 1 } else { 0 };
        self.spare = spare;
    }

    /// Adds the receipt of a message: what `append` does with one.
    pub fn append_receipt(&mut self, message: &MsgName)
        requires room { 0 < self.old.room }
        requires few { length self.old.events < MOST_EVENTS }
        ensures events { self.new.events ≡ self.old.events ++ Recv message.now ∷ [] }
        ensures room { self.old.room ≤ self.new.room + 1 }
        ensures limits { IsTape self.new.events }
    {
        self.receipts.note(message);
        self.log.append_receipt(message);
        let beside = self.receipts.has_room_for_senders(1);
        let spare = if beside { self.spare - 1 } else { 0 };
        self.spare = spare;
    }

    /// Adds a check, with the row of it.
    #[tactic(auto, using(crate::proofs::RowLemmas::sends_le))]
    pub(super) fn append_check(&mut self, state: State, round: Option<u32>)
        requires room { 0 < self.old.room }
        requires few { length self.old.events < MOST_EVENTS }
        requires short { length state ≤ MOST_STATE }
        ensures events { self.new.events ≡ self.old.events ++ Check state round ∷ [] }
        ensures room { self.old.room ≤ self.new.room + 1 }
        ensures limits { IsTape self.new.events }
    {
        let row = CheckRow {
            place: self.log.len() as u32 + 1,
            sends: self.incarnations.len() as u32,
            receipts: self.receipts.count(),
        };
        self.checks.push_reserved(row);
        self.log.append_check(state, round);
        let rows = self.checks.capacity() - self.checks.len();
        let beside = self.log.room_beside().min(rows);
        let spare = if beside > 0 { self.spare - 1 } else { 0 };
        self.spare = spare;
    }

    /// Adds the receipt of a marker: what `append` does with one.
    pub fn append_mark(&mut self, from: ProcId, round: u32)
        requires room { 0 < self.old.room }
        requires few { length self.old.events < MOST_EVENTS }
        ensures events { self.new.events ≡ self.old.events ++ Mark from round ∷ [] }
        ensures room { self.old.room ≤ self.new.room + 1 }
        ensures limits { IsTape self.new.events }
    {
        self.log.append_mark(from, round);
        self.spare -= 1;
    }
}

//! How events come to a catalogue, in room that was made for them.
ghost use Rattle.std.specs.Prelude.{◌≡◌, ◌≢◌, ◌<◌, ◌≤◌, ◌+◌, ℕ, length};
ghost use Rattle.line_names.specs.declared.limits.TheConstants.{MOST_BODY};
ghost use Rattle.line_tape.specs.declared.events.Event.TheVariants.{Send as SendEvent};
ghost use Rattle.line_tape.specs.declared.events.Event.TheVariants.{Recv as RecvEvent};
ghost use Rattle.line_tape.specs.declared.events.Event.TheVariants.{Mark as MarkEvent};
ghost use Rattle.line_tape.specs.Event.{HasLongState, NamesBelow};
ghost use Rattle.line_tape.specs.History.{tape_at, with_event};
ghost use Rattle.line_catalogue.specs.Agreement.{AgreesNext};
ghost use Rattle.line_catalogue.specs.Views.{catalogue_room_at};

use super::Catalogue;
use line_names::{MsgName, ProcId};
use line_tape::{Event, MOST_EVENTS};

impl Catalogue {
    /// Adds an event that may come next, in room that was made for it: what `add` does where it is
    /// not refused, for a caller that has made those tests. It needs no memory. Where no room was
    /// made for long, now and then it keeps the messages that are in transit, as `reserve` does.
    #[inline(always)]
    #[tactic(auto, using(crate::proofs::CatalogueLemmas::lesser_at))]
    pub fn append(&mut self, p: ProcId, event: Event)
        requires process { p < length self.old.processes }
        requires named { NamesBelow (length self.old.processes) event }
        requires short { HasLongState event → ⊥ }
        requires few { length (tape_at self.old.processes p) ≢ MOST_EVENTS }
        requires agrees { AgreesNext self.old.processes p event }
        requires room { 0 < catalogue_room_at self.old p }
        ensures processes { self.new.processes ≡ with_event self.old.processes p event }
        ensures marks { self.new.marks ≡ self.old.marks }
        ensures spent { catalogue_room_at self.old p ≤ catalogue_room_at self.new p + 1 }
        ensures others { (q : ℕ) → q ≢ p
            → catalogue_room_at self.new q ≡ catalogue_room_at self.old q }
    {
        self.rows.append(p, &event, self.ledger.history().tape(p));
        self.ledger.append(p, event);
    }

    /// Adds a send, whose bytes are lent, as `append` does. No row tells of it.
    #[tactic(auto, using(crate::proofs::CatalogueLemmas::lesser_at))]
    pub fn append_send(&mut self, p: ProcId, to: ProcId, inc: u16, body: &[u8])
        requires process { p < length self.old.processes }
        requires to { to < length self.old.processes }
        requires short { length body.now ≤ MOST_BODY }
        requires few { length (tape_at self.old.processes p) < MOST_EVENTS }
        requires agrees { AgreesNext self.old.processes p (SendEvent to inc body.now) }
        requires room { 0 < catalogue_room_at self.old p }
        ensures processes { self.new.processes
            ≡ with_event self.old.processes p (SendEvent to inc body.now) }
        ensures marks { self.new.marks ≡ self.old.marks }
        ensures spent { catalogue_room_at self.old p ≤ catalogue_room_at self.new p + 1 }
        ensures others { (q : ℕ) → q ≢ p
            → catalogue_room_at self.new q ≡ catalogue_room_at self.old q }
    {
        self.ledger.append_send(p, to, inc, body);
    }

    /// Adds the receipt of a message, as `append` does.
    #[tactic(auto, using(crate::proofs::CatalogueLemmas::lesser_at))]
    pub fn append_receipt(&mut self, p: ProcId, message: &MsgName)
        requires process { p < length self.old.processes }
        requires from { message.now.from < length self.old.processes }
        requires few { length (tape_at self.old.processes p) < MOST_EVENTS }
        requires agrees { AgreesNext self.old.processes p (RecvEvent message.now) }
        requires room { 0 < catalogue_room_at self.old p }
        ensures processes { self.new.processes
            ≡ with_event self.old.processes p (RecvEvent message.now) }
        ensures marks { self.new.marks ≡ self.old.marks }
        ensures spent { catalogue_room_at self.old p ≤ catalogue_room_at self.new p + 1 }
        ensures others { (q : ℕ) → q ≢ p
            → catalogue_room_at self.new q ≡ catalogue_room_at self.old q }
    {
        let receipt = Event::Recv { message: *message };
        self.rows.append(p, &receipt, self.ledger.history().tape(p));
        self.ledger.append_receipt(p, message);
    }

    /// Adds the receipt of a marker, as `append` does. No row tells of it.
    #[tactic(auto, using(crate::proofs::CatalogueLemmas::lesser_at))]
    pub fn append_mark(&mut self, p: ProcId, from: ProcId, round: u32)
        requires process { p < length self.old.processes }
        requires from { from < length self.old.processes }
        requires few { length (tape_at self.old.processes p) < MOST_EVENTS }
        requires agrees { AgreesNext self.old.processes p (MarkEvent from round) }
        requires room { 0 < catalogue_room_at self.old p }
        ensures processes { self.new.processes
            ≡ with_event self.old.processes p (MarkEvent from round) }
        ensures marks { self.new.marks ≡ self.old.marks }
        ensures spent { catalogue_room_at self.old p ≤ catalogue_room_at self.new p + 1 }
        ensures others { (q : ℕ) → q ≢ p
            → catalogue_room_at self.new q ≡ catalogue_room_at self.old q }
    {
        self.ledger.append_mark(p, from, round);
    }
}

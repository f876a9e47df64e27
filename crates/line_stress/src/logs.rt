//! What a worker keeps of the answers to its calls.

use line_names::{Body, MsgName, ProcId};
use line_posts::Reported;
use line_tape::State;

/// The answers to the calls of one worker: a CRC-32 of what was handed in and answered, and counts.
///
/// Each accepted call goes into the CRC-32 as a letter for its kind, its numbers, each with the
/// highest byte first, and then the length and the bytes of its body or state.
#[derive(Clone, Copy, Drop)]
pub struct AnswerLog {
    digest: u32,
    opening: u32,
    pub reported: u32,
    pub full: u32,
    pub nothing: u32,
    pub faults: u32,
}

impl AnswerLog {
    /// No call yet; the tape has `opening` events.
    pub fn new(opening: u32) -> AnswerLog {
        AnswerLog {
            digest: u32::MAX,
            opening,
            reported: 0,
            full: 0,
            nothing: 0,
            faults: 0,
        }
    }

    /// The CRC-32 of all calls so far.
    pub fn digest(&self) -> u32 {
        !self.digest
    }

    fn bytes(&mut self, bytes: &[u8]) {
        for byte in bytes {
            self.digest ^= u32::from(*byte);
            for _bit in 0..8 {
                let mask = 0u32.wrapping_sub(self.digest & 1);
                self.digest = (self.digest >> 1) ^ (0xEDB8_8320 & mask);
            }
        }
    }

    fn number(&mut self, number: u32) {
        self.bytes(&number.to_be_bytes());
    }

    fn data(&mut self, bytes: &[u8]) {
        self.bytes(&(bytes.len() as u64).to_be_bytes());
        self.bytes(bytes);
    }

    fn name(&mut self, name: &MsgName) {
        self.number(name.from.get());
        self.number(u32::from(name.inc));
        self.number(name.number);
    }

    /// Counts an answer that should not be.
    pub fn fault(&mut self) {
        self.faults = self.faults.wrapping_add(1);
    }

    /// Counts that a ring had no free slot.
    pub fn no_slot(&mut self) {
        self.full = self.full.wrapping_add(1);
    }

    /// Counts that a ring had no item.
    pub fn no_item(&mut self) {
        self.nothing = self.nothing.wrapping_add(1);
    }

    /// Notes that a message was sent.
    pub fn sent(&mut self, to: ProcId, name: &MsgName, body: &Body) {
        self.bytes(b"s");
        self.number(to.get());
        self.name(name);
        self.data(body.bytes());
    }

    /// Notes that a message was received from worker `from`.
    pub fn received(&mut self, from: ProcId, name: &MsgName, body: &Body) {
        self.bytes(b"r");
        self.number(from.get());
        self.name(name);
        self.data(body.bytes());
    }

    /// Notes that the marker of a round was received from worker `from`; where it forced a check,
    /// `forced` is the state of that check.
    pub fn marked(&mut self, from: ProcId, round: u32, forced: Option<&State>) {
        self.bytes(b"m");
        self.number(from.get());
        self.number(round);
        if let Some(state) = forced {
            self.bytes(b"f");
            self.data(state.bytes());
        }
    }

    /// Notes that a check of this index was taken.
    pub fn checked(&mut self, index: u32, state: &State) {
        self.bytes(b"c");
        self.number(index);
        self.data(state.bytes());
    }

    /// Notes that a round was begun.
    pub fn begun(&mut self, round: u32, state: &State) {
        self.bytes(b"b");
        self.number(round);
        self.data(state.bytes());
    }

    /// Notes a report of a tape that has `events` events. Those that are reported and those that
    /// are left must be all of them.
    pub fn told(&mut self, reported: &Reported, events: u32) {
        self.reported = self.reported.wrapping_add(reported.sent);
        let known = self.opening.wrapping_add(self.reported);
        if known.wrapping_add(reported.left) != events {
            self.fault();
        }
    }
}

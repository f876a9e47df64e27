//! A conversation: bytes come, and the records of the lines that end within them are answered.

ghost use Rattle.std.specs.Prelude.{◌≡◌, [], IfOk, OnErr, OnOk};
ghost use Rattle.line_devices.specs.Devices.{one_more};
ghost use Rattle.line_text.specs.Lines.{last_record};
ghost use Rattle.line_text.specs.Answerers.{PutsAnswersFront};
ghost use Rattle.line_text.specs.Conversations.{first_standing, records_ending_in};
ghost use Rattle.line_text.specs.Turns.{PutsAnswers, PutsLast};

use crate::answerers::Answerer;
use crate::hearings::{hear_bytes, hear_end, put_held};
use crate::lines::PendingLine;
use crate::outcomes::Outcome;
use crate::seats::Seat;
use line_devices::{DeviceFault, Sink};
use line_fields::RecordWriter;
use std::alloc::{AllocError, Global};
use std::marker::Model;

/// Who answers records, and what was read of a line that has not ended. Neither the text nor its
/// records are kept.
#[derive(Drop)]
pub struct Conversation<C> {
    pending: PendingLine,
    seat: Seat<C>,
}

impl<C> Model for Conversation<C> {
    ghost use Rattle.line_text.specs.Conversations.{Standing};

    ghost Value = { Standing C };

    ghost use Rattle.std.specs.Prelude.{◌≡◌, []};

    ghost view = { λ s. record {
      state = s.seat.answerer;
      pending = s.pending;
      outcome = s.seat.outcome;
    } };

    ghost invariant = { λ s. s.seat.writer ≡ [] };
}

impl<C: Answerer> Conversation<C> {
    /// A conversation that has heard nothing. It makes room for the longest line, and for the text
    /// of answers, which is put where it finds no room.
    pub fn new(alloc: Global, answerer: C) -> Result<Conversation<C>, AllocError>
        ensures { IfOk result (λ conversation. conversation ≡ first_standing answerer) }
    {
        let pending = PendingLine::new(alloc)?;
        let writer = RecordWriter::with_room(alloc)?;
        Ok(Conversation {
            pending,
            seat: Seat {
                alloc,
                answerer,
                outcome: Outcome::Done,
                writer,
            },
        })
    }

    /// Answers the records of the lines that end within these bytes, puts the answers and lets them
    /// out. What is left of the bytes waits for its line's end.
    ///
    /// A line that stands whole among the bytes is read where it stands. If memory runs out for a
    /// record, that is the answer to it, and the state is as it was. Once the sink has failed the
    /// conversation is not to be asked any more: then it may have gone on by a record whose answer
    /// was not put.
    pub fn hear<K: Sink>(&mut self, bytes: &[u8], sink: &mut K) -> Result<(), DeviceFault>
        ensures ok { OnOk result (PutsAnswers C.rules self.old bytes.now self.new (K.taken sink.old)
            (K.taken sink.new)) }
        ensures err { OnErr result (PutsAnswersFront C.rules self.old.state []
            (records_ending_in self.old.pending bytes.now) (K.taken sink.old) (K.taken sink.new)) }
        ensures sound { OnOk result (K.faults sink.new ≡ K.faults sink.old) }
        ensures failed { OnErr result (K.faults sink.new ≡ one_more (K.faults sink.old)) }
    {
        match hear_bytes(&mut self.pending, &mut self.seat, bytes, sink) {
            Ok(()) => put_held(&mut self.seat.writer, sink),
            Err(failed) => {
                self.seat.writer.clear();
                Err(failed)
            }
        }
    }

    /// Answers what is pending, as the last line of an input that has ended without a line feed,
    /// puts the answer and lets it out.
    pub fn end<K: Sink>(&mut self, sink: &mut K) -> Result<(), DeviceFault>
        ensures ok { OnOk result (PutsLast C.rules self.old self.new (K.taken sink.old)
            (K.taken sink.new)) }
        ensures err { OnErr result (PutsAnswersFront C.rules self.old.state []
            (last_record self.old.pending) (K.taken sink.old) (K.taken sink.new)) }
        ensures sound { OnOk result (K.faults sink.new ≡ K.faults sink.old) }
        ensures failed { OnErr result (K.faults sink.new ≡ one_more (K.faults sink.old)) }
    {
        let heard = hear_end(&self.pending, &mut self.seat, sink);
        self.pending.clear();
        let writer = &mut self.seat.writer;
        match heard {
            Ok(()) => put_held(writer, sink),
            Err(failed) => {
                writer.clear();
                Err(failed)
            }
        }
    }

    /// Whoever answers, as the records so far left it.
    pub fn into_answerer(self) -> C
        ensures { result ≡ self.state }
    {
        let Conversation { seat, .. } = self;
        let Seat { answerer, .. } = seat;
        answerer
    }

    /// What came of the records so far.
    pub fn outcome(&self) -> Outcome
        ensures { result ≡ self.now.outcome }
    {
        self.seat.outcome
    }
}

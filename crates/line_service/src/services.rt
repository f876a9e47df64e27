//! A service: bytes come, and the records of a script whose lines end within them are answered.

ghost use Rattle.std.specs.Prelude.{◌≡◌, ◌<◌, ◌≤◌, ◌+◌, ◌-◌, ◌^◌, ◌⊎◌, ℕ, List, [], Err};
ghost use Rattle.std.specs.Prelude.{IfOk, OnErr, OnOk, false, length};
ghost use Rattle.line_text.specs.declared.faults.ServeError.TheVariants as errors;
ghost use Rattle.line_text.specs.Answerers.{PutsAnswersFront};
ghost use Rattle.line_text.specs.Conversations.{first_standing, records_ending_in};
ghost use Rattle.line_text.specs.Lines.{last_record};
ghost use Rattle.line_text.specs.Turns.{GivesText, PutsAnswers, PutsLast};
ghost use Rattle.line_text.specs.Turns as spec;
ghost use Rattle.line_devices.specs.Devices.{IsDone, one_more};
ghost use Rattle.line_service.specs.Services.{Empty, Has, service_rules};

use crate::machines::ServedMachine;
use line_devices::{DeviceFault, Sink, Source};
use line_live::Live;
use line_text::{Conversation, Outcome, ServeError, converse, take_turn};
use std::alloc::{AllocError, Global};
use std::marker::Model;

/// A machine that is told what its processes do, record by record.
///
/// It keeps the machine and what was read of a line that has not ended, and neither the text nor
/// its records. So its memory follows the history and what is in transit.
#[derive(Drop)]
pub struct Service {
    conversation: Conversation<ServedMachine>,
}

impl Model for Service {
    ghost use Rattle.line_text.specs.Conversations.{Standing};
    ghost use Rattle.line_service.specs.Services.{ServiceState};

    ghost Value = { Standing ServiceState };

    ghost view = { λ s. s.conversation };
}

impl Service {
    /// A service that has heard nothing. It makes room for the longest line, and for the text of
    /// answers, which is put where it finds no room.
    pub fn new(alloc: Global) -> Result<Service, AllocError>
        ensures { IfOk result (λ service. service ≡ first_standing Empty) }
    {
        let conversation = Conversation::new(alloc, ServedMachine::new(alloc))?;
        Ok(Service { conversation })
    }

    /// Answers the records of the lines that end within these bytes, puts the answers and lets them
    /// out. What is left of the bytes waits for its line's end.
    ///
    /// A line that stands whole among the bytes is read where it stands. If memory runs out for a
    /// record, that is the answer to it, and the machine is as it was. Once the sink has failed the
    /// service is not to be asked any more: then it may have gone on by a record whose answer was
    /// not put.
    pub fn hear<K: Sink>(&mut self, bytes: &[u8], sink: &mut K) -> Result<(), DeviceFault>
        ensures ok { OnOk result (PutsAnswers service_rules self.old bytes.now self.new
            (K.taken sink.old) (K.taken sink.new)) }
        ensures err { OnErr result (PutsAnswersFront service_rules self.old.state []
            (records_ending_in self.old.pending bytes.now) (K.taken sink.old) (K.taken sink.new)) }
        ensures sound { OnOk result (K.faults sink.new ≡ K.faults sink.old) }
        ensures failed { OnErr result (K.faults sink.new ≡ one_more (K.faults sink.old)) }
    {
        self.conversation.hear(bytes, sink)
    }

    /// Answers what is pending, as the last line of an input that has ended without a line feed,
    /// puts the answer and lets it out.
    pub fn end<K: Sink>(&mut self, sink: &mut K) -> Result<(), DeviceFault>
        ensures ok { OnOk result (PutsLast service_rules self.old self.new (K.taken sink.old)
            (K.taken sink.new)) }
        ensures err { OnErr result (PutsAnswersFront service_rules self.old.state []
            (last_record self.old.pending) (K.taken sink.old) (K.taken sink.new)) }
        ensures sound { OnOk result (K.faults sink.new ≡ K.faults sink.old) }
        ensures failed { OnErr result (K.faults sink.new ≡ one_more (K.faults sink.old)) }
    {
        self.conversation.end(sink)
    }

    /// What came of the records so far.
    pub fn outcome(&self) -> Outcome
        ensures { result ≡ self.now.outcome }
    {
        self.conversation.outcome()
    }
}

/// Asks the source once for bytes, into this room, and answers all records whose lines end within
/// them: the answers are put and let out when it returns. It answers false where nothing is left.
///
/// So whenever the source is asked, all that was read before is answered.
pub fn serve_turn<S: Source, K: Sink>(
    service: &mut Service,
    room: &mut [u8],
    source: &mut S,
    sink: &mut K,
) -> Result<bool, ServeError>
    ensures ok { IfOk result (λ more. spec.TakesTurn service_rules service.old service.new (S.left
        source.old)
        (S.left source.new) (S.given source.old) (S.given source.new) (K.taken sink.old)
        (K.taken sink.new) more) }
    ensures end { IfOk result
        (λ more. more ≡ false → 0 < length room.old → IsDone (S.left source.old)) }

    // A source that fails changes nothing, but for what it loses.
    ensures read { result ≡ Err errors.Read → (service.new ≡ service.old) × (sink.new ≡ sink.old)
        × spec.LosesBytes (S.left source.old) (S.left source.new) (S.given source.old)
        (S.given source.new) }
    ensures write { result ≡ Err errors.Write
        → spec.BreaksTurn service_rules service.old (S.left source.old) (S.left source.new)
        (S.given source.old)
        (S.given source.new) (K.taken sink.old) (K.taken sink.new) }

    // No other fault comes, a device that is sound is not blamed, and no failure is passed over.
    ensures codes { result ≡ Err errors.OutOfMemory → ⊥ }
    ensures faults { spec.BlamesDevice result (S.faults source.old) (S.faults source.new)
        (K.faults sink.old) (K.faults sink.new) }
    ensures ended { IfOk result
        (λ more. S.ends source.new ≡ spec.ends_if more (S.ends source.old)) }
    ensures unended { OnErr result (S.ends source.new ≡ S.ends source.old) }
{
    take_turn(&mut service.conversation, room, source, sink)
}

/// Reads the records of a script from a source for as long as it gives bytes, and puts the answers
/// to them.
///
/// Each record is answered by the records that a run writes for it, or by `fault,CODE,NAME`, and
/// then by an empty line. All that was read is answered, put and let out before more is asked for.
/// In place of `world` the text of a saved machine may come, which begins with `history`: its
/// records are answered by the empty line alone, and after the last the machine is opened. A fault
/// in one drops what was read of the text, and so does a line that is no record. There is no limit
/// on the input, and what was read of it is not kept. It fails where memory does not suffice for
/// the start, before anything is read, and where a device fails. After a failure of the source what
/// was read of a line that has not ended is not answered.
pub fn serve<S: Source, K: Sink>(
    alloc: Global,
    source: &mut S,
    sink: &mut K,
) -> Result<Outcome, ServeError>
    // What the source gave, to its end, was answered, and this is the worst of the answers.
    ensures done { IfOk result (λ outcome. (text : List ℕ)
        × GivesText text (S.left source.old) (S.left source.new) (S.given source.old)
        (S.given source.new)
        × spec.AnswersText service_rules Empty text outcome (K.taken sink.old) (K.taken sink.new)) }

    // Where memory is out, nothing begins.
    ensures memory { result ≡ Err errors.OutOfMemory → (source.new ≡ source.old)
        × (sink.new ≡ sink.old) }

    // Where the source failed, all lines that ended before are answered.
    ensures read { result ≡ Err errors.Read → spec.AnswersUntilFailure service_rules Empty (S.left
        source.old)
        (S.left source.new) (S.given source.old) (S.given source.new) (K.taken sink.old)
        (K.taken sink.new) }
    ensures cause { result ≡ Err errors.Read
        → (S.faults source.new ≡ one_more (S.faults source.old))
        ⊎ (S.given source.old + (2 ^ 64 - 1) ≤ S.given source.new) }

    // Where the sink failed, what it took is a prefix of the answers.
    ensures write { result ≡ Err errors.Write
        → spec.AnswersFrontOf service_rules Empty (S.left source.old) (S.left source.new) (S.given
        source.old)
        (S.given source.new) (K.taken sink.old) (K.taken sink.new) }

    // No failure is passed over, and a device that is sound is not blamed.
    ensures heard { OnOk result (S.faults source.new ≡ S.faults source.old) }
    ensures sound { OnOk result (K.faults sink.new ≡ K.faults sink.old) }
    ensures kept { result ≡ Err errors.Read → K.faults sink.new ≡ K.faults sink.old }
    ensures blamed { result ≡ Err errors.Write → (S.faults source.new ≡ S.faults source.old)
        × (K.faults sink.new ≡ one_more (K.faults sink.old)) }

    // Once the source said that nothing is left, it is asked no more.
    ensures ended { OnOk result (S.ends source.new ≡ one_more (S.ends source.old)) }
{
    converse(alloc, ServedMachine::new(alloc), source, sink)
}

/// Reads commands for a machine from a source for as long as it gives bytes, and puts the answers
/// to them, as `serve` does once there is a machine.
pub fn serve_from<S: Source, K: Sink>(
    alloc: Global,
    machine: Live,
    source: &mut S,
    sink: &mut K,
) -> Result<Outcome, ServeError>
    // What the source gave, to its end, was answered, and this is the worst of the answers.
    ensures done { IfOk result (λ outcome. (text : List ℕ)
        × GivesText text (S.left source.old) (S.left source.new) (S.given source.old)
        (S.given source.new)
        × spec.AnswersText service_rules (Has machine) text outcome (K.taken sink.old)
        (K.taken sink.new)) }

    // Where memory is out, nothing begins.
    ensures memory { result ≡ Err errors.OutOfMemory → (source.new ≡ source.old)
        × (sink.new ≡ sink.old) }

    // Where the source failed, all lines that ended before are answered.
    ensures read { result ≡ Err errors.Read
        → spec.AnswersUntilFailure service_rules (Has machine) (S.left source.old)
        (S.left source.new) (S.given source.old) (S.given source.new) (K.taken sink.old)
        (K.taken sink.new) }
    ensures cause { result ≡ Err errors.Read
        → (S.faults source.new ≡ one_more (S.faults source.old))
        ⊎ (S.given source.old + (2 ^ 64 - 1) ≤ S.given source.new) }

    // Where the sink failed, what it took is a prefix of the answers.
    ensures write { result ≡ Err errors.Write
        → spec.AnswersFrontOf service_rules (Has machine) (S.left source.old) (S.left source.new)
        (S.given source.old)
        (S.given source.new) (K.taken sink.old) (K.taken sink.new) }

    // No failure is passed over, and a device that is sound is not blamed.
    ensures heard { OnOk result (S.faults source.new ≡ S.faults source.old) }
    ensures sound { OnOk result (K.faults sink.new ≡ K.faults sink.old) }
    ensures kept { result ≡ Err errors.Read → K.faults sink.new ≡ K.faults sink.old }
    ensures blamed { result ≡ Err errors.Write → (S.faults source.new ≡ S.faults source.old)
        × (K.faults sink.new ≡ one_more (K.faults sink.old)) }

    // Once the source said that nothing is left, it is asked no more.
    ensures ended { OnOk result (S.ends source.new ≡ one_more (S.ends source.old)) }
{
    converse(alloc, ServedMachine::of(alloc, machine), source, sink)
}

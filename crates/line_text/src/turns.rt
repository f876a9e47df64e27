//! A conversation: bytes are read as they come, and all that was read is answered before more is
//! asked for.

ghost use Rattle.std.specs.Prelude.{◌≡◌, ◌<◌, ◌≤◌, ◌+◌, ◌-◌, ◌^◌, ◌⊎◌, ℕ, List, true, false, Err};
ghost use Rattle.std.specs.Prelude.{IfErr, IfOk, OnErr, OnOk, length};
ghost use Rattle.line_devices.specs.Devices.{IsDone, one_more};
ghost use Rattle.line_text.specs.declared.faults.ServeError.TheVariants as errors;
ghost use Rattle.line_text.specs.Conversations.{first_standing};
ghost use Rattle.line_text.specs.Turns.{GivesText};
ghost use Rattle.line_text.specs.Turns as spec;

use crate::answerers::Answerer;
use crate::conversations::Conversation;
use crate::faults::ServeError;
use crate::outcomes::Outcome;
use line_devices::{Sink, Source};
use std::alloc::Global;

/// How many bytes are asked for at a time.
const CHUNK: usize = 65_536;

/// Asks the source once for bytes, into this room, and answers all records whose lines end within
/// them: the answers are put and let out when it returns. It answers false where nothing is left.
///
/// So whenever the source is asked, all that was read before is answered.
pub fn take_turn<C: Answerer, S: Source, K: Sink>(
    conversation: &mut Conversation<C>,
    room: &mut [u8],
    source: &mut S,
    sink: &mut K,
) -> Result<bool, ServeError>
    ensures ok { IfOk result (λ more. spec.TakesTurn C.rules conversation.old conversation.new
        (S.left source.old)
        (S.left source.new) (S.given source.old) (S.given source.new) (K.taken sink.old)
        (K.taken sink.new) more) }
    ensures end { IfOk result
        (λ more. more ≡ false → 0 < length room.old → IsDone (S.left source.old)) }

    // A source that fails changes nothing, but for what it loses.
    ensures read { result ≡ Err errors.Read → (conversation.new ≡ conversation.old) × (sink.new ≡
        sink.old)
        × spec.LosesBytes (S.left source.old) (S.left source.new) (S.given source.old)
        (S.given source.new) }
    ensures write { result ≡ Err errors.Write
        → spec.BreaksTurn C.rules conversation.old (S.left source.old) (S.left source.new) (S.given
        source.old)
        (S.given source.new) (K.taken sink.old) (K.taken sink.new) }

    // No other fault comes, a device that is sound is not blamed, and no failure is passed over.
    ensures codes { result ≡ Err errors.OutOfMemory → ⊥ }
    ensures faults { spec.BlamesDevice result (S.faults source.old) (S.faults source.new)
        (K.faults sink.old) (K.faults sink.new) }
    ensures ended { IfOk result
        (λ more. S.ends source.new ≡ spec.ends_if more (S.ends source.old)) }
    ensures unended { OnErr result (S.ends source.new ≡ S.ends source.old) }
{
    let count = match source.fill(room) {
        Ok(count) => count,
        Err(_) => return Err(ServeError::Read),
    };
    if count == 0 {
        return Ok(false);
    }
    match conversation.hear(&room[..count], sink) {
        Ok(()) => Ok(true),
        Err(_) => Err(ServeError::Write),
    }
}

/// Serves until nothing is left of the source. What is pending then is not answered yet.
fn serve_lines<C: Answerer, S: Source, K: Sink>(
    conversation: &mut Conversation<C>,
    room: &mut [u8],
    source: &mut S,
    sink: &mut K,
) -> Result<(), ServeError>
    requires fresh { conversation.old ≡ first_standing conversation.old.state }
    requires room { 0 < length room.old }
    ensures ok { OnOk result (spec.AnswersLines C.rules conversation.old.state conversation.new
        (S.left source.old) (S.left source.new)
        (S.given source.old) (S.given source.new) (K.taken sink.old) (K.taken sink.new)) }
    ensures read { result ≡ Err errors.Read → spec.AnswersUntilFailure C.rules
        conversation.old.state (S.left source.old)
        (S.left source.new) (S.given source.old) (S.given source.new) (K.taken sink.old)
        (K.taken sink.new) }
    ensures cause { result ≡ Err errors.Read
        → (S.faults source.new ≡ one_more (S.faults source.old))
        ⊎ (S.given source.old + (2 ^ 64 - 1) ≤ S.given source.new) }
    ensures write { result ≡ Err errors.Write
        → spec.BreaksOff C.rules conversation.old.state (S.left source.old) (S.left source.new)
        (S.given source.old)
        (S.given source.new) (K.taken sink.old) (K.taken sink.new) }
    ensures codes { result ≡ Err errors.OutOfMemory → ⊥ }
    ensures heard { OnOk result (S.faults source.new ≡ S.faults source.old) }
    ensures sound { OnOk result (K.faults sink.new ≡ K.faults sink.old) }
    ensures kept { result ≡ Err errors.Read → K.faults sink.new ≡ K.faults sink.old }
    ensures blamed { result ≡ Err errors.Write → (S.faults source.new ≡ S.faults source.old)
        × (K.faults sink.new ≡ one_more (K.faults sink.old)) }
    ensures ended { OnOk result (S.ends source.new ≡ one_more (S.ends source.old)) }
    ensures unended { OnErr result (S.ends source.new ≡ S.ends source.old) }
{
    // Each turn but the last moves a byte at least.
    'turns: for turn in 0..u64::MAX {
        let more = take_turn(conversation, room, source, sink)?;
        if !more {
            return Ok(());
        }
    }
    Err(ServeError::Read)
}

/// Serves until nothing is left of the source, and answers what is pending then.
fn serve_all<C: Answerer, S: Source, K: Sink>(
    conversation: &mut Conversation<C>,
    room: &mut [u8],
    source: &mut S,
    sink: &mut K,
) -> Result<Outcome, ServeError>
    requires fresh { conversation.old ≡ first_standing conversation.old.state }
    requires room { 0 < length room.old }
    ensures done { IfOk result (λ outcome. (text : List ℕ)
        × GivesText text (S.left source.old) (S.left source.new) (S.given source.old)
        (S.given source.new)
        × spec.AnswersText C.rules conversation.old.state text outcome (K.taken sink.old) (K.taken
        sink.new)) }
    ensures state { OnOk result (spec.HearsOut C.rules conversation.old.state
        conversation.new.state (S.left source.old) (S.left source.new) (S.given source.old)
        (S.given source.new)) }
    ensures read { result ≡ Err errors.Read → spec.AnswersUntilFailure C.rules
        conversation.old.state (S.left source.old)
        (S.left source.new) (S.given source.old) (S.given source.new) (K.taken sink.old)
        (K.taken sink.new) }
    ensures cause { result ≡ Err errors.Read
        → (S.faults source.new ≡ one_more (S.faults source.old))
        ⊎ (S.given source.old + (2 ^ 64 - 1) ≤ S.given source.new) }
    ensures write { result ≡ Err errors.Write
        → spec.AnswersFrontOf C.rules conversation.old.state (S.left source.old) (S.left
        source.new) (S.given source.old)
        (S.given source.new) (K.taken sink.old) (K.taken sink.new) }
    ensures codes { result ≡ Err errors.OutOfMemory → ⊥ }
    ensures heard { OnOk result (S.faults source.new ≡ S.faults source.old) }
    ensures sound { OnOk result (K.faults sink.new ≡ K.faults sink.old) }
    ensures kept { result ≡ Err errors.Read → K.faults sink.new ≡ K.faults sink.old }
    ensures blamed { result ≡ Err errors.Write → (S.faults source.new ≡ S.faults source.old)
        × (K.faults sink.new ≡ one_more (K.faults sink.old)) }
    ensures ended { OnOk result (S.ends source.new ≡ one_more (S.ends source.old)) }
{
    serve_lines(conversation, room, source, sink)?;
    match conversation.end(sink) {
        Ok(()) => Ok(conversation.outcome()),
        Err(_) => Err(ServeError::Write),
    }
}

/// Reads records from a source for as long as it gives bytes, and puts the answers to them.
///
/// Each record is answered by the records that the answerer writes for it, or by
/// `fault,CODE,NAME`, and then by an empty line. All that was read is answered, put and let out
/// before more is asked for. There is no limit on the input, and what was read of it is not kept.
/// It fails where memory does not suffice for the start, before anything is read, and where a
/// device fails. After a failure of the source what was read of a line that has not ended is not
/// answered.
pub fn converse<C: Answerer, S: Source, K: Sink>(
    alloc: Global,
    answerer: C,
    source: &mut S,
    sink: &mut K,
) -> Result<Outcome, ServeError>
    // What the source gave, to its end, was answered, and this is the worst of the answers.
    ensures done { IfOk result (λ outcome. (text : List ℕ)
        × GivesText text (S.left source.old) (S.left source.new) (S.given source.old)
        (S.given source.new)
        × spec.AnswersText C.rules answerer text outcome (K.taken sink.old) (K.taken sink.new)) }

    // Where memory is out, nothing begins.
    ensures memory { result ≡ Err errors.OutOfMemory → (source.new ≡ source.old)
        × (sink.new ≡ sink.old) }

    // Where the source failed, all lines that ended before are answered.
    ensures read { result ≡ Err errors.Read → spec.AnswersUntilFailure C.rules answerer (S.left
        source.old)
        (S.left source.new) (S.given source.old) (S.given source.new) (K.taken sink.old)
        (K.taken sink.new) }
    ensures cause { result ≡ Err errors.Read
        → (S.faults source.new ≡ one_more (S.faults source.old))
        ⊎ (S.given source.old + (2 ^ 64 - 1) ≤ S.given source.new) }

    // Where the sink failed, what it took is a prefix of the answers.
    ensures write { result ≡ Err errors.Write
        → spec.AnswersFrontOf C.rules answerer (S.left source.old) (S.left source.new) (S.given
        source.old)
        (S.given source.new) (K.taken sink.old) (K.taken sink.new) }

    // No failure is passed over, and a device that is sound is not blamed.
    ensures heard { OnOk result (S.faults source.new ≡ S.faults source.old) }
    ensures sound { OnOk result (K.faults sink.new ≡ K.faults sink.old) }
    ensures kept { result ≡ Err errors.Read → K.faults sink.new ≡ K.faults sink.old }
    ensures blamed { result ≡ Err errors.Write → (S.faults source.new ≡ S.faults source.old)
        × (K.faults sink.new ≡ one_more (K.faults sink.old)) }

    // Once the source said that nothing is left, it is asked no more.
    ensures ended { OnOk result (S.ends source.new ≡ one_more (S.ends source.old)) }
{
    let Ok(mut room) = vec![in alloc; 0u8; CHUNK] else {
        return Err(ServeError::OutOfMemory);
    };
    let Ok(mut conversation) = Conversation::new(alloc, answerer) else {
        return Err(ServeError::OutOfMemory);
    };
    serve_all(&mut conversation, &mut room, source, sink)
}

/// Reads records from a source to its end, as `converse` does, and gives whoever answered them
/// back.
pub fn hear_out<C: Answerer, S: Source, K: Sink>(
    alloc: Global,
    answerer: C,
    source: &mut S,
    sink: &mut K,
) -> Result<C, ServeError>
    // What the source gave, to its end, was answered, and left this.
    ensures done { IfOk result (λ heard. spec.HearsOut C.rules answerer heard (S.left source.old)
        (S.left source.new) (S.given source.old) (S.given source.new)) }

    // Where memory is out, nothing begins.
    ensures memory { result ≡ Err errors.OutOfMemory → (source.new ≡ source.old)
        × (sink.new ≡ sink.old) }

    // No failure is passed over, and a device that is sound is not blamed.
    ensures cause { result ≡ Err errors.Read
        → (S.faults source.new ≡ one_more (S.faults source.old))
        ⊎ (S.given source.old + (2 ^ 64 - 1) ≤ S.given source.new) }
    ensures heard { OnOk result (S.faults source.new ≡ S.faults source.old) }
    ensures sound { OnOk result (K.faults sink.new ≡ K.faults sink.old) }
    ensures kept { result ≡ Err errors.Read → K.faults sink.new ≡ K.faults sink.old }
    ensures blamed { result ≡ Err errors.Write → (S.faults source.new ≡ S.faults source.old)
        × (K.faults sink.new ≡ one_more (K.faults sink.old)) }
    ensures ended { OnOk result (S.ends source.new ≡ one_more (S.ends source.old)) }
{
    let Ok(mut room) = vec![in alloc; 0u8; CHUNK] else {
        return Err(ServeError::OutOfMemory);
    };
    let Ok(mut conversation) = Conversation::new(alloc, answerer) else {
        return Err(ServeError::OutOfMemory);
    };
    match serve_all(&mut conversation, &mut room, source, sink) {
        Ok(_) => Ok(conversation.into_answerer()),
        Err(error) => Err(error),
    }
}

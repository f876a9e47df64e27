//! Check texts that are judged: a text in, a verdict out.

ghost use Rattle.std.specs.Prelude.{◌≡◌, ◌≢◌, ◌++◌, ◌≤◌, ◌⊎◌, [], ◌∷◌, ℕ, List, Err, Ok, Some};
ghost use Rattle.std.specs.Prelude.{IfErr, IfOk, OnErr, OnOk};
ghost use Rattle.line_check.specs.declared.answers.Start.{Start};
ghost use Rattle.line_claims.specs.Reads.{IsOfText, no_memory};
ghost use Rattle.line_claims.specs.Texts.{check_of_text, check_view};
ghost use Rattle.line_devices.specs.Devices.{Outputs, Puts, PutsFront, one_more};
ghost use Rattle.line_devices.specs.Reads.{GivesAll, IsTooLong};
ghost use Rattle.line_fields.specs.Texts.{record_text};
ghost use Rattle.line_text.specs.declared.ends.TheConstants.{READ_FAULT, WRITE_FAULT};
ghost use Rattle.line_text.specs.Inputs.{HearsEnd};
ghost use Rattle.line_text.specs.Judgings as spec;

use crate::ends::{WRITE_FAULT, fault_of_code, put};
use crate::windows::read_lines;
use line_check::{AnswerRef, CertFault, FaultCode, check_answer, check_certificate};
use line_claims::{CheckReader, CheckText, TextFault, name_of, number_field};
use line_devices::{DeviceFault, Sink, Source};
use line_fields::{Field, RecordWriter, put_fields, put_numbers};
use line_tape::ReceivedFlags;
use std::alloc::{AllocError, Global};

// What is wrong with the line and the certificate of a claim, if anything is.
fn verdict_of_line(check: &CheckText) -> Option<CertFault>
    ensures { spec.IsVerdictOn [] (check_view check.now) result }
{
    let claim = &check.claim;
    match check_certificate(
        &check.history,
        &claim.marks,
        &claim.failed,
        &claim.line,
        claim.certificate.as_slice(),
    ) {
        Ok(()) => None,
        Err(fault) => Some(fault),
    }
}

// What is wrong with the whole answer of a claim, if anything is.
fn verdict_of_answer(check: &CheckText, flags: &mut ReceivedFlags) -> Option<CertFault>
    ensures { (start : Start) (others : List Start)
        → spec.IsVerdictOn (start ∷ others) (check_view check.now) result }
{
    let claim = &check.claim;
    let certificate = claim.certificate.as_slice();
    let starts = claim.starts.as_slice();
    let replays = claim.replays.as_slice();
    let answer = AnswerRef {
        line: &claim.line,
        certificate,
        starts,
        replays,
    };
    match check_answer(&check.history, &claim.marks, &claim.failed, &answer, flags) {
        Ok(()) => None,
        Err(fault) => Some(fault),
    }
}

// What is wrong with a claim, if anything is: with its line and certificate where it does not say
// where the processes go on, and else with the whole answer.
fn verdict_of(alloc: Global, check: &CheckText) -> Result<Option<CertFault>, AllocError>
    ensures { IfOk result (spec.IsVerdict (check_view check.now)) }
{
    let starts = check.claim.starts.as_slice();
    let count = starts.len();
    if count == 0 {
        return Ok(verdict_of_line(check));
    }
    let mut flags = ReceivedFlags::new(alloc, &check.history)?;
    Ok(verdict_of_answer(check, &mut flags))
}

// The number of a fault of a claim.
fn code_of(code: FaultCode) -> u32
    ensures { result ≡ spec.fault_code code }
{
    code.code()
}

// Writes `invalid,ENTRY,CODE,NAME`.
fn put_fault<K: Sink>(
    sink: &mut K,
    writer: &mut RecordWriter,
    fault: CertFault,
) -> Result<(), DeviceFault>
    ensures { Outputs result (K.taken sink.old) (K.taken sink.new) (K.faults sink.old)
        (K.faults sink.new) writer.new
        (writer.old ++ record_text (spec.verdict_record (Some fault))) }
{
    let code = code_of(fault.code);
    let entry = number_field(fault.entry);
    let name = name_of(code).as_bytes();
    let fields = [entry, Field::Number(code as u64), Field::Word(name)];
    put_fields(sink, writer, b"invalid", &fields)
}

// Writes a verdict.
fn put_verdict<K: Sink>(
    sink: &mut K,
    writer: &mut RecordWriter,
    verdict: Option<CertFault>,
) -> Result<(), DeviceFault>
    ensures { Outputs result (K.taken sink.old) (K.taken sink.new) (K.faults sink.old)
        (K.faults sink.new) writer.new (writer.old ++ record_text (spec.verdict_record verdict)) }
{
    match verdict {
        None => put_numbers(sink, writer, b"valid", &[]),
        Some(fault) => put_fault(sink, writer, fault),
    }
}

// Writes a verdict, puts it, and lets it out.
fn tell_verdict<K: Sink>(
    sink: &mut K,
    writer: &mut RecordWriter,
    verdict: Option<CertFault>,
) -> Result<(), DeviceFault>
    requires { writer.old ≡ [] }
    ensures ok { OnOk result
        (Puts (K.taken sink.old) (K.taken sink.new) (record_text (spec.verdict_record verdict))) }
    ensures err { OnErr result
        (PutsFront (K.taken sink.old) (K.taken sink.new)
        (record_text (spec.verdict_record verdict))) }
    ensures sound { OnOk result (K.faults sink.new ≡ K.faults sink.old) }
    ensures failed { OnErr result (K.faults sink.new ≡ one_more (K.faults sink.old)) }
{
    put_verdict(sink, writer, verdict)?;
    put(sink, writer.text())
}

// The history and the claim on it that the whole input spells. No text of the input is kept.
fn check_of<S: Source>(alloc: Global, source: &mut S) -> Result<CheckText, TextFault>
    ensures spelt { IfOk result
        (λ check. (text : List ℕ)
        × GivesAll text (S.left source.old) (S.left source.new) (S.given source.old)
        (S.given source.new)
        × (check_of_text text ≡ Ok (check_view check))) }
    ensures text { IfErr result (λ fault. IsOfText fault
        → (text : List ℕ)
        × GivesAll text (S.left source.old) (S.left source.new) (S.given source.old)
        (S.given source.new)
        × (check_of_text text ≡ Err fault)) }
    ensures read { IfErr result (λ fault. fault.code ≡ READ_FAULT
        → (S.faults source.new ≡ one_more (S.faults source.old))
        ⊎ IsTooLong (S.left source.old) (S.given source.old) (S.given source.new)) }
    ensures codes { IfErr result
        (λ fault. (fault ≡ no_memory)
        ⊎ (fault ≡ record { record_number = 0; code = READ_FAULT })
        ⊎ IsOfText fault) }
    ensures heard { OnOk result (S.faults source.new ≡ S.faults source.old) }
    ensures told { IfErr result
        (λ fault. fault.code ≢ READ_FAULT → S.faults source.new ≡ S.faults source.old) }
    ensures ended { HearsEnd result (S.ends source.old) (S.ends source.new) }
{
    let mut reader = CheckReader::new(alloc);
    read_lines(alloc, source, &mut reader)?;
    reader.into_check()
}

/// Reads a history and a claim on it, judges the claim, and writes the verdict: `valid`, or
/// `invalid,ENTRY,CODE,NAME` with the first fault of the claim, and the entry that it is of,
/// counted from 0, or `-`. It answers that fault, and none where the claim is valid.
///
/// A claim that is told `valid` names only what its history has, its entries lead from the latest
/// surviving choices to its line, and that line is the latest consistent one of choices that
/// survive. Where it has the whole answer, that is right: each process goes on in the
/// incarnation and from the state that a restart at the line gives it, and the messages that are
/// sent again are just those in transit at the line.
///
/// A fault of the text is the first one, with the number of its record; then nothing is judged and
/// nothing written. `ReadFault` says that the source failed or that the input is too long,
/// `WriteFault` that the sink failed, and the fault 0 that memory did not suffice; these are of
/// record 0. It takes time and memory in proportion to the input, and keeps the history and the
/// claim, each once, and of the text no more than the longest line and some 64 KiB; a whole answer
/// takes a byte more for each send.
pub fn check_text<S: Source, K: Sink>(
    alloc: Global,
    source: &mut S,
    sink: &mut K,
) -> Result<Option<CertFault>, TextFault>
    // What the source gave, to its end and within the limit, is a check text that was judged.
    ensures done { IfOk result
        (λ verdict. (text : List ℕ)
        × GivesAll text (S.left source.old) (S.left source.new) (S.given source.old)
        (S.given source.new)
        × spec.JudgesText text verdict (K.taken sink.old) (K.taken sink.new)) }

    // A fault of the text is its first, and then nothing is written.
    ensures text { IfErr result (λ fault. IsOfText fault
        → (sink.new ≡ sink.old)
        × ((text : List ℕ)
        × GivesAll text (S.left source.old) (S.left source.new) (S.given source.old)
        (S.given source.new)
        × (check_of_text text ≡ Err fault))) }

    // So it is where the source failed or the input is too long.
    ensures read { IfErr result (λ fault. fault.code ≡ READ_FAULT
        → (fault.record_number ≡ 0) × (sink.new ≡ sink.old)
        × ((S.faults source.new ≡ one_more (S.faults source.old))
        ⊎ IsTooLong (S.left source.old) (S.given source.old) (S.given source.new))) }

    // Where the sink failed, what it took is a prefix of the verdict.
    ensures write { IfErr result (λ fault. fault.code ≡ WRITE_FAULT
        → (fault.record_number ≡ 0) × (K.faults sink.new ≡ one_more (K.faults sink.old))
        × ((text : List ℕ)
        × GivesAll text (S.left source.old) (S.left source.new) (S.given source.old)
        (S.given source.new)
        × spec.JudgesTextFront text (K.taken sink.old) (K.taken sink.new))) }

    // Out of memory is of no record, and then nothing is written.
    ensures memory { IfErr result
        (λ fault. fault.code ≡ 0 → (fault.record_number ≡ 0) × (sink.new ≡ sink.old)) }

    // There are no other faults, a sound sink is not blamed, and no failure of the source is passed
    // over.
    ensures codes { IfErr result (λ fault. (fault.code ≤ WRITE_FAULT) ⊎ IsOfText fault) }
    ensures sound { OnOk result (K.faults sink.new ≡ K.faults sink.old) }
    ensures heard { OnOk result (S.faults source.new ≡ S.faults source.old) }
    ensures told { IfErr result
        (λ fault. fault.code ≢ READ_FAULT → S.faults source.new ≡ S.faults source.old) }

    // Once the source said that nothing is left, it is asked no more.
    ensures ended { HearsEnd result (S.ends source.old) (S.ends source.new) }
{
    let check = check_of(alloc, source)?;
    let Ok(verdict) = verdict_of(alloc, &check) else {
        return Err(fault_of_code(0));
    };
    let Ok(mut writer) = RecordWriter::with_room(alloc) else {
        return Err(fault_of_code(0));
    };
    match tell_verdict(sink, &mut writer, verdict) {
        Ok(()) => Ok(verdict),
        Err(_) => Err(fault_of_code(WRITE_FAULT)),
    }
}

//! Claims, taken record by record.

ghost use Rattle.std.specs.Prelude.{◌≡◌, ◌≤◌, ◌+◌, [], ◌∷◌, ℕ, List, length, IfOk};
ghost use Rattle.line_names.specs.declared.limits.TheConstants.{MOST_PROCESSES};
ghost use Rattle.line_fields.specs.Records.{Record};
ghost use Rattle.line_claims.specs.Claims as claims;
ghost use Rattle.line_claims.specs.Reads.{Yields};
ghost use Rattle.line_claims.specs.Stages.{Goes};
ghost use Rattle.line_claims.specs.Stages as spec;

use crate::entries::{bar_of, damage_of, entry_of, failed_of, line_of, replay_of, start_of};
use crate::faults::{TextError, error_at, fault_at};
use crate::numbers::want;
use crate::parts::is_named;
use crate::versions::starts_in;
use line_check::{Replay, Start};
use line_fields::{Fault, FieldRow};
use line_names::{Certificate, Line, MOST_PROCESSES, ProcSet};
use line_tape::Marks;
use std::alloc::{AllocError, Global};

/// What is claimed of a history: that this is the latest line, where these checks are damaged,
/// processes are barred at these checks and these failed, and that this certificate shows it. From
/// version 3 on it may have the whole answer to a recovery.
#[derive(Drop)]
pub struct Claim {
    /// The checks that are damaged, and those at which processes are barred.
    pub marks: Marks,
    /// The processes that failed.
    pub failed: ProcSet,
    /// The line.
    pub line: Line,
    /// The entries of its certificate, in the order in which they are to be tested.
    pub certificate: Certificate,
    /// Where each process goes on; of none before version 3, and in version 4 of all or none.
    pub starts: Vec<Start>,
    /// The messages that are sent again; none before version 3.
    pub replays: Vec<Replay>,
}

/// Which part of a claim its next record may be of, if not of one that may follow that part.
#[derive(Clone, Copy)]
pub(crate) enum ClaimStage {
    /// The marks of damage.
    Damage,
    /// The bars, and after them the processes that failed.
    Bars,
    /// The line.
    Line,
    /// The entries of the certificate.
    Entries,
    /// Where the processes go on, of those of which that was not taken.
    Starts,
    /// The messages that are sent again, and after them the end.
    Replays,
    /// None: the claim has ended.
    Nothing,
}

/// A claim among `n` processes of which nothing was read yet.
pub(crate) fn begin_claim(alloc: Global, n: u32) -> Result<Claim, AllocError>
    ensures exact { IfOk result (λ claim. claims.claim_view claim ≡ spec.no_claim n) }
    ensures whole { IfOk result (λ claim. length claim.marks.damaged ≡ n) }
{
    let marks = Marks::new(alloc, n)?;
    Ok(Claim {
        marks,
        failed: ProcSet::empty(),
        line: Line::new(),
        certificate: Certificate::new(alloc),
        starts: Vec::new(alloc),
        replays: Vec::new(alloc),
    })
}

// Takes the end of a claim.
fn take_end(claim: &mut Claim, number: u64, row: &FieldRow<'_>) -> Result<ClaimStage, TextError>
    ensures exact { (version n : ℕ)
        → Goes result (spec.end_left (claims.claim_view claim.old) number)
        (λ stage. spec.claim_left stage version n (claims.claim_view claim.new)
        (number + 1)) row.now }
    ensures same { claim.new ≡ claim.old }
{
    if !is_named(row, b"end") {
        return Err(fault_at(number, Fault::BadRecord));
    }
    match want(row.len() == 1, Fault::BadRecord) {
        Ok(()) => Ok(ClaimStage::Nothing),
        Err(fault) => Err(fault_at(number, fault)),
    }
}

// Whether a record is of a message that is sent again, which version 3 knows.
fn is_replay(version: u32, row: &FieldRow<'_>) -> bool
    ensures { result ≡ claims.is_replay version row.now }
{
    version >= 3 && is_named(row, b"replay")
}

// Whether a record after the entries of a claim of version 4 is not where the first process goes
// on: then the claim says of none where it goes on.
fn is_line_alone(version: u32, row: &FieldRow<'_>) -> bool
    ensures { (rest : List Record) → result ≡ claims.is_line_alone version (row.now ∷ rest) }
{
    version == 4 && !is_named(row, b"start")
}

// Takes a message that is sent again, or the end, which follows these.
fn take_replay(
    version: u32,
    n: u32,
    claim: &mut Claim,
    number: u64,
    row: &FieldRow<'_>,
    bytes: &mut Vec<u8>,
) -> Result<ClaimStage, TextError>
    requires { n ≤ MOST_PROCESSES }
    ensures exact { Goes result (spec.replays_left version n (claims.claim_view claim.old) number)
        (λ stage. spec.claim_left stage version n (claims.claim_view claim.new)
        (number + 1)) row.now }
    ensures same { claim.new.marks ≡ claim.old.marks }
{
    if !is_replay(version, row) {
        return take_end(claim, number, row);
    }
    match replay_of(&mut claim.replays, n, row, bytes) {
        Ok(()) => Ok(ClaimStage::Replays),
        Err(error) => Err(error_at(number, error)),
    }
}

// Takes where the next process goes on, or what follows once that was taken of all.
fn take_start(
    version: u32,
    n: u32,
    claim: &mut Claim,
    number: u64,
    row: &FieldRow<'_>,
    bytes: &mut Vec<u8>,
) -> Result<ClaimStage, TextError>
    requires { n ≤ MOST_PROCESSES }
    ensures exact { Goes result (spec.starts_left version n (claims.claim_view claim.old) number)
        (λ stage. spec.claim_left stage version n (claims.claim_view claim.new)
        (number + 1)) row.now }
    ensures same { claim.new.marks ≡ claim.old.marks }
{
    let starts = claim.starts.as_slice();
    let taken = starts.len();
    let count = starts_in(version, n);
    if taken >= count as usize {
        return take_replay(version, n, claim, number, row, bytes);
    }
    if !is_named(row, b"start") {
        return Err(fault_at(number, Fault::BadRecord));
    }
    match start_of(&mut claim.starts, n, row) {
        Ok(()) => Ok(ClaimStage::Starts),
        Err(error) => Err(error_at(number, error)),
    }
}

// Takes what follows the entries of a claim: where the first process goes on, or the end.
fn take_answer(
    version: u32,
    n: u32,
    claim: &mut Claim,
    number: u64,
    row: &FieldRow<'_>,
    bytes: &mut Vec<u8>,
) -> Result<ClaimStage, TextError>
    requires { n ≤ MOST_PROCESSES }
    ensures exact { Goes result (spec.answer_left version n (claims.claim_view claim.old) number)
        (λ stage. spec.claim_left stage version n (claims.claim_view claim.new)
        (number + 1)) row.now }
    ensures same { claim.new.marks ≡ claim.old.marks }
{
    if is_line_alone(version, row) {
        return take_end(claim, number, row);
    }
    take_start(version, n, claim, number, row, bytes)
}

// Takes an entry of the certificate of a claim, or what follows the entries.
fn take_entry(
    version: u32,
    n: u32,
    claim: &mut Claim,
    number: u64,
    row: &FieldRow<'_>,
    bytes: &mut Vec<u8>,
) -> Result<ClaimStage, TextError>
    requires { n ≤ MOST_PROCESSES }
    ensures exact { Goes result (spec.entries_left version n (claims.claim_view claim.old) number)
        (λ stage. spec.claim_left stage version n (claims.claim_view claim.new)
        (number + 1)) row.now }
    ensures same { claim.new.marks ≡ claim.old.marks }
{
    if !is_named(row, b"pass") {
        return take_answer(version, n, claim, number, row, bytes);
    }
    match entry_of(&mut claim.certificate, n, row) {
        Ok(()) => Ok(ClaimStage::Entries),
        Err(error) => Err(error_at(number, error)),
    }
}

// Takes the line of a claim, in a text of that version.
//
// It is a function of its own, since a line is a large value and comes once.
#[inline(never)]
fn take_line(
    version: u32,
    claim: &mut Claim,
    number: u64,
    row: &FieldRow<'_>,
) -> Result<ClaimStage, TextError>
    ensures exact { (n : ℕ)
        → Goes result (spec.line_left version n (claims.claim_view claim.old) number)
        (λ stage. spec.claim_left stage version n (claims.claim_view claim.new)
        (number + 1)) row.now }
    ensures same { claim.new.marks ≡ claim.old.marks }
{
    if !is_named(row, b"line") {
        return Err(fault_at(number, Fault::BadRecord));
    }
    match line_of(version, row) {
        Ok(line) => {
            claim.line = line;
            Ok(ClaimStage::Entries)
        }
        Err(fault) => Err(fault_at(number, fault)),
    }
}

// Takes the processes of a claim that failed.
fn take_failed(
    n: u32,
    claim: &mut Claim,
    number: u64,
    row: &FieldRow<'_>,
) -> Result<ClaimStage, TextError>
    requires { n ≤ MOST_PROCESSES }
    ensures exact { (version : ℕ)
        → Goes result (spec.failed_left version n (claims.claim_view claim.old) number)
        (λ stage. spec.claim_left stage version n (claims.claim_view claim.new)
        (number + 1)) row.now }
    ensures same { claim.new.marks ≡ claim.old.marks }
{
    if !is_named(row, b"failed") {
        return Err(fault_at(number, Fault::BadRecord));
    }
    match failed_of(n, row) {
        Ok(failed) => {
            claim.failed = failed;
            Ok(ClaimStage::Line)
        }
        Err(fault) => Err(fault_at(number, fault)),
    }
}

// Whether a record bars a process, which version 1 does not know.
fn is_bar(version: u32, row: &FieldRow<'_>) -> bool
    ensures { result ≡ claims.is_bar version row.now }
{
    version >= 2 && is_named(row, b"bar")
}

// Takes a bar of a claim in a text of that version, or what may follow the bars.
fn take_bar(
    version: u32,
    n: u32,
    claim: &mut Claim,
    number: u64,
    row: &FieldRow<'_>,
) -> Result<ClaimStage, TextError>
    requires few { n ≤ MOST_PROCESSES }
    requires whole { length claim.old.marks.damaged ≡ n }
    ensures exact { Goes result (spec.bars_left version n (claims.claim_view claim.old) number)
        (λ stage. spec.claim_left stage version n (claims.claim_view claim.new)
        (number + 1)) row.now }
    ensures whole { length claim.new.marks.damaged ≡ n }
{
    if !is_bar(version, row) {
        return take_failed(n, claim, number, row);
    }
    match bar_of(&mut claim.marks, n, row) {
        Ok(()) => Ok(ClaimStage::Bars),
        Err(fault) => Err(fault_at(number, fault)),
    }
}

// Takes a mark of damage of a claim, or what may follow the marks.
fn take_damage(
    version: u32,
    n: u32,
    claim: &mut Claim,
    number: u64,
    row: &FieldRow<'_>,
) -> Result<ClaimStage, TextError>
    requires few { n ≤ MOST_PROCESSES }
    requires whole { length claim.old.marks.damaged ≡ n }
    ensures exact { Goes result (spec.damage_left version n (claims.claim_view claim.old) number)
        (λ stage. spec.claim_left stage version n (claims.claim_view claim.new)
        (number + 1)) row.now }
    ensures whole { length claim.new.marks.damaged ≡ n }
{
    if !is_named(row, b"damage") {
        return take_bar(version, n, claim, number, row);
    }
    match damage_of(&mut claim.marks, n, row) {
        Ok(()) => Ok(ClaimStage::Damage),
        Err(error) => Err(error_at(number, error)),
    }
}

/// Takes the next record of a claim in a text of that version, which may be of that part or of one
/// that may follow it, and answers the same of the record after it. The bytes of a message take the
/// place of those of a list.
pub(crate) fn take_of_claim(
    version: u32,
    stage: ClaimStage,
    claim: &mut Claim,
    number: u64,
    row: &FieldRow<'_>,
    bytes: &mut Vec<u8>,
) -> Result<ClaimStage, TextError>
    requires few { length claim.old.marks.damaged ≤ MOST_PROCESSES }
    ensures exact { Goes result
        (spec.claim_left stage version (length claim.old.marks.damaged)
        (claims.claim_view claim.old) number)
        (λ next. spec.claim_left next version (length claim.old.marks.damaged)
        (claims.claim_view claim.new) (number + 1)) row.now }
    ensures whole { length claim.new.marks.damaged ≡ length claim.old.marks.damaged }
{
    let n = claim.marks.processes() as u32;
    match stage {
        ClaimStage::Damage => take_damage(version, n, claim, number, row),
        ClaimStage::Bars => take_bar(version, n, claim, number, row),
        ClaimStage::Line => take_line(version, claim, number, row),
        ClaimStage::Entries => take_entry(version, n, claim, number, row, bytes),
        ClaimStage::Starts => take_start(version, n, claim, number, row, bytes),
        ClaimStage::Replays => take_replay(version, n, claim, number, row, bytes),
        ClaimStage::Nothing => Err(fault_at(number, Fault::BadRecord)),
    }
}

/// Refuses a claim that ends before its end; the record that is missing has that number.
pub(crate) fn close_claim(stage: ClaimStage, number: u64) -> Result<(), TextError>
    ensures { (version n : ℕ) (claim : claims.Claim)
        → Yields (λ _. claim) result (spec.claim_left stage version n claim number []) }
{
    match stage {
        ClaimStage::Nothing => Ok(()),
        _ => Err(fault_at(number, Fault::BadRecord)),
    }
}

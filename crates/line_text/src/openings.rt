//! Saved machines, opened.

ghost use Rattle.std.specs.Prelude.{◌≡◌, ◌≢◌, length, IfErr, IfOk, OnOk};
ghost use Rattle.line_text.specs.Openings as spec;
ghost use Rattle.line_catalogue.specs.Agreement.{Agrees};
ghost use Rattle.line_catalogue.specs.Damage.{AreOnChecks};
ghost use Rattle.line_claims.specs.SavedReadings.{rounds_view, saved_view};

use line_catalogue::{Catalogue, CatalogueError};
use line_claims::{SavedRound, SavedText, TextError, TextFault};
use line_live::{Live, OwnedFloor, ResumeError, RoundChecks};
use std::alloc::{AllocError, Global};
use thiserror::Error;

/// Why a saved machine is not opened.
#[derive(Clone, Copy, Debug, PartialEq, Eq, Error)]
pub enum OpenError {
    /// Memory was refused.
    #[error("out of memory")]
    OutOfMemory,
    /// A mark or a bar is on a check that its tape does not have.
    #[error("a check that is damaged, or that a process is barred at, is not there")]
    NoSuchCheck,
    /// A received message has a name that its sender did not give it.
    #[error("a message was received under a name that its sender did not give it")]
    NamesDisagree,
    /// No machine has such parts.
    #[error("no machine has such parts")]
    BadShape,
}

impl OpenError {
    /// The number of the cause, as texts show it.
    pub fn code(self) -> u32
        ensures { result ≡ spec.open_code self }
    {
        match self {
            OpenError::OutOfMemory => 0,
            OpenError::NoSuchCheck => 4,
            OpenError::NamesDisagree => 38,
            OpenError::BadShape => 16,
        }
    }

    /// The fault of a text whose last record has that number.
    pub fn at(self, record_number: u64) -> TextError
        ensures { result ≡ spec.open_fault record_number self }
    {
        let code = self.code();
        if code == 0 {
            return TextError::OutOfMemory;
        }
        TextError::Fault(TextFault {
            record_number,
            code,
        })
    }
}

// Why there is no catalogue of what was saved.
fn cause_of(error: CatalogueError) -> OpenError
    ensures { result ≡ spec.catalogue_cause error }
{
    match error {
        CatalogueError::OutOfMemory => OpenError::OutOfMemory,
        CatalogueError::NoSuchCheck => OpenError::NoSuchCheck,
        CatalogueError::NamesDisagree => OpenError::NamesDisagree,
    }
}

// The catalogue of what was saved.
fn catalogue_of(alloc: Global, saved: &SavedText) -> Result<Catalogue, OpenError>
    requires { length saved.now.marks.damaged ≡ length saved.now.history.processes }
    ensures processes { IfOk result
        (λ catalogue. catalogue.processes ≡ saved.now.history.processes) }
    ensures marks { IfOk result (λ catalogue. catalogue.marks ≡ saved.now.marks) }
    ensures checks { OnOk result (AreOnChecks saved.now.history.processes saved.now.marks) }
    ensures names { OnOk result (Agrees saved.now.history.processes) }
    ensures err { IfErr result (λ error. spec.IsUnopened (saved_view saved.now) error) }
{
    match Catalogue::of(alloc, &saved.history, &saved.marks) {
        Ok(catalogue) => {
            let _history = catalogue.history();
            let _marks = catalogue.marks();
            Ok(catalogue)
        }
        Err(error) => Err(cause_of(error)),
    }
}

// What was let go of each process, as the floor that it was let go before.
#[tactic(auto, using(crate::proofs::OpeningLemmas::floor_made))]
fn floor_of(alloc: Global, floors: &[(u32, u32)], last_round: u32) -> Result<OwnedFloor, AllocError>
    ensures { IfOk result (λ floor. floor ≡ spec.saved_floor floors.now last_round) }
{
    let mut checks = Vec::with_capacity(alloc, floors.len())?;
    let mut sends = Vec::with_capacity(alloc, floors.len())?;
    'each: for i in 0..floors.len() {
        checks.push(floors[i].0)?;
        sends.push(floors[i].1)?;
    }
    Ok(OwnedFloor::of(checks, sends, last_round))
}

// A listed round by its number and its checks.
#[tactic(auto, using(crate::proofs::OpeningLemmas::round_made))]
fn round_of(alloc: Global, round: &SavedRound) -> Result<RoundChecks, AllocError>
    ensures { IfOk result
        (λ checked. checked ≡ spec.round_of_saved (round.now.number, round.now.checks.items)) }
{
    let mut checks = Vec::new(alloc);
    checks.extend_from_slice(round.checks.as_slice())?;
    Ok(RoundChecks::of(round.number, checks))
}

// Listed rounds, each by its number and its checks.
fn rounds_of(alloc: Global, rounds: &[SavedRound]) -> Result<Vec<RoundChecks>, AllocError>
    ensures { IfOk result
        (λ checked. checked.items ≡ spec.rounds_of_saved (rounds_view rounds.now)) }
{
    let mut checked = Vec::with_capacity(alloc, rounds.len())?;
    'each: for i in 0..rounds.len() {
        let round = round_of(alloc, &rounds[i])?;
        checked.push(round)?;
    }
    Ok(checked)
}

// Opens the machine of a catalogue of what was saved, and of its other parts.
#[tactic(auto, using(crate::proofs::OpeningLemmas::live_made))]
fn resume(alloc: Global, catalogue: Catalogue, saved: &SavedText) -> Result<Live, ResumeError>
    requires processes { catalogue.processes ≡ saved.now.history.processes }
    requires marks { catalogue.marks ≡ saved.now.marks }
    ensures live { IfOk result (λ live. live ≡ spec.opened (saved_view saved.now)) }
    ensures resumable { OnOk result (spec.IsResumed (saved_view saved.now)) }
    ensures refused { IfErr result
        (λ e. e ≢ ResumeError.OutOfMemory → spec.IsResumeRefusedOf (saved_view saved.now) e) }
{
    let floor = floor_of(alloc, saved.floors.as_slice(), saved.last_round)?;
    let rounds = rounds_of(alloc, saved.rounds.as_slice())?;
    Live::resume(alloc, catalogue, floor, saved.last_round, rounds.as_slice())
}

/// Opens the machine that a text of a saved one spells.
///
/// What was read is not trusted: it is refused where no machine has such parts. It copies the
/// history, and costs what `Catalogue::of` and `Live::resume` do.
pub fn open_saved(alloc: Global, saved: &SavedText) -> Result<Live, OpenError>
    requires { length saved.now.marks.damaged ≡ length saved.now.history.processes }
    ensures ok { IfOk result (λ live. live ≡ spec.opened (saved_view saved.now)) }
    ensures openable { OnOk result (spec.IsOpenable (saved_view saved.now)) }

    // The refusals, in their order.
    ensures err { IfErr result (λ error. spec.IsUnopened (saved_view saved.now) error) }
{
    let catalogue = catalogue_of(alloc, saved)?;
    match resume(alloc, catalogue, saved) {
        Ok(live) => Ok(live),
        Err(ResumeError::OutOfMemory) => Err(OpenError::OutOfMemory),
        Err(_) => Err(OpenError::BadShape),
    }
}

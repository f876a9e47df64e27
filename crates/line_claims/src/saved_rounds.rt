//! What the text of a saved machine spells, as a value, and what the records of its rounds spell.

ghost use Rattle.std.specs.Prelude.{◌≡◌, ◌+◌, length, drop, IfErr, OnOk};
ghost use Rattle.line_fields.specs.Fields.{Gives};
ghost use Rattle.line_claims.specs.Reads.{Steps};
ghost use Rattle.line_claims.specs.Saved as spec;
ghost use Rattle.line_claims.specs.SavedReadings.{rounds_view};

use crate::numbers::{round, want};
use line_fields::{Fault, FieldRow, ReadError, number};
use line_names::ProcId;
use line_tape::{History, LAST_ROUND, Marks};
use std::alloc::Global;

/// A listed round of a saved machine.
#[derive(Drop)]
pub struct SavedRound {
    /// Its number.
    pub number: u32,
    /// Its check of each process, in the numbers of the tapes that are left.
    pub checks: Vec<u32>,
}

/// What the text of a saved machine spells, in numbers of its own. Whether there is such a machine
/// is not asked.
#[derive(Drop)]
pub struct SavedText {
    /// The tapes that are left.
    pub history: History,
    /// What was let go of each process before its tape: the check that it begins with, 0 for the
    /// initial state, and how many of its first sends.
    pub floors: Vec<(u32, u32)>,
    /// The checks that are damaged, and those at which processes are barred.
    pub marks: Marks,
    /// The rounds that are listed, by their numbers.
    pub rounds: Vec<SavedRound>,
    /// The last round that was begun, or 0. No listed round has a greater number.
    pub last_round: u32,
}

// The number of the last round of a list, or 0.
#[tactic(auto, using(crate::proofs::SavedRoundLemmas::none_listed, crate::proofs::SavedRoundLemmas::one_listed))]
fn last_listed(rounds: &[SavedRound]) -> u32
    ensures { result ≡ spec.last_listed (rounds_view rounds.now) }
{
    let count = rounds.len();
    if count == 0 {
        return 0;
    }
    rounds[count - 1].number
}

// The check of each process of a history, each one that its tape has, of the fields after the
// second.
fn checks_of(alloc: Global, history: &History, row: &FieldRow<'_>) -> Result<Vec<u32>, ReadError>
    requires { length row.now ≡ length history.now.processes + 2 }
    ensures { Gives (λ checks. checks.items) result
        (spec.checks_among history.now.processes (drop 2 row.now)) }
{
    let n = history.n();
    let mut checks = Vec::with_capacity(alloc, n as usize)?;
    for value in 0..n {
        let Ok(p) = ProcId::try_new(value, n) else {
            unreachable!()
        };
        let last = history.tape(p).checks();
        let most = u64::from(last);
        let text = row.field(value as usize + 2);
        let check = number(text, 0, most)?;
        checks.push(check as u32)?;
    }
    Ok(checks)
}

/// Adds the round of `round,R,C0,C1,..`, which is greater than those before it.
#[tactic(auto, unfolding(crate::specs::Saved::one_round_more), using(crate::proofs::SavedRoundLemmas::one_round_seen))]
pub(crate) fn add_round(
    rounds: &mut Vec<SavedRound>,
    history: &History,
    row: &FieldRow<'_>,
) -> Result<(), ReadError>
    ensures { Steps result
        (spec.one_round_more history.now.processes (rounds_view rounds.old.items) row.now)
        (rounds_view rounds.new.items) }
{
    let alloc = *rounds.allocator();
    want(row.len() == history.n() as usize + 2, Fault::BadRecord)?;
    let number = round(row, 1)?;
    let checks = checks_of(alloc, history, row)?;
    want(last_listed(rounds.as_slice()) < number, Fault::BadRecord)?;
    rounds.push(SavedRound { number, checks })?;
    Ok(())
}

/// The last round that was begun, of `saved,ROUND`, which is none before these.
#[tactic(auto, unfolding(crate::specs::Saved::last_round_of))]
pub(crate) fn last_round_of(rounds: &[SavedRound], row: &FieldRow<'_>) -> Result<u32, Fault>
    ensures { result ≡ spec.last_round_of (rounds_view rounds.now) row.now }
{
    want(row.len() == 2, Fault::BadRecord)?;
    let least = last_listed(rounds);
    let last = number(row.field(1), u64::from(least), u64::from(LAST_ROUND))?;
    Ok(last as u32)
}

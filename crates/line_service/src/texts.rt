//! The text of a saved machine, whose records a service takes one by one.

ghost use Rattle.std.specs.Prelude.{◌≡◌, ◌+◌, codes, false, true, IfErr, IfOk, Ok, OnOk};
ghost use Rattle.line_claims.specs.Parts.{is_named};
ghost use Rattle.line_claims.specs.Stages.{Goes};
ghost use Rattle.line_text.specs.Openings.{opened, IsUnopened};
ghost use Rattle.line_claims.specs.SavedReadings.{is_whole, saved_left};
ghost use Rattle.line_service.specs.Served.{parts_of, standing_of, IsText, IsUnended, IsWhole};
ghost use Rattle.line_service.specs.Services.{Began, Dropped, Empty, Hears};

use crate::machines::Served;
use line_claims::{SavedReader, TextError};
use line_fields::FieldRow;
use line_live::Live;
use line_text::{OpenError, open_saved};
use std::alloc::Global;
use std::mem;

/// The text of a saved machine, the first records of which were taken.
#[derive(Drop)]
pub(crate) struct BegunText {
    pub reader: SavedReader,
    /// The number of its next record.
    pub number: u64,
}

/// Takes the next record of a text that has not ended, and says whether it was the last one.
fn take_row(text: &mut BegunText, row: &FieldRow<'_>) -> Result<bool, TextError>
    requires { is_whole text.old.reader ≡ false }
    ensures goes { Goes result (saved_left text.old.reader text.old.number)
        (λ _. saved_left text.new.reader (text.old.number + 1)) row.now }
    ensures last { IfOk result (λ last. last ≡ is_whole text.new.reader) }
    ensures number { IfOk result (λ _. text.new.number ≡ text.old.number + 1) }
{
    let Some(later) = text.number.checked_add(1) else {
        return Err(TextError::OutOfMemory);
    };
    match text.reader.take(text.number, row) {
        Ok(last) => {
            text.number = later;
            Ok(last)
        }
        Err(error) => Err(error),
    }
}

/// Opens the machine that a text spells.
#[tactic(auto, using(crate::proofs::TextLemmas::spelt_whole, crate::proofs::TextLemmas::no_fault))]
fn open_text(alloc: Global, text: BegunText) -> Result<Live, OpenError>
    requires { is_whole text.reader ≡ true }
    ensures ok { IfOk result (λ live. live ≡ opened text.reader.parts) }
    ensures err { IfErr result (λ error. IsUnopened text.reader.parts error) }
{
    let BegunText { reader, number } = text;
    match reader.into_saved(number) {
        Ok(saved) => open_saved(alloc, &saved),
        Err(_) => unreachable!(),
    }
}

/// Opens the machine that a text spells, where that has ended. Of a text whose machine is not
/// opened nothing is left.
#[inline(never)]
fn open_whole(alloc: Global, served: &mut Served) -> Result<(), OpenError>
    requires { IsWhole served.old }
    ensures ok { OnOk result (served.new ≡ Served.Machine (opened (parts_of served.old))) }
    ensures err { IfErr result (λ error. IsUnopened (parts_of served.old) error) }
    ensures dropped { IfErr result (λ _. served.new ≡ Served.Nothing) }
{
    match mem::replace(served, Served::Nothing) {
        Served::Text(text) => match open_text(alloc, text) {
            Ok(live) => {
                *served = Served::Machine(live);
                Ok(())
            }
            Err(cause) => Err(cause),
        },
        _ => unreachable!(),
    }
}

/// Takes the next record of a text, and where it was the last one opens the machine. Where there is
/// a fault nothing is left of the text.
#[tactic(auto, using(crate::proofs::TextLemmas::whole_left))]
pub(crate) fn take_record(
    alloc: Global,
    served: &mut Served,
    row: &FieldRow<'_>,
) -> Result<(), TextError>
    requires text { IsText served.old }
    requires unended { IsUnended served.old }
    ensures ok { OnOk result (Hears (standing_of served.old) (Ok row.now) Began
        (standing_of served.new)) }
    ensures err { IfErr result (λ error. Hears (standing_of served.old) (Ok row.now) (Dropped error)
        Empty) }
    ensures dropped { IfErr result (λ _. served.new ≡ Served.Nothing) }
    ensures unended { IsUnended served.new }
{
    let Served::Text(text) = served else {
        unreachable!()
    };
    let number = text.number;
    match take_row(text, row) {
        Ok(false) => Ok(()),
        Ok(true) => match open_whole(alloc, served) {
            Ok(()) => Ok(()),
            Err(cause) => Err(cause.at(number)),
        },
        Err(error) => {
            *served = Served::Nothing;
            Err(error)
        }
    }
}

/// Begins the text of a saved machine, as a first record says.
#[inline(never)]
#[tactic(auto, using(crate::proofs::TextLemmas::start_text))]
pub(crate) fn begin_text(
    alloc: Global,
    served: &mut Served,
    row: &FieldRow<'_>,
) -> Result<(), TextError>
    requires none { served.old ≡ Served.Nothing }
    requires named { is_named (codes "history") row.now ≡ true }
    ensures ok { OnOk result (Hears Empty (Ok row.now) Began (standing_of served.new)) }
    ensures err { IfErr result (λ error. Hears Empty (Ok row.now) (Dropped error) Empty) }
    ensures same { IfErr result (λ _. served.new ≡ Served.Nothing) }
    ensures unended { IsUnended served.new }
{
    match SavedReader::begin(alloc, row) {
        Ok(reader) => {
            *served = Served::Text(BegunText { reader, number: 2 });
            Ok(())
        }
        Err(error) => Err(error),
    }
}

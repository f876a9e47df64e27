//! The text of a saved machine, taken record by record.

ghost use Rattle.std.specs.Prelude.{◌≡◌, ◌≤◌, ◌<◌, ◌+◌, ◌⊎◌, [], ◌∷◌, ℕ, List, length, true, false};
ghost use Rattle.std.specs.Prelude.{Err, IfErr, IfOk, MatchBool, Ok};
ghost use Rattle.line_fields.specs.declared.faults.Fault.TheVariants as faults;
ghost use Rattle.line_fields.specs.Records.{Record};
ghost use Rattle.line_claims.specs.Events.{is_event};
ghost use Rattle.line_claims.specs.Reads.{fault_of_record};
ghost use Rattle.line_claims.specs.Saved.{saved_of};
ghost use Rattle.line_claims.specs.SavedReadings.{IsBegunSaved, place_of, saved_view};
ghost use Rattle.line_claims.specs.SavedReadings as spec;
ghost use Rattle.line_claims.specs.Stages.{Goes};

use crate::entries::{bar_of, damage_of};
use crate::faults::{TextError, TextFault, error_at, fault_at};
use crate::histories::{begin_history, head_at, take_event, take_floor, take_next_tape};
use crate::parts::is_named;
use crate::saved_rounds::{SavedText, add_round, last_round_of};
use crate::versions::LAST_CHECK_VERSION;
use line_fields::{Fault, FieldRow};
use line_tape::Marks;
use std::alloc::Global;
use std::marker::Model;

// Which part of the text of a saved machine its next record may be of, if not of one that may
// follow that part.
#[derive(Clone, Copy)]
enum SavedStage {
    // What was let go of each process.
    Floors,
    // The tapes.
    Tapes,
    // The marks of damage.
    Damage,
    // The bars.
    Bars,
    // The listed rounds, and after them the last one that was begun.
    Rounds,
    // None: the text has ended.
    Nothing,
}

// A saved machine, the first records of whose text were taken.
#[derive(Drop)]
struct BegunSaved {
    stage: SavedStage,
    // How many of its tapes were begun.
    tapes: u32,
    text: SavedText,
}

// Takes the last round that was begun.
fn take_last(begun: &mut BegunSaved, number: u64, row: &FieldRow<'_>) -> Result<(), TextError>
    requires { IsBegunSaved begun.old }
    ensures exact { Goes result (spec.last_left (saved_view begun.old.text) number)
        (λ _. spec.saved_left (place_of begun.new) (number + 1)) row.now }
    ensures kept { IsBegunSaved begun.new }
{
    if !is_named(row, b"saved") {
        return Err(fault_at(number, Fault::BadRecord));
    }
    match last_round_of(begun.text.rounds.as_slice(), row) {
        Ok(last) => {
            begun.text.last_round = last;
            begun.stage = SavedStage::Nothing;
            Ok(())
        }
        Err(fault) => Err(fault_at(number, fault)),
    }
}

// Takes a listed round, or what may follow the rounds.
fn take_round(begun: &mut BegunSaved, number: u64, row: &FieldRow<'_>) -> Result<(), TextError>
    requires { IsBegunSaved begun.old }
    ensures exact { Goes result (spec.rounds_left (saved_view begun.old.text) number)
        (λ _. spec.saved_left (place_of begun.new) (number + 1)) row.now }
    ensures kept { IsBegunSaved begun.new }
{
    if !is_named(row, b"round") {
        return take_last(begun, number, row);
    }
    match add_round(&mut begun.text.rounds, &begun.text.history, row) {
        Ok(()) => {
            begun.stage = SavedStage::Rounds;
            Ok(())
        }
        Err(error) => Err(error_at(number, error)),
    }
}

// Takes a bar, or what may follow the bars.
fn take_saved_bar(begun: &mut BegunSaved, number: u64, row: &FieldRow<'_>) -> Result<(), TextError>
    requires { IsBegunSaved begun.old }
    ensures exact { Goes result
        (spec.barred_left (length begun.old.text.history.processes) (saved_view begun.old.text)
        number)
        (λ _. spec.saved_left (place_of begun.new) (number + 1)) row.now }
    ensures kept { IsBegunSaved begun.new }
{
    if !is_named(row, b"bar") {
        return take_round(begun, number, row);
    }
    let n = begun.text.history.n();
    match bar_of(&mut begun.text.marks, n, row) {
        Ok(()) => {
            begun.stage = SavedStage::Bars;
            Ok(())
        }
        Err(fault) => Err(fault_at(number, fault)),
    }
}

// Takes a mark of damage, or what may follow the marks.
fn take_saved_damage(
    begun: &mut BegunSaved,
    number: u64,
    row: &FieldRow<'_>,
) -> Result<(), TextError>
    requires { IsBegunSaved begun.old }
    ensures exact { Goes result
        (spec.damaged_left (length begun.old.text.history.processes) (saved_view begun.old.text)
        number)
        (λ _. spec.saved_left (place_of begun.new) (number + 1)) row.now }
    ensures kept { IsBegunSaved begun.new }
{
    if !is_named(row, b"damage") {
        return take_saved_bar(begun, number, row);
    }
    let n = begun.text.history.n();
    match damage_of(&mut begun.text.marks, n, row) {
        Ok(()) => {
            begun.stage = SavedStage::Damage;
            Ok(())
        }
        Err(error) => Err(error_at(number, error)),
    }
}

// Takes a record with which a tape begins, or what may follow the tapes.
fn take_saved_tape(begun: &mut BegunSaved, number: u64, row: &FieldRow<'_>) -> Result<(), TextError>
    requires kept { IsBegunSaved begun.old }
    requires stage { begun.old.stage ≡ SavedStage.Tapes }
    requires other { (begun.old.tapes ≡ 0) ⊎ (is_event row.now ≡ false) }
    ensures exact { Goes result (spec.saved_left (place_of begun.old) number)
        (λ _. spec.saved_left (place_of begun.new) (number + 1)) row.now }
    ensures kept { IsBegunSaved begun.new }
{
    if take_next_tape(&mut begun.text.history, &mut begun.tapes, number, row)? {
        return Ok(());
    }
    take_saved_damage(begun, number, row)
}

// Takes an event of the tape that was begun last, or what may follow the tape.
fn take_in_tape(
    alloc: Global,
    begun: &mut BegunSaved,
    number: u64,
    row: &FieldRow<'_>,
    bytes: &mut Vec<u8>,
) -> Result<(), TextError>
    requires kept { IsBegunSaved begun.old }
    requires stage { begun.old.stage ≡ SavedStage.Tapes }
    ensures exact { Goes result (spec.saved_left (place_of begun.old) number)
        (λ _. spec.saved_left (place_of begun.new) (number + 1)) row.now }
    ensures kept { IsBegunSaved begun.new }
{
    let tapes = begun.tapes;
    if take_event(alloc, &mut begun.text.history, tapes, number, row, bytes)? {
        return Ok(());
    }
    take_saved_tape(begun, number, row)
}

// Takes what was let go of the next process, or what follows once that was taken of all.
fn take_saved_floor(
    begun: &mut BegunSaved,
    number: u64,
    row: &FieldRow<'_>,
) -> Result<(), TextError>
    requires kept { IsBegunSaved begun.old }
    requires stage { begun.old.stage ≡ SavedStage.Floors }
    ensures exact { Goes result (spec.saved_left (place_of begun.old) number)
        (λ _. spec.saved_left (place_of begun.new) (number + 1)) row.now }
    ensures kept { IsBegunSaved begun.new }
{
    let n = begun.text.history.n();
    if begun.text.floors.len() >= n as usize {
        begun.stage = SavedStage::Tapes;
        begun.tapes = 0;
        return take_saved_tape(begun, number, row);
    }
    take_floor(&mut begun.text.floors, number, row)?;
    Ok(())
}

// Takes the next record, where the text has not ended.
fn take_saved(
    alloc: Global,
    begun: &mut BegunSaved,
    number: u64,
    row: &FieldRow<'_>,
    bytes: &mut Vec<u8>,
) -> Result<(), TextError>
    requires kept { IsBegunSaved begun.old }
    ensures open { spec.is_last begun.old.stage ≡ false
        → Goes result (spec.saved_left (place_of begun.old) number)
        (λ _. spec.saved_left (place_of begun.new) (number + 1)) row.now }
    ensures ended { spec.is_last begun.old.stage ≡ true
        → result ≡ Err (TextError.Fault (fault_of_record number faults.BadRecord)) }
    ensures kept { IsBegunSaved begun.new }
{
    match begun.stage {
        SavedStage::Floors => take_saved_floor(begun, number, row),
        SavedStage::Tapes => take_in_tape(alloc, begun, number, row, bytes),
        SavedStage::Damage => take_saved_damage(begun, number, row),
        SavedStage::Bars => take_saved_bar(begun, number, row),
        SavedStage::Rounds => take_round(begun, number, row),
        SavedStage::Nothing => Err(fault_at(number, Fault::BadRecord)),
    }
}

/// Reads the text of a saved machine, record by record, from whatever gives them.
///
/// It keeps what the text spells, and no text.
#[derive(Drop)]
pub struct SavedReader {
    alloc: Global,
    begun: BegunSaved,
    bytes: Vec<u8>,
}

impl Model for SavedReader {
    ghost use Rattle.line_claims.specs.SavedReadings.{IsBegunSaved, SavedPlace, place_of};

    ghost Value = { SavedPlace };

    ghost view = { λ s. place_of s.begun };

    ghost invariant = { λ s. IsBegunSaved s.begun };
}

impl SavedReader {
    /// A reader of the text whose first record this is: `history,4,N`.
    ///
    /// Refused as the first record of a check text is, and where it is of another version.
    pub fn begin(alloc: Global, row: &FieldRow<'_>) -> Result<SavedReader, TextError>
        ensures exact { Goes result saved_of (λ reader. spec.saved_left reader 2) row.now }
        ensures open { IfOk result (λ reader. spec.is_whole reader ≡ false) }
    {
        let (version, n) = head_at(row)?;
        if version != LAST_CHECK_VERSION {
            return Err(fault_at(1, Fault::BadVersion));
        }
        let history = begin_history(alloc, n)?;
        let marks = Marks::new(alloc, n)?;
        let floors = Vec::new(alloc);
        let rounds = Vec::new(alloc);
        Ok(SavedReader {
            alloc,
            begun: BegunSaved {
                stage: SavedStage::Floors,
                tapes: 0,
                text: SavedText {
                    history,
                    floors,
                    marks,
                    rounds,
                    last_round: 0,
                },
            },
            bytes: Vec::new(alloc),
        })
    }

    /// Takes the next record, which has that number, and says whether it was the last one,
    /// `saved,ROUND`. After that one each record is a fault, and it has no effect.
    ///
    /// A round is listed with a check of each process, each one that its tape has, and after those
    /// of lower numbers; the last round that was begun is none of lower number. It takes time in
    /// proportion to the record, and memory in proportion to what it spells. After a refusal what
    /// the reader reads is left open.
    pub fn take(&mut self, number: u64, row: &FieldRow<'_>) -> Result<bool, TextError>
        ensures open { spec.is_whole self.old ≡ false
            → Goes result (spec.saved_left self.old number)
            (λ _. spec.saved_left self.new (number + 1)) row.now }
        ensures last { IfOk result (λ last. last ≡ spec.is_whole self.new) }
        ensures ended { spec.is_whole self.old ≡ true
            → result ≡ Err (TextError.Fault (fault_of_record number faults.BadRecord)) }
    {
        take_saved(self.alloc, &mut self.begun, number, row, &mut self.bytes)?;
        Ok(self.is_whole())
    }

    /// Whether the last record of the text was taken.
    pub fn is_whole(&self) -> bool
        ensures { result ≡ spec.is_whole self.now }
    {
        match self.begun.stage {
            SavedStage::Nothing => true,
            _ => false,
        }
    }

    /// What the text spells, where its last record was taken, and else the fault that a record is
    /// missing, which would have that number.
    pub fn into_saved(self, number: u64) -> Result<SavedText, TextFault>
        ensures ok { IfOk result (λ saved. spec.saved_left self number []
            ≡ Ok (record { value = saved_view saved; number = number; left = [] })) }
        ensures err { IfErr result (λ fault. spec.saved_left self number [] ≡ Err fault) }
        ensures marks { IfOk result
            (λ saved. length saved.marks.damaged ≡ length saved.history.processes) }
    {
        if !self.is_whole() {
            return Err(TextFault {
                record_number: number,
                code: Fault::BadRecord.code(),
            });
        }
        let SavedReader { begun, .. } = self;
        Ok(begun.text)
    }
}

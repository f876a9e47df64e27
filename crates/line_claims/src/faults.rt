//! What is wrong with a text, and at which record.

ghost use Rattle.std.specs.Prelude.{◌≡◌, IsTrue};
ghost use Rattle.line_fields.specs.Faults.{code_of};
ghost use Rattle.line_fields.specs.Texts.{is_plain_field};
ghost use Rattle.line_claims.specs.Faults.{name_of};
ghost use Rattle.line_claims.specs.Reads.{error_at, fault_of_error};

use line_fields::{Fault, ReadError};
use std::alloc::{AllocError, AllocFailed};
use thiserror::Error;

/// The name that stands beside the number of a refusal or a fault, and an empty one where nothing
/// has that number.
pub fn name_of(code: u32) -> &'static str
    ensures name { result.now ≡ name_of code }
    ensures plain { IsTrue (is_plain_field result.now) }
{
    match code {
        0 => "OutOfMemory",
        1 => "NoSuchProcess",
        2 => "BodyTooLong",
        3 => "TapeFull",
        4 => "NoSuchCheck",
        5 => "StateTooLong",
        6 => "BadCount",
        7 => "InitialDamage",
        8 => "AlreadyDamaged",
        9 => "RoundNotNew",
        10 => "MarkerRepeated",
        11 => "NotTop",
        12 => "NotReceived",
        13 => "NotOrphan",
        14 => "LineDiffers",
        15 => "NotConsistent",
        16 => "BadShape",
        17 => "ToSelf",
        18 => "LinkEmpty",
        19 => "BadPick",
        20 => "RoundOpen",
        21 => "NothingToTurn",
        22 => "WrongMode",
        23 => "NoMoreRounds",
        24 => "NoMoreIncarnations",
        32 => "BadRecord",
        33 => "BadNumber",
        34 => "NoWorld",
        35 => "BadVersion",
        36 => "ReadFault",
        37 => "WriteFault",
        38 => "NamesDisagree",
        40 => "BarNotLower",
        41 => "StateDiffers",
        42 => "IncarnationDiffers",
        43 => "NotInTransit",
        44 => "ReplayDiffers",
        45 => "ReplayRepeated",
        46 => "ReplayMissing",
        47 => "StaleReport",
        48 => "NoSuchRound",
        49 => "RoundLost",
        50 => "NoMoreNumbers",
        _ => "",
    }
}

/// What stopped a text, and at which record: its number, from 1, or 0 where it is of no record.
#[derive(Clone, Copy, Debug, PartialEq, Eq, Error)]
#[error("record {record_number}: {code} {name}", name = name_of(*.code))]
pub struct TextFault {
    /// Which record, counted from 1; 0 for a byte that no text has, and for out of memory.
    pub record_number: u64,
    /// The number of the fault.
    pub code: u32,
}

/// Why a text was not read, for those that read texts of their own.
#[derive(Clone, Copy, Debug, PartialEq, Eq, Error)]
pub enum TextError {
    /// A growth was refused.
    #[error("OutOfMemory")]
    OutOfMemory,
    /// The text has this fault.
    #[error(transparent)]
    Fault(TextFault),
}

impl From<AllocError> for TextError {
    ghost use Rattle.line_claims.specs.declared.faults.TextError.TheVariants.{OutOfMemory};

    ghost from_gives = { λ _ e. e ≡ OutOfMemory };

    fn from(_e: AllocError) -> TextError {
        TextError::OutOfMemory
    }
}

impl<T: Drop> From<AllocFailed<T>> for TextError {
    ghost use Rattle.line_claims.specs.declared.faults.TextError.TheVariants.{OutOfMemory};

    ghost from_gives = { λ _ e. e ≡ OutOfMemory };

    fn from(_e: AllocFailed<T>) -> TextError {
        TextError::OutOfMemory
    }
}

/// A fault of the record with that number.
pub fn fault_at(record_number: u64, fault: Fault) -> TextError
    ensures { result
        ≡ TextError.Fault (record { record_number = record_number; code = code_of fault }) }
{
    TextError::Fault(TextFault {
        record_number,
        code: fault.code(),
    })
}

/// Why the record with that number was not read.
pub fn error_at(record_number: u64, error: ReadError) -> TextError
    ensures { result ≡ error_at record_number error }
{
    match error {
        ReadError::OutOfMemory => TextError::OutOfMemory,
        ReadError::Fault(fault) => fault_at(record_number, fault),
    }
}

/// What a caller is told of an error: out of memory is the fault 0 of record 0.
pub fn told(error: TextError) -> TextFault
    ensures { result ≡ fault_of_error error }
{
    match error {
        TextError::OutOfMemory => TextFault {
            record_number: 0,
            code: 0,
        },
        TextError::Fault(fault) => fault,
    }
}

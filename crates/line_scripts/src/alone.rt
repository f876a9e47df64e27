//! The command of a record that has no field but its name.

ghost use Rattle.std.specs.Prelude.{◌≡◌, ℕ, List, IfOk};
ghost use Rattle.line_fields.specs.Fields.{Gives};
ghost use Rattle.line_fields.specs.Shapes.{alone};
ghost use Rattle.line_scripts.specs.declared.commands.Command.{Command};
ghost use Rattle.line_scripts.specs.Keeping.{HasShortMessage, long_of, with_bytes};

use crate::keeping::Kept;
use line_claims::want;
use line_fields::{Fault, FieldRow, ReadError};

/// The command of a `rounds` record.
#[inline(never)]
#[tactic(auto, unfolding(line_fields::specs::Shapes::alone))]
pub(crate) fn kept_rounds(row: &FieldRow<'_>) -> Result<Kept, ReadError>
    ensures exact { (bytes : List ℕ) → Gives (λ kept. with_bytes kept bytes) result
        (alone Command.Rounds row.now) }
    ensures long { IfOk result (λ kept. long_of kept ≡ 0) }
    ensures short { IfOk result HasShortMessage }
{
    want(row.len() == 1, Fault::BadRecord)?;
    Ok(Kept::Rounds)
}

/// The command of a `history` record.
#[inline(never)]
#[tactic(auto, unfolding(line_fields::specs::Shapes::alone))]
pub(crate) fn kept_history(row: &FieldRow<'_>) -> Result<Kept, ReadError>
    ensures exact { (bytes : List ℕ) → Gives (λ kept. with_bytes kept bytes) result
        (alone Command.History row.now) }
    ensures long { IfOk result (λ kept. long_of kept ≡ 0) }
    ensures short { IfOk result HasShortMessage }
{
    want(row.len() == 1, Fault::BadRecord)?;
    Ok(Kept::History)
}

/// The command of a `live` record.
#[inline(never)]
#[tactic(auto, unfolding(line_fields::specs::Shapes::alone))]
pub(crate) fn kept_live(row: &FieldRow<'_>) -> Result<Kept, ReadError>
    ensures exact { (bytes : List ℕ) → Gives (λ kept. with_bytes kept bytes) result
        (alone Command.Live row.now) }
    ensures long { IfOk result (λ kept. long_of kept ≡ 0) }
    ensures short { IfOk result HasShortMessage }
{
    want(row.len() == 1, Fault::BadRecord)?;
    Ok(Kept::Live)
}

/// The command of a `save` record.
#[inline(never)]
#[tactic(auto, unfolding(line_fields::specs::Shapes::alone))]
pub(crate) fn kept_save(row: &FieldRow<'_>) -> Result<Kept, ReadError>
    ensures exact { (bytes : List ℕ) → Gives (λ kept. with_bytes kept bytes) result
        (alone Command.Save row.now) }
    ensures long { IfOk result (λ kept. long_of kept ≡ 0) }
    ensures short { IfOk result HasShortMessage }
{
    want(row.len() == 1, Fault::BadRecord)?;
    Ok(Kept::Save)
}

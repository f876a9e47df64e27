//! Values as the fields of records that are written.

ghost use Rattle.std.specs.Prelude.{◌≡◌, decimal, map};
ghost use Rattle.line_claims.specs.Records as spec;
ghost use Rattle.line_fields.specs.Outlets.{field_text};

use line_fields::Field;
use line_names::{Choice, MsgName};

/// The numbers that name a message: its sender, the sender's incarnation, and its number.
#[inline(always)]
pub fn numbers_of(message: MsgName) -> [u64; 3]
    ensures { map decimal result ≡ spec.name_fields message }
{
    let from = message.from.get();
    [from as u64, message.inc as u64, message.number as u64]
}

/// A number, or `-` where there is none.
#[inline(always)]
pub fn number_field(number: Option<u32>) -> Field<'static>
    ensures { field_text result ≡ spec.number_text number }
{
    match number {
        None => Field::Word(b"-"),
        Some(number) => Field::Number(u64::from(number)),
    }
}

/// A choice: the number of a check, or `now`.
#[inline(always)]
pub fn choice_field(choice: Choice) -> Field<'static>
    ensures { field_text result ≡ spec.choice_text choice }
{
    match choice {
        Choice::Check(check) => Field::Number(u64::from(check)),
        Choice::Now => Field::Word(b"now"),
    }
}

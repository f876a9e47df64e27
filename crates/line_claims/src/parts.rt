//! The names of records.

ghost use Rattle.std.specs.Prelude.{◌≡◌};
ghost use Rattle.line_claims.specs.Parts.{is_named};

use line_fields::FieldRow;

/// Whether the first field of a record is that name.
pub(crate) fn is_named(row: &FieldRow<'_>, name: &[u8]) -> bool
    ensures { result ≡ is_named name.now row.now }
{
    row.field(0) == name
}

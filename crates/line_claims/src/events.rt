//! The kinds of events that the records of a history spell.

ghost use Rattle.std.specs.Prelude.{◌≡◌, false, true, MatchOption};
ghost use Rattle.line_fields.specs.Records.{field};
ghost use Rattle.line_claims.specs.Events as spec;

use line_fields::FieldRow;

/// The kinds of events that records spell.
#[derive(Clone, Copy)]
pub(crate) enum Kind {
    Send,
    Recv,
    Check,
    Mark,
}

/// The kind of event that a record spells, by its first field.
#[inline(always)]
pub(crate) fn kind_of(row: &FieldRow<'_>) -> Option<Kind>
    ensures { MatchOption result (spec.is_event row.now ≡ false)
        (λ kind. (spec.is_event row.now ≡ true) × (field row.now 0 ≡ spec.kind_text kind)) }
{
    match row.field(0) {
        b"send" => Some(Kind::Send),
        b"recv" => Some(Kind::Recv),
        b"check" => Some(Kind::Check),
        b"mark" => Some(Kind::Mark),
        _ => None,
    }
}

//! Where the first line of a text and its fields end.

ghost use Rattle.std.specs.Prelude.{◌≡◌, All, IfOk, take};
ghost use Rattle.line_fields.specs.Records.{parts};
ghost use Rattle.line_fields.specs.Rows.{IsLineEnd, IsFieldWithin, fields_in, spans_from};

use std::alloc::AllocError;
use std::simd::prelude::*;

// Where the fields of the first line of a text end, and where that line does: before a line feed or
// a carriage return, or with the text.
//
// Its bytes are looked at sixteen at a time, and near the end of the text one by one.
#[inline(always)]
pub(crate) fn split(text: &[u8], ends: &mut Vec<usize>) -> Result<usize, AllocError>
    ensures line { IfOk result (λ end. IsLineEnd text.now end) }
    ensures within { IfOk result
        (λ end. All (IsFieldWithin (take end text.now)) (spans_from 0 ends.new.items)) }
    ensures fields { IfOk result
        (λ end. fields_in (take end text.now) ends.new.items ≡ parts 44 (take end text.now)) }
{
    ends.clear();
    let mut at = 0;
    while text.len() - at >= 16 {
        let bytes = u8x16::from_slice(&text[at..]);
        let mut marks = (bytes.simd_eq(u8x16::splat(b','))
            | bytes.simd_eq(u8x16::splat(b'\n'))
            | bytes.simd_eq(u8x16::splat(b'\r'))).to_bitmask();
        let mut next = at;
        while marks != 0 {
            let before = marks.trailing_zeros();
            let mark = next + before as usize;
            ends.push(mark)?;
            if text[mark] != b',' {
                return Ok(mark);
            }
            marks >>= before + 1;
            next = mark + 1;
        }
        at += 16;
    }
    while at < text.len() && text[at] != b'\n' && text[at] != b'\r' {
        if text[at] == b',' {
            ends.push(at)?;
        }
        at += 1;
    }
    ends.push(at)?;
    Ok(at)
}

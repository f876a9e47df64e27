//! Hexadecimal digits, many at a time.

ghost use Rattle.std.specs.Prelude.{◌≡◌, ◌≤◌, ◌<◌, ◌+◌, ◌*◌, ◌++◌, Ok, length, take};
ghost use Rattle.std.specs.Prelude.{vec_capacity, vec_len};
ghost use Rattle.std.specs.Option.{IfSome};
ghost use Rattle.line_fields.specs.Fields.{hex};
ghost use Rattle.line_fields.specs.Texts.{hex_digit, hex_text};

use std::simd::prelude::*;

// How many bytes are spelled at once.
const BYTES_AT_ONCE: usize = 8;

// What stands for a byte that is no digit, in a lane or in a table.
pub(crate) const NO_DIGIT: u8 = 255;

// The hexadecimal digits, of lower case.
static DIGITS: [u8; 16] = *b"0123456789abcdef";

// The bytes that the first sixteen digits of a text spell, or none where it has fewer or one is no
// digit.
#[inline(always)]
pub(crate) fn first_eight(text: &[u8]) -> Option<[u8; 8]>
    ensures long { IfSome result (λ eight. 16 ≤ length text.now) }
    ensures digits { IfSome result (λ eight. hex (take 16 text.now) ≡ Ok eight) }
{
    if text.len() < 16 {
        return None;
    }
    let bytes = u8x16::from_slice(text);
    let number = bytes - u8x16::splat(b'0');
    let letter = (bytes | u8x16::splat(0x20)) - u8x16::splat(b'a');
    let other = letter
        .simd_lt(u8x16::splat(6))
        .select(letter + u8x16::splat(10), u8x16::splat(NO_DIGIT));
    // What each byte stands for as a digit of either case.
    let lanes = number.simd_lt(u8x16::splat(10)).select(number, other);
    if lanes.simd_gt(u8x16::splat(15)).to_bitmask() != 0 {
        return None;
    }
    let high = lanes.swizzle([0, 2, 4, 6, 8, 10, 12, 14]);
    let low = lanes.swizzle([1, 3, 5, 7, 9, 11, 13, 15]);
    Some((high * u8x8::splat(16) + low).to_array())
}

// The bytes that the first eight digits of a text spell, or none where it has fewer or one is no
// digit.
#[inline(always)]
pub(crate) fn first_four(text: &[u8]) -> Option<[u8; 4]>
    ensures long { IfSome result (λ four. 8 ≤ length text.now) }
    ensures digits { IfSome result (λ four. hex (take 8 text.now) ≡ Ok four) }
{
    if text.len() < 8 {
        return None;
    }
    let bytes = u8x8::from_slice(text);
    let number = bytes - u8x8::splat(b'0');
    let letter = (bytes | u8x8::splat(0x20)) - u8x8::splat(b'a');
    let other = letter
        .simd_lt(u8x8::splat(6))
        .select(letter + u8x8::splat(10), u8x8::splat(NO_DIGIT));
    // What each byte stands for as a digit of either case.
    let lanes = number.simd_lt(u8x8::splat(10)).select(number, other);
    if lanes.simd_gt(u8x8::splat(15)).to_bitmask() != 0 {
        return None;
    }
    let high = lanes.swizzle([0, 2, 4, 6]);
    let low = lanes.swizzle([1, 3, 5, 7]);
    Some((high * u8x4::splat(16) + low).to_array())
}

// The sixteen digits, of lower case, that spell the first eight bytes of a list.
#[inline(always)]
fn digits_of_eight(bytes: &[u8]) -> [u8; 16]
    requires { 8 ≤ length bytes.now }
    ensures { result ≡ hex_text (take 8 bytes.now) }
{
    let bytes = u8x8::from_slice(bytes);
    let high = bytes / u8x8::splat(16);
    let low = bytes % u8x8::splat(16);
    let halves = high.shuffle(low, [0, 8, 1, 9, 2, 10, 3, 11, 4, 12, 5, 13, 6, 14, 7, 15]);
    let is_number = halves.simd_lt(u8x16::splat(10));
    let number = halves + u8x16::splat(b'0');
    let letter = halves + u8x16::splat(b'a' - 10);
    is_number.select(number, letter).to_array()
}

// The digit, of lower case, that stands for a value below 16.
pub(crate) fn hex_digit(value: u8) -> u8
    requires { value < 16 }
    ensures { result ≡ hex_digit value }
{
    DIGITS[usize::from(value)]
}

// Writes bytes in hexadecimal, eight at a time as far as there are eight of them. There is room for
// the digits of all.
pub(crate) fn push_hex(out: &mut Vec<u8>, bytes: &[u8])
    requires { vec_len out.old + 2 * length bytes.now ≤ vec_capacity out.old }
    ensures { out.new.items ≡ out.old.items ++ hex_text bytes.now }
{
    let mut rest = bytes;
    while rest.len() >= BYTES_AT_ONCE {
        let Ok(()) = out.extend_from_slice(&digits_of_eight(rest)) else {
            unreachable!()
        };
        rest = &rest[BYTES_AT_ONCE..];
    }
    for byte in rest {
        let (high, low) = (*byte / 16, *byte % 16);
        out.push_reserved(hex_digit(high));
        out.push_reserved(hex_digit(low));
    }
}

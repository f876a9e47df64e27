//! The numbers and the bytes that fields spell.

ghost use Rattle.std.specs.Prelude.{◌≡◌, ◌≤◌, IfOk, take, vec_len};
ghost use Rattle.line_fields.specs.Digits.{with_front};
ghost use Rattle.line_fields.specs.Fields.{Gives, digit, num};
ghost use Rattle.line_fields.specs.Fields as spec;

use crate::digits::{NO_DIGIT, first_eight, first_four};
use crate::{Fault, ReadError};
use std::alloc::Global;

// What each byte stands for as a hexadecimal digit of either case.
static VALUES: [u8; 256] = [
    255, 255, 255, 255, 255, 255, 255, 255, 255, 255, 255, 255, 255, 255, 255, 255, 255, 255, 255,
    255, 255, 255, 255, 255, 255, 255, 255, 255, 255, 255, 255, 255, 255, 255, 255, 255, 255, 255,
    255, 255, 255, 255, 255, 255, 255, 255, 255, 255, 0, 1, 2, 3, 4, 5, 6, 7, 8, 9, 255, 255, 255,
    255, 255, 255, 255, 10, 11, 12, 13, 14, 15, 255, 255, 255, 255, 255, 255, 255, 255, 255, 255,
    255, 255, 255, 255, 255, 255, 255, 255, 255, 255, 255, 255, 255, 255, 255, 255, 10, 11, 12, 13,
    14, 15, 255, 255, 255, 255, 255, 255, 255, 255, 255, 255, 255, 255, 255, 255, 255, 255, 255,
    255, 255, 255, 255, 255, 255, 255, 255, 255, 255, 255, 255, 255, 255, 255, 255, 255, 255, 255,
    255, 255, 255, 255, 255, 255, 255, 255, 255, 255, 255, 255, 255, 255, 255, 255, 255, 255, 255,
    255, 255, 255, 255, 255, 255, 255, 255, 255, 255, 255, 255, 255, 255, 255, 255, 255, 255, 255,
    255, 255, 255, 255, 255, 255, 255, 255, 255, 255, 255, 255, 255, 255, 255, 255, 255, 255, 255,
    255, 255, 255, 255, 255, 255, 255, 255, 255, 255, 255, 255, 255, 255, 255, 255, 255, 255, 255,
    255, 255, 255, 255, 255, 255, 255, 255, 255, 255, 255, 255, 255, 255, 255, 255, 255, 255, 255,
    255, 255, 255, 255, 255, 255, 255, 255, 255, 255, 255, 255, 255, 255, 255, 255, 255, 255, 255,
    255, 255, 255,
];

/// The number that the digits of a field spell, leading zeros among them, in a range.
///
/// Refused as `BadNumber`: a field that is empty, has a byte that is no digit, or spells a number
/// below `least` or above `most`. It takes no memory, and looks at no digit past the one that makes
/// the number too great.
pub fn number(text: &[u8], least: u64, most: u64) -> Result<u64, Fault>
    ensures exact { result ≡ num least most text.now }
    ensures within { IfOk result (λ n. (least ≤ n) × (n ≤ most)) }
{
    if let [digit] = text {
        if !digit.is_ascii_digit() {
            return Err(Fault::BadNumber);
        }
        let value = u64::from(*digit - b'0');
        if value < least || value > most {
            return Err(Fault::BadNumber);
        }
        return Ok(value);
    }
    let most_tens = most / 10;
    let mut value = 0u64;
    let mut rest = text;
    while let [digit, others @ ..] = rest {
        if !digit.is_ascii_digit() {
            return Err(Fault::BadNumber);
        }
        if value > most_tens {
            return Err(Fault::BadNumber);
        }
        let tens = value * 10;
        let units = u64::from(*digit - b'0');
        if units > most - tens {
            return Err(Fault::BadNumber);
        }
        value = tens + units;
        rest = others;
    }
    if text.is_empty() || value < least {
        return Err(Fault::BadNumber);
    }
    Ok(value)
}

// What one hexadecimal digit of either case stands for.
fn digit(byte: u8) -> Result<u8, Fault>
    ensures { result ≡ digit byte }
{
    let value = VALUES[byte as usize];
    if value == NO_DIGIT {
        return Err(Fault::BadNumber);
    }
    Ok(value)
}

/// Puts the bytes that the hexadecimal digits of a field spell, two digits of either case for each
/// byte, after those that a list has.
///
/// Refused as `BadNumber`: a field with an odd number of bytes, or with one that is no digit. An
/// empty field spells no bytes. The list grows at most once, where it has no room for as many bytes
/// more as the field spells. After a refusal it may have some of them after what it had.
pub fn hex_behind(bytes: &mut Vec<u8>, text: &[u8]) -> Result<(), ReadError>
    ensures exact { Gives (λ _. bytes.new.items) result
        (with_front bytes.old.items (spec.hex text.now)) }
    ensures kept { take (vec_len bytes.old) bytes.new.items ≡ bytes.old.items }
{
    bytes.reserve(text.len() / 2)?;
    let mut rest = text;
    while let Some(eight) = first_eight(rest) {
        let Ok(()) = bytes.extend_from_slice(&eight) else {
            unreachable!()
        };
        rest = &rest[16..];
    }
    while let Some(four) = first_four(rest) {
        let Ok(()) = bytes.extend_from_slice(&four) else {
            unreachable!()
        };
        rest = &rest[8..];
    }
    while let [high, low, others @ ..] = rest {
        let high = digit(*high)?;
        let low = digit(*low)?;
        bytes.push_reserved(16 * high + low);
        rest = others;
    }
    if !rest.is_empty() {
        return Err(ReadError::Fault(Fault::BadNumber));
    }
    Ok(())
}

/// Puts the bytes that the hexadecimal digits of a field spell, two digits of either case for each
/// byte, in place of what a list has.
///
/// Refused as `BadNumber`: a field with an odd number of bytes, or with one that is no digit. An
/// empty field spells no bytes. The list grows at most once, where it has no room for as many bytes
/// as the field spells. After a refusal it has some of them.
#[inline(always)]
#[tactic(auto, using(crate::proofs::HexLemmas::given_alone))]
pub fn hex_into(bytes: &mut Vec<u8>, text: &[u8]) -> Result<(), ReadError>
    ensures { Gives (λ _. bytes.new.items) result (spec.hex text.now) }
{
    bytes.clear();
    hex_behind(bytes, text)
}

/// The bytes that the hexadecimal digits of a field spell, two digits of either case for each byte.
///
/// Refused as `BadNumber`: a field with an odd number of bytes, or with one that is no digit. An
/// empty field spells no bytes. It grows once, by as many bytes as the field spells.
pub fn hex(alloc: Global, text: &[u8]) -> Result<Vec<u8>, ReadError>
    ensures { Gives (λ v. v.items) result (spec.hex text.now) }
{
    let mut bytes = Vec::with_capacity(alloc, text.len() / 2)?;
    hex_into(&mut bytes, text)?;
    Ok(bytes)
}

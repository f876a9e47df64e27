//! The bytes of a field, written after a text that has room for them.

ghost use Rattle.std.specs.Prelude.{◌≡◌, ◌≤◌, ◌<◌, ◌↔◌, ◌++◌, ◌+◌, IsTrue, length};
ghost use Rattle.std.specs.Prelude.{vec_capacity, vec_len, decimal};
ghost use Rattle.line_fields.specs.Writers.{two_digits};

// Words of up to so many bytes are written byte by byte, which takes less than a call that moves
// bytes.
const SHORT_WORD: usize = 8;

// Writes the two digits of a number below 100, where there is room for them.
#[inline(always)]
fn push_pair(out: &mut Vec<u8>, value: u32)
    requires small { value < 100 }
    requires room { vec_len out.old + 2 ≤ vec_capacity out.old }
    ensures text { out.new.items ≡ out.old.items ++ two_digits value }
    ensures len { vec_len out.new ≡ vec_len out.old + 2 }
    ensures capacity { vec_capacity out.new ≡ vec_capacity out.old }
{
    out.push_reserved(b'0' + (value / 10) as u8);
    out.push_reserved(b'0' + (value % 10) as u8);
}

// Writes a number below 100, where there is room for two digits.
#[inline(always)]
pub(crate) fn push_small(out: &mut Vec<u8>, value: u32)
    requires small { value < 100 }
    requires room { vec_len out.old + 2 ≤ vec_capacity out.old }
    ensures text { out.new.items ≡ out.old.items ++ decimal value }
    ensures len { vec_len out.new ≤ vec_len out.old + 2 }
    ensures capacity { vec_capacity out.new ≡ vec_capacity out.old }
{
    if value < 10 {
        out.push_reserved(b'0' + value as u8);
    } else {
        push_pair(out, value);
    }
}

// Writes a number below 10,000, where there is room for four digits.
#[inline(always)]
fn push_four(out: &mut Vec<u8>, value: u32)
    requires small { value < 10000 }
    requires room { vec_len out.old + 4 ≤ vec_capacity out.old }
    ensures text { out.new.items ≡ out.old.items ++ decimal value }
    ensures len { vec_len out.new ≤ vec_len out.old + 4 }
    ensures capacity { vec_capacity out.new ≡ vec_capacity out.old }
{
    if value < 100 {
        push_small(out, value);
    } else {
        push_small(out, value / 100);
        push_pair(out, value % 100);
    }
}

// Writes a number below 100,000,000, where there is room for eight digits.
#[inline(always)]
pub(crate) fn push_number(out: &mut Vec<u8>, value: u32)
    requires small { value < 100000000 }
    requires room { vec_len out.old + 8 ≤ vec_capacity out.old }
    ensures text { out.new.items ≡ out.old.items ++ decimal value }
    ensures len { vec_len out.new ≤ vec_len out.old + 8 }
    ensures capacity { vec_capacity out.new ≡ vec_capacity out.old }
{
    if value < 100 {
        push_small(out, value);
    } else if value < 10_000 {
        push_four(out, value);
    } else {
        push_four(out, value / 10_000);
        push_pair(out, value / 100 % 100);
        push_pair(out, value % 100);
    }
}

// Writes bytes, where there is room for them.
pub(crate) fn push_text(out: &mut Vec<u8>, bytes: &[u8])
    requires { vec_len out.old + length bytes.now ≤ vec_capacity out.old }
    ensures text { out.new.items ≡ out.old.items ++ bytes.now }
    ensures len { vec_len out.new ≡ vec_len out.old + length bytes.now }
    ensures capacity { vec_capacity out.old ≤ vec_capacity out.new }
{
    let Ok(()) = out.extend_from_slice(bytes) else {
        unreachable!()
    };
}

// Writes a word, where there is room for it.
#[inline(always)]
pub(crate) fn push_word(out: &mut Vec<u8>, word: &[u8])
    requires { vec_len out.old + length word.now ≤ vec_capacity out.old }
    ensures text { out.new.items ≡ out.old.items ++ word.now }
    ensures len { vec_len out.new ≡ vec_len out.old + length word.now }
    ensures capacity { vec_capacity out.old ≤ vec_capacity out.new }
{
    if word.len() > SHORT_WORD {
        push_text(out, word);
        return;
    }
    for byte in word {
        out.push_reserved(*byte);
    }
}

// Whether a list has room for so many bytes and one more.
#[inline(always)]
pub(crate) fn has_spare_room(text: &Vec<u8>, bytes: usize) -> bool
    ensures { IsTrue result ↔ vec_len text.now + bytes < vec_capacity text.now }
{
    bytes < text.capacity() - text.len()
}

//! Records that are written where they stand, in a text that is put to a sink where it is full.

ghost use Rattle.std.specs.Prelude.{◌≡◌, ◌≤◌, ◌<◌, ◌↔◌, ◌+◌, ◌*◌, ◌++◌, ◌∷◌, [], IsTrue, decimal};
ghost use Rattle.std.specs.Prelude.{length, map, vec_capacity, vec_len};
ghost use Rattle.std.specs.List.{flat_map, join_with_byte};
ghost use Rattle.line_devices.specs.Devices.{Outputs};
ghost use Rattle.line_fields.specs.Texts.{hex_text, record_text};
ghost use Rattle.line_fields.specs.Outlets.{field_text};

use crate::RecordWriter;
use crate::digits::{hex_digit, push_hex};
use crate::lines::{has_spare_room, push_number, push_small, push_text, push_word};
use itoa::Buffer;
use line_devices::{DeviceFault, Sink, put_all};

// Numbers below this have eight digits at most, and are written two digits at a time.
const SHORT_NUMBER: u64 = 100_000_000;

// A comma and a number have so many bytes at most.
const NUMBER_ROOM: usize = 41;

// Room is asked for once for a name of so many bytes at most and so many numbers at most.
const MOST_AT_ONCE: usize = 64;

/// A field of a record that is written.
#[derive(Clone, Copy)]
pub enum Field<'a> {
    /// Plain text, such as `-`.
    Word(&'a [u8]),
    /// A number, without leading zeros.
    Number(u64),
    /// Bytes, as two hexadecimal digits of lower case each.
    Bytes(&'a [u8]),
}

// Writes bytes after a text that has no room for them: it is put, and what is longer than its whole
// room is put too.
#[cold]
#[inline(never)]
fn add_far<K: Sink>(sink: &mut K, text: &mut Vec<u8>, bytes: &[u8]) -> Result<(), DeviceFault>
    ensures { Outputs result (K.taken sink.old) (K.taken sink.new)
        (K.faults sink.old) (K.faults sink.new)
        text.new.items (text.old.items ++ bytes.now) }
{
    put_all(sink, text.as_slice())?;
    text.clear();
    if has_spare_room(text, bytes.len()) {
        push_text(text, bytes);
        return Ok(());
    }
    put_all(sink, bytes)
}

// Writes bytes after a text.
#[inline(always)]
fn add<K: Sink>(sink: &mut K, text: &mut Vec<u8>, bytes: &[u8]) -> Result<(), DeviceFault>
    ensures { Outputs result (K.taken sink.old) (K.taken sink.new)
        (K.faults sink.old) (K.faults sink.new)
        text.new.items (text.old.items ++ bytes.now) }
{
    if !has_spare_room(text, bytes.len()) {
        return add_far(sink, text, bytes);
    }
    push_word(text, bytes);
    Ok(())
}

// Writes a comma and a word after a text.
#[inline(always)]
fn add_word<K: Sink>(sink: &mut K, text: &mut Vec<u8>, word: &[u8]) -> Result<(), DeviceFault>
    ensures { Outputs result (K.taken sink.old) (K.taken sink.new)
        (K.faults sink.old) (K.faults sink.new)
        text.new.items (text.old.items ++ 44 ∷ word.now) }
{
    add(sink, text, b",")?;
    add(sink, text, word)
}

// Writes a comma and a number after a text.
#[inline(always)]
fn add_number<K: Sink>(sink: &mut K, text: &mut Vec<u8>, value: u64) -> Result<(), DeviceFault>
    ensures { Outputs result (K.taken sink.old) (K.taken sink.new)
        (K.faults sink.old) (K.faults sink.new)
        text.new.items (text.old.items ++ 44 ∷ decimal value) }
{
    if !has_spare_room(text, NUMBER_ROOM) {
        return begin_far(sink, text, b"", &[value], b"");
    }
    push_field(text, value);
    Ok(())
}

// Writes a comma and the digits of bytes after a text, byte by byte where it has no room for all.
fn add_bytes<K: Sink>(sink: &mut K, text: &mut Vec<u8>, bytes: &[u8]) -> Result<(), DeviceFault>
    ensures { Outputs result (K.taken sink.old) (K.taken sink.new)
        (K.faults sink.old) (K.faults sink.new)
        text.new.items (text.old.items ++ 44 ∷ hex_text bytes.now) }
{
    add(sink, text, b",")?;
    if has_spare_room(text, 2 * bytes.len()) {
        push_hex(text, bytes);
        return Ok(());
    }
    for i in 0..bytes.len() {
        add(
            sink,
            text,
            &[hex_digit(bytes[i] / 16), hex_digit(bytes[i] % 16)],
        )?;
    }
    Ok(())
}

// Writes a number that is not short, after a text that has room for it.
#[cold]
#[inline(never)]
fn push_long(text: &mut Vec<u8>, value: u64)
    requires { vec_len text.old + 40 ≤ vec_capacity text.old }
    ensures text { text.new.items ≡ text.old.items ++ decimal value }
    ensures len { vec_len text.new ≤ vec_len text.old + 40 }
    ensures capacity { vec_capacity text.old ≤ vec_capacity text.new }
{
    let mut buffer = Buffer::new();
    push_text(text, buffer.format(value).as_bytes());
}

// Writes a comma and a number after a text that has room for them.
#[inline(always)]
fn push_field(text: &mut Vec<u8>, value: u64)
    requires { vec_len text.old + 41 ≤ vec_capacity text.old }
    ensures text { text.new.items ≡ text.old.items ++ 44 ∷ decimal value }
    ensures len { vec_len text.new ≤ vec_len text.old + 41 }
    ensures capacity { vec_capacity text.old ≤ vec_capacity text.new }
{
    text.push_reserved(b',');
    if value < 100 {
        push_small(text, value as u32);
    } else if value >= SHORT_NUMBER {
        push_long(text, value);
    } else {
        push_number(text, value as u32);
    }
}

// Writes a comma before each of some numbers and the number, after a text that has room for all.
// A message's name has three numbers, which are written without a loop.
#[inline(always)]
fn push_numbers(text: &mut Vec<u8>, numbers: &[u64])
    requires { vec_len text.old + 41 * length numbers.now ≤ vec_capacity text.old }
    ensures text { text.new.items ≡ text.old.items ++ flat_map (λ n. 44 ∷ decimal n) numbers.now }
    ensures len { vec_len text.new ≤ vec_len text.old + 41 * length numbers.now }
    ensures capacity { vec_capacity text.old ≤ vec_capacity text.new }
{
    if let [first, second, third] = numbers {
        push_field(text, *first);
        push_field(text, *second);
        push_field(text, *third);
        return;
    }
    for i in 0..numbers.len() {
        push_field(text, numbers[i]);
    }
}

// Writes a name, some numbers and what stands after them, and asks for the room of each by itself.
#[cold]
#[inline(never)]
fn begin_far<K: Sink>(
    sink: &mut K,
    text: &mut Vec<u8>,
    name: &[u8],
    numbers: &[u64],
    end: &[u8],
) -> Result<(), DeviceFault>
    ensures { Outputs result (K.taken sink.old) (K.taken sink.new)
        (K.faults sink.old) (K.faults sink.new)
        text.new.items (text.old.items
        ++ (join_with_byte 44 (name.now ∷ map decimal numbers.now) ++ end.now)) }
{
    add(sink, text, name)?;
    for i in 0..numbers.len() {
        let mut buffer = Buffer::new();
        add_word(sink, text, buffer.format(numbers[i]).as_bytes())?;
    }
    add(sink, text, end)
}

// Whether a text has room for a name and some numbers, and for one byte more. It asks that neither
// is long, so that the sum is small; where both are known it asks for the room alone.
#[inline(always)]
fn has_room_for_all(text: &Vec<u8>, name: &[u8], numbers: &[u64]) -> bool
    ensures { IsTrue result ↔ (length name.now ≤ 64) × (length numbers.now ≤ 64)
        × (vec_len text.now + (length name.now + 41 * length numbers.now) < vec_capacity text.now) }
{
    name.len() <= MOST_AT_ONCE
        && numbers.len() <= MOST_AT_ONCE
        && has_spare_room(text, name.len() + NUMBER_ROOM * numbers.len())
}

/// Begins a record with its name and some numbers after what a writer holds.
///
/// Where the writer has no room for a field it puts what it holds, and a field that is longer than
/// its whole room goes to the sink at once. So it asks for no memory, and fails only where the sink
/// fails; then a prefix of what it held and of what was written is put.
#[inline(always)]
pub fn begin_record<K: Sink>(
    sink: &mut K,
    writer: &mut RecordWriter,
    name: &[u8],
    numbers: &[u64],
) -> Result<(), DeviceFault>
    ensures { Outputs result (K.taken sink.old) (K.taken sink.new)
        (K.faults sink.old) (K.faults sink.new)
        writer.new (writer.old ++ join_with_byte 44 (name.now ∷ map decimal numbers.now)) }
{
    if !has_room_for_all(&writer.text, name, numbers) {
        return begin_far(sink, &mut writer.text, name, numbers, b"");
    }
    push_word(&mut writer.text, name);
    push_numbers(&mut writer.text, numbers);
    Ok(())
}

/// Writes a comma and a field after what a writer holds, as `begin_record` writes its numbers.
#[inline(always)]
pub fn add_field<K: Sink>(
    sink: &mut K,
    writer: &mut RecordWriter,
    field: Field<'_>,
) -> Result<(), DeviceFault>
    ensures { Outputs result (K.taken sink.old) (K.taken sink.new)
        (K.faults sink.old) (K.faults sink.new)
        writer.new (writer.old ++ 44 ∷ field_text field.entry) }
{
    match field {
        Field::Word(word) => add_word(sink, &mut writer.text, word),
        Field::Number(value) => add_number(sink, &mut writer.text, value),
        Field::Bytes(bytes) => add_bytes(sink, &mut writer.text, bytes),
    }
}

/// Ends a record after what a writer holds.
#[inline(always)]
pub fn close_record<K: Sink>(sink: &mut K, writer: &mut RecordWriter) -> Result<(), DeviceFault>
    ensures { Outputs result (K.taken sink.old) (K.taken sink.new)
        (K.faults sink.old) (K.faults sink.new)
        writer.new (writer.old ++ 10 ∷ []) }
{
    add(sink, &mut writer.text, b"\n")
}

/// Writes a record of a name and some numbers after what a writer holds, as `begin_record` does.
///
/// It is put into its caller, where the name is known and how many numbers there are, so that it is
/// compiled to few stores. It asks once for the room of all of it.
#[inline(always)]
pub fn put_numbers<K: Sink>(
    sink: &mut K,
    writer: &mut RecordWriter,
    name: &[u8],
    numbers: &[u64],
) -> Result<(), DeviceFault>
    ensures { Outputs result (K.taken sink.old) (K.taken sink.new)
        (K.faults sink.old) (K.faults sink.new)
        writer.new (writer.old ++ record_text (name.now ∷ map decimal numbers.now)) }
{
    if !has_room_for_all(&writer.text, name, numbers) {
        return begin_far(sink, &mut writer.text, name, numbers, b"\n");
    }
    push_word(&mut writer.text, name);
    push_numbers(&mut writer.text, numbers);
    writer.text.push_reserved(b'\n');
    Ok(())
}

/// Writes a record of a name, some numbers and a last field after what a writer holds, as
/// `begin_record` does. It is put into its caller, as `put_numbers` is.
#[inline(always)]
pub fn put_ending<K: Sink>(
    sink: &mut K,
    writer: &mut RecordWriter,
    name: &[u8],
    numbers: &[u64],
    last: Field<'_>,
) -> Result<(), DeviceFault>
    ensures { Outputs result (K.taken sink.old) (K.taken sink.new)
        (K.faults sink.old) (K.faults sink.new)
        writer.new (writer.old
        ++ record_text (name.now ∷ map decimal numbers.now ++ field_text last.entry ∷ [])) }
{
    begin_record(sink, writer, name, numbers)?;
    add_field(sink, writer, last)?;
    close_record(sink, writer)
}

/// Writes a record of a name and some fields after what a writer holds, as `begin_record` does.
pub fn put_fields<K: Sink>(
    sink: &mut K,
    writer: &mut RecordWriter,
    name: &[u8],
    fields: &[Field<'_>],
) -> Result<(), DeviceFault>
    ensures { Outputs result (K.taken sink.old) (K.taken sink.new)
        (K.faults sink.old) (K.faults sink.new)
        writer.new (writer.old ++ record_text (name.now ∷ map field_text fields.now)) }
{
    begin_record(sink, writer, name, &[])?;
    for i in 0..fields.len() {
        add_field(sink, writer, fields[i])?;
    }
    close_record(sink, writer)
}

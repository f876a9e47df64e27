//! The records of an input text, one at a time. From the first carriage return on `csv` reads it.

ghost use Rattle.std.specs.Prelude.{◌≡◌, ◌==◌, ◌+◌, ◌≤◌, ◌∷◌, [], IfOk, IsTrue, MatchBool};
ghost use Rattle.std.specs.Prelude.{OnErr, if◌then◌else◌, length, take};
ghost use Rattle.csv.specs.Records.{fields_of};
ghost use Rattle.line_fields.specs.Bytes.{is_input_text, is_line_text};
ghost use Rattle.line_fields.specs.Records.{field, parts, records_of_text};
ghost use Rattle.line_fields.specs.Rows.{IsLineEnd, IsReading, IsReadingOn};
ghost use Rattle.line_fields.specs.Rows.{rows_left, rows_left_in};

use crate::bytes::is_plain_line;
use crate::splits::split;
use csv::{ByteRecord, Error, Reader, ReaderBuilder};
use std::alloc::{AllocError, Global};
use std::marker::Model;

/// The fields of a record that was read. Those of a line are parts of the text that it stands in.
#[derive(Drop)]
pub struct FieldRow<'a> {
    // A line, and where each of its fields ends in it.
    line: &'a [u8],
    ends: Vec<usize>,
    // A record that `csv` read, whose fields the row has where the line has none.
    record: ByteRecord,
}

impl<'a> Model for FieldRow<'a> {
    ghost use Rattle.std.specs.Prelude.{All, ℕ, List};
    ghost use Rattle.csv.specs.Records.{fields_of};
    ghost use Rattle.line_fields.specs.Rows.{IsFieldWithin, fields_held, spans_from};

    ghost Value = { List (List ℕ) };

    ghost view = { λ s. fields_held s.line.now s.ends.items (fields_of s.record) };

    ghost invariant = { λ s. All (IsFieldWithin s.line.now) (spans_from 0 s.ends.items) };
}

// The field at a place of a record of `csv`, or an empty one past the last.
#[cold]
#[inline(never)]
fn field_of(record: &ByteRecord, place: usize) -> &[u8]
    ensures { result.now ≡ field (fields_of record.now) place }
{
    match record.get(place) {
        Some(field) => field,
        None => b"",
    }
}

impl<'a> FieldRow<'a> {
    /// A row without fields. It takes no memory.
    #[tactic(auto, unfolding(crate::specs::Rows::spans_from))]
    pub fn new(alloc: Global) -> FieldRow<'a>
        ensures { result ≡ [] }
    {
        FieldRow {
            line: b"",
            ends: Vec::new(alloc),
            record: ByteRecord::new(alloc),
        }
    }

    /// How many fields it has.
    #[inline(always)]
    pub fn len(&self) -> usize
        ensures { result ≡ length self.now }
    {
        if self.ends.is_empty() {
            self.record.len()
        } else {
            self.ends.len()
        }
    }

    /// Whether it has no fields.
    pub fn is_empty(&self) -> bool
        ensures { result ≡ (length self.now == 0) }
    {
        self.len() == 0
    }

    /// The field at a place, counted from 0, or an empty one past the last.
    #[inline(always)]
    #[tactic(auto, using(crate::proofs::EndLemmas::within_further))]
    pub fn field(&self, place: usize) -> &[u8]
        ensures { result.now ≡ field self.now place }
    {
        let ends = self.ends.as_slice();
        if place < ends.len() {
            if place == 0 {
                return &self.line[..ends[place]];
            }
            return &self.line[ends[place - 1] + 1..ends[place]];
        }
        if ends.is_empty() {
            return field_of(&self.record, place);
        }
        b""
    }
}

/// Reads the records of a text in their order.
#[derive(Drop)]
pub struct RecordReader<'a> {
    alloc: Global,
    // What is left of the text, as far as it is not left to `csv`.
    rest: &'a [u8],
    // From the first carriage return on, what reads the text. It is large, and a reader of records
    // is moved.
    reader: Option<Box<Reader<&'a [u8]>>>,
}

impl<'a> Model for RecordReader<'a> {
    ghost use Rattle.std.specs.Prelude.{ℕ, List};
    ghost use Rattle.line_fields.specs.Rows.{IsLeft, records_left};

    ghost Value = { List (List (List ℕ)) };

    ghost view = { λ s. records_left s.reader s.rest.now };

    ghost invariant = { λ s. IsLeft s.reader s.rest.now };
}

impl<'a> FieldRow<'a> {
    // Takes all fields away.
    #[tactic(auto, unfolding(crate::specs::Rows::spans_from))]
    fn clear(&mut self)
        ensures { self.new ≡ [] }
    {
        self.ends.clear();
        self.record.clear();
    }

    /// Puts the fields of the first line of a text in place of those of the row, or none where a
    /// growth is refused, and says where that line ends: before a line feed or a carriage return,
    /// or with the text.
    ///
    /// It looks at the bytes sixteen at a time, as far as the text goes, so a line is best read
    /// with what stands after it. It copies none of them. It takes memory where a line has more
    /// fields than those before.
    #[inline(always)]
    #[tactic(auto, unfolding(crate::specs::Rows::spans_from))]
    pub fn take_line(&mut self, text: &'a [u8]) -> Result<usize, AllocError>
        ensures line { IfOk result (λ end. IsLineEnd text.now end) }
        ensures ok { IfOk result (λ end. self.new ≡ parts 44 (take end text.now)) }
        ensures err { OnErr result (self.new ≡ []) }
    {
        if let Ok(end) = split(text, &mut self.ends) {
            self.line = &text[..end];
            return Ok(end);
        }
        self.ends.clear();
        self.record.clear();
        Err(AllocError)
    }

    /// Puts the fields of a line, given without its end, in place of those of the row, and says
    /// whether each of its bytes may stand in a line. It reads none of a line where one may not.
    ///
    /// An empty line has one field, which is empty. It takes time in proportion to the line, and
    /// memory only where the lines before it had fewer fields.
    pub fn read_line(&mut self, line: &'a [u8]) -> Result<bool, AllocError>
        ensures plain { IfOk result (λ plain. plain ≡ is_line_text line.now) }
        ensures ok { IfOk result (λ plain. self.new ≡ (if plain then parts 44 line.now else [])) }
        ensures err { OnErr result (self.new ≡ []) }
    {
        if !is_plain_line(line) {
            self.clear();
            return Ok(false);
        }
        self.take_line(line)?;
        Ok(true)
    }
}

// The next record of a reader of `csv`.
fn read(reader: &mut Reader<&[u8]>, row: &mut ByteRecord) -> Result<bool, Error>
    requires { IsReading reader.old }
    ensures { IfOk result
        (λ found. MatchBool found
        (IsReading reader.new
        × (rows_left reader.old ≡ fields_of row.new ∷ rows_left reader.new))
        (rows_left reader.old ≡ [])) }
{
    reader.read_byte_record(row)
}

// Lets `csv` read the rest of a text: no header row, and records of any lengths. It stands
// apart, and runs once for a text: what calls it has no room of a reader's size among its own
// variables.
#[cold]
#[inline(never)]
fn hand_over<'a>(alloc: Global, rest: &'a [u8]) -> Result<Box<Reader<&'a [u8]>>, AllocError>
    requires { IsTrue (is_input_text rest.now) }
    ensures reading { IfOk result (λ reader. IsReading reader.value) }
    ensures rows { IfOk result
        (λ reader. rows_left reader.value ≡ records_of_text rest.entry.now) }
{
    let reader = ReaderBuilder::new()
        .has_headers(false)
        .flexible(true)
        .from_reader(alloc, rest);
    let reader = Box::new(alloc, reader).map_err(AllocError::from)?;
    Ok(reader)
}

// Puts the next record of what `csv` reads in place of the fields of the row, or none after the
// last one and where it is refused, and then nothing is left to it. An error of `csv` on a plain
// text, over memory, is answered as out of memory.
#[tactic(auto, unfolding(crate::specs::Rows::spans_from))]
fn read_or_close(
    reader: &mut Option<Box<Reader<&[u8]>>>,
    row: &mut FieldRow<'_>,
) -> Result<bool, AllocError>
    requires { IsReadingOn reader.old }
    ensures reading { IsReadingOn reader.new }
    ensures ok { IfOk result
        (λ found. MatchBool found (rows_left_in reader.old ≡ row.new ∷ rows_left_in reader.new)
        ((rows_left_in reader.old ≡ []) × (rows_left_in reader.new ≡ []) × (row.new ≡ []))) }
    ensures err { OnErr result ((rows_left_in reader.new ≡ []) × (row.new ≡ [])) }
{
    let Some(left) = reader else {
        row.clear();
        return Ok(false);
    };
    match read(left, &mut row.record) {
        Ok(true) => {
            row.ends.clear();
            Ok(true)
        }
        Ok(false) => {
            row.clear();
            *reader = None;
            Ok(false)
        }
        Err(_) => {
            row.clear();
            *reader = None;
            Err(AllocError)
        }
    }
}

impl<'a> RecordReader<'a> {
    /// A reader of the records of a plain text, from the first on. It takes no memory.
    ///
    /// A text has at most one record more than it has bytes.
    pub fn open(alloc: Global, text: &'a [u8]) -> RecordReader<'a>
        requires { IsTrue (is_input_text text.now) }
        ensures records { result ≡ records_of_text text.entry.now }
        ensures few { length result ≤ length text.entry.now + 1 }
    {
        RecordReader {
            alloc,
            rest: text,
            reader: None,
        }
    }

    /// Puts the next record in place of the row's fields, and says whether there was one.
    ///
    /// After the last record, and once it was out of memory, nothing is left and the row has no
    /// fields. An error of `csv` is answered as out of memory. It takes time in proportion to the
    /// bytes read. At the first carriage return it asks for the memory of a reader of `csv`, some
    /// 16 KiB.
    pub fn next_row(&mut self, row: &mut FieldRow<'a>) -> Result<bool, AllocError>
        ensures ok { IfOk result
            (λ found. MatchBool found (self.old ≡ row.new ∷ self.new)
            ((self.old ≡ []) × (self.new ≡ []) × (row.new ≡ []))) }
        ensures err { OnErr result ((self.new ≡ []) × (row.new ≡ [])) }
    {
        if self.reader.is_some() {
            return read_or_close(&mut self.reader, row);
        }
        let mut rest = self.rest;
        while !rest.is_empty() && rest[0] == b'\n' {
            rest = &rest[1..];
        }
        self.rest = b"";
        if rest.is_empty() {
            row.clear();
            return Ok(false);
        }
        if rest[0] == b'\r' {
            row.clear();
            let reader = hand_over(self.alloc, rest)?;
            self.reader = Some(reader);
            return read_or_close(&mut self.reader, row);
        }
        let end = row.take_line(rest)?;
        self.rest = &rest[end..];
        Ok(true)
    }
}

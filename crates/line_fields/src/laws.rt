//! Laws of the definitions, each the contract of a function that does nothing.

ghost use Rattle.std.specs.Prelude.{◌≡◌, ◌+◌, ◌<◌, ◌≤◌, ◌^◌, true, ℕ, List, Ok, decimal, length};
ghost use Rattle.std.specs.List.{AllByRecursion, list_all};
ghost use Rattle.csv.specs.Reading.{default_config, records, strip_bom};
ghost use Rattle.csv.specs.Writing.{default_writer, row_text, with_flexible};
ghost use Rattle.line_fields.specs.Bytes.{is_input_text};
ghost use Rattle.line_fields.specs.Fields.{hex, num};
ghost use Rattle.line_fields.specs.Records.{Record, records_of_text};
ghost use Rattle.line_fields.specs.Texts.{hex_text, is_written, record_text, records_text};

/// A number that is written is read again, in each range that it lies in.
pub fn numbers_are_read_again()
    ensures { (least most n : ℕ) → least ≤ n → n ≤ most → n < 2 ^ 64
        → num least most (decimal n) ≡ Ok n }
{}

/// Bytes that are written are read again.
pub fn bytes_are_read_again()
    ensures { (bytes : List ℕ) → AllByRecursion (λ byte. byte < 256) bytes
        → hex (hex_text bytes) ≡ Ok bytes }
{}

/// Records that are written make an input text, and are the records of that text. So no other
/// records have the same text.
pub fn records_are_read_again()
    ensures plain { (records : List Record) → list_all is_written records ≡ true
        → is_input_text (records_text records) ≡ true }
    ensures same { (records : List Record) → list_all is_written records ≡ true
        → records_of_text (records_text records) ≡ records }
{}

/// A text has at most one record more than it has bytes.
pub fn records_are_few()
    ensures { (text : List ℕ) → length (records_of_text text) ≤ length text + 1 }
{}

/// The records of an input text are those that `csv` reads of it, with its own marks and no header
/// row, whichever of the two ways a reader takes.
pub fn csv_reads_the_same_records()
    ensures { (text : List ℕ) → is_input_text text ≡ true
        → records default_config (strip_bom text) ≡ records_of_text text }
{}

/// The text of a record that is written is the one that `csv` writes of it, with its own marks.
pub fn csv_writes_the_same_text()
    ensures { (fields : Record) → is_written fields ≡ true
        → row_text (with_flexible default_writer true) fields ≡ record_text fields }
{}

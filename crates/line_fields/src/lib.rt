//! Records of texts: which bytes a text may have, its records and their fields, the numbers and
//! bytes that fields spell, and how records are written.
#![tactic(auto)]

mod bytes;
mod digits;
mod faults;
mod fields;
mod laws;
mod lines;
mod outlets;
mod records;
mod splits;
mod writers;

pub use bytes::{is_plain, is_plain_line};
pub use faults::{Fault, ReadError};
pub use fields::{hex, hex_behind, hex_into, number};
pub use laws::{
    bytes_are_read_again, csv_reads_the_same_records, csv_writes_the_same_text,
    numbers_are_read_again, records_are_few, records_are_read_again,
};
pub use outlets::{
    Field, add_field, begin_record, close_record, put_ending, put_fields, put_numbers,
};
pub use records::{FieldRow, RecordReader};
pub use writers::RecordWriter;

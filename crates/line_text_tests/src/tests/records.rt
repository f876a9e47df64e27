//! Texts are read and written both ways: by the readers and writers of records, and by `csv`.

use csv::{ByteRecord, Reader, ReaderBuilder, Writer, WriterBuilder};
use line_devices::{DeviceFault, MemSink, Sink};
use line_fields::{
    Field, FieldRow, RecordReader, RecordWriter, is_plain, put_ending, put_fields, put_numbers,
};
use std::alloc::{AllocError, Global};
use std::test::Fail;

/// The records that `put_five` puts.
const FIVE: &[u8] = b"\
send,0,9,10,99999999,100000000,18446744073709551615\n\
end\n\
check,-,65535,00090a107f80a1ff61\n\
line,0,1,now\n\
send,0,1,\n";

/// Their fields, with other marks between them.
const FIVE_PARTED: &[u8] = b"\
send;0;9;10;99999999;100000000;18446744073709551615\n\
end\n\
check;-;65535;00090a107f80a1ff61\n\
line;0;1;now\n\
send;0;1;\n";

/// A text of so many pieces, each of which a seed chooses: marks, ends of lines, blanks and
/// letters.
fn made(alloc: Global, seed: u64, pieces: u64, returns: bool) -> Result<Vec<u8>, AllocError> {
    let mut text = Vec::new(alloc);
    let mut state = seed;
    for _ in 0..pieces {
        state = state
            .wrapping_mul(6_364_136_223_846_793_005)
            .wrapping_add(1_442_695_040_888_963_407);
        let piece: &[u8] = match (state >> 33) % 12 {
            0 | 1 => b",",
            2 => b"\n",
            3 if returns => b"\r\n",
            4 => b" ",
            5 => b"-0123456789abcdef",
            _ => b"a",
        };
        text.extend_from_slice(piece)?;
    }
    Ok(text)
}

/// A reader of `csv` over a text: no header row, and records of any lengths.
fn csv_over(alloc: Global, text: &[u8]) -> Reader<&[u8]> {
    ReaderBuilder::new()
        .has_headers(false)
        .flexible(true)
        .from_reader(alloc, text)
}

/// The next record that `csv` reads.
fn next(reader: &mut Reader<&[u8]>, record: &mut ByteRecord) -> Result<bool, AllocError> {
    reader.read_byte_record(record).map_err(|_error| AllocError)
}

/// Whether a record of `csv` and a row have the same fields.
fn is_same(record: &ByteRecord, row: &FieldRow<'_>) -> bool {
    if record.len() != row.len() {
        return false;
    }
    for place in 0..row.len() {
        if record.get(place) != Some(row.field(place)) {
            return false;
        }
    }
    true
}

/// How many records two readers read alike, or none where they read others.
fn count_alike<'a>(
    by_csv: &mut Reader<&[u8]>,
    record: &mut ByteRecord,
    reader: &mut RecordReader<'a>,
    row: &mut FieldRow<'a>,
) -> Result<Option<u64>, AllocError> {
    for number in 0..u64::MAX {
        let found = next(by_csv, record)?;
        if reader.next_row(row)? != found {
            return Ok(None);
        }
        if !found {
            return Ok(Some(number));
        }
        if !is_same(record, row) {
            return Ok(None);
        }
    }
    Ok(None)
}

/// How many records both read alike of a text, or none where they read others.
fn read_alike(alloc: Global, text: &[u8]) -> Result<Option<u64>, AllocError> {
    if !is_plain(text) {
        return Ok(None);
    }
    let mut by_csv = csv_over(alloc, text);
    let mut record = ByteRecord::new(alloc);
    let mut reader = RecordReader::open(alloc, text);
    let mut row = FieldRow::new(alloc);
    count_alike(&mut by_csv, &mut record, &mut reader, &mut row)
}

/// Writes all records that a reader of `csv` reads.
fn copy_records(
    reader: &mut Reader<&[u8]>,
    record: &mut ByteRecord,
    writer: &mut Writer<Vec<u8>>,
) -> Result<(), AllocError> {
    for _ in 0..u64::MAX {
        if !next(reader, record)? {
            break;
        }
        writer
            .write_byte_record(record)
            .map_err(|_error| AllocError)?;
    }
    Ok(())
}

/// Writes all records that `csv` reads of a text.
fn copy_text(alloc: Global, text: &[u8], writer: &mut Writer<Vec<u8>>) -> Result<(), AllocError> {
    let mut reader = csv_over(alloc, text);
    let mut record = ByteRecord::new(alloc);
    copy_records(&mut reader, &mut record, writer)
}

/// What `csv` writes, with this mark between fields, of all records that it reads of a text.
fn written_by_csv(alloc: Global, text: &[u8], mark: u8) -> Result<Vec<u8>, AllocError> {
    let mut writer = WriterBuilder::new()
        .flexible(true)
        .delimiter(mark)
        .from_writer(Vec::new(alloc));
    copy_text(alloc, text, &mut writer)?;
    writer.into_inner().map_err(|_error| AllocError)
}

/// Puts five records, of numbers, of fields, and of numbers before a last field.
fn put_five(sink: &mut MemSink, writer: &mut RecordWriter) -> Result<(), DeviceFault> {
    let bytes = [0, 9, 10, 16, 127, 128, 161, 255, 97];
    let fields = [
        Field::Word(b"-"),
        Field::Number(65_535),
        Field::Bytes(&bytes),
    ];
    put_numbers(
        sink,
        writer,
        b"send",
        &[0, 9, 10, 99_999_999, 100_000_000, u64::MAX],
    )?;
    put_numbers(sink, writer, b"end", &[])?;
    put_fields(sink, writer, b"check", &fields)?;
    put_ending(sink, writer, b"line", &[0, 1], Field::Word(b"now"))?;
    put_ending(sink, writer, b"send", &[0, 1], Field::Bytes(&[]))
}

/// Puts five records so often, and then what the writer still holds. How many bytes were put
/// before that is answered.
fn put_times(
    sink: &mut MemSink,
    writer: &mut RecordWriter,
    times: usize,
) -> Result<usize, DeviceFault> {
    for _ in 0..times {
        put_five(sink, writer)?;
    }
    let put = sink.bytes().len();
    sink.put(writer.text())?;
    Ok(put)
}

/// What is written where a writer puts five records so often, and how many bytes of it are put
/// before the last ones.
fn put_often(
    alloc: Global,
    writer: RecordWriter,
    times: usize,
) -> Result<(usize, Vec<u8>), DeviceFault> {
    let mut writer = writer;
    let mut sink = MemSink::new(alloc, 1_000_000, None);
    let put = put_times(&mut sink, &mut writer, times)?;
    Ok((put, sink.into_bytes()))
}

/// Whether a text is another one a thousand times.
fn is_thousandfold(alloc: Global, text: &[u8], once: &[u8]) -> Result<bool, AllocError> {
    let mut all = Vec::new(alloc);
    for _ in 0..1_000 {
        all.extend_from_slice(once)?;
    }
    Ok(all.as_slice() == text)
}

/// Whether `csv` writes, of what it reads of a text, these records a thousand times.
fn is_so_by_csv(alloc: Global, text: &[u8], mark: u8, once: &[u8]) -> Result<bool, AllocError> {
    let written = written_by_csv(alloc, text, mark)?;
    is_thousandfold(alloc, &written, once)
}

/// A writer without room puts each field at once.
fn is_put_at_once(alloc: Global) -> Result<bool, DeviceFault> {
    let (put, text) = put_often(alloc, RecordWriter::new(alloc), 1)?;
    Ok(put == 112 && text.as_slice() == FIVE)
}

/// Whether a text of so many pieces is read alike, and has no record only where it has no piece.
fn is_read_alike(alloc: Global, seed: u64, pieces: u64, returns: bool) -> Result<bool, AllocError> {
    let text = made(alloc, seed, pieces, returns)?;
    match read_alike(alloc, &text)? {
        Some(records) => Ok((records == 0) == (pieces == 0)),
        None => Ok(false),
    }
}

#[test]
fn read_both_ways(rt: HostRuntime) -> Result<(), AllocError> {
    let alloc = rt.alloc();
    assert!(rt; is_read_alike(alloc, 1, 0, false)?);
    assert!(rt; is_read_alike(alloc, 2, 1_000, false)?);
    assert!(rt; is_read_alike(alloc, 3, 1_000, true)?);
    assert!(rt; is_read_alike(alloc, 4, 20_000, false)?);
    assert!(rt; is_read_alike(alloc, 5, 20_000, true)?);
    Ok(())
}

/// Texts with empty lines, empty fields and a last line without its end.
const SHORT: [&[u8]; 6] = [
    b"",
    b"\r\n",
    b"\r\n\r\na,b\n",
    b"a,\r\n,b\r\nc",
    b"a\n\n,\nb,c\r\nd\n\r\n",
    b"0123456789abcdef\r\n,",
];

#[test]
fn short_texts_are_read_both_ways(rt: HostRuntime) -> Result<(), AllocError> {
    for text in &SHORT {
        assert!(rt; read_alike(rt.alloc(), text)?.is_some());
    }
    Ok(())
}

/// Whether a text of a thousand times five records is read so by both, and written so by `csv`.
fn is_written_alike(alloc: Global, text: &[u8]) -> Result<bool, AllocError> {
    Ok(
        read_alike(alloc, text)? == Some(5_000)
            && is_so_by_csv(alloc, text, b',', FIVE)?
            && is_so_by_csv(alloc, text, b';', FIVE_PARTED)?,
    )
}

#[test]
fn puts_each_field_at_once(rt: HostRuntime) -> Result<(), Fail> {
    assert!(rt; is_put_at_once(rt.alloc())?);
    Ok(())
}

#[test]
fn written_both_ways(rt: HostRuntime) -> Result<(), Fail> {
    let writer = RecordWriter::with_room(rt.alloc())?;
    // With room, what is held is put before the number of eight digits of the 586th five.
    let (put, text) = put_often(rt.alloc(), writer, 1_000)?;
    assert!(rt; put == 65_532 && text.len() == 112_000);
    assert!(rt; is_thousandfold(rt.alloc(), &text, FIVE)?);
    // By `csv` these are the same records.
    assert!(rt; is_written_alike(rt.alloc(), &text)?);
    Ok(())
}

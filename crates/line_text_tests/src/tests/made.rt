//! What tests of texts begin with: texts that repeat a record, and faults of no record.
use line_text::TextFault;
use std::alloc::{AllocError, Global};

/// A fault of no record.
pub fn fault_of(code: u32) -> TextFault {
    TextFault {
        record_number: 0,
        code,
    }
}

/// A text, and a record after it so often.
pub fn followed(
    alloc: Global,
    text: &[u8],
    record: &[u8],
    times: u32,
) -> Result<Vec<u8>, AllocError> {
    let mut all = Vec::from_slice(alloc, text)?;
    for _ in 0..times {
        all.extend_from_slice(record)?;
    }
    Ok(all)
}

/// The same, and more after that.
pub fn followed_by(
    alloc: Global,
    text: &[u8],
    record: &[u8],
    times: u32,
    last: &[u8],
) -> Result<Vec<u8>, AllocError> {
    let mut all = followed(alloc, text, record, times)?;
    all.extend_from_slice(last)?;
    Ok(all)
}

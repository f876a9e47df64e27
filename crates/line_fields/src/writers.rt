//! The text of records that are written.

ghost use Rattle.std.specs.Prelude.{◌≡◌, [], IfOk};

use std::alloc::{AllocError, Global};
use std::marker::Model;

// The room of a writer that puts what it holds where that is full.
const ROOM: usize = 65_536;

/// The text of the records that were put, each in a line of its own.
///
/// One is best kept for many records, and its text taken away from time to time.
#[derive(Drop)]
pub struct RecordWriter {
    pub(crate) text: Vec<u8>,
}

impl Model for RecordWriter {
    ghost use Rattle.std.specs.Prelude.{ℕ, List};

    ghost Value = { List ℕ };

    ghost view = { λ s. s.text.items };
}

impl RecordWriter {
    /// A writer of no records yet. It takes no memory.
    pub fn new(alloc: Global) -> RecordWriter
        ensures { result ≡ [] }
    {
        RecordWriter {
            text: Vec::new(alloc),
        }
    }

    /// A writer of no records yet, with room for some 64 KiB of text.
    pub fn with_room(alloc: Global) -> Result<RecordWriter, AllocError>
        ensures { IfOk result (λ writer. writer ≡ []) }
    {
        let text = Vec::with_capacity(alloc, ROOM)?;
        Ok(RecordWriter { text })
    }

    /// The text of the records that were put.
    pub fn text(&self) -> &[u8]
        ensures { result.now ≡ self.now }
    {
        self.text.as_slice()
    }

    /// Takes the text away, and keeps its room for the records to come.
    pub fn clear(&mut self)
        ensures { self.new ≡ [] }
    {
        self.text.clear();
    }
}

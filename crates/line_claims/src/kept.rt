//! Histories and check texts that are written into memory.

ghost use Rattle.std.specs.Prelude.{◌≡◌, [], Ok, IfOk, OnOk};
ghost use Rattle.line_fields.specs.Texts.{records_text};
ghost use Rattle.line_claims.specs.Ranges.{AreRoundsInRange, FitsMemory};
ghost use Rattle.line_claims.specs.Records as spec;
ghost use Rattle.line_claims.specs.Texts.{history_of_text};

use crate::judgements::{ClaimRef, put_check_text};
use crate::versions::earliest_version;
use crate::writers::put_history;
use line_devices::{MemSink, put_all};
use line_fields::RecordWriter;
use line_names::{Line, Passed, ProcSet};
use line_tape::{History, Marks};
use std::alloc::{AllocError, Global};

/// The text of a history, of version 1 where it has at most 64 processes and else of version 2.
/// `read_history` takes it back where the rounds of the history are from 1 to 65,535.
///
/// It takes memory for the text, and for 64 KiB.
pub fn write_history(alloc: Global, history: &History) -> Result<Vec<u8>, AllocError>
    ensures text { IfOk result
        (λ text. text.items ≡ records_text (spec.history_records history.now.processes)) }
    ensures again { IfOk result
        (λ text. AreRoundsInRange history.now.processes
        → history_of_text text.items ≡ Ok history.now.processes) }

    // So it is known to be of that history alone.
    ensures fits { OnOk result (FitsMemory history.now.processes) }
{
    let mut writer = RecordWriter::with_room(alloc)?;
    let mut sink = MemSink::new(alloc, usize::MAX, None);
    let version = earliest_version(history.n());
    let Ok(()) = put_history(&mut sink, &mut writer, version, history) else {
        return Err(AllocError);
    };
    match put_all(&mut sink, writer.text()) {
        Ok(()) => Ok(sink.into_bytes()),
        Err(_) => Err(AllocError),
    }
}

/// The check text of a history, and of the claim on it that these of its checks are damaged, its
/// processes are barred so, these failed, and this is the line with its certificate. It is of
/// version 2 where a process is barred or there are more than 64, and else of version 1.
///
/// It takes memory for the text, and for 64 KiB. It asks once for a mark of each check.
pub fn write_check_text(
    alloc: Global,
    history: &History,
    marks: &Marks,
    failed: &ProcSet,
    line: &Line,
    certificate: &[Passed],
) -> Result<Vec<u8>, AllocError>
    ensures { IfOk result
        (λ text. text.items
        ≡ records_text
        (spec.check_records history.now.processes
        (record {
          marks = spec.in_order history.now.processes marks.now;
          failed = failed.now;
          line = line.now;
          certificate = certificate.now;
          starts = [];
          replays = [];
        }))) }
{
    let mut writer = RecordWriter::with_room(alloc)?;
    let mut sink = MemSink::new(alloc, usize::MAX, None);
    let claim = ClaimRef {
        marks,
        failed,
        line,
        certificate,
    };
    let Ok(()) = put_check_text(&mut sink, &mut writer, history, &claim) else {
        return Err(AllocError);
    };
    match put_all(&mut sink, writer.text()) {
        Ok(()) => Ok(sink.into_bytes()),
        Err(_) => Err(AllocError),
    }
}

//! Run a script that is in memory.
ghost use Rattle.std.specs.Prelude.{ℕ, Some, [], IfOk};
ghost use Rattle.recline.specs.TextRuns.{RunsText};

use anyhow::Result;
use recline::text::{MemSink, MemSource, run_text};
use std::alloc::Global;

/// The replies to a script, as `recline run` writes them. Files, pipes and sockets do as well: they
/// are a `Source` or a `Sink` of their own.
pub fn replies_to(alloc: Global, script: Vec<u8>) -> Result<MemSink>
    ensures { IfOk result (λ sink. (refused : ℕ)
        × RunsText script.items refused (Some []) (Some sink.bytes)) }
{
    let mut source = MemSource::new(script, usize::MAX, None);
    let mut sink = MemSink::new(alloc, usize::MAX, None);
    run_text(alloc, &mut source, &mut sink)?;
    Ok(sink)
}

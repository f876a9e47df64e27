//! Answer records as they come.
ghost use Rattle.std.specs.Prelude.{Some, [], IfOk};
ghost use Rattle.recline.specs.Services.{Empty, service_rules};
ghost use Rattle.recline.specs.Turns.{AnswersText};

use anyhow::Result;
use recline::service::{Outcome, serve};
use recline::text::{MemSink, MemSource};
use std::alloc::Global;

/// The answers to a client's records, as `recline serve` writes them, and the worst of them. Over
/// `ReadSource` and `WriteSink` the client may be at the other end of a pipe or a socket: each of
/// its records is answered before the next one is waited for.
pub fn answers_to(alloc: Global, records: Vec<u8>) -> Result<(MemSink, Outcome)>
    ensures { IfOk result (λ told.
        AnswersText service_rules Empty records.items told.1 (Some []) (Some told.0.bytes)) }
{
    let mut source = MemSource::new(records, usize::MAX, None);
    let mut sink = MemSink::new(alloc, usize::MAX, None);
    let outcome = serve(alloc, &mut source, &mut sink)?;
    Ok((sink, outcome))
}

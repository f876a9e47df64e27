//! Copies of logs.
ghost use Rattle.std.specs.Prelude.{◌≡◌, IfOk};

use super::Log;
use std::alloc::{AllocError, Global};

impl Log {
    /// The same events in memory of their own. The parts are copied as they are: what an event
    /// names by its place stands in that place of the copy.
    pub(crate) fn copy(&self, alloc: Global) -> Result<Log, AllocError>
        ensures { IfOk result (λ log. log.events ≡ self.now.events) }
    {
        let mut states = Vec::with_capacity(alloc, self.states.len())?;
        for state in &self.states {
            states.push_reserved(state.copy(alloc)?);
        }
        Ok(Log {
            events: Vec::from_slice(alloc, self.events.as_slice())?,
            bodies: Vec::from_slice(alloc, self.bodies.as_slice())?,
            states,
        })
    }
}

//! Whether an event may come next, and the row that it adds.
ghost use Rattle.std.specs.Prelude.{◌≡◌, ◌≢◌, ◌<◌, ◌≤◌, ◌↔◌, ◌⊎◌, Err, IsTrue, IsErrOf, OnOk};
ghost use Rattle.std.specs.Prelude.{length};
ghost use Rattle.line_tape.specs.Event.{HasLongState, NamesBelow};
ghost use Rattle.line_tape.specs.History.{tape_at};
ghost use Rattle.line_catalogue.specs.Agreement.{Agrees, AgreesNext};

use crate::agreement::name_agrees;
use crate::catalogues::Catalogue;
use crate::refusals::AddError;
use line_names::ProcId;
use line_tape::{Event, History, MOST_EVENTS, MOST_STATE};

/// Whether a history that agrees does so with the event at process p too, and a send has the
/// present incarnation.
fn agrees_next(history: &History, p: ProcId, event: &Event) -> bool
    requires agrees { Agrees history.now.processes }
    requires process { p < length history.now.processes }
    requires named { NamesBelow (length history.now.processes) event.now }
    ensures { IsTrue result ↔ AgreesNext history.now.processes p event.now }
{
    match event {
        Event::Send { inc, .. } => *inc == history.incarnation(p),
        Event::Recv { message } => name_agrees(history, message),
        Event::Check { .. } => true,
        Event::Mark { .. } => true,
    }
}

impl Catalogue {
    /// Whether `add` takes an event at the end of the tape of a process, where there is memory for
    /// it: then, with room for it, `append` does. It costs the same however much was added before.
    pub fn test(&self, p: ProcId, event: &Event) -> Result<(), AddError>
        ensures ok { OnOk result ((p < length self.now.processes)
            × NamesBelow (length self.now.processes) event.now × (HasLongState event.now → ⊥)
            × (length (tape_at self.now.processes p) ≢ MOST_EVENTS)
            × AgreesNext self.now.processes p event.now) }

        // The refusals, in their order.
        ensures process { IsErrOf result AddError.NoSuchProcess
            ↔ ((length self.now.processes ≤ p)
            ⊎ (NamesBelow (length self.now.processes) event.now → ⊥)) }
        ensures long { IsErrOf result AddError.StateTooLong
            ↔ ((p < length self.now.processes) × NamesBelow (length self.now.processes) event.now
            × HasLongState event.now) }
        ensures full { IsErrOf result AddError.TapeFull
            ↔ ((p < length self.now.processes) × NamesBelow (length self.now.processes) event.now
            × (HasLongState event.now → ⊥)
            × (length (tape_at self.now.processes p) ≡ MOST_EVENTS)) }
        ensures names { IsErrOf result AddError.NamesDisagree
            ↔ ((p < length self.now.processes) × NamesBelow (length self.now.processes) event.now
            × (HasLongState event.now → ⊥) × (length (tape_at self.now.processes p) ≢ MOST_EVENTS)
            × (AgreesNext self.now.processes p event.now → ⊥)) }
        ensures never { result ≢ Err AddError.OutOfMemory }
    {
        let history = self.history();
        let n = history.n();
        if p.get() >= n || !event.names_below(n) {
            return Err(AddError::NoSuchProcess);
        }
        if let Event::Check { state, .. } = event {
            if state.bytes().len() > MOST_STATE {
                return Err(AddError::StateTooLong);
            }
        }
        if history.tape(p).len() as usize >= MOST_EVENTS {
            return Err(AddError::TapeFull);
        }
        if !agrees_next(history, p, event) {
            return Err(AddError::NamesDisagree);
        }
        Ok(())
    }
}

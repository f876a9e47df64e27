//! Who has received nothing of a process that sent a message before a line.
ghost use Rattle.std.specs.Prelude.{◌≡◌, ◌<◌, length, false, Contains};
ghost use Rattle.line_names.specs.declared.messages.MsgName.{MsgName};
ghost use Rattle.line_tape.specs.declared.events.Event.TheVariants.{Recv};
ghost use Rattle.line_tape.specs.Event.{sends};
ghost use Rattle.line_tape.specs.History.{tape_at};
ghost use Rattle.line_tape.specs.Line.{events_before, IsLine};
ghost use Rattle.line_catalogue.specs.Left.{AreStrangers};

use crate::catalogues::Catalogue;
use line_names::{Choice, Line, ProcId, ProcSet};

/// Whether a process has received, at any time, a message of a process that sent one before the
/// line. It looks at the lanes of one vector.
fn has_heard(catalogue: &Catalogue, line: &Line, q: ProcId) -> bool
    requires line { IsLine catalogue.now.processes line.now }
    requires process { q < length catalogue.now.processes }
    ensures { result ≡ false → (message : MsgName)
        → Contains (tape_at catalogue.now.processes q) (Recv message)
        → sends (events_before catalogue.now.processes line.now message.from) ≡ 0 }
{
    let history = catalogue.history();
    let n = catalogue.n();
    let reach = catalogue.reach(q, Choice::Now);
    for s in 0..n {
        let p = ProcId::try_new(s, n).unwrap();
        let sent = history.tape(p).sends_before(line.at(p));
        if reach.lane(p).min(sent) > 0 {
            return true;
        }
    }
    false
}

/// The processes that have received, at any time, no message of a process that sent one before the
/// line.
pub fn find_strangers(catalogue: &Catalogue, line: &Line) -> ProcSet
    requires { IsLine catalogue.now.processes line.now }
    ensures { AreStrangers catalogue.now.processes line.now result }
{
    let n = catalogue.n();
    let mut set = ProcSet::empty();
    for r in 0..n {
        let q = ProcId::try_new(r, n).unwrap();
        if !has_heard(catalogue, line, q) {
            set = set.with(q);
        }
    }
    set
}

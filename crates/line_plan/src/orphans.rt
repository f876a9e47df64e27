//! The orphan that a vector names.
ghost use Rattle.std.specs.Prelude.{◌≡◌, ◌<◌, ◌≤◌, length};
ghost use Rattle.line_tape.specs.Line.{events_before, IsLine, IsFoundAmong};
ghost use Rattle.line_vectors.specs.Reach.{sents_of};
ghost use Rattle.line_catalogue.specs.Agreement.{name_of_number};
ghost use Rattle.line_plan.specs.Search.{AreFirstSent};

use line_catalogue::Catalogue;
use line_names::{Line, MsgName, ProcId};
use line_tape::{History, orphan_among};
use line_vectors::{LAST_NUMBER, Sent};

/// The name of a process's message of that number: under the incarnation of that send, or under the
/// present one where it is still to come.
fn name_of(history: &History, p: ProcId, number: u32) -> MsgName
    requires { p < length history.now.processes }
    ensures { result ≡ name_of_number history.now.processes p number }
{
    match history.tape(p).sent_under(number) {
        Some(inc) => MsgName {
            from: p,
            inc,
            number,
        },
        None => MsgName {
            from: p,
            inc: history.incarnation(p),
            number,
        },
    }
}

/// An orphan at a process, if there is one: of several that of the lowest sender, and of that
/// sender the one with the greatest number.
///
/// `clear` says of how many first senders it is known that there is none, and then how many stand
/// before the lowest sender. It looks at the other lanes of one vector. Where the lane of the
/// lowest sender stands for a number past the last that a lane can tell, it looks at each event
/// before the choice.
pub fn orphan_at(
    catalogue: &Catalogue,
    line: &Line,
    sent: &Sent,
    at: ProcId,
    clear: &mut usize,
) -> Option<MsgName>
    requires line { IsLine catalogue.now.processes line.now }
    requires process { at < length catalogue.now.processes }
    requires sent { sent.now ≡ sents_of catalogue.now.processes line.now }
    requires few { clear.old ≤ length catalogue.now.processes }
    requires clear { AreFirstSent catalogue.now.processes line.now at clear.old }
    ensures found { IsFoundAmong catalogue.now.processes line.now
        (events_before catalogue.now.processes line.now at) result }
    ensures few { clear.new ≤ length catalogue.now.processes }
    ensures clear { AreFirstSent catalogue.now.processes line.now at clear.new }
{
    let history = catalogue.history();
    let _n = history.n();
    let choice = line.at(at);
    let reach = catalogue.reach(at, choice);
    match reach.first_beyond_from(sent, *clear) {
        Some(p) => {
            *clear = p.get() as usize;
            let lane = reach.lane(p);
            if lane < LAST_NUMBER {
                Some(name_of(history, p, lane - 1))
            } else {
                orphan_among(history, line, &history.tape(at).front(choice))
            }
        }
        None => None,
    }
}

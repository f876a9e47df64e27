//! The vectors that a catalogue lends.
ghost use Rattle.std.specs.Prelude.{◌≡◌, ◌<◌, ◌↔◌, List, length, slice_index};
ghost use Rattle.line_names.specs.declared.choices.Choice.{Choice};
ghost use Rattle.line_names.specs.declared.choices.Choice.TheVariants.{Now};
ghost use Rattle.line_tape.specs.Front.{front, HasChoice};
ghost use Rattle.line_tape.specs.History.{tape_at};
ghost use Rattle.line_tape.specs.Line.{AreSentBefore};
ghost use Rattle.line_vectors.specs.Reach.{reach_before, sents_of};
ghost use Rattle.line_vectors.specs.Vectors.{Fits};

use super::Catalogue;
use line_names::{Choice, ProcId};
use line_vectors::ReachRef;

impl Catalogue {
    /// The vector of a choice of a process: for each process one more than the greatest number
    /// received from it before the choice, or 0. It costs nothing.
    ///
    /// It fits the sends before a line exactly where each message received before the choice is
    /// sent before the line.
    pub fn reach(&self, p: ProcId, choice: Choice) -> ReachRef<'_>
        requires process { p < length self.now.processes }
        requires choice { HasChoice (tape_at self.now.processes p) choice }
        ensures value { result ≡ reach_before self.now.processes p choice }
        ensures decides { (line : List Choice) → Fits result (sents_of self.now.processes line)
            ↔ AreSentBefore self.now.processes line (front (tape_at self.now.processes p) choice) }
    {
        let _n = self.ledger.history().n();
        self.rows.reach(p, choice)
    }

    /// One more than the greatest number that a process has received from another one, at any time,
    /// or 0: the lane of `p` in the vector of where `q` stands. It costs nothing.
    pub fn heard(&self, q: ProcId, p: ProcId) -> u32
        requires hearer { q < length self.now.processes }
        requires process { p < length self.now.processes }
        ensures { result ≡ slice_index (reach_before self.now.processes q Now) p }
    {
        self.rows.present(q).lane(p)
    }
}

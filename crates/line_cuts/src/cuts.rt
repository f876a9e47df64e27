//! Laws of histories that are cut at a line of checks.
ghost use Rattle.std.specs.Prelude.{◌≡◌, ◌↔◌, ◌+◌, ◌<◌, ◌≤◌, ℕ, Bool, All, Contains};
ghost use Rattle.std.specs.Prelude.{List, [], ◌∷◌, length, map};
ghost use Rattle.std.specs.List.{filter_map};
ghost use Rattle.line_names.specs.declared.certificates.Passed.{Passed};
ghost use Rattle.line_names.specs.declared.choices.Choice.{Choice};
ghost use Rattle.line_names.specs.declared.messages.MsgName.{MsgName};
ghost use Rattle.line_names.specs.Lines.{IsNowhereLater};
ghost use Rattle.line_tape.specs.declared.events.Event.{Event};
ghost use Rattle.line_tape.specs.declared.events.Event.TheVariants.{Mark};
ghost use Rattle.line_tape.specs.Chain.{IsChain};
ghost use Rattle.line_tape.specs.Event.{sends};
ghost use Rattle.line_tape.specs.Fit.{IsFitFifo, IsFitUnordered, IsPrefix, link};
ghost use Rattle.line_tape.specs.Fit.{received_from, sent_between};
ghost use Rattle.line_tape.specs.History.{IsHistory, Process, tape_at, with_event};
ghost use Rattle.line_tape.specs.Line.{events_before, IsConsistent, IsLine};
ghost use Rattle.line_tape.specs.Restart.{restarted_history};
ghost use Rattle.line_tape.specs.Rounds.{check_line, is_completed_fifo, rounds_checked, IsSnapshot};
ghost use Rattle.line_tape.specs.Survival.{IsLatest};
ghost use Rattle.line_tape.specs.Transit.{in_transit};
ghost use Rattle.line_tape.specs.Views.{MarksView};
ghost use Rattle.line_catalogue.specs.Agreement.{Agrees};
ghost use Rattle.line_catalogue.specs.Damage.{AreOnChecks};
ghost use Rattle.line_cuts.specs.Cuts.{Floor, floor_check, floor_line, lost_sends};
ghost use Rattle.line_cuts.specs.Cuts.{cut_checks, cut_event, cut_history, cut_item, cut_line};
ghost use Rattle.line_cuts.specs.Cuts.{cut_marks, cut_name};
ghost use Rattle.line_cuts.specs.Cuts.{whole_entry, whole_floor, whole_line, whole_name};
ghost use Rattle.line_cuts.specs.Cuts.{FloorSurvives, HasOldRounds, IsFloor};

/// A line that is nowhere before the floor is consistent in what is left exactly where it is
/// consistent in the whole history.
///
/// The call does nothing: its contract is the law.
pub fn cut_consistent()
    ensures { (history : List Process) (floor : Floor) (line : List Choice)
        → IsFitUnordered history → IsFloor history floor → length line ≡ length history
        → IsNowhereLater (floor_line floor) line
        → IsConsistent history line
        ↔ IsConsistent (cut_history floor history) (cut_line floor line) }
{}

/// The latest line of what is left, for any marks and any failed processes, is the latest line of
/// the whole history; and it is nowhere before the floor.
///
/// So a process whose floor survives never goes back before it, and whoever plans needs nothing
/// from before the floor. The call does nothing: its contract is the law.
pub fn cut_latest()
    ensures latest { (history : List Process) (floor : Floor) (marks : MarksView)
        (failed : List Bool) (line : List Choice)
        → IsFitUnordered history → IsFloor history floor → FloorSurvives history marks floor
        → IsLatest (cut_history floor history) (cut_marks floor marks) failed line
        → IsLatest history marks failed (whole_line floor line) }
    ensures above { (history : List Process) (floor : Floor) (marks : MarksView)
        (failed : List Bool) (line : List Choice)
        → IsFitUnordered history → IsFloor history floor → FloorSurvives history marks floor
        → IsLatest (cut_history floor history) (cut_marks floor marks) failed line
        → IsNowhereLater (floor_line floor) (whole_line floor line) }
{}

/// A chain that is valid in what is left is valid in the whole history, with its choices and the
/// names of its messages brought back.
///
/// The call does nothing: its contract is the law.
pub fn cut_chain()
    ensures { (history : List Process) (floor : Floor) (marks : MarksView) (failed : List Bool)
        (entries : List Passed) (line : List Choice)
        → IsFitUnordered history → IsFloor history floor → FloorSurvives history marks floor
        → IsChain (cut_history floor history) (cut_marks floor marks) failed entries line
        → IsChain history marks failed (map (whole_entry floor) entries) (whole_line floor line) }
{}

/// What is in transit at a line from the floor on is the same in what is left, in the same order,
/// with the names of its messages brought back.
///
/// The call does nothing: its contract is the law.
pub fn cut_transit()
    ensures { (history : List Process) (floor : Floor) (line : List Choice)
        → IsFitUnordered history → IsFloor history floor
        → IsNowhereLater (floor_line floor) line
        → in_transit history line
        ≡ map (whole_name floor) (in_transit (cut_history floor history) (cut_line floor line)) }
{}

/// What a link that keeps its order holds, in what is left, is what is left of what it holds; and
/// what is received of it begins what is sent on it.
///
/// The call does nothing: its contract is the law.
pub fn cut_links()
    ensures holds { (history : List Process) (floor : Floor)
        → IsFitFifo history → HasOldRounds history floor → (p q : ℕ)
        → link (cut_history floor history) p q
        ≡ filter_map (cut_item floor) (link history p q) }
    ensures order { (history : List Process) (floor : Floor)
        → IsFitFifo history → HasOldRounds history floor → (p q : ℕ)
        → IsPrefix (received_from (cut_history floor history) q p)
        (sent_between (cut_history floor history) p q) }
{}

/// Where no round is later than the floor's, what is left has none, and fits links that keep their
/// order; and a round that is begun later is completed there where it is in the whole.
///
/// The call does nothing: its contract is the law.
pub fn cut_rounds()
    ensures fit { (history : List Process) (floor : Floor)
        → IsFitFifo history → HasOldRounds history floor
        → ((p : ℕ) → All (λ r. r ≤ floor.round) (rounds_checked (tape_at history p)))
        → ((p from round : ℕ) → Contains (tape_at history p) (Mark from round)
        → round ≤ floor.round)
        → IsFitFifo (cut_history floor history) }
    ensures none { (history : List Process) (floor : Floor)
        → ((p : ℕ) → All (λ r. r ≤ floor.round) (rounds_checked (tape_at history p)))
        → (p : ℕ) → rounds_checked (tape_at (cut_history floor history) p) ≡ [] }
    ensures completed { (history : List Process) (floor : Floor) (r : ℕ)
        → HasOldRounds history floor → floor.round < r
        → is_completed_fifo (cut_history floor history) r ≡ is_completed_fifo history r }
{}

/// A floor stays one by each event, and by each restart at a line from it on. What is left of what
/// a restart leaves is what the restart leaves of what is left; and an event adds to what is left
/// what is left of it.
///
/// The call does nothing: its contract is the law.
pub fn cut_goes_on()
    ensures event { (history : List Process) (floor : Floor) (at : ℕ) (event : Event)
        → IsFloor history floor → at < length history
        → IsFloor (with_event history at event) floor }
    ensures restart { (history : List Process) (floor : Floor) (line : List Choice)
        → IsFloor history floor → length line ≡ length history
        → IsNowhereLater (floor_line floor) line
        → IsFloor (restarted_history history line) floor }
    ensures added { (history : List Process) (floor : Floor) (at : ℕ) (event left : Event)
        → IsFloor history floor → at < length history
        → cut_event floor history at event ≡ left ∷ []
        → cut_history floor (with_event history at event)
        ≡ with_event (cut_history floor history) at left }
    ensures restarted { (history : List Process) (floor : Floor) (line : List Choice)
        → length line ≡ length history → IsNowhereLater (floor_line floor) line
        → cut_history floor (restarted_history history line)
        ≡ restarted_history (cut_history floor history) (cut_line floor line) }
{}

/// A consistent line of checks is a floor where no process lets go more sends than stand before it,
/// nor the first of its messages that is in transit there.
///
/// So whoever cuts a history finds what may be let go by the line and by what is in transit at it.
/// The call does nothing: its contract is the law.
pub fn floors_are_found()
    ensures { (history : List Process) (floor : Floor)
        → IsLine history (floor_line floor) → IsConsistent history (floor_line floor)
        → ((p : ℕ) → lost_sends floor p ≤ sends (events_before history (floor_line floor) p))
        → ((m : MsgName) → Contains (in_transit history (floor_line floor)) m
        → lost_sends floor m.from ≤ m.number)
        → IsFloor history floor }
{}

/// To cut what is left once more is to cut the whole once, further on.
///
/// The call does nothing: its contract is the law.
pub fn cut_twice()
    ensures { (floor later : Floor) (history : List Process)
        → length later.checks ≡ length history → length floor.sends ≡ length later.sends
        → ((p : ℕ) → p < length history → 1 ≤ floor_check floor p
        → 1 ≤ floor_check later p)
        → floor.round ≤ later.round
        → cut_history later (cut_history floor history)
        ≡ cut_history (whole_floor floor later) history }
{}

/// What a catalogue asks of a history, its marks and its bars holds of what is left of them: each
/// name that is received agrees with its sender, marks and bars are on checks that there are, and
/// tapes keep within their limits.
///
/// So a catalogue of what is left is made without a refusal. The call does nothing: its contract is
/// the law.
pub fn cut_agrees()
    ensures names { (history : List Process) (floor : Floor)
        → Agrees history → Agrees (cut_history floor history) }
    ensures checks { (history : List Process) (floor : Floor) (marks : MarksView)
        → IsFloor history floor → AreOnChecks history marks
        → AreOnChecks (cut_history floor history) (cut_marks floor marks) }
    ensures limits { (history : List Process) (floor : Floor)
        → IsHistory history → IsHistory (cut_history floor history) }
{}

/// A floor of what is left is, once it is brought back, a floor of the whole history, where who has
/// left its initial state does not come back to it; it survives there where it survives in what is
/// left, and the rounds before it are as old.
///
/// The latest line of what is left, for whichever failed processes, never comes back so. The call
/// does nothing: its contract is the law.
pub fn later_floors()
    ensures floor { (floor later : Floor) (history : List Process)
        → IsFitUnordered history → IsFloor history floor
        → IsFloor (cut_history floor history) later
        → ((p : ℕ) → p < length history → 1 ≤ floor_check floor p
        → 1 ≤ floor_check later p)
        → IsFloor history (whole_floor floor later) }
    ensures survives { (floor later : Floor) (history : List Process) (marks : MarksView)
        → IsFloor history floor → IsFloor (cut_history floor history) later
        → ((p : ℕ) → p < length history → 1 ≤ floor_check floor p
        → 1 ≤ floor_check later p)
        → FloorSurvives history marks floor
        → FloorSurvives (cut_history floor history) (cut_marks floor marks) later
        → FloorSurvives history marks (whole_floor floor later) }
    ensures rounds { (floor later : Floor) (history : List Process)
        → IsFloor history floor → IsFloor (cut_history floor history) later
        → ((p : ℕ) → p < length history → 1 ≤ floor_check floor p
        → 1 ≤ floor_check later p)
        → floor.round ≤ later.round → HasOldRounds history floor
        → HasOldRounds (cut_history floor history) later
        → HasOldRounds history (whole_floor floor later) }
    ensures latest { (floor later : Floor) (history : List Process) (marks : MarksView)
        (failed : List Bool)
        → IsFitUnordered history → IsFloor history floor → FloorSurvives history marks floor
        → IsLatest (cut_history floor history) (cut_marks floor marks) failed (floor_line later)
        → (p : ℕ) → p < length history → 1 ≤ floor_check floor p
        → 1 ≤ floor_check later p }
{}

/// What is left of a snapshot, none of whose checks is before the floor, is a snapshot of what is
/// left: the same checks, under their indices there, and the same messages in transit, under their
/// names there.
///
/// So what is listed of a round stays true of what is kept. The call does nothing: its contract is
/// the law.
pub fn cut_snapshots()
    ensures { (history : List Process) (floor : Floor) (indices : List ℕ)
        (channels : ℕ → ℕ → List MsgName)
        → IsFitUnordered history → IsFloor history floor
        → IsNowhereLater (floor_line floor) (check_line indices)
        → IsSnapshot history indices channels
        → IsSnapshot (cut_history floor history) (cut_checks floor indices)
        (λ p q. map (cut_name floor) (channels p q)) }
{}

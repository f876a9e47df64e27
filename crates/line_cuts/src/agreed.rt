//! Laws of histories that agree, cut at a line of checks: they may hold receipts of messages whose
//! sends are still to come, as reports that come in any order between processes do.
ghost use Rattle.std.specs.Prelude.{◌≡◌, ◌<◌, ◌≤◌, ℕ, Bool, List, length, map};
ghost use Rattle.line_names.specs.declared.certificates.Passed.{Passed};
ghost use Rattle.line_names.specs.declared.choices.Choice.{Choice};
ghost use Rattle.line_names.specs.Lines.{IsNowhereLater};
ghost use Rattle.line_tape.specs.Chain.{IsChain};
ghost use Rattle.line_tape.specs.History.{Process};
ghost use Rattle.line_tape.specs.Survival.{IsLatest};
ghost use Rattle.line_tape.specs.Transit.{in_transit};
ghost use Rattle.line_tape.specs.Views.{MarksView};
ghost use Rattle.line_catalogue.specs.Agreement.{Agrees};
ghost use Rattle.line_cuts.specs.Cuts.{Floor, floor_check, floor_line, whole_floor};
ghost use Rattle.line_cuts.specs.Cuts.{cut_history, cut_line, cut_marks};
ghost use Rattle.line_cuts.specs.Cuts.{whole_entry, whole_line, whole_name};
ghost use Rattle.line_cuts.specs.Cuts.{FloorSurvives, IsFloor};

/// What is left of a history that agrees is planned as the whole: it has the same latest line, for
/// any marks and any failed processes, the same valid chains and the same messages in transit, with
/// names and numbers brought back; and no process goes back before the floor.
///
/// `cut_latest`, `cut_chain` and `cut_transit` say so of a history that fits. Who collects reports
/// has one that only agrees. The call does nothing: its contract is the law.
pub fn agreed_cuts_plan_alike()
    ensures latest { (history : List Process) (floor : Floor) (marks : MarksView)
        (failed : List Bool) (line : List Choice)
        → Agrees history → IsFloor history floor → FloorSurvives history marks floor
        → IsLatest (cut_history floor history) (cut_marks floor marks) failed line
        → IsLatest history marks failed (whole_line floor line) }
    ensures above { (history : List Process) (floor : Floor) (marks : MarksView)
        (failed : List Bool) (line : List Choice)
        → Agrees history → IsFloor history floor → FloorSurvives history marks floor
        → IsLatest (cut_history floor history) (cut_marks floor marks) failed line
        → IsNowhereLater (floor_line floor) (whole_line floor line) }
    ensures chain { (history : List Process) (floor : Floor) (marks : MarksView)
        (failed : List Bool) (entries : List Passed) (line : List Choice)
        → Agrees history → IsFloor history floor → FloorSurvives history marks floor
        → IsChain (cut_history floor history) (cut_marks floor marks) failed entries line
        → IsChain history marks failed (map (whole_entry floor) entries) (whole_line floor line) }
    ensures transit { (history : List Process) (floor : Floor) (line : List Choice)
        → IsFloor history floor → IsNowhereLater (floor_line floor) line
        → in_transit history line
        ≡ map (whole_name floor) (in_transit (cut_history floor history) (cut_line floor line)) }
{}

/// A floor of what is left of a history that agrees is, once it is brought back, a floor of the
/// whole, where who has left its initial state does not come back to it, which the latest line of
/// what is left never does; and what is left of marks that are cut once more is what is left of
/// them at once.
///
/// `later_floors` says so of a history that fits, and `cut_twice` of tapes. The call does nothing:
/// its contract is the law.
pub fn agreed_floors_follow()
    ensures floor { (floor later : Floor) (history : List Process)
        → Agrees history → IsFloor history floor
        → IsFloor (cut_history floor history) later
        → ((p : ℕ) → p < length history → 1 ≤ floor_check floor p
        → 1 ≤ floor_check later p)
        → IsFloor history (whole_floor floor later) }
    ensures latest { (floor later : Floor) (history : List Process) (marks : MarksView)
        (failed : List Bool)
        → Agrees history → IsFloor history floor → FloorSurvives history marks floor
        → IsLatest (cut_history floor history) (cut_marks floor marks) failed (floor_line later)
        → (p : ℕ) → p < length history → 1 ≤ floor_check floor p
        → 1 ≤ floor_check later p }
    ensures marks { (floor later : Floor) (history : List Process) (marks : MarksView)
        → length later.checks ≡ length history → length floor.checks ≡ length history
        → ((p : ℕ) → p < length history → 1 ≤ floor_check floor p
        → 1 ≤ floor_check later p)
        → cut_marks later (cut_marks floor marks) ≡ cut_marks (whole_floor floor later) marks }
{}

//! The law of marks that differ in their order alone.
ghost use Rattle.std.specs.Prelude.{◌≡◌, ℕ, Bool, List};
ghost use Rattle.line_names.specs.declared.certificates.Passed.{Passed};
ghost use Rattle.line_names.specs.declared.choices.Choice.{Choice};
ghost use Rattle.line_tape.specs.Chain.{IsChain};
ghost use Rattle.line_tape.specs.History.{Process};
ghost use Rattle.line_tape.specs.Survival.{survives, IsLatest};
ghost use Rattle.line_tape.specs.Views.{MarksView};
ghost use Rattle.line_cuts.specs.Marks.{AreSameMarks};

/// Which choices survive, which line is the latest and which chains are valid does not depend on
/// the order in which marks were made.
///
/// The call does nothing: its contract is the law.
pub fn same_marks_plan_alike()
    ensures survives { (history : List Process) (marks others : MarksView) (failed : List Bool)
        (p : ℕ) (choice : Choice) → AreSameMarks marks others
        → survives history marks failed p choice ≡ survives history others failed p choice }
    ensures latest { (history : List Process) (marks others : MarksView) (failed : List Bool)
        (line : List Choice) → AreSameMarks marks others
        → IsLatest history marks failed line → IsLatest history others failed line }
    ensures chain { (history : List Process) (marks others : MarksView) (failed : List Bool)
        (entries : List Passed) (line : List Choice) → AreSameMarks marks others
        → IsChain history marks failed entries line
        → IsChain history others failed entries line }
{}

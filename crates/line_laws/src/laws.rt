//! Laws over the definitions alone.
ghost use Rattle.std.specs.Prelude.{◌≡◌, ◌<◌, ◌↔◌, ℕ, false, List, Bool, length, replicate, None};
ghost use Rattle.line_names.specs.declared.certificates.Passed.{Passed};
ghost use Rattle.line_names.specs.declared.choices.Choice.{Choice};
ghost use Rattle.line_names.specs.declared.choices.Choice.TheVariants.{Now};
ghost use Rattle.line_names.specs.Sets.{is_member};
ghost use Rattle.line_tape.specs.Chain.{IsAbove, IsChain, IsPassedOnce, PassesOver};
ghost use Rattle.line_tape.specs.Fit.{IsFitFifo, IsFitUnordered};
ghost use Rattle.line_tape.specs.History.{Process};
ghost use Rattle.line_tape.specs.Survival.{IsLatest};
ghost use Rattle.line_tape.specs.Views.{MarksView, bar_at};

/// On every history whatever, a chain that is valid for a line makes that line the latest.
///
/// So whoever has tested a chain need not trust the planner that wrote it. The call does nothing:
/// its contract is the law.
pub fn chain_makes_latest()
    ensures { (history : List Process) (marks : MarksView) (failed : List Bool)
        (entries : List Passed) (line : List Choice)
        → IsChain history marks failed entries line → IsLatest history marks failed line }
{}

/// A latest line is unique: of one history, one set of marks and one failed set there is one at
/// most.
///
/// The call does nothing: its contract is the law.
pub fn latest_is_unique()
    ensures { (history : List Process) (marks : MarksView) (failed : List Bool)
        (line other : List Choice)
        → IsLatest history marks failed line → IsLatest history marks failed other → line ≡ other }
{}

/// Where links, of either kind, can lead to the history and no process of it failed or is barred,
/// the latest line is where every process stands now, whatever checks are damaged; and there is no
/// other.
///
/// The call does nothing: its contract is the law.
pub fn now_is_latest()
    ensures ordered { (history : List Process) (marks : MarksView) (failed : List Bool)
        (line : List Choice)
        → IsFitFifo history
        → ((p : ℕ) → p < length history → is_member failed p ≡ false)
        → ((p : ℕ) → bar_at marks p ≡ None)
        → IsLatest history marks failed line ↔ (line ≡ replicate (length history) Now) }
    ensures unordered { (history : List Process) (marks : MarksView) (failed : List Bool)
        (line : List Choice)
        → IsFitUnordered history
        → ((p : ℕ) → p < length history → is_member failed p ≡ false)
        → ((p : ℕ) → bar_at marks p ≡ None)
        → IsLatest history marks failed line ↔ (line ≡ replicate (length history) Now) }
{}

/// On every history whatever, a chain that is valid for a line has exactly one entry for each
/// surviving choice above the line, up to the latest one of its process, and no entry for any other
/// choice.
///
/// The call does nothing: its contract is the law.
pub fn chain_passes_each()
    ensures each { (history : List Process) (marks : MarksView) (failed : List Bool)
        (entries : List Passed) (line : List Choice) (p : ℕ) (choice : Choice)
        → IsChain history marks failed entries line → IsAbove history marks failed line p choice
        → IsPassedOnce entries p choice }
    ensures only { (history : List Process) (marks : MarksView) (failed : List Bool)
        (entries : List Passed) (line : List Choice) (k p : ℕ) (choice : Choice)
        → IsChain history marks failed entries line → PassesOver entries k p choice
        → IsAbove history marks failed line p choice }
{}

//! Laws of collections that let go, each the contract of a function that does nothing.

ghost use Rattle.std.specs.Prelude.{◌≡◌, ℕ, Bool, List};
ghost use Rattle.line_collect.specs.AllAnswers.{AnswersLiveAll, IsAnsweredByAll};
ghost use Rattle.line_collect.specs.Alongside.{Collected, CollectsAll, IsCollectedByWhole};
ghost use Rattle.line_collect.specs.Alongside.{IsLeftOfAll};
ghost use Rattle.line_collect.specs.Answers.{ReportAnswer};
ghost use Rattle.line_collect.specs.Collections.{CollectionView, IsPlanToGoBack};
ghost use Rattle.line_collect.specs.Lives.{ForgetsReports, IsLivePlan, LiveCollectionView};
ghost use Rattle.line_collect.specs.Lives.{nothing_live};
ghost use Rattle.line_collect.specs.declared.reports.Report.{Report};
ghost use Rattle.line_plan.specs.declared.plans.Plan.{Plan};

/// A plan of what is kept, brought back, is one of the collection that keeps everything: its line
/// is the latest there, its certificate a valid chain, and its replays what is in transit there.
pub fn live_plans_are_of_all()
    ensures { (live : LiveCollectionView) (whole : CollectionView) (failed : List Bool)
        (plan : Plan) → IsLeftOfAll live whole → IsLivePlan live failed plan
        → IsPlanToGoBack whole failed plan }
{}

/// Who lets go keeps what is left of everything, however often.
pub fn forgets_leave_what_is_left()
    ensures { (live new : LiveCollectionView) (whole : CollectionView) → IsLeftOfAll live whole
        → ForgetsReports live new → IsLeftOfAll new whole }
{}

/// Whatever one who lets go answers from the beginning, however often it forgets in between, the
/// collection that keeps everything may answer, if its tapes were never full; and what is kept is
/// what is left of that.
pub fn live_collections_answer_as_all()
    ensures { (n : ℕ) (done : List Collected) (live : LiveCollectionView)
        → CollectsAll (nothing_live n) done live → IsCollectedByWhole n done live }
{}

/// What one who lets go answers to reports from the beginning, whatever it forgets in between, the
/// collection that keeps everything may answer by the same records, if its tapes were never full;
/// and what is kept is what is left of that. It lets nothing go, and has no texts of what is left;
/// what was refused is left out there.
pub fn live_answers_are_of_all()
    ensures { (n : ℕ) (answered : List (Report × ReportAnswer)) (live : LiveCollectionView)
        → AnswersLiveAll (nothing_live n) answered live → IsAnsweredByAll n answered live }
{}

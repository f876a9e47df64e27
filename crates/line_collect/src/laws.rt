//! Laws of the definitions, each the contract of a function that does nothing.

ghost use Rattle.std.specs.Prelude.{◌≡◌, ◌≢◌, ◌<◌, ◌↔◌, ◌++◌, ℕ, Bool, List, Option, Result};
ghost use Rattle.std.specs.Prelude.{length};
ghost use Rattle.line_text.specs.Answers.{IsEverybody};
ghost use Rattle.line_text.specs.Conversations.{Serves, ServesBoth, Standing};
ghost use Rattle.line_fields.specs.declared.faults.Fault.{Fault};
ghost use Rattle.line_fields.specs.declared.faults.ReadError.{ReadError};
ghost use Rattle.line_fields.specs.Records.{Record};
ghost use Rattle.line_collect.specs.Answers.{AnswersReport, Given, Refused};
ghost use Rattle.line_collect.specs.Collecting.{CollectAnswer, Faulted, HearsReport, Replied};
ghost use Rattle.line_collect.specs.Collecting.{collect_rules};
ghost use Rattle.line_collect.specs.Collections.{CollectionView, IsPlanOf, gone_back};
ghost use Rattle.line_collect.specs.Lives.{LiveCollectionView};
ghost use Rattle.line_collect.specs.Orders.{AnswersUntilRecovery, TakesAll, events_by};
ghost use Rattle.line_collect.specs.Recoveries.{IsRecoveredLine};
ghost use Rattle.line_plan.specs.declared.plans.Plan.{Plan};
ghost use Rattle.line_names.specs.declared.messages.MsgName.{MsgName};
ghost use Rattle.line_collect.specs.declared.reports.Report.{Report};
ghost use Rattle.line_collect.specs.declared.reports.Report.TheVariants.{Receive};
ghost use Rattle.line_tape.specs.Event.{Holds};
ghost use Rattle.line_tape.specs.History.{incarnation_at, tape_at};
ghost use Rattle.line_tape.specs.Line.{IsConsistent};

/// A record that is answered by a fault, by `OutOfMemory` or by a refusal changes nothing: what was
/// collected is what there was, or there is still nothing.
pub fn faults_and_refusals_change_nothing()
    ensures faults { (old new : Option LiveCollectionView) (one : Result Record Fault)
        (error : ReadError) → HearsReport old one (Faulted error) new → new ≡ old }
    ensures refusals { (old new : Option LiveCollectionView) (one : Result Record Fault) (code : ℕ)
        → HearsReport old one (Replied (Refused code)) new → new ≡ old }
{}

/// However an input is cut into pieces, its answers are the same: what two pieces may be answered,
/// one after the other, is what they may be answered as one.
pub fn reports_in_pieces_are_answered_alike()
    ensures { (old new : Standing (Option LiveCollectionView)) (bytes more : List ℕ)
        (answers : List CollectAnswer) → Serves collect_rules old (bytes ++ more) answers new
        ↔ ServesBoth collect_rules old bytes more answers new }
{}

/// In which order the reports of several processes come is all the same: where two lists of reports
/// are taken, without a refusal and without a recovery, and tell the same of each process in the
/// same order, they leave the same history.
pub fn histories_follow_each_process()
    ensures { (old new later : CollectionView) (these others : List Report)
        → TakesAll old these new → TakesAll old others later
        → ((p : ℕ) → events_by p these ≡ events_by p others) → new.history ≡ later.history }
{}

/// The line of `live` stays consistent in all that is reported until the next recovery, taken or
/// refused. So no recovery to come needs what lies before it, unless a check of it is damaged or a
/// process barred before it.
pub fn live_lines_stay_consistent()
    ensures { (old new : CollectionView) (failed : List Bool) (plan : Plan) (these : List Report)
        → IsEverybody (length old.history) failed → IsPlanOf old failed plan
        → AnswersUntilRecovery old these new → IsConsistent new.history plan.line }
{}

/// After a recovery no receipt of a message that was cut is taken: a message that its sender's tape
/// does not hold, and that has another incarnation than the present one of its sender, is received
/// by nobody before the next recovery, whatever is reported between.
pub fn cut_messages_are_not_received()
    ensures { (old mid new : CollectionView) (these : List Report) (by inc : ℕ)
        (message : MsgName) (records : List Record)
        → message.from < length old.history
        → (Holds (tape_at old.history message.from) message.inc message.number → ⊥)
        → message.inc ≢ incarnation_at old.history message.from
        → AnswersUntilRecovery old these mid
        → AnswersReport mid (Receive by inc message) (Given records) new → ⊥ }
{}

/// The line that a recovery planned stays consistent in all that is reported until the next one,
/// taken or refused. What was left of each tape stands there as it stood, up to the check that its
/// process went back to; each message received there was sent there; and a message that is received
/// later was sent there too, or comes after it under the incarnation that its sender has since. So
/// no report makes an orphan message of that line.
pub fn recovered_lines_stay_consistent()
    ensures { (old new : CollectionView) (failed : List Bool) (plan : Plan) (these : List Report)
        → IsPlanOf old failed plan → AnswersUntilRecovery (gone_back old plan.line) these new
        → IsRecoveredLine plan.line (gone_back old plan.line).history new.history }
{}

//! A law over commands, the contract of a function that does nothing.

ghost use Rattle.std.specs.Prelude.{◌≡◌, Bool, List, Some};
ghost use Rattle.std.specs.List.{AllByRecursion};
ghost use Rattle.line_text.specs.Answers.{CommandAnswer, Planned, Tells, TellsAll};
ghost use Rattle.line_text.specs.Live.{SparesLine, line_told};
ghost use Rattle.line_live.specs.Lives.{IsPlanOfKept, LiveMachine};
ghost use Rattle.line_names.specs.declared.choices.Choice.{Choice};
ghost use Rattle.line_names.specs.Lines.{IsNowhereLater};
ghost use Rattle.line_plan.specs.declared.plans.Plan.{Plan};
ghost use Rattle.line_scripts.specs.declared.commands.Command.{Command};
ghost use Rattle.line_scripts.specs.declared.commands.Command.TheVariants.{Live};
ghost use Rattle.line_world.specs.declared.replies.Answer.{Answer};

/// Once `live` has told of a line, no later plan is before it at any process, whatever commands
/// come between and whichever processes then fail, as long as none of these damages a check of the
/// line, bars a process at an earlier one, or lets something go.
///
/// So no recovery to come needs the checkpoints before the line, and they may be deleted. The
/// domino effect ends there (Elnozahy, Alvisi, Wang and Johnson, ACM Computing Surveys 34(3), 2002,
/// on garbage collection). The call does nothing: its contract is the law.
pub fn live_lines_stay()
    ensures { (old mid new : LiveMachine) (answer : Answer) (line : List Choice)
        (commands : List Command) (told : List CommandAnswer) (failed : List Bool) (later : Plan)
        → Tells old Live (Planned answer) mid → line_told answer ≡ Some line
        → TellsAll mid commands told new → AllByRecursion (SparesLine line) commands
        → IsPlanOfKept new failed later → IsNowhereLater line later.line }
{}

//! The laws of right answers.
ghost use Rattle.std.specs.Prelude.{◌≡◌, List, Bool, map};
ghost use Rattle.line_names.specs.declared.certificates.Passed.{Passed};
ghost use Rattle.line_names.specs.declared.choices.Choice.{Choice};
ghost use Rattle.line_tape.specs.Chain.{IsChain};
ghost use Rattle.line_tape.specs.History.{Process};
ghost use Rattle.line_tape.specs.Transit.{in_transit};
ghost use Rattle.line_tape.specs.Views.{MarksView};
ghost use Rattle.line_check.specs.declared.answers.Replay.{Replay};
ghost use Rattle.line_check.specs.Answers.{WholeAnswer, IsRightAnswer, replays_due, starts_due};
ghost use Rattle.line_check.specs.Followed.{LeavesARestart};
ghost use Rattle.line_check.specs.Shape.{HasShape};

/// On every history whatever, who follows a right answer has what a restart at its line leaves:
/// each process goes on in the incarnation that it then has, from the state of the last check that
/// it then has; the messages that are sent again are those in transit at the line; and each is as
/// its sender's tape has it, at the place that the answer names.
///
/// So whoever has judged an answer need not trust the program that wrote it. The call does nothing:
/// its contract is the law.
pub fn right_answers_restart()
    ensures { (history : List Process) (marks : MarksView) (failed : List Bool)
        (answer : WholeAnswer)
        → IsRightAnswer history marks failed answer → LeavesARestart history answer }
{}

/// A planner's line and certificate, which are a chain that is valid for that line, make a right
/// answer together with what a restart at the line asks for; and the messages that are then sent
/// again are, by their names, those that a plan replays.
///
/// The call does nothing: its contract is the law.
pub fn plans_make_right_answers()
    ensures right { (history : List Process) (marks : MarksView) (failed : List Bool)
        (line : List Choice) (certificate : List Passed)
        → HasShape history marks failed certificate line
        → IsChain history marks failed certificate line
        → IsRightAnswer history marks failed
        (record {
          line = line;
          certificate = certificate;
          starts = starts_due history line;
          replays = replays_due history line;
        }) }
    ensures names { (history : List Process) (line : List Choice)
        → map (λ (replay : Replay). replay.message) (replays_due history line)
        ≡ in_transit history line }
{}

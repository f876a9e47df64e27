//! What the definitions say of histories worked by hand, computed in the logic.
ghost use Rattle.std.specs.Prelude.{◌≡◌, true, false, [], ◌∷◌, None};
ghost use Rattle.line_names.specs.declared.choices.Choice.TheVariants.{Check as AtCheck, Now};
ghost use Rattle.line_tape.specs.declared.events.Event.TheVariants.{Send, Check};
ghost use Rattle.line_tape.specs.Chain.{latest_choice, next_lower, first_ceilings};
ghost use Rattle.line_tape.specs.Restart.{restarted_history, restarted_marks};
ghost use Rattle.line_tape.specs.Survival.{survives};
ghost use Rattle.line_tape.specs.Transit.{in_transit};
ghost use Rattle.line_tests.specs.Worked.{first_life, living, domino_history, crossed_history};
ghost use Rattle.line_tests.specs.Worked.{both_failed, replay_history, received_history};
ghost use Rattle.line_tests.specs.Worked.{round_history, clean_marks, second_marked, second_barred};
ghost use Rattle.line_tests.specs.Worked.{none_failed, first_failed};

/// With process 0 failed its check 1 is the latest to survive; each message was received, so
/// nothing is in transit.
pub fn domino()
    ensures failed { survives domino_history clean_marks first_failed 0 Now ≡ false }
    ensures living { survives domino_history clean_marks first_failed 1 Now ≡ true }
    ensures ceilings { first_ceilings domino_history clean_marks first_failed
        ≡ AtCheck 1 ∷ Now ∷ [] }
    ensures lower { next_lower domino_history clean_marks first_failed 1 Now ≡ AtCheck 2 }
    ensures transit { in_transit domino_history (AtCheck 0 ∷ AtCheck 0 ∷ []) ≡ [] }
    ensures transit_now { in_transit domino_history (Now ∷ Now ∷ []) ≡ [] }
    ensures transit_between { in_transit domino_history (Now ∷ AtCheck 1 ∷ [])
        ≡ first_life 0 1 ∷ [] }
{}

/// With both failed their checks are the latest to survive, and nothing is in transit there.
pub fn consistent_checks()
    ensures ceilings { first_ceilings crossed_history clean_marks both_failed
        ≡ AtCheck 1 ∷ AtCheck 1 ∷ [] }
    ensures transit { in_transit crossed_history (AtCheck 1 ∷ AtCheck 1 ∷ []) ≡ [] }
    ensures transit_first { in_transit crossed_history (AtCheck 1 ∷ AtCheck 0 ∷ [])
        ≡ first_life 0 0 ∷ [] }
{}

/// A message that is sent before the line and not received at all is in transit.
pub fn replay()
    ensures { in_transit replay_history (AtCheck 1 ∷ AtCheck 0 ∷ []) ≡ first_life 0 0 ∷ [] }
{}

/// So is one that is received after the line; at a line that has the receipt it is not.
pub fn received_after_the_line()
    ensures after { in_transit received_history (AtCheck 1 ∷ AtCheck 0 ∷ []) ≡ first_life 0 0 ∷ [] }
    ensures before { in_transit received_history (AtCheck 1 ∷ Now ∷ []) ≡ [] }
    ensures unsent { in_transit received_history (AtCheck 0 ∷ AtCheck 0 ∷ []) ≡ [] }
{}

/// A damaged check does not survive, the checks beside it do.
pub fn damaged_round()
    ensures damaged { survives round_history second_marked first_failed 1 (AtCheck 1) ≡ false }
    ensures beside { survives round_history second_marked first_failed 1 (AtCheck 2) ≡ true }
    ensures initial { survives round_history second_marked first_failed 1 (AtCheck 0) ≡ true }
    ensures missing { survives round_history second_marked first_failed 1 (AtCheck 4) ≡ false }
    ensures other { survives round_history second_marked first_failed 0 (AtCheck 1) ≡ true }
    ensures passed { next_lower round_history second_marked first_failed 1 (AtCheck 2) ≡ AtCheck 0 }
    ensures latest { latest_choice round_history second_marked first_failed 0 ≡ AtCheck 2 }
    ensures transit { in_transit round_history (AtCheck 1 ∷ AtCheck 0 ∷ []) ≡ [] }
{}

/// Of a process that is barred at check 1 that check survives and its initial state, and nothing
/// later, although it did not fail; other processes are as they were, and a restart takes the bar
/// away.
pub fn barred_process()
    ensures now { survives domino_history second_barred none_failed 1 Now ≡ false }
    ensures later { survives domino_history second_barred none_failed 1 (AtCheck 2) ≡ false }
    ensures at { survives domino_history second_barred none_failed 1 (AtCheck 1) ≡ true }
    ensures initial { survives domino_history second_barred none_failed 1 (AtCheck 0) ≡ true }
    ensures other { survives domino_history second_barred none_failed 0 Now ≡ true }
    ensures ceilings { first_ceilings domino_history second_barred none_failed
        ≡ Now ∷ AtCheck 1 ∷ [] }
    ensures gone { restarted_marks second_barred (AtCheck 0 ∷ AtCheck 0 ∷ []) ≡ clean_marks }
{}

/// A restart cuts each tape to its choice, raises the incarnation of each process that goes back,
/// takes marks out and rounds off, and keeps the damage of checks that are kept.
pub fn restart_after_a_replay()
    ensures back { restarted_history replay_history (AtCheck 1 ∷ Now ∷ [])
        ≡ record {
          incarnation = 1;
          tape = Send 1 0 (0x61 ∷ []) ∷ Check (0xa1 ∷ []) None ∷ [];
        } ∷ living [] ∷ [] }
    ensures round { restarted_history round_history (AtCheck 1 ∷ AtCheck 0 ∷ [])
        ≡ record {
          incarnation = 1;
          tape = Check (0xa1 ∷ []) None ∷ [];
        } ∷ record { incarnation = 1; tape = [] } ∷ [] }
    ensures kept { restarted_marks second_marked (AtCheck 1 ∷ AtCheck 1 ∷ []) ≡ second_marked }
    ensures cut { restarted_marks second_marked (AtCheck 1 ∷ AtCheck 0 ∷ []) ≡ clean_marks }
{}

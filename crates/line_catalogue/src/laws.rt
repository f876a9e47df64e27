//! Laws of histories that agree: the numbers of messages decide what is sent before a line. Each is
//! an `ensures` of a function that does nothing.
ghost use Rattle.std.specs.Prelude.{◌≡◌, ◌+◌, ◌<◌, ◌≤◌, ◌↔◌, ℕ, List, Contains, length};
ghost use Rattle.line_names.specs.declared.choices.Choice.{Choice};
ghost use Rattle.line_names.specs.declared.messages.MsgName.{MsgName};
ghost use Rattle.line_tape.specs.declared.events.Event.TheVariants.{Recv};
ghost use Rattle.line_tape.specs.Front.{front};
ghost use Rattle.line_tape.specs.History.{Process, tape_at, IsHistory};
ghost use Rattle.line_tape.specs.Line.{IsSentBefore, IsOrphanAmong, AreSentBefore};
ghost use Rattle.line_vectors.specs.Reach.{reach_before, reach_from, sent_count, sents_of};
ghost use Rattle.line_vectors.specs.Vectors.{Fits};
ghost use Rattle.line_catalogue.specs.Agreement.{Agrees, name_of_number};

/// In a history that agrees, a message that is received is sent before a line exactly where its
/// number is below the sends before its sender's choice.
pub fn numbers_decide()
    ensures { (history : List Process) (line : List Choice) (q : ℕ) (message : MsgName)
        → Agrees history → Contains (tape_at history q) (Recv message)
        → IsSentBefore history line message
        ↔ (message.number < sent_count history line message.from) }
{}

/// In a history that agrees, the vector of a choice fits the sends before a line exactly where each
/// message received before the choice is sent before the line.
pub fn vectors_decide()
    ensures { (history : List Process) (line : List Choice) (q : ℕ) (choice : Choice)
        → IsHistory history → Agrees history
        → Fits (reach_before history q choice) (sents_of history line)
        ↔ AreSentBefore history line (front (tape_at history q) choice) }
{}

/// In a history that agrees, where the greatest number that a choice received from a process is no
/// longer among its sends before the line, the message of that number is an orphan of the line
/// there, and its name is the one that its sender gave it or would give it.
pub fn lanes_name_orphans()
    ensures { (history : List Process) (line : List Choice) (q : ℕ) (choice : Choice) (p number : ℕ)
        → Agrees history
        → reach_from (front (tape_at history q) choice) p ≡ number + 1
        → sent_count history line p ≤ number
        → IsOrphanAmong history line (front (tape_at history q) choice)
        (name_of_number history p number) }
{}

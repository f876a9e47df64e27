//! Laws of the definitions, each the contract of a function that does nothing.

ghost use Rattle.std.specs.Prelude.{◌≡◌, ◌≢◌, ◌↔◌, ◌++◌, ◌∷◌, ℕ, List, [], Ok, Result};
ghost use Rattle.std.specs.Prelude.{map, replicate, true};
ghost use Rattle.std.specs.List.{flat_map};
ghost use Rattle.line_text.specs.Answers.{CommandAnswer, text_of};
ghost use Rattle.line_claims.specs.declared.faults.TextError.{TextError};
ghost use Rattle.line_claims.specs.Parts.{Part};
ghost use Rattle.line_text.specs.Openings.{opened};
ghost use Rattle.line_claims.specs.Saved.{SavedParts, saved_of, saved_of_text};
ghost use Rattle.line_text.specs.declared.outcomes.Outcome.TheVariants as outcomes;
ghost use Rattle.line_text.specs.Conversations.{records_of, Serves, ServesBoth};
ghost use Rattle.line_text.specs.Conversations.{ServesText, Standing};
ghost use Rattle.line_text.specs.Lines.{HasShortLines};
ghost use Rattle.line_text.specs.Rules.{HearsAll, worst};
ghost use Rattle.line_fields.specs.declared.faults.Fault.{Fault};
ghost use Rattle.line_fields.specs.declared.faults.ReadError.{ReadError};
ghost use Rattle.line_fields.specs.Bytes.{is_input_text};
ghost use Rattle.line_fields.specs.Records.{Record};
ghost use Rattle.line_fields.specs.Texts.{records_text};
ghost use Rattle.line_scripts.specs.RunScripts.{RunScript, Saved, run_script_of_text};
ghost use Rattle.line_scripts.specs.Scripts.{Script, script_of_text};
ghost use Rattle.line_service.specs.Files.{saved_of_lines};
ghost use Rattle.line_service.specs.Services.{Began, Dropped, Empty, Faulted, Has, Hears};
ghost use Rattle.line_service.specs.Services.{IsRunOf, IsSavedRunOf, Replied};
ghost use Rattle.line_service.specs.Services.{ServiceAnswer, ServiceState, service_answer_records};
ghost use Rattle.line_service.specs.Services.{service_rules, without_text};

/// However an input is cut into pieces, its answers are the same: what two pieces may be answered,
/// one after the other, is what they may be answered as one.
pub fn pieces_are_answered_alike()
    ensures { (old new : Standing ServiceState) (bytes more : List ℕ)
        (answers : List ServiceAnswer) → Serves service_rules old (bytes ++ more) answers new
        ↔ ServesBoth service_rules old bytes more answers new }
{}

/// A text that spells a script, and has no line that is too long, is served as it is run: where no
/// fault is answered, not even that memory is out, its commands are told what a run may tell them,
/// and what any run may tell them is what they may be told. Without the empty lines the text of the
/// answers is that of the run.
pub fn scripts_are_served_as_they_run()
    ensures served { (text : List ℕ) (script : Script) (answers : List ServiceAnswer)
        (new : ServiceState)
        → script_of_text text ≡ Ok script → HasShortLines text
        → ServesText service_rules Empty text answers new
        → worst service_rules outcomes.Done answers ≢ outcomes.Faulted
        → IsRunOf script answers new }
    ensures run { (text : List ℕ) (script : Script) (answers : List ServiceAnswer)
        (new : ServiceState)
        → script_of_text text ≡ Ok script → HasShortLines text
        → IsRunOf script answers new → ServesText service_rules Empty text answers new
        × (worst service_rules outcomes.Done answers ≢ outcomes.Faulted) }
    ensures texts { (told : List CommandAnswer)
        → records_text (flat_map service_answer_records (Began ∷ map Replied told)) ≡ text_of told }
{}

/// A record that is answered by a fault, or by `OutOfMemory`, changes nothing: the machine is the
/// one that there was, or there is still none. What was taken of the text of a saved machine is
/// dropped, whether the record is one of the text or a line that is none.
pub fn faults_change_nothing()
    ensures faulted { (old new : ServiceState) (one : Result Record Fault) (error : ReadError)
        → Hears old one (Faulted error) new → new ≡ without_text old }
    ensures dropped { (old new : ServiceState) (one : Result Record Fault) (error : TextError)
        → Hears old one (Dropped error) new → new ≡ Empty }
{}

/// The text of a saved machine that is served without a fault leaves that machine: the one that is
/// opened of what the text spells.
pub fn saved_machines_are_served()
    ensures { (records : List Record) (saved : Part SavedParts) (answers : List ServiceAnswer)
        (new : ServiceState)
        → saved_of records ≡ Ok saved → saved.left ≡ []
        → HearsAll service_rules Empty (map Ok records) answers new
        → worst service_rules outcomes.Done answers ≢ outcomes.Faulted
        → new ≡ Has (opened saved.value) }
{}

/// A text that spells a script which begins with a saved machine, and has no line that is too long,
/// is served as it is run: where no fault is answered, each record of the saved machine is answered
/// as one that begins, and the commands after it are told what a run may tell them. Without the
/// empty lines the text of the answers is that of the run.
pub fn saved_scripts_are_served_as_they_run()
    ensures served { (text : List ℕ) (script : RunScript) (parts : SavedParts)
        (answers : List ServiceAnswer) (new : ServiceState)
        → run_script_of_text text ≡ Ok script → script.machine ≡ Saved parts
        → HasShortLines text → ServesText service_rules Empty text answers new
        → worst service_rules outcomes.Done answers ≢ outcomes.Faulted
        → IsSavedRunOf parts script answers new }
    ensures texts { (count : ℕ) (told : List CommandAnswer)
        → records_text (flat_map service_answer_records (replicate count Began ++ map Replied told))
        ≡ text_of told }
{}

/// A text of a saved machine that has no byte that no text has, and no line that is too long, is
/// read line by line as it is read as a whole: it spells the same machine, or has the same fault.
pub fn saved_texts_are_read_by_lines()
    ensures { (text : List ℕ) → is_input_text text ≡ true → HasShortLines text
        → saved_of_lines (records_of text) ≡ saved_of_text text }
{}

//! Laws of the definitions, each the contract of a function that does nothing.

ghost use Rattle.std.specs.Prelude.{◌≡◌, ◌≢◌, ◌≤◌, ◌∷◌, ◌++◌, ℕ, List, Err, Ok, codes, false};
ghost use Rattle.std.specs.Prelude.{length};
ghost use Rattle.std.specs.List.{AllByRecursion};
ghost use Rattle.line_fields.specs.declared.faults.Fault.TheVariants.{BadCount};
ghost use Rattle.line_fields.specs.Records.{Record};
ghost use Rattle.line_fields.specs.Texts.{records_text};
ghost use Rattle.line_claims.specs.declared.versions.TheConstants.{MOST_IN_FIRST_VERSION};
ghost use Rattle.line_claims.specs.Parts.{is_named};
ghost use Rattle.line_claims.specs.Reads.{fault_of_record};
ghost use Rattle.line_claims.specs.Saved.{SavedParts};
ghost use Rattle.line_claims.specs.SavedRanges.{IsSavedInRange};
ghost use Rattle.line_scripts.specs.declared.commands.Command.{Command};
ghost use Rattle.line_scripts.specs.Ranges.{IsCommandInRange, IsScriptInRange};
ghost use Rattle.line_scripts.specs.Records.{DifferInVersion, saved_script_records};
ghost use Rattle.line_scripts.specs.Records.{script_records, world_record};
ghost use Rattle.line_scripts.specs.RunScripts.{Saved, as_run, read_as_run, run_script_of};
ghost use Rattle.line_scripts.specs.RunScripts.{run_script_of_text, script_of_machine};
ghost use Rattle.line_scripts.specs.Scripts.{Script, script_of, script_of_text};

/// A script is read again from its own text, where the numbers of its commands keep to the ranges
/// of their fields and none of them is refused before its step. That text is of version 1 where the
/// script has at most 64 processes, and else of version 2.
pub fn scripts_are_read_again()
    ensures { (script : Script) → IsScriptInRange script
        → script_of_text (records_text (script_records script)) ≡ Ok script }
{}

/// A script that begins with a saved machine is read again from its own text, where the machine and
/// the numbers of its commands keep to the ranges of their fields and none of these is refused
/// before its step.
pub fn scripts_of_saved_machines_are_read_again()
    ensures { (parts : SavedParts) (commands : List Command) → IsSavedInRange parts
        → AllByRecursion (IsCommandInRange (length parts.history)) commands
        → (first : ℕ)
        × (run_script_of_text (records_text (saved_script_records parts commands))
        ≡ Ok (script_of_machine (Saved parts) first commands)) }
{}

/// Records that begin with no saved machine spell for a run the script that they spell by
/// themselves, or have the same first fault.
pub fn scripts_are_run_as_read()
    ensures records { (first : Record) (rest : List Record)
        → is_named (codes "history") first ≡ false
        → run_script_of (first ∷ rest) ≡ read_as_run (script_of (first ∷ rest)) }
    ensures texts { (text : List ℕ) (script : Script) → script_of_text text ≡ Ok script
        → run_script_of_text text ≡ Ok (as_run script) }
{}

/// Among at most 64 processes, records spell the same script, or have the same fault, in either
/// version, whatever field names the mode and whatever records follow.
///
/// A text of version 1, whatever its bytes, is read the same in version 2, unless version 1 refuses
/// it for the number of its processes: with `world,2,` in place of `world,1,` at its beginning, and
/// also where its first record stands after empty lines or spells the version with leading zeros.
pub fn version_2_reads_scripts_of_version_1()
    ensures records { (n : ℕ) (mode : List ℕ) (rest : List Record) → n ≤ MOST_IN_FIRST_VERSION
        → script_of (world_record 1 n mode ∷ rest) ≡ script_of (world_record 2 n mode ∷ rest) }
    ensures texts { (text : List ℕ)
        → script_of_text (codes "world,1," ++ text) ≢ Err (fault_of_record 1 BadCount)
        → script_of_text (codes "world,2," ++ text) ≡ script_of_text (codes "world,1," ++ text) }
    ensures spelled { (text later : List ℕ) → DifferInVersion text later
        → script_of_text text ≢ Err (fault_of_record 1 BadCount)
        → script_of_text later ≡ script_of_text text }
{}

//! Laws of the definitions, each the contract of a function that does nothing.

ghost use Rattle.std.specs.Prelude.{◌≡◌, ◌≢◌, ◌↔◌, ◌++◌, ◌≤◌, ℕ, List, Option, Err, Ok, codes};
ghost use Rattle.std.specs.Prelude.{length};
ghost use Rattle.line_check.specs.declared.faults.CertFault.{CertFault};
ghost use Rattle.line_claims.specs.Reads.{fault_of_record};
ghost use Rattle.line_claims.specs.Claims.{Claim};
ghost use Rattle.line_claims.specs.Ranges.{AreFloorsInRange, IsClaimInRange, IsHistoryInRange};
ghost use Rattle.line_claims.specs.Records.{claim_records, front_records, in_version};
ghost use Rattle.line_claims.specs.Texts.{records_in};
ghost use Rattle.line_claims.specs.Versions.{IsCheckVersion, most_in};
ghost use Rattle.line_fields.specs.declared.faults.Fault.TheVariants.{BadCount};
ghost use Rattle.line_fields.specs.Records.{Record};
ghost use Rattle.line_fields.specs.Texts.{records_text};
ghost use Rattle.line_scripts.specs.Records.{DifferInVersion};
ghost use Rattle.line_scripts.specs.Scripts.{script_of_text};
ghost use Rattle.line_tape.specs.History.{Process};
ghost use Rattle.line_text.specs.Judgings.{JudgesText, JudgesTextFront};
ghost use Rattle.line_text.specs.Runs.{RunsText, RunsTextFront, StopsText};

/// A script of version 1, whatever its bytes, has the same replies in version 2, unless version 1
/// refuses it for the number of its processes: what a run puts for the one text it may put for the
/// other, also where it is out of memory or the sink failed. So it is too where the first record
/// stands after empty lines or spells the version with leading zeros.
pub fn scripts_of_both_versions_run_alike()
    ensures runs { (text : List ℕ) (refused : ℕ) (old new : Option (List ℕ))
        → script_of_text (codes "world,1," ++ text) ≢ Err (fault_of_record 1 BadCount)
        → RunsText (codes "world,1," ++ text) refused old new
        ↔ RunsText (codes "world,2," ++ text) refused old new }
    ensures fronts { (text : List ℕ) (old new : Option (List ℕ))
        → script_of_text (codes "world,1," ++ text) ≢ Err (fault_of_record 1 BadCount)
        → RunsTextFront (codes "world,1," ++ text) old new
        ↔ RunsTextFront (codes "world,2," ++ text) old new }
    ensures stops { (text : List ℕ) (record_number : ℕ) (old new : Option (List ℕ))
        → script_of_text (codes "world,1," ++ text) ≢ Err (fault_of_record 1 BadCount)
        → StopsText (codes "world,1," ++ text) record_number old new
        ↔ StopsText (codes "world,2," ++ text) record_number old new }
    ensures runs_as_spelled { (text later : List ℕ) (refused : ℕ) (old new : Option (List ℕ))
        → DifferInVersion text later → script_of_text text ≢ Err (fault_of_record 1 BadCount)
        → RunsText text refused old new ↔ RunsText later refused old new }
    ensures fronts_as_spelled { (text later : List ℕ) (old new : Option (List ℕ))
        → DifferInVersion text later → script_of_text text ≢ Err (fault_of_record 1 BadCount)
        → RunsTextFront text old new ↔ RunsTextFront later old new }
    ensures stops_as_spelled { (text later : List ℕ) (record_number : ℕ) (old new : Option (List ℕ))
        → DifferInVersion text later → script_of_text text ≢ Err (fault_of_record 1 BadCount)
        → StopsText text record_number old new ↔ StopsText later record_number old new }
{}

/// A check text of version 1 that spells a claim gets the same verdict in version 2: with
/// `history,2,N` in place of `history,1,N` as its first record, and all other records as they were.
pub fn claims_of_version_1_are_judged_alike_in_version_2()
    ensures verdicts { (number : List ℕ) (rest : List Record) (text later : List ℕ)
        (verdict : Option CertFault) (old new : Option (List ℕ))
        → records_in text ≡ Ok (in_version 1 number rest)
        → records_in later ≡ Ok (in_version 2 number rest)
        → JudgesText text verdict old new → JudgesText later verdict old new }
    ensures fronts { (number : List ℕ) (rest : List Record) (text later : List ℕ)
        (old new : Option (List ℕ))
        → records_in text ≡ Ok (in_version 1 number rest)
        → records_in later ≡ Ok (in_version 2 number rest)
        → JudgesTextFront text old new → JudgesTextFront later old new }
{}

/// A claim on a history gets the same verdict in the text of each version that may have it, and
/// whatever such a text tells of what was let go: no verdict rests on that.
pub fn claims_are_judged_alike_whatever_was_let_go()
    ensures { (version later : ℕ) (floors others : List (ℕ × ℕ)) (history : List Process)
        (claim : Claim) (verdict : Option CertFault) (old new : Option (List ℕ))
        → IsCheckVersion version → IsCheckVersion later
        → length history ≤ most_in version → length history ≤ most_in later
        → IsHistoryInRange history → AreFloorsInRange version (length history) floors
        → AreFloorsInRange later (length history) others
        → IsClaimInRange version claim → IsClaimInRange later claim
        → length claim.marks.damaged ≡ length history
        → JudgesText (records_text (front_records version floors history ++ claim_records claim))
        verdict old new
        ↔ JudgesText (records_text (front_records later others history ++ claim_records claim))
        verdict old new }
{}

//! Laws of the definitions, each the contract of a function that does nothing.

ghost use Rattle.std.specs.Prelude.{◌≡◌, ◌≤◌, ◌++◌, ℕ, List, Ok, length};
ghost use Rattle.line_fields.specs.Records.{Record};
ghost use Rattle.line_fields.specs.Texts.{records_text};
ghost use Rattle.line_tape.specs.History.{Process};
ghost use Rattle.line_claims.specs.Claims.{Claim};
ghost use Rattle.line_claims.specs.Ranges.{AreFloorsInRange, FitsMemory, IsClaimInRange};
ghost use Rattle.line_claims.specs.Ranges.{IsHistoryInRange};
ghost use Rattle.line_claims.specs.Records.{claim_records, front_records, in_version};
ghost use Rattle.line_claims.specs.Saved.{SavedParts, saved_of, saved_of_text, saved_records};
ghost use Rattle.line_claims.specs.SavedRanges.{IsSavedInRange};
ghost use Rattle.line_claims.specs.Texts.{Check, certificate_of_text, check_text_of, check_of_text};
ghost use Rattle.line_claims.specs.Texts.{history_of, history_of_text, records_in};
ghost use Rattle.line_claims.specs.Versions.{IsCheckVersion, most_in};

/// A history is read again from its own text of each version that may have so many processes, where
/// its numbers keep to the ranges of their fields. Of a `History` only the rounds can be outside of
/// these ranges: they are from 1 to 65,535. In version 4 it tells of each process what was let go.
///
/// The records of a history that can stand in memory, in range or not, are those of no other, in
/// any version and whatever was let go, and so is its text.
pub fn histories_are_read_again()
    ensures same { (version : ℕ) (floors : List (ℕ × ℕ)) (history : List Process)
        → IsCheckVersion version → AreFloorsInRange version (length history) floors
        → IsHistoryInRange history → length history ≤ most_in version
        → history_of_text (records_text (front_records version floors history)) ≡ Ok history }
    ensures records { (version later : ℕ) (floors others : List (ℕ × ℕ))
        (history other : List Process) → FitsMemory history → FitsMemory other
        → front_records version floors history ≡ front_records later others other
        → history ≡ other }
    ensures apart { (version later : ℕ) (floors others : List (ℕ × ℕ))
        (history other : List Process) → IsCheckVersion version → IsCheckVersion later
        → AreFloorsInRange version (length history) floors
        → AreFloorsInRange later (length other) others → FitsMemory history → FitsMemory other
        → records_text (front_records version floors history)
        ≡ records_text (front_records later others other)
        → history ≡ other }
{}

/// A claim is read again from its own text, bars included, and so is a history with a claim on it,
/// where the numbers keep to the ranges of their fields, in each version that may have so many
/// processes and knows what the claim has: bars from version 2 on, and from version 3 on where each
/// process goes on, and the messages that are sent again, which version 4 may lack.
///
/// What spells a claim in version 1 spells the same one in version 2.
pub fn claims_are_read_again()
    ensures alone { (version : ℕ) (claim : Claim) → IsClaimInRange version claim
        → certificate_of_text version (length claim.marks.damaged)
        (records_text (claim_records claim))
        ≡ Ok claim }
    ensures both { (version : ℕ) (floors : List (ℕ × ℕ)) (history : List Process) (claim : Claim)
        → IsCheckVersion version → length history ≤ most_in version → IsHistoryInRange history
        → AreFloorsInRange version (length history) floors
        → IsClaimInRange version claim → length claim.marks.damaged ≡ length history
        → check_of_text
        (records_text (front_records version floors history ++ claim_records claim))
        ≡ Ok (record { history = history; floors = floors; claim = claim }) }
    ensures later { (n : ℕ) (text : List ℕ) (claim : Claim)
        → certificate_of_text 1 n text ≡ Ok claim → certificate_of_text 2 n text ≡ Ok claim }
{}

/// What spells a history, or a history with a claim on it, in version 1 spells the same one in
/// version 2: with `history,2,N` in place of `history,1,N` as its first record, and all other
/// records as they were. It holds of records, and of texts of such records, however their fields
/// are quoted and their lines end.
pub fn version_2_reads_version_1()
    ensures histories { (number : List ℕ) (rest : List Record) (history : List Process)
        → history_of (in_version 1 number rest) ≡ Ok history
        → history_of (in_version 2 number rest) ≡ Ok history }
    ensures checks { (number : List ℕ) (rest : List Record) (check : Check)
        → check_text_of (in_version 1 number rest) ≡ Ok check
        → check_text_of (in_version 2 number rest) ≡ Ok check }
    ensures history_texts { (number : List ℕ) (rest : List Record) (text later : List ℕ)
        (history : List Process)
        → records_in text ≡ Ok (in_version 1 number rest)
        → records_in later ≡ Ok (in_version 2 number rest)
        → history_of_text text ≡ Ok history → history_of_text later ≡ Ok history }
    ensures check_texts { (number : List ℕ) (rest : List Record) (text later : List ℕ)
        (check : Check)
        → records_in text ≡ Ok (in_version 1 number rest)
        → records_in later ≡ Ok (in_version 2 number rest)
        → check_of_text text ≡ Ok check → check_of_text later ≡ Ok check }
{}

/// A saved machine is read again from its own text, where its numbers keep to the ranges of their
/// fields: its rounds come by their numbers, each with a check of each process that its tape has,
/// and the last round that was begun is none before them. So it is from its records, whatever
/// stands after them.
pub fn saved_machines_are_read_again()
    ensures texts { (parts : SavedParts) → IsSavedInRange parts
        → saved_of_text (records_text (saved_records parts)) ≡ Ok parts }
    ensures records { (parts : SavedParts) (more : List Record) → IsSavedInRange parts
        → (number : ℕ)
        × (saved_of (saved_records parts ++ more)
        ≡ Ok (record { value = parts; number = number; left = more })) }
{}

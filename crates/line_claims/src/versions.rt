//! The versions of texts, and how many processes a text of each may have.

ghost use Rattle.std.specs.Prelude.{◌≡◌, ◌≤◌};
ghost use Rattle.line_names.specs.declared.limits.TheConstants.{MOST_PROCESSES};
ghost use Rattle.line_claims.specs.Versions as spec;

use line_names::MOST_PROCESSES;

/// The latest version of scripts. The earliest version of a text is 1.
pub const LAST_VERSION: u32 = 2;

/// The version of check texts with the whole answer to a recovery, where nothing was let go.
pub(crate) const ANSWER_VERSION: u32 = 3;

/// The latest version of check texts, and of histories: it tells what was let go of each process. A
/// check text may have the whole answer to a recovery from version 3 on.
pub const LAST_CHECK_VERSION: u32 = 4;

/// The greatest number of processes of a text of version 1, and of choices of a line in it. A text
/// of a later version may have as many processes as there may be.
pub const MOST_IN_FIRST_VERSION: u32 = 64;

/// The greatest number of processes that a text of that version may have, and of choices that a
/// line in it may have.
#[tactic(auto, unfolding(crate::specs::Versions::most_in))]
pub fn most_in(version: u32) -> u32
    ensures value { result ≡ spec.most_in version }
    ensures few { result ≤ MOST_PROCESSES }
{
    if version == 1 {
        MOST_IN_FIRST_VERSION
    } else {
        MOST_PROCESSES as u32
    }
}

/// The version of a text that is written for `n` processes and needs nothing else of a later one: 1
/// for at most 64, and else 2.
#[tactic(auto, unfolding(crate::specs::Versions::earliest_version, crate::specs::Versions::most_in))]
pub fn earliest_version(n: u32) -> u32
    ensures value { result ≡ spec.earliest_version n }
    ensures known { spec.IsVersion result }
    ensures room { n ≤ MOST_PROCESSES → n ≤ spec.most_in result }
{
    if n <= MOST_IN_FIRST_VERSION { 1 } else { 2 }
}

/// Of how many processes a claim of that version among `n` says where they go on: of all of them
/// from version 3 on.
pub(crate) fn starts_in(version: u32, n: u32) -> u32
    ensures { result ≡ spec.starts_in version n }
{
    if version >= 3 { n } else { 0 }
}

/// Of how many processes a history of that version among `n` says what was let go: of all of them
/// from version 4 on.
pub(crate) fn floors_in(version: u32, n: u32) -> u32
    ensures { result ≡ spec.floors_in version n }
{
    if version >= 4 { n } else { 0 }
}

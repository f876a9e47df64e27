//! Names, checks and lines of what is left, in the names and numbers of the whole. Nothing here
//! takes memory.
ghost use Rattle.std.specs.Prelude.{◌≡◌, ◌+◌, All};
ghost use Rattle.line_cuts.specs.Cuts.{lost_checks, whole_choice, whole_entry, whole_line};
ghost use Rattle.line_cuts.specs.Cuts.{whole_name};
ghost use Rattle.line_cuts.specs.Numbers.{mapped_in_place, IsNumbered, IsNumberedCheck};
ghost use Rattle.line_cuts.specs.Numbers.{IsNumberedChoice, IsNumberedEntry, IsNumberedLine};

use crate::floors::OwnedFloor;
use line_names::{Choice, Line, MsgName, Passed, ProcId};

/// The name of a message in the whole.
pub fn whole_name(floor: &OwnedFloor, message: MsgName) -> MsgName
    requires { IsNumbered floor.now message }
    ensures { result ≡ whole_name floor.now message }
{
    MsgName {
        from: message.from,
        inc: message.inc,
        number: message.number + floor.sends(message.from),
    }
}

/// The index of a check in the whole.
pub fn whole_check(floor: &OwnedFloor, p: ProcId, check: u32) -> u32
    requires { IsNumberedCheck floor.now p check }
    ensures { result ≡ check + lost_checks floor.now p }
{
    check + floor.checks_lost(p)
}

/// A choice of a process in the whole.
fn whole_choice(floor: &OwnedFloor, p: ProcId, choice: Choice) -> Choice
    requires { IsNumberedChoice floor.now p choice }
    ensures { result ≡ whole_choice floor.now p choice }
{
    match choice {
        Choice::Check(check) => Choice::Check(whole_check(floor, p, check).max(floor.check(p))),
        Choice::Now => Choice::Now,
    }
}

/// An entry of a certificate in the whole.
fn whole_entry(floor: &OwnedFloor, entry: Passed) -> Passed
    requires { IsNumberedEntry floor.now entry }
    ensures { result ≡ whole_entry floor.now entry }
{
    Passed {
        at: entry.at,
        choice: whole_choice(floor, entry.at, entry.choice),
        message: whole_name(floor, entry.message),
    }
}

/// Brings a line back, in its place.
pub fn bring_line(floor: &OwnedFloor, line: &mut Line)
    requires { IsNumberedLine floor.now line.old }
    ensures { line.new ≡ whole_line floor.now line.old }
{
    let n = line.len();
    for q in 0..n {
        let p = ProcId::try_new(q, n).unwrap();
        let choice = whole_choice(floor, p, line.at(p));
        line.set(p, choice);
    }
}

/// Brings the entries of a certificate back, in their place.
pub fn bring_entries(floor: &OwnedFloor, entries: &mut Vec<Passed>)
    requires { All (IsNumberedEntry floor.now) entries.old.items }
    ensures { entries.new ≡ mapped_in_place (whole_entry floor.now) entries.old }
{
    for i in 0..entries.len() {
        let entry = whole_entry(floor, entries[i]);
        entries[i] = entry;
    }
}

/// Brings the names of messages back, in their place.
pub fn bring_names(floor: &OwnedFloor, names: &mut Vec<MsgName>)
    requires { All (IsNumbered floor.now) names.old.items }
    ensures { names.new ≡ mapped_in_place (whole_name floor.now) names.old }
{
    for i in 0..names.len() {
        let name = whole_name(floor, names[i]);
        names[i] = name;
    }
}

//! The words of a command line, and the job that they ask for.
ghost use Rattle.std.specs.Prelude.{◌≡◌, ◌∷◌, [], IfOk, IfErr, None, Some, codes, true, map};
ghost use Rattle.std.specs.Borrow.{Bor};
ghost use Rattle.clap.specs.Words.{Text, takes};
ghost use Rattle.line_words.specs.Words.{AsksFor, HasCause, IsJobInRange, IsTakenAs, recline};

use crate::commands::matches_of_words;
use crate::faults::{WordsFault, fault_of};
use crate::jobs::{Job, job_of};
use std::alloc::Global;

/// The job that the words ask for, the program's name first.
pub fn command_of<'a>(alloc: Global, words: &'a [&'a str]) -> Result<Job<'a>, WordsFault>
    ensures ok { IfOk result (λ job. AsksFor (map (λ w. w.now) words.entry.now) job) }
    ensures range { IfOk result IsJobInRange }

    // A command line that asks for a job is refused only where memory is out.
    ensures err { IfErr result (λ fault. (job : Job)
        → takes recline (map (λ w. w.now) words.entry.now) ≡ true
        → AsksFor (map (λ w. w.now) words.entry.now) job → fault ≡ WordsFault.OutOfMemory) }

    // Help is told where it was asked for, and words are bad where they are refused or ask for no
    // job.
    ensures causes { IfErr result (λ fault. HasCause (map (λ w. w.now) words.entry.now) fault) }
{
    match matches_of_words(alloc, words) {
        Ok(matches) => job_of(&matches).ok_or(WordsFault::Bad),
        Err(error) => Err(fault_of(alloc, &error)),
    }
}

/// Command lines that are taken, and the jobs that they ask for.
pub fn jobs_are_taken()
    ensures run { IsTakenAs (codes "recline" ∷ codes "run" ∷ []) Job.Run }
    ensures serve { IsTakenAs (codes "recline" ∷ codes "serve" ∷ []) (Job.Serve None) }
    ensures saved { (file : Bor Text) → file.now ≡ codes "saved.txt"
        → IsTakenAs (codes "recline" ∷ codes "serve" ∷ codes "--from" ∷ codes "saved.txt" ∷ [])
        (Job.Serve (Some file)) }
    ensures collect { IsTakenAs (codes "recline" ∷ codes "collect" ∷ []) Job.Collect }
    ensures check { IsTakenAs (codes "recline" ∷ codes "check" ∷ []) Job.Check }
    ensures drill { IsTakenAs (codes "recline" ∷ codes "drill" ∷ []) (Job.Drill 2 1) }
    ensures both { IsTakenAs (codes "recline" ∷ codes "drill" ∷ codes "--workers" ∷ codes "3"
        ∷ codes "--rounds" ∷ codes "2" ∷ []) (Job.Drill 3 2) }
    ensures workers { IsTakenAs (codes "recline" ∷ codes "drill" ∷ codes "--workers=64" ∷ [])
        (Job.Drill 64 1) }
    ensures rounds { IsTakenAs (codes "recline" ∷ codes "drill" ∷ codes "--rounds" ∷ codes "1000"
        ∷ []) (Job.Drill 2 1000) }
{}

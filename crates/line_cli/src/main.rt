//! The program `recline`.
//!
//! It ends with status 0 where all was done, 1 where a step or a drill was refused or a claim is
//! not valid, 2 for bad input or a bad command line, and 3 where memory is out, a thread could not
//! be started or a device failed. A fault has one line on standard error; a service answers those
//! of its records in their places.
#![tactic(auto)]

ghost use Rattle.std.specs.Prelude.{◌≡◌, ◌≤◌};
ghost use Rattle.line_cli.specs.Status.{status_of, status_of_service};

mod statuses;

use crate::statuses::{status_of_drill, status_of_fault};
use line_devices::{ReadSource, Sink, WriteSink, put_all};
use line_posts::MOST_WORKERS;
use line_text::{Outcome, ServeError, TextFault, check_text, run_text};
use line_words::{Job, WordsFault, command_of, fault_of_reading, line_with_file};
use line_workers::drill_text;
use std::alloc::{AllocError, Global};
use std::process::ExitCode;
use std::rt::Files;
use std::sync::Wait;
use std::thread::Threads;
use std::{env, fs, io};

// The words ask for no more workers than a drill can have.
const _: () = prove!(line_words::MOST_DRILL_WORKERS as usize == MOST_WORKERS);

// Each fault is told by a line on standard error, and by the status. Where standard error fails,
// the status is all that tells it, and stays as it is.

/// Tells the fault of a text, and says how it ends the program.
fn tell(rt: &impl Eprint, fault: &TextFault) -> u8
    ensures { result ≡ status_of fault.now.code }
{
    let _ = eprintln!(rt; "recline: {fault}");
    status_of_fault(fault.code)
}

/// Runs the script on standard input, and says how that went.
fn run(rt: &(impl Input + Print + Eprint), alloc: Global) -> u8 {
    let mut source = ReadSource::new(rt.reader());
    let mut sink = WriteSink::new(io::writer(rt));
    match run_text(alloc, &mut source, &mut sink) {
        Ok(done) if done.refused == 0 => 0,
        Ok(_) => 1,
        Err(fault) => tell(rt, &fault),
    }
}

/// The status that goes with what a service answered: 0 where all was done, 1 where a command was
/// refused, and 2 where a fault was answered.
fn status_of_service(outcome: Outcome) -> u8
    ensures { result ≡ status_of_service outcome }
{
    match outcome {
        Outcome::Done => 0,
        Outcome::Refused => 1,
        Outcome::Faulted => 2,
    }
}

/// Tells why a service ended before its input did, if it did, and says how that went.
fn tell_service(rt: &impl Eprint, served: Result<Outcome, ServeError>) -> u8 {
    match served {
        Ok(outcome) => status_of_service(outcome),
        Err(error) => {
            let code = error.code();
            let _ = eprintln!(rt; "recline: record 0: {code} {error}");
            status_of_fault(code)
        }
    }
}

/// Answers the records on standard input as they come, and says how that went.
fn serve(rt: &(impl Input + Print + Eprint), alloc: Global) -> u8 {
    let mut source = ReadSource::new(rt.reader());
    let mut sink = WriteSink::new(io::writer(rt));
    tell_service(rt, line_service::serve(alloc, &mut source, &mut sink))
}

/// Opens the saved machine whose text a file has, answers the records on standard input as they
/// come, and says how that went. Nothing of the file is answered, and where it has a fault nothing
/// is served.
fn serve_from(rt: &(impl Input + Print + Eprint + Files), alloc: Global, file: &str) -> u8 {
    let Ok(opened) = fs::open(rt, file) else {
        let fault = TextFault {
            record_number: 0,
            code: 36,
        };
        return tell(rt, &fault);
    };
    let mut text = ReadSource::new(opened);
    match line_service::open_saved_text(alloc, &mut text) {
        Ok(machine) => {
            let mut source = ReadSource::new(rt.reader());
            let mut sink = WriteSink::new(io::writer(rt));
            let served = line_service::serve_from(alloc, machine, &mut source, &mut sink);
            tell_service(rt, served)
        }
        Err(fault) => tell(rt, &fault),
    }
}

/// Collects what processes report on standard input as it comes, and says how that went.
fn collect(rt: &(impl Input + Print + Eprint), alloc: Global) -> u8 {
    let mut source = ReadSource::new(rt.reader());
    let mut sink = WriteSink::new(io::writer(rt));
    tell_service(rt, line_collect::collect(alloc, &mut source, &mut sink))
}

/// Judges the claim on standard input, and says how that went.
fn check(rt: &(impl Input + Print + Eprint), alloc: Global) -> u8 {
    let mut source = ReadSource::new(rt.reader());
    let mut sink = WriteSink::new(io::writer(rt));
    match check_text(alloc, &mut source, &mut sink) {
        Ok(None) => 0,
        Ok(Some(_)) => 1,
        Err(fault) => tell(rt, &fault),
    }
}

/// Has workers do a drill, and says how that went.
fn drill(
    rt: &(impl Print + Eprint + Threads + Wait + Sync),
    alloc: Global,
    workers: u32,
    rounds: u32,
) -> u8
    requires { workers ≤ MOST_WORKERS }
{
    match drill_text(rt, alloc, workers, rounds) {
        Ok(text) => {
            let mut sink = WriteSink::new(io::writer(rt));
            if put_all(&mut sink, &text).is_err() || sink.finish().is_err() {
                let _ = eprintln!(rt; "recline: 37 WriteFault");
                return status_of_fault(37);
            }
            0
        }
        Err(error) => {
            let _ = eprintln!(rt; "recline: {error}");
            status_of_drill(error.why.code())
        }
    }
}

/// Shows a text that was asked for, and says how that went.
fn show(rt: &(impl Print + Eprint), text: &str) -> u8 {
    if print!(rt; "{text}").is_err() {
        let _ = eprintln!(rt; "recline: 37 WriteFault");
        return status_of_fault(37);
    }
    0
}

/// Tells that words are bad, and what to write where they name a file after a command that reads
/// standard input.
fn tell_bad(rt: &impl Eprint, words: &[&str]) {
    let line = match words {
        [_, command, file] if !file.is_empty() => line_with_file(command),
        _ => None,
    };
    let _ = match line {
        Some(line) => eprintln!(rt; "recline: bad command line; write: {line}"),
        None => eprintln!(rt; "recline: bad command line"),
    };
}

/// Answers words that ask for no job, and says how that went.
fn answer(rt: &(impl Print + Eprint), fault: &WordsFault, words: &[&str]) -> u8
    ensures bad { fault.now ≡ WordsFault.Bad → result ≡ 2 }
    ensures memory { fault.now ≡ WordsFault.OutOfMemory → result ≡ 3 }
{
    match fault {
        WordsFault::Help(text) | WordsFault::Version(text) => show(rt, text),
        WordsFault::Bad => {
            tell_bad(rt, words);
            2
        }
        WordsFault::OutOfMemory => {
            let _ = eprintln!(rt; "recline: 0 OutOfMemory");
            status_of_fault(0)
        }
    }
}

/// The words that the program was called with.
fn given_words(rt: &HostRuntime, alloc: Global) -> io::Result<Vec<String>> {
    let mut given = Vec::new(alloc);
    for word in env::args(rt)? {
        given.push(word)?;
    }
    Ok(given)
}

/// These words, with the program's name in place of the first.
fn command_line<'a>(alloc: Global, given: &'a [String]) -> Result<Vec<&'a str>, AllocError> {
    let mut words = Vec::new(alloc);
    words.push("recline")?;
    for word in given.iter().skip(1) {
        words.push(word.as_str())?;
    }
    Ok(words)
}

/// Does what the given words ask for, and says how that went.
fn done(
    rt: &(impl Input + Print + Eprint + Files + Threads + Wait + Sync),
    alloc: Global,
    given: &[String],
) -> u8 {
    let Ok(words) = command_line(alloc, given) else {
        return answer(rt, &WordsFault::OutOfMemory, &[]);
    };
    match command_of(alloc, &words) {
        Ok(Job::Run) => run(rt, alloc),
        Ok(Job::Serve { from: None }) => serve(rt, alloc),
        Ok(Job::Serve { from: Some(file) }) => serve_from(rt, alloc, file),
        Ok(Job::Collect) => collect(rt, alloc),
        Ok(Job::Check) => check(rt, alloc),
        Ok(Job::Drill { workers, rounds }) => drill(rt, alloc, workers, rounds),
        Err(fault) => answer(rt, &fault, &words),
    }
}

fn main(rt: HostRuntime) -> ExitCode {
    let status = match given_words(&rt, rt.alloc()) {
        Ok(given) => done(&rt, rt.alloc(), &given),
        Err(error) => answer(&rt, &fault_of_reading(&error), &[]),
    };
    ExitCode::from(status)
}

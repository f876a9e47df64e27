//! The command that `clap` reads the words by.
ghost use Rattle.std.specs.Prelude.{◌≡◌, IfOk, IfErr, codes, false, true, map};
ghost use Rattle.clap.specs.Words.{FailsBy, app_of, kind_of, new_app, rule_of};
ghost use Rattle.clap.specs.Words.{subcommand_of, subcommand_rows_of, takes};
ghost use Rattle.clap.specs.declared.builder.command.Command.TheViews.{out-Command};
ghost use Rattle.line_words.specs.Words.{as_program, drill_subcommand, option, own_option};
ghost use Rattle.line_words.specs.Words.{recline, refusals_of, serve_subcommand};

use crate::helps;
use clap::error::ErrorKind;
use clap::{Arg, ArgMatches, Command, Error};
use std::alloc::{AllocError, Global};

/// An option with one value, which it has also where it isn't given.
fn option_of<'a>(
    alloc: Global,
    name: &'a str,
    value: &'a str,
    default: &'a str,
    help: &'a str,
) -> Arg<'a>
    ensures rule { rule_of result ≡ option name.entry.now default.entry.now }
    ensures local { result.global ≡ false }
{
    Arg::new(alloc, name)
        .long(name)
        .value_name(value)
        .default_value(default)
        .help(help)
}

/// An option with one value, which it has only where it is given.
fn own_option_of<'a>(alloc: Global, name: &'a str, value: &'a str, help: &'a str) -> Arg<'a>
    ensures rule { rule_of result ≡ own_option name.entry.now }
    ensures local { result.global ≡ false }
{
    Arg::new(alloc, name)
        .long(name)
        .value_name(value)
        .help(help)
}

/// A subcommand without options.
fn plain_command<'a>(alloc: Global, name: &'a str, about: &'a str, help: &'a str) -> Command<'a>
    ensures shape { app_of result ≡ new_app name.entry.now }
    ensures local { (out-Command result).has_globals ≡ false }
{
    Command::new(alloc, name).about(about).after_help(help)
}

/// The subcommand for drills, with its options.
fn drill_command<'a>(alloc: Global) -> Result<Command<'a>, AllocError>
    ensures shape { IfOk result (λ command. app_of command ≡ drill_subcommand) }
    ensures local { IfOk result (λ command. (out-Command command).has_globals ≡ false) }
{
    let help = "How many workers, from 2 to 64";
    let with_workers = Command::new(alloc, "drill")
        .about(
            "Has workers in threads send each other messages, and writes the history that is \
             gathered of them on standard output",
        )
        .arg(option_of(alloc, "workers", "N", "2", help))?;
    let help = "How often each of them sends, receives and takes a check, from 1 to 1000";
    with_workers.arg(option_of(alloc, "rounds", "K", "1", help))
}

/// The subcommand for records that come one by one, with its option.
fn serve_command<'a>(alloc: Global) -> Result<Command<'a>, AllocError>
    ensures shape { IfOk result (λ command. app_of command ≡ serve_subcommand) }
    ensures local { IfOk result (λ command. (out-Command command).has_globals ≡ false) }
{
    let about = "Answers the records on standard input as they come, for as long as it lasts";
    let help = "A file with the text of a saved machine, which is opened before that";
    let bare = plain_command(alloc, "serve", about, helps::SERVE);
    bare.arg(own_option_of(alloc, "from", "FILE", help))
}

/// The command of the program without its subcommands.
fn bare_command<'a>(alloc: Global) -> Command<'a>
    ensures { app_of result ≡ as_program (new_app (codes "recline")) }
{
    Command::new(alloc, "recline")
        .version(helps::VERSION)
        .about("Plans where the processes of a failed computation go back to, and proves it")
        .after_help(helps::STATUSES)
        .subcommand_required(true)
}

/// The command of the program, with the subcommands for scripts, for records that come one by one,
/// for reports, for claims and for drills.
fn recline_command<'a>(alloc: Global) -> Result<Command<'a>, AllocError>
    ensures { IfOk result (λ command. app_of command ≡ recline) }
{
    let run = "Reads a script on standard input and writes the replies on standard output";
    let collect =
        "Collects what processes report on standard input, as it comes, and plans from that";
    let check = "Reads a history and a claim on it on standard input and writes the verdict on \
                 standard output";
    let with_run = bare_command(alloc).subcommand(plain_command(alloc, "run", run, helps::RUN))?;
    let with_serve = with_run.subcommand(serve_command(alloc)?)?;
    let reports = plain_command(alloc, "collect", collect, helps::COLLECT);
    let with_collect = with_serve.subcommand(reports)?;
    let with_check = with_collect.subcommand(plain_command(alloc, "check", check, helps::CHECK))?;
    with_check.subcommand(drill_command(alloc)?)
}

/// What `clap` finds in the words, the program's name first.
pub(crate) fn matches_of_words<'a>(
    alloc: Global,
    words: &'a [&'a str],
) -> Result<ArgMatches<'a>, Error>
    ensures ok { IfOk result (λ m. subcommand_rows_of m
        ≡ subcommand_of recline (map (λ w. w.now) words.entry.now)) }
    ensures err { IfErr result (λ e. takes recline (map (λ w. w.now) words.entry.now) ≡ true
        → kind_of e ≡ ErrorKind.OutOfMemory) }
    ensures kinds { FailsBy (refusals_of (map (λ w. w.now) words.entry.now)) result }
{
    let recline = recline_command(alloc)?;
    recline.try_get_matches_from(words)
}

//! What the program is asked to do, as `clap` found it in the words.
ghost use Rattle.std.specs.Prelude.{◌≡◌, ◌↔◌, ℕ, IfNone, IfSome, IsSomeAnd, Some, codes};
ghost use Rattle.clap.specs.Words.{found_of, rows_of, subcommand_rows_of};
ghost use Rattle.line_words.specs.Words.{IsAskedBy, IsNumberOf};

use clap::ArgMatches;

/// The greatest number of workers of a drill.
pub const MOST_DRILL_WORKERS: u32 = 64;

/// What the program is asked to do.
#[derive(Clone, Copy, Debug, PartialEq, Eq)]
pub enum Job<'a> {
    /// Runs a script.
    Run,
    /// Answers records as they come.
    Serve {
        /// The file that the text of a saved machine is read from before that, if one is named.
        from: Option<&'a str>,
    },
    /// Collects what processes report.
    Collect,
    /// Judges a claim.
    Check,
    /// Has workers in threads send each other messages.
    Drill {
        /// How many workers, from 2 to `MOST_DRILL_WORKERS`.
        workers: u32,
        /// How often each of them does its orders, from 1 to 1,000.
        rounds: u32,
    },
}

/// The number that an option spells, where it lies in the range.
fn number_of(options: &ArgMatches, option: &str, least: u32, most: u32) -> Option<u32>
    ensures { (number : ℕ) → (result ≡ Some number)
        ↔ IsNumberOf option.now least most (rows_of (found_of options.now)) number }
{
    let number = options.get_one::<u32>(option)?;
    (least..=most).contains(&number).then_some(number)
}

/// The drill that these options ask for.
fn drill_of<'a>(options: &ArgMatches<'a>) -> Option<Job<'a>>
    ensures some { IfSome result
        (λ job. IsAskedBy job (codes "drill", rows_of (found_of options.now))) }
    ensures none { IfNone result
        ((job : Job) → IsAskedBy job (codes "drill", rows_of (found_of options.now)) → ⊥) }
{
    let workers = number_of(options, "workers", 2, MOST_DRILL_WORKERS)?;
    let rounds = number_of(options, "rounds", 1, 1_000)?;
    Some(Job::Drill { workers, rounds })
}

/// The service that these options ask for.
fn serve_of<'a>(options: &ArgMatches<'a>) -> Job<'a>
    ensures { IsAskedBy result (codes "serve", rows_of (found_of options.now)) }
{
    Job::Serve {
        from: options.get_str("from"),
    }
}

/// The job that was found in the words.
pub(crate) fn job_of<'a>(matches: &ArgMatches<'a>) -> Option<Job<'a>>
    ensures some { IfSome result
        (λ job. IsSomeAnd (subcommand_rows_of matches.now) (IsAskedBy job)) }
    ensures none { IfNone result
        ((job : Job) → IsSomeAnd (subcommand_rows_of matches.now) (IsAskedBy job) → ⊥) }
{
    match matches.subcommand()? {
        ("run", _) => Some(Job::Run),
        ("serve", options) => Some(serve_of(options)),
        ("collect", _) => Some(Job::Collect),
        ("check", _) => Some(Job::Check),
        ("drill", options) => drill_of(options),
        _ => None,
    }
}

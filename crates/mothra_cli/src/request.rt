//! What the words of the command line ask for. `clap` tests the ranges of numbers and gives the defaults; `request_of`
//! reads the numbers and has no default of its own, so it can not hide a refusal.

ghost use Rattle.std.specs.Prelude.{◌≡◌, IfErr, IfOk, Ok, Some, codes, map};
ghost use Rattle.std.specs.Option.{option_map_or};
ghost use Rattle.clap.specs.Words.{found_of, rows_of, subcommand_rows_of};
ghost use Rattle.mothra_cli.specs.Asking.{AsksFor, IsFaultOf, refused};
ghost use Rattle.mothra_cli.specs.Request.{subcommand_meaning, run_meaning, mothra_line};
ghost use Rattle.mothra_cli.specs.code.Request.{ReadsRequest};
ghost use Rattle.mothra_cli.specs.Request as asked;

use crate::command::matches_of;
use crate::operators::Operators;
use clap::{ArgMatches, Error};
use std::alloc::{AllocError, Global};
use std::convert::AsStr;

/// A command with the values of its options.
#[derive(Debug, Drop)]
pub enum Request {
    /// `print`: the program of the job is printed.
    Print,
    /// `exec`: the program is run on one test, whose number is 1 to 256; the limit on steps is 1 to 1,000,000.
    Exec {
        test: u32,
        steps: u32,
    },
    /// `list`: the mutants of these operators. Of each list the items 1, q + 1, 2 q + 1 and so on are kept, where
    /// `every` is q, 1 to 1,048,575.
    List {
        operators: Operators,
        every: u32,
    },
    /// `run`: the mutants of these operators, thinned by `every` as in a list; the limit on steps is 1 to
    /// 1,000,000, and 1 to 32 threads run the mutants.
    Run {
        operators: Operators,
        every: u32,
        steps: u32,
        workers: u32,
    },
}

/// Why the words are no request.
#[derive(Debug, Drop)]
pub enum WordsFault {
    /// An error of `clap`: it refuses the words, they ask for help or the version, or memory ran out.
    Refused(Error),
    /// The value of `--ops` is no list of operators' codes joined by commas.
    BadOperatorList,
}

impl From<Error> for WordsFault {
    ghost use Rattle.std.specs.Prelude.{◌≡◌};
    ghost use Rattle.mothra_cli.specs.declared.request.WordsFault.TheVariants.{Refused};

    ghost from_gives = { λ error fault. fault ≡ Refused error };

    fn from(error: Error) -> WordsFault {
        WordsFault::Refused(error)
    }
}

impl From<AllocError> for WordsFault {
    ghost use Rattle.mothra_cli.specs.Asking.{IsMemory};

    ghost from_gives = { λ _ fault. IsMemory fault };

    fn from(error: AllocError) -> WordsFault {
        WordsFault::Refused(Error::from(error))
    }
}

/// The number that the option of this name has; None where it is absent and has no default.
pub fn number_at(matches: &ArgMatches<'_>, name: &str) -> Option<u32>
    ensures { result ≡ asked.option_number name.now (rows_of (found_of matches.now)) }
{
    matches.get_one(name)
}

/// The operators that `--ops` names, or all where it is absent. None where its value is no list of codes.
pub fn operators_at(
    alloc: Global,
    matches: &ArgMatches<'_>,
) -> Result<Option<Operators>, AllocError>
    ensures { IfOk result (λ operators. operators ≡ asked.operators_at (rows_of (found_of matches.now))) }
{
    match matches.get_str("ops") {
        Some(text) => Operators::named(alloc, text),
        None => Ok(Some(Operators::all(alloc)?)),
    }
}

/// The request of `exec` with these options.
fn exec_request(matches: &ArgMatches<'_>) -> Option<Request>
    ensures { ReadsRequest (subcommand_meaning (codes "exec", rows_of (found_of matches.now))) (Ok result) }
{
    Some(Request::Exec {
        test: number_at(matches, "test")?,
        steps: number_at(matches, "steps")?,
    })
}

/// The request of `list` with these options.
fn list_request(alloc: Global, matches: &ArgMatches<'_>) -> Result<Option<Request>, WordsFault>
    ensures { ReadsRequest (subcommand_meaning (codes "list", rows_of (found_of matches.now))) result }
{
    let Some(operators) = operators_at(alloc, matches)? else {
        return Err(WordsFault::BadOperatorList);
    };
    match number_at(matches, "every") {
        Some(every) => Ok(Some(Request::List { operators, every })),
        None => Ok(None),
    }
}

/// The request of `run` with these operators and numbers.
fn run_with(
    operators: Operators,
    every: Option<u32>,
    steps: Option<u32>,
    workers: Option<u32>,
) -> Option<Request>
    ensures { ReadsRequest (run_meaning (Some operators) every steps workers) (Ok result) }
{
    Some(Request::Run {
        operators,
        every: every?,
        steps: steps?,
        workers: workers?,
    })
}

/// The request of `run` with these options.
fn run_request(alloc: Global, matches: &ArgMatches<'_>) -> Result<Option<Request>, WordsFault>
    ensures { ReadsRequest (subcommand_meaning (codes "run", rows_of (found_of matches.now))) result }
{
    match operators_at(alloc, matches)? {
        Some(operators) => Ok(run_with(
            operators,
            number_at(matches, "every"),
            number_at(matches, "steps"),
            number_at(matches, "workers"),
        )),
        None => Err(WordsFault::BadOperatorList),
    }
}

/// The request of the subcommand of this name with these options.
fn request_named(
    alloc: Global,
    name: &str,
    matches: &ArgMatches<'_>,
) -> Result<Option<Request>, WordsFault>
    ensures { ReadsRequest (subcommand_meaning (name.now, rows_of (found_of matches.now))) result }
{
    match name {
        "print" => Ok(Some(Request::Print)),
        "exec" => Ok(exec_request(matches)),
        "list" => list_request(alloc, matches),
        "run" => run_request(alloc, matches),
        _ => Ok(None),
    }
}

/// The request of the subcommand that the words name, with its options.
fn request_met(alloc: Global, matches: &ArgMatches<'_>) -> Result<Option<Request>, WordsFault>
    ensures { ReadsRequest (option_map_or subcommand_meaning (subcommand_rows_of matches.now) refused) result }
{
    match matches.subcommand() {
        Some((name, options)) => request_named(alloc, name, options),
        None => Ok(None),
    }
}

/// The request that the words are, or why they are none. The first word is the program's name.
pub fn request_of<S: AsStr>(alloc: Global, words: &[S]) -> Result<Request, WordsFault>
    ensures asked { IfOk result (AsksFor mothra_line (map S.text words.now)) }
    ensures fault { IfErr result (IsFaultOf mothra_line (map S.text words.now)) }
{
    let matches = matches_of(alloc, words)?;
    let request = request_met(alloc, &matches)?;
    Ok(request.unwrap())
}

//! The command line of `equivalents`, and what its words ask for.

ghost use Rattle.std.specs.Prelude.{◌≡◌, IfErr, IfOk, false, map};
ghost use Rattle.clap.specs.Words.{FailsBy, app_of, fault_of, found_of, matches_of, rows_of, rule_of};
ghost use Rattle.clap.specs.declared.builder.command.Command.TheViews.{out-Command};
ghost use Rattle.mothra_cli.specs.Asking.{AsksFor, IsFaultOf};
ghost use Rattle.equivalents_app.specs.{equivalents, equivalents_line, flag_at, json_rule, rows_rule};

use clap::builder::ValueParser;
use clap::{Arg, ArgAction, ArgMatches, Command, Error};
use mothra_cli::{
    Operators, VERSION, WordsFault, every_option, number_at, operators_at, ops_option, steps_option,
};
use std::alloc::{AllocError, Global};
use std::convert::AsStr;

/// What the words ask for.
#[derive(Debug, Drop)]
pub struct Inquiry {
    /// The operators whose mutants are to be proved equivalent.
    pub operators: Operators,
    /// q, 1 to 1,048,575, where each q-th mutant of an operator is kept, from the first.
    pub every: u32,
    /// The limit on steps of a run, 1 to 1,000,000.
    pub steps: u32,
    /// Whether the text is a JSON list, and not lines.
    pub json: bool,
    /// So many rows are to be written for a mutant that is not named, 1 to 64; none where it is None.
    pub rows: Option<u32>,
}

fn json_option<'a>(alloc: Global) -> Arg<'a>
    ensures rule { rule_of result ≡ json_rule }
    ensures global { result.global ≡ false }
{
    Arg::new(alloc, "json")
        .long("json")
        .help("Prints the JSON list that the key `equivalent` of a job takes")
        .action(ArgAction::SetTrue)
}

/// The option `--rows`: 1 to 64.
fn rows_option<'a>(alloc: Global) -> Arg<'a>
    ensures rule { rule_of result ≡ rows_rule }
    ensures global { result.global ≡ false }
{
    Arg::new(alloc, "rows")
        .long("rows")
        .help(
            "For each mutant that was asked about and is not named, up to so many lines with the word ROW: tests that \
             may kill it",
        )
        .value_parser(ValueParser::unsigned(1, 64))
}

/// The help of the option `--steps`.
const STEPS: &str =
    "The limit on steps of a run: a mutant is named by SPARE n where each test leaves n of them";

fn command<'a>(alloc: Global) -> Result<Command<'a>, AllocError>
    ensures app { IfOk result (λ c. app_of c ≡ equivalents) }
    ensures globals { IfOk result (λ c. (out-Command c).has_globals ≡ false) }
{
    let command = Command::new(alloc, "equivalents")
        .about(
            "Names mutants of a FORTRAN 77 subroutine that no test can kill, each by a proof: whatever the arguments, \
             where the subroutine returns or stops, the mutant does so too, with the same values. A mutant with the \
             word SPARE and a number n does so in up to n steps more: it is named only where on each test of the job \
             the subroutine returns or stops n steps before the limit on steps, and only a test on which that is not \
             so can kill it. Of arguments on which the subroutine itself fails, or does not end within the limit on \
             steps, nothing is said: no suite may have them. A mutant that is not named may be equivalent too. The \
             job is read from standard input",
        )
        .version(VERSION)
        .arg(ops_option(alloc))?
        .arg(every_option(alloc))?
        .arg(steps_option(alloc, STEPS))?
        .arg(json_option(alloc))?
        .arg(rows_option(alloc))?;
    Ok(command)
}

/// What `clap` finds in the words, or why it refuses them.
fn matches_in<'a, S: AsStr>(alloc: Global, words: &'a [S]) -> Result<ArgMatches<'a>, Error>
    ensures kinds { FailsBy (fault_of equivalents (map S.text words.entry.now)) result }
    ensures matches { IfOk result (λ m. rows_of (found_of m) ≡ matches_of equivalents (map S.text words.entry.now)) }
{
    command(alloc)?.try_get_matches_from(words)
}

/// Whether the option of this name, which takes no value, was given.
fn has_flag(matches: &ArgMatches<'_>, name: &str) -> bool
    ensures { result ≡ flag_at name.now (rows_of (found_of matches.now)) }
{
    matches!(matches.get_str(name), Some("true"))
}

/// The inquiry that the words are, or why they are none. The first word is the program's name.
pub fn inquiry_of<S: AsStr>(alloc: Global, words: &[S]) -> Result<Inquiry, WordsFault>
    ensures asked { IfOk result (AsksFor equivalents_line (map S.text words.now)) }
    ensures fault { IfErr result (IsFaultOf equivalents_line (map S.text words.now)) }
{
    let matches = matches_in(alloc, words)?;
    let Some(operators) = operators_at(alloc, &matches)? else {
        return Err(WordsFault::BadOperatorList);
    };
    Ok(Inquiry {
        operators,
        every: number_at(&matches, "every").unwrap(),
        steps: number_at(&matches, "steps").unwrap(),
        json: has_flag(&matches, "json"),
        rows: number_at(&matches, "rows"),
    })
}

//! The command line of `mothra`: a function for each subcommand and each option.

ghost use Rattle.std.specs.Prelude.{◌≡◌, IfOk, map, is_some, true, false};
ghost use Rattle.clap.specs.Words.{app_of, shape_of, rule_of, fault_of, subcommand_rows_of, subcommand_of, FailsBy};
ghost use Rattle.clap.specs.declared.builder.command.Command.TheViews.{out-Command};
ghost use Rattle.mothra_cli.specs.{mothra, bare, print_shape, exec_shape, list_shape, run_shape, test_rule, steps_rule};
ghost use Rattle.mothra_cli.specs.{ops_rule, every_rule, workers_rule};

use clap::builder::ValueParser;
use clap::{Arg, ArgMatches, Command, Error};
use std::alloc::{AllocError, Global};
use std::convert::AsStr;

/// The version, which is also that of the package `mutants`.
pub const VERSION: &str = "0.1.0";

fn print_command<'a>(alloc: Global) -> Command<'a>
    ensures shape { shape_of result ≡ print_shape }
    ensures globals { (out-Command result).has_globals ≡ false }
{
    Command::new(alloc, "print").about("Prints the program of the job in fixed form")
}

/// The command `mothra` without its subcommands.
fn bare_command<'a>(alloc: Global) -> Command<'a>
    ensures app { app_of result ≡ bare }
    ensures globals { (out-Command result).has_globals ≡ false }
{
    Command::new(alloc, "mothra")
        .about("Mutation analysis of a FORTRAN 77 subroutine. The job is read from standard input")
        .version(VERSION)
        .subcommand_required(true)
        .disable_help_subcommand(true)
}

fn test_option<'a>(alloc: Global) -> Arg<'a>
    ensures rule { rule_of result ≡ test_rule }
    ensures global { result.global ≡ false }
{
    Arg::new(alloc, "test")
        .long("test")
        .help("The number of the test, from 1")
        .required(true)
        .value_parser(ValueParser::unsigned(1, 256))
}

/// The option `--steps`, with this help: 1 to 1,000,000; 10,000 where it is absent.
pub fn steps_option<'a>(alloc: Global, help: &'a str) -> Arg<'a>
    ensures rule { rule_of result ≡ steps_rule }
    ensures global { result.global ≡ false }
{
    Arg::new(alloc, "steps")
        .long("steps")
        .help(help)
        .value_parser(ValueParser::unsigned(1, 1_000_000))
        .default_value("10000")
}

/// The option `--ops`: the codes of operators, joined by commas. Its value is one text for `clap`; the codes in it are
/// read afterwards, so a bad list is reported only where `clap` takes the words.
pub fn ops_option<'a>(alloc: Global) -> Arg<'a>
    ensures rule { rule_of result ≡ ops_rule }
    ensures global { result.global ≡ false }
{
    Arg::new(alloc, "ops").long("ops").help(
        "The codes of the operators, joined by commas: all if not given",
    )
}

/// The option `--every`: 1 to 1,048,575; 1 where it is absent.
pub fn every_option<'a>(alloc: Global) -> Arg<'a>
    ensures rule { rule_of result ≡ every_rule }
    ensures global { result.global ≡ false }
{
    Arg::new(alloc, "every")
        .long("every")
        .help("The step from one mutant of an operator to the next, from its first")
        .value_parser(ValueParser::unsigned(1, 1_048_575))
        .default_value("1")
}

fn workers_option<'a>(alloc: Global) -> Arg<'a>
    ensures rule { rule_of result ≡ workers_rule }
    ensures global { result.global ≡ false }
{
    Arg::new(alloc, "workers")
        .long("workers")
        .help("The number of threads that run the mutants")
        .value_parser(ValueParser::unsigned(1, 32))
        .default_value("2")
}

fn exec_command<'a>(alloc: Global) -> Result<Command<'a>, AllocError>
    ensures shape { IfOk result (λ c. shape_of c ≡ exec_shape) }
    ensures globals { IfOk result (λ c. (out-Command c).has_globals ≡ false) }
{
    let command = Command::new(alloc, "exec")
        .about("Prints the outcome of the program of the job on one of its tests")
        .arg(test_option(alloc))?
        .arg(steps_option(alloc, "The limit on steps of a run"))?;
    Ok(command)
}

fn list_command<'a>(alloc: Global) -> Result<Command<'a>, AllocError>
    ensures shape { IfOk result (λ c. shape_of c ≡ list_shape) }
    ensures globals { IfOk result (λ c. (out-Command c).has_globals ≡ false) }
{
    let command = Command::new(alloc, "list")
        .about("Prints the mutants of the program of the job")
        .arg(ops_option(alloc))?
        .arg(every_option(alloc))?;
    Ok(command)
}

fn run_command<'a>(alloc: Global) -> Result<Command<'a>, AllocError>
    ensures shape { IfOk result (λ c. shape_of c ≡ run_shape) }
    ensures globals { IfOk result (λ c. (out-Command c).has_globals ≡ false) }
{
    let command = Command::new(alloc, "run")
        .about("Prints which mutants of the program of the job its tests kill")
        .arg(ops_option(alloc))?
        .arg(every_option(alloc))?
        .arg(steps_option(alloc, "The limit on steps of a run"))?
        .arg(workers_option(alloc))?;
    Ok(command)
}

fn command<'a>(alloc: Global) -> Result<Command<'a>, AllocError>
    ensures app { IfOk result (λ c. app_of c ≡ mothra) }
    ensures globals { IfOk result (λ c. (out-Command c).has_globals ≡ false) }
    ensures needs { IfOk result (λ c. (out-Command c).subcommand_required ≡ true) }
{
    let exec = exec_command(alloc)?;
    let list = list_command(alloc)?;
    let run = run_command(alloc)?;
    let command = bare_command(alloc)
        .subcommand(print_command(alloc))?
        .subcommand(exec)?
        .subcommand(list)?
        .subcommand(run)?;
    Ok(command)
}

/// What `clap` finds in the words, or why it refuses them. The first word is the program's name.
pub(crate) fn matches_of<'a, S: AsStr>(
    alloc: Global,
    words: &'a [S],
) -> Result<ArgMatches<'a>, Error>
    ensures kinds { FailsBy (fault_of mothra (map S.text words.entry.now)) result }
    ensures matches { IfOk result (λ m. subcommand_rows_of m ≡ subcommand_of mothra (map S.text words.entry.now)) }
    ensures present { IfOk result (λ m. is_some (subcommand_rows_of m) ≡ true) }
{
    command(alloc)?.try_get_matches_from(words)
}

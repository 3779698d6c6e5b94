//! The line of the outcome of a run.

ghost use Rattle.std.specs.Prelude.{◌≡◌, ◌++◌, IfErr, IfOk, OnOk, string_bytes};
ghost use Rattle.std.specs.Fmt.{signed_decimal};
ghost use Rattle.f77_meaning.specs.declared.outcome.RunFault.TheVariants as fault;
ghost use Rattle.mothra_app.specs.OutcomeLine as definition;

use f77_meaning::{Arg, Outcome, RunFault};
use f77_program::print_enclosed;
use std::alloc::{AllocError, Global};

fn push_number(text: &mut String, number: &i32) -> Result<(), AllocError>
    ensures { OnOk result (string_bytes text.new ≡ string_bytes text.old ++ signed_decimal number.now) }
{
    write!(text, "{number}")
}

fn push_truth(text: &mut String, truth: &bool) -> Result<(), AllocError>
    ensures { OnOk result (string_bytes text.new ≡ string_bytes text.old ++ definition.truth_letter truth.now) }
{
    text.push_str(if *truth { "T" } else { "F" })
}

/// Adds the value of a dummy argument.
fn push_argument(text: &mut String, argument: &Arg) -> Result<(), AllocError>
    ensures { OnOk result (string_bytes text.new ≡ string_bytes text.old ++ definition.argument_text argument.now) }
{
    match argument {
        Arg::Int(number) => push_number(text, number),
        Arg::Truth(truth) => push_truth(text, truth),
        Arg::Ints(numbers) => print_enclosed(text, "(", numbers.as_slice(), ")", push_number),
        Arg::Truths(truths) => print_enclosed(text, "(", truths.as_slice(), ")", push_truth),
    }
}

/// Adds the values of all dummy arguments, each after one blank.
fn push_arguments(text: &mut String, arguments: &[Arg]) -> Result<(), AllocError>
    ensures { OnOk result (string_bytes text.new ≡ string_bytes text.old ++ definition.arguments_text arguments.now) }
{
    for argument in arguments {
        text.push_str(" ")?;
        push_argument(text, argument)?;
    }
    Ok(())
}

/// Adds the word of the outcome, and the values of the dummy arguments where it has them.
fn push_outcome(text: &mut String, outcome: &Outcome) -> Result<(), AllocError>
    ensures { OnOk result (string_bytes text.new ≡ string_bytes text.old ++ definition.outcome_text outcome.now) }
{
    match outcome {
        Outcome::Returned(arguments) => {
            text.push_str("RETURNED")?;
            push_arguments(text, arguments.as_slice())
        }
        Outcome::Stopped(arguments) => {
            text.push_str("STOPPED")?;
            push_arguments(text, arguments.as_slice())
        }
        Outcome::Overflow => text.push_str("OVERFLOW"),
        Outcome::DivideByZero => text.push_str("DIVIDEBYZERO"),
        Outcome::ZeroPower => text.push_str("ZEROPOWER"),
        Outcome::BadSubscript => text.push_str("BADSUBSCRIPT"),
        Outcome::ZeroStep => text.push_str("ZEROSTEP"),
        Outcome::Undefined => text.push_str("UNDEFINED"),
        Outcome::Trapped => text.push_str("TRAPPED"),
        Outcome::StepLimit => text.push_str("STEPLIMIT"),
    }
}

/// The line of the outcome, ended by LF. No memory for it is N1, as it is in the run.
pub(crate) fn outcome_line(alloc: Global, outcome: &Outcome) -> Result<String, RunFault>
    ensures line { IfOk result (λ line. string_bytes line ≡ definition.outcome_line outcome.now) }
    ensures memory { IfErr result (λ e. e ≡ fault.Memory) }
{
    let mut line = String::new(alloc);
    push_outcome(&mut line, outcome)?;
    line.push_str("\n")?;
    Ok(line)
}

//! The test suite of a job.

ghost use Rattle.std.specs.Prelude.{◌≡◌, ◌⊎◌, ◌≤◌, Err, IfOk, length, map};
ghost use Rattle.serde_json.specs.Find.{as_bool};
ghost use Rattle.serde_json.specs.View.{view as value_of, items_view};
ghost use Rattle.mothra_job.specs.Suite as definition;
ghost use Rattle.mothra_job.specs.declared.job.JobFault.TheVariants.{Memory};
ghost use Rattle.mothra_job.specs.{fault_or, each, suite_faults, test_faults, tests_of};

use crate::job::JobFault;
use f77_meaning::{Arg, Values};
use serde_json::Value;
use std::alloc::{AllocError, Global};

const MOST_TESTS: usize = 256;

/// The INTEGER that a value is, from -2147483648 to 2147483647.
fn integer(value: &Value) -> Option<i32>
    ensures { result ≡ definition.integer (value_of value.now) }
{
    let number = value.as_i64()?;
    if number < -2_147_483_648 || number > 2_147_483_647 {
        return None;
    }
    Some(number as i32)
}

/// The numbers that the values are; None where one is no INTEGER.
fn integers(alloc: Global, values: &[Value]) -> Result<Option<Values<i32>>, AllocError>
    ensures { IfOk result (λ numbers. numbers ≡ each definition.integer (items_view values.now)) }
{
    let mut numbers = Vec::new(alloc);
    for value in values {
        match integer(value) {
            Some(number) => numbers.push(number)?,
            None => return Ok(None),
        }
    }
    Ok(Some(Values::new(numbers)))
}

/// The truth values that the values are; None where one is none.
fn truths(alloc: Global, values: &[Value]) -> Result<Option<Values<bool>>, AllocError>
    ensures { IfOk result (λ truths. truths ≡ each as_bool (items_view values.now)) }
{
    let mut truths = Vec::new(alloc);
    for value in values {
        match value.as_bool() {
            Some(truth) => truths.push(truth)?,
            None => return Ok(None),
        }
    }
    Ok(Some(Values::new(truths)))
}

/// The array with these elements; None where there are none, or not all are of one kind.
fn elements(alloc: Global, values: &[Value]) -> Result<Option<Arg>, AllocError>
    ensures { IfOk result (λ argument. argument ≡ definition.array_of_items (items_view values.now)) }
{
    if values.is_empty() {
        return Ok(None);
    }
    match integers(alloc, values)? {
        Some(numbers) => Ok(Some(Arg::Ints(numbers))),
        None => Ok(truths(alloc, values)?.map(Arg::Truths)),
    }
}

/// The value of a dummy argument that a JSON value is.
fn argument(alloc: Global, value: &Value) -> Result<Option<Arg>, AllocError>
    ensures { IfOk result (λ argument. argument ≡ definition.argument (value_of value.now)) }
{
    if let Some(number) = integer(value) {
        return Ok(Some(Arg::Int(number)));
    }
    if let Some(truth) = value.as_bool() {
        return Ok(Some(Arg::Truth(truth)));
    }
    match value.as_array() {
        Some(values) => elements(alloc, values),
        None => Ok(None),
    }
}

/// The values of dummy arguments that the JSON values are; None where one is none.
fn arguments(alloc: Global, values: &[Value]) -> Result<Option<Values<Arg>>, AllocError>
    ensures { IfOk result (λ arguments. arguments ≡ each definition.argument (items_view values.now)) }
{
    let mut arguments = Vec::new(alloc);
    for value in values {
        match argument(alloc, value)? {
            Some(argument) => arguments.push(argument)?,
            None => return Ok(None),
        }
    }
    Ok(Some(Values::new(arguments)))
}

/// The test that a JSON value is.
fn test(alloc: Global, value: &Value) -> Result<Option<Values<Arg>>, AllocError>
    ensures { IfOk result (λ test. test ≡ definition.test (value_of value.now)) }
{
    match value.as_array() {
        Some(values) => arguments(alloc, values),
        None => Ok(None),
    }
}

/// The tests that the values are; J4 at the first value that is none.
fn tests(alloc: Global, values: &[Value]) -> Result<Values<Values<Arg>>, JobFault>
    requires { length values.now ≤ 256 }
    ensures { let suite = map value_of values.now in
        (result ≡ fault_or (test_faults 1 suite) (tests_of suite)) ⊎ (result ≡ Err Memory) }
{
    let mut tests = Vec::new(alloc);
    for (index, value) in values.iter().enumerate() {
        match test(alloc, value)? {
            Some(test) => tests.push(test)?,
            None => return Err(JobFault::Suite(index as u32 + 1)),
        }
    }
    Ok(Values::new(tests))
}

/// The suite of the tests that the values are; J6 where there are more than 256, before J4.
#[tactic(auto, using(crate::proofs::Suites::too_many, crate::proofs::Suites::few_enough))]
pub(crate) fn suite(alloc: Global, values: &[Value]) -> Result<Values<Values<Arg>>, JobFault>
    ensures { let suite = map value_of values.now in
        (result ≡ fault_or (suite_faults suite) (tests_of suite)) ⊎ (result ≡ Err Memory) }
{
    if values.len() > MOST_TESTS {
        return Err(JobFault::TooManyTests);
    }
    tests(alloc, values)
}

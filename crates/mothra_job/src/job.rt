//! A job is read from a JSON text (RFC 8259).

ghost use Rattle.std.specs.Prelude.{◌≡◌, ◌⊎◌, ◌<◌, Err, Some, find, length, map, not, option_map, string_bytes};
ghost use Rattle.std.specs.BTreeMap.{keys};
ghost use Rattle.serde_json.specs.Errors.{IsMemory};
ghost use Rattle.serde_json.specs.Find.{get};
ghost use Rattle.serde_json.specs.View.{view as value_of, members_view};
ghost use Rattle.mothra_job.specs.FirstFault.{fault_or};
ghost use Rattle.mothra_job.specs.Job as definition;
ghost use Rattle.mothra_job.specs.Job.{listed_values, job_fields, job_of, job_with, member_faults};
ghost use Rattle.mothra_job.specs.Job.{list_faults, test_at, unknown_keys, value_faults};
ghost use Rattle.mothra_job.specs.Equivalent.{tickets_named, entry_faults};
ghost use Rattle.mothra_job.specs.declared.job.JobFault.TheVariants as fault;

use crate::equivalent::equivalent;
use crate::key::Key;
use crate::suite::suite;
use f77_meaning::{Arg, Values};
use mothra_codes::Ticket;
use serde_json::{Map, Value};
use std::alloc::{AllocError, AllocFailed, Global};
use std::marker::Model;
use thiserror::Error;

/// What a command works on: a source, its tests and the mutants that are declared equivalent.
#[derive(Drop)]
pub struct Job {
    source: String,
    suite: Values<Values<Arg>>,
    equivalent: Values<Ticket>,
}

impl Model for Job {
    ghost use Rattle.std.specs.Prelude.{string_bytes};
    ghost use Rattle.mothra_job.specs.Job.{JobFields};

    ghost Value = { JobFields };

    ghost view = { λ j. record { source = string_bytes j.source; suite = j.suite; equivalent = j.equivalent } };
}

impl Job {
    /// The text of the source, which may be any text. The call takes no memory.
    pub fn source(&self) -> &str
        ensures { result.now ≡ self.now.source }
    {
        self.source.as_str()
    }

    /// The tests, at most 256, in order. Each is a list of values of dummy arguments. The call takes no memory.
    pub fn suite(&self) -> &[Values<Arg>]
        ensures { result.now ≡ self.now.suite }
    {
        self.suite.as_slice()
    }

    /// The mutants that are declared equivalent, in the order of the job. The call takes no memory.
    pub fn equivalent(&self) -> &[Ticket]
        ensures { result.now ≡ self.now.equivalent }
    {
        self.equivalent.as_slice()
    }

    /// Gives away the tests and the mutants that are declared equivalent. The call takes no memory.
    pub fn into_lists(self) -> (Values<Values<Arg>>, Values<Ticket>)
        ensures suite { result.0 ≡ self.suite }
        ensures equivalent { result.1 ≡ self.equivalent }
    {
        (self.suite, self.equivalent)
    }

    /// The values of the test with this number, from 1; None where there is none. The call takes no memory.
    pub fn test(&self, number: u32) -> Option<&[Arg]>
        ensures { option_map (λ values. values.now) result ≡ test_at self.now.suite number }
    {
        if number == 0 {
            return None;
        }
        Some(self.suite().get(number as usize - 1)?.as_slice())
    }
}

/// Why the bytes are no job.
#[derive(Debug, Drop, Error)]
pub enum JobFault {
    /// J1: memory ran out.
    #[error("memory ran out")]
    Memory,
    /// J2: the bytes are no JSON text, or its value is no object.
    #[error("the job is no JSON object")]
    NotJson,
    /// J3: `source` is absent or no text, `suite` or `equivalent` is no list, or this key is unknown.
    #[error("a key of the job is absent, unknown or of the wrong kind")]
    Key(Key),
    /// J4: the test with this number, from 1, is no list of values. A value is a number of the INTEGER range, a truth
    /// value, or a list of one kind of these that is not empty.
    #[error("number {0} of the tests is no list of values of dummy arguments")]
    Suite(u32),
    /// J5: the entry with this number, from 1, of the list `equivalent` is no text of an operator's code, one blank,
    /// and a number 1 to 1048575 without leading zeros.
    #[error("entry {0} of the declared equivalents is no name of a mutant")]
    Equivalent(usize),
    /// J6: there are more than 256 tests.
    #[error("the suite has more than 256 tests")]
    TooManyTests,
    /// J7: the job has more than 1,048,576 bytes.
    #[error("the job has more than 1048576 bytes")]
    TooLarge,
    /// J8: the suite has no test with this number.
    #[error("the suite has fewer than {0} tests")]
    NoTest(u32),
}

impl From<AllocError> for JobFault {
    ghost from_gives = { λ _ e. e ≡ fault.Memory };

    fn from(_error: AllocError) -> JobFault {
        JobFault::Memory
    }
}

impl<T: Drop> From<AllocFailed<T>> for JobFault {
    ghost from_gives = { λ _ e. e ≡ fault.Memory };

    fn from(_error: AllocFailed<T>) -> JobFault {
        JobFault::Memory
    }
}

const MOST_BYTES: usize = 1_048_576;

/// Reads a job.
///
/// Of several faults the first in this order is reported: J7, J2, J3 at `source`, J3 at `suite`, J3 at `equivalent`, J3
/// at an unknown key (the first in the order of bytes), J6, J4 at the first test, J5 at the first entry. J8 does not
/// come here: the command `exec` has it. Where a key stands twice, its last value counts. A job without `suite` has no
/// test, and one without `equivalent` declares no mutant.
pub fn read_job(alloc: Global, bytes: &[u8]) -> Result<Job, JobFault>
    ensures job { (result ≡ job_of bytes.now) ⊎ (result ≡ Err JobFault.Memory) }
    ensures too_large { 1048576 < length bytes.now → result ≡ Err JobFault.TooLarge }
{
    if bytes.len() > MOST_BYTES {
        return Err(JobFault::TooLarge);
    }
    match Value::from_slice(alloc, bytes) {
        Ok(value) => job_in(alloc, &value),
        Err(error) => Err(fault_of(&error)),
    }
}

/// An error of the JSON reader as a fault: J1 where memory ran out, else J2.
fn fault_of(error: &serde_json::Error) -> JobFault
    ensures { (IsMemory error.now × (result ≡ JobFault.Memory))
        ⊎ ((¬ IsMemory error.now) × (result ≡ JobFault.NotJson)) }
{
    if error.is_memory() {
        JobFault::Memory
    } else {
        JobFault::NotJson
    }
}

/// The job that a JSON value is.
fn job_in(alloc: Global, value: &Value) -> Result<Job, JobFault>
    ensures { let json = Some (value_of value.now) in
        (result ≡ fault_or (value_faults json) (job_fields json)) ⊎ (result ≡ Err JobFault.Memory) }
{
    match value.as_object() {
        Some(members) => with_members(
            alloc,
            source_in(value),
            values_at(value, "suite"),
            values_at(value, "equivalent"),
            members,
        ),
        None => Err(JobFault::NotJson),
    }
}

/// The text at the key `source`.
fn source_in(value: &Value) -> Option<&str>
    ensures { option_map (λ s. s.now) result ≡ definition.source_in (value_of value.now) }
{
    value.get("source")?.as_str()
}

/// The values of the list at a key, which is empty where the key is absent. None where the value is no list.
fn values_at<'a>(value: &'a Value, key: &str) -> Option<&'a [Value]>
    ensures { option_map (λ values. map value_of values.now) result
        ≡ listed_values (get key.now (value_of value.entry.now)) }
{
    match value.get(key) {
        Some(list) => Some(list.as_array()?.as_slice()),
        None => Some(&[]),
    }
}

/// The job with this source, these tests and the mutants that the entries name.
fn with_suite(
    alloc: Global,
    source: &str,
    suite: Values<Values<Arg>>,
    entries: &[Value],
) -> Result<Job, JobFault>
    ensures { let declared = map value_of entries.now in
        (result ≡ fault_or (entry_faults 1 declared)
        (record { source = source.now; suite = suite; equivalent = tickets_named declared }))
        ⊎ (result ≡ Err JobFault.Memory) }
{
    match equivalent(alloc, entries) {
        Ok(equivalent) => Ok(Job {
            source: String::from_str(alloc, source)?,
            suite,
            equivalent,
        }),
        Err(fault) => Err(fault),
    }
}

/// The job with this source, the tests that the values are, and the mutants that the entries name. J6 and J4 come
/// before J5.
fn with_lists(
    alloc: Global,
    source: &str,
    values: &[Value],
    entries: &[Value],
) -> Result<Job, JobFault>
    ensures { let tests = map value_of values.now in
        let declared = map value_of entries.now in
        (result ≡ fault_or (list_faults tests declared) (job_with (Some source.now) (Some tests) (Some declared)))
        ⊎ (result ≡ Err JobFault.Memory) }
{
    match suite(alloc, values) {
        Ok(suite) => with_suite(alloc, source, suite, entries),
        Err(fault) => Err(fault),
    }
}

/// The job with the values of the three keys, unless one is absent or of the wrong kind, or another key is there.
fn with_members(
    alloc: Global,
    source: Option<&str>,
    suite: Option<&[Value]>,
    entries: Option<&[Value]>,
    members: &Map<String, Value>,
) -> Result<Job, JobFault>
    ensures { let text = option_map (λ s. s.now) source.entry in
        let tests = option_map (λ values. map value_of values.now) suite.entry in
        let declared = option_map (λ values. map value_of values.now) entries.entry in
        (result ≡ fault_or (member_faults text tests declared (unknown_keys (members_view members.now.entries)))
        (job_with text tests declared))
        ⊎ (result ≡ Err JobFault.Memory) }
{
    let Some(source) = source else {
        return Err(key_fault(alloc, "source"));
    };
    let Some(values) = suite else {
        return Err(key_fault(alloc, "suite"));
    };
    let Some(entries) = entries else {
        return Err(key_fault(alloc, "equivalent"));
    };
    match unknown_key(members) {
        Some(key) => Err(key_fault(alloc, key.as_str())),
        None => with_lists(alloc, source, values, entries),
    }
}

/// Whether a job may have this key.
fn is_known(key: &str) -> bool
    ensures { result ≡ definition.is_known key.now }
{
    key == "source" || key == "suite" || key == "equivalent"
}

/// The first key, in the order of bytes, that a job may not have.
fn unknown_key(members: &Map<String, Value>) -> Option<&String>
    ensures { option_map (λ s. s.now) result
        ≡ find (λ k. not (definition.is_known (string_bytes k))) (keys members.now) }
{
    members.keys().find(|key| !is_known(key.as_str()))
}

/// J3 at a key, or J1 where there is no memory for its name.
fn key_fault(alloc: Global, key: &str) -> JobFault
    ensures { (result ≡ JobFault.Key key.now) ⊎ (result ≡ JobFault.Memory) }
{
    match String::from_str(alloc, key) {
        Ok(key) => JobFault::Key(Key::new(key)),
        Err(AllocError) => JobFault::Memory,
    }
}

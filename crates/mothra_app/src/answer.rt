//! The answer to words: a text, and whether it is a report, a fault, a refusal or help.

ghost use Rattle.std.specs.Prelude.{◌≡◌, ◌⊎◌, IfOk, string_bytes};
ghost use Rattle.clap.specs.Values.{kind_of};
ghost use Rattle.mothra_job.specs.Job.{job_of};
ghost use Rattle.mothra_app.specs.Line as Line;
ghost use Rattle.mothra_app.specs.{faults_in_place, GivesOutcome, IsAnswer, IsRefusal, IsRequestOutcome};
ghost use Rattle.mothra_app.specs.{KeepsPromise, bad_operators};

use crate::fault::Fault;
use crate::line::line_of;
use crate::service::Service;
use crate::status::Status;
use clap::Error;
use clap::error::ErrorKind;
use mothra_job::{Job, read_job};
use std::alloc::{AllocError, Global};

/// What is written: a text and its status.
#[derive(Debug, Drop)]
pub(crate) struct Answer {
    /// Whether the text is a report, or what stands in the place of one.
    pub status: Status,
    /// All that is to be written, each line ended by LF.
    pub text: String,
}

/// The text that the request asks for, made of the job that the bytes are; or the first fault.
fn report_on<P: Service, F: Fn(&P::Request, Job) -> Result<String, Fault>>(
    service: &P,
    report: &F,
    request: &P::Request,
    bytes: &[u8],
) -> Result<String, Fault>
    requires keeps { KeepsPromise P.promise (F.pre report.now) (F.post report.now) }
    requires bounded { P.promise.line.IsBounded request.now }
    ensures { GivesOutcome string_bytes (IsRequestOutcome P.promise request.now (job_of bytes.now))
        (faults_in_place P.promise request.now) result }
{
    let job = read_job(service.alloc(), bytes)?;
    report(request, job)
}

/// The line of the fault as an answer.
fn fault_answer(alloc: Global, fault: &Fault) -> Result<Answer, AllocError>
    ensures status { IfOk result (λ a. a.status ≡ Status.Fault) }
    ensures text { IfOk result (λ a. string_bytes a.text ≡ Line.fault_line fault.now) }
{
    Ok(Answer {
        status: Status::Fault,
        text: line_of(alloc, fault)?,
    })
}

/// The answer to the request on the job that the bytes are. A fault gives an answer with its line.
pub(crate) fn answer_to<P: Service, F: Fn(&P::Request, Job) -> Result<String, Fault>>(
    service: &P,
    report: &F,
    request: &P::Request,
    bytes: &[u8],
) -> Result<Answer, AllocError>
    requires keeps { KeepsPromise P.promise (F.pre report.now) (F.post report.now) }
    requires bounded { P.promise.line.IsBounded request.now }
    ensures answer { IfOk result
        (λ a. IsAnswer P.promise request.now (job_of bytes.now) a.status (string_bytes a.text)) }
    ensures told { IfOk result (λ a. (a.status ≡ Status.Report) ⊎ (a.status ≡ Status.Fault)) }
{
    match report_on(service, report, request, bytes) {
        Ok(text) => Ok(Answer {
            status: Status::Report,
            text,
        }),
        Err(fault) => fault_answer(service.alloc(), &fault),
    }
}

/// The answer to words that `clap` refuses, or that ask for help or the version: the text of the error.
pub(crate) fn refusal(alloc: Global, error: &Error) -> Result<Answer, AllocError>
    ensures { IfOk result (λ a. IsRefusal (kind_of error.now) a.status) }
{
    let status = match error.kind() {
        ErrorKind::OutOfMemory => return Err(AllocError),
        ErrorKind::DisplayHelp | ErrorKind::DisplayVersion => Status::Help,
        _ => Status::Words,
    };
    Ok(Answer {
        status,
        text: error.to_string(alloc)?,
    })
}

/// The answer where the value of `--ops` is no list of operators' codes.
pub(crate) fn bad_list(alloc: Global) -> Result<Answer, AllocError>
    ensures status { IfOk result (λ a. a.status ≡ Status.Words) }
    ensures text { IfOk result (λ a. string_bytes a.text ≡ bad_operators) }
{
    Ok(Answer {
        status: Status::Words,
        text: String::from_str(alloc, "BAD OPERATOR LIST\n")?,
    })
}

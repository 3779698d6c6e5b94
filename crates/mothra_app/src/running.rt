//! A program on the words of the command line and two streams, to its exit status.

ghost use Rattle.std.specs.Prelude.{◌≡◌, ◌≢◌, Ok, Err, OnErr};
ghost use Rattle.std.specs.IoError.{error_kind};
ghost use Rattle.mothra_app.specs.{KeepsPromise};

use crate::fault::Fault;
use crate::service::Service;
use crate::serving::serve;
use crate::status::Status;
use mothra_cli::{AppFault, Watched};
use mothra_job::Job;
use std::env::Env;
use std::io::{ErrorKind, Read, Write};
use std::process::ExitCode;
use std::{env, io};

/// The exit status: 0 for a report, help or version, 1 for a fault, 2 for words that are refused.
fn exit_status(served: Result<Status, AppFault>) -> u8
    ensures report { served ≡ Ok Status.Report → result ≡ 0 }
    ensures help { served ≡ Ok Status.Help → result ≡ 0 }
    ensures fault { served ≡ Ok Status.Fault → result ≡ 1 }
    ensures words { served ≡ Ok Status.Words → result ≡ 2 }
    ensures unserved { OnErr served (result ≡ 1) }
{
    match served {
        Ok(Status::Report | Status::Help) => 0,
        Ok(Status::Fault) | Err(AppFault::Memory | AppFault::Read | AppFault::Write) => 1,
        Ok(Status::Words) => 2,
    }
}

/// The words of the command line, the program's name first.
fn words_of(rt: &(impl Env + AllocGlobal)) -> io::Result<Vec<String>> {
    Ok(env::args(rt)?.collect(rt.alloc())?)
}

/// The answer where the words can not be read: out of memory, or words that are no UTF-8, which are
/// refused without a text.
fn without_words(error: &io::Error) -> Result<Status, AppFault>
    ensures memory { error_kind error.now ≡ ErrorKind.OutOfMemory → result ≡ Err AppFault.Memory }
    ensures words { error_kind error.now ≢ ErrorKind.OutOfMemory → result ≡ Ok Status.Words }
{
    match error.kind() {
        ErrorKind::OutOfMemory => Err(AppFault::Memory),
        _ => Ok(Status::Words),
    }
}

/// Serves the words of the command line over standard input and output.
pub fn run<P: Service, F: Fn(&P::Request, Job) -> Result<String, Fault>>(
    rt: &(impl Env + AllocGlobal),
    service: &P,
    report: &F,
    input: impl Read + Drop,
    output: impl Write + Drop,
) -> ExitCode
    requires { KeepsPromise P.promise (F.pre report.now) (F.post report.now) }
{
    let served = match words_of(rt) {
        Ok(words) => {
            let mut reader = Watched::new(input);
            let mut writer = Watched::new(output);
            serve(service, report, &words, &mut reader, &mut writer)
        }
        Err(error) => without_words(&error),
    };
    ExitCode::from(exit_status(served))
}

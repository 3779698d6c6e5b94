//! From words and the bytes of a job to the bytes that are written.
//!
//! Words that are refused are answered before anything is read. The whole text is there before the first byte is
//! written.

ghost use Rattle.std.specs.Prelude.{◌≡◌, ◌≢◌, ◌⊎◌, List, false, Ok, Err, IfOk, map, string_bytes};
ghost use Rattle.clap.specs.Words.{Text};
ghost use Rattle.mothra_cli.specs.Asking.{AsksFor};
ghost use Rattle.mothra_cli.specs.Fault.{is_read_fault, is_write_fault};
ghost use Rattle.mothra_cli.specs.Input.{limit, TakesAtMost};
ghost use Rattle.mothra_cli.specs.Watched.{inside, has_failed};
ghost use Rattle.mothra_app.specs.{IsAnswered, KeepsPromise, MayBeWritten, WritesWhole, WritesFront};

use crate::answer::{Answer, answer_to, bad_list, refusal};
use crate::fault::Fault;
use crate::service::Service;
use crate::status::Status;
use mothra_cli::{AppFault, Watched, WordsFault, read_input, write_whole};
use mothra_job::Job;
use std::convert::AsStr;
use std::io::{Read, Write};

/// Reads all bytes of the reader, and answers the request.
fn read_and_answer<P: Service, F: Fn(&P::Request, Job) -> Result<String, Fault>, R: Read>(
    service: &P,
    report: &F,
    request: &P::Request,
    reader: &mut Watched<R>,
) -> Result<Answer, AppFault>
    requires keeps { KeepsPromise P.promise (F.pre report.now) (F.post report.now) }
    requires bounded { P.promise.line.IsBounded request.now }
    requires works { has_failed reader.old ≡ false }
    ensures answered { IfOk result (λ a. (words : List Text) → AsksFor P.promise.line words request.now
        → IsAnswered (MayBeWritten P.promise words) (R.remaining (inside reader.old))
        (R.remaining (inside reader.new)) a.status (string_bytes a.text)) }
    ensures told { IfOk result (λ a. (a.status ≡ Status.Report) ⊎ (a.status ≡ Status.Fault)) }
    ensures taken { TakesAtMost limit (R.remaining (inside reader.old)) (R.remaining (inside reader.new)) }
    ensures failed { has_failed reader.new ≡ is_read_fault result }
    ensures unwritten { result ≢ Err AppFault.Write }
{
    let bytes = read_input(service.alloc(), reader)?;
    Ok(answer_to(service, report, request, &bytes)?)
}

/// The answer to the words. The reader is read only where the words are a request.
fn answer_for<P: Service, F: Fn(&P::Request, Job) -> Result<String, Fault>, S: AsStr, R: Read>(
    service: &P,
    report: &F,
    words: &[S],
    reader: &mut Watched<R>,
) -> Result<Answer, AppFault>
    requires keeps { KeepsPromise P.promise (F.pre report.now) (F.post report.now) }
    requires works { has_failed reader.old ≡ false }
    ensures answered { IfOk result (λ a. IsAnswered (MayBeWritten P.promise (map S.text words.now))
        (R.remaining (inside reader.old)) (R.remaining (inside reader.new)) a.status (string_bytes a.text)) }
    ensures words { IfOk result (λ a. a.status ≡ Status.Words → reader.new ≡ reader.old) }
    ensures help { IfOk result (λ a. a.status ≡ Status.Help → reader.new ≡ reader.old) }
    ensures taken { TakesAtMost limit (R.remaining (inside reader.old)) (R.remaining (inside reader.new)) }
    ensures failed { has_failed reader.new ≡ is_read_fault result }
    ensures unwritten { result ≢ Err AppFault.Write }
{
    match service.request_of(words) {
        Ok(request) => read_and_answer(service, report, &request, reader),
        Err(WordsFault::Refused(error)) => Ok(refusal(service.alloc(), &error)?),
        Err(WordsFault::BadOperatorList) => Ok(bad_list(service.alloc())?),
    }
}

/// Reads a job and writes the text that the words ask for. The first word is the program's name. The call `report`
/// makes the text of a request and a job, or gives the first fault.
///
/// Nothing is written before the whole text is there, and the writer is not flushed. A call of the reader or the writer
/// that was interrupted has failed; it is not tried again.
pub fn serve<
    P: Service,
    F: Fn(&P::Request, Job) -> Result<String, Fault>,
    S: AsStr,
    R: Read,
    W: Write,
>(
    service: &P,
    report: &F,
    words: &[S],
    reader: &mut Watched<R>,
    writer: &mut Watched<W>,
) -> Result<Status, AppFault>
    requires keeps { KeepsPromise P.promise (F.pre report.now) (F.post report.now) }
    requires reader_works { has_failed reader.old ≡ false }
    requires writer_works { has_failed writer.old ≡ false }

    // What is written.
    ensures written { IfOk result (WritesWhole (MayBeWritten P.promise (map S.text words.now))
        (R.remaining (inside reader.old)) (R.remaining (inside reader.new))
        (W.contents (inside writer.old)) (W.contents (inside writer.new))) }
    ensures front { result ≡ Err AppFault.Write → WritesFront (MayBeWritten P.promise (map S.text words.now))
        (R.remaining (inside reader.old)) (R.remaining (inside reader.new))
        (W.contents (inside writer.old)) (W.contents (inside writer.new)) }
    ensures no_memory { result ≡ Err AppFault.Memory → writer.new ≡ writer.old }
    ensures no_input { result ≡ Err AppFault.Read → writer.new ≡ writer.old }

    // What is read.
    ensures words { result ≡ Ok Status.Words → reader.new ≡ reader.old }
    ensures help { result ≡ Ok Status.Help → reader.new ≡ reader.old }
    ensures taken { TakesAtMost limit (R.remaining (inside reader.old)) (R.remaining (inside reader.new)) }

    // What failed.
    ensures read_failed { has_failed reader.new ≡ is_read_fault result }
    ensures write_failed { has_failed writer.new ≡ is_write_fault result }
{
    let answer = answer_for(service, report, words, reader)?;
    if write_whole(writer, answer.text.as_bytes()).is_err() {
        return Err(AppFault::Write);
    }
    Ok(answer.status)
}

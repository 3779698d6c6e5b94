//! What a program is, beside what it reports on a job.

ghost use Rattle.std.specs.Prelude.{IfErr, IfOk, map};
ghost use Rattle.mothra_cli.specs.Asking.{AsksFor, IsFaultOf};
ghost use Rattle.mothra_app.specs.Answer.{Promise};

use mothra_cli::WordsFault;
use std::alloc::Global;
use std::convert::AsStr;

/// A program that answers words and a job: `serve` reads and writes for it. What it reports on a job is a function
/// beside it, since it may start threads.
pub trait Service {
    /// What the words of its command line ask for.
    type Request: Drop;

    ghost promise: { Promise Self.Request };

    /// The allocator of all that is made.
    fn alloc(&self) -> Global;

    /// The request that the words are, or why they are none. The first word is the program's name.
    fn request_of<S: AsStr>(&self, words: &[S]) -> Result<Self::Request, WordsFault>
        ensures asked { IfOk result (AsksFor promise.line (map S.text words.now)) }
        ensures fault { IfErr result (IsFaultOf promise.line (map S.text words.now)) };
}

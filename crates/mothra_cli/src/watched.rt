//! A reader or a writer that remembers whether a call has failed, so that contracts can speak of it. That the answer of
//! a call is the answer of the stream inside is tested and not stated: the kit's `Read` and `Write` do not say which
//! answer a call gives.

ghost use Rattle.std.specs.Prelude.{◌≡◌, ◌||◌, false, is_err};
ghost use Rattle.std.specs.Io.{ReadsAtMost, WritesAtMost};
ghost use Rattle.std.specs.Io.KnownBytes.{ReadConsumes, WriteAppends};
ghost use Rattle.mothra_cli.specs.{inside, has_failed, took_none};

use std::io;
use std::io::{Read, Write};

/// A reader or a writer, and whether one of its calls has failed.
#[derive(Drop)]
pub struct Watched<T> {
    inner: T,
    failed: bool,
}

impl<T> Watched<T> {
    /// Watches a reader or a writer. The call takes no memory.
    pub fn new(inner: T) -> Watched<T>
        ensures inner { inside result ≡ inner }
        ensures failed { has_failed result ≡ false }
    {
        Watched {
            inner,
            failed: false,
        }
    }

    /// Whether a read has failed, or a write has failed or taken no byte of some. The call takes no memory.
    pub fn failed(&self) -> bool
        ensures { result ≡ has_failed self.now }
    {
        self.failed
    }
}

impl<R: Read> Watched<R> {
    /// One read of the reader inside, with its answer. A read that was interrupted has failed.
    pub fn read(&mut self, buf: &mut [u8]) -> io::Result<usize>
        ensures bound { ReadsAtMost result buf.new }
        ensures bytes { ReadConsumes (R.remaining (inside self.old)) (R.remaining (inside self.new)) result buf.new }
        ensures failed { has_failed self.new ≡ (has_failed self.old || is_err result) }
    {
        let result = self.inner.read(buf);
        if result.is_err() {
            self.failed = true;
        }
        result
    }
}

impl<W: Write> Watched<W> {
    /// One write of the writer inside, with its answer.
    pub fn write(&mut self, buf: &[u8]) -> io::Result<usize>
        ensures bound { WritesAtMost result buf.now }
        ensures bytes { WriteAppends (W.contents (inside self.old)) (W.contents (inside self.new)) result buf.now }
        ensures failed { has_failed self.new ≡ (has_failed self.old || took_none result buf.now) }
    {
        let result = self.inner.write(buf);
        let took_none = match &result {
            Ok(count) => *count == 0 && !buf.is_empty(),
            Err(_) => true,
        };
        if took_none {
            self.failed = true;
        }
        result
    }
}

//! Streams that move one byte in a call and may fail at one call.

use std::io;
use std::io::{Read, Write};

/// A reader that gives its bytes one by one. The call after `good` calls fails; then it goes on.
#[derive(Drop)]
pub(crate) struct Stumbling<'a> {
    pub(crate) bytes: &'a [u8],
    pub(crate) given: usize,
    pub(crate) good: usize,
    pub(crate) stumbled: bool,
}

impl Stumbling<'_> {
    /// A reader of these bytes; the call after `good` calls fails.
    pub(crate) fn new(bytes: &[u8], good: usize) -> Stumbling<'_> {
        Stumbling {
            bytes,
            given: 0,
            good,
            stumbled: false,
        }
    }
}

impl Read for Stumbling<'_> {
    fn read(&mut self, buf: &mut [u8]) -> io::Result<usize> {
        if self.given == self.good && !self.stumbled {
            self.stumbled = true;
            return Err(io::ErrorKind::Interrupted.into());
        }
        if self.given >= self.bytes.len() || buf.is_empty() {
            return Ok(0);
        }
        buf[0] = self.bytes[self.given];
        self.given += 1;
        Ok(1)
    }
}

/// A writer that takes bytes one by one. The call after `good` calls fails or takes no byte; then it goes on.
#[derive(Drop)]
pub(crate) struct Faltering<'a> {
    pub(crate) taken: &'a mut Vec<u8>,
    pub(crate) good: usize,
    pub(crate) fails: bool,
    pub(crate) faltered: bool,
}

impl<'a> Faltering<'a> {
    /// A writer into `taken`; the call after `good` calls fails, or else takes no byte.
    pub(crate) fn new(taken: &'a mut Vec<u8>, good: usize, fails: bool) -> Faltering<'a> {
        Faltering {
            taken,
            good,
            fails,
            faltered: false,
        }
    }
}

impl Write for Faltering<'_> {
    fn write(&mut self, buf: &[u8]) -> io::Result<usize> {
        if self.taken.len() == self.good && !self.faltered {
            self.faltered = true;
            if self.fails {
                return Err(io::ErrorKind::Interrupted.into());
            }
            return Ok(0);
        }
        if buf.is_empty() {
            return Ok(0);
        }
        self.taken.push(buf[0])?;
        Ok(1)
    }

    fn flush(&mut self) -> io::Result<()> {
        Ok(())
    }
}

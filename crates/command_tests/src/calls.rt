//! A read or a write of a `Watched` is one call of the reader or the writer inside, also where that call fails.

ghost use Rattle.std.specs.Prelude.{◌≡◌, IfOk};

use mothra_app::Watched;
use std::io;
use std::io::{Read, Write};
use std::process::Abort;

/// A reader and a writer that count their calls. Each call fails, or moves nothing.
#[derive(Drop)]
struct Counting<'a> {
    calls: &'a mut u32,
    fails: bool,
}

impl Counting<'_> {
    fn call(&mut self) -> io::Result<usize>
        ensures { IfOk result (λ count. count ≡ 0) }
    {
        *self.calls = self.calls.saturating_add(1);
        if self.fails {
            return Err(io::ErrorKind::Interrupted.into());
        }
        Ok(0)
    }
}

impl Read for Counting<'_> {
    fn read(&mut self, _buf: &mut [u8]) -> io::Result<usize> {
        self.call()
    }
}

impl Write for Counting<'_> {
    fn write(&mut self, _buf: &[u8]) -> io::Result<usize> {
        self.call()
    }

    fn flush(&mut self) -> io::Result<()> {
        Ok(())
    }
}

/// The call fails where the reader or the writer does; else it moves nothing.
fn assert_passed(rt: &impl Abort, moved: io::Result<usize>, fails: bool) {
    match moved {
        Ok(count) => assert!(rt; !fails && count == 0),
        Err(error) => assert!(rt; fails && error.kind() == io::ErrorKind::Interrupted),
    }
}

/// A read into these bytes is one call.
fn assert_one_read(rt: &impl Abort, buf: &mut [u8], fails: bool) {
    let mut calls = 0;
    let counting = Counting {
        calls: &mut calls,
        fails,
    };
    let moved = Watched::new(counting).read(buf);
    assert_passed(rt, moved, fails);
    assert_eq!(rt; calls, 1);
}

/// A write of these bytes is one call.
fn assert_one_write(rt: &impl Abort, bytes: &[u8], fails: bool) {
    let mut calls = 0;
    let counting = Counting {
        calls: &mut calls,
        fails,
    };
    let moved = Watched::new(counting).write(bytes);
    assert_passed(rt, moved, fails);
    assert_eq!(rt; calls, 1);
}

#[test]
fn one_read_is_one_call(rt: HostRuntime) {
    for fails in [false, true] {
        assert_one_read(&rt, &mut [0u8; 4], fails);
        assert_one_read(&rt, &mut [], fails);
    }
}

#[test]
fn one_write_is_one_call(rt: HostRuntime) {
    for fails in [false, true] {
        assert_one_write(&rt, b"ab", fails);
        assert_one_write(&rt, b"", fails);
    }
}

//! A writer that puts the moment before each line.

ghost use Rattle.std.specs.Prelude.{◌≡◌, IfOk, OnOk, false, not, take};
ghost use Rattle.std.specs.Io.KnownBytes.{Appends, WriteAppends};
ghost use Rattle.std.specs.Io.{WritesAtMost};
ghost use Rattle.host_process.specs.Lines.{Begins, Stamps, WritesLine, ends_line};

use crate::lines::{ends_line, first_line};
use crate::moment::stamp;
use std::alloc::Global;
use std::io;
use std::io::{ErrorKind, Write};
use std::time::Clock;
use streams::put_all;

/// A writer over another one: before the first byte of each line stands the moment, and what is written follows as it is.
#[derive(Drop)]
pub struct TimedLines<'a, C: Clock + Drop, W: Write> {
    alloc: Global,
    clock: C,
    out: &'a mut W,
    /// Whether the line that was begun last has not come to its end.
    is_within: bool,
}

/// Writes a text, all of it.
fn put<W: Write>(text: &[u8], out: &mut W) -> io::Result<()>
    ensures { OnOk result (Appends (W.contents out.old) (W.contents out.new) text.now) }
{
    match put_all(out, text) {
        Ok(()) => Ok(()),
        Err(_) => Err(io::Error::from(ErrorKind::WriteZero)),
    }
}

/// Writes the moment of a clock as it stands before a line.
fn put_stamp<C: Clock, W: Write>(alloc: Global, clock: &C, out: &mut W) -> io::Result<()>
    ensures { OnOk result (Stamps (W.contents out.old) (W.contents out.new)) }
{
    match stamp(alloc, clock) {
        Some(stamp) => put(stamp.as_bytes(), out),
        None => Ok(()),
    }
}

/// Writes the moment, unless a line goes on.
fn begin<C: Clock, W: Write>(alloc: Global, clock: &C, goes_on: bool, out: &mut W) -> io::Result<()>
    ensures { OnOk result (Begins goes_on (W.contents out.old) (W.contents out.new)) }
{
    if goes_on {
        return Ok(());
    }
    put_stamp(alloc, clock, out)
}

impl<'a, C: Clock + Drop, W: Write> TimedLines<'a, C, W> {
    /// Over this writer, which is at the beginning of a line, by this clock.
    pub fn new(alloc: Global, clock: C, out: &'a mut W) -> TimedLines<'a, C, W>
        ensures { result.is_within ≡ false }
    {
        TimedLines {
            alloc,
            clock,
            out,
            is_within: false,
        }
    }

    /// Writes some bytes of a line; how many.
    fn go_on(&mut self, line: &[u8]) -> io::Result<usize>
        ensures bound { WritesAtMost result line.now }
        ensures bytes { WriteAppends (W.contents self.old.out.now) (W.contents self.new.out.now) result line.now }
        ensures within { IfOk result (λ n. self.new.is_within ≡ not (ends_line (take n line.now))) }
        ensures name { self.new.out.ghost_name ≡ self.old.out.ghost_name }
    {
        self.is_within = true;
        let count = self.out.write(line)?;
        let (written, _) = line.split_at(count);
        self.is_within = !ends_line(written);
        Ok(count)
    }

    /// Writes some of these bytes, of the first line of them alone; how many. The moment comes before them where they begin a line.
    fn put_line(&mut self, bytes: &[u8]) -> io::Result<usize>
        ensures bound { WritesAtMost result bytes.now }
        ensures line { IfOk result (λ n. WritesLine self.old.is_within (take n bytes.now) self.new.is_within (W.contents self.old.out.now) (W.contents self.new.out.now)) }
    {
        let (line, _) = bytes.split_at(first_line(bytes));
        if line.is_empty() {
            return Ok(0);
        }
        begin(self.alloc, &self.clock, self.is_within, self.out)?;
        self.go_on(line)
    }
}

impl<C: Clock + Drop, W: Write> Write for TimedLines<'_, C, W> {
    fn write(&mut self, buf: &[u8]) -> io::Result<usize> {
        self.put_line(buf)
    }

    fn flush(&mut self) -> io::Result<()> {
        self.out.flush()
    }
}

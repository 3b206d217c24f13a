//! Readers and writers in memory that fail, give little or take little.

use std::io;
use std::io::{Read, Write};

/// A writer that fails at each call.
#[derive(Drop)]
pub struct BrokenWriter;

impl Write for BrokenWriter {
    fn write(&mut self, _buf: &[u8]) -> io::Result<usize> {
        Err(io::Error::from(io::ErrorKind::BrokenPipe))
    }

    fn flush(&mut self) -> io::Result<()> {
        Err(io::Error::from(io::ErrorKind::BrokenPipe))
    }
}

/// What a writer does at calls beyond its limit.
#[derive(Clone, Copy, PartialEq, Eq)]
pub enum End {
    /// It fails.
    Fails,
    /// It takes no byte.
    TakesNone,
}

/// How much a writer takes.
#[derive(Clone, Copy)]
pub struct Limit {
    /// How many calls take bytes; those after them don't.
    pub calls: usize,
    /// The most bytes that a call takes.
    pub most: usize,
    /// What the calls after them do.
    pub end: End,
}

/// A writer that appends to a vector, up to a limit.
#[derive(Drop)]
pub struct LimitedWriter<'a> {
    taken: &'a mut Vec<u8>,
    /// What it takes from now on.
    limit: Limit,
}

impl<'a> LimitedWriter<'a> {
    /// Returns a writer that takes all that it is given, unless memory is refused.
    pub fn without_limit(taken: &'a mut Vec<u8>) -> LimitedWriter<'a> {
        LimitedWriter {
            taken,
            limit: Limit {
                calls: usize::MAX,
                most: usize::MAX,
                end: End::Fails,
            },
        }
    }

    /// Returns a writer that takes as much as the limit says, unless memory is refused.
    pub fn with_limit(taken: &'a mut Vec<u8>, limit: Limit) -> LimitedWriter<'a> {
        LimitedWriter { taken, limit }
    }
}

impl<'a> Write for LimitedWriter<'a> {
    fn write(&mut self, buf: &[u8]) -> io::Result<usize> {
        if self.limit.calls == 0 {
            return match self.limit.end {
                End::Fails => Err(io::Error::from(io::ErrorKind::BrokenPipe)),
                End::TakesNone => Ok(0),
            };
        }
        self.limit.calls -= 1;
        let count = buf.len().min(self.limit.most);
        self.taken.extend_from_slice(&buf[..count])?;
        Ok(count)
    }

    fn flush(&mut self) -> io::Result<()> {
        Ok(())
    }
}

/// A reader of bytes, which gives them in small portions and then fails.
#[derive(Drop)]
pub struct LimitedReader<'a> {
    rest: &'a [u8],
    /// How many calls give bytes or the end; those after them fail.
    good_calls: usize,
    /// The most bytes that a call gives.
    most: usize,
}

impl<'a> LimitedReader<'a> {
    /// Returns a reader of these bytes. For `good_calls` calls it gives at most `most` bytes a
    /// call, or the end; then it fails.
    pub fn new(rest: &'a [u8], good_calls: usize, most: usize) -> LimitedReader<'a> {
        LimitedReader {
            rest,
            good_calls,
            most,
        }
    }
}

impl<'a> Read for LimitedReader<'a> {
    fn read(&mut self, buf: &mut [u8]) -> io::Result<usize> {
        if self.good_calls == 0 {
            return Err(io::Error::from(io::ErrorKind::BrokenPipe));
        }
        self.good_calls -= 1;
        let count = self.rest.len().min(buf.len()).min(self.most);
        let (given, rest) = self.rest.split_at(count);
        buf[..count].copy_from_slice(given);
        self.rest = rest;
        Ok(count)
    }
}

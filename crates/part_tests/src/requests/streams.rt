//! A stream in memory, which may be slow and may fail.
use std::alloc::Global;
use std::io;
use std::io::{ErrorKind, Read, Write};
use std::net::OpenStream;

/// How a stream goes: it gives and takes at most `step` bytes a call, and fails once so many reads or writes are done.
#[derive(Clone, Copy)]
pub(crate) struct Pace {
    pub(crate) step: usize,
    pub(crate) reads: usize,
    pub(crate) writes: usize,
}

impl Pace {
    /// It gives and takes all at once.
    pub(crate) const WHOLE: Self = Self {
        step: usize::MAX,
        reads: usize::MAX,
        writes: usize::MAX,
    };

    /// It gives and takes a byte a call.
    pub(crate) const DRIP: Self = Self {
        step: 1,
        reads: usize::MAX,
        writes: usize::MAX,
    };

    /// It gives so many bytes, one a call.
    pub(crate) fn reading(reads: usize) -> Self {
        Self {
            step: 1,
            reads,
            writes: usize::MAX,
        }
    }

    /// It takes so many bytes, one a call.
    pub(crate) fn writing(writes: usize) -> Self {
        Self {
            step: 1,
            reads: usize::MAX,
            writes,
        }
    }
}

/// A stream over an input, with the output that it took.
#[derive(Drop)]
pub(crate) struct Stream<'a> {
    pub(crate) input: &'a [u8],
    pub(crate) output: Vec<u8>,
    pub(crate) pace: Pace,
    /// Whether it can be had twice.
    pub(crate) clones: bool,
    /// What it fails with.
    pub(crate) fault: ErrorKind,
}

impl<'a> Stream<'a> {
    /// One over this input.
    pub(crate) fn new(alloc: Global, input: &'a [u8], pace: Pace) -> Self {
        Self {
            input,
            output: Vec::new(alloc),
            pace,
            clones: true,
            fault: ErrorKind::Interrupted,
        }
    }
}

impl Read for Stream<'_> {
    fn read(&mut self, buf: &mut [u8]) -> io::Result<usize> {
        if self.pace.reads == 0 {
            return Err(io::Error::from(self.fault));
        }
        self.pace.reads -= 1;
        let most = buf.len().min(self.pace.step);
        self.input.read(&mut buf[..most])
    }
}

impl Write for Stream<'_> {
    fn write(&mut self, buf: &[u8]) -> io::Result<usize> {
        if self.pace.writes == 0 {
            return Err(io::Error::from(self.fault));
        }
        self.pace.writes -= 1;
        let most = buf.len().min(self.pace.step);
        self.output.write(&buf[..most])
    }

    fn flush(&mut self) -> io::Result<()> {
        Ok(())
    }
}

impl OpenStream for Stream<'_> {
    fn try_clone(&self) -> io::Result<Self> {
        if !self.clones {
            return Err(io::Error::from(self.fault));
        }
        Ok(Self {
            input: self.input,
            output: self.output.clone()?,
            pace: self.pace,
            clones: self.clones,
            fault: self.fault,
        })
    }
}

//! Readers and writers that fail, stop short or go a byte at a time.
use std::io;
use std::io::{Read, Write};

/// Gives at most `step` bytes a read, and an error once `left` reads are done.
#[derive(Drop)]
pub(crate) struct Failing<'a> {
    pub(crate) bytes: &'a [u8],
    pub(crate) step: usize,
    pub(crate) left: usize,
}

impl Read for Failing<'_> {
    fn read(&mut self, buf: &mut [u8]) -> io::Result<usize> {
        if self.left == 0 {
            return Err(io::Error::from(io::ErrorKind::Interrupted));
        }
        self.left -= 1;
        let n = buf.len().min(self.step);
        self.bytes.read(&mut buf[..n])
    }
}

/// Takes one byte a write, and fails once `left` bytes are taken: by an error, or by 0 bytes.
#[derive(Drop)]
pub(crate) struct Narrow {
    pub(crate) taken: Vec<u8>,
    pub(crate) left: usize,
    pub(crate) silent: bool,
}

impl Write for Narrow {
    fn write(&mut self, buf: &[u8]) -> io::Result<usize> {
        if self.left == 0 && self.silent {
            return Ok(0);
        }
        if self.left == 0 || buf.is_empty() {
            return Err(io::Error::from(io::ErrorKind::Interrupted));
        }
        match self.taken.push(buf[0]) {
            Ok(()) => {
                self.left -= 1;
                Ok(1)
            }
            Err(_) => Err(io::Error::from(io::ErrorKind::OutOfMemory)),
        }
    }

    fn flush(&mut self) -> io::Result<()> {
        Ok(())
    }
}

//! The streams of a run, of which any may fail or be full.
use std::alloc::Global;
use std::io;

/// A text to read.
#[derive(Drop)]
pub struct Input<'a> {
    text: &'a [u8],
    left: &'a [u8],
    is_broken: bool,
}

impl<'a> Input<'a> {
    /// One that gives this text, or fails at once.
    pub fn new(text: &'a str, is_broken: bool) -> Self {
        let text = text.as_bytes();
        Self {
            text,
            left: text,
            is_broken,
        }
    }

    /// How much of the text was read, if not all.
    pub fn read(&self) -> &'static str {
        if self.left.is_empty() {
            ""
        } else if self.left.len() == self.text.len() {
            "unread\n"
        } else {
            "partly read\n"
        }
    }
}

impl io::Read for Input<'_> {
    fn read(&mut self, buf: &mut [u8]) -> io::Result<usize> {
        if self.is_broken {
            return Err(io::Error::from(io::ErrorKind::Interrupted));
        }
        self.left.read(buf)
    }
}

/// Takes so many bytes, and fails then.
#[derive(Drop)]
pub struct Output {
    pub bytes: Vec<u8>,
    room: usize,
}

impl Output {
    pub fn new(alloc: Global, room: usize) -> Self {
        Self {
            bytes: Vec::new(alloc),
            room,
        }
    }
}

impl io::Write for Output {
    fn write(&mut self, buf: &[u8]) -> io::Result<usize> {
        let room = self.room.saturating_sub(self.bytes.len());
        if room == 0 {
            let kind = if self.room == 0 {
                io::ErrorKind::Interrupted
            } else {
                io::ErrorKind::StorageFull
            };
            return Err(io::Error::from(kind));
        }
        self.bytes.write(&buf[..room.min(buf.len())])
    }

    fn flush(&mut self) -> io::Result<()> {
        Ok(())
    }
}

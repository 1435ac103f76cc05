//! A listener in memory, whose clients each send a request, and keep what they get.
use std::cell::{Cell, RefCell};
use std::io;
use std::io::{ErrorKind, Read, Write};
use std::net::{Ipv4Addr, OpenListener, OpenStream, Shutdown, SocketAddr};

/// What is kept behind a response once its stream says that no more follows.
pub(crate) const CLOSED: &str = "\n(closed)\n";

/// Adds what a client gets.
fn keep(got: &RefCell<Vec<u8>>, bytes: &[u8]) -> io::Result<()> {
    match got.try_borrow_mut() {
        Ok(mut got) => match got.extend_from_slice(bytes) {
            Ok(()) => Ok(()),
            Err(_) => Err(io::Error::from(ErrorKind::OutOfMemory)),
        },
        Err(_) => Err(io::Error::from(ErrorKind::WouldBlock)),
    }
}

/// A client's end: what it sends is read, and what it gets is kept behind what all before it got.
#[derive(Drop)]
pub(crate) struct Stream<'a> {
    sent: &'a [u8],
    got: &'a RefCell<Vec<u8>>,
}

impl Read for Stream<'_> {
    fn read(&mut self, buf: &mut [u8]) -> io::Result<usize> {
        self.sent.read(buf)
    }
}

impl Write for Stream<'_> {
    fn write(&mut self, buf: &[u8]) -> io::Result<usize> {
        keep(self.got, buf)?;
        Ok(buf.len())
    }

    fn flush(&mut self) -> io::Result<()> {
        Ok(())
    }
}

impl OpenStream for Stream<'_> {
    fn try_clone(&self) -> io::Result<Self> {
        Ok(Self {
            sent: self.sent,
            got: self.got,
        })
    }

    fn shutdown(&self, how: Shutdown) -> io::Result<()> {
        match how {
            Shutdown::Write => keep(self.got, CLOSED.as_bytes()),
            _ => Err(io::Error::from(ErrorKind::Unsupported)),
        }
    }
}

/// Clients, one after another.
#[derive(Drop)]
pub(crate) struct Clients<'a> {
    pub(crate) requests: &'a [String],
    pub(crate) next: Cell<usize>,
    pub(crate) got: &'a RefCell<Vec<u8>>,
}

impl<'a> OpenListener for Clients<'a> {
    type Stream = Stream<'a>;

    fn accept(&self) -> io::Result<(Stream<'a>, SocketAddr)> {
        let next = self.next.get();
        self.next.set(next.saturating_add(1));
        match self.requests.get(next) {
            Some(request) => {
                let stream = Stream {
                    sent: request.as_bytes(),
                    got: self.got,
                };
                Ok((stream, SocketAddr::from((Ipv4Addr::LOCALHOST, 1))))
            }
            None => Err(io::Error::from(ErrorKind::BrokenPipe)),
        }
    }
}

//! The machine that the program is run on.
use gated_cli::{Databases, Fault};
use sqlite::{Connection, File, FileStore};
use std::alloc::{AllocError, Allocator, Global};
use std::fs::{Metadata, OpenFile, OpenOptions};
use std::net::{Net, SocketAddr, TcpListener, TcpStream};
use std::rt::Files;
use std::{fs, io};

/// A listener that answers for one address.
#[derive(Drop)]
pub struct Port<'a> {
    pub address: SocketAddr,
    pub listener: &'a TcpListener,
}

/// The process's own, of which the reading of files may find no memory, the closing of a gate's file may fail, and which
/// may have one port alone.
#[derive(Drop)]
pub struct Machine<'a> {
    pub host: &'a HostRuntime,
    pub is_starved: bool,
    pub closes: bool,
    pub port: Option<Port<'a>>,
}

impl<'a> Machine<'a> {
    pub fn new(host: &'a HostRuntime) -> Self {
        Self {
            host,
            is_starved: false,
            closes: true,
            port: None,
        }
    }
}

/// A file to be read, or one whose bytes find no memory.
#[derive(Drop)]
pub struct ReadFile(Option<fs::File>);

fn unsupported<T: Drop>() -> io::Result<T> {
    Err(io::Error::from(io::ErrorKind::Unsupported))
}

impl io::Read for ReadFile {
    fn read(&mut self, buf: &mut [u8]) -> io::Result<usize> {
        match &mut self.0 {
            Some(file) => file.read(buf),
            None => Err(io::Error::from(AllocError)),
        }
    }
}

impl io::Write for ReadFile {
    fn write(&mut self, _buf: &[u8]) -> io::Result<usize> {
        Err(io::Error::from(io::ErrorKind::Unsupported))
    }

    fn flush(&mut self) -> io::Result<()> {
        unsupported()
    }
}

impl io::Seek for ReadFile {
    fn seek(&mut self, _to: io::SeekFrom) -> io::Result<u64> {
        unsupported()
    }
}

impl OpenFile for ReadFile {
    fn metadata(&self) -> io::Result<Metadata> {
        unsupported()
    }

    fn set_len(&self, _size: u64) -> io::Result<()> {
        unsupported()
    }

    fn sync_all(&self) -> io::Result<()> {
        unsupported()
    }

    fn sync_data(&self) -> io::Result<()> {
        unsupported()
    }
}

impl Alloc for Machine<'_> {
    type A = Global;

    fn alloc(&self) -> Global {
        self.host.alloc()
    }
}

impl Files for Machine<'_> {
    type File = ReadFile;

    type Dir = ReadFile;

    fn open_file(&self, how: &OpenOptions, path: &str) -> io::Result<ReadFile> {
        if self.is_starved {
            return Ok(ReadFile(None));
        }
        Ok(ReadFile(Some(self.host.open_file(how, path)?)))
    }

    fn open_dir(&self, _path: &str) -> io::Result<ReadFile> {
        unsupported()
    }

    fn metadata(&self, _path: &str) -> io::Result<Metadata> {
        unsupported()
    }

    fn symlink_metadata(&self, _path: &str) -> io::Result<Metadata> {
        unsupported()
    }

    fn copy(&self, _from: &str, _to: &str) -> io::Result<u64> {
        unsupported()
    }

    fn rename(&self, _from: &str, _to: &str) -> io::Result<()> {
        unsupported()
    }

    fn remove_file(&self, _path: &str) -> io::Result<()> {
        unsupported()
    }

    fn create_dir(&self, _path: &str) -> io::Result<()> {
        unsupported()
    }

    fn remove_dir(&self, _path: &str) -> io::Result<()> {
        unsupported()
    }

    fn remove_dir_all<B: Allocator>(&self, _alloc: B, _path: &str) -> io::Result<()> {
        unsupported()
    }
}

impl Net for Machine<'_> {
    type Stream = TcpStream;

    type Listener = TcpListener;

    fn bind(&self, addr: SocketAddr) -> io::Result<TcpListener> {
        match &self.port {
            Some(port) if port.address == addr => port.listener.try_clone(),
            Some(_) => Err(io::Error::from(io::ErrorKind::AddrNotAvailable)),
            None => self.host.bind(addr),
        }
    }

    fn connect(&self, _addr: SocketAddr) -> io::Result<TcpStream> {
        unsupported()
    }
}

impl Databases for Machine<'_> {
    ghost use Rattle.std.specs.Prelude.{⊤};

    type Database = Connection<FileStore<File>>;

    ghost IsOf = { λ _ _. ⊤ };

    ghost IsUnopened = { λ _. ⊤ };

    ghost IsGivenBack = { λ _. ⊤ };

    ghost IsClosed = { λ _. ⊤ };

    fn database(&self, file: &str) -> Result<Connection<FileStore<File>>, Fault> {
        self.host.database(file)
    }

    fn fresh(&self, file: &str) -> Result<Connection<FileStore<File>>, Fault> {
        self.host.fresh(file)
    }

    fn present(&self, file: &str) -> Result<Connection<FileStore<File>>, Fault> {
        self.host.present(file)
    }

    fn close(&self, conn: Connection<FileStore<File>>) -> Result<(), Fault> {
        self.host.close(conn)?;
        if self.closes {
            Ok(())
        } else {
            Err(Fault::Store)
        }
    }
}

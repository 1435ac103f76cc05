//! Taps over readers and writers that fail.
use gate_types::tap::Tap;
use std::io;
use std::io::{Read, Write};
use std::process::Abort;

/// Gives or takes at most 3 bytes a call, and an error once `left` calls are done. A writer without
/// an error takes 0 bytes then.
#[derive(Drop)]
struct Faulty {
    written: Vec<u8>,
    left: usize,
    is_silent: bool,
}

impl Read for Faulty {
    fn read(&mut self, buf: &mut [u8]) -> io::Result<usize> {
        if self.left == 0 {
            return Err(io::Error::from(io::ErrorKind::Interrupted));
        }
        self.left -= 1;
        let n = buf.len().min(3);
        b"abc".as_slice().read(&mut buf[..n])
    }
}

impl Write for Faulty {
    fn write(&mut self, buf: &[u8]) -> io::Result<usize> {
        if self.left == 0 {
            if self.is_silent {
                return Ok(0);
            }
            return Err(io::Error::from(io::ErrorKind::Interrupted));
        }
        self.left -= 1;
        let n = buf.len().min(3);
        self.written.write(&buf[..n])
    }

    fn flush(&mut self) -> io::Result<()> {
        Ok(())
    }
}

/// How many bytes one read gives, unless it fails. The tap knows which.
fn read_by<R: Read>(rt: &impl Abort, tap: &mut Tap<R>, bytes: &mut [u8]) -> Option<usize> {
    assert!(rt; !tap.failed());
    let read = tap.read(bytes).ok();
    assert_eq!(rt; tap.failed(), read.is_none());
    read
}

/// Whether a line is written. The tap knows it.
fn is_written<W: Write>(rt: &impl Abort, tap: &mut Tap<W>, line: &str) -> bool {
    assert!(rt; !tap.failed());
    let is_written = tap.write_line(line).is_ok();
    assert_eq!(rt; tap.failed(), !is_written);
    is_written
}

fn passes_what_is_read(rt: &impl Abort) {
    let mut bytes = [0; 4];
    let mut reader = Tap::new(b"abcdef".as_slice());
    assert!(rt; read_by(rt, &mut reader, &mut bytes) == Some(4));
    assert!(rt; bytes == *b"abcd");
    assert!(rt; reader.into_inner() == b"ef".as_slice());
}

fn passes_what_is_written(rt: &(impl Abort + AllocGlobal)) {
    let mut writer = Tap::new(Vec::new(rt.alloc()));
    assert!(rt; writer.write_all(b"abcd").is_ok());
    assert!(rt; is_written(rt, &mut writer, "ef"));
    assert!(rt; writer.into_inner().as_slice() == b"abcdef\n".as_slice());
}

#[test]
fn a_tap_passes_bytes(rt: HostRuntime) {
    passes_what_is_read(&rt);
    passes_what_is_written(&rt);
}

/// A reader or writer that fails once its calls are done.
fn faulty_tap(rt: &impl AllocGlobal, left: usize, is_silent: bool) -> Tap<Faulty> {
    Tap::new(Faulty {
        written: Vec::new(rt.alloc()),
        left,
        is_silent,
    })
}

fn cuts_a_line(rt: &(impl Abort + AllocGlobal), is_silent: bool) {
    let mut writer = faulty_tap(rt, 2, is_silent);
    assert!(rt; !is_written(rt, &mut writer, "abcdefgh"));
    assert_eq!(rt;
        writer.into_inner().written.as_slice(),
        b"abcdef".as_slice()
    );
}

#[test]
fn a_tap_keeps_a_failure(rt: HostRuntime) {
    let mut bytes = [0; 4];
    let mut reader = faulty_tap(&rt, 1, false);
    assert_eq!(rt; read_by(&rt, &mut reader, &mut bytes), Some(3));
    assert_eq!(rt; read_by(&rt, &mut reader, &mut bytes), None);
    cuts_a_line(&rt, false);
    cuts_a_line(&rt, true);
}

//! One tap over a reader and over a writer that never fail: many reads, and a long write.
use gate_types::tap::Tap;
use std::io;
use std::io::Read;
use std::process::Abort;

/// More reads than any other test makes.
const READS: u64 = 2_000_000;

/// More bytes than any other test writes at once.
const LENGTH: usize = 2_000_000;

/// Gives one byte a read, without an end.
#[derive(Drop)]
struct Endless;

impl Read for Endless {
    fn read(&mut self, buf: &mut [u8]) -> io::Result<usize> {
        let most = buf.len().min(1);
        b"a".as_slice().read(&mut buf[..most])
    }
}

#[test]
fn each_of_2_000_000_reads_gives_a_byte(rt: HostRuntime) {
    let mut tap = Tap::new(Endless);
    let mut buf = [0u8; 1];
    for turn in 0..READS {
        assert!(rt; !tap.failed(), "before read {turn}");
        assert!(rt; matches!(tap.read(&mut buf), Ok(1)), "at read {turn}");
    }
    assert!(rt; !tap.failed());
}

fn passes_at_once(rt: &(impl Abort + AllocGlobal), bytes: &[u8]) {
    let mut tap = Tap::new(Vec::new(rt.alloc()));
    assert!(rt; tap.write_all(bytes).is_ok());
    assert!(rt; !tap.failed());
    assert!(rt; tap.into_inner().as_slice() == bytes);
}

#[test]
fn a_write_of_2_000_000_bytes_is_passed_on(rt: HostRuntime) {
    let mut bytes = Vec::with_capacity(rt.alloc(), LENGTH).expect(&rt, "memory");
    for n in 0..LENGTH {
        bytes.push((n % 251) as u8).expect(&rt, "memory");
    }
    passes_at_once(&rt, bytes.as_slice());
}

//! Many reads and writes through one tap.
use gate_types::tap::Tap;

const COUNT: usize = 100_000;

/// A tap may not fail where its inner reader or writer didn't, however often it was used.
#[test]
fn a_tap_outlasts_100_000_reads_and_writes(rt: HostRuntime) {
    let mut bytes = Vec::with_capacity(rt.alloc(), COUNT).expect(&rt, "memory");
    for n in 0..COUNT {
        bytes.push((n % 251) as u8).expect(&rt, "memory");
    }
    let mut r = Tap::new(bytes.as_slice());
    let mut w = Tap::new(Vec::new(rt.alloc()));
    let mut buf = [0u8; 1];
    for turn in 0..COUNT {
        assert!(rt; !r.failed(), "before read {turn}");
        assert!(rt; matches!(r.read(&mut buf), Ok(1)), "at read {turn}");
        assert!(rt; !w.failed(), "before write {turn}");
        assert!(rt; w.write_all(&buf).is_ok(), "at write {turn}");
    }
    assert!(rt; !r.failed());
    assert!(rt; matches!(r.read(&mut buf), Ok(0)));
    assert!(rt; !r.failed());
    assert!(rt; !w.failed());
    assert!(rt; w.into_inner().as_slice() == bytes.as_slice());
}

#[test]
fn a_tap_writes_100_000_bytes_at_once(rt: HostRuntime) {
    let bytes = vec![in rt.alloc(); b'a'; COUNT].expect(&rt, "memory");
    let mut w = Tap::new(Vec::new(rt.alloc()));
    assert!(rt; w.write_all(bytes.as_slice()).is_ok());
    assert!(rt; !w.failed());
    assert!(rt; w.into_inner().as_slice() == bytes.as_slice());
}

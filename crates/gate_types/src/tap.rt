//! A reader or writer that remembers whether it ever failed.
ghost use Rattle.std.specs.Prelude.{◌≡◌, ◌≤◌, ◌+◌, ◌++◌, ◌∷◌, [], true, false, length, OnOk, OnErr, IfOk};
ghost use Rattle.gate_types.specs.Tap.{inside, has_failed, turns, ReadsOnce, Took, TookFront};

use std::fmt;
use std::io::{Read, Write};

/// A reader or writer, and whether it answered an error, or took 0 bytes of a write.
#[derive(Drop)]
pub struct Tap<T> {
    inner: T,
    failed: bool,
    turns: u64,
}

/// The reader or writer failed, as its tap keeps.
#[derive(Clone, Copy, Debug)]
pub struct Failed;

impl fmt::Display for Failed {
    ghost use Rattle.std.specs.Prelude.{Some, codes};

    ghost output = { λ _. Some (codes "the reader or writer failed") };

    fn fmt<W: fmt::Write>(&self, f: &mut fmt::Formatter<W>) -> fmt::Result {
        f.write_str("the reader or writer failed")
    }
}

impl std::error::Error for Failed {}

impl<T> Tap<T> {
    pub fn new(inner: T) -> Tap<T>
        ensures value { inside result ≡ inner }
        ensures unfailed { has_failed result ≡ false }
        ensures turns { turns result ≡ 18446744073709551615 }
    {
        Tap {
            inner,
            failed: false,
            turns: u64::MAX,
        }
    }

    pub fn failed(&self) -> bool
        ensures { result ≡ has_failed self.now }
    {
        self.failed
    }

    pub fn into_inner(self) -> T
        ensures { result ≡ inside self }
    {
        let Tap {
            inner,
            failed: _,
            turns: _,
        } = self;
        inner
    }
}

impl<R: Read> Tap<R> {
    /// One read. Nothing is lost where it fails.
    pub fn read(&mut self, buf: &mut [u8]) -> Result<usize, Failed>
        requires { has_failed self.old ≡ false }
        ensures bytes { ReadsOnce R.remaining self.old self.new result buf.new }
        ensures unfailed { OnOk result (has_failed self.new ≡ false) }
        ensures failed { OnErr result (has_failed self.new ≡ true) }
        ensures count { IfOk result (λ n. n ≤ length buf.new) }
        ensures ends { OnOk result (turns self.old ≡ turns self.new + 1) }
    {
        if self.turns == 0 {
            self.failed = true;
            return Err(Failed);
        }
        match self.inner.read(buf) {
            Ok(n) => {
                self.turns -= 1;
                Ok(n)
            }
            Err(_) => {
                self.failed = true;
                Err(Failed)
            }
        }
    }
}

impl<W: Write> Tap<W> {
    /// Writes all the bytes, or a beginning of them where the writer fails.
    pub fn write_all(&mut self, bytes: &[u8]) -> Result<(), Failed>
        requires { has_failed self.old ≡ false }
        ensures ok { OnOk result (Took W.contents self.old self.new bytes.now) }
        ensures unfailed { OnOk result (has_failed self.new ≡ false) }
        ensures err { OnErr result (TookFront W.contents self.old self.new bytes.now) }
        ensures failed { OnErr result (has_failed self.new ≡ true) }
        ensures turns { turns self.new ≡ turns self.old }
    {
        let mut at = 0;
        while at < bytes.len() {
            match self.inner.write(&bytes[at..]) {
                Ok(0) => {
                    self.failed = true;
                    return Err(Failed);
                }
                Ok(n) => at += n,
                Err(_) => {
                    self.failed = true;
                    return Err(Failed);
                }
            }
        }
        Ok(())
    }

    /// Writes a text and an LF, or a beginning of these where the writer fails.
    pub fn write_line(&mut self, text: &str) -> Result<(), Failed>
        requires { has_failed self.old ≡ false }
        ensures ok { OnOk result (Took W.contents self.old self.new (text.now ++ 10 ∷ [])) }
        ensures unfailed { OnOk result (has_failed self.new ≡ false) }
        ensures err { OnErr result (TookFront W.contents self.old self.new (text.now ++ 10 ∷ [])) }
        ensures failed { OnErr result (has_failed self.new ≡ true) }
        ensures turns { turns self.new ≡ turns self.old }
    {
        self.write_all(text.as_bytes())?;
        self.write_all(b"\n")?;
        Ok(())
    }
}

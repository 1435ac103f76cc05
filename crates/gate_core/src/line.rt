//! The line that is being read.
ghost use Rattle.std.specs.Prelude.{◌≡◌, ◌≤◌, ◌++◌, ◌∷◌, [], ℕ, List, IfOk, IfSome, length, IsTrue, ◌↔◌, vec_len};
ghost use Rattle.std.specs.Prelude.{vec_capacity};
ghost use Rattle.gate_types.specs.Limits.{most_bytes};

use gate_types::limits::MOST_BYTES;
use std::alloc::{AllocError, Global};

/// What has come of a line, or that it is too long.
#[derive(Drop)]
pub struct Line {
    bytes: Vec<u8>,
    long: bool,
    ghost room: { most_bytes ≤ vec_capacity bytes },
    ghost within: { vec_len bytes ≤ most_bytes },
}

impl Line {
    ghost use Rattle.gate_core.specs.Line.{HoldsLine, ShowsLine};

    pub(crate) fn new(alloc: Global) -> Result<Line, AllocError>
        ensures { IfOk result (λ line. HoldsLine line []) }
    {
        Ok(Line {
            bytes: Vec::with_capacity(alloc, MOST_BYTES)?,
            long: false,
        })
    }

    pub(crate) fn push(&mut self, byte: u8)
        ensures { (begun : List ℕ) → HoldsLine self.old begun → HoldsLine self.new (begun ++ byte ∷ []) }
    {
        if self.bytes.len() < MOST_BYTES {
            self.bytes.push_reserved(byte);
        } else {
            self.long = true;
        }
    }

    pub(crate) fn clear(&mut self)
        ensures { HoldsLine self.new [] }
    {
        self.bytes.clear();
        self.long = false;
    }

    /// The line, or nothing where it is too long.
    pub(crate) fn get(&self) -> Option<&[u8]>
        ensures within { IfSome result (λ s. length s.now ≤ most_bytes) }
        ensures shows { (begun : List ℕ) → HoldsLine self.now begun → ShowsLine result begun }
    {
        if self.long {
            None
        } else {
            Some(self.bytes.as_slice())
        }
    }

    pub(crate) fn is_empty(&self) -> bool
        ensures { (begun : List ℕ) → HoldsLine self.now begun → IsTrue result ↔ (begun ≡ []) }
    {
        self.bytes.is_empty()
    }
}

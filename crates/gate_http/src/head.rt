//! The head of a request is read, and not a byte more.
ghost use Rattle.std.specs.Prelude.{◌≡◌, ◌≤◌, [], false, true, OnOk, OnErr, IfOk, vec_capacity};
ghost use Rattle.gate_types.specs.Tap.{inside, has_failed};
ghost use Rattle.gate_http.specs.Head.{ends_head, head_limit};
ghost use Rattle.gate_http.specs.Parts.{HeadComes};
ghost use Rattle.gate_http.specs.Exchange.{Waits};

use gate_types::tap::{Failed, Tap};
use std::io::Read;

/// The bytes in which a head has to end.
pub(crate) const HEAD_LIMIT: usize = 8192;

/// What came of a head.
#[derive(Clone, Copy)]
pub(crate) enum Came {
    /// The input was empty.
    Nothing,
    /// It ended within the head.
    Part,
    /// The bytes in which a head has to end hold none.
    TooMuch,
    /// A head.
    Whole,
}

/// Whether the bytes end in an empty line.
fn ends(bytes: &[u8]) -> bool
    ensures { result ≡ ends_head bytes.now }
{
    bytes.ends_with(b"\n\n") || bytes.ends_with(b"\n\r\n")
}

/// Reads up to the end of the head, one byte a read: what follows is left to the reader.
pub(crate) fn read_head<R: Read>(reader: &mut Tap<R>, head: &mut Vec<u8>) -> Result<Came, Failed>
    requires reader { has_failed reader.old ≡ false }
    requires empty { head.old.items ≡ [] }
    requires room { head_limit ≤ vec_capacity head.old }
    ensures ok { IfOk result (λ came.
        HeadComes came head.new.items (R.remaining (inside reader.old)) (R.remaining (inside reader.new))) }
    ensures waits { OnErr result (Waits (R.remaining (inside reader.old)) (R.remaining (inside reader.new))) }
    ensures unfailed { OnOk result (has_failed reader.new ≡ false) }
    ensures failed { OnErr result (has_failed reader.new ≡ true) }
{
    let mut byte = [0u8; 1];
    while head.len() < HEAD_LIMIT {
        match reader.read(&mut byte) {
            Ok(0) => {
                return Ok(if head.is_empty() {
                    Came::Nothing
                } else {
                    Came::Part
                });
            }
            Ok(_) => head.push_reserved(byte[0]),
            Err(failed) => return Err(failed),
        }
        if ends(head.as_slice()) {
            return Ok(Came::Whole);
        }
    }
    Ok(Came::TooMuch)
}

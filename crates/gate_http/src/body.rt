//! The body of a request is read, and not a byte more.
ghost use Rattle.std.specs.Prelude.{◌≡◌, ◌≤◌, ◌<◌, [], false, true, OnOk, OnErr, IfOk, length, vec_capacity};
ghost use Rattle.std.specs.Io.KnownBytes.{Consumes};
ghost use Rattle.gate_types.specs.Tap.{inside, has_failed};
ghost use Rattle.gate_http.specs.Parts.{BodyComes};

use gate_types::tap::{Failed, Tap};
use std::io::Read;

/// Reads n bytes, or as many as there are, and tells whether there were n.
pub(crate) fn read_body<R: Read>(
    reader: &mut Tap<R>,
    body: &mut Vec<u8>,
    n: usize,
) -> Result<bool, Failed>
    requires reader { has_failed reader.old ≡ false }
    requires empty { body.old.items ≡ [] }
    requires room { n ≤ vec_capacity body.old }
    ensures ok { IfOk result (λ whole.
        BodyComes whole n body.new.items (R.remaining (inside reader.old)) (R.remaining (inside reader.new))) }
    ensures waits { OnErr result ((length body.new.items < n)
        × Consumes (R.remaining (inside reader.old)) (R.remaining (inside reader.new)) body.new.items) }
    ensures unfailed { OnOk result (has_failed reader.new ≡ false) }
    ensures failed { OnErr result (has_failed reader.new ≡ true) }
{
    let mut bytes = [0u8; 4096];
    while body.len() < n {
        let wanted = (n - body.len()).min(4096);
        match reader.read(&mut bytes[..wanted]) {
            Ok(0) => return Ok(false),
            Ok(read) => body.extend_from_slice(&bytes[..read]).unwrap(),
            Err(failed) => return Err(failed),
        }
    }
    Ok(true)
}

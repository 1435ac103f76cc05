//! One request of a connection is served.
ghost use Rattle.std.specs.Prelude.{◌≡◌, false, true, OnOk, IfOk, IsErrOf};
ghost use Rattle.gate_types.specs.Tap.{inside, has_failed, Took, TookFront};
ghost use Rattle.gate_http.specs.Asked.{Streamed};
ghost use Rattle.gate_http.specs.Way.{Request, way_of, stream};
ghost use Rattle.gate_http.specs.Exchange.{IsRequestRead, Waits};
ghost use Rattle.gate_http.specs.Serving.{ServesBy};

use crate::engine::answer_request;
use crate::request_fault::RequestFault;
use crate::served::Served;
use gate_archive::Archive;
use gate_core::Gate;
use gate_types::tap::Tap;
use std::alloc::Global;
use std::io::{Read, Write};

/// Serves one request: reads it, lets the gate act on it, and writes the answer. It reads no byte
/// beyond what the answer needs: of a delivery the head and the body, of any other request the
/// head. Give a reader with a buffer beneath, since a head is read byte by byte.
///
/// # Errors
///
/// `Read`: the reader failed before the request was there; nothing was acted on or written.
/// `Write`: the writer failed within the answer; a delivery stands, and is answered again if it is
/// sent again under its id. `NoMemory`: nothing was read. `Store`: a history or the deliveries broke off, since the
/// store failed or memory was refused behind the first line; a beginning of the answer was written.
pub fn serve_one<B: Archive, R: Read, W: Write>(
    alloc: Global,
    gate: &mut Gate<B>,
    reader: &mut Tap<R>,
    writer: &mut Tap<W>,
) -> Result<Served, RequestFault>
    requires reader { has_failed reader.old ≡ false }
    requires writer { has_failed writer.old ≡ false }
    ensures ok { IfOk result (λ served. (r : Request)
        × IsRequestRead (R.remaining (inside reader.old)) (R.remaining (inside reader.new)) r
        × ServesBy B.IsTrusted B.Holds B.LeavesOneOf gate.old gate.new (way_of r) served
        (Took W.contents writer.old writer.new)) }
    // a beginning of the answer was written, and all else is as without the fault
    ensures write { IsErrOf result RequestFault.Write → (r : Request)
        × IsRequestRead (R.remaining (inside reader.old)) (R.remaining (inside reader.new)) r
        × (served : Served) × ServesBy B.IsTrusted B.Holds B.LeavesOneOf gate.old gate.new (way_of r) served
        (TookFront W.contents writer.old writer.new) }
    // what was read was no whole request yet
    ensures read { IsErrOf result RequestFault.Read →
        Waits (R.remaining (inside reader.old)) (R.remaining (inside reader.new))
        × (gate.new ≡ gate.old) × (writer.new ≡ writer.old) }
    ensures memory { IsErrOf result RequestFault.NoMemory →
        (gate.new ≡ gate.old) × (reader.new ≡ reader.old) × (writer.new ≡ writer.old) }
    // it was lines, of which a beginning was written, and the content stays
    ensures store { IsErrOf result RequestFault.Store → (r : Request)
        × IsRequestRead (R.remaining (inside reader.old)) (R.remaining (inside reader.new)) r
        × (wanted : Streamed) × (way_of r ≡ stream wanted)
        × ServesBy B.IsTrusted B.Holds B.LeavesOneOf gate.old gate.new (stream wanted) (Served.Answered 200)
        (TookFront W.contents writer.old writer.new) }
    ensures unfailed { OnOk result (has_failed writer.new ≡ false) }
    ensures store_unfailed { IsErrOf result RequestFault.Store → has_failed writer.new ≡ false }
    ensures reader_failed { IsErrOf result RequestFault.Read → has_failed reader.new ≡ true }
    ensures writer_failed { IsErrOf result RequestFault.Write → has_failed writer.new ≡ true }
{
    answer_request(alloc, gate, reader, writer)
}

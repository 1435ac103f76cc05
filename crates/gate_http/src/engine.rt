//! The engine: one request of a connection is answered, by whatever answers requests.
ghost use Rattle.std.specs.Prelude.{◌≡◌, ◌≤◌, [], false, true, OnOk, IfOk, IfErr, IsErrOf, vec_capacity, ◌⊎◌};
ghost use Rattle.gate_types.specs.Tap.{inside, has_failed};
ghost use Rattle.gate_http.specs.Head.{head_limit};
ghost use Rattle.gate_http.specs.Response.{head_room};
ghost use Rattle.gate_http.specs.Routes.{routes};
ghost use Rattle.gate_http.specs.Exchange.{AnswersTo, AnswersFront, StopsAt, Waits};
ghost use Rattle.gate_types.specs.Limits.{most_bytes};

use crate::answering::{answer_wanted, refuse, tell};
use crate::body::read_body;
use crate::fault::HttpFault;
use crate::head::{Came, HEAD_LIMIT, read_head};
use crate::request::{Decision, decide};
use crate::request_fault::RequestFault;
use crate::respond::{AnswerIfAny, Respond};
use crate::response::{Extent, Form, HEAD_ROOM, Media};
use crate::routes::{Route, router};
use crate::served::Served;
use gate_types::limits::MOST_BYTES;
use gate_types::tap::Tap;
use matchit::Router;
use std::alloc::Global;
use std::io::{Read, Write};

/// Answers one request, with room for its head, for its body and for the head of the response.
fn answer<G: Respond, R: Read, W: Write>(
    alloc: Global,
    gate: &mut G,
    reader: &mut Tap<R>,
    writer: &mut Tap<W>,
    router: &Router<Route>,
    head: &mut Vec<u8>,
    body: &mut Vec<u8>,
    room: &mut Vec<u8>,
) -> Result<Served, RequestFault>
    requires reader { has_failed reader.old ≡ false }
    requires writer { has_failed writer.old ≡ false }
    requires router { router.now ≡ routes }
    requires head { (head.old.items ≡ []) × (head_limit ≤ vec_capacity head.old) }
    requires body { (body.old.items ≡ []) × (most_bytes ≤ vec_capacity body.old) }
    requires room { (room.old.items ≡ []) × (head_room ≤ vec_capacity room.old) }
    ensures ok { IfOk result (λ served. AnswersTo G.responds G.recalls R.remaining W.contents
        reader.old reader.new gate.old gate.new writer.old writer.new served) }
    ensures write { IsErrOf result RequestFault.Write → AnswersFront G.responds G.recalls R.remaining W.contents
        reader.old reader.new gate.old gate.new writer.old writer.new }
    ensures read { IsErrOf result RequestFault.Read →
        Waits (R.remaining (inside reader.old)) (R.remaining (inside reader.new))
        × (gate.new ≡ gate.old) × (writer.new ≡ writer.old) }
    ensures store { IsErrOf result RequestFault.Store → StopsAt G.recalls R.remaining W.contents
        reader.old reader.new gate.old gate.new writer.old writer.new }
    ensures others { IfErr result (λ e. (e ≡ RequestFault.Read) ⊎ (e ≡ RequestFault.Write) ⊎ (e ≡ RequestFault.Store)) }
    ensures unfailed { OnOk result (has_failed writer.new ≡ false) }
    ensures store_unfailed { IsErrOf result RequestFault.Store → has_failed writer.new ≡ false }
    ensures reader_failed { IsErrOf result RequestFault.Read → has_failed reader.new ≡ true }
    ensures writer_failed { IsErrOf result RequestFault.Write → has_failed writer.new ≡ true }
{
    let form = Form::Response;
    match read_head(reader, head) {
        Ok(Came::Nothing) => return Ok(Served::Nothing),
        Ok(Came::Part) => return refuse(writer, room, form, HttpFault::Cut, Extent::Whole),
        Ok(Came::TooMuch) => return refuse(
            writer,
            room,
            form,
            HttpFault::HeadTooLarge,
            Extent::Whole,
        ),
        Ok(Came::Whole) => {}
        Err(_) => return Err(RequestFault::Read),
    }
    match decide(router, head.as_slice()) {
        Decision::Refuse(fault, extent) => refuse(writer, room, form, fault, extent),
        Decision::Post(door, n) => match read_body(reader, body, n) {
            Ok(true) => {
                let said = gate.hear(alloc, door, body.as_slice());
                tell(writer, room, form, &AnswerIfAny::Answer(said), Media::Json)
            }
            Ok(false) => refuse(writer, room, form, HttpFault::Cut, Extent::Whole),
            Err(_) => Err(RequestFault::Read),
        },
        Decision::Read(wanted) => answer_wanted(alloc, gate, writer, room, form, wanted),
    }
}

/// Answers one request by these routes. All memory of its own is taken before the first read.
pub(crate) fn answer_routed<G: Respond, R: Read, W: Write>(
    alloc: Global,
    gate: &mut G,
    reader: &mut Tap<R>,
    writer: &mut Tap<W>,
    router: &Router<Route>,
) -> Result<Served, RequestFault>
    requires reader { has_failed reader.old ≡ false }
    requires writer { has_failed writer.old ≡ false }
    requires router { router.now ≡ routes }
    ensures ok { IfOk result (λ served. AnswersTo G.responds G.recalls R.remaining W.contents
        reader.old reader.new gate.old gate.new writer.old writer.new served) }
    ensures write { IsErrOf result RequestFault.Write → AnswersFront G.responds G.recalls R.remaining W.contents
        reader.old reader.new gate.old gate.new writer.old writer.new }
    ensures read { IsErrOf result RequestFault.Read →
        Waits (R.remaining (inside reader.old)) (R.remaining (inside reader.new))
        × (gate.new ≡ gate.old) × (writer.new ≡ writer.old) }
    ensures memory { IsErrOf result RequestFault.NoMemory →
        (gate.new ≡ gate.old) × (reader.new ≡ reader.old) × (writer.new ≡ writer.old) }
    ensures store { IsErrOf result RequestFault.Store → StopsAt G.recalls R.remaining W.contents
        reader.old reader.new gate.old gate.new writer.old writer.new }
    ensures unfailed { OnOk result (has_failed writer.new ≡ false) }
    ensures store_unfailed { IsErrOf result RequestFault.Store → has_failed writer.new ≡ false }
    ensures reader_failed { IsErrOf result RequestFault.Read → has_failed reader.new ≡ true }
    ensures writer_failed { IsErrOf result RequestFault.Write → has_failed writer.new ≡ true }
{
    match (
        Vec::with_capacity(alloc, HEAD_LIMIT),
        Vec::with_capacity(alloc, MOST_BYTES),
        Vec::with_capacity(alloc, HEAD_ROOM),
    ) {
        (Ok(mut head), Ok(mut body), Ok(mut room)) => answer(
            alloc, gate, reader, writer, router, &mut head, &mut body, &mut room,
        ),
        _ => Err(RequestFault::NoMemory),
    }
}

/// Answers one request: reads it, asks what answers it, and writes the answer. No byte is taken
/// from the reader beyond the head and the body of a delivery. All memory of its own is taken
/// before the first read.
///
/// # Errors
///
/// `Read` where the reader failed: nothing was asked or written. `Write` where the writer did, within
/// the answer. `NoMemory` before anything is read. `Store` where lines broke off behind a beginning of them.
pub fn answer_request<G: Respond, R: Read, W: Write>(
    alloc: Global,
    gate: &mut G,
    reader: &mut Tap<R>,
    writer: &mut Tap<W>,
) -> Result<Served, RequestFault>
    requires reader { has_failed reader.old ≡ false }
    requires writer { has_failed writer.old ≡ false }
    ensures ok { IfOk result (λ served. AnswersTo G.responds G.recalls R.remaining W.contents
        reader.old reader.new gate.old gate.new writer.old writer.new served) }
    ensures write { IsErrOf result RequestFault.Write → AnswersFront G.responds G.recalls R.remaining W.contents
        reader.old reader.new gate.old gate.new writer.old writer.new }
    ensures read { IsErrOf result RequestFault.Read →
        Waits (R.remaining (inside reader.old)) (R.remaining (inside reader.new))
        × (gate.new ≡ gate.old) × (writer.new ≡ writer.old) }
    ensures memory { IsErrOf result RequestFault.NoMemory →
        (gate.new ≡ gate.old) × (reader.new ≡ reader.old) × (writer.new ≡ writer.old) }
    ensures store { IsErrOf result RequestFault.Store → StopsAt G.recalls R.remaining W.contents
        reader.old reader.new gate.old gate.new writer.old writer.new }
    ensures unfailed { OnOk result (has_failed writer.new ≡ false) }
    ensures store_unfailed { IsErrOf result RequestFault.Store → has_failed writer.new ≡ false }
    ensures reader_failed { IsErrOf result RequestFault.Read → has_failed reader.new ≡ true }
    ensures writer_failed { IsErrOf result RequestFault.Write → has_failed writer.new ≡ true }
{
    match router(alloc) {
        Ok(router) => answer_routed(alloc, gate, reader, writer, &router),
        Err(_) => Err(RequestFault::NoMemory),
    }
}

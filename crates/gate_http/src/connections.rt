//! Connections are served, one after another.
ghost use Rattle.std.specs.Prelude.{◌≡◌, ◌≤◌, ◌⊎◌, List, [], ◌∷◌, length, true, false, OnOk, OnErr, IfErr, IfSome};
ghost use Rattle.std.specs.Prelude.{IsErrOf};
ghost use Rattle.std.specs.Io.Buffered.{writer_buffer, writer_contents};
ghost use Rattle.std.specs.Io.KnownBytes.{Appends, Keeps};
ghost use Rattle.gate_types.specs.Tap.{inside, has_failed, Took, TookFront};
ghost use Rattle.gate_core.specs.Held.{Goes};
ghost use Rattle.gate_http.specs.declared.request_fault.RequestFault.{RequestFault};
ghost use Rattle.gate_http.specs.Routes.{routes};
ghost use Rattle.gate_http.specs.Asked.{Streamed};
ghost use Rattle.gate_http.specs.Way.{Request, way_of, stream};
ghost use Rattle.gate_http.specs.Exchange.{IsRequestRead};
ghost use Rattle.gate_http.specs.Serving.{ServesBy};
ghost use Rattle.gate_http.specs.Connections.{CalledOver, fault_line, FaultsAreTold};

use crate::engine::answer_routed;
use crate::request_fault::RequestFault;
use crate::routes::{Route, router};
use crate::served::Served;
use gate_archive::Archive;
use gate_core::Gate;
use gate_types::tap::{Failed, Tap};
use matchit::Router;
use std::alloc::Global;
use std::fmt;
use std::io::{BufReader, BufWriter, Read, Write};
use std::net::{OpenListener, OpenStream, Shutdown};

/// The listener failed to accept a connection.
#[derive(Clone, Copy, Debug, PartialEq, Eq)]
pub struct NotListening;

impl fmt::Display for NotListening {
    ghost use Rattle.std.specs.Prelude.{Some, codes};

    ghost output = { λ _. Some (codes "the listener failed to accept a connection") };

    fn fmt<W: fmt::Write>(&self, f: &mut fmt::Formatter<W>) -> fmt::Result {
        f.write_str("the listener failed to accept a connection")
    }
}

impl std::error::Error for NotListening {}

/// Writes the line of a fault, given the fault's text, or a beginning of the line where the writer fails.
///
/// # Errors
///
/// `Failed` where the writer failed.
pub fn write_fault<E: Write>(text: &str, errors: &mut Tap<E>) -> Result<(), Failed>
    requires { has_failed errors.old ≡ false }
    ensures ok { OnOk result (Took E.contents errors.old errors.new (fault_line text.now)) }
    ensures unfailed { OnOk result (has_failed errors.new ≡ false) }
    ensures err { OnErr result (TookFront E.contents errors.old errors.new (fault_line text.now)) }
    ensures failed { OnErr result (has_failed errors.new ≡ true) }
{
    errors.write_all(b"gated: ")?;
    errors.write_line(text)?;
    Ok(())
}

/// Tells of a fault, unless an earlier one could not be told.
fn tell<E: Write>(fault: RequestFault, errors: &mut Tap<E>)
    ensures told { has_failed errors.old ≡ false → FaultsAreTold E.contents errors.old errors.new (fault ∷ []) }
    ensures silent { has_failed errors.old ≡ true → errors.new ≡ errors.old }
{
    if !errors.failed() {
        let _ = write_fault(fault.text(), errors);
    }
}

/// Sends what the buffer holds.
fn send<W: Write + Drop>(writer: &mut BufWriter<W>) -> Result<(), RequestFault>
    ensures bytes { Keeps (writer_contents W.contents writer.old) (writer_contents W.contents writer.new) }
    ensures ok { OnOk result (writer_buffer writer.new ≡ []) }
    ensures err { IfErr result (λ e. e ≡ RequestFault.Write) }
{
    match writer.flush() {
        Ok(()) => Ok(()),
        Err(_) => Err(RequestFault::Write),
    }
}

/// Serves one request, sends the response, and gives back what it was sent to.
///
/// # Errors
///
/// Those of `answer_request`; and `Write` where the end of the response could not be sent.
fn serve_whole<B: Archive, R: Read, W: Write + Drop>(
    alloc: Global,
    gate: &mut Gate<B>,
    reader: &mut Tap<R>,
    writer: BufWriter<W>,
    router: &Router<Route>,
) -> (Result<(), RequestFault>, W)
    requires reader { has_failed reader.old ≡ false }
    requires router { router.now ≡ routes }
    ensures gate { Goes B.IsTrusted B.Holds gate.old gate.new (CalledOver B.LeavesOneOf 1 gate.old gate.new) }
    // nothing of the response is left in the buffer
    ensures sent { OnOk result.0 ((r : Request)
        × IsRequestRead (R.remaining (inside reader.old)) (R.remaining (inside reader.new)) r
        × (served : Served) × ServesBy B.IsTrusted B.Holds B.LeavesOneOf gate.old gate.new (way_of r) served
        (Appends (writer_contents W.contents writer) (W.contents result.1))) }
    // a history or the deliveries broke off
    ensures store { IsErrOf result.0 RequestFault.Store → (r : Request)
        × IsRequestRead (R.remaining (inside reader.old)) (R.remaining (inside reader.new)) r
        × (wanted : Streamed) × (way_of r ≡ stream wanted) }
{
    let mut writer = Tap::new(writer);
    let served = answer_routed(alloc, gate, reader, &mut writer, router);
    let mut writer = writer.into_inner();
    let sent = send(&mut writer);
    (served.and(sent), writer.into_parts().0)
}

/// The two ends of a stream, each with a buffer.
///
/// # Errors
///
/// `Read`: the stream could not be had twice. `NoMemory`: there was none for a buffer.
fn buffered<S: Read + Write + OpenStream + Drop>(
    alloc: Global,
    stream: S,
) -> Result<(BufReader<S>, BufWriter<S>), RequestFault>
    // never `Write`, which means that a delivery may stand
    ensures fault { IfErr result (λ f. (f ≡ RequestFault.Read) ⊎ (f ≡ RequestFault.NoMemory)) }
{
    let Ok(other) = stream.try_clone() else {
        return Err(RequestFault::Read);
    };
    let Ok(reader) = BufReader::new(alloc, other) else {
        return Err(RequestFault::NoMemory);
    };
    let Ok(writer) = BufWriter::new(alloc, stream) else {
        return Err(RequestFault::NoMemory);
    };
    Ok((reader, writer))
}

/// Serves one connection, says that no more follows, and closes it.
///
/// # Errors
///
/// `Read`: the stream gave an error, or could not be had twice. `Write`: the response could not be
/// sent. `NoMemory`: there was none for a buffer or for the request. `Store`: a history or the deliveries broke off.
fn serve_stream<S: Read + Write + OpenStream + Drop, B: Archive>(
    alloc: Global,
    gate: &mut Gate<B>,
    stream: S,
    router: &Router<Route>,
) -> Result<(), RequestFault>
    requires { router.now ≡ routes }
    ensures gate { Goes B.IsTrusted B.Holds gate.old gate.new (CalledOver B.LeavesOneOf 1 gate.old gate.new) }
{
    let (reader, writer) = buffered(alloc, stream)?;
    let (served, stream) = serve_whole(alloc, gate, &mut Tap::new(reader), writer, router);
    let _ = stream.shutdown(Shutdown::Write);
    served
}

/// The same by the router that all connections share; by one of its own where there was no memory for that one.
///
/// # Errors
///
/// Those of `serve_stream`; and `NoMemory` where there is none for a router either.
fn serve_shared<S: Read + Write + OpenStream + Drop, B: Archive>(
    alloc: Global,
    gate: &mut Gate<B>,
    stream: S,
    shared: &Option<Router<Route>>,
) -> Result<(), RequestFault>
    requires { IfSome shared.now (λ r. r ≡ routes) }
    ensures gate { Goes B.IsTrusted B.Holds gate.old gate.new (CalledOver B.LeavesOneOf 1 gate.old gate.new) }
{
    if let Some(router) = shared {
        return serve_stream(alloc, gate, stream, router);
    }
    match router(alloc) {
        Ok(router) => serve_stream(alloc, gate, stream, &router),
        Err(_) => Err(RequestFault::NoMemory),
    }
}

/// Serves so many connections of the listener by this router, as `serve` does.
fn serve_each<L: OpenListener, B: Archive, E: Write>(
    alloc: Global,
    listener: &L,
    gate: &mut Gate<B>,
    count: u64,
    errors: &mut Tap<E>,
    shared: &Option<Router<Route>>,
) -> Result<(), NotListening>
where
    L::Stream: Read + Write + OpenStream,
    requires errors { has_failed errors.old ≡ false }
    requires shared { IfSome shared.now (λ r. r ≡ routes) }
    // each connection is at most one call
    ensures gate { Goes B.IsTrusted B.Holds gate.old gate.new
        (CalledOver B.LeavesOneOf count gate.old gate.new) }
    ensures told { (faults : List RequestFault) × (length faults ≤ count)
        × FaultsAreTold E.contents errors.old errors.new faults }
{
    for _ in 0..count {
        let Ok((stream, _)) = listener.accept() else {
            return Err(NotListening);
        };
        if let Err(fault) = serve_shared(alloc, gate, stream, shared) {
            tell(fault, errors);
        }
    }
    Ok(())
}

/// Serves so many connections of the listener, one after another: of each one request is read,
/// acted on and answered, and the connection is closed. A client that sends nothing counts. A
/// fault of a connection is told on `errors`, by `gated: `, its text and LF, and the next
/// connection is served; where `errors` has failed, no more is told.
///
/// # Errors
///
/// The listener failed to accept a connection. What was served before stands.
pub fn serve<L: OpenListener, B: Archive, E: Write>(
    alloc: Global,
    listener: &L,
    gate: &mut Gate<B>,
    count: u64,
    errors: &mut Tap<E>,
) -> Result<(), NotListening>
where
    L::Stream: Read + Write + OpenStream,
    requires { has_failed errors.old ≡ false }
    // each connection is at most one call
    ensures gate { Goes B.IsTrusted B.Holds gate.old gate.new
        (CalledOver B.LeavesOneOf count gate.old gate.new) }
    ensures told { (faults : List RequestFault) × (length faults ≤ count)
        × FaultsAreTold E.contents errors.old errors.new faults }
{
    // made once, so that no request makes it again
    let shared = router(alloc).ok();
    serve_each(alloc, listener, gate, count, errors, &shared)
}

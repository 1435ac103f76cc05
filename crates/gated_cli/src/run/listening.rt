//! Requests over HTTP, at a port of loopback.
ghost use Rattle.std.specs.Prelude.{◌≡◌, ℕ, List, Option, Bool, OnOk, IfOk, IfErr, false};
ghost use Rattle.gate_types.specs.Tap.{has_failed};
ghost use Rattle.gate_core.specs.Held.{Goes};
ghost use Rattle.gate_http.specs.Connections.{CalledOver};
ghost use Rattle.gated_cli.specs.Doing.{Announces, IsPortFor, beside};
ghost use Rattle.gated_cli.specs.Ending.{ServingEnds, IsOfServing, most_served};
ghost use Rattle.gated_cli.specs.Telling.{TellsUpTo};

use crate::run::fault::Fault;
use gate_archive::Archive;
use gate_core::Gate;
use gate_types::tap::Tap;
use std::alloc::Global;
use std::io::{Read, Write};
use std::net::{Ipv4Addr, Net, OpenListener, OpenStream, TcpListener};

/// Serves so many connections at this port of loopback over a gate, as `serve_at` does.
///
/// # Errors
///
/// Those of `serve_at`; and `Listener` where the port can't be bound, and nothing is printed.
pub(crate) fn serve<M: Net + AllocGlobal, B: Archive, W: Write, E: Write>(
    rt: &M,
    gate: &mut Gate<B>,
    port: u16,
    count: u64,
    output: &mut Tap<W>,
    errors: &mut Tap<E>,
) -> Result<(), Fault>
    requires writer { has_failed output.old ≡ false }
    requires teller { has_failed errors.old ≡ false }
    ensures gate { Goes B.IsTrusted B.Holds gate.old gate.new
        (CalledOver B.LeavesOneOf (most_served result count) gate.old gate.new) }
    ensures told { TellsUpTo E.contents count errors.old errors.new }
    ensures ok { OnOk result ((left : Option (List ℕ)) → (failed : Bool) → Announces port
        (beside W.contents left failed output.old) (beside W.contents left failed output.new)) }
    ensures err { IfErr result (λ fault. IsOfServing fault
        × ((left : Option (List ℕ)) → (failed : Bool) → ServingEnds port fault
        (beside W.contents left failed output.old) (beside W.contents left failed output.new))) }
{
    let listener = bound(rt, port)?;
    serve_at(rt.alloc(), &listener, gate, port, count, output, errors)
}

/// Prints the line that names the listener's port, and then serves so many of its connections over a
/// gate, one after another. A fault of a connection is told on `errors`, and the next is served.
///
/// # Errors
///
/// `Listener`: the listener's port isn't known, or isn't the one that was asked for, and nothing is
/// printed; or it failed to accept a connection. `NoMemory`: nothing is printed. `Write`: the line was
/// cut, and no connection is served.
pub(crate) fn serve_at<L: OpenListener, B: Archive, W: Write, E: Write>(
    alloc: Global,
    listener: &L,
    gate: &mut Gate<B>,
    port: u16,
    count: u64,
    output: &mut Tap<W>,
    errors: &mut Tap<E>,
) -> Result<(), Fault>
where
    L::Stream: Read + Write + OpenStream,
    requires writer { has_failed output.old ≡ false }
    requires teller { has_failed errors.old ≡ false }
    ensures gate { Goes B.IsTrusted B.Holds gate.old gate.new
        (CalledOver B.LeavesOneOf (most_served result count) gate.old gate.new) }
    ensures told { TellsUpTo E.contents count errors.old errors.new }
    ensures ok { OnOk result ((left : Option (List ℕ)) → (failed : Bool) → Announces port
        (beside W.contents left failed output.old) (beside W.contents left failed output.new)) }
    ensures err { IfErr result (λ fault. IsOfServing fault
        × ((left : Option (List ℕ)) → (failed : Bool) → ServingEnds port fault
        (beside W.contents left failed output.old) (beside W.contents left failed output.new))) }
{
    announce(alloc, listener, port, output)?;
    match gate_http::serve(alloc, listener, gate, count, errors) {
        Ok(()) => Ok(()),
        Err(_) => Err(Fault::Listener),
    }
}

fn bound<M: Net>(net: &M, port: u16) -> Result<M::Listener, Fault>
    ensures { IfErr result (λ fault. fault ≡ Fault.Listener) }
{
    match TcpListener::bind(net, (Ipv4Addr::LOCALHOST, port)) {
        Ok(listener) => Ok(listener),
        Err(_) => Err(Fault::Listener),
    }
}

/// Prints the line that names the port.
fn announce<L: OpenListener, W: Write>(
    alloc: Global,
    listener: &L,
    asked: u16,
    output: &mut Tap<W>,
) -> Result<(), Fault>
    requires { has_failed output.old ≡ false }
    ensures ok { OnOk result ((left : Option (List ℕ)) → (failed : Bool) → Announces asked
        (beside W.contents left failed output.old) (beside W.contents left failed output.new)) }
    ensures err { IfErr result (λ fault. IsOfServing fault
        × ((left : Option (List ℕ)) → (failed : Bool) → ServingEnds asked fault
        (beside W.contents left failed output.old) (beside W.contents left failed output.new))) }
{
    let port = port_of(listener, asked)?;
    let text = format!(in alloc; "listening 127.0.0.1:{port}")?;
    output.write_line(text.as_str())?;
    Ok(())
}

/// The port that a listener has which was asked for this one.
fn port_of<L: OpenListener>(listener: &L, asked: u16) -> Result<u16, Fault>
    ensures ok { IfOk result (λ port. IsPortFor asked port) }
    ensures err { IfErr result (λ fault. fault ≡ Fault.Listener) }
{
    let Ok(addr) = listener.local_addr() else {
        return Err(Fault::Listener);
    };
    let port = addr.port();
    if port != 0 && (asked == 0 || port == asked) {
        Ok(port)
    } else {
        Err(Fault::Listener)
    }
}

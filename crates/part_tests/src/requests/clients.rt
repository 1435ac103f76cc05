//! Clients over loopback, one after another, with the responses typed from the formats.
use crate::claims::holds;
use crate::requests::scenes::Fresh;
use crate::requests::streams::{Pace, Stream};
use crate::requests::texts::{halves, request, response};
use crate::requests::torn::Torn;
use gate_archive::Archive;
use gate_book::MemBook;
use gate_core::Gate;
use gate_http::serve;
use gate_types::tap::Tap;
use std::alloc::Global;
use std::io::{Read, Write};
use std::net::{Net, OpenListener, OpenStream, Shutdown, TcpListener, TcpStream};
use std::process::Abort;

/// Serves so many connections: whether it listens to the end, and what is told of them.
pub(crate) fn served<L: OpenListener, B: Archive>(
    alloc: Global,
    listener: &L,
    gate: &mut Gate<B>,
    count: u64,
) -> (bool, Vec<u8>)
where
    L::Stream: Read + Write + OpenStream,
{
    let mut errors = Tap::new(Vec::new(alloc));
    let done = serve(alloc, listener, gate, count, &mut errors);
    (done.is_ok(), errors.into_inner())
}

/// A client that sends a request, and nothing more then where it leaves.
fn client<N: Net + Abort + AllocGlobal>(
    net: &N,
    listener: &N::Listener,
    way: &str,
    text: &str,
) -> N::Stream {
    let address = listener.local_addr().expect(net, "an address");
    let mut stream = TcpStream::connect(net, address).expect(net, "a connection");
    let sent = stream.write_all(request(net, text).as_slice());
    sent.expect(net, text);
    match way {
        "leaves" => stream.shutdown(Shutdown::Write).expect(net, text),
        "waits" | "gone" => {}
        _ => panic!(net; "no such client: {way}"),
    }
    stream
}

/// The clients of these lines, each with the name of its response, but for those that are gone.
fn clients<'a, N: Net + Abort + AllocGlobal>(
    net: &N,
    listener: &N::Listener,
    lines: &'a str,
) -> Vec<(&'a str, N::Stream)> {
    let mut clients = Vec::new(net.alloc());
    for line in lines.lines() {
        let (way, rest) = halves(net, line);
        let (name, text) = halves(net, rest);
        let stream = client(net, listener, way, text);
        if way != "gone" {
            clients.push((name, stream)).expect(net, "memory");
        }
    }
    clients
}

/// A client got the response of this name, up to the end.
fn was_answered(rt: &(impl Abort + AllocGlobal), mut stream: impl Read + Drop, name: &str) {
    let mut bytes = Vec::new(rt.alloc());
    stream.read_to_end(&mut bytes).expect(rt, name);
    holds(rt, bytes.as_slice() == response(rt, name).as_bytes(), name);
}

/// Clients connect and send, all are served, and each gets its response.
fn are_served<N: Net + Abort + AllocGlobal, B: Archive>(
    net: &N,
    gate: &mut Gate<B>,
    lines: &str,
    told: &str,
) {
    let listener = TcpListener::bind(net, "127.0.0.1:0").expect(net, "a port");
    let clients = clients(net, &listener, lines);
    let count = lines.lines().count() as u64;
    let (listened, errors) = served(net.alloc(), &listener, gate, count);
    holds(net, listened && errors.as_slice() == told.as_bytes(), told);
    for (name, stream) in clients {
        was_answered(net, stream, name);
    }
}

/// One client is gone, one sends nothing, and one a half of its request. Those behind close once they are answered.
const CLIENTS: &str = r#"gone nothing <.*0>
leaves nothing <.*0>
leaves cut POST /forge HTTP/1.1\r\nHost: gate\r\nContent-Length: 89\r\n\r\n{"id":"0b000000
waits recorded POST /forge HTTP/1.1\r\nHost: gate\r\nContent-Length: 118\r\n\r\n{"id":"0b000000-0000-4000-8000-000000000001","kind":"revision","change":101,"project":"lib","revision":1,"message":""}
waits queued POST /forge HTTP/1.1\r\nHost: gate\r\nContent-Length: 89\r\n\r\n{"id":"0b000000-0000-4000-8000-000000000002","kind":"approved","change":101,"revision":1}
waits item-status GET /status HTTP/1.1\r\nHost: gate\r\n\r\n
"#;

#[test]
fn clients_are_answered_in_turn_and_lost_ones_are_passed(rt: HostRuntime) {
    are_served(&rt, &mut Gate::<MemBook>::fresh(&rt), CLIENTS, "");
}

/// The history that one asks for breaks off.
const TORN: &str =
    r#"waits recorded POST /forge HTTP/1.1\r\nHost: gate\r\nContent-Length: 118\r\n\r\n{"id":"0b000000-0000-4000-8000-000000000001","kind":"revision","change":101,"project":"lib","revision":1,"message":""}
waits torn GET /history/core HTTP/1.1\r\nHost: gate\r\n\r\n
waits queued POST /forge HTTP/1.1\r\nHost: gate\r\nContent-Length: 89\r\n\r\n{"id":"0b000000-0000-4000-8000-000000000002","kind":"approved","change":101,"revision":1}
"#;

/// An empty gate whose histories break off.
fn torn_gate(rt: &(impl Abort + AllocGlobal)) -> Gate<Torn<MemBook>> {
    let gate = Gate::<MemBook>::fresh(rt);
    let config = gate.config().copy().expect(rt, "memory");
    Gate::new(config, Torn(gate.into_book()))
}

#[test]
fn a_history_that_breaks_off_is_told_and_the_next_is_served(rt: HostRuntime) {
    are_served(&rt, &mut torn_gate(&rt), TORN, "gated: I7 store\n");
}

/// The fault of the second client can't be told, and the third is answered all the same.
#[test]
fn where_no_fault_can_be_told_the_next_is_served(rt: HostRuntime) {
    let mut gate = torn_gate(&rt);
    let listener = TcpListener::bind(&rt, "127.0.0.1:0").expect(&rt, "a port");
    let clients = clients(&rt, &listener, TORN);
    let mut errors = Tap::new(Stream::new(rt.alloc(), b"", Pace::writing(0)));
    let done = serve(rt.alloc(), &listener, &mut gate, 3, &mut errors);
    holds(&rt, done.is_ok() && errors.failed(), TORN);
    drop(listener);
    for (name, stream) in clients {
        was_answered(&rt, stream, name);
    }
}

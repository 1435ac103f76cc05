//! Clients over loopback, at the gate of a file.
use crate::tests::claims::holds;
use crate::tests::machine::{Machine, Port};
use crate::tests::sessions::plays;
use std::io::{Read, Write};
use std::net::{Ipv4Addr, Net, OpenListener, SocketAddr, TcpListener, TcpStream};
use std::process::Abort;

const POST: &str =
    "POST /forge HTTP/1.1\r\nHost: gate\r\nContent-Length: 118\r\n\r\n{\"id\":\"0a000000-0000-4000-8000-000000000001\",\"kind\":\"revision\",\"change\":101,\"project\":\"lib\",\"revision\":1,\"message\":\"\"}";

const STATUS: &str = "GET /status HTTP/1.1\r\nHost: gate\r\n\r\n";

const RECORDED: &str =
    "HTTP/1.1 200 OK\r\nContent-Type: application/json\r\nContent-Length: 20\r\nConnection: close\r\n\r\n{\"reply\":\"recorded\"}";

const SHOWN: &str =
    "HTTP/1.1 200 OK\r\nContent-Type: text/plain\r\nContent-Length: 33\r\nConnection: close\r\n\r\nqueue core window 2 landed 0\nend\n";

/// A client that connects and sends this.
fn client<N: Net + Abort>(net: &N, address: SocketAddr, sends: &str) -> N::Stream {
    let mut stream = TcpStream::connect(net, address).expect(net, "a connection");
    stream.write_all(sends.as_bytes()).expect(net, sends);
    stream
}

/// A client is sent this till the end.
fn received(rt: &(impl Abort + AllocGlobal), mut stream: impl Read + Drop, wanted: &str) {
    let mut bytes = Vec::new(rt.alloc());
    stream.read_to_end(&mut bytes).expect(rt, wanted);
    holds(rt, bytes.as_slice() == wanted.as_bytes(), wanted);
}

/// Plays scenes in which `PORT` stands for the port of an address.
fn plays_at(
    rt: &(impl Abort + AllocGlobal),
    machine: &Machine<'_>,
    address: SocketAddr,
    text: &str,
) {
    let port = format!(in rt.alloc(); "{}", address.port()).expect(rt, "memory");
    let text = text.replace(rt.alloc(), "PORT", port.as_str());
    plays(rt, machine, text.expect(rt, "memory").as_str());
}

const TWO: &str = "\
# clients that wrote before are answered
$ clear serve_two.toml serve_two.gate serve_two.gate-wal
$ write serve_two.toml < one queue
$ gated init serve_two.toml serve_two.gate
|= 0
$ gated serve serve_two.toml serve_two.gate --port 0 --count 2
listening 127.0.0.1:PORT
|= 0
$ clear serve_two.toml serve_two.gate serve_two.gate-wal
";

const TAKEN: &str = r#"# a taken port is told and leaves the gate
$ clear serve_taken.toml serve_taken.gate serve_taken.gate-wal
$ write serve_taken.toml < one queue
$ gated init serve_taken.toml serve_taken.gate
|= 0
$ gated serve serve_taken.toml serve_taken.gate --port PORT --count 1
|gated: I4 listen
= 1
$ gated serve serve_taken.toml serve_taken.gate --port PORT --count 1 > 0
|gated: I4 listen
= 1
$ gated serve serve_taken.toml no_gate.gate --port PORT --count 1
|gated: O4 unavailable
= 1
$ gated serve no_settings.toml serve_taken.gate --port PORT --count 1
|gated: I5 settings-file
= 1
$ size serve_taken.gate-wal
41
$ gated deliver serve_taken.toml serve_taken.gate < revision
{"reply":"recorded"}
|= 0
$ clear serve_taken.toml serve_taken.gate serve_taken.gate-wal
"#;

/// A port that is free, and its address.
fn free_port<N: Net + Abort>(net: &N) -> (N::Listener, SocketAddr) {
    let listener = TcpListener::bind(net, "127.0.0.1:0").expect(net, "a port");
    let address = listener.local_addr().expect(net, "an address");
    (listener, address)
}

/// A machine whose only port is that of a listener, which is bound by this number.
fn machine_at<'a>(host: &'a HostRuntime, listener: &'a TcpListener, number: u16) -> Machine<'a> {
    let mut machine = Machine::new(host);
    let address = SocketAddr::from((Ipv4Addr::LOCALHOST, number));
    machine.port = Some(Port { address, listener });
    machine
}

#[test]
fn a_gate_is_served_at_a_port_that_is_free(rt: HostRuntime) {
    let (listener, address) = free_port(&rt);
    plays_at(&rt, &Machine::new(&rt), address, TAKEN);
    let first = client(&rt, address, POST);
    let second = client(&rt, address, STATUS);
    plays_at(&rt, &machine_at(&rt, &listener, 0), address, TWO);
    received(&rt, first, RECORDED);
    received(&rt, second, SHOWN);
}

const ASKED: &str = "\
# the port that is asked for is the one that is bound
$ clear serve_asked.toml serve_asked.gate serve_asked.gate-wal
$ write serve_asked.toml < one queue
$ gated init serve_asked.toml serve_asked.gate
|= 0
$ gated serve serve_asked.toml serve_asked.gate --port PORT --count 1
listening 127.0.0.1:PORT
|= 0
$ clear serve_asked.toml serve_asked.gate serve_asked.gate-wal
";

#[test]
fn a_gate_is_served_at_the_port_that_is_asked_for(rt: HostRuntime) {
    let (listener, address) = free_port(&rt);
    let client = client(&rt, address, STATUS);
    plays_at(
        &rt,
        &machine_at(&rt, &listener, address.port()),
        address,
        ASKED,
    );
    received(&rt, client, SHOWN);
}

const ENDED: &str = "\
# a listener that accepts no more ends the run by a fault, and what was answered stands
$ clear serve_ended.toml serve_ended.gate serve_ended.gate-wal
$ write serve_ended.toml < one queue
$ gated init serve_ended.toml serve_ended.gate
|= 0
$ gated serve serve_ended.toml serve_ended.gate --port 0 --count 2
listening 127.0.0.1:PORT
|gated: I4 listen
= 1
$ size serve_ended.gate-wal
41
$ gated serve serve_ended.toml serve_ended.gate --port 0 --count 1 2> 0
listening 127.0.0.1:PORT
|= 1
$ size serve_ended.gate-wal
41
$ gated deliver serve_ended.toml serve_ended.gate < approved
{\"order\":1,\"reply\":\"queued\"}
|= 0
$ clear serve_ended.toml serve_ended.gate serve_ended.gate-wal
";

/// The listener doesn't wait, so that it has no second connection to accept.
#[test]
fn a_listener_that_fails_ends_the_run(rt: HostRuntime) {
    let (listener, address) = free_port(&rt);
    listener
        .set_nonblocking(true)
        .expect(&rt, "a listener that doesn't wait");
    let client = client(&rt, address, POST);
    plays_at(&rt, &machine_at(&rt, &listener, 0), address, ENDED);
    received(&rt, client, RECORDED);
}

const UNHEARD: &str = "\
# where the port can't be told nobody is served
$ clear serve_unheard.toml serve_unheard.gate serve_unheard.gate-wal
$ write serve_unheard.toml < one queue
$ gated init serve_unheard.toml serve_unheard.gate
|= 0
$ gated serve serve_unheard.toml serve_unheard.gate --port 0 --count 1 > 0
|gated: I2 write
= 1
$ size serve_unheard.gate-wal
41
$ gated deliver serve_unheard.toml serve_unheard.gate < approved
{\"code\":\"E5\",\"error\":\"unknown-change\"}
|= 0
$ clear serve_unheard.toml serve_unheard.gate serve_unheard.gate-wal
";

/// The client has sent a revision, which the gate would know then.
#[test]
fn the_port_is_told_before_anybody_is_served(rt: HostRuntime) {
    let (listener, address) = free_port(&rt);
    let _client = client(&rt, address, POST);
    plays(&rt, &machine_at(&rt, &listener, 0), UNHEARD);
}

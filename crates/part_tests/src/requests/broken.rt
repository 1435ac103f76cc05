//! Connections over a listener and over streams that fail.
use crate::claims::holds;
use crate::requests::clients::served;
use crate::requests::gates::KNOWN;
use crate::requests::scenes::{Fresh, tell};
use crate::requests::streams::{Pace, Stream};
use gate_archive::Archive;
use gate_book::MemBook;
use gate_core::Gate;
use gate_http::write_fault;
use gate_types::tap::Tap;
use std::alloc::Global;
use std::io;
use std::io::ErrorKind;
use std::net::{Ipv4Addr, OpenListener, SocketAddr};
use std::process::Abort;

/// A listener whose clients each approve a change over a stream that can't be written, and of which this part fails
/// before.
#[derive(Drop)]
struct Broken {
    alloc: Global,
    part: &'static str,
}

const APPROVAL: &[u8] =
    b"POST /forge HTTP/1.1\r\nHost: gate\r\nContent-Length: 89\r\n\r\n{\"id\":\"0b000000-0000-4000-8000-000000000002\",\"kind\":\"approved\",\"change\":101,\"revision\":1}";

impl OpenListener for Broken {
    type Stream = Stream<'static>;

    fn accept(&self) -> io::Result<(Stream<'static>, SocketAddr)> {
        if self.part == "accept" {
            return Err(io::Error::from(ErrorKind::BrokenPipe));
        }
        let reads = if self.part == "read" { 0 } else { usize::MAX };
        let pace = Pace {
            step: usize::MAX,
            reads,
            writes: 0,
        };
        let mut stream = Stream::new(self.alloc, APPROVAL, pace);
        stream.clones = self.part != "clone";
        stream.fault = ErrorKind::BrokenPipe;
        Ok((stream, SocketAddr::from((Ipv4Addr::LOCALHOST, 1))))
    }
}

/// Serves two connections of which this part fails: whether it listens to the end, and what is told of them.
fn tells<B: Archive>(
    rt: &(impl Abort + AllocGlobal),
    gate: &mut Gate<B>,
    part: &'static str,
    listens: bool,
    told: &str,
) {
    let alloc = rt.alloc();
    let (listened, errors) = served(alloc, &Broken { alloc, part }, gate, 2);
    let is_told = listened == listens && errors.as_slice() == told.as_bytes();
    holds(rt, is_told, part);
}

fn faults_are_told<B: Archive>(rt: &(impl Abort + AllocGlobal), gate: &mut Gate<B>) {
    tell(rt, gate, KNOWN);
    tells(rt, gate, "accept", false, "");
    tells(rt, gate, "clone", true, "gated: I1 read\ngated: I1 read\n");
    tells(rt, gate, "read", true, "gated: I1 read\ngated: I1 read\n");
    tells(
        rt,
        gate,
        "write",
        true,
        "gated: I2 write\ngated: I2 write\n",
    );
}

#[test]
fn a_fault_is_told_and_the_next_is_served(rt: HostRuntime) {
    faults_are_told(&rt, &mut Gate::<MemBook>::fresh(&rt));
}

#[test]
fn a_fault_is_a_line_of_its_text(rt: HostRuntime) {
    let mut errors = Tap::new(Vec::new(rt.alloc()));
    holds(
        &rt,
        write_fault("I2 write", &mut errors).is_ok(),
        "a writer that takes all",
    );
    let told = errors.into_inner();
    holds(
        &rt,
        told.as_slice() == b"gated: I2 write\n".as_slice(),
        "the line of a fault",
    );
}

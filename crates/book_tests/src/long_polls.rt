//! A gate that is polled asks its book for nothing while nothing has changed, however long its answers are.
use crate::claims::holds;
use crate::counting::Counting;
use crate::polling::{asks, gate_refusing};
use gate_book::Book;
use gate_core::Gate;
use gate_types::deliveries::Answer;
use gate_wire::{Door, read_delivery};
use std::process::Abort;

/// As many queues as settings may have, each with a project of its own, and so many changes of each.
const QUEUES: u32 = 32;

const CHANGES: u32 = 4;

fn settings(rt: &(impl Abort + AllocGlobal)) -> String {
    let mut text = String::from_str(rt.alloc(), "[forge]\nbase = 'c'\n").expect(rt, "memory");
    for n in 0..QUEUES {
        write!(
            text,
            "[[queue]]\nname = 'q{n}'\nwindow = 1\nfloor = 1\n\
             [[project]]\nname = 'p{n}'\nqueue = 'q{n}'\n[[project.job]]\nname = 'unit'\n"
        )
        .expect(rt, "memory");
    }
    text
}

/// The delivery of a line is accepted.
fn accepts<B: Book>(rt: &(impl Abort + AllocGlobal), gate: &mut Gate<B>, line: &str) {
    let read = read_delivery(rt.alloc(), line.as_bytes(), Door::Any);
    let (id, delivery) = read.ok().expect(rt, line);
    let answer = gate.deliver(rt.alloc(), id, delivery);
    holds(rt, matches!(answer, Answer::Said(_)), line);
}

/// A change enters the queue whose turn it is.
fn enters<B: Book>(rt: &(impl Abort + AllocGlobal), gate: &mut Gate<B>, n: u32) {
    let queue = n % QUEUES;
    let line = format!(in rt.alloc();
        r#"{{"id":"0a000000-0000-4000-8000-{n:012}","kind":"revision","change":{n},"project":"p{queue}","revision":1,"message":""}}"#
    );
    accepts(rt, gate, line.expect(rt, "memory").as_str());
    let line = format!(in rt.alloc();
        r#"{{"id":"0b000000-0000-4000-8000-{n:012}","kind":"approved","change":{n},"revision":1}}"#
    );
    accepts(rt, gate, line.expect(rt, "memory").as_str());
}

/// A build is taken, and succeeds.
fn succeeds<B: Book>(rt: &(impl Abort + AllocGlobal), gate: &mut Gate<B>, n: u32) {
    let line = format!(in rt.alloc();
        r#"{{"id":"0c000000-0000-4000-8000-{n:012}","kind":"take","worker":"w1"}}"#
    );
    accepts(rt, gate, line.expect(rt, "memory").as_str());
    let line = format!(in rt.alloc();
        r#"{{"id":"0d000000-0000-4000-8000-{n:012}","kind":"result","build":{n},"outcome":"success"}}"#
    );
    accepts(rt, gate, line.expect(rt, "memory").as_str());
}

/// Each queue has its items, and the first of each is to land.
fn fills<B: Book>(rt: &(impl Abort + AllocGlobal), gate: &mut Gate<B>) {
    for n in 1..=QUEUES * CHANGES {
        enters(rt, gate, n);
    }
    for n in 1..=QUEUES {
        succeeds(rt, gate, n);
    }
}

/// The status and the orders are made, and said again without any read.
fn says_again<B: Book>(rt: &(impl Abort + AllocGlobal), gate: &mut Gate<Counting<B>>) {
    let status = gate.status(rt.alloc()).ok().expect(rt, "a status");
    let status = status.as_str().strip_suffix('\n').expect(rt, "lines");
    holds(rt, status.lines().count() == 161, "a line for each item");
    let orders = gate.orders(rt.alloc()).ok().expect(rt, "orders");
    let orders = orders.as_str();
    holds(rt, orders.split("},{").count() == 32, "an order a queue");
    holds(rt, asks(rt, gate, "status", status) == 0, "a long status");
    holds(rt, asks(rt, gate, "orders", orders) == 0, "long orders");
}

#[test]
fn a_long_answer_is_said_again_unasked(rt: HostRuntime) {
    let mut gate = gate_refusing(&rt, settings(&rt).as_str(), "");
    fills(&rt, &mut gate);
    says_again(&rt, &mut gate);
}

//! A gate that is polled asks its book for nothing while nothing has changed.
//!
//! Texts of scenes, each with a title behind `# `, a gate of its own, and behind an empty line parts with an empty line
//! between two. The first line of a part says what is asked of the gate, and how often the book is asked for it:
//! `status` and `orders`, or `>` and a delivery, behind `nothing: `, `once: `, `more: `, which is more than once, or
//! `some: `. Below stands the answer. `made: status` is a status that is made by reads, and said again without any.
//! `it shows nothing` stands for the status and the orders of an empty gate that are made, and `is idle` for a worker
//! that is told by reads that there is no build, and then, under other ids, by looking up the id alone.
//!
//! What the book refuses is planned before the gate is made, as nobody edits a gate's book. `refuses edits by the
//! store` below a title is said of the first edits. At `a read fails` a build is asked for, and the store fails: that
//! read has the number behind those that the parts before it take of a book that refuses nothing.
use crate::claims::{holds, is};
use crate::counting::{Counting, refusing};
use gate_book::{Book, MemBook};
use gate_config::read;
use gate_core::Gate;
use gate_types::deliveries::{Answer, Refusal};
use gate_types::numbers::BuildNo;
use gate_wire::{Door, read_delivery};
use std::process::Abort;

const SETTINGS: &str = r#"
[forge]
base = "https://forge/c/"

[[queue]]
name = "web"
window = 2
floor = 1

[[project]]
name = "site"
queue = "web"
[[project.job]]
name = "unit"
"#;

const IDLE: &str =
    r#"more: > {"id":"0d000000-0000-4000-8000-000000000001","kind":"take","worker":"w1"}
{"code":"E12","error":"idle"}

once: > {"id":"0d000000-0000-4000-8000-000000000002","kind":"take","worker":"w2"}
{"code":"E12","error":"idle"}

once: > {"id":"0d000000-0000-4000-8000-000000000001","kind":"take","worker":"w1"}
{"code":"E12","error":"idle"}"#;

const NOTHING: &str = "made: status
queue web window 2 landed 0
end

made: orders
[]";

const SCENES: &str = r#"
# an idle gate is asked for nothing

it shows nothing

is idle

nothing: status
queue web window 2 landed 0
end

nothing: orders
[]

# an accepted delivery is shown at once

made: status
queue web window 2 landed 0
end

is idle

some: > {"id":"0b000000-0000-4000-8000-000000000001","kind":"revision","change":101,"project":"site","revision":1,"message":""}
{"reply":"recorded"}

made: status
queue web window 2 landed 0
end

some: > {"id":"0b000000-0000-4000-8000-000000000002","kind":"approved","change":101,"revision":1}
{"order":1,"reply":"queued"}

made: status
queue web window 2 landed 0
     1       101    1      - ok      unit=waiting
end

some: > {"id":"0b000000-0000-4000-8000-000000000003","kind":"take","worker":"w1"}
{"after":0,"ahead":[],"build":1,"change":101,"job":"unit","queue":"web","reply":"build","revision":1}

made: status
queue web window 2 landed 0
     1       101    1      - ok      unit=running
end

is idle

some: > {"id":"0e000000-0000-4000-8000-000000000001","kind":"approved","change":900,"revision":1}
{"code":"E5","error":"unknown-change"}

some: > {"id":"0b000000-0000-4000-8000-000000000002","kind":"approved","change":101,"revision":1}
{"order":1,"reply":"queued"}

nothing: status
queue web window 2 landed 0
     1       101    1      - ok      unit=running
end

once: > {"id":"0e000000-0000-4000-8000-000000000002","kind":"take","worker":"w1"}
{"code":"E12","error":"idle"}

some: > {"id":"0b000000-0000-4000-8000-000000000004","kind":"result","build":1,"outcome":"lost"}
{"reply":"noted"}

made: status
queue web window 2 landed 0
     1       101    1      - ok      unit=waiting
end

some: > {"id":"0b000000-0000-4000-8000-000000000005","kind":"take","worker":"w1"}
{"after":0,"ahead":[],"build":2,"change":101,"job":"unit","queue":"web","reply":"build","revision":1}

made: orders
[]

some: > {"id":"0b000000-0000-4000-8000-000000000006","kind":"result","build":2,"outcome":"success"}
{"reply":"noted"}

made: orders
[{"change":101,"order":1,"project":"site","queue":"web","revision":1}]

some: > {"id":"0b000000-0000-4000-8000-000000000007","kind":"landed","order":1}
{"n":1,"reply":"landed"}

made: orders
[]

made: status
queue web window 3 landed 1
end

# after a read that failed nothing is said unasked, so that a gate whose file is shut says so to each poll

it shows nothing

is idle

a read fails

it shows nothing

is idle

# after edits that failed nothing is said unasked
refuses edits by the store

it shows nothing

is idle

some: > {"id":"0b000000-0000-4000-8000-000000000001","kind":"revision","change":101,"project":"site","revision":1,"message":""}
{"code":"E15","error":"unavailable"}

it shows nothing

is idle"#;

/// A delivery gets this answer.
fn tells<B: Book>(rt: &(impl Abort + AllocGlobal), gate: &mut Gate<B>, line: &str, wanted: &str) {
    let (id, delivery) = read_delivery(rt.alloc(), line.as_bytes(), Door::Any)
        .ok()
        .expect(rt, line);
    match gate.deliver(rt.alloc(), id, delivery) {
        Answer::Said(text) => is(rt, text.as_str(), wanted, line),
        Answer::Refused(refusal) => is(rt, refusal.text(), wanted, line),
    }
}

/// A text is this one and what stands at its end.
fn shows(rt: &impl Abort, text: Result<String, Refusal>, wanted: &str, end: &str) {
    let text = text.ok().expect(rt, wanted);
    let text = text.as_str().strip_suffix(end).expect(rt, wanted);
    is(rt, text, wanted, "a poll");
}

/// What is asked of the gate has this answer. Gives how often the book was asked for it.
pub(crate) fn asks<B: Book>(
    rt: &(impl Abort + AllocGlobal),
    gate: &mut Gate<Counting<B>>,
    asked: &str,
    wanted: &str,
) -> u32 {
    let before = gate.book().reads;
    match asked {
        "status" => shows(rt, gate.status(rt.alloc()), wanted, "\n"),
        "orders" => shows(rt, gate.orders(rt.alloc()), wanted, ""),
        _ => tells(rt, gate, asked.strip_prefix("> ").expect(rt, asked), wanted),
    }
    gate.book().reads.saturating_sub(before)
}

/// What is asked has this answer, and the book is asked for it so often.
fn polls<B: Book>(
    rt: &(impl Abort + AllocGlobal),
    gate: &mut Gate<Counting<B>>,
    title: &str,
    part: &str,
) {
    let (head, wanted) = part.split_once('\n').expect(rt, part);
    let (often, asked) = head.split_once(": ").expect(rt, head);
    let reads = asks(rt, gate, asked, wanted);
    match often {
        "nothing" => holds(rt, reads == 0, title),
        "once" => holds(rt, reads == 1, title),
        "more" => holds(rt, reads > 1, title),
        "some" => holds(rt, reads > 0, title),
        "made" => {
            holds(rt, reads > 0, title);
            holds(rt, asks(rt, gate, asked, wanted) == 0, title);
        }
        _ => panic!(rt; "not so often: {head}"),
    }
}

/// The gate goes on by these parts.
fn goes_on<B: Book>(
    rt: &(impl Abort + AllocGlobal),
    gate: &mut Gate<Counting<B>>,
    title: &str,
    parts: &str,
) {
    for part in parts.trim_end().split("\n\n") {
        polls(rt, gate, title, part);
    }
}

/// The store fails at the read of a build that is asked for.
fn a_read_fails<B: Book>(rt: &(impl Abort + AllocGlobal), gate: &mut Gate<B>) {
    let number = BuildNo::new(1).expect(rt, "a number");
    let found = gate.build(rt.alloc(), number);
    holds(rt, matches!(found, Err(Refusal::Unavailable)), "a fault");
}

/// A gate under these settings, over a book that refuses this once.
pub(crate) fn gate_refusing(
    rt: &(impl Abort + AllocGlobal),
    settings: &str,
    refuses: &str,
) -> Gate<Counting<MemBook>> {
    let config = read(rt.alloc(), settings.as_bytes()).expect(rt, settings);
    let book = MemBook::new(rt.alloc(), &config).expect(rt, "memory");
    Gate::new(config, refusing(rt, book, refuses))
}

/// The read behind those that these parts take.
fn read_behind(rt: &(impl Abort + AllocGlobal), title: &str, parts: &str) -> String {
    let mut gate = gate_refusing(rt, SETTINGS, "");
    goes_on(rt, &mut gate, title, parts);
    let behind = gate.book().reads.saturating_add(1);
    format!(in rt.alloc(); "read {behind}").expect(rt, "memory")
}

/// A gate goes on by some parts, finds that a read fails, and goes on by those behind.
fn plays_around_a_fault(rt: &(impl Abort + AllocGlobal), title: &str, front: &str, back: &str) {
    let refuses = read_behind(rt, title, front);
    let mut gate = gate_refusing(rt, SETTINGS, refuses.as_str());
    goes_on(rt, &mut gate, title, front);
    a_read_fails(rt, &mut gate);
    goes_on(rt, &mut gate, title, back);
}

/// The parts, written out.
fn written_out(rt: &(impl Abort + AllocGlobal), parts: &str) -> String {
    let parts = parts.replace(rt.alloc(), "it shows nothing", NOTHING);
    let parts = parts.expect(rt, "memory");
    let parts = parts.replace(rt.alloc(), "is idle", IDLE);
    parts.expect(rt, "memory")
}

fn plays_scene(rt: &(impl Abort + AllocGlobal), head: &str, parts: &str) {
    let (title, refuses) = head.split_once("\nrefuses ").unwrap_or((head, ""));
    match parts.split_once("\n\na read fails\n\n") {
        Some((front, back)) => plays_around_a_fault(rt, title, front, back),
        None => goes_on(rt, &mut gate_refusing(rt, SETTINGS, refuses), title, parts),
    }
}

#[test]
fn a_gate_that_is_polled_asks_for_nothing(rt: HostRuntime) {
    let scenes = SCENES.strip_prefix("\n# ").expect(&rt, "a title");
    for scene in scenes.split("\n# ") {
        let (head, parts) = scene.split_once("\n\n").expect(&rt, scene);
        plays_scene(&rt, head, written_out(&rt, parts).as_str());
    }
}

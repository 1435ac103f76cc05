//! Memory is refused once, wherever it may be.
use crate::claims::{holds, is};
use crate::scenes::gate_in_memory;
use crate::settings::config;
use crate::talks::goes_on;
use gate_book::{Book, MemBook};
use gate_core::{Gate, replay};
use gate_types::config::Config;
use gate_types::open_fault::OpenFault;
use gate_types::tap::Tap;
use std::alloc::Global;
use std::process::Abort;

/// Deliveries of all eight kinds are accepted; the last ones let a waiting change in.
const TALK: &str =
    r#"> {"id":"00000000-0000-4000-8000-000000000001","kind":"revision","change":102,"project":"app","revision":1,"message":""}
< {"reply":"recorded"}
> {"id":"00000000-0000-4000-8000-000000000002","kind":"approved","change":102,"revision":1}
< {"order":1,"reply":"queued"}
> {"id":"00000000-0000-4000-8000-000000000003","kind":"take","worker":"w1"}
< {"after":0,"ahead":[],"build":1,"change":102,"job":"unit","queue":"core","reply":"build","revision":1}
> {"id":"00000000-0000-4000-8000-000000000004","kind":"result","build":1,"outcome":"success"}
< {"reply":"noted"}
> {"id":"00000000-0000-4000-8000-000000000005","kind":"landed","order":1}
< {"n":1,"reply":"landed"}
> {"id":"00000000-0000-4000-8000-000000000006","kind":"revision","change":104,"project":"app","revision":1,"message":""}
< {"reply":"recorded"}
> {"id":"00000000-0000-4000-8000-000000000007","kind":"approved","change":104,"revision":1}
< {"order":2,"reply":"queued"}
> {"id":"00000000-0000-4000-8000-000000000008","kind":"take","worker":"w1"}
< {"after":1,"ahead":[],"build":2,"change":104,"job":"unit","queue":"core","reply":"build","revision":1}
> {"id":"00000000-0000-4000-8000-000000000009","kind":"result","build":2,"outcome":"success"}
< {"reply":"noted"}
> {"id":"00000000-0000-4000-8000-000000000010","kind":"refused","order":2}
< {"reply":"removed"}
> {"id":"00000000-0000-4000-8000-000000000011","kind":"approved","change":104,"revision":1}
< {"order":3,"reply":"queued"}
> {"id":"00000000-0000-4000-8000-000000000012","kind":"withdrawn","change":104,"revision":1}
< {"reply":"removed"}
> {"id":"00000000-0000-4000-8000-000000000013","kind":"closed","change":104,"revision":1}
< {"reply":"recorded"}
> {"id":"00000000-0000-4000-8000-000000000014","kind":"revision","change":101,"project":"lib","revision":1,"message":""}
< {"reply":"recorded"}
> {"id":"00000000-0000-4000-8000-000000000015","kind":"revision","change":105,"project":"app","revision":1,"message":"Depends-On: https://forge/c/101"}
< {"reply":"recorded"}
> {"id":"00000000-0000-4000-8000-000000000016","kind":"approved","change":105,"revision":1}
< {"reply":"waiting"}
> {"id":"00000000-0000-4000-8000-000000000017","kind":"approved","change":101,"revision":1}
< {"order":4,"reply":"queued"}
> {"id":"00000000-0000-4000-8000-000000000018","kind":"take","worker":"w1"}
< {"after":1,"ahead":[],"build":3,"change":101,"job":"unit","queue":"core","reply":"build","revision":1}"#;

const STATUS: &str = "queue core window 1 landed 1
     4       101    1      - ok      unit=running docs=waiting
     5       105    1      4 ok      unit=waiting
end
";

const UNAVAILABLE: &str = "{\"code\":\"E15\",\"error\":\"unavailable\"}";

/// The status, asked for again where memory is refused.
fn shown<B: Book>(rt: &(impl Abort + AllocGlobal), gate: &mut Gate<B>) -> String {
    match gate.status(rt.alloc()) {
        Ok(status) => status,
        Err(_) => gate.status(rt.alloc()).expect(rt, "a status"),
    }
}

/// What is written for a line; nothing where memory is refused.
fn written<B: Book>(alloc: Global, gate: &mut Gate<B>, line: &str) -> Option<Vec<u8>> {
    let written = Vec::with_capacity(alloc, 256).ok()?;
    let mut r = Tap::new(line.as_bytes());
    let mut w = Tap::new(written);
    let _count = replay(alloc, gate, &mut r, &mut w).ok()?;
    Some(w.into_inner())
}

/// Whether the line gets its answer: where it doesn't, memory was refused.
fn is_answered<B: Book>(
    rt: &(impl Abort + AllocGlobal),
    gate: &mut Gate<B>,
    line: &str,
    answer: &str,
) -> bool {
    let Some(written) = written(rt.alloc(), gate, line) else {
        return false;
    };
    let written = written.as_slice().trim_ascii_end();
    let is_answered = written == answer.as_bytes();
    holds(rt, is_answered || written == UNAVAILABLE.as_bytes(), line);
    is_answered
}

/// Whether memory was refused: then the status is as it was, and the line gets its answer when it is told again.
fn is_refused<B: Book>(
    rt: &(impl Abort + AllocGlobal),
    gate: &mut Gate<B>,
    line: &str,
    answer: &str,
) -> bool {
    let before = shown(rt, gate);
    let is_refused = !is_answered(rt, gate, line, answer);
    if is_refused {
        is(rt, shown(rt, gate).as_str(), before.as_str(), line);
        holds(rt, is_answered(rt, gate, line, answer), line);
    }
    is_refused
}

/// All lines get their answers, and their repeats. Gives the number of refusals.
fn refusals<B: Book>(rt: &(impl Abort + AllocGlobal), gate: &mut Gate<B>) -> u32 {
    let mut refused = 0u32;
    let talk = TALK.strip_prefix("> ").expect(rt, "a line");
    for said in talk.split("\n> ") {
        let (line, answer) = said.split_once("\n< ").expect(rt, said);
        let first = is_refused(rt, gate, line, answer);
        let again = is_refused(rt, gate, line, answer);
        refused = refused
            .saturating_add(u32::from(first))
            .saturating_add(u32::from(again));
    }
    is(rt, shown(rt, gate).as_str(), STATUS, "at the end");
    refused
}

/// Passes whichever one allocation is refused from the first line on.
#[test]
fn a_refusal_of_memory_changes_nothing(rt: HostRuntime) {
    let mut gate = gate_in_memory(&rt, "core 2 1", "");
    assert!(rt; refusals(&rt, &mut gate) < 2);
}

/// With these the queue of the book has another window, and stands behind a new one.
const OTHERS: &str = "core 5 2 behind web, docs votes";

const ADOPTED: &str = "queue web window 2 landed 0
queue core window 5 landed 0
     1       101    1      - ok      unit=running docs=running
     2       102    1      1 ok      unit=running
end
";

/// Whether the book takes the settings: where it doesn't, memory was refused.
fn takes(rt: &impl Abort, book: &mut MemBook, other: &Config) -> bool {
    match book.adopt(other) {
        Ok(()) => true,
        Err(fault) => {
            holds(rt, fault == OpenFault::Unavailable, "other settings");
            false
        }
    }
}

/// The gate with other settings than those that it was made with. Where memory is refused its status is as it was, and
/// it takes them when they come again.
fn adopted(
    rt: &(impl Abort + AllocGlobal),
    gate: Gate<MemBook>,
    kept: Config,
    other: Config,
    before: &str,
) -> Gate<MemBook> {
    let mut book = gate.into_book();
    if takes(rt, &mut book, &other) {
        return Gate::new(other, book);
    }
    let mut gate = Gate::new(kept, book);
    is(rt, shown(rt, &mut gate).as_str(), before, "as it was");
    let mut book = gate.into_book();
    holds(rt, takes(rt, &mut book, &other), "settings that come again");
    Gate::new(other, book)
}

/// Passes whichever one allocation is refused as the settings are taken, and behind that.
#[test]
fn a_refusal_of_memory_leaves_the_settings_of_a_book(rt: HostRuntime) {
    let mut gate = gate_in_memory(&rt, "core 2 1", "");
    goes_on(&rt, &mut gate, "two taken", "tells two taken");
    let before = shown(&rt, &mut gate);
    let kept = config(&rt, "core 2 1");
    let other = config(&rt, OTHERS);
    let mut gate = adopted(&rt, gate, kept, other, before.as_str());
    is(
        &rt,
        shown(&rt, &mut gate).as_str(),
        ADOPTED,
        "other settings",
    );
}

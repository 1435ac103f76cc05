//! Readers and writers that fail in the midst of a conversation, or give few bytes at a time.
use crate::claims::{holds_at, is_at};
use crate::scenes::gate_in_memory;
use crate::streams::{Failing, Narrow};
use gate_book::Book;
use gate_core::{Gate, ReplayFault, replay};
use gate_types::tap::Tap;
use std::process::Abort;

/// A change is approved and waits for the one that it needs, which is approved then.
const LINES: &str =
    r#"{"id":"00000000-0000-4000-8000-000000000001","kind":"revision","change":101,"project":"lib","revision":1,"message":""}
{"id":"00000000-0000-4000-8000-000000000002","kind":"revision","change":102,"project":"app","revision":1,"message":"Depends-On: https://forge/c/101"}
{"id":"00000000-0000-4000-8000-000000000003","kind":"approved","change":102,"revision":1}
{"id":"00000000-0000-4000-8000-000000000004","kind":"approved","change":101,"revision":1}
"#;

const ANSWERS: &str = r#"{"reply":"recorded"}
{"reply":"recorded"}
{"reply":"waiting"}
{"order":1,"reply":"queued"}
"#;

/// Another delivery, under the id of each of the lines in turn.
const OTHERS: &str =
    r#"{"id":"00000000-0000-4000-8000-000000000001","kind":"approved","change":103,"revision":1}
{"id":"00000000-0000-4000-8000-000000000002","kind":"approved","change":103,"revision":1}
{"id":"00000000-0000-4000-8000-000000000003","kind":"approved","change":103,"revision":1}
{"id":"00000000-0000-4000-8000-000000000004","kind":"approved","change":103,"revision":1}
"#;

const REUSED: &str = "{\"code\":\"E4\",\"error\":\"id-reused\"}\n";

const UNKNOWN: &str = "{\"code\":\"E5\",\"error\":\"unknown-change\"}\n";

/// How many reads and bytes no conversation here needs.
const MANY: usize = 10_000;

/// How many lines are read, and what is written, where so many reads give so many bytes each and then fail, and a
/// writer has room for so many bytes.
fn replayed<B: Book>(
    rt: &(impl Abort + AllocGlobal),
    gate: &mut Gate<B>,
    lines: &str,
    (reads, step): (usize, usize),
    room: usize,
) -> (Result<u64, ReplayFault>, String) {
    let mut r = Tap::new(Failing {
        bytes: lines.as_bytes(),
        step,
        left: reads,
    });
    let mut w = Tap::new(Narrow {
        taken: Vec::new(rt.alloc()),
        left: room,
        silent: room % 2 == 0,
    });
    let count = replay(rt.alloc(), gate, &mut r, &mut w);
    let Narrow { taken, .. } = w.into_inner();
    (count, String::from_utf8(taken).ok().expect(rt, "a text"))
}

/// How many lines end within so many bytes.
fn lines_within(text: &str, length: usize) -> usize {
    text.get(..length).unwrap_or(text).matches('\n').count()
}

/// So many of the lines' ids are spent, and the lines get their answers, new or kept.
fn continues<B: Book>(rt: &(impl Abort + AllocGlobal), gate: &mut Gate<B>, spent: usize) {
    for (index, other) in OTHERS.lines().enumerate() {
        let (_count, written) = replayed(rt, gate, other, (MANY, MANY), MANY);
        let answer = if index < spent { REUSED } else { UNKNOWN };
        is_at(rt, written.as_str(), answer, spent, "ids spent:");
    }
    let (count, written) = replayed(rt, gate, LINES, (MANY, MANY), MANY);
    holds_at(rt, count == Ok(4), spent, "ids spent:");
    is_at(rt, written.as_str(), ANSWERS, spent, "ids spent:");
}

/// The answer after so many bytes is cut, and its delivery stands.
fn stands_after<B: Book>(rt: &(impl Abort + AllocGlobal), gate: &mut Gate<B>, room: usize) {
    let (count, taken) = replayed(rt, gate, LINES, (MANY, MANY), room);
    let wanted = if room < ANSWERS.len() {
        Err(ReplayFault::Write)
    } else {
        Ok(4)
    };
    holds_at(rt, count == wanted, room, "bytes written:");
    let front = ANSWERS.get(..room).unwrap_or("cut in a letter");
    is_at(rt, taken.as_str(), front, room, "bytes written:");
    continues(rt, gate, lines_within(ANSWERS, room).saturating_add(1));
}

/// The answers have 91 bytes. The delivery whose answer is cut stands.
#[test]
fn after_a_write_error_the_delivery_stands(rt: HostRuntime) {
    for room in 0..92 {
        let mut gate = gate_in_memory(&rt, "core 2 1", "");
        stands_after(&rt, &mut gate, room);
    }
}

/// The line that so many reads of a byte cut is new later.
fn is_new_after<B: Book>(rt: &(impl Abort + AllocGlobal), gate: &mut Gate<B>, reads: usize) {
    let (count, written) = replayed(rt, gate, LINES, (reads, 1), MANY);
    let spent = lines_within(LINES, reads);
    let answered = lines_within(written.as_str(), MANY);
    let is_whole = written.is_empty() || written.ends_with('\n');
    holds_at(rt, count == Err(ReplayFault::Read), reads, "reads:");
    holds_at(rt, ANSWERS.starts_with(written.as_str()), reads, "reads:");
    holds_at(rt, answered == spent && is_whole, reads, "reads:");
    continues(rt, gate, spent);
}

/// The lines have 449 bytes.
#[test]
fn a_line_that_a_read_error_cut_is_new_later(rt: HostRuntime) {
    for reads in 0..450 {
        let mut gate = gate_in_memory(&rt, "core 2 1", "");
        is_new_after(&rt, &mut gate, reads);
    }
}

const INPUT: &str = "1\n\n{}\n[1]";

const OUTPUT: &str = r#"{"code":"E2","error":"bad-delivery"}
{"code":"E1","error":"bad-json"}
{"code":"E2","error":"bad-delivery"}
{"code":"E2","error":"bad-delivery"}
"#;

/// The lines of the input are answered, where a read gives so many bytes.
fn reads_by<B: Book>(rt: &(impl Abort + AllocGlobal), gate: &mut Gate<B>, step: usize) {
    let (count, written) = replayed(rt, gate, INPUT, (20, step), MANY);
    holds_at(rt, count == Ok(4), step, "bytes a read:");
    is_at(rt, written.as_str(), OUTPUT, step, "bytes a read:");
}

#[test]
fn few_bytes_a_read_change_nothing(rt: HostRuntime) {
    for step in 1..6 {
        let mut gate = gate_in_memory(&rt, "core 2 1", "");
        reads_by(&rt, &mut gate, step);
    }
}

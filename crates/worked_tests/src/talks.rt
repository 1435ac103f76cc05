//! What is told to a gate and what it shows, part after part, with an empty line between two.
//!
//! In a part that is told, lines behind `>` are told, a last one behind `>>` without an end, and lines behind `<` are
//! the answers; `<a*9>` stands in what is told for a text so many times. `tells two taken` stands for such a part of
//! `beginnings`. Below `for n from 2 to 9` stands such a part that is told once for each of these numbers: `<n>` is
//! the number, `<000n>` the number in twelve digits, `<n+1>` the next one, and `<to n>` has `,[k,1]` for each number k
//! from the first up to the one before.
//!
//! Each other part is what the gate shows: its first line says of what, and its text stands below. It is `status`, in
//! which a line `...` stands for any lines, `status without unit=running`, `orders`, `build 3` or `history core`,
//! where the text may be `none`, `history core from 3`, or `history core up to byte 20`, where a writer fails behind
//! that byte. What `asked` has is shown by `change 301`, `item 1` and `deliveries behind ID`, where it may be `none`
//! too, `running`, `deliveries` and `deliveries up to byte 20`.
use crate::asked::{has_change, has_deliveries, has_item, has_running, narrow};
use crate::beginnings::beginning;
use crate::claims::{holds, is};
use crate::streams::Narrow;
use gate_archive::Archive;
use gate_book::{Book, HistoryFault};
use gate_core::{Gate, replay};
use gate_types::deliveries::Refusal;
use gate_types::numbers::BuildNo;
use gate_types::tap::Tap;
use std::process::Abort;
use std::str::from_utf8;

/// More bytes than any history here has.
const WIDE: usize = 10_000;

/// What stands for a line or a text that isn't there, and is none.
const NONE: &str = "\n";

/// Adds the words, with `<a*9>` in them for a text so many times.
fn push(rt: &impl Abort, told: &mut String, words: &str) {
    let Some((front, rest)) = words.split_once('<') else {
        return told.push_str(words).expect(rt, "memory");
    };
    let (text, rest) = rest.split_once('*').expect(rt, words);
    let (times, back) = rest.split_once('>').expect(rt, words);
    let times = times.parse::<usize>().ok().expect(rt, words);
    told.push_str(front).expect(rt, "memory");
    for _ in 0..times {
        told.push_str(text).expect(rt, "memory");
    }
    told.push_str(back).expect(rt, "memory");
}

/// What is told in a talk.
fn told(rt: &(impl Abort + AllocGlobal), title: &str, talk: &str) -> String {
    let mut told = String::new(rt.alloc());
    for line in talk.lines() {
        let (mark, words) = line.split_once(' ').unwrap_or((line, ""));
        match mark {
            "<" => {}
            ">" | ">>" => push(rt, &mut told, words),
            _ => panic!(rt; "{title}: neither told nor answered: {line}"),
        }
        if mark == ">" {
            told.push('\n').expect(rt, "memory");
        }
    }
    told
}

/// The answers of a talk are written, and nothing else. Gives their number.
fn answered(rt: &impl Abort, title: &str, talk: &str, written: &str) -> u64 {
    let mut lines = written.split('\n');
    let mut count = 0u64;
    for line in talk.lines() {
        if let Some(answer) = line.strip_prefix("< ") {
            is(rt, lines.next().unwrap_or(NONE), answer, title);
            count = count.saturating_add(1);
        }
    }
    is(rt, lines.next().unwrap_or(NONE), "", title);
    holds(rt, lines.next().is_none(), title);
    count
}

/// What is told gets its answers.
pub(crate) fn tells<B: Book>(
    rt: &(impl Abort + AllocGlobal),
    gate: &mut Gate<B>,
    title: &str,
    talk: &str,
) {
    let told = told(rt, title, talk);
    let mut r = Tap::new(told.as_bytes());
    let mut w = Tap::new(Vec::new(rt.alloc()));
    let count = replay(rt.alloc(), gate, &mut r, &mut w).expect(rt, title);
    let written = w.into_inner();
    let written = from_utf8(written.as_slice()).ok().expect(rt, title);
    holds(rt, answered(rt, title, talk, written) == count, title);
}

/// Adds a piece of lines: what stands for a mark and a number, and the text behind its `>`.
fn push_piece(rt: &impl Abort, talk: &mut String, piece: &str, n: u32, before: &str) {
    let (mark, rest) = piece.split_once('>').unwrap_or(("", piece));
    match mark {
        "n" => write!(talk, "{n}{rest}"),
        "000n" => write!(talk, "{n:012}{rest}"),
        "n+1" => write!(talk, "{}{rest}", n.saturating_add(1)),
        "to n" => write!(talk, "{before}{rest}"),
        _ => write!(talk, "<{piece}"),
    }
    .expect(rt, "memory");
}

/// Adds the lines for one number.
fn push_numbered(rt: &impl Abort, talk: &mut String, lines: &str, n: u32, before: &str) {
    let (front, pieces) = lines.split_once('<').expect(rt, lines);
    talk.push_str(front).expect(rt, "memory");
    for piece in pieces.split('<') {
        push_piece(rt, talk, piece, n, before);
    }
    talk.push('\n').expect(rt, "memory");
}

/// The lines, once for each number, as `n from 2 to 9`.
fn repeated(rt: &(impl Abort + AllocGlobal), words: &str, lines: &str) -> String {
    let (first, last) = words.split_once(" to ").expect(rt, words);
    let first = first.strip_prefix("n from ").expect(rt, words);
    let first = first.parse::<u32>().ok().expect(rt, words);
    let last = last.parse::<u32>().ok().expect(rt, words);
    let mut talk = String::new(rt.alloc());
    let mut before = String::new(rt.alloc());
    for n in first..last.saturating_add(1) {
        push_numbered(rt, &mut talk, lines, n, before.as_str());
        write!(before, ",[{n},1]").expect(rt, "memory");
    }
    talk
}

/// A status is this text, or has nothing of what it is to be without.
fn is_status(rt: &impl Abort, status: &str, title: &str, words: &str, text: &str) {
    if !words.is_empty() {
        let missing = words.strip_prefix("without ").expect(rt, words);
        holds(rt, text.is_empty() && !status.contains(missing), title);
    } else if let Some((front, back)) = text.split_once("...") {
        holds(rt, status.starts_with(front), title);
        holds(rt, status.ends_with(back), title);
    } else {
        is(rt, status, text, title);
    }
}

/// The status text is this, or has nothing of what it is to be without.
fn has_status<B: Book>(
    rt: &(impl Abort + AllocGlobal),
    gate: &mut Gate<B>,
    title: &str,
    words: &str,
    text: &str,
) {
    let status = gate.status(rt.alloc()).expect(rt, title);
    let status = status.as_str().strip_suffix('\n').expect(rt, title);
    is_status(rt, status, title, words, text);
}

/// The orders that are shown are these.
fn has_orders<B: Book>(
    rt: &(impl Abort + AllocGlobal),
    gate: &mut Gate<B>,
    title: &str,
    text: &str,
) {
    let orders = gate.orders(rt.alloc()).expect(rt, title);
    is(rt, orders.as_str(), text, title);
}

/// The build of the number has this text, or there is none.
fn has_build<B: Book>(
    rt: &(impl Abort + AllocGlobal),
    gate: &mut Gate<B>,
    title: &str,
    number: &str,
    text: &str,
) {
    let number = number.parse::<u64>().ok().expect(rt, number);
    let number = BuildNo::new(number).expect(rt, title);
    match gate.build(rt.alloc(), number) {
        Ok(build) => is(rt, build.as_str(), text, title),
        Err(refusal) => {
            holds(rt, refusal == Refusal::UnknownBuild, title);
            is(rt, "none", text, title);
        }
    }
}

/// A queue, and the place from which its history is asked for, if one is said.
fn place_said(words: &str) -> (&str, Option<u64>) {
    match words.split_once(" from ") {
        Some((queue, from)) => (queue, from.parse::<u64>().ok()),
        None => (words, None),
    }
}

/// The queue has this history, or its beginning is what a writer takes, or there is no such queue.
fn has_history<B: Archive>(
    rt: &(impl Abort + AllocGlobal),
    gate: &mut Gate<B>,
    title: &str,
    words: &str,
    text: &str,
) {
    let (queue, room) = match words.split_once(" up to byte ") {
        Some((queue, room)) => (queue, room.parse::<usize>().ok().expect(rt, words)),
        None => (words, WIDE),
    };
    let mut w = Tap::new(narrow(rt.alloc(), room));
    let answered = match place_said(queue) {
        (queue, Some(from)) => gate.history_from(queue, from, b"", &mut w),
        (queue, None) => gate.history(queue, b"", &mut w),
    };
    let Narrow { taken, .. } = w.into_inner();
    let taken = from_utf8(taken.as_slice()).ok().expect(rt, title);
    match answered {
        Ok(()) => is(rt, taken.strip_suffix('\n').unwrap_or(NONE), text, title),
        Err(HistoryFault::Write) => is(rt, taken, text.get(..room).unwrap_or(NONE), title),
        Err(fault) => {
            holds(rt, fault == HistoryFault::NoQueue, title);
            is(rt, taken, "", title);
            is(rt, "none", text, title);
        }
    }
}

/// The gate goes on by this part.
fn says<B: Archive>(rt: &(impl Abort + AllocGlobal), gate: &mut Gate<B>, title: &str, part: &str) {
    let (head, text) = part.split_once('\n').unwrap_or((part, ""));
    let (word, words) = head.split_once(' ').unwrap_or((head, ""));
    match word {
        ">" | ">>" => tells(rt, gate, title, part),
        "tells" if text.is_empty() => tells(rt, gate, title, beginning(rt, words)),
        "for" => tells(rt, gate, title, repeated(rt, words, text).as_str()),
        "status" => has_status(rt, gate, title, words, text),
        "orders" if words.is_empty() => has_orders(rt, gate, title, text),
        "build" => has_build(rt, gate, title, words, text),
        "history" => has_history(rt, gate, title, words, text),
        "change" => has_change(rt, gate, title, words, text),
        "item" => has_item(rt, gate, title, words, text),
        "running" => has_running(rt, gate, title, text),
        "deliveries" => has_deliveries(rt, gate, title, words, text),
        _ => panic!(rt; "{title}: no part of a scene: {part}"),
    }
}

/// The gate goes on by these parts.
pub(crate) fn goes_on<B: Archive>(
    rt: &(impl Abort + AllocGlobal),
    gate: &mut Gate<B>,
    title: &str,
    parts: &str,
) {
    for part in parts.trim_end().split("\n\n") {
        says(rt, gate, title, part);
    }
}

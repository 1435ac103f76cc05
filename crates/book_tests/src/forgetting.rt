//! A book that holds what is live holds nothing once the store below has failed, whatever was asked: it asks below again.
use crate::asked::Takes;
use crate::claims::holds;
use crate::counting::refusing;
use crate::edits::edits;
use crate::scenes::{ONE_QUEUE, plays};
use crate::settings::settings;
use gate_archive::Archive;
use gate_book::{Book, MemBook};
use gate_live::LiveBook;
use gate_types::numbers::Serial;
use gate_types::tap::Tap;
use std::process::Abort;

/// Seven reads below fill a book with all that is live.
const ALL: &str = "live over first";

const FILLED: &str = "settings core/10/1 lib@core = taken";

/// The book below lacks a queue of the settings: then no queue is held, nor the counters.
const NO_QUEUE: &str = "settings core/10/1 web/4/2 lib@core = taken";

/// The book below lacks a change of its own ready list: then no change is held.
const NO_CHANGE: &str = "live over first, lacks 103";

/// Reads that a book with all that is live asks below.
const OF_ALL: &str = "kept 9 = the store fails
change 101 = the store fails
plan 2 = the store fails
live 2 = the store fails
needing core 101 0 = the store fails
plans core 0 4 = the store fails
builds core 0 4 = the store fails
build 1 = the store fails
before core 2 = the store fails
history core 99 = , unavailable";

/// Those that it asks below once no queue is held.
const OF_QUEUES: &str = "window core = the store fails
length core = the store fails
landings core = the store fails
reports core = the store fails
items core = the store fails
item 4 = the store fails
queued 102 = the store fails
next core 2 = the store fails
last core 4 = the store fails
first core 0 1 = the store fails
needing core 101 0 = the store fails
plans core 0 4 = the store fails
builds core 0 4 = the store fails
counters = the store fails";

/// Those that it asks below once no change is held.
const OF_CHANGES: &str = "ready = the store fails
approval 103 = the store fails
enters 101 = the store fails";

/// Five reads, of each part that may be held.
const ASKED_BELOW: &str = "counters = 0 0 4
sizes core = 5 2 1
ready = 7 103

below, asked ";

/// Plays a scene for each of these lines: `held` is answered from memory, then the line's read, the eighth below, fails.
/// The five reads behind it are asked below, whatever was held.
fn forgets_at_each(
    rt: &(impl Abort + AllocGlobal),
    over: &str,
    filled: &str,
    held: &str,
    lines: &str,
) {
    for line in lines.lines() {
        let scene = format!(in rt.alloc();
            "\n# the store fails at {line}\n{over}, refuses read 8\n\n{filled}\n{held}\n{line}\n{ASKED_BELOW}13"
        ).expect(rt, "memory");
        plays(rt, scene.as_str());
    }
}

#[test]
fn nothing_is_held_behind_a_read_at_which_the_store_fails(rt: HostRuntime) {
    let queues = "sizes core = 5 2 1";
    let changes = "ready = 7 103";
    forgets_at_each(&rt, ALL, FILLED, queues, OF_ALL);
    forgets_at_each(&rt, ALL, NO_QUEUE, changes, OF_QUEUES);
    forgets_at_each(&rt, NO_CHANGE, FILLED, queues, OF_CHANGES);
}

/// The book is filled, and filled again, where the store fails at each of the seven reads in turn.
#[test]
fn nothing_is_held_once_the_store_has_failed_at_what_is_live(rt: HostRuntime) {
    for read in 8..15u32 {
        let asked = read + 5;
        let scene = format!(in rt.alloc();
            "\n# filled again\n{ALL}, refuses read {read}\n\n{FILLED}\n\
            settings core/10/1 lib@core = the store fails\n{ASKED_BELOW}{asked}"
        )
        .expect(&rt, "memory");
        plays(&rt, scene.as_str());
    }
}

/// Whether what is past can't be asked for: what left, its builds, their number, a history, or deliveries.
fn is_refused<B: Archive>(rt: &(impl Abort + AllocGlobal), book: &mut B, asked: u32) -> bool {
    let serial = Serial::new(1).expect(rt, "a serial");
    let mut w = Tap::new(Vec::new(rt.alloc()));
    match asked {
        0 => book.left(serial).is_err(),
        1 => book.build_count(serial).is_err(),
        2 => book.last_builds(serial, 5).is_err(),
        3 => book.history_from("core", 1, b"", &mut w).is_err(),
        _ => book.deliveries(None, 5, b"", &mut w).is_err(),
    }
}

/// The book is filled, what is past is refused, and the counters are asked below.
fn forgets<B: Archive + Drop>(rt: &(impl Abort + AllocGlobal), mut below: B, asked: u32) {
    let put = below.apply(edits(rt, "first").as_slice());
    holds(rt, put.is_ok(), "edits");
    let mut book = LiveBook::new(rt.alloc(), refusing(rt, below, "read 8"));
    let filled = book.takes(&settings(rt, ONE_QUEUE));
    holds(rt, filled == "taken", "settings");
    holds(rt, is_refused(rt, &mut book, asked), "what is past");
    holds(rt, book.counters().is_ok(), "counters");
    holds(rt, book.into_book().reads == 9, "the reads below");
}

#[test]
fn nothing_is_held_once_the_store_has_failed_at_what_is_past(rt: HostRuntime) {
    for asked in 0..5u32 {
        let config = settings(&rt, ONE_QUEUE);
        let below = MemBook::new(rt.alloc(), &config).expect(&rt, "memory");
        forgets(&rt, below, asked);
    }
}

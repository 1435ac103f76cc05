//! What a book is told and asked, a line each, as `item 4`, and its answer as text.
//!
//! `put` does the edits behind it, `keeps 9` keeps nine replies, and `settings` gives the book these settings: one in
//! memory adopts them, one that holds what is live reads that anew. All else is asked: `sizes core` tells the window of
//! a queue and how many items and landings it has, as `window core`, `length core` and `landings core` do one by one,
//! `before core 2` how many landings have a lower serial,
//! `first core 0 1` the first items above a serial, no more than one, and `needing core 101 0` those above a serial
//! whose changes need 101; `enters 101` tells the ready changes that need it. `plans core 0 4` and `builds core 0 4`
//! tell of the items above a serial up to another. `history core 20` is written, with a `|` at the end of each line,
//! behind a front and to a writer that takes 20 bytes.
use crate::edits::{edits, id, keep};
use crate::settings::settings;
use crate::told::{Told, counted, fault_word, found, listed, push};
use crate::words::{build, change, name, number, serial, size, word};
use gate_book::{Book, BookFault, HistoryFault, MemBook};
use gate_live::LiveBook;
use gate_types::config::Config;
use gate_types::names::Name;
use gate_types::open_fault::OpenFault;
use gate_types::tap::Tap;
use std::io;
use std::io::Write;
use std::process::Abort;
use std::str::{SplitWhitespace, from_utf8};

/// A book that is given settings.
pub(crate) trait Takes: Book {
    /// What comes of it.
    fn takes(&mut self, config: &Config) -> &'static str;
}

impl Takes for MemBook {
    fn takes(&mut self, config: &Config) -> &'static str {
        match self.adopt(config) {
            Ok(()) => "taken",
            Err(OpenFault::OtherSettings) => "refused",
            Err(_) => "another fault",
        }
    }
}

impl<B: Book> Takes for LiveBook<B> {
    fn takes(&mut self, config: &Config) -> &'static str {
        match self.fill(config) {
            Ok(()) => "taken",
            Err(fault) => fault_word(fault),
        }
    }
}

/// Takes bytes while it has room for them, and fails then.
#[derive(Drop)]
struct Short {
    bytes: Vec<u8>,
    room: usize,
}

impl Write for Short {
    fn write(&mut self, buf: &[u8]) -> io::Result<usize> {
        if self.room == 0 {
            return Err(io::Error::from(io::ErrorKind::Interrupted));
        }
        let n = buf.len().min(self.room);
        self.room -= n;
        self.bytes.write(&buf[..n])
    }

    fn flush(&mut self) -> io::Result<()> {
        Ok(())
    }
}

fn history_word(done: Result<(), HistoryFault>) -> &'static str {
    match done {
        Ok(()) => ", whole",
        Err(HistoryFault::NoQueue) => ", no queue",
        Err(HistoryFault::Unavailable) => ", unavailable",
        Err(HistoryFault::Broken) => ", broken",
        Err(HistoryFault::Write) => ", cut",
    }
}

/// What comes of a history, and what of it and its front a writer with so much room takes.
fn history<B: Book>(
    rt: &(impl Abort + AllocGlobal),
    book: &mut B,
    told: &mut String,
    words: &mut SplitWhitespace,
) {
    let queue = word(rt, words);
    let room = word(rt, words).parse::<usize>().ok().expect(rt, queue);
    let bytes = Vec::new(rt.alloc());
    let mut w = Tap::new(Short { bytes, room });
    let done = book.history(queue, b"front\n", &mut w);
    let Short { bytes, room: _ } = w.into_inner();
    let text = from_utf8(bytes.as_slice()).ok().expect(rt, queue);
    let text = text.replace(rt.alloc(), "\n", "|").expect(rt, "memory");
    push(rt, told, text.as_str());
    push(rt, told, history_word(done));
}

fn done(rt: &impl Abort, told: &mut String, done: Result<(), BookFault>) {
    match done {
        Ok(()) => push(rt, told, "done"),
        Err(fault) => push(rt, told, fault_word(fault)),
    }
}

fn put<B: Book>(rt: &(impl Abort + AllocGlobal), book: &mut B, told: &mut String, words: &str) {
    let edits = edits(rt, words);
    done(rt, told, book.apply(edits.as_slice()));
}

/// Keeps so many replies, one after another.
fn keeps<B: Book>(rt: &(impl Abort + AllocGlobal), book: &mut B, told: &mut String, many: u64) {
    for number in 0..many {
        let edits = [keep(rt, number, "kept")];
        book.apply(&edits).expect(rt, "memory");
    }
    push(rt, told, "done");
}

/// The window of a queue, and how many items and landings it has.
fn size_of<B: Book>(rt: &impl Abort, book: &mut B, told: &mut String, queue: &Name) {
    found(rt, told, book.window(queue));
    push(rt, told, " ");
    counted(rt, told, book.item_count(queue));
    push(rt, told, " ");
    counted(rt, told, book.landing_count(queue));
}

/// One of these sizes.
fn asks_size<B: Book>(rt: &impl Abort, book: &mut B, told: &mut String, queue: &Name, asked: &str) {
    match asked {
        "window" => found(rt, told, book.window(queue)),
        "length" => counted(rt, told, book.item_count(queue)),
        "landings" => counted(rt, told, book.landing_count(queue)),
        _ => panic!(rt; "nothing is asked: {asked}"),
    }
}

/// What is asked of a queue by its name.
fn asks_queue<B: Book>(
    rt: &(impl Abort + AllocGlobal),
    book: &mut B,
    told: &mut String,
    queue: &Name,
    asked: &str,
    words: &mut SplitWhitespace,
) {
    match asked {
        "sizes" => size_of(rt, book, told, queue),
        "reports" => counted(rt, told, book.reports(queue)),
        "before" => counted(rt, told, book.landing_before(queue, serial(rt, words))),
        "items" => listed(rt, told, book.items(queue)),
        "next" => found(rt, told, book.next_item(queue, number(rt, words))),
        "last" => found(rt, told, book.last_item(queue, number(rt, words))),
        "first" => {
            let above = number(rt, words);
            listed(rt, told, book.next_items(queue, above, size(rt, words)));
        }
        "needing" => {
            let needed = change(rt, words);
            listed(rt, told, book.needing(queue, needed, number(rt, words)));
        }
        "plans" => {
            let above = number(rt, words);
            listed(
                rt,
                told,
                book.plans_between(queue, above, serial(rt, words)),
            );
        }
        "builds" => {
            let above = number(rt, words);
            listed(
                rt,
                told,
                book.builds_between(queue, above, serial(rt, words)),
            );
        }
        _ => asks_size(rt, book, told, queue, asked),
    }
}

fn counters<B: Book>(rt: &impl Abort, book: &mut B, told: &mut String) {
    match book.counters() {
        Ok(drawn) => {
            drawn.approval.tell(rt, told);
            push(rt, told, " ");
            drawn.build.tell(rt, told);
            push(rt, told, " ");
            drawn.order.tell(rt, told);
        }
        Err(fault) => push(rt, told, fault_word(fault)),
    }
}

/// What is asked by a number, or of all.
fn asks<B: Book>(
    rt: &(impl Abort + AllocGlobal),
    book: &mut B,
    told: &mut String,
    asked: &str,
    words: &mut SplitWhitespace,
) {
    match asked {
        "item" => found(rt, told, book.item(serial(rt, words))),
        "queued" => found(rt, told, book.queued(change(rt, words))),
        "plan" => found(rt, told, book.plan(serial(rt, words))),
        "live" => listed(rt, told, book.live_builds(serial(rt, words))),
        "build" => found(rt, told, book.build(build(rt, words))),
        "change" => found(rt, told, book.change(change(rt, words))),
        "approval" => found(rt, told, book.approval(change(rt, words))),
        "kept" => found(rt, told, book.delivery(&id(number(rt, words)))),
        "ready" => listed(rt, told, book.ready()),
        "enters" => listed(rt, told, book.ready_needing(change(rt, words))),
        "counters" => counters(rt, book, told),
        "history" => history(rt, book, told, words),
        "keeps" => keeps(rt, book, told, number(rt, words)),
        _ => {
            let queue = name(rt, word(rt, words));
            asks_queue(rt, book, told, &queue, asked, words);
        }
    }
}

/// What a book answers to a line.
pub(crate) fn answer<B: Takes>(
    rt: &(impl Abort + AllocGlobal),
    book: &mut B,
    line: &str,
) -> String {
    let mut told = String::new(rt.alloc());
    let (asked, rest) = line.split_once(' ').unwrap_or((line, ""));
    match asked {
        "put" => put(rt, book, &mut told, rest),
        "settings" => push(rt, &mut told, book.takes(&settings(rt, rest))),
        _ => {
            let mut words = rest.split_whitespace();
            asks(rt, book, &mut told, asked, &mut words);
            assert!(rt; words.next().is_none(), "{line}");
        }
    }
    told
}

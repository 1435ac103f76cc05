//! A gate that goes on by the chapters of a scene: at the beginning of each but the first its book takes other
//! settings, as `scenes` says.
use crate::claims::is;
use crate::settings::config;
use crate::stored::files::{conn_of, gate_under, made_under, opened_under, outcome};
use crate::talks::goes_on;
use gate_book::MemBook;
use gate_core::Gate;
use sqlite::{Alter, Connection};
use std::process::Abort;

/// The words of the settings, what comes of them, and what is told and shown then.
fn parts_of(chapter: &str) -> (&str, &str, &str) {
    let (head, parts) = chapter.split_once("\n\n").unwrap_or((chapter, ""));
    let (words, wanted) = head.split_once('\n').unwrap_or((head, "done"));
    (words, wanted, parts)
}

/// The gate with these settings, or as it was where its book refuses them.
fn adopts(
    rt: &(impl Abort + AllocGlobal),
    gate: Gate<MemBook>,
    words: &str,
    wanted: &str,
) -> Gate<MemBook> {
    let other = config(rt, words);
    let kept = gate.config().copy().expect(rt, "memory");
    let mut book = gate.into_book();
    let fault = book.adopt(&other).err();
    is(rt, outcome(fault), wanted, words);
    if fault.is_none() {
        Gate::new(other, book)
    } else {
        Gate::new(kept, book)
    }
}

/// The gate goes on by a chapter.
fn chapter_in_memory(
    rt: &(impl Abort + AllocGlobal),
    gate: Gate<MemBook>,
    title: &str,
    chapter: &str,
) -> Gate<MemBook> {
    let (words, wanted, parts) = parts_of(chapter);
    let mut gate = adopts(rt, gate, words, wanted);
    if !parts.is_empty() {
        goes_on(rt, &mut gate, title, parts);
    }
    gate
}

/// The gate goes on by all chapters of these parts.
pub(crate) fn goes_on_in_memory(
    rt: &(impl Abort + AllocGlobal),
    mut gate: Gate<MemBook>,
    title: &str,
    parts: &str,
) {
    let mut chapters = parts.trim_end().split("\n\nthen ");
    goes_on(rt, &mut gate, title, chapters.next().unwrap_or(""));
    for chapter in chapters {
        gate = chapter_in_memory(rt, gate, title, chapter);
    }
}

/// The gate in a file goes on by these parts.
pub(crate) fn goes_on_over<S: Alter + Drop>(
    rt: &(impl Abort + AllocGlobal),
    conn: Connection<S>,
    words: &str,
    title: &str,
    parts: &str,
) -> Connection<S> {
    let mut gate = gate_under(rt, conn, words).ok().expect(rt, title);
    if !parts.is_empty() {
        goes_on(rt, &mut gate, title, parts);
    }
    conn_of(gate)
}

/// The gate in a file with these settings goes on by a chapter. Gives the words of its settings then.
fn chapter_over<S: Alter + Drop>(
    rt: &(impl Abort + AllocGlobal),
    conn: Connection<S>,
    kept: &str,
    title: &str,
    chapter: &str,
) -> (String, Connection<S>) {
    let (words, wanted, parts) = parts_of(chapter);
    let (fault, conn) = opened_under(rt, conn, words);
    is(rt, outcome(fault), wanted, title);
    let words = if fault.is_none() { words } else { kept };
    let conn = goes_on_over(rt, conn, words, title, parts);
    (owned(rt, words), conn)
}

/// The words, which a loop hands on as a text of its own.
fn owned(rt: &(impl Abort + AllocGlobal), words: &str) -> String {
    String::from_str(rt.alloc(), words).expect(rt, "memory")
}

/// A gate over the tables of a new file goes on by all chapters of these parts. Each chapter closes the file.
pub(crate) fn goes_on_in_file<S: Alter + Drop>(
    rt: &(impl Abort + AllocGlobal),
    conn: Connection<S>,
    queues: &str,
    title: &str,
    parts: &str,
) {
    let mut chapters = parts.trim_end().split("\n\nthen ");
    let mut words = owned(rt, queues);
    let mut conn = made_under(rt, conn, queues);
    conn = goes_on_over(rt, conn, queues, title, chapters.next().unwrap_or(""));
    for chapter in chapters {
        (words, conn) = chapter_over(rt, conn, words.as_str(), title, chapter);
    }
}

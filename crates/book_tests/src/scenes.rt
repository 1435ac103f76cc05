//! Texts of scenes, each with a book of its own.
//!
//! A scene has a title behind `# `, then its book: `memory` is one in memory, under the settings `KEPT` and with these
//! counters drawn: approval 7, build 8, order 9. `live over first` is one that holds what is live over a book in memory
//! with the edits `first`, which has a single queue; behind `, lacks` stands a change that reads of the book below don't
//! find, and behind `, refuses` what it refuses once. Behind an empty line come parts with an empty line between two. A part has lines as `item 3 = none`: what the book is told
//! or asked, as `asked` says, and its answer; behind `twice` they come twice. At `below, asked 7` the book that holds
//! what is live ends: the one below was asked so often, and goes on alone by the parts behind.
use crate::asked::{Takes, answer};
use crate::claims::{answers, holds};
use crate::counting::{Counting, refusing};
use crate::edits::edits;
use crate::settings::settings;
use gate_book::{Book, MemBook};
use gate_live::LiveBook;
use gate_types::records::Counters;
use std::process::Abort;

/// The settings of a book in memory, and what it has drawn.
const KEPT: &str = "core/10/1 web/4/2 lib@core site@web";

const DRAWN: Counters = Counters {
    approval: 7,
    build: 8,
    order: 9,
};

/// The settings of a book that holds what is live, and of the one below, which has drawn nothing.
pub(crate) const ONE_QUEUE: &str = "core/10/1 lib@core";

const NOTHING: Counters = Counters {
    approval: 0,
    build: 0,
    order: 0,
};

/// The book goes on by these lines.
fn goes_on_by<B: Takes>(rt: &(impl Abort + AllocGlobal), book: &mut B, title: &str, lines: &str) {
    for line in lines.lines() {
        let (asked, wanted) = line.rsplit_once(" = ").expect(rt, line);
        answers(rt, answer(rt, book, asked).as_str(), wanted, title, asked);
    }
}

/// The book goes on by these parts.
fn goes_on<B: Takes>(rt: &(impl Abort + AllocGlobal), book: &mut B, title: &str, parts: &str) {
    for part in parts.trim_end().split("\n\n") {
        let lines = part.strip_prefix("twice\n").unwrap_or(part);
        goes_on_by(rt, book, title, lines);
        if part.starts_with("twice\n") {
            goes_on_by(rt, book, title, lines);
        }
    }
}

/// The book that holds what is live goes on by these parts. Gives the one below.
fn lives<B: Book + Drop>(
    rt: &(impl Abort + AllocGlobal),
    below: Counting<B>,
    title: &str,
    parts: &str,
) -> Counting<B> {
    let mut book = LiveBook::new(rt.alloc(), below);
    goes_on(rt, &mut book, title, parts);
    book.into_book()
}

/// The number of reads, and the parts behind, if there are any.
fn behind(below: &str) -> (&str, &str) {
    below.split_once("\n\n").unwrap_or((below, ""))
}

/// The book below goes on alone by the parts behind the number of its reads.
fn goes_on_below<B: Takes + Drop>(
    rt: &(impl Abort + AllocGlobal),
    below: Counting<B>,
    title: &str,
    parts: &str,
) {
    let Counting {
        mut book,
        reads,
        ..
    } = below;
    let (wanted, parts) = behind(parts);
    let wanted = wanted.trim_end().parse::<u32>().ok();
    holds(rt, wanted == Some(reads), title);
    if !parts.is_empty() {
        goes_on(rt, &mut book, title, parts);
    }
}

/// The scene of a book that holds what is live over this one, with what that holds and refuses.
fn plays_over<B: Takes + Drop>(
    rt: &(impl Abort + AllocGlobal),
    mut book: B,
    title: &str,
    over: &str,
    parts: &str,
) {
    let (over, refuses) = over.split_once(", refuses ").unwrap_or((over, ""));
    let (put, lacks) = over.split_once(", lacks ").unwrap_or((over, ""));
    let (parts, below) = parts.split_once("\n\nbelow, asked ").expect(rt, title);
    holds(rt, book.apply(edits(rt, put).as_slice()).is_ok(), title);
    let mut refusing = refusing(rt, book, refuses);
    refusing.lacks = lacks.parse::<u64>().ok();
    let below_then = lives(rt, refusing, title, parts);
    goes_on_below(rt, below_then, title, below);
}

/// The scene is played with this book, or with one over it. All scenes come here with a book of one kind, since the
/// proof of a call over just that kind takes long.
fn plays_with<B: Takes + Drop>(
    rt: &(impl Abort + AllocGlobal),
    mut book: B,
    title: &str,
    kind: &str,
    parts: &str,
) {
    match kind.strip_prefix("live over ") {
        Some(over) => plays_over(rt, book, title, over, parts),
        None => {
            holds(rt, kind == "memory", title);
            goes_on(rt, &mut book, title, parts);
        }
    }
}

fn plays_scene(rt: &(impl Abort + AllocGlobal), scene: &str) {
    let (head, parts) = scene.split_once("\n\n").expect(rt, scene);
    let (title, kind) = head.split_once('\n').expect(rt, head);
    let (words, drawn) = match kind {
        "memory" => (KEPT, DRAWN),
        _ => (ONE_QUEUE, NOTHING),
    };
    let config = settings(rt, words);
    let book = MemBook::with_counters(rt.alloc(), &config, drawn).expect(rt, "memory");
    plays_with(rt, book, title, kind, parts);
}

/// Each scene of the text is played.
pub(crate) fn plays(rt: &(impl Abort + AllocGlobal), text: &str) {
    let scenes = text.strip_prefix("\n# ").expect(rt, "a title");
    for scene in scenes.split("\n# ") {
        plays_scene(rt, scene);
    }
}

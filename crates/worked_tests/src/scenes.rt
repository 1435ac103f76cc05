//! Texts of scenes, each played by a gate of its own over a book in memory, and by one over the tables of a file.
//!
//! A scene has a title behind `# `, and may say more below it. Then comes its gate: `gate core 2 1 and web` is one
//! whose settings have the queue `core`, whose window is 2 and whose floor is 1, and the queue `web`, as `settings`
//! says; with `in memory` behind it the scene is played in memory alone, with `in memory after order 7` by a gate that
//! has drawn this order. Behind an empty line stands what is told and shown, as `talks` says.
//!
//! At `then core 5 1 and web` the gate ends, its book takes these settings, and a gate over it goes on: the file is
//! opened again with them. Where they are refused, as the line below says by the fault's name, the gate goes on with
//! the settings that it had.
//!
//! Each function here holds one gate, and hands it on at once: what a gate is asked stands in functions over any book.
use crate::chapters::{goes_on_in_file, goes_on_in_memory};
use crate::settings::config;
use gate_book::MemBook;
use gate_core::Gate;
use gate_types::config::Config;
use gate_types::records::Counters;
use sqlite::Connection;
use std::process::Abort;

/// The counters of a gate that has drawn nothing, or all numbers up to that of ` after order 7`.
fn counters(rt: &impl Abort, drawn: &str) -> Counters {
    let (words, number) = drawn.rsplit_once(' ').unwrap_or((drawn, "0"));
    let number = number.parse::<u64>().ok().expect(rt, drawn);
    assert!(rt; number <= 1_000_000_000_000_000, "{drawn}");
    match words {
        "" => Counters {
            approval: 0,
            build: 0,
            order: 0,
        },
        " after approval" => Counters {
            approval: number,
            build: 0,
            order: 0,
        },
        " after build" => Counters {
            approval: 0,
            build: number,
            order: 0,
        },
        " after order" => Counters {
            approval: 0,
            build: 0,
            order: number,
        },
        _ => panic!(rt; "no counter: {drawn}"),
    }
}

/// A book in memory under these settings, that has drawn such numbers.
fn book(rt: &(impl Abort + AllocGlobal), config: &Config, drawn: &str) -> MemBook {
    MemBook::with_counters(rt.alloc(), config, counters(rt, drawn)).expect(rt, "a book")
}

/// A gate with these queues, over a book in memory that has drawn such numbers.
pub(crate) fn gate_in_memory(
    rt: &(impl Abort + AllocGlobal),
    queues: &str,
    drawn: &str,
) -> Gate<MemBook> {
    let config = config(rt, queues);
    let book = book(rt, &config, drawn);
    Gate::new(config, book)
}

/// The scene is played over the tables of a file that is kept in memory.
fn plays_over_tables(rt: &(impl Abort + AllocGlobal), queues: &str, title: &str, parts: &str) {
    let conn = Connection::open_in_memory(rt.alloc())
        .ok()
        .expect(rt, "a connection");
    goes_on_in_file(rt, conn, queues, title, parts);
}

/// The scene is played by its gates.
fn plays_scene(rt: &(impl Abort + AllocGlobal), scene: &str) {
    let (head, parts) = scene.split_once("\n\n").expect(rt, scene);
    let (title, gate) = head.rsplit_once("\ngate ").expect(rt, head);
    let (queues, drawn) = match gate.split_once(" in memory") {
        Some(words) => words,
        None => (gate, ""),
    };
    goes_on_in_memory(rt, gate_in_memory(rt, queues, drawn), title, parts);
    if gate == queues {
        plays_over_tables(rt, queues, title, parts);
    }
}

/// Each scene of the text is played.
pub(crate) fn plays(rt: &(impl Abort + AllocGlobal), text: &str) {
    let scenes = text.strip_prefix("\n# ").expect(rt, "a title");
    for scene in scenes.split("\n# ") {
        plays_scene(rt, scene);
    }
}

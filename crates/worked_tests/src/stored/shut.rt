//! A gate's file whose disk fails at each call in turn, while a row is written: what fails, and each read afterwards,
//! is told as the store's fault and never as want of memory, since a book drops what it holds at the store's alone.
use crate::settings::config;
use crate::stored::disks::{Disks, Stop, closed, copied, empty_files, opened, options};
use crate::stored::files::{SETTINGS, new_file};
use gate_archive::{Archive, id_of};
use gate_book::{Book, BookFault};
use gate_sql::SqlBook;
use gate_types::edits::{Counter, Edit};
use gate_types::names::Name;
use gate_types::numbers::{BuildNo, ChangeNo, Serial};
use sqlite::{Alter, Connection, Files};
use sqlite_disk::{Fuse, Memory};
use std::process::Abort;

/// How many reads were asked, and how many of them gave the store's fault.
#[derive(Drop)]
struct Seen {
    asked: u32,
    shut: u32,
}

impl Seen {
    /// Counts an answer. No memory is refused here, and no row is damaged.
    fn see<T: Drop>(&mut self, rt: &impl Abort, answer: Result<T, BookFault>) {
        self.asked = self.asked.saturating_add(1);
        if let Err(fault) = answer {
            assert!(rt; fault == BookFault::Store);
            self.shut = self.shut.saturating_add(1);
        }
    }
}

fn core(rt: &(impl Abort + AllocGlobal)) -> Name {
    let text = String::from_str(rt.alloc(), "core").expect(rt, "memory");
    Name::new(text).expect(rt, "a name")
}

fn see_items<B: Book>(rt: &(impl Abort + AllocGlobal), book: &mut B, seen: &mut Seen) {
    let queue = core(rt);
    let change = ChangeNo::new(101).expect(rt, "a change");
    let serial = Serial::new(1).expect(rt, "a serial");
    seen.see(rt, book.items(&queue));
    seen.see(rt, book.item(serial));
    seen.see(rt, book.queued(change));
    seen.see(rt, book.next_item(&queue, 0));
    seen.see(rt, book.last_item(&queue, 9));
    seen.see(rt, book.next_items(&queue, 0, 9));
    seen.see(rt, book.needing(&queue, change, 0));
    seen.see(rt, book.plan(serial));
    seen.see(rt, book.plans_between(&queue, 0, serial));
    seen.see(rt, book.live_builds(serial));
    seen.see(rt, book.builds_between(&queue, 0, serial));
}

fn see_queues<B: Book>(rt: &(impl Abort + AllocGlobal), book: &mut B, seen: &mut Seen) {
    let queue = core(rt);
    let serial = Serial::new(1).expect(rt, "a serial");
    seen.see(rt, book.window(&queue));
    seen.see(rt, book.item_count(&queue));
    seen.see(rt, book.landing_count(&queue));
    seen.see(rt, book.reports(&queue));
    seen.see(rt, book.landing_before(&queue, serial));
    seen.see(rt, book.counters());
}

fn see_changes<B: Archive>(rt: &impl Abort, book: &mut B, seen: &mut Seen) {
    let id = id_of("0a000000-0000-4000-8000-000000000001").expect(rt, "an id");
    let change = ChangeNo::new(101).expect(rt, "a change");
    let serial = Serial::new(1).expect(rt, "a serial");
    seen.see(rt, book.delivery(&id));
    seen.see(rt, book.change(change));
    seen.see(rt, book.build(BuildNo::new(1).expect(rt, "a build")));
    seen.see(rt, book.ready());
    seen.see(rt, book.approval(change));
    seen.see(rt, book.ready_needing(change));
    seen.see(rt, book.left(serial));
    seen.see(rt, book.build_count(serial));
    seen.see(rt, book.last_builds(serial, 10));
}

/// How a run ended: whether the row was written, and whether afterwards each read gave the store's fault.
#[derive(Clone, Copy)]
struct End {
    is_written: bool,
    is_shut: bool,
}

/// The row is written, or that is the store's fault. Then a book is asked each read.
fn written<B: Archive>(rt: &(impl Abort + AllocGlobal), book: &mut B) -> End {
    let edit = Edit::SetCounter {
        counter: Counter::Build,
        drawn: 7,
    };
    let mut edits = Vec::new(rt.alloc());
    edits.push(edit).expect(rt, "memory");
    let done = book.apply(edits.as_slice());
    assert!(rt; done == Ok(()) || done == Err(BookFault::Store));
    let mut seen = Seen { asked: 0, shut: 0 };
    see_items(rt, book, &mut seen);
    see_queues(rt, book, &mut seen);
    see_changes(rt, book, &mut seen);
    End {
        is_written: done.is_ok(),
        is_shut: seen.shut == seen.asked,
    }
}

/// A run over copies of the files with this stop; none where they aren't even opened.
fn run<S: Alter + Drop, D: Disks<Database = Connection<S>>>(
    rt: &(impl Abort + AllocGlobal),
    disks: &D,
    files: &Files<Fuse<Memory>>,
    stop: Stop,
) -> Option<End> {
    let conn = disks.connected(copied(rt, files, stop), options()).ok()?;
    let config = config(rt, SETTINGS);
    match SqlBook::open(rt.alloc(), conn, &config) {
        Ok(mut book) => {
            let end = written(rt, &mut book);
            let _ = book.into_conn();
            Some(end)
        }
        Err((_, _conn)) => None,
    }
}

/// Each call of the log fails in turn, until the row is written. One of them shuts the file: each read is its fault.
pub(crate) fn each_stop_of_writing<S: Alter + Drop, D: Disks<Database = Connection<S>>>(
    rt: &(impl Abort + AllocGlobal),
    disks: &D,
) {
    let conn = opened(rt, disks, empty_files(rt, Stop::Never));
    let files = closed(rt, disks, new_file(rt, conn));
    let mut was_shut = false;
    for calls in 0..10_000 {
        if let Some(end) = run(rt, disks, &files, Stop::Log(calls)) {
            if end.is_written {
                assert!(rt; was_shut, "no stop shuts the file");
                assert!(rt; !end.is_shut);
                return;
            }
            was_shut = was_shut || end.is_shut;
        }
    }
    panic!(rt; "each run is stopped")
}

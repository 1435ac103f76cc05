//! Histories of queues, from files in memory.
use crate::claims::{holds, is};
use crate::settings::config;
use crate::stored::files::SETTINGS;
use crate::stored::tables::{after, empty};
use gate_book::{Book, HistoryFault};
use gate_sql::SqlBook;
use gate_types::tap::Tap;
use sqlite::{Alter, Connection};
use std::io;
use std::io::Write;
use std::process::Abort;

/// The queue `core` has three reports, the last of them put in first.
const REPORTS: &str = "create: done
run INSERT INTO report (queue, place, serial, change, revision, verdict, n) VALUES ('core', 3, 7, 103, 12, 'superseded', NULL), ('core', 1, 3, 101, 1, 'landed', 1), ('core', 2, 4, 102, 1, 'failed', NULL)";

const CORE: &[u8] =
    b"front\nhistory core\n     1      3       101    1 landed          1\n     2      4       102    1 failed          -\n     3      7       103   12 superseded      -\nend 3\n";

const WEB: &[u8] = b"front\nhistory web\nend 0\n";

/// Takes a byte a write, and fails once `left` bytes are taken.
#[derive(Drop)]
struct Narrow {
    taken: Vec<u8>,
    left: usize,
}

impl Write for Narrow {
    fn write(&mut self, buf: &[u8]) -> io::Result<usize> {
        if self.left == 0 || buf.is_empty() {
            return Err(io::Error::from(io::ErrorKind::Interrupted));
        }
        match self.taken.push(buf[0]) {
            Ok(()) => {
                self.left -= 1;
                Ok(1)
            }
            Err(_) => Err(io::Error::from(io::ErrorKind::OutOfMemory)),
        }
    }

    fn flush(&mut self) -> io::Result<()> {
        Ok(())
    }
}

/// The history of a queue, behind its front.
fn text_of(queue: &str) -> &'static [u8] {
    match queue {
        "core" => CORE,
        "web" => WEB,
        _ => b"",
    }
}

/// How a history ends, as a line says it.
fn ending(told: Result<(), HistoryFault>) -> &'static str {
    match told {
        Ok(()) => "done",
        Err(HistoryFault::Write) => "Write",
        Err(HistoryFault::NoQueue) => "NoQueue",
        Err(_) => "another fault",
    }
}

/// A writer that fails after so many bytes takes these of the queue's text, and the book answers so.
fn is_written<B: Book>(
    rt: &(impl Abort + AllocGlobal),
    book: &mut B,
    queue: &str,
    left: usize,
    wanted: &str,
) {
    let mut w = Tap::new(Narrow {
        taken: Vec::new(rt.alloc()),
        left,
    });
    let told = book.history(queue, b"front\n", &mut w);
    let Narrow { taken, left: _ } = w.into_inner();
    is(rt, ending(told), wanted, queue);
    let text = text_of(queue);
    let front = text.get(..left).unwrap_or(text);
    holds(rt, taken.as_slice() == front, queue);
}

/// Each line, as `core 20 Write`, says a queue, how many bytes a writer takes, and how its history ends.
fn are_written<B: Book>(rt: &(impl Abort + AllocGlobal), book: &mut B, lines: &str) {
    for line in lines.lines() {
        let (queue, rest) = line.split_once(' ').expect(rt, "a line");
        let (left, wanted) = rest.split_once(' ').expect(rt, "a line");
        let left = left.parse().ok().expect(rt, "a number");
        is_written(rt, book, queue, left, wanted);
    }
}

/// Each line is so of a book over the file.
fn has_histories<S: Alter + Drop>(
    rt: &(impl Abort + AllocGlobal),
    conn: Connection<S>,
    lines: &str,
) {
    let config = config(rt, SETTINGS);
    let mut book = SqlBook::open(rt.alloc(), conn, &config)
        .ok()
        .expect(rt, "a book");
    are_written(rt, &mut book, lines);
}

#[test]
fn a_history_is_written_by_place(rt: HostRuntime) {
    let reported = after(&rt, empty(&rt), REPORTS);
    has_histories(
        &rt,
        reported,
        "core 1000 done\nweb 1000 done\nnope 1000 NoQueue",
    );
}

#[test]
fn a_history_stops_with_its_writer(rt: HostRuntime) {
    let reported = after(&rt, empty(&rt), REPORTS);
    has_histories(&rt, reported, "core 20 Write\ncore 1000 done");
}

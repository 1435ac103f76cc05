//! A history of 300 reports, from a file whose disk fails at each call that the history makes.
use crate::claims::both_came;
use crate::stored::disks::{Disks, Stop, copied, empty_files};
use crate::stored::files::{SETTINGS, conn_of, gate_in, gate_under, new_file, said_over};
use gate_book::{Book, HistoryFault};
use gate_core::Gate;
use gate_types::tap::Tap;
use sqlite::{Alter, Connection, Files, Options};
use sqlite_disk::{Fuse, Memory};
use std::alloc::{AllocError, Global};
use std::process::Abort;

/// How many reports there are.
const REPORTS: u32 = 300;

/// Few pages are kept in memory, so that a history has to read the disk.
fn options() -> Options {
    Options {
        cache_pages: 16,
        checkpoint_frames: 50,
        ..Options::new(7)
    }
}

/// A change enters its queue, and leaves it as its next revision comes, again and again.
fn deliveries(alloc: Global) -> Result<String, AllocError> {
    let mut lines = String::new(alloc);
    for n in 1..=REPORTS {
        write!(
            lines,
            "{{\"id\":\"0a000000-0000-4000-8000-{n:012}\",\"kind\":\"revision\",\"change\":101,\
             \"project\":\"app\",\"revision\":{n},\"message\":\"\"}}\n\
             {{\"id\":\"0b000000-0000-4000-8000-{n:012}\",\"kind\":\"approved\",\"change\":101,\"revision\":{n}}}\n"
        )?;
    }
    lines.push_str(
        r#"{"id":"0a000000-0000-4000-8000-000000000301","kind":"revision","change":101,"project":"app","revision":301,"message":""}"#,
    )?;
    Ok(lines)
}

/// What the history is then.
fn history(alloc: Global) -> Result<String, AllocError> {
    let mut text = String::from_str(alloc, "history core\n")?;
    for n in 1..=REPORTS {
        write!(text, "{n:>6} {n:>6}       101 {n:>4} superseded      -\n")?;
    }
    text.push_str("end 300\n")?;
    Ok(text)
}

/// Makes a gate with these reports over the tables of a new file.
fn filled<S: Alter + Drop>(rt: &(impl Abort + AllocGlobal), conn: Connection<S>) -> Connection<S> {
    let lines = deliveries(rt.alloc()).expect(rt, "memory");
    let gate = gate_in(rt, new_file(rt, conn));
    let (answers, conn) = said_over(rt.alloc(), gate, lines.as_str());
    let _ = answers.expect(rt, "answers");
    conn
}

/// The files of a gate with these reports. Some of their pages stand in the log, the others in the database file.
fn reported<S: Alter + Drop, D: Disks<Database = Connection<S>>>(
    rt: &(impl Abort + AllocGlobal),
    disks: &D,
) -> Files<Fuse<Memory>> {
    let conn = disks
        .connected(empty_files(rt, Stop::Never), options())
        .ok()
        .expect(rt, "an empty file");
    disks.left(filled(rt, conn))
}

/// The connection to copies of the files with this stop, if they are opened.
fn limited<S: Alter + Drop, D: Disks<Database = Connection<S>>>(
    rt: &(impl Abort + AllocGlobal),
    disks: &D,
    files: &Files<Fuse<Memory>>,
    stop: Stop,
) -> Option<Connection<S>> {
    disks.connected(copied(rt, files, stop), options()).ok()
}

/// Whether the gate in a file is opened.
fn is_opened<S: Alter + Drop>(rt: &(impl Abort + AllocGlobal), conn: Connection<S>) -> bool {
    match gate_under(rt, conn, SETTINGS) {
        Ok(gate) => {
            let _ = conn_of(gate);
            true
        }
        Err(_) => false,
    }
}

/// The fewest calls with which the gate is opened, which are less than 65,536.
fn calls_of_opening<S: Alter + Drop, D: Disks<Database = Connection<S>>>(
    rt: &(impl Abort + AllocGlobal),
    disks: &D,
    files: &Files<Fuse<Memory>>,
    is_log: bool,
) -> u64 {
    let mut fewest = 0u64;
    let mut step = 32_768u64;
    for _ in 0..16 {
        let tried = fewest.saturating_add(step).saturating_sub(1);
        let is_enough = match limited(rt, disks, files, Stop::after(is_log, tried)) {
            Some(conn) => is_opened(rt, conn),
            None => false,
        };
        if !is_enough {
            fewest = fewest.saturating_add(step);
        }
        step /= 2;
    }
    fewest
}

/// How a history ended.
#[derive(Clone, Copy)]
enum End {
    /// It was refused, and nothing written.
    Unavailable,
    /// It broke off behind a beginning, which was told.
    Broken,
    /// All of it was written.
    Whole,
}

/// Asks a gate for its history: it is this text, a beginning of it, or nothing.
fn asked<B: Book>(rt: &(impl Abort + AllocGlobal), gate: &mut Gate<B>, text: &[u8]) -> End {
    let mut w = Tap::new(Vec::new(rt.alloc()));
    let answer = gate.history("core", b"", &mut w);
    let written = w.into_inner();
    match answer {
        Ok(()) => {
            assert!(rt; written.as_slice() == text);
            End::Whole
        }
        Err(HistoryFault::Unavailable) => {
            assert!(rt; written.is_empty());
            End::Unavailable
        }
        Err(fault) => {
            assert!(rt; fault == HistoryFault::Broken);
            assert!(rt; !written.is_empty());
            assert!(rt; written.len() < text.len());
            assert!(rt; text.starts_with(written.as_slice()));
            End::Broken
        }
    }
}

/// Asks the gate in a file for its history.
fn asked_in<S: Alter + Drop>(
    rt: &(impl Abort + AllocGlobal),
    conn: Connection<S>,
    text: &[u8],
) -> End {
    let mut gate = gate_in(rt, conn);
    let end = asked(rt, &mut gate, text);
    let _ = conn_of(gate);
    end
}

/// How many histories were refused, and how many broke off.
#[derive(Clone, Copy)]
struct Ends {
    unavailable: u32,
    broken: u32,
}

/// One of the files fails at each call of the history in turn, until a history is whole.
fn each_stop<S: Alter + Drop, D: Disks<Database = Connection<S>>>(
    rt: &(impl Abort + AllocGlobal),
    disks: &D,
    files: &Files<Fuse<Memory>>,
    text: &[u8],
    is_log: bool,
) -> Ends {
    let mut ends = Ends {
        unavailable: 0,
        broken: 0,
    };
    let mut calls = calls_of_opening(rt, disks, files, is_log);
    for _ in 0..10_000 {
        let stop = Stop::after(is_log, calls);
        let conn = limited(rt, disks, files, stop).expect(rt, "open files");
        match asked_in(rt, conn, text) {
            End::Unavailable => ends.unavailable = ends.unavailable.saturating_add(1),
            End::Broken => ends.broken = ends.broken.saturating_add(1),
            End::Whole => return ends,
        }
        calls = calls.saturating_add(1);
    }
    panic!(rt; "no history is whole")
}

/// Each of the files fails, and any of these ends comes.
pub(crate) fn all_stops<S: Alter + Drop, D: Disks<Database = Connection<S>>>(
    rt: &(impl Abort + AllocGlobal),
    disks: &D,
) {
    let files = reported(rt, disks);
    let text = history(rt.alloc()).expect(rt, "memory");
    let _ends = each_stop(rt, disks, &files, text.as_bytes(), true);
    let db = each_stop(rt, disks, &files, text.as_bytes(), false);
    both_came(rt, (db.unavailable, db.broken), "refused and broken off");
}

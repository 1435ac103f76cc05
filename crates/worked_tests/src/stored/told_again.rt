//! The deliveries that a gate accepted, told to a gate over a new file: its tables are those of the first one, wherever
//! the telling was cut and went on, and with other settings taken at their places.
use crate::claims::{holds_at, is, is_at};
use crate::stored::files::{FileGate, conn_of, gate_under, made_under, said_over};
use crate::stored::rows::rows_in;
use gate_archive::{Archive, id_of};
use gate_core::Gate;
use gate_types::tap::Tap;
use sqlite::{Alter, Connection, MemStore};
use std::process::Abort;
use std::str::from_utf8;

const SETTINGS: &str = "core 2 1 and web, app fails fast";

/// The settings that are taken behind the first part of the day.
const LATER: &str = "core 3 1 and web, docs votes";

/// What is told under the first settings: refused lines, repeats, and a failure behind which another item is built anew.
const MORNING: &str =
    r#"{"id":"00000000-0000-4000-8000-000000000009","kind":"revision","change":101,"project":"app","revision":1,"message":"k\u0007"}
no delivery
{"id":"00000000-0000-4000-8000-000000000002","kind":"revision","change":102,"project":"lib","revision":1,"message":"Depends-On: https://forge/c/101"}
{"id":"00000000-0000-4000-8000-000000000003","kind":"approved","change":102,"revision":1}
{"id":"00000000-0000-4000-8000-000000000003","kind":"approved","change":102,"revision":1}
{"id":"00000000-0000-4000-8000-000000000003","kind":"approved","change":101,"revision":1}
{"id":"00000000-0000-4000-8000-000000000004","kind":"approved","change":101,"revision":1}
{"id":"00000000-0000-4000-8000-000000000005","kind":"take","worker":"w1"}
{"id":"00000000-0000-4000-8000-000000000006","kind":"take","worker":"w1"}
{"id":"00000000-0000-4000-8000-000000000007","kind":"result","build":1,"outcome":"lost"}
{"id":"00000000-0000-4000-8000-000000000008","kind":"take","worker":"w2"}
{"id":"00000000-0000-4000-8000-000000000001","kind":"result","build":3,"outcome":"success"}
{"id":"00000000-0000-4000-8000-000000000010","kind":"landed","order":1}
{"id":"00000000-0000-4000-8000-000000000011","kind":"landed","order":9}
"#;

/// And under the later ones.
const EVENING: &str =
    r#"{"id":"00000000-0000-4000-8000-000000000012","kind":"result","build":2,"outcome":"failure"}
{"id":"00000000-0000-4000-8000-000000000013","kind":"take","worker":"w2"}
{"id":"00000000-0000-4000-8000-000000000014","kind":"withdrawn","change":102,"revision":1}
{"id":"00000000-0000-4000-8000-000000000015","kind":"revision","change":102,"project":"lib","revision":2,"message":""}
{"id":"00000000-0000-4000-8000-000000000016","kind":"approved","change":102,"revision":2}
{"id":"00000000-0000-4000-8000-000000000017","kind":"take","worker":"w2"}
{"id":"00000000-0000-4000-8000-000000000018","kind":"closed","change":102,"revision":2}
{"id":"00000000-0000-4000-8000-000000000019","kind":"landed","order":1}
"#;

/// A new file with the tables of a gate.
fn made(rt: &(impl Abort + AllocGlobal)) -> Connection<MemStore> {
    let conn = Connection::open_in_memory(rt.alloc()).expect(rt, "memory");
    made_under(rt, conn, SETTINGS)
}

/// The gate in a file under these settings.
fn gate<S: Alter + Drop>(
    rt: &(impl Abort + AllocGlobal),
    conn: Connection<S>,
    words: &str,
) -> FileGate<S> {
    gate_under(rt, conn, words).ok().expect(rt, "a gate")
}

/// The gate in a file is told these lines under these settings.
fn told<S: Alter + Drop>(
    rt: &(impl Abort + AllocGlobal),
    conn: Connection<S>,
    words: &str,
    lines: &str,
) -> Connection<S> {
    let (written, conn) = said_over(rt.alloc(), gate(rt, conn, words), lines);
    assert!(rt; written.is_ok());
    conn
}

/// The lines of the deliveries behind that of an id, or of all.
fn lines_of<B: Archive>(
    rt: &(impl Abort + AllocGlobal),
    gate: &mut Gate<B>,
    after: Option<&str>,
) -> String {
    let after = match after {
        Some(id) => Some(id_of(id).expect(rt, id)),
        None => None,
    };
    let mut w = Tap::new(Vec::new(rt.alloc()));
    let count = gate.deliveries(after, &mut w).expect(rt, "lines");
    let written = w.into_inner();
    let lines = from_utf8(written.as_slice()).ok().expect(rt, "text");
    holds_at(
        rt,
        lines.lines().count() as u64 == count,
        lines.len(),
        "lines of",
    );
    String::from_str(rt.alloc(), lines).expect(rt, "memory")
}

/// The lines that the gate in a file tells under these settings.
fn fed<S: Alter + Drop>(
    rt: &(impl Abort + AllocGlobal),
    conn: Connection<S>,
    words: &str,
    after: Option<&str>,
) -> (String, Connection<S>) {
    let mut gate = gate(rt, conn, words);
    let lines = lines_of(rt, &mut gate, after);
    (lines, conn_of(gate))
}

/// The id of a line.
fn id_in<'a>(rt: &impl Abort, line: &'a str) -> &'a str {
    let (_, rest) = line.split_once("\"id\":\"").expect(rt, line);
    rest.get(..32).expect(rt, line)
}

/// A new gate is told the lines up to a byte, and then what the first one has behind the last of them.
fn goes_on_behind<S: Alter + Drop>(
    rt: &(impl Abort + AllocGlobal),
    conn: Connection<S>,
    lines: &str,
    cut: usize,
    rows: &str,
) -> Connection<S> {
    let (front, _) = lines.split_at_checked(cut).expect(rt, lines);
    let last = front.lines().last().expect(rt, front);
    let (rest, conn) = fed(rt, conn, SETTINGS, Some(id_in(rt, last)));
    let other = told(rt, made(rt), SETTINGS, front);
    let mut other = told(rt, other, SETTINGS, rest.as_str());
    is_at(
        rt,
        rows_in(rt, &mut other).as_str(),
        rows,
        cut,
        "cut at byte",
    );
    conn
}

#[test]
fn accepted_deliveries_told_to_a_new_gate_make_the_same_gate(rt: HostRuntime) {
    let conn = told(&rt, made(&rt), SETTINGS, MORNING);
    let mut conn = told(&rt, conn, SETTINGS, EVENING);
    let rows = rows_in(&rt, &mut conn);
    let (lines, mut conn) = fed(&rt, conn, SETTINGS, None);
    let other = told(&rt, made(&rt), SETTINGS, lines.as_str());
    let (again, mut other) = fed(&rt, other, SETTINGS, None);
    is(&rt, again.as_str(), lines.as_str(), "the lines of both");
    is(
        &rt,
        rows_in(&rt, &mut other).as_str(),
        rows.as_str(),
        "the rows of both",
    );
    for (cut, _) in lines.match_indices('\n') {
        conn = goes_on_behind(
            &rt,
            conn,
            lines.as_str(),
            cut.saturating_add(1),
            rows.as_str(),
        );
    }
}

#[test]
fn other_settings_taken_at_their_places_make_the_same_gate(rt: HostRuntime) {
    let conn = told(&rt, made(&rt), SETTINGS, MORNING);
    let (first, conn) = fed(&rt, conn, SETTINGS, None);
    let last = id_in(&rt, first.lines().last().expect(&rt, "a line"));
    let mut conn = told(&rt, conn, LATER, EVENING);
    let rows = rows_in(&rt, &mut conn);
    let (second, _conn) = fed(&rt, conn, LATER, Some(last));
    let other = told(&rt, made(&rt), SETTINGS, first.as_str());
    let mut other = told(&rt, other, LATER, second.as_str());
    is(
        &rt,
        rows_in(&rt, &mut other).as_str(),
        rows.as_str(),
        "the rows of both",
    );
}

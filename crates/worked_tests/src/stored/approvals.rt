//! Approvals of changes, as the tables of a file keep them.
use crate::chapters::goes_on_over;
use crate::stored::files::{FileGate, SETTINGS, gate_in, made_under};
use crate::stored::tables::empty;
use gate_book::Book;
use gate_types::numbers::ChangeNo;
use sqlite::{Alter, Connection};
use std::process::Abort;

/// Two changes wait for one that isn't approved; the later one of them was approved first.
const TWO_WAIT: &str =
    r#"> {"id":"0b000000-0000-4000-8000-000000000001","kind":"revision","change":101,"project":"lib","revision":1,"message":""}
< {"reply":"recorded"}
> {"id":"0b000000-0000-4000-8000-000000000002","kind":"revision","change":102,"project":"app","revision":1,"message":"Depends-On: https://forge/c/101"}
< {"reply":"recorded"}
> {"id":"0b000000-0000-4000-8000-000000000003","kind":"revision","change":103,"project":"app","revision":1,"message":"Depends-On: https://forge/c/101"}
< {"reply":"recorded"}
> {"id":"0b000000-0000-4000-8000-000000000004","kind":"approved","change":103,"revision":1}
< {"reply":"waiting"}
> {"id":"0b000000-0000-4000-8000-000000000005","kind":"approved","change":102,"revision":1}
< {"reply":"waiting"}"#;

/// It is approved too, and all three are items then.
const ALL_ENTER: &str =
    r#"> {"id":"0b000000-0000-4000-8000-000000000006","kind":"approved","change":101,"revision":1}
< {"order":1,"reply":"queued"}"#;

/// The numbers of their approvals, the last one's being of a change that isn't known.
const OF_TWO: [(u64, Option<u64>); 4] = [(101, None), (102, Some(2)), (103, Some(1)), (104, None)];

const OF_NONE: [(u64, Option<u64>); 4] = [(101, None), (102, None), (103, None), (104, None)];

/// A book tells these approvals.
fn approvals_are<B: Book>(rt: &impl Abort, book: &mut B, wanted: &[(u64, Option<u64>)]) {
    for (number, approval) in wanted {
        let change = ChangeNo::new(*number).expect(rt, "a change number");
        assert!(rt; book.approval(change) == Ok(*approval), "{number}");
    }
}

/// The book of a gate over a file tells these approvals; the connection is given back.
fn tells_over<S: Alter + Drop>(
    rt: &impl Abort,
    gate: FileGate<S>,
    wanted: &[(u64, Option<u64>)],
) -> Connection<S> {
    let mut book = gate.into_book();
    approvals_are(rt, &mut book, wanted);
    book.into_book().into_conn()
}

/// The gate in a file is told this, and its book tells these approvals then.
fn step<S: Alter + Drop>(
    rt: &(impl Abort + AllocGlobal),
    conn: Connection<S>,
    told: &str,
    wanted: &[(u64, Option<u64>)],
) -> Connection<S> {
    let conn = goes_on_over(rt, conn, SETTINGS, "approvals", told);
    tells_over(rt, gate_in(rt, conn), wanted)
}

fn steps<S: Alter + Drop>(rt: &(impl Abort + AllocGlobal), conn: Connection<S>) {
    let conn = made_under(rt, conn, SETTINGS);
    let conn = step(rt, conn, TWO_WAIT, &OF_TWO);
    let _ = step(rt, conn, ALL_ENTER, &OF_NONE);
}

#[test]
fn a_waiting_change_has_the_number_of_its_approval(rt: HostRuntime) {
    steps(&rt, empty(&rt));
}

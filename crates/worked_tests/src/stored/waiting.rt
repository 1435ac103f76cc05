//! Which ready changes need another, asked of the book over the tables of a file.
use crate::claims::is;
use crate::settings::config;
use crate::stored::files::{SETTINGS, gate_in, new_file};
use crate::stored::tables::empty;
use crate::talks::goes_on;
use gate_archive::Archive;
use gate_book::Book;
use gate_core::Gate;
use gate_types::numbers::ChangeNo;
use sqlite::{Alter, Connection};
use std::process::Abort;

/// 104 needs 101, 103 needs it and 102, and 106 needs 102. 105 needs 101 too, and isn't approved.
const THREE_WAIT: &str =
    r#"> {"id":"0d000000-0000-4000-8000-000000000001","kind":"revision","change":103,"project":"app","revision":1,"message":"Depends-On: https://forge/c/101\nDepends-On: https://forge/c/102"}
< {"reply":"recorded"}
> {"id":"0d000000-0000-4000-8000-000000000002","kind":"revision","change":104,"project":"lib","revision":1,"message":"Depends-On: https://forge/c/101"}
< {"reply":"recorded"}
> {"id":"0d000000-0000-4000-8000-000000000003","kind":"revision","change":105,"project":"lib","revision":1,"message":"Depends-On: https://forge/c/101"}
< {"reply":"recorded"}
> {"id":"0d000000-0000-4000-8000-000000000004","kind":"revision","change":106,"project":"lib","revision":1,"message":"Depends-On: https://forge/c/102"}
< {"reply":"recorded"}
> {"id":"0d000000-0000-4000-8000-000000000005","kind":"approved","change":104,"revision":1}
< {"reply":"waiting"}
> {"id":"0d000000-0000-4000-8000-000000000006","kind":"approved","change":103,"revision":1}
< {"reply":"waiting"}
> {"id":"0d000000-0000-4000-8000-000000000007","kind":"approved","change":106,"revision":1}
< {"reply":"waiting"}"#;

/// 101 enters its queue, and 104 behind it; 103 needs 102 as well.
const ONE_ENTERS: &str =
    r#"> {"id":"0d000000-0000-4000-8000-000000000008","kind":"revision","change":101,"project":"app","revision":1,"message":""}
< {"reply":"recorded"}
> {"id":"0d000000-0000-4000-8000-000000000009","kind":"approved","change":101,"revision":1}
< {"order":1,"reply":"queued"}

status
queue core window 2 landed 0
     1       101    1      - ok      unit=waiting
     2       104    1      1 ok      unit=waiting docs=waiting
queue web window 2 landed 0
waiting 103 1
waiting 106 1
end"#;

/// The ready changes that need this one: a line each, with the number of its approval and its own.
fn needing<B: Book>(rt: &(impl Abort + AllocGlobal), book: &mut B, needed: u64) -> String {
    let needed = ChangeNo::new(needed).expect(rt, "a change");
    let found = book.ready_needing(needed).expect(rt, "ready changes");
    let mut lines = String::new(rt.alloc());
    for ready in found.as_slice() {
        write!(lines, "{} {}\n", ready.approval, ready.change.get()).expect(rt, "memory");
    }
    lines
}

/// These ready changes need this one.
fn need<B: Book>(rt: &(impl Abort + AllocGlobal), book: &mut B, needed: u64, wanted: &str) {
    let found = needing(rt, book, needed);
    is(rt, found.as_str(), wanted, "who needs a change");
}

/// A gate over the book goes on by these parts. Gives the book back.
fn goes_over<B: Archive + Drop>(
    rt: &(impl Abort + AllocGlobal),
    book: B,
    title: &str,
    parts: &str,
) -> B {
    let mut gate = Gate::new(config(rt, SETTINGS), book);
    goes_on(rt, &mut gate, title, parts);
    gate.into_book()
}

fn tells_who_needs<B: Archive + Drop>(rt: &(impl Abort + AllocGlobal), book: B) -> B {
    let mut book = goes_over(rt, book, "three changes wait", THREE_WAIT);
    need(rt, &mut book, 101, "1 104\n2 103\n");
    need(rt, &mut book, 102, "2 103\n3 106\n");
    need(rt, &mut book, 103, "");
    let mut book = goes_over(rt, book, "one of them enters", ONE_ENTERS);
    need(rt, &mut book, 101, "2 103\n");
    need(rt, &mut book, 102, "2 103\n3 106\n");
    book
}

fn tells_over<S: Alter + Drop>(
    rt: &(impl Abort + AllocGlobal),
    conn: Connection<S>,
) -> Connection<S> {
    let gate = gate_in(rt, new_file(rt, conn));
    tells_who_needs(rt, gate.into_book())
        .into_book()
        .into_conn()
}

#[test]
fn a_file_tells_which_ready_changes_need_another(rt: HostRuntime) {
    let _ = tells_over(&rt, empty(&rt));
}

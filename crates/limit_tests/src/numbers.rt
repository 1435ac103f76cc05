//! Numbers past 2^31 in the tables of a file: of an approval, an order, a build, a landing and a report.
use crate::claims::{holds, is};
use crate::gates::{conn_of, gate_in, made};
use crate::scenes::{Stored, over_tables};
use crate::settings::one_job;
use crate::talks::tells;
use gate_archive::Archive;
use gate_core::Gate;
use gate_types::numbers::{BuildNo, ChangeNo, Serial};
use gate_types::tap::Tap;
use sqlite::{Alter, Connection};
use std::alloc::{AllocError, Global};
use std::process::Abort;
use std::str::from_utf8;

/// The last numbers that were drawn; the ones that are drawn next are 2^31, 2^32 and 10^15.
const DRAWN: [u64; 3] = [2_147_483_647, 4_294_967_295, 999_999_999_999_999];

/// Statements after which so many numbers are drawn, and the queue has as many landings and reports, with the last row
/// of each table alone. One approval less is drawn, since the scene draws two.
const PREPARED: &str = "UPDATE counter SET drawn = <drawn>
UPDATE counter SET drawn = <drawn> - 1 WHERE name = 'approval'
INSERT INTO change (num, project, revision, state, approval) VALUES (1, 'lib', 1, 'landed', NULL)
INSERT INTO landing (queue, n, serial, change, revision) VALUES ('core', <drawn>, 1, 1, 1)
INSERT INTO report (queue, place, serial, change, revision, verdict, n) VALUES ('core', <drawn>, 1, 1, 1, 'landed', <drawn>)";

const BUILT: &str =
    r#"> {"id":"0a000000-0000-4000-8000-000000000001","kind":"revision","change":101,"project":"lib","revision":1,"message":""}
< {"reply":"recorded"}
> {"id":"0a000000-0000-4000-8000-000000000002","kind":"revision","change":102,"project":"lib","revision":1,"message":"Depends-On: https://forge/c/103"}
< {"reply":"recorded"}
> {"id":"0a000000-0000-4000-8000-000000000003","kind":"approved","change":102,"revision":1}
< {"reply":"waiting"}
> {"id":"0a000000-0000-4000-8000-000000000004","kind":"approved","change":101,"revision":1}
< {"order":<next>,"reply":"queued"}
> {"id":"0a000000-0000-4000-8000-000000000005","kind":"take","worker":"w1"}
< {"after":<drawn>,"ahead":[],"build":<next>,"change":101,"job":"unit","queue":"core","reply":"build","revision":1}
> {"id":"0a000000-0000-4000-8000-000000000006","kind":"result","build":<next>,"outcome":"success"}
< {"reply":"noted"}
"#;

const ORDERS: &str =
    r#"[{"change":101,"order":<next>,"project":"lib","queue":"core","revision":1}]"#;

const LANDED: &str =
    r#"> {"id":"0a000000-0000-4000-8000-000000000007","kind":"landed","order":<next>}
< {"n":<next>,"reply":"landed"}
"#;

const STATUS: &str = "queue core window 3 landed <next>\nwaiting 102 1\nend\n";

const CHANGE: &str =
    r#"{"approval":<drawn>,"change":102,"full":false,"needs":[{"approval":null,"change":103,"stands":null,"state":"unknown"}],"order":null,"project":"lib","queue":"core","revision":1,"state":"open"}"#;

const ITEM: &str =
    r#"{"builds":[{"build":<next>,"job":"unit","live":true,"outcome":"success"}],"change":101,"jobs":null,"kept":1,"order":<next>,"queue":"core","revision":1,"verdict":"landed"}"#;

const BUILD: &str =
    r#"{"after":<drawn>,"ahead":[],"build":<next>,"change":101,"job":"unit","live":true,"outcome":"success","queue":"core","revision":1}"#;

const HISTORY: &str = "history core\n<next> <next>       101    1 landed     <next>\nend <next>\n";

/// The text with these numbers in it.
fn numbered(alloc: Global, text: &str, drawn: u64) -> Result<String, AllocError> {
    let next = format!(in alloc; "{}", drawn.saturating_add(1))?;
    let drawn = format!(in alloc; "{drawn}")?;
    let text = text.replace(alloc, "<drawn>", drawn.as_str())?;
    text.replace(alloc, "<next>", next.as_str())
}

/// The same, in a test.
fn with(rt: &(impl Abort + AllocGlobal), text: &str, drawn: u64) -> String {
    numbered(rt.alloc(), text, drawn).expect(rt, "memory")
}

/// What is shown once the change is built, and once it has landed.
fn shows<B: Archive>(rt: &(impl Abort + AllocGlobal), gate: &mut Gate<B>, drawn: u64) {
    let number = BuildNo::new(drawn.saturating_add(1)).expect(rt, "a build");
    let build = gate.build(rt.alloc(), number).expect(rt, "the build");
    is(
        rt,
        build.as_str(),
        with(rt, BUILD, drawn).as_str(),
        "the build",
    );
    let serial = Serial::new(drawn.saturating_add(1)).expect(rt, "an item");
    let item = gate.item(rt.alloc(), serial).expect(rt, "the item");
    let item = item.expect(rt, "an item");
    is(
        rt,
        item.as_str(),
        with(rt, ITEM, drawn).as_str(),
        "the item",
    );
    let number = ChangeNo::new(102).expect(rt, "a change");
    let change = gate.change(rt.alloc(), number).expect(rt, "the change");
    is(
        rt,
        change.as_str(),
        with(rt, CHANGE, drawn).as_str(),
        "the change",
    );
    let status = gate.status(rt.alloc()).expect(rt, "the status");
    is(
        rt,
        status.as_str(),
        with(rt, STATUS, drawn).as_str(),
        "the status",
    );
}

/// The report of the landing is told from its place on.
fn reports<B: Archive>(rt: &(impl Abort + AllocGlobal), gate: &mut Gate<B>, drawn: u64) {
    let mut w = Tap::new(Vec::new(rt.alloc()));
    let told = gate.history_from("core", drawn.saturating_add(1), b"", &mut w);
    holds(rt, told.is_ok(), "the history");
    let written = w.into_inner();
    let written = from_utf8(written.as_slice()).ok().expect(rt, "the history");
    is(
        rt,
        written,
        with(rt, HISTORY, drawn).as_str(),
        "the history",
    );
}

/// A change lands under the next numbers.
fn plays<B: Archive>(rt: &(impl Abort + AllocGlobal), gate: &mut Gate<B>, drawn: u64) {
    tells(rt, gate, "built", with(rt, BUILT, drawn).as_str());
    let orders = gate.orders(rt.alloc()).expect(rt, "the orders");
    is(
        rt,
        orders.as_str(),
        with(rt, ORDERS, drawn).as_str(),
        "the orders",
    );
    tells(rt, gate, "landed", with(rt, LANDED, drawn).as_str());
    shows(rt, gate, drawn);
    reports(rt, gate, drawn);
}

/// The file with the rows of these statements.
fn prepared<S: Alter + Drop>(
    rt: &(impl Abort + AllocGlobal),
    mut conn: Connection<S>,
    statements: &str,
) -> Connection<S> {
    for statement in statements.lines() {
        holds(rt, conn.execute(statement, &[]).is_ok(), statement);
    }
    conn
}

/// The next change lands in a file in which so many numbers are drawn.
pub(crate) fn plays_in<S: Alter + Drop>(
    rt: &(impl Abort + AllocGlobal),
    conn: Connection<S>,
    drawn: u64,
) {
    let config = one_job(rt);
    let conn = made(rt, conn, &config);
    let conn = prepared(rt, conn, with(rt, PREPARED, drawn).as_str());
    let mut gate = gate_in(rt, conn, config);
    plays(rt, &mut gate, drawn);
    let _ = conn_of(gate);
}

#[test]
fn numbers_from_2_to_the_31_on_are_kept_in_tables(rt: HostRuntime) {
    for drawn in DRAWN {
        over_tables(&rt, Stored::Numbers(drawn));
    }
}

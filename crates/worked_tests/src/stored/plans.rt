//! What an item was admitted with, as the tables of a file keep it.
use crate::stored::files::made_under;
use crate::stored::tables::{after, empty, has_then};
use sqlite::{Alter, Connection};
use std::process::Abort;

const SETTINGS: &str = "core 2 1 and web, lib fails fast";

const ADMITTED: &str =
    r#"> {"id":"0b000000-0000-4000-8000-000000000001","kind":"revision","change":101,"project":"lib","revision":1,"message":""}
< {"reply":"recorded"}
> {"id":"0b000000-0000-4000-8000-000000000002","kind":"approved","change":101,"revision":1}
< {"order":1,"reply":"queued"}"#;

const LANDED: &str = r#"> {"id":"0b000000-0000-4000-8000-000000000003","kind":"take","worker":"w1"}
< {"after":0,"ahead":[],"build":1,"change":101,"job":"unit","queue":"core","reply":"build","revision":1}
> {"id":"0b000000-0000-4000-8000-000000000004","kind":"take","worker":"w1"}
< {"after":0,"ahead":[],"build":2,"change":101,"job":"docs","queue":"core","reply":"build","revision":1}
> {"id":"0b000000-0000-4000-8000-000000000005","kind":"result","build":1,"outcome":"success"}
< {"reply":"noted"}
> {"id":"0b000000-0000-4000-8000-000000000006","kind":"result","build":2,"outcome":"failure"}
< {"reply":"noted"}
> {"id":"0b000000-0000-4000-8000-000000000007","kind":"landed","order":1}
< {"n":1,"reply":"landed"}"#;

const TWO_MORE: &str =
    r#"> {"id":"0b000000-0000-4000-8000-000000000008","kind":"revision","change":102,"project":"app","revision":1,"message":""}
< {"reply":"recorded"}
> {"id":"0b000000-0000-4000-8000-000000000009","kind":"revision","change":103,"project":"lib","revision":1,"message":""}
< {"reply":"recorded"}
> {"id":"0b000000-0000-4000-8000-000000000010","kind":"approved","change":102,"revision":1}
< {"order":2,"reply":"queued"}
> {"id":"0b000000-0000-4000-8000-000000000011","kind":"approved","change":103,"revision":1}
< {"order":3,"reply":"queued"}"#;

const ONE_WITHDRAWN: &str =
    r#"> {"id":"0b000000-0000-4000-8000-000000000012","kind":"withdrawn","change":103,"revision":1}
< {"reply":"removed"}"#;

const ONE_FAILED: &str =
    r#"> {"id":"0b000000-0000-4000-8000-000000000013","kind":"take","worker":"w1"}
< {"after":1,"ahead":[],"build":3,"change":102,"job":"unit","queue":"core","reply":"build","revision":1}
> {"id":"0b000000-0000-4000-8000-000000000014","kind":"result","build":3,"outcome":"failure"}
< {"reply":"noted"}"#;

/// Its jobs in order, and that it fails fast.
const ROWS_OF_ADMITTED: &str = "2 is SELECT count(*) FROM item_job
1 is SELECT count(*) FROM item_job WHERE serial = 1 AND place = 0 AND name = 'unit' AND voting = 1
1 is SELECT count(*) FROM item_job WHERE serial = 1 AND place = 1 AND name = 'docs' AND voting = 0
1 is SELECT count(*) FROM item_fast
1 is SELECT count(*) FROM item_fast WHERE serial = 1";

/// A landing keeps its jobs alone.
const ROWS_OF_LANDED: &str = "2 is SELECT count(*) FROM item_job
1 is SELECT count(*) FROM item_job WHERE serial = 1 AND place = 0 AND name = 'unit' AND voting = 1
1 is SELECT count(*) FROM item_job WHERE serial = 1 AND place = 1 AND name = 'docs' AND voting = 0
0 is SELECT count(*) FROM item_fast";

/// The item of `app` isn't marked.
const ROWS_OF_TWO_MORE: &str = "5 is SELECT count(*) FROM item_job
1 is SELECT count(*) FROM item_job WHERE serial = 2 AND place = 0 AND name = 'unit' AND voting = 1
2 is SELECT count(*) FROM item_job WHERE serial = 3
1 is SELECT count(*) FROM item_fast
1 is SELECT count(*) FROM item_fast WHERE serial = 3";

/// What left without landing has no row.
const ROWS_WITHOUT_WITHDRAWN: &str = "3 is SELECT count(*) FROM item_job
0 is SELECT count(*) FROM item_job WHERE serial = 3
0 is SELECT count(*) FROM item_fast";

const ROWS_WITHOUT_FAILED: &str = "2 is SELECT count(*) FROM item_job
2 is SELECT count(*) FROM item_job WHERE serial = 1
0 is SELECT count(*) FROM item_fast";

/// Other settings leave the jobs of a landing.
const ROWS_THEN: &str = "open as core 2 1 and web, docs votes, lib fails fast: done
2 is SELECT count(*) FROM item_job
1 is SELECT count(*) FROM item_job WHERE serial = 1 AND place = 1 AND name = 'docs' AND voting = 0
0 is SELECT count(*) FROM item_fast";

/// What is told, and the rows then.
const STEPS: [(&str, &str); 5] = [
    (ADMITTED, ROWS_OF_ADMITTED),
    (LANDED, ROWS_OF_LANDED),
    (TWO_MORE, ROWS_OF_TWO_MORE),
    (ONE_WITHDRAWN, ROWS_WITHOUT_WITHDRAWN),
    (ONE_FAILED, ROWS_WITHOUT_FAILED),
];

fn steps<S: Alter + Drop>(rt: &(impl Abort + AllocGlobal), mut conn: Connection<S>) {
    conn = made_under(rt, conn, SETTINGS);
    for (told, rows) in STEPS {
        conn = has_then(rt, conn, SETTINGS, told, rows);
    }
    let _ = after(rt, conn, ROWS_THEN);
}

#[test]
fn an_item_has_rows_of_its_jobs_and_a_landing_keeps_them(rt: HostRuntime) {
    steps(&rt, empty(&rt));
}

//! Settings and deliveries, by the names that a session calls them by.
/// One queue, one project and one job.
const ONE_QUEUE: &str = r#"[forge]
base = "https://forge/c/"

[[queue]]
name = "core"
window = 2
floor = 1

[[project]]
name = "lib"
queue = "core"
[[project.job]]
name = "unit"
"#;

/// Two queues, three projects and four jobs.
const TWO_QUEUES: &str = r#"[forge]
base = "https://forge/c/"

[[queue]]
name = "core"
window = 2
floor = 1

[[queue]]
name = "web"
window = 2
floor = 1

[[project]]
name = "lib"
queue = "core"
[[project.job]]
name = "unit"
[[project.job]]
name = "docs"
voting = false

[[project]]
name = "app"
queue = "core"
[[project.job]]
name = "unit"

[[project]]
name = "site"
queue = "web"
[[project.job]]
name = "unit"
"#;

/// The same without the project of the second queue.
const NO_SITE: &str = r#"[forge]
base = "https://forge/c/"

[[queue]]
name = "core"
window = 2
floor = 1

[[queue]]
name = "web"
window = 2
floor = 1

[[project]]
name = "lib"
queue = "core"
[[project.job]]
name = "unit"
[[project.job]]
name = "docs"
voting = false

[[project]]
name = "app"
queue = "core"
[[project.job]]
name = "unit"
"#;

/// `TWO_QUEUES` with a floor above the window of the first queue.
const HIGH_FLOOR: &str = r#"[forge]
base = "https://forge/c/"

[[queue]]
name = "core"
window = 2
floor = 3

[[queue]]
name = "web"
window = 2
floor = 1

[[project]]
name = "lib"
queue = "core"
[[project.job]]
name = "unit"
[[project.job]]
name = "docs"
voting = false

[[project]]
name = "app"
queue = "core"
[[project.job]]
name = "unit"

[[project]]
name = "site"
queue = "web"
[[project.job]]
name = "unit"
"#;

const APPROVAL: &str =
    "{\"id\":\"0a000000-0000-4000-8000-000000000001\",\"kind\":\"approved\",\"change\":101,\"revision\":1}\n";

const REVISION: &str =
    "{\"id\":\"0a000000-0000-4000-8000-000000000001\",\"kind\":\"revision\",\"change\":101,\"project\":\"lib\",\"revision\":1,\"message\":\"\"}\n";

/// The approval of what `REVISION` records.
const APPROVED: &str =
    "{\"id\":\"0a000000-0000-4000-8000-000000000002\",\"kind\":\"approved\",\"change\":101,\"revision\":1}\n";

/// 101, 102 and 103 enter `core`, and 301 waits for 101. Then 101 fails, 102 is built again without it, and lands,
/// while a job of 101 that doesn't vote still runs.
const DAY: &str =
    r#"{"id":"0a000000-0000-4000-8000-000000000001","kind":"revision","change":101,"project":"lib","revision":1,"message":""}
{"id":"0a000000-0000-4000-8000-000000000002","kind":"revision","change":102,"project":"app","revision":1,"message":""}
{"id":"0a000000-0000-4000-8000-000000000003","kind":"revision","change":103,"project":"lib","revision":1,"message":""}
{"id":"0a000000-0000-4000-8000-000000000004","kind":"revision","change":301,"project":"site","revision":1,"message":"Depends-On: https://forge/c/101"}
{"id":"0a000000-0000-4000-8000-000000000005","kind":"approved","change":301,"revision":1}
{"id":"0a000000-0000-4000-8000-000000000006","kind":"approved","change":101,"revision":1}
{"id":"0a000000-0000-4000-8000-000000000007","kind":"approved","change":102,"revision":1}
{"id":"0a000000-0000-4000-8000-000000000008","kind":"approved","change":103,"revision":1}
{"id":"0a000000-0000-4000-8000-000000000009","kind":"take","worker":"w1"}
{"id":"0a000000-0000-4000-8000-00000000000a","kind":"take","worker":"w2"}
{"id":"0a000000-0000-4000-8000-00000000000b","kind":"take","worker":"w3"}
{"id":"0a000000-0000-4000-8000-00000000000c","kind":"result","build":1,"outcome":"failure"}
{"id":"0a000000-0000-4000-8000-00000000000d","kind":"take","worker":"w1"}
{"id":"0a000000-0000-4000-8000-00000000000e","kind":"result","build":4,"outcome":"success"}
{"id":"0a000000-0000-4000-8000-00000000000f","kind":"landed","order":2}
"#;

/// The last job of 101 ends, so that it leaves.
const EVENING: &str =
    "{\"id\":\"0a000000-0000-4000-8000-000000000010\",\"kind\":\"result\",\"build\":2,\"outcome\":\"success\"}\n";

/// Makes a file of schema 1 with the settings of `ONE_QUEUE`, which was given `REVISION` and `APPROVED`.
const SCHEMA_1: &str = r#"CREATE TABLE meta (k TEXT PRIMARY KEY NOT NULL, v TEXT NOT NULL) STRICT;
CREATE TABLE counter (name TEXT PRIMARY KEY NOT NULL, drawn INTEGER NOT NULL CHECK(drawn >= 0)) STRICT;
CREATE TABLE queue (name TEXT PRIMARY KEY NOT NULL, place INTEGER NOT NULL UNIQUE, win INTEGER NOT NULL) STRICT;
CREATE TABLE change (num INTEGER PRIMARY KEY, project TEXT NOT NULL, revision INTEGER NOT NULL,
    state TEXT NOT NULL CHECK(state IN ('open','landed','closed')), approval INTEGER) STRICT;
CREATE INDEX change_approval ON change(approval);
CREATE TABLE need (change INTEGER NOT NULL, place INTEGER NOT NULL, needed INTEGER NOT NULL,
    PRIMARY KEY(change, place)) STRICT;
CREATE TABLE item (serial INTEGER PRIMARY KEY, queue TEXT NOT NULL, change INTEGER NOT NULL UNIQUE,
    revision INTEGER NOT NULL, ahead INTEGER, failing INTEGER NOT NULL CHECK(failing IN (0,1))) STRICT;
CREATE TABLE build (num INTEGER PRIMARY KEY, queue TEXT NOT NULL, serial INTEGER NOT NULL,
    change INTEGER NOT NULL, revision INTEGER NOT NULL, job TEXT NOT NULL, base INTEGER NOT NULL,
    ahead TEXT NOT NULL, outcome TEXT NOT NULL CHECK(outcome IN ('running','success','failure','lost')),
    live INTEGER NOT NULL CHECK(live IN (0,1))) STRICT;
CREATE TABLE landing (queue TEXT NOT NULL, n INTEGER NOT NULL, serial INTEGER NOT NULL UNIQUE,
    change INTEGER NOT NULL UNIQUE, revision INTEGER NOT NULL, PRIMARY KEY(queue, n)) STRICT;
CREATE TABLE report (queue TEXT NOT NULL, place INTEGER NOT NULL, serial INTEGER NOT NULL UNIQUE,
    change INTEGER NOT NULL, revision INTEGER NOT NULL, verdict TEXT NOT NULL, n INTEGER,
    PRIMARY KEY(queue, place)) STRICT;
CREATE TABLE delivery (id BLOB PRIMARY KEY NOT NULL, said TEXT NOT NULL, reply TEXT NOT NULL) STRICT;
CREATE INDEX need_needed ON need(needed);
CREATE INDEX item_queue ON item(queue, serial);
CREATE INDEX build_serial ON build(serial);
INSERT INTO meta VALUES ('format', 'gate'), ('schema', '1');
INSERT INTO meta VALUES ('settings', '{"base":"https://forge/c/","projects":[{"jobs":[{"name":"unit","voting":true}],"name":"lib","queue":"core"}],"queues":[{"floor":1,"name":"core","window":2}]}');
INSERT INTO counter VALUES ('approval', 1), ('build', 0), ('order', 1);
INSERT INTO queue VALUES ('core', 0, 2);
INSERT INTO change VALUES (101, 'lib', 1, 'open', NULL);
INSERT INTO item VALUES (1, 'core', 101, 1, NULL, 0);
INSERT INTO delivery VALUES (x'0a000000000040008000000000000001', '{"change":101,"kind":"revision","message":"","project":"lib","revision":1}', '{"reply":"recorded"}');
INSERT INTO delivery VALUES (x'0a000000000040008000000000000002', '{"change":101,"kind":"approved","revision":1}', '{"order":1,"reply":"queued"}');
"#;

/// The text of a name.
pub fn text_of(name: &str) -> Option<&'static str> {
    match name {
        "nothing" | "broken" => Some(""),
        "no settings" => Some("[forge"),
        "no gate" => Some("ten bytes\n"),
        "one queue" => Some(ONE_QUEUE),
        "two queues" => Some(TWO_QUEUES),
        "no site" => Some(NO_SITE),
        "schema 1" => Some(SCHEMA_1),
        "a window below 0" => Some("UPDATE queue SET win = -1"),
        "high floor" => Some(HIGH_FLOOR),
        "no delivery" => Some("no delivery\n"),
        "approval" => Some(APPROVAL),
        "revision" => Some(REVISION),
        "approved" => Some(APPROVED),
        "day" => Some(DAY),
        "evening" => Some(EVENING),
        _ => None,
    }
}

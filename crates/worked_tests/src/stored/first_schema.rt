//! A file of schema 1, as statements that make it.

/// Its tables before that of the changes.
pub(crate) const TABLES_BEFORE: &str =
    "run CREATE TABLE meta (k TEXT PRIMARY KEY NOT NULL, v TEXT NOT NULL) STRICT
run CREATE TABLE counter (name TEXT PRIMARY KEY NOT NULL, drawn INTEGER NOT NULL CHECK(drawn >= 0)) STRICT
run CREATE TABLE queue (name TEXT PRIMARY KEY NOT NULL, place INTEGER NOT NULL UNIQUE, win INTEGER NOT NULL) STRICT";

/// The table of the changes.
pub(crate) const CHANGES: &str =
    "run CREATE TABLE change (num INTEGER PRIMARY KEY, project TEXT NOT NULL, revision INTEGER NOT NULL, state TEXT NOT NULL CHECK(state IN ('open','landed','closed')), approval INTEGER UNIQUE) STRICT";

/// The same with an index of the approvals, as a file of schema 2 has it.
pub(crate) const CHANGES_WITH_INDEX: &str =
    "run CREATE TABLE change (num INTEGER PRIMARY KEY, project TEXT NOT NULL, revision INTEGER NOT NULL, state TEXT NOT NULL CHECK(state IN ('open','landed','closed')), approval INTEGER) STRICT
run CREATE INDEX change_approval ON change(approval)";

/// Its tables behind that, and its indexes.
pub(crate) const TABLES_BEHIND: &str =
    "run CREATE TABLE need (change INTEGER NOT NULL, place INTEGER NOT NULL, needed INTEGER NOT NULL, PRIMARY KEY(change, place)) STRICT
run CREATE TABLE item (serial INTEGER PRIMARY KEY, queue TEXT NOT NULL, change INTEGER NOT NULL UNIQUE, revision INTEGER NOT NULL, ahead INTEGER, failing INTEGER NOT NULL CHECK(failing IN (0,1))) STRICT
run CREATE TABLE build (num INTEGER PRIMARY KEY, queue TEXT NOT NULL, serial INTEGER NOT NULL, change INTEGER NOT NULL, revision INTEGER NOT NULL, job TEXT NOT NULL, base INTEGER NOT NULL, ahead TEXT NOT NULL, outcome TEXT NOT NULL CHECK(outcome IN ('running','success','failure','lost')), live INTEGER NOT NULL CHECK(live IN (0,1))) STRICT
run CREATE TABLE landing (queue TEXT NOT NULL, n INTEGER NOT NULL, serial INTEGER NOT NULL UNIQUE, change INTEGER NOT NULL UNIQUE, revision INTEGER NOT NULL, PRIMARY KEY(queue, n)) STRICT
run CREATE TABLE report (queue TEXT NOT NULL, place INTEGER NOT NULL, serial INTEGER NOT NULL UNIQUE, change INTEGER NOT NULL, revision INTEGER NOT NULL, verdict TEXT NOT NULL, n INTEGER, PRIMARY KEY(queue, place)) STRICT
run CREATE TABLE delivery (id BLOB PRIMARY KEY NOT NULL, said TEXT NOT NULL, reply TEXT NOT NULL) STRICT
run CREATE INDEX need_needed ON need(needed)
run CREATE INDEX item_queue ON item(queue, serial)
run CREATE INDEX build_serial ON build(serial)";

/// Changes 101, 102 and 103 were queued; 101 failed and runs its other job, 102 has landed past it, and 103 is queued.
pub(crate) const ROWS: &str = r#"run INSERT INTO meta VALUES ('format', 'gate')
run INSERT INTO meta VALUES ('schema', '1')
run INSERT INTO meta VALUES ('settings', '{"base":"https://forge/c/","projects":[{"jobs":[{"name":"unit","voting":true},{"name":"docs","voting":false}],"name":"lib","queue":"core"},{"jobs":[{"name":"unit","voting":true}],"name":"app","queue":"core"},{"jobs":[{"name":"unit","voting":true}],"name":"site","queue":"web"}],"queues":[{"floor":1,"name":"core","window":2},{"floor":1,"name":"web","window":2}]}')
run INSERT INTO counter VALUES ('approval', 3), ('build', 4), ('order', 3)
run INSERT INTO queue VALUES ('core', 0, 3), ('web', 1, 2)
run INSERT INTO change VALUES (101, 'lib', 1, 'open', NULL), (102, 'app', 1, 'landed', NULL), (103, 'lib', 1, 'open', NULL)
run INSERT INTO item VALUES (1, 'core', 101, 1, NULL, 1), (3, 'core', 103, 1, NULL, 0)
run INSERT INTO build VALUES (1, 'core', 1, 101, 1, 'unit', 0, '[]', 'failure', 1)
run INSERT INTO build VALUES (2, 'core', 1, 101, 1, 'docs', 0, '[]', 'running', 1)
run INSERT INTO build VALUES (3, 'core', 2, 102, 1, 'unit', 0, '[[101,1]]', 'running', 0)
run INSERT INTO build VALUES (4, 'core', 2, 102, 1, 'unit', 0, '[]', 'success', 1)
run INSERT INTO landing VALUES ('core', 1, 2, 102, 1)
run INSERT INTO report VALUES ('core', 1, 2, 102, 1, 'landed', 1)
run INSERT INTO delivery VALUES (x'0a000000000040008000000000000001', '{"change":101,"kind":"revision","message":"","project":"lib","revision":1}', '{"reply":"recorded"}')
run INSERT INTO delivery VALUES (x'0a000000000040008000000000000002', '{"change":102,"kind":"revision","message":"","project":"app","revision":1}', '{"reply":"recorded"}')
run INSERT INTO delivery VALUES (x'0a000000000040008000000000000003', '{"change":103,"kind":"revision","message":"","project":"lib","revision":1}', '{"reply":"recorded"}')
run INSERT INTO delivery VALUES (x'0a000000000040008000000000000004', '{"change":101,"kind":"approved","revision":1}', '{"order":1,"reply":"queued"}')
run INSERT INTO delivery VALUES (x'0a000000000040008000000000000005', '{"change":102,"kind":"approved","revision":1}', '{"order":2,"reply":"queued"}')
run INSERT INTO delivery VALUES (x'0a000000000040008000000000000006', '{"change":103,"kind":"approved","revision":1}', '{"order":3,"reply":"queued"}')
run INSERT INTO delivery VALUES (x'0a000000000040008000000000000007', '{"kind":"take","worker":"w1"}', '{"after":0,"ahead":[],"build":1,"change":101,"job":"unit","queue":"core","reply":"build","revision":1}')
run INSERT INTO delivery VALUES (x'0a000000000040008000000000000008', '{"kind":"take","worker":"w1"}', '{"after":0,"ahead":[],"build":2,"change":101,"job":"docs","queue":"core","reply":"build","revision":1}')
run INSERT INTO delivery VALUES (x'0a000000000040008000000000000009', '{"kind":"take","worker":"w1"}', '{"after":0,"ahead":[[101,1]],"build":3,"change":102,"job":"unit","queue":"core","reply":"build","revision":1}')
run INSERT INTO delivery VALUES (x'0b000000000040008000000000000001', '{"build":1,"kind":"result","outcome":"failure"}', '{"reply":"noted"}')
run INSERT INTO delivery VALUES (x'0b000000000040008000000000000002', '{"kind":"take","worker":"w1"}', '{"after":0,"ahead":[],"build":4,"change":102,"job":"unit","queue":"core","reply":"build","revision":1}')
run INSERT INTO delivery VALUES (x'0b000000000040008000000000000003', '{"build":3,"kind":"result","outcome":"success"}', '{"reply":"stale"}')
run INSERT INTO delivery VALUES (x'0c000000000040008000000000000001', '{"build":4,"kind":"result","outcome":"success"}', '{"reply":"noted"}')
run INSERT INTO delivery VALUES (x'0c000000000040008000000000000002', '{"kind":"landed","order":2}', '{"n":1,"reply":"landed"}')"#;

/// `lib` fails fast. Changes 101 and 102 have landed; 103, 104 and 105 are queued, and two builds of 103 run.
pub(crate) const FAST_ROWS: &str = r#"run INSERT INTO meta VALUES ('format', 'gate')
run INSERT INTO meta VALUES ('schema', '1')
run INSERT INTO meta VALUES ('settings', '{"base":"https://forge/c/","projects":[{"fail_fast":true,"jobs":[{"name":"unit","voting":true},{"name":"docs","voting":false}],"name":"lib","queue":"core"},{"jobs":[{"name":"unit","voting":true}],"name":"app","queue":"core"},{"jobs":[{"name":"unit","voting":true}],"name":"site","queue":"web"}],"queues":[{"floor":1,"name":"core","window":2},{"floor":1,"name":"web","window":2}]}')
run INSERT INTO counter VALUES ('approval', 5), ('build', 5), ('order', 5)
run INSERT INTO queue VALUES ('core', 0, 4), ('web', 1, 2)
run INSERT INTO change VALUES (101, 'lib', 1, 'landed', NULL), (102, 'app', 1, 'landed', NULL)
run INSERT INTO change VALUES (103, 'lib', 1, 'open', NULL), (104, 'app', 1, 'open', NULL), (105, 'lib', 1, 'open', NULL)
run INSERT INTO item VALUES (3, 'core', 103, 1, NULL, 0), (4, 'core', 104, 1, 3, 0), (5, 'core', 105, 1, 4, 0)
run INSERT INTO build VALUES (1, 'core', 1, 101, 1, 'unit', 0, '[]', 'success', 1)
run INSERT INTO build VALUES (2, 'core', 1, 101, 1, 'docs', 0, '[]', 'failure', 1)
run INSERT INTO build VALUES (3, 'core', 2, 102, 1, 'unit', 0, '[[101,1]]', 'success', 1)
run INSERT INTO build VALUES (4, 'core', 3, 103, 1, 'unit', 1, '[[102,1]]', 'running', 1)
run INSERT INTO build VALUES (5, 'core', 3, 103, 1, 'docs', 2, '[]', 'running', 1)
run INSERT INTO landing VALUES ('core', 1, 1, 101, 1), ('core', 2, 2, 102, 1)
run INSERT INTO report VALUES ('core', 1, 1, 101, 1, 'landed', 1), ('core', 2, 2, 102, 1, 'landed', 2)"#;

/// All rows but those of 1,000 landings in `core`, changes 1 to 1000, of which each was the only item of its queue.
pub(crate) const LONG_ROWS: &str = r#"run INSERT INTO meta VALUES ('format', 'gate')
run INSERT INTO meta VALUES ('schema', '1')
run INSERT INTO meta VALUES ('settings', '{"base":"https://forge/c/","projects":[{"jobs":[{"name":"unit","voting":true},{"name":"docs","voting":false}],"name":"lib","queue":"core"},{"jobs":[{"name":"unit","voting":true}],"name":"app","queue":"core"},{"jobs":[{"name":"unit","voting":true}],"name":"site","queue":"web"}],"queues":[{"floor":1,"name":"core","window":2},{"floor":1,"name":"web","window":2}]}')
run INSERT INTO counter VALUES ('approval', 5000), ('build', 1005000), ('order', 5000)
run INSERT INTO queue VALUES ('core', 0, 1000), ('web', 1, 2)"#;

//! Whole runs of the program over the gate that a real file keeps.
use crate::tests::machine::Machine;
use crate::tests::sessions::plays;

const DELIVERED: &str =
    r#"# a second init is refused and leaves the gate: a repeat gets the kept reply, and the change is still known
$ clear init_twice.toml init_twice.gate init_twice.gate-wal
$ write init_twice.toml < one queue
$ gated init init_twice.toml init_twice.gate
|= 0
$ gated deliver init_twice.toml init_twice.gate < revision
{"reply":"recorded"}
|= 0
$ gated init init_twice.toml init_twice.gate
|gated: O1 wrong-file
= 1
$ gated deliver init_twice.toml init_twice.gate < revision
{"reply":"recorded"}
|= 0
$ gated deliver init_twice.toml init_twice.gate < approved
{"order":1,"reply":"queued"}
|= 0
$ clear init_twice.toml init_twice.gate init_twice.gate-wal
# a file that is no gate's is refused, and where none is there, none is left behind
$ clear no_gate.toml no_gate.gate no_gate.gate-wal
$ write no_gate.toml < one queue
$ gated deliver no_gate.toml no_gate.gate < revision
|gated: O4 unavailable
= 1
unread
$ look no_gate.gate
missing
$ write no_gate.gate < no gate
$ gated deliver no_gate.toml no_gate.gate < revision
|gated: O4 unavailable
= 1
unread
$ clear no_gate.gate-wal
$ write no_gate.gate < nothing
$ gated deliver no_gate.toml no_gate.gate < revision
|gated: O1 wrong-file
= 1
unread
$ clear no_gate.toml no_gate.gate no_gate.gate-wal
# after each command the file alone is enough: what is beside it may go
$ clear alone.toml alone.gate alone.gate-wal
$ write alone.toml < one queue
$ gated init alone.toml alone.gate
|= 0
$ clear alone.gate-wal
$ gated deliver alone.toml alone.gate < revision
{"reply":"recorded"}
|= 0
$ clear alone.gate-wal
$ gated deliver alone.toml alone.gate < approved
{"order":1,"reply":"queued"}
|= 0
$ clear alone.toml alone.gate alone.gate-wal
# a folder that is not there is told
$ write no_folder.toml < one queue
$ gated init no_folder.toml no_folder/gate
|gated: O4 unavailable
= 1
$ gated deliver no_folder.toml no_folder/gate < revision
|gated: O4 unavailable
= 1
unread
$ clear no_folder.toml no_folder/gate no_folder/gate-wal
"#;

#[test]
fn a_gate_is_made_and_delivered_to(rt: HostRuntime) {
    plays(&rt, &Machine::new(&rt), DELIVERED);
}

const NEW: &str =
    r#"# a new file has small pages, also where an empty one is there, and a database keeps those that it has
$ clear new.toml new.gate new.gate-wal old.gate old.gate-wal
$ write new.toml < one queue
$ gated init new.toml new.gate
|= 0
$ page new.gate
1024
$ clear new.gate
$ write new.gate < nothing
$ gated init new.toml new.gate
|= 0
$ page new.gate
1024
$ sql old.gate < nothing
$ gated init new.toml old.gate
|= 0
$ page old.gate
4096
$ gated deliver new.toml old.gate < revision
{"reply":"recorded"}
|= 0
$ clear new.toml new.gate new.gate-wal old.gate old.gate-wal
# a log that lies by the name of a file that isn't there belongs to another one
$ clear stray.toml stray.gate stray.gate-wal
$ write stray.toml < one queue
$ write stray.gate-wal < no gate
$ gated init stray.toml stray.gate
|gated: O1 wrong-file
= 1
$ look stray.gate
missing
$ write stray.gate-wal < nothing
$ gated init stray.toml stray.gate
|= 0
$ gated deliver stray.toml stray.gate < revision
{"reply":"recorded"}
|= 0
$ clear stray.toml stray.gate stray.gate-wal
# what is no path of a file makes none
$ clear new.toml :memory:
$ write new.toml < one queue
$ gated init new.toml :memory:
|gated: O4 unavailable
= 1
$ look :memory:
missing
$ clear new.toml
"#;

#[test]
fn a_new_file_has_small_pages(rt: HostRuntime) {
    plays(&rt, &Machine::new(&rt), NEW);
}

const ADOPTED: &str =
    r#"# settings with a queue more are taken, and an item keeps the jobs that it came with
$ clear others.toml others.gate others.gate-wal
$ write others.toml < one queue
$ gated init others.toml others.gate
|= 0
$ gated deliver others.toml others.gate < revision
{"reply":"recorded"}
|= 0
$ gated deliver others.toml others.gate < approved
{"order":1,"reply":"queued"}
|= 0
$ write others.toml < two queues
$ gated deliver others.toml others.gate < approved
{"order":1,"reply":"queued"}
|= 0
$ gated status others.toml others.gate
queue core window 2 landed 0
     1       101    1      - ok      unit=waiting
queue web window 2 landed 0
end
|= 0
# settings without a kept project are refused, and the file opens as before with its own
$ write others.toml < no site
$ gated deliver others.toml others.gate < day
|gated: O3 other-settings
= 1
unread
$ gated status others.toml others.gate
|gated: O3 other-settings
= 1
$ write others.toml < two queues
$ gated status others.toml others.gate
queue core window 2 landed 0
     1       101    1      - ok      unit=waiting
queue web window 2 landed 0
end
|= 0
$ clear others.toml others.gate others.gate-wal
"#;

#[test]
fn other_settings_are_taken_or_refused(rt: HostRuntime) {
    plays(&rt, &Machine::new(&rt), ADOPTED);
}

const MIGRATED: &str =
    r#"# a file of schema 1 is made one of schema 2, with its own settings alone, and the gate stays
$ clear migrating.toml migrating.gate migrating.gate-wal
$ write migrating.toml < one queue
$ sql migrating.gate < schema 1
$ gated status migrating.toml migrating.gate
|gated: O2 other-schema
= 1
$ write migrating.toml < two queues
$ gated migrate migrating.toml migrating.gate
|gated: O3 other-settings
= 1
$ write migrating.toml < one queue
$ gated migrate migrating.toml migrating.gate < approved
migrated 1 2
|= 0
unread
$ gated status migrating.toml migrating.gate
queue core window 2 landed 0
     1       101    1      - ok      unit=waiting
end
|= 0
$ gated deliver migrating.toml migrating.gate < approved
{"order":1,"reply":"queued"}
|= 0
$ clear migrating.toml migrating.gate migrating.gate-wal
"#;

#[test]
fn a_file_of_schema_1_is_migrated(rt: HostRuntime) {
    plays(&rt, &Machine::new(&rt), MIGRATED);
}

const LEFT: &str = "\
# where no file is, a migration leaves none behind, and one that is no gate's is told
$ clear left.toml left.gate left.gate-wal
$ write left.toml < one queue
$ gated migrate left.toml left.gate
|gated: O4 unavailable
= 1
$ look left.gate
missing
$ write left.gate < nothing
$ gated migrate left.toml left.gate
|gated: O1 wrong-file
= 1
# a file of schema 2 is left as it is, whatever the settings
$ clear left.gate left.gate-wal
$ gated init left.toml left.gate
|= 0
$ write left.toml < two queues
$ gated migrate left.toml left.gate
schema 2
|= 0
$ gated migrate left.toml left.gate > 7
schema |gated: I2 write
= 1
$ write left.toml < one queue
$ gated status left.toml left.gate
queue core window 2 landed 0
end
|= 0
$ clear left.toml left.gate left.gate-wal
";

#[test]
fn a_migration_leaves_other_files(rt: HostRuntime) {
    plays(&rt, &Machine::new(&rt), LEFT);
}

const SHOWN: &str =
    r#"# the texts are those of the gate in the file, and a full output takes their beginning
$ clear showing.toml showing.gate showing.gate-wal
$ write showing.toml < two queues
$ gated init showing.toml showing.gate
|= 0
$ gated deliver showing.toml showing.gate < day
...{"n":1,"reply":"landed"}
|= 0
$ gated status showing.toml showing.gate
queue core window 3 landed 1
     1       101    1      - failing unit=failure docs=running
     3       103    1      - ok      unit=waiting docs=waiting
queue web window 2 landed 0
waiting 301 1
end
|= 0
$ gated status showing.toml showing.gate > 20
queue core window 3 |gated: I2 write
= 1
$ gated history showing.toml showing.gate core > 20
history core
     1 |gated: I2 write
= 1
$ gated deliver showing.toml showing.gate < evening
{"reply":"noted"}
|= 0
$ gated history showing.toml showing.gate core
history core
     1      2       102    1 landed          1
     2      1       101    1 failed          -
end 2
|= 0
$ gated history showing.toml showing.gate web
history web
end 0
|= 0
$ clear showing.toml showing.gate showing.gate-wal
"#;

#[test]
fn the_texts_are_those_of_the_gate_in_the_file(rt: HostRuntime) {
    plays(&rt, &Machine::new(&rt), SHOWN);
}

const ASKED: &str =
    r#"# what was accepted is printed, all or behind an id, and makes another file the same gate
$ clear asked.toml asked.gate asked.gate-wal
$ write asked.toml < one queue
$ gated init asked.toml asked.gate
|= 0
$ gated deliveries asked.toml asked.gate < revision
|= 0
unread
$ gated deliver asked.toml asked.gate < revision
{"reply":"recorded"}
|= 0
$ gated deliver asked.toml asked.gate < approved
{"order":1,"reply":"queued"}
|= 0
$ gated deliveries asked.toml asked.gate
{"change":101,"id":"0a000000000040008000000000000001","kind":"revision","message":"","project":"lib","revision":1}
{"change":101,"id":"0a000000000040008000000000000002","kind":"approved","revision":1}
|= 0
$ gated deliveries asked.toml asked.gate --after 0a000000000040008000000000000001
{"change":101,"id":"0a000000000040008000000000000002","kind":"approved","revision":1}
|= 0
$ gated deliveries asked.toml asked.gate --after 0a000000000040008000000000000002
|= 0
$ gated deliveries asked.toml asked.gate --after 00000000-0000-0000-0000-000000000000
|gated: I8 no-delivery
= 1
$ gated deliveries asked.toml asked.gate --after first
|gated: I8 no-delivery
= 1
$ gated deliveries asked.toml asked.gate > 20
{"change":101,"id":"|gated: I2 write
= 1
# the content of an answer is printed, and a status tells whether it is one of 200
$ gated get asked.toml asked.gate /status
queue core window 2 landed 0
     1       101    1      - ok      unit=waiting
end
|= 0
$ gated get asked.toml asked.gate /items/1?x < revision
{"builds":[],"change":101,"jobs":[{"job":"unit","slot":"waiting","voting":true}],"kept":0,"order":1,"queue":"core","revision":1,"verdict":null}|= 0
unread
$ gated get asked.toml asked.gate /history/core/1
history core
end 0
|= 0
$ gated get asked.toml asked.gate /deliveries/0a000000000040008000000000000002
end 0
|= 0
$ gated get asked.toml asked.gate /items/2
{"error":"no-item"}|gated: I9 refused
= 1
$ gated get asked.toml asked.gate /forge
{"error":"method"}|gated: I9 refused
= 1
$ gated get asked.toml asked.gate status
{"error":"no-route"}|gated: I9 refused
= 1
$ gated get asked.toml asked.gate ''
{"error":"bad-request"}|gated: I9 refused
= 1
$ gated get asked.toml asked.gate '/status HTTP/1.1'
{"error":"bad-request"}|gated: I9 refused
= 1
$ gated get asked.toml asked.gate /status > 5
queue|gated: I2 write
= 1
$ clear asked.gate asked.gate-wal
$ write asked.gate < no gate
$ gated get asked.toml asked.gate /status
|gated: O4 unavailable
= 1
$ gated deliveries asked.toml asked.gate --after first
|gated: O4 unavailable
= 1
$ clear asked.toml asked.gate asked.gate-wal
"#;

#[test]
fn a_file_is_asked_as_over_http(rt: HostRuntime) {
    plays(&rt, &Machine::new(&rt), ASKED);
}

const MISSING: &str = "\
# a queue or a file that is not there is told; the last two can be no queue's name
$ clear showing_none.toml showing_none.gate showing_none.gate-wal
$ write showing_none.toml < two queues
$ gated status showing_none.toml showing_none.gate
|gated: O4 unavailable
= 1
$ gated history showing_none.toml showing_none.gate core
|gated: O4 unavailable
= 1
$ look showing_none.gate
missing
$ gated init showing_none.toml showing_none.gate
|= 0
$ gated history showing_none.toml showing_none.gate cor
|gated: I6 no-queue
= 1
$ gated history showing_none.toml showing_none.gate ''
|gated: I6 no-queue
= 1
$ gated history showing_none.toml showing_none.gate 'core web'
|gated: I6 no-queue
= 1
$ clear showing_none.toml showing_none.gate showing_none.gate-wal
";

#[test]
fn a_queue_or_a_file_that_is_not_there_is_told(rt: HostRuntime) {
    plays(&rt, &Machine::new(&rt), MISSING);
}

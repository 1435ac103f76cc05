//! Faults of a run over a file: which of two is told, and what each leaves beside the file.
use crate::tests::machine::Machine;
use crate::tests::sessions::plays;
use std::process::Abort;

/// Commands over a gate's file, each with a fault of its own beside those of the settings and of the file.
const OVER: &str = "\
status order.toml order.gate > 0
history order.toml order.gate none > 0
deliveries order.toml order.gate --after none > 0
get order.toml order.gate '' > 0
deliver order.toml order.gate < broken > 0
serve order.toml order.gate --port 0 --count 1 > 0
";

/// All others, of which one makes no file.
const OTHERS: &str = "\
check order.toml > 0
replay order.toml < broken > 0
init order.toml no_folder/order.gate
migrate order.toml order.gate > 0
";

/// Scenes in which `over: FAULT` stands for the commands of `OVER`, and `all: FAULT` for those of `OTHERS` too, where
/// each of them tells this fault alone.
fn spelled(rt: &(impl Abort + AllocGlobal), scenes: &str) -> String {
    let mut text = String::new(rt.alloc());
    for line in scenes.lines() {
        match line.split_once(": ") {
            Some(("all", fault)) => {
                tell(rt, &mut text, OVER, fault);
                tell(rt, &mut text, OTHERS, fault);
            }
            Some(("over", fault)) => tell(rt, &mut text, OVER, fault),
            _ => push(rt, &mut text, &[line, "\n"]),
        }
    }
    text
}

fn tell(rt: &(impl Abort + AllocGlobal), text: &mut String, commands: &str, fault: &str) {
    for line in commands.lines() {
        push(
            rt,
            text,
            &["$ gated ", line, "\n|gated: ", fault, "\n= 1\n"],
        );
    }
}

fn push(rt: &(impl Abort + AllocGlobal), text: &mut String, parts: &[&str]) {
    for part in parts {
        text.push_str(part).expect(rt, "memory");
    }
}

const SETTINGS: &str = "\
# a fault of the settings is told before any of the gate's file, and of what is asked
$ clear order.toml order.gate order.gate-wal
all: I5 settings-file
$ write order.toml < no settings
all: C1 not-toml
$ write order.toml < high floor
all: C8 bad-window
$ write order.toml < one queue
$ gated init order.toml order.gate
|= 0
$ write order.toml < no settings
all: C1 not-toml
$ clear order.toml
all: I5 settings-file
$ clear order.gate order.gate-wal
";

const FILES: &str = "\
# a fault of the gate's file is told before any of what is asked
$ clear order.toml order.gate order.gate-wal
$ write order.toml < one queue
over: O4 unavailable
$ gated migrate order.toml order.gate > 0
|gated: O4 unavailable
= 1
$ gated history order.toml order.gate core > 0
|gated: O4 unavailable
= 1
$ write order.gate < nothing
over: O1 wrong-file
$ gated migrate order.toml order.gate > 0
|gated: O1 wrong-file
= 1
$ clear order.gate order.gate-wal
# its version comes before its settings, which a migration asks for before it tells anything
$ sql order.gate < schema 1
over: O2 other-schema
$ write order.toml < two queues
over: O2 other-schema
$ gated migrate order.toml order.gate > 0
|gated: O3 other-settings
= 1
$ clear order.gate order.gate-wal
$ gated init order.toml order.gate
|= 0
$ write order.toml < one queue
over: O3 other-settings
$ gated init order.toml order.gate
|gated: O1 wrong-file
= 1
$ clear order.toml order.gate order.gate-wal
";

#[test]
fn a_fault_of_the_settings_is_told_first(rt: HostRuntime) {
    plays(&rt, &Machine::new(&rt), spelled(&rt, SETTINGS).as_str());
}

#[test]
fn a_fault_of_the_file_is_told_before_what_is_asked(rt: HostRuntime) {
    let text = spelled(&rt, FILES).replace(rt.alloc(), "order.", "files.");
    plays(&rt, &Machine::new(&rt), text.expect(&rt, "memory").as_str());
}

const ASKED: &str =
    r#"# what isn't there is told before an output that takes nothing, and an input that fails before it, too
$ clear asks.toml asks.gate asks.gate-wal
$ write asks.toml < one queue
$ gated init asks.toml asks.gate
|= 0
$ gated history asks.toml asks.gate none > 0
|gated: I6 no-queue
= 1
$ gated deliveries asks.toml asks.gate --after none > 0
|gated: I8 no-delivery
= 1
$ gated deliveries asks.toml asks.gate --after 00000000-0000-0000-0000-000000000000 > 0
|gated: I8 no-delivery
= 1
$ gated deliver asks.toml asks.gate < broken > 0
|gated: I1 read
= 1
$ gated replay asks.toml < broken > 0
|gated: I1 read
= 1
# a content that can't be written is told as that, whatever its status
$ gated get asks.toml asks.gate '' > 0
|gated: I2 write
= 1
$ gated get asks.toml asks.gate /items/none > 5
{"err|gated: I2 write
= 1
# rows that are no gate's are told before the output is tried
$ sql asks.gate < a window below 0
$ gated status asks.toml asks.gate > 0
|gated: E15 unavailable
= 1
$ clear asks.toml asks.gate asks.gate-wal
"#;

#[test]
fn what_is_not_there_is_told_before_the_output_is_tried(rt: HostRuntime) {
    plays(&rt, &Machine::new(&rt), ASKED);
}

const UNCLOSED: &str =
    r#"# that the file can't be closed is told last: of what was done, and never in place of another fault
$ clear unclosed.toml unclosed.gate unclosed.gate-wal
$ gated deliver unclosed.toml unclosed.gate < broken
|gated: I5 settings-file
= 1
$ write unclosed.toml < one queue
$ gated deliver unclosed.toml unclosed.gate < broken
|gated: O4 unavailable
= 1
$ gated init unclosed.toml unclosed.gate
|gated: I7 store
= 1
$ gated init unclosed.toml unclosed.gate
|gated: O1 wrong-file
= 1
$ gated deliver unclosed.toml unclosed.gate < revision
{"reply":"recorded"}
|gated: I7 store
= 1
$ gated deliver unclosed.toml unclosed.gate < broken
|gated: I1 read
= 1
$ gated deliver unclosed.toml unclosed.gate < approved > 0
|gated: I2 write
= 1
$ gated status unclosed.toml unclosed.gate
queue core window 2 landed 0
     1       101    1      - ok      unit=waiting
end
|gated: I7 store
= 1
$ gated status unclosed.toml unclosed.gate > 0
|gated: I2 write
= 1
$ gated history unclosed.toml unclosed.gate none
|gated: I6 no-queue
= 1
$ gated deliveries unclosed.toml unclosed.gate --after none
|gated: I8 no-delivery
= 1
$ gated deliveries unclosed.toml unclosed.gate --after 0a000000000040008000000000000002
|gated: I7 store
= 1
$ gated get unclosed.toml unclosed.gate /items/none
{"error":"no-item"}|gated: I9 refused
= 1
$ gated get unclosed.toml unclosed.gate /items/1 > 5
{"bui|gated: I2 write
= 1
$ gated serve unclosed.toml unclosed.gate --port 0 --count 1 > 0
|gated: I2 write
= 1
$ gated migrate unclosed.toml unclosed.gate > 0
|gated: I7 store
= 1
$ write unclosed.toml < two queues
$ gated migrate unclosed.toml unclosed.gate
|gated: I7 store
= 1
$ clear unclosed.toml unclosed.gate unclosed.gate-wal
"#;

#[test]
fn a_file_that_is_not_closed_is_told_last(rt: HostRuntime) {
    let mut machine = Machine::new(&rt);
    machine.closes = false;
    plays(&rt, &machine, UNCLOSED);
}

const CLOSED: &str =
    r#"# whichever fault ends a command, the file is closed: its log has no pages, as behind a command that is done
$ clear closed.toml closed.gate closed.gate-wal
$ write closed.toml < one queue
$ gated init closed.toml closed.gate
|= 0
$ size closed.gate-wal
41
$ gated deliver closed.toml closed.gate < revision
{"reply":"recorded"}
|= 0
$ size closed.gate-wal
41
$ gated deliver closed.toml closed.gate < broken
|gated: I1 read
= 1
$ size closed.gate-wal
41
$ gated deliver closed.toml closed.gate < approved > 0
|gated: I2 write
= 1
$ size closed.gate-wal
41
$ gated serve closed.toml closed.gate --port 0 --count 1 > 0
|gated: I2 write
= 1
$ size closed.gate-wal
41
$ gated status closed.toml closed.gate > 0
|gated: I2 write
= 1
$ size closed.gate-wal
41
$ gated history closed.toml closed.gate none
|gated: I6 no-queue
= 1
$ size closed.gate-wal
41
$ gated deliveries closed.toml closed.gate --after none
|gated: I8 no-delivery
= 1
$ size closed.gate-wal
41
$ gated get closed.toml closed.gate /items/none
{"error":"no-item"}|gated: I9 refused
= 1
$ size closed.gate-wal
41
$ clear closed.toml closed.gate closed.gate-wal
"#;

#[test]
fn a_fault_leaves_no_pages_in_the_log(rt: HostRuntime) {
    plays(&rt, &Machine::new(&rt), CLOSED);
}

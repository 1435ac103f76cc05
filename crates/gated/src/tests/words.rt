//! Command lines, and what they ask for.
use crate::tests::claims::{holds, is};
use crate::tests::sessions::words_of;
use gated_command::command;
use std::process::Abort;

/// What a line asks for, or else why it is refused, and with which status.
fn asked(rt: &(impl Abort + AllocGlobal), line: &str) -> String {
    let words = words_of(rt, line);
    let said = match command(rt.alloc(), words.as_slice()) {
        Ok(cmd) => format!(in rt.alloc(); "{cmd:?}"),
        Err(usage) => format!(in rt.alloc(); "{:?} {}", usage.kind(), usage.exit_code()),
    };
    said.expect(rt, "memory")
}

/// The lines below a title. What stands before an arrow asks for what stands behind it.
fn asks(rt: &(impl Abort + AllocGlobal), part: &str) {
    let (title, lines) = part.split_once('\n').expect(rt, part);
    holds(rt, !lines.is_empty(), title);
    for line in lines.lines() {
        let (words, wanted) = line.split_once(" -> ").expect(rt, line);
        is(rt, asked(rt, words).as_str(), wanted, line);
    }
}

const LINES: &str = r#"# check names its settings
gated check gate.toml -> Check { settings: "gate.toml" }
# replay names its settings
gated replay gate.toml -> Replay { settings: "gate.toml", status: false }
# status may stand on either side
gated replay gate.toml --status -> Replay { settings: "gate.toml", status: true }
gated replay --status gate.toml -> Replay { settings: "gate.toml", status: true }
# status and history name their files
gated status gate.toml gate.db -> Status { settings: "gate.toml", file: "gate.db" }
gated history gate.toml gate.db core -> History { settings: "gate.toml", file: "gate.db", queue: "core" }
# deliveries names its file, and maybe the id of a delivery, on either side
gated deliveries gate.toml gate.db -> Deliveries { settings: "gate.toml", file: "gate.db", after: None }
gated deliveries gate.toml gate.db --after 5a -> Deliveries { settings: "gate.toml", file: "gate.db", after: Some("5a") }
gated deliveries --after=5a gate.toml gate.db -> Deliveries { settings: "gate.toml", file: "gate.db", after: Some("5a") }
# get names its file and a path
gated get gate.toml gate.db /builds?after=2 -> Get { settings: "gate.toml", file: "gate.db", path: "/builds?after=2" }
# migrate names its settings and its file
gated migrate gate.toml gate.db -> Migrate { settings: "gate.toml", file: "gate.db" }
# serve names its port and its count
gated serve a b --port 0 --count 1 -> Serve { settings: "a", file: "b", port: 0, count: 1 }
gated serve a b --port 8080 --count 30 -> Serve { settings: "a", file: "b", port: 8080, count: 30 }
gated serve a b --port 65535 --count 1000000000 -> Serve { settings: "a", file: "b", port: 65535, count: 1000000000 }
# a port or a count that is missing or out of its range is refused
gated serve a b --count 1 -> MissingRequiredArgument 2
gated serve a b --port 0 -> MissingRequiredArgument 2
gated serve a b --port 65536 --count 1 -> ValueValidation 2
gated serve a b --port http --count 1 -> ValueValidation 2
gated serve a b --port 0 --count 0 -> ValueValidation 2
gated serve a b --port 0 --count 1000000001 -> ValueValidation 2
gated serve a b --port 0 --count many -> ValueValidation 2
# a bad line is refused
gated -> MissingSubcommand 2
gated merge -> InvalidSubcommand 2
gated check -> MissingRequiredArgument 2
gated check a --status -> UnknownArgument 2
gated replay -> MissingRequiredArgument 2
gated replay a b -> UnknownArgument 2
gated replay a --state -> UnknownArgument 2
gated --status replay a -> UnknownArgument 2
gated status a -> MissingRequiredArgument 2
gated status a b c -> UnknownArgument 2
gated history a b -> MissingRequiredArgument 2
gated deliveries a -> MissingRequiredArgument 2
gated deliveries a b c -> UnknownArgument 2
gated deliveries a b --after -> InvalidValue 2
gated deliveries a b --after c --after d -> ArgumentConflict 2
gated deliveries a b --before c -> UnknownArgument 2
gated get a b -> MissingRequiredArgument 2
gated get a b c d -> UnknownArgument 2
gated get a b --after c -> UnknownArgument 2
gated migrate a -> MissingRequiredArgument 2
gated migrate a b c -> UnknownArgument 2
# help is no fault
gated --help -> DisplayHelp 0
gated check --help -> DisplayHelp 0
gated replay -h -> DisplayHelp 0
gated help replay -> DisplayHelp 0
gated deliveries --help -> DisplayHelp 0
gated help get -> DisplayHelp 0
gated migrate --help -> DisplayHelp 0
# the version is the program's
gated --version -> DisplayVersion 0
gated -V -> DisplayVersion 0
gated check --version -> UnknownArgument 2
"#;

#[test]
fn a_line_asks_for_a_command(rt: HostRuntime) {
    let parts = LINES.strip_prefix("# ").expect(&rt, LINES);
    for part in parts.split("\n# ") {
        asks(&rt, part);
    }
}

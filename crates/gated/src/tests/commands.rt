//! Whole runs of the program over settings files: what is printed, and the status.
use crate::tests::machine::Machine;
use crate::tests::sessions::plays;

const SESSIONS: &str = r#"# a check counts what the settings have
$ write check_counts.toml < two queues
$ gated check check_counts.toml
ok: 2 queues, 3 projects, 4 jobs
|= 0
$ clear check_counts.toml
# a check tells the fault
$ write check_faults.toml < high floor
$ gated check check_faults.toml
|gated: C8 bad-window
= 1
$ write check_faults.toml < nothing
$ gated check check_faults.toml
|gated: C2 missing-member
= 1
$ write check_faults.toml < no settings
$ gated check check_faults.toml
|gated: C1 not-toml
= 1
$ clear check_faults.toml
# an empty replay shows each queue
$ write run_empty.toml < two queues
$ gated replay run_empty.toml
|= 0
$ gated replay run_empty.toml --status
queue core window 2 landed 0
queue web window 2 landed 0
end
|= 0
$ clear run_empty.toml
# a delivery is answered, and a refusal is no fault
$ write run_answered.toml < one queue
$ gated replay run_answered.toml < approval
{"code":"E5","error":"unknown-change"}
|= 0
$ clear run_answered.toml
# a settings file with a fault ends the command
$ write run_faulty.toml < high floor
$ gated replay run_faulty.toml --status < approval
|gated: C8 bad-window
= 1
unread
$ write run_faulty.toml < no settings
$ gated replay run_faulty.toml --status < approval
|gated: C1 not-toml
= 1
unread
$ write run_faulty.toml < nothing
$ gated replay run_faulty.toml --status < approval
|gated: C2 missing-member
= 1
unread
$ clear run_faulty.toml
# a settings file that can't be read, or has a byte too many, ends the command
$ gated replay run_missing.toml --status < approval
|gated: I5 settings-file
= 1
unread
$ gated replay . --status < approval
|gated: I5 settings-file
= 1
unread
$ fill run_long.toml 1048577
$ gated replay run_long.toml --status < approval
|gated: I5 settings-file
= 1
unread
$ clear run_long.toml
# a settings file at the limit is read
$ fill run_at_the_limit.toml 1048576
$ gated replay run_at_the_limit.toml
|gated: C2 missing-member
= 1
$ clear run_at_the_limit.toml
# a failing stream ends the command
$ write run_broken.toml < one queue
$ gated replay run_broken.toml --status < broken
|gated: I1 read
= 1
$ gated replay run_broken.toml --status < approval > 0
|gated: I2 write
= 1
$ gated replay run_broken.toml --status < approval > 0 2> 0
|= 1
$ clear run_broken.toml
# a command is done
$ write program_done.toml < one queue
$ gated check program_done.toml < no delivery
ok: 1 queues, 1 projects, 1 jobs
|= 0
unread
$ gated replay program_done.toml --status < no delivery
{"code":"E1","error":"bad-json"}
queue core window 2 landed 0
end
|= 0
$ clear program_done.toml
# a fault is told on the errors
$ gated check program_missing.toml < no delivery
|gated: I5 settings-file
= 1
unread
$ gated replay program_missing.toml < no delivery
|gated: I5 settings-file
= 1
unread
# a refused line is told on the errors
$ gated land < no delivery
|error: unrecognized subcommand 'land'

Usage: gated <COMMAND>

For more information, try '--help'.
= 2
unread
$ gated check < no delivery
|error: the following required arguments were not provided:
  <SETTINGS>

Usage: gated check <SETTINGS>

For more information, try '--help'.
= 2
unread
$ gated check a --status < no delivery
|error: unexpected argument '--status' found

  tip: to pass '--status' as a value, use '-- --status'

Usage: gated check <SETTINGS>

For more information, try '--help'.
= 2
unread
$ gated migrate a < no delivery
|error: the following required arguments were not provided:
  <FILE>

Usage: gated migrate <SETTINGS> <FILE>

For more information, try '--help'.
= 2
unread
$ gated get a b < no delivery
|error: the following required arguments were not provided:
  <PATH>

Usage: gated get <SETTINGS> <FILE> <PATH>

For more information, try '--help'.
= 2
unread
$ gated deliveries a b --after < no delivery
|error: a value is required for '--after <ID>' but none was supplied

For more information, try '--help'.
= 2
unread
$ gated replay a b < no delivery
|error: unexpected argument 'b' found

Usage: gated replay [OPTIONS] <SETTINGS>

For more information, try '--help'.
= 2
unread
# help is given on the output
$ gated --help < no delivery
...Usage: gated <COMMAND>
...
|= 0
unread
$ gated --help < no delivery
...  migrate     Makes FILE, which a `gated` of schema 1 made, one of schema 2...
|= 0
unread
$ gated --help < no delivery
...  deliveries  Prints the deliveries that the gate of FILE accepted, in order, each as a line that `gated deliver` takes...
|= 0
unread
$ gated --help < no delivery
...  get         Prints what `GET PATH` would answer of the gate that FILE keeps, and ends with 0 where that is 200...
|= 0
unread
$ gated check --help < no delivery
...Usage: gated check <SETTINGS>
...
|= 0
unread
$ gated help deliveries < no delivery
...Usage: gated deliveries [OPTIONS] <SETTINGS> <FILE>
...
|= 0
unread
$ gated help deliveries < no delivery
...      --after <ID>  Only those behind the one of this id
...
|= 0
unread
$ gated get --help < no delivery
...Usage: gated get <SETTINGS> <FILE> <PATH>
...
|= 0
unread
$ gated help migrate < no delivery
...Usage: gated migrate <SETTINGS> <FILE>
...
|= 0
unread
$ gated help replay < no delivery
...Usage: gated replay [OPTIONS] <SETTINGS>
...
|= 0
unread
# the version is given on the output
$ gated --version < no delivery
gated 1.0.0, tables of schema 2, rattle-kit-13f
|= 0
unread
$ gated -V < no delivery
gated 1.0.0, tables of schema 2, rattle-kit-13f
|= 0
unread
# help that can't be written is a fault
$ gated --help < no delivery > 0
|gated: I2 write
= 1
unread
"#;

#[test]
fn a_command_over_settings_is_done(rt: HostRuntime) {
    plays(&rt, &Machine::new(&rt), SESSIONS);
}

/// Any command leaves its input.
const STARVED: &str = "\
# a settings file whose bytes find no memory ends the command
$ gated check run_starved.toml < no delivery
|gated: I3 no-memory
= 1
unread
$ gated replay run_starved.toml --status < no delivery
|gated: I3 no-memory
= 1
unread
$ gated init run_starved.toml run_starved.gate < no delivery
|gated: I3 no-memory
= 1
unread
$ gated deliver run_starved.toml run_starved.gate < no delivery
|gated: I3 no-memory
= 1
unread
$ gated status run_starved.toml run_starved.gate < no delivery
|gated: I3 no-memory
= 1
unread
$ gated history run_starved.toml run_starved.gate core < no delivery
|gated: I3 no-memory
= 1
unread
$ gated deliveries run_starved.toml run_starved.gate < no delivery
|gated: I3 no-memory
= 1
unread
$ gated get run_starved.toml run_starved.gate /status < no delivery
|gated: I3 no-memory
= 1
unread
$ gated migrate run_starved.toml run_starved.gate < no delivery
|gated: I3 no-memory
= 1
unread
$ gated serve run_starved.toml run_starved.gate --port 0 --count 1 < no delivery
|gated: I3 no-memory
= 1
unread
";

#[test]
fn settings_without_memory_end_the_command(rt: HostRuntime) {
    let mut machine = Machine::new(&rt);
    machine.is_starved = true;
    plays(&rt, &machine, STARVED);
}

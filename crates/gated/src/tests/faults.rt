//! What each fault is told by, and how a process ends.
use crate::process::started;
use crate::tests::claims::holds;
use gate_config::ConfigFault;
use gate_types::open_fault::OpenFault;
use gate_types::tap::Tap;
use gated_cli::{Fault, ended, unread};
use std::io;
use std::process::ExitCode;

const EACH_FAULT: [Fault; 18] = [
    Fault::Settings(ConfigFault::NotToml),
    Fault::Settings(ConfigFault::MissingMember),
    Fault::Settings(ConfigFault::WrongKind),
    Fault::Settings(ConfigFault::UnknownMember),
    Fault::Settings(ConfigFault::BadName),
    Fault::Settings(ConfigFault::DoubleName),
    Fault::Settings(ConfigFault::UnknownQueue),
    Fault::Settings(ConfigFault::BadWindow),
    Fault::Settings(ConfigFault::NoVotingJob),
    Fault::Settings(ConfigFault::Limit),
    Fault::Settings(ConfigFault::NoMemory),
    Fault::Unavailable,
    Fault::Read,
    Fault::Write,
    Fault::NoMemory,
    Fault::Listener,
    Fault::SettingsFile,
    Fault::Store,
];

/// The line of each of these faults.
const LINES: &str = "\
gated: C1 not-toml
gated: C2 missing-member
gated: C3 wrong-kind
gated: C4 unknown-member
gated: C5 bad-name
gated: C6 double-name
gated: C7 unknown-queue
gated: C8 bad-window
gated: C9 no-voting-job
gated: C10 limit
gated: C11 no-memory
gated: E15 unavailable
gated: I1 read
gated: I2 write
gated: I3 no-memory
gated: I4 listen
gated: I5 settings-file
gated: I7 store
";

#[test]
fn each_fault_has_its_line(rt: HostRuntime) {
    let mut errors = Tap::new(Vec::new(rt.alloc()));
    for fault in &EACH_FAULT {
        let status = ended(Err(*fault), &mut errors);
        holds(&rt, status == 1, fault.text());
    }
    assert_eq!(rt; errors.into_inner().as_slice(), LINES.as_bytes());
}

#[test]
fn a_fault_prints_its_text(rt: HostRuntime) {
    let fault = Fault::File(OpenFault::OtherSchema);
    let printed = fault.to_string(rt.alloc()).expect(&rt, "memory");
    assert_eq!(rt; printed.as_str(), "O2 other-schema");
}

#[test]
fn words_that_cannot_be_read_are_told_on_the_errors(rt: HostRuntime) {
    let mut errors = Tap::new(Vec::new(rt.alloc()));
    let error = io::Error::from(io::ErrorKind::InvalidData);
    let status = unread(rt.alloc(), &error, &mut errors);
    assert_eq!(rt; status, 2);
    let told = errors.into_inner();
    assert!(rt; told.as_slice().starts_with(b"error: "));
    assert!(rt; told.as_slice().ends_with(b"\n"));
}

/// A test's own words name no command, so that its process would end as a refused line does.
#[test]
fn the_process_ends_with_the_status(rt: HostRuntime) {
    assert!(rt; started(&rt) == ExitCode::from(2));
}

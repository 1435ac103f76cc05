//! Disks in memory that stop at each of their calls in turn.
use crate::stored::adopting::each_stop_of_adopting;
use crate::stored::days::each_stop_of_the_day;
use crate::stored::disks::{Disks, InMemory};
use crate::stored::histories::all_stops;
use crate::stored::makings::all_stops_of_making;
use crate::stored::migrating::each_stop_of_migrating;
use crate::stored::shut::each_stop_of_writing;
use sqlite::{Alter, Connection};
use std::process::Abort;

/// What is stopped.
#[derive(Clone, Copy)]
enum Stopped {
    Deliveries,
    Making,
    Histories,
    Adopting,
    Migrating,
    Writing,
}

fn stops_over<S: Alter + Drop, D: Disks<Database = Connection<S>>>(
    rt: &(impl Abort + AllocGlobal),
    disks: &D,
    stopped: Stopped,
) {
    match stopped {
        Stopped::Deliveries => each_stop_of_the_day(rt, disks),
        Stopped::Making => all_stops_of_making(rt, disks),
        Stopped::Histories => all_stops(rt, disks),
        Stopped::Adopting => each_stop_of_adopting(rt, disks),
        Stopped::Migrating => each_stop_of_migrating(rt, disks),
        Stopped::Writing => each_stop_of_writing(rt, disks),
    }
}

/// All tests come here, since the proof of a call over just these disks takes long.
fn stops(rt: &(impl Abort + AllocGlobal), stopped: Stopped) {
    stops_over(rt, &InMemory { alloc: rt.alloc() }, stopped);
}

#[test]
fn a_stop_leaves_the_file_before_or_after_a_delivery(rt: HostRuntime) {
    stops(&rt, Stopped::Deliveries);
}

#[test]
fn a_stop_leaves_no_table_or_an_empty_gate(rt: HostRuntime) {
    stops(&rt, Stopped::Making);
}

/// Whichever call fails, what is written has its last line only where no report is missing.
#[test]
fn a_history_is_refused_breaks_off_or_is_whole(rt: HostRuntime) {
    stops(&rt, Stopped::Histories);
}

#[test]
fn a_stop_leaves_the_settings_before_or_after(rt: HostRuntime) {
    stops(&rt, Stopped::Adopting);
}

#[test]
fn a_stop_leaves_the_tables_of_schema_1_or_2(rt: HostRuntime) {
    stops(&rt, Stopped::Migrating);
}

#[test]
fn a_failed_disk_is_never_want_of_memory(rt: HostRuntime) {
    stops(&rt, Stopped::Writing);
}

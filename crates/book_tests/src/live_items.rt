//! A book that holds what is live: it asks the book below for each plan and live build of its items once.
use crate::asked::Takes;
use crate::claims::holds;
use crate::edits::edits;
use crate::scenes::{ONE_QUEUE, plays};
use crate::settings::settings;
use gate_archive::Archive;
use gate_book::{Book, MemBook};
use gate_live::LiveBook;
use gate_types::numbers::Serial;
use std::process::Abort;

/// Seven reads fill the book; then the plan and the live builds of each item are asked for.
const SCENES: &str = "
# what an item has is asked below once
live over first

settings core/10/1 lib@core = taken

twice
plan 2 = 2 fast unit -docs
plan 4 = 4 slow unit
live 2 = 1 running, 2 running
live 4 = none
plans core 0 4 = 2 fast unit -docs, 4 slow unit
builds core 0 4 = 1 running, 2 running

below, asked 11

# what some items have is asked below once
live over first

settings core/10/1 lib@core = taken
plans core 0 4 = 2 fast unit -docs, 4 slow unit
builds core 0 4 = 1 running, 2 running
plan 2 = 2 fast unit -docs
plan 4 = 4 slow unit
live 2 = 1 running, 2 running
live 4 = none
plans core 0 4 = 2 fast unit -docs, 4 slow unit
builds core 0 4 = 1 running, 2 running

below, asked 11

# before it is filled nothing of an item is held
live over first

twice
plan 2 = 2 fast unit -docs
plan 4 = 4 slow unit
live 2 = 1 running, 2 running
live 4 = none
plans core 0 4 = 2 fast unit -docs, 4 slow unit
builds core 0 4 = 1 running, 2 running

below, asked 12

# edits change what is held of an item: builds stop, fail and begin, and what it was admitted with is told anew
live over first

settings core/10/1 lib@core = taken
plan 2 = 2 fast unit -docs
plan 4 = 4 slow unit
live 2 = 1 running, 2 running
live 4 = none
plans core 0 4 = 2 fast unit -docs, 4 slow unit
builds core 0 4 = 1 running, 2 running
put stop 1; end 2 failure; build 3 4 102; plan 4 fast unit site = done
plan 2 = 2 fast unit -docs
plan 4 = 4 fast unit site
live 2 = 2 failure
live 4 = 3 running
plans core 0 4 = 2 fast unit -docs, 4 fast unit site
builds core 0 4 = 2 failure, 3 running

below, asked 11

plan 2 = 2 fast unit -docs
plan 4 = 4 fast unit site
live 2 = 2 failure
live 4 = 3 running
plans core 0 4 = 2 fast unit -docs, 4 fast unit site
builds core 0 4 = 2 failure, 3 running

# nothing is held of an item that left as a landing: its plan is told anew, its builds are live still
live over first

settings core/10/1 lib@core = taken
plan 2 = 2 fast unit -docs
plan 4 = 4 slow unit
live 2 = 1 running, 2 running
live 4 = none
plans core 0 4 = 2 fast unit -docs, 4 slow unit
builds core 0 4 = 1 running, 2 running
put landed 2 = done

twice
plan 2 = 2 slow unit -docs
live 2 = 1 running, 2 running
plan 4 = 4 slow unit
live 4 = none
plans core 0 4 = 4 slow unit
builds core 0 4 = none

below, asked 15

plan 2 = 2 slow unit -docs
live 2 = 1 running, 2 running
plan 4 = 4 slow unit
live 4 = none
plans core 0 4 = 4 slow unit
builds core 0 4 = none

# a serial without an item is asked below each time
live over first

settings core/10/1 lib@core = taken

twice
plan 3 = none
plan 1 = 1 slow -docs unit

below, asked 11

# what is past is asked below
live over first

settings core/10/1 lib@core = taken
change 102 = 102 1 needs 101
ready = 7 103
live 2 = 1 running, 2 running
builds core 0 4 = 1 running, 2 running
builds core 2 4 = none
counters = 0 0 4
kept 9 = first
plan 1 = 1 slow -docs unit
plan 2 = 2 fast unit -docs
plan 4 = 4 slow unit
plan 3 = none
plan 5 = none
plans core 0 4 = 2 fast unit -docs, 4 slow unit
plans core 2 3 = none

below, asked 16";

#[test]
fn what_items_have_is_asked_below_once(rt: HostRuntime) {
    plays(&rt, SCENES);
}

/// Two builds are counted of item 2.
fn two_are_counted<B: Archive + Drop>(rt: &(impl Abort + AllocGlobal), below: B) {
    let mut book = LiveBook::new(rt.alloc(), below);
    holds(
        rt,
        book.apply(edits(rt, "first").as_slice()).is_ok(),
        "edits",
    );
    holds(
        rt,
        book.takes(&settings(rt, ONE_QUEUE)) == "taken",
        "settings",
    );
    let serial = Serial::new(2).expect(rt, "a serial");
    holds(rt, book.build_count(serial) == Ok(2), "builds");
}

#[test]
fn the_builds_that_an_item_ever_had_are_asked_below(rt: HostRuntime) {
    let config = settings(&rt, ONE_QUEUE);
    two_are_counted(&rt, MemBook::new(rt.alloc(), &config).expect(&rt, "memory"));
}

//! A book that holds what is live: once it is filled, the book below is asked only for what is past.
use crate::scenes::plays;

/// Seven reads fill the book: the window, the items, the landings and the reports of its queue, the counters, the ready
/// list and the only change that is ready. Of what is live eleven reads are made at a time. By the edits item 2 lands,
/// change 103 enters as item 6, and window and counter are set.
const SCENES: &str = "
# what is live is answered from memory
live over first

settings core/10/1 lib@core = taken

twice
sizes core = 5 2 1
reports core = 1
items core = 2 101 1 - ok, 4 102 1 - ok
item 4 = 4 102 1 - ok
queued 102 = core 4 102 1 - ok
next core 2 = 4 102 1 - ok
last core 4 = 2 101 1 - ok
first core 0 1 = 2 101 1 - ok
counters = 0 0 4

below, asked 7

# before it is filled each read asks below
live over first

sizes core = 5 2 1
reports core = 1
items core = 2 101 1 - ok, 4 102 1 - ok
item 4 = 4 102 1 - ok
queued 102 = core 4 102 1 - ok
next core 2 = 4 102 1 - ok
last core 4 = 2 101 1 - ok
first core 0 1 = 2 101 1 - ok
counters = 0 0 4

below, asked 11

# edits change both
live over first

settings core/10/1 lib@core = taken

put drop 2; land 2 2 101; report 2 2 101 landed 2; item 6 103; window 6; order 5 = done

sizes core = 6 2 2
reports core = 2
items core = 4 102 1 - ok, 6 103 1 - ok
item 2 = none
queued 103 = core 6 103 1 - ok
next core 4 = 6 103 1 - ok
last core 4 = none
first core 2 1 = 4 102 1 - ok
counters = 0 0 5

below, asked 7

sizes core = 6 2 2
reports core = 2
items core = 4 102 1 - ok, 6 103 1 - ok
item 2 = none
queued 103 = core 6 103 1 - ok
next core 4 = 6 103 1 - ok
last core 4 = none
first core 2 1 = 4 102 1 - ok
counters = 0 0 5

# a fault of the store drops what is held
live over first, refuses edits by the store

settings core/10/1 lib@core = taken

put drop 2; land 2 2 101; report 2 2 101 landed 2; item 6 103; window 6; order 5 = the store fails

sizes core = 5 2 1
reports core = 1
items core = 2 101 1 - ok, 4 102 1 - ok
item 4 = 4 102 1 - ok
queued 102 = core 4 102 1 - ok
next core 2 = 4 102 1 - ok
last core 4 = 2 101 1 - ok
first core 0 1 = 2 101 1 - ok
counters = 0 0 4

settings core/10/1 lib@core = taken

sizes core = 5 2 1
reports core = 1
items core = 2 101 1 - ok, 4 102 1 - ok
item 4 = 4 102 1 - ok
queued 102 = core 4 102 1 - ok
next core 2 = 4 102 1 - ok
last core 4 = 2 101 1 - ok
first core 0 1 = 2 101 1 - ok
counters = 0 0 4

put drop 2; land 2 2 101; report 2 2 101 landed 2; item 6 103; window 6; order 5 = done

sizes core = 6 2 2
reports core = 2
items core = 4 102 1 - ok, 6 103 1 - ok
item 2 = none
queued 103 = core 6 103 1 - ok
next core 4 = 6 103 1 - ok
last core 4 = none
first core 2 1 = 4 102 1 - ok
counters = 0 0 5

below, asked 25

# a fault of the store at a read drops what is held
live over first, refuses read 8

settings core/10/1 lib@core = taken

build 1 = the store fails

sizes core = 5 2 1
reports core = 1
items core = 2 101 1 - ok, 4 102 1 - ok
item 4 = 4 102 1 - ok
queued 102 = core 4 102 1 - ok
next core 2 = 4 102 1 - ok
last core 4 = 2 101 1 - ok
first core 0 1 = 2 101 1 - ok
counters = 0 0 4

settings core/10/1 lib@core = taken

sizes core = 5 2 1
reports core = 1
items core = 2 101 1 - ok, 4 102 1 - ok
item 4 = 4 102 1 - ok
queued 102 = core 4 102 1 - ok
next core 2 = 4 102 1 - ok
last core 4 = 2 101 1 - ok
first core 0 1 = 2 101 1 - ok
counters = 0 0 4

below, asked 26

# memory that is wanting below leaves both
live over first, refuses edits for memory

settings core/10/1 lib@core = taken

put drop 2; land 2 2 101; report 2 2 101 landed 2; item 6 103; window 6; order 5 = no memory

sizes core = 5 2 1
reports core = 1
items core = 2 101 1 - ok, 4 102 1 - ok
item 4 = 4 102 1 - ok
queued 102 = core 4 102 1 - ok
next core 2 = 4 102 1 - ok
last core 4 = 2 101 1 - ok
first core 0 1 = 2 101 1 - ok
counters = 0 0 4

put drop 2; land 2 2 101; report 2 2 101 landed 2; item 6 103; window 6; order 5 = done

sizes core = 6 2 2
reports core = 2
items core = 4 102 1 - ok, 6 103 1 - ok
item 2 = none
queued 103 = core 6 103 1 - ok
next core 4 = 6 103 1 - ok
last core 4 = none
first core 2 1 = 4 102 1 - ok
counters = 0 0 5

below, asked 7";

#[test]
fn what_is_live_is_held(rt: HostRuntime) {
    plays(&rt, SCENES);
}

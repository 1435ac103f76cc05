//! Items that fail fast: what a voting job's failure ends of them, worked out by hand from the rules.
use crate::claims::holds;
use crate::queues::scenes::scenes_hold;
use gate_queue::{is_cut, is_finished, slot_where};
use gate_types::records::Slot;

const SCENES: &str =
    "# a failure cuts an item that fails fast: what runs for it is stopped, what has succeeded stays
> queue 4 1 0
> item 1 101 app
> item 2 102 web!
> item 3 103 web!
> build 1 1 101 unit 0 running
> build 2 2 102 unit 0 failure 101
> build 3 2 102 docs 0 running 101
> build 4 3 103 unit 0 success 101
> build 5 3 103 docs 0 failure 101
> settle
core item 1 101,1 ahead - ok
stop 3
core item 2 102,1 ahead 1 failing
core item 3 103,1 ahead 1 failing
# a cut item gets no build
> queue 4 1 0
> item 1 101 app
> item 2 102 lib!
> item 3 103 app
> build 1 1 101 unit 0 running
> build 2 2 102 unit 0 failure 101
> choose 0
item 3 job 0
> choose 2
none
> build 3 3 103 unit 0 running 101
> choose 0
none
# an item that doesn't fail fast isn't cut
> queue 4 1 0
> item 1 101 app
> item 2 102 web
> build 1 1 101 unit 0 running
> build 2 2 102 unit 0 failure 101
> choose 0
item 2 job 1
> build 3 2 102 docs 0 running 101
> settle
core item 1 101,1 ahead - ok
core item 2 102,1 ahead 1 failing
# a job that doesn't vote cuts nothing
> queue 2 1 0
> item 1 101 lib!
> build 1 1 101 docs 0 failure
> choose 0
item 1 job 0
> build 2 1 101 unit 0 running
> settle
core item 1 101,1 ahead - ok
# a blocked item isn't cut: none of its builds counts, and it stays
> queue 4 1 0
> item 1 101 lib
> item 2 102 web! 101
> build 1 1 101 unit 0 failure
> build 2 1 101 docs 0 running
> build 3 2 102 unit 0 failure
> build 4 2 102 docs 0 running
> settle
core item 1 101,1 ahead - failing
stop 3
stop 4
core item 2 102,1 ahead - failing
# a cut item goes at once where nothing non-failing is before it
> queue 4 1 0
> item 1 101 lib
> item 2 102 web!
> item 3 103 app
> build 1 1 101 unit 0 failure
> build 2 1 101 docs 0 running
> build 3 2 102 unit 0 failure
> build 4 2 102 docs 0 running
> build 5 3 103 unit 0 running
> settle
core item 1 101,1 ahead - failing
stop 4
core report 1: 2 102,1 failed
drop 2
core item 3 103,1 ahead - ok
core window 2
# without fail fast it waits for its last job
> queue 4 1 0
> item 1 101 web
> build 1 1 101 unit 0 failure
> build 2 1 101 docs 0 running
> settle
core item 1 101,1 ahead - failing
# up to two lost builds of a cut item stay live
> queue 4 1 0
> item 1 101 app
> item 2 102 web!
> item 3 103 web!
> build 1 1 101 unit 0 running
> build 2 2 102 docs 0 lost 101
> build 3 2 102 unit 0 failure 101
> build 4 3 103 unit 0 lost 101
> build 5 3 103 unit 0 lost 101
> build 6 3 103 docs 0 failure 101
> build 7 3 103 unit 0 running 101
> settle
core item 1 101,1 ahead - ok
core item 2 102,1 ahead 1 failing
stop 7
core item 3 103,1 ahead 1 failing
> choose 0
none
# three lost builds of a voting job cut an item, and two don't
> queue 4 1 0
> item 1 101 app
> item 2 102 web!
> build 1 1 101 unit 0 running
> build 2 2 102 unit 0 lost 101
> build 3 2 102 unit 0 lost 101
> build 4 2 102 docs 0 running 101
> settle
core item 1 101,1 ahead - ok
core item 2 102,1 ahead 1 ok
> choose 0
item 2 job 0
> build 5 2 102 unit 0 lost 101
> settle
core item 1 101,1 ahead - ok
stop 4
core item 2 102,1 ahead 1 failing
> choose 0
none
# three lost builds of a job that doesn't vote cut nothing
> queue 2 1 0
> item 1 101 lib!
> build 1 1 101 docs 0 lost
> build 2 1 101 docs 0 lost
> build 3 1 101 docs 0 lost
> build 4 1 101 unit 0 running
> settle
core item 1 101,1 ahead - ok
# a success outweighs a failure, and nothing is cut
> queue 2 1 0
> item 1 101 web!
> build 1 1 101 unit 0 failure
> build 2 1 101 unit 0 success
> build 3 1 101 docs 0 running
> settle
core item 1 101,1 ahead - ok
# a failure on another line cuts nothing
> queue 2 1 0
> item 1 101 app
> item 2 102 web!
> build 1 1 101 unit 0 running
> build 2 2 102 unit 0 failure
> build 3 2 102 docs 0 running 101
> settle
core item 1 101,1 ahead - ok
stop 2
core item 2 102,1 ahead 1 ok
# a walk: the first item fails and goes at once, and what runs behind it stops
> queue 2 1 0
> item 1 101 lib!
> item 2 102 app
> build 1 1 101 unit 0 running
> build 2 1 101 docs 0 running
> build 3 2 102 unit 0 running 101
> end 1 failure
visits 1 2
stop 2
core report 1: 1 101,1 failed
drop 1
core window 1
stop 3
core item 2 102,1 ahead - ok
> choose 1
item 2 job 0
# a walk: one behind it fails and stays, and is whole again once the line before it has changed
> queue 2 1 0
> item 1 102 app
> item 2 101 lib!
> build 1 1 102 unit 0 running
> build 2 2 101 unit 0 running 102
> build 3 2 101 docs 0 running 102
> end 2 failure
visits 2
stop 3
core item 2 101,1 ahead 1 failing
> choose 2
none
> end 1 failure
visits 1 2
core report 1: 1 102,1 failed
drop 1
core window 1
stop 2
core item 2 101,1 ahead - ok
> choose 1
item 2 job 0
> build 4 2 101 unit 0 running
> choose 1
item 2 job 1
";

#[test]
fn a_failure_cuts_an_item_that_fails_fast(rt: HostRuntime) {
    scenes_hold(&rt, SCENES);
}

#[test]
fn only_what_fails_fast_and_has_failed_is_cut(rt: HostRuntime) {
    holds(&rt, is_cut(true, false, true), "a failed item");
    holds(&rt, !is_cut(true, true, true), "a blocked item");
    holds(
        &rt,
        !is_cut(false, false, true),
        "an item that doesn't fail fast",
    );
    holds(
        &rt,
        !is_cut(true, false, false),
        "an item without a failure",
    );
}

/// What a job has come to, what of that is left where its item is cut, and whether it is finished by itself.
const SLOTS: &[(Slot, Slot, bool)] = &[
    (Slot::Waiting, Slot::Skipped, false),
    (Slot::Running, Slot::Skipped, false),
    (Slot::Success, Slot::Success, true),
    (Slot::Failure, Slot::Failure, true),
    (Slot::Skipped, Slot::Skipped, true),
];

#[test]
fn a_cut_item_skips_what_has_not_ended(rt: HostRuntime) {
    for (slot, left, finished) in SLOTS {
        holds(
            &rt,
            slot_where(false, *slot) == *slot,
            "an item that isn't cut",
        );
        holds(&rt, slot_where(true, *slot) == *left, "a cut item");
        holds(&rt, is_finished(*slot) == *finished, "a finished job");
    }
}

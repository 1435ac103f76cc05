//! Walks over small queues, with the edits worked out by hand from the rules.
use crate::queues::scenes::scenes_hold;

const SCENES: &str =
    "# a failure resets each item behind it, though the item ahead of the last stays, and with it its row
> queue 4 1 0
> item 1 101 lib
> item 2 102 app
> item 3 103 lib
> item 4 104 app
> build 1 1 101 unit 0 running
> build 2 1 101 docs 0 running
> build 3 2 102 unit 0 running 101
> build 4 3 103 unit 0 running 101 102
> build 5 3 103 docs 0 running 101 102
> build 6 4 104 unit 0 running 101 102 103
> end 3 failure
visits 2 3 4
core item 2 102,1 ahead 1 failing
stop 4
stop 5
core item 3 103,1 ahead 1 ok
stop 6
# a landing lets a failed item go with what needs it, and the item between keeps its builds
> queue 4 1 0
> item 1 101 lib
> item 2 102 app
> item 3 103 lib
> item 4 104 app 102
> build 1 1 101 unit 0 running
> build 2 1 101 docs 0 running
> build 3 2 102 unit 0 running 101
> build 4 3 103 unit 0 running 101 102
> build 5 3 103 docs 0 running 101 102
> build 6 4 104 unit 0 running 101 102 103
> end 3 failure
visits 2 3 4
core item 2 102,1 ahead 1 failing
stop 4
stop 5
core item 3 103,1 ahead 1 ok
stop 6
core item 4 104,1 ahead 3 failing
> build 7 3 103 unit 0 running 101
> build 8 3 103 docs 0 running 101
> end 1 success
visits 1
> end 2 success
visits 1
> land 1 101
visits 2 3 4
core report 2: 2 102,1 failed
drop 2
core window 2
core item 3 103,1 ahead - ok
core report 3: 4 104,1 needs
drop 4
# an item that needs a failed one is blocked and goes with it, and the window is halved once
> queue 4 1 0
> item 1 101 lib
> item 2 102 app 101
> build 1 1 101 unit 0 running
> build 2 1 101 docs 0 running
> build 3 2 102 unit 0 running 101
> end 1 failure
visits 1 2
core item 1 101,1 ahead - failing
stop 3
core item 2 102,1 ahead - failing
> end 2 success
visits 1 2
core report 1: 1 101,1 failed
drop 1
core window 2
core report 2: 2 102,1 needs
drop 2
# a withdrawal resets each item behind it, and one that nothing is behind asks for nothing
> queue 4 1 0
> item 1 101 lib
> item 2 102 app
> item 3 103 lib
> item 4 104 app
> build 1 1 101 unit 0 running
> build 2 1 101 docs 0 running
> build 3 2 102 unit 0 running 101
> build 4 3 103 unit 0 running 101 102
> build 5 3 103 docs 0 running 101 102
> build 6 4 104 unit 0 running 101 102 103
> leave 2
visits 3 4
stop 4
stop 5
core item 3 103,1 ahead 1 ok
stop 6
> leave 4
visits
# behind a landing only the next non-failing item is visited
> queue 4 1 0
> item 1 101 lib
> item 2 102 app
> item 3 103 lib
> item 4 104 app
> build 1 1 101 unit 0 running
> build 2 1 101 docs 0 running
> build 3 2 102 unit 0 running 101
> build 4 3 103 unit 0 running 101 102
> build 5 3 103 docs 0 running 101 102
> build 6 4 104 unit 0 running 101 102 103
> end 1 success
visits 1
> end 2 success
visits 1
> land 1 101
visits 2
core item 2 102,1 ahead - ok
# a window at its floor isn't set anew
> queue 1 1 0
> item 1 101 app
> build 1 1 101 unit 0 running
> end 1 failure
visits 1
core report 1: 1 101,1 failed
drop 1
";

#[test]
fn a_walk_asks_for_the_rows_that_can_change(rt: HostRuntime) {
    scenes_hold(&rt, SCENES);
}

//! Small queues, with the edits that settle them worked out by hand from the rules.
use crate::queues::scenes::scenes_hold;

const SCENES: &str = "# a failure resets the item behind it
> queue 2 1 0
> item 1 101 lib
> item 2 102 app
> build 1 1 101 unit 0 failure
> build 2 1 101 docs 0 running
> build 3 2 102 unit 0 running 101
> settle
core item 1 101,1 ahead - failing
stop 3
core item 2 102,1 ahead - ok
# an item that has failed goes when its last job ends
> queue 2 1 0
> item 1 101 lib
> item 2 102 app
> build 1 1 101 unit 0 failure
> build 2 1 101 docs 0 success
> build 3 2 102 unit 0 running 101
> settle
core report 1: 1 101,1 failed
drop 1
stop 3
core item 2 102,1 ahead - ok
core window 1
# an item goes with its need
> queue 2 1 0
> item 1 101 lib
> item 2 102 app 101
> build 1 1 101 unit 0 failure
> build 2 1 101 docs 0 success
> build 3 2 102 unit 0 running 101
> settle
core report 1: 1 101,1 failed
drop 1
stop 3
core report 2: 2 102,1 needs
drop 2
core window 1
# a job that doesn't vote decides nothing
> queue 2 1 0
> item 1 101 lib
> item 2 102 app
> build 1 1 101 unit 0 running
> build 2 1 101 docs 0 failure
> build 3 2 102 unit 0 running 101
> settle
core item 1 101,1 ahead - ok
core item 2 102,1 ahead 1 ok
# a queue without items has nothing to settle
> queue 2 1 0
> settle
# a cycle goes and leaves the window
> queue 2 1 0
> item 1 201 app 202
> item 2 202 app 201
> item 3 203 app 203
> settle
core report 1: 1 201,1 needs
drop 1
core report 2: 2 202,1 needs
drop 2
core report 3: 3 203,1 needs
drop 3
# a need is met by a landing or an item before
> queue 2 1 0
> item 1 101 app 7+
> item 2 102 app 101 7+
> item 3 103 app 104
> item 4 104 app
> build 1 2 102 unit 0 success 101
> settle
core item 1 101,1 ahead - ok
core item 2 102,1 ahead 1 ok
core report 1: 3 103,1 needs
drop 3
core item 4 104,1 ahead 2 ok
# an item whose need is failing is blocked and stays
> queue 2 1 0
> item 1 101 lib
> item 2 102 app 101
> build 1 1 101 unit 0 failure
> build 2 1 101 docs 0 running
> build 3 2 102 unit 0 success 101
> settle
core item 1 101,1 ahead - failing
stop 3
core item 2 102,1 ahead - failing
# a failure behind an item stays
> queue 2 1 0
> item 1 101 app
> item 2 102 app
> item 3 103 app
> build 1 1 101 unit 0 running
> build 2 2 102 unit 0 failure 101
> build 3 3 103 unit 0 running 101 102
> settle
core item 1 101,1 ahead - ok
core item 2 102,1 ahead 1 failing
stop 3
core item 3 103,1 ahead 1 ok
# each failure shrinks the window
> queue 9 1 7
> item 4 104 app
> item 5 105 app
> item 6 106 app
> build 1 4 104 unit 0 failure
> build 2 5 105 unit 0 failure
> build 3 9 109 unit 0 running
> settle
core report 8: 4 104,1 failed
drop 4
core report 9: 5 105,1 failed
drop 5
core item 6 106,1 ahead - ok
core window 2
# a window at its floor stays, and one of 0
> queue 3 3 0
> item 4 104 app
> item 5 105 app
> item 6 106 app
> build 1 4 104 unit 0 failure
> build 2 5 105 unit 0 failure
> build 3 9 109 unit 0 running
> settle
core report 1: 4 104,1 failed
drop 4
core report 2: 5 105,1 failed
drop 5
core item 6 106,1 ahead - ok
> queue 0 3 0
> settle
core report 1: 4 104,1 failed
drop 4
core report 2: 5 105,1 failed
drop 5
core item 6 106,1 ahead - ok
> queue 1 1 0
> settle
core report 1: 4 104,1 failed
drop 4
core report 2: 5 105,1 failed
drop 5
core item 6 106,1 ahead - ok
> queue 0 1 0
> settle
core report 1: 4 104,1 failed
drop 4
core report 2: 5 105,1 failed
drop 5
core item 6 106,1 ahead - ok
# a full queue is settled
> queue 2 1 0
each 1 1000 > item # +# app
> build 1 1 1001 unit 0 failure
> settle
core report 1: 1 1001,1 failed
drop 1
core item 2 1002,1 ahead - ok
each 3 1000 core item # +#,1 ahead -# ok
core window 1
";

#[test]
fn a_queue_is_settled(rt: HostRuntime) {
    scenes_hold(&rt, SCENES);
}

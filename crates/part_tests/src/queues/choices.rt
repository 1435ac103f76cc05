//! Small queues, with the build that is due in each worked out by hand from the rules.
use crate::queues::scenes::scenes_hold;

const SCENES: &str = "# an empty queue has no build due
> choose 0
none
# builds are given front to back
> item 1 101 lib
> item 2 102 app
> item 3 103 lib
> choose 3
item 1 job 0
> build 1 1 101 unit 0 running
> choose 3
item 1 job 1
> build 2 1 101 docs 0 success
> choose 3
item 2 job 0
> build 3 2 102 unit 0 running 101
> choose 3
item 3 job 0
> build 4 3 103 unit 0 failure 101 102
> choose 3
item 3 job 1
# the window bounds the items that are tested
> item 1 101 app
> item 2 102 app
> build 1 1 101 unit 0 running
> choose 0
item 2 job 0
> choose 1
none
> choose 2
item 2 job 0
> choose 1000
item 2 job 0
# a blocked item gets no build and keeps its place
> item 1 101 app 7
> item 2 102 app
> choose 0
item 2 job 0
> choose 1
none
> choose 2
item 2 job 0
# a lost build is tried three times
> item 1 101 app
> choose 2
item 1 job 0
> build 1 1 101 unit 0 lost
> choose 2
item 1 job 0
> build 2 1 101 unit 0 lost
> choose 2
item 1 job 0
> build 3 1 101 unit 0 lost
> choose 2
none
# the last of 1000 items is given a build, where the window holds the 999 before it, which have failed
each 1 999 > item # +# app
> item 1000 2000 app
each 1 999 > build # # +# unit 0 failure
> choose 0
item 1000 job 0
> choose 1000
item 1000 job 0
> choose 999
none
";

#[test]
fn a_build_is_due_within_the_window(rt: HostRuntime) {
    scenes_hold(&rt, SCENES);
}

//! Which builds count, worked out by hand from the rules.
use crate::queues::scenes::scenes_hold;

const SCENES: &str = "# a success behind a landed item still counts
> queue 2 1 0
> landed 1 101
> item 2 102 app
> item 3 103 app
> build 3 2 102 unit 0 success 101
> build 4 3 103 unit 0 running 101 102
> settle
core item 2 102,1 ahead - ok
core item 3 103,1 ahead 2 ok
# a build counts where the lists are the same, however they are cut
> queue 2 1 0
> landed 1 101
> landed 2 102
> landed 3 103
> item 4 104 app
> build 1 4 104 unit 3 success
> build 2 4 104 unit 1 success 102 103
> build 3 4 104 unit 2 success 101
> build 4 4 104 unit 2 running
> build 5 4 104 unit 3 running 105
> build 6 4 104 unit 9 lost
> settle
stop 3
stop 4
stop 5
core item 4 104,1 ahead - ok
# a landing that overtook an item is not on its line
> queue 2 1 0
> landed 2 102
> item 1 101 lib
> build 1 1 101 unit 0 failure
> build 2 1 101 docs 1 running
> build 3 1 101 docs 0 running
> settle
stop 2
core item 1 101,1 ahead - failing
# three losses fail and two do not
> queue 2 1 0
> item 1 101 app
> build 1 1 101 unit 0 lost
> build 2 1 101 unit 0 lost
> settle
core item 1 101,1 ahead - ok
> build 3 1 101 unit 0 lost
> settle
core report 1: 1 101,1 failed
drop 1
core window 1
# losses on two lines aren't added
> queue 2 1 0
> item 1 101 lib
> item 2 102 app
> build 1 1 101 unit 0 failure
> build 2 1 101 docs 0 running
> build 3 2 102 unit 0 lost 101
> build 4 2 102 unit 0 lost 101
> build 5 2 102 unit 0 lost
> settle
core item 1 101,1 ahead - failing
stop 3
stop 4
core item 2 102,1 ahead - ok
# one success outweighs failures
> queue 2 1 0
> item 1 101 app
> build 1 1 101 unit 0 failure
> build 2 1 101 unit 0 success
> settle
core item 1 101,1 ahead - ok
";

#[test]
fn builds_count_on_their_line(rt: HostRuntime) {
    scenes_hold(&rt, SCENES);
}

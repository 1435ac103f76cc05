//! How a window grows with each landing and shrinks with each failure, worked out by hand from its queue's rule.
use crate::queues::scenes::scenes_hold;

const SCENES: &str = "# by default a window grows by one up to 1000
> grow 1
2
> grow 999
1000
> grow 1000
1000
> grow 0
0
# by default a window shrinks by half down to its floor
> shrink 20 3
10
> shrink 3 1
1
> shrink 5 3
3
> shrink 1 1
1
> shrink 0 3
0
# a window grows by a number of items up to 1000, and shrinks by a factor
> rule linear 7 exponential 3
> grow 20
27
> grow 993
1000
> grow 994
1000
> shrink 20 3
6
> shrink 11 3
3
> shrink 5 3
3
# a window grows by a factor up to 1000
> rule exponential 2 linear 5
> grow 20
40
> grow 499
998
> grow 600
1000
> grow 1000
1000
> grow 0
0
# a window shrinks by a number of items down to its floor
> rule exponential 2 linear 5
> shrink 40 3
35
> shrink 9 3
4
> shrink 8 3
3
> shrink 6 3
3
> shrink 0 3
0
# a step that is larger than the window leaves the floor
> rule linear 1 linear 5
> shrink 4 1
1
> shrink 3 3
3
> rule linear 1 linear 1000
> shrink 999 7
7
> shrink 1000 1
1
# the least factors
> rule linear 1 linear 1
> grow 1
2
> shrink 20 3
19
> shrink 3 3
3
> rule exponential 1 exponential 1
> grow 20
20
> grow 0
0
> shrink 20 3
20
> shrink 0 3
0
# the largest factors
> rule linear 1000 linear 1000
> grow 1
1000
> grow 1000
1000
> grow 0
0
> shrink 0 3
0
> rule exponential 1000 exponential 1000
> grow 1
1000
> grow 1000
1000
> grow 0
0
> shrink 1000 1
1
> shrink 1000 3
3
> shrink 999 1
1
> shrink 0 3
0
# each failure shrinks the window by the queue's rule
> queue 20 3 7
> rule exponential 2 linear 5
> item 4 104 app
> item 5 105 app
> item 6 106 app
> build 1 4 104 unit 0 failure
> build 2 5 105 unit 0 failure
> settle
core report 8: 4 104,1 failed
drop 4
core report 9: 5 105,1 failed
drop 5
core item 6 106,1 ahead - ok
core window 10
> queue 7 3 7
> settle
core report 8: 4 104,1 failed
drop 4
core report 9: 5 105,1 failed
drop 5
core item 6 106,1 ahead - ok
core window 3
# behind a landing, too
> queue 20 3 0
> rule exponential 2 linear 5
> item 1 101 app
> item 2 102 app
> build 1 1 101 unit 0 running
> build 2 2 102 unit 0 running 101
> end 2 failure
visits 2
core item 2 102,1 ahead 1 failing
> end 1 success
visits 1
> land 1 101
visits 2
core report 2: 2 102,1 failed
drop 2
core window 35
";

#[test]
fn a_window_changes_by_its_rule(rt: HostRuntime) {
    scenes_hold(&rt, SCENES);
}

//! A book in memory, changed and read back.
use crate::scenes::plays;

const SCENES: &str = "
# a book begins empty
memory

counters = 7 8 9
sizes core = 10 0 0
sizes other = none 0 0
reports core = 0
kept 9 = none
plan 2 = none
change 101 = none

# queues are read back
memory

put first = done
sizes core = 5 2 1
reports core = 1
before core 1 = 0
before core 2 = 1

# items are read back
memory

put first = done
items core = 2 101 1 - ok, 4 102 1 - ok
item 4 = 4 102 1 - ok
item 3 = none
next core 2 = 4 102 1 - ok
first core 0 1 = 2 101 1 - ok
first core 2 2 = 4 102 1 - ok
last core 4 = 2 101 1 - ok
needing core 101 0 = 4 102 1 - ok
needing core 101 4 = none
queued 102 = core 4 102 1 - ok

# changes and builds are read back
memory

put first = done
change 102 = 102 1 needs 101
ready = 7 103
live 2 = 1 running, 2 running
builds core 0 4 = 1 running, 2 running
builds core 2 4 = none
counters = 7 8 4
kept 9 = first

# the approval is read back of a change that is ready, of one that is an item, and of one that isn't known
memory

put first = done
approval 103 = 7
approval 102 = none
approval 104 = none
put drop 2; stop 1; end 2 failure; change 103 - -; keep 10 later = done
approval 103 = none

# the plans of the items and of the landing are read back, and no others
memory

put first = done
plan 1 = 1 slow -docs unit
plan 2 = 2 fast unit -docs
plan 4 = 4 slow unit
plan 3 = none
plan 5 = none
plans core 0 4 = 2 fast unit -docs, 4 slow unit
plans core 2 3 = none

# a plan is put in place of another, as that of an item that lands and keeps its jobs alone
memory

put first = done
put drop 2; plan 2 slow unit -docs; plan 4 fast -docs site = done
plan 1 = 1 slow -docs unit
plan 2 = 2 slow unit -docs
plan 4 = 4 fast -docs site

# a stage is set: the change is ready no longer, and needs what it did; one that isn't known stays so
memory

put first = done
put stage 102 closed; stage 103 landed; stage 104 closed = done
change 102 = 102 1 needs 101 closed
change 103 = 103 1 landed
change 104 = none
approval 103 = none
ready = none

# an item lands, and its plan keeps its jobs alone
memory

put first = done
put landed 2 = done
item 2 = none
plan 2 = 2 slow unit -docs
plan 4 = 4 slow unit

# later edits are read back: an item leaves, one of its builds stops, the other fails, a change is no longer ready
memory

put first = done
put drop 2; stop 1; end 2 failure; change 103 - -; keep 10 later = done
item 2 = none
queued 101 = none
plan 2 = none
plan 4 = 4 slow unit
live 2 = 2 failure
build 1 = 1 running stopped
ready = none
kept 10 = later

# many replies are found
memory

keeps 100000 = done
kept 99999 = kept
kept 100000 = none

# a history is written behind its front
memory

history core 1000 = front|history core|end 0|, whole
put report 1 2 102 landed 1; report 2 1 101 failed = done
history core 1000 = front|history core|     1      2       102    1 landed          1|     2      1       101    1 failed          -|end 2|, whole
history core 20 = front|history core| , cut
history cor 1000 = , no queue";

#[test]
fn what_is_put_in_memory_is_read_back(rt: HostRuntime) {
    plays(&rt, SCENES);
}

//! A book in memory that is given other settings.
use crate::scenes::plays;

/// The edits `first` leave 5 of the window of `core`.
const SCENES: &str = "
# the settings in force change nothing
memory

put first = done
settings core/10/1 web/4/2 lib@core site@web = taken
sizes core = 5 2 1
sizes web = 4 0 0
sizes new = none 0 0

# another order moves nothing
memory

put first = done
settings web/4/2 core/10/1 site@web lib@core = taken
sizes core = 5 2 1
sizes web = 4 0 0
sizes new = none 0 0

# a new queue begins with its window, wherever it stands
memory

put first = done
settings new/7/1 web/4/2 core/10/1 lib@core tool@new site@web = taken
sizes core = 5 2 1
sizes web = 4 0 0
sizes new = 7 0 0

# a queue with another window takes it, and the others keep theirs
memory

put first = done
settings core/12/1 web/4/2 lib@core site@web = taken
sizes core = 12 2 1
sizes web = 4 0 0
sizes new = none 0 0

# a queue with another floor takes the window of the settings
memory

put first = done
settings core/10/3 web/4/2 lib@core site@web = taken
sizes core = 10 2 1
sizes web = 4 0 0
sizes new = none 0 0

# so does one whose window becomes unbounded
memory

put first = done
settings core/0/1 web/4/2 lib@core site@web = taken
sizes core = 0 2 1
sizes web = 4 0 0
sizes new = none 0 0

# another rule alone leaves the window, and so do other projects
memory

put first = done
settings core/10/1! web/4/2 lib@core! site@web tool@core = taken
sizes core = 5 2 1
sizes web = 4 0 0
sizes new = none 0 0

# the settings that were taken last are those in force
memory

put first = done
settings core/12/1 web/4/2 lib@core site@web = taken
sizes core = 12 2 1
sizes web = 4 0 0
sizes new = none 0 0
settings core/10/1 web/4/2 lib@core site@web = taken
sizes core = 10 2 1
sizes web = 4 0 0
sizes new = none 0 0

# a queue that is there has to be kept
memory

put first = done
settings core/12/1 lib@core = refused
sizes core = 5 2 1
sizes web = 4 0 0
sizes new = none 0 0
settings web/9/2 new/7/1 site@web lib@new = refused
sizes core = 5 2 1
sizes web = 4 0 0
sizes new = none 0 0

# a project that is there has to be kept, in its queue
memory

put first = done
settings core/12/1 web/9/2 new/7/1 lib@core = refused
sizes core = 5 2 1
sizes web = 4 0 0
sizes new = none 0 0
settings core/12/1 web/9/2 new/7/1 site@web = refused
sizes core = 5 2 1
sizes web = 4 0 0
sizes new = none 0 0
settings core/12/1 web/9/2 new/7/1 lib@web site@web = refused
sizes core = 5 2 1
sizes web = 4 0 0
sizes new = none 0 0
settings core/12/1 web/9/2 new/7/1 lib@core site@new = refused
sizes core = 5 2 1
sizes web = 4 0 0
sizes new = none 0 0

# a refusal leaves the settings in force
memory

put first = done
settings core/12/1 web/9/2 new/7/1 lib@core = refused
sizes core = 5 2 1
sizes web = 4 0 0
sizes new = none 0 0
settings core/10/1 web/4/2 lib@core site@web = taken
sizes core = 5 2 1
sizes web = 4 0 0
sizes new = none 0 0

# what was new is there then
memory

put first = done
settings core/10/1 web/4/2 new/7/1 lib@core site@web tool@new = taken
sizes core = 5 2 1
sizes web = 4 0 0
sizes new = 7 0 0
settings core/10/1 web/4/2 lib@core site@web = refused
sizes core = 5 2 1
sizes web = 4 0 0
sizes new = 7 0 0
settings core/10/1 web/4/2 new/7/1 lib@core site@web = refused
sizes core = 5 2 1
sizes web = 4 0 0
sizes new = 7 0 0
settings core/10/1 web/4/2 new/8/1 lib@core site@web tool@new = taken
sizes core = 5 2 1
sizes web = 4 0 0
sizes new = 8 0 0

# items and builds stay under other settings: whatever these say of jobs, an item keeps its own
memory

put first = done
settings new/7/1 web/9/2 core/12/3! site@web lib@core! = taken
sizes core = 12 2 1
sizes web = 9 0 0
sizes new = 7 0 0
items core = 2 101 1 - ok, 4 102 1 - ok
item 4 = 4 102 1 - ok
item 3 = none
next core 2 = 4 102 1 - ok
first core 0 1 = 2 101 1 - ok
first core 2 2 = 4 102 1 - ok
last core 4 = 2 101 1 - ok
needing core 101 0 = 4 102 1 - ok
needing core 101 4 = none
queued 102 = core 4 102 1 - ok
plan 1 = 1 slow -docs unit
plan 2 = 2 fast unit -docs
plan 4 = 4 slow unit
plan 3 = none
plan 5 = none
plans core 0 4 = 2 fast unit -docs, 4 slow unit
plans core 2 3 = none
change 102 = 102 1 needs 101
ready = 7 103
live 2 = 1 running, 2 running
builds core 0 4 = 1 running, 2 running
builds core 2 4 = none
counters = 7 8 4
kept 9 = first";

#[test]
fn other_settings_are_taken_or_refused(rt: HostRuntime) {
    plays(&rt, SCENES);
}

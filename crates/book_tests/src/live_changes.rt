//! Which changes are held by a book that holds what is live: those that are ready, and those of its items once they
//! were asked for.
use crate::scenes::plays;

/// Seven reads fill the book. Change 102 is that of item 4, and needs 101, which is that of item 2. By the edits change
/// 103 is no longer ready, and 104 is, which needs 101; what 102 needs has changed.
const SCENES: &str = "
# what is ready is answered from memory
live over first

settings core/10/1 lib@core = taken

twice
ready = 7 103
approval 103 = 7
approval 102 = none
approval 104 = none
enters 101 = none
change 103 = 103 1

below, asked 7

# the changes of items are read once
live over first

settings core/10/1 lib@core = taken

twice
needing core 101 0 = 4 102 1 - ok
needing core 101 4 = none
change 102 = 102 1 needs 101
change 101 = 101 1

below, asked 9

# a change that is asked for is held for an item alone
live over first

settings core/10/1 lib@core = taken

twice
change 102 = 102 1 needs 101
change 104 = none

below, asked 10

# edits change what is held of changes
live over first

settings core/10/1 lib@core = taken
needing core 101 0 = 4 102 1 - ok
needing core 101 4 = none
change 102 = 102 1 needs 101
change 101 = 101 1
put change 103 - -; change 104 8 101; change 102 - 103 = done
ready = 8 104
approval 103 = none
enters 101 = 8 104
change 104 = 104 1 needs 101
change 102 = 102 1 needs 103
needing core 101 0 = none
needing core 103 0 = 4 102 1 - ok

below, asked 9

# a change that is no longer ready is let go
live over first

settings core/10/1 lib@core = taken
put change 103 - -; change 104 8 101; change 102 - 103 = done
change 103 = 103 1
change 103 = 103 1

below, asked 9

# the stage of a change is set, which is let go then
live over first

settings core/10/1 lib@core = taken
put stage 103 landed = done
ready = none
approval 103 = none
change 103 = 103 1 landed

below, asked 8

# a change that is admitted stays held
live over first

settings core/10/1 lib@core = taken
put change 103 - -; item 6 103 = done
change 103 = 103 1
ready = none

below, asked 7

# the change of an item that left is let go, and that of one that stays is held
live over first

settings core/10/1 lib@core = taken
needing core 101 0 = 4 102 1 - ok
needing core 101 4 = none
change 102 = 102 1 needs 101
change 101 = 101 1
put drop 2; report 2 2 101 landed 2 = done
change 102 = 102 1 needs 101
change 101 = 101 1
change 101 = 101 1

below, asked 11

# memory that is wanting leaves what is held of changes
live over first, refuses edits for memory

settings core/10/1 lib@core = taken
needing core 101 0 = 4 102 1 - ok
needing core 101 4 = none
change 102 = 102 1 needs 101
change 101 = 101 1
put change 103 - -; change 104 8 101; change 102 - 103 = no memory
ready = 7 103
approval 103 = 7
approval 102 = none
approval 104 = none
enters 101 = none
change 103 = 103 1
needing core 101 0 = 4 102 1 - ok
needing core 101 4 = none
change 102 = 102 1 needs 101
change 101 = 101 1
put change 103 - -; change 104 8 101; change 102 - 103 = done
ready = 8 104
approval 103 = none
enters 101 = 8 104
change 104 = 104 1 needs 101
change 102 = 102 1 needs 103
needing core 101 0 = none
needing core 103 0 = 4 102 1 - ok

below, asked 9

# a fault of the store drops what is held of changes
live over first, refuses edits by the store

settings core/10/1 lib@core = taken
put change 103 - -; change 104 8 101; change 102 - 103 = the store fails
ready = 7 103
approval 103 = 7
approval 102 = none
approval 104 = none
enters 101 = none
change 103 = 103 1

below, asked 13";

#[test]
fn changes_are_held_while_they_are_live(rt: HostRuntime) {
    plays(&rt, SCENES);
}

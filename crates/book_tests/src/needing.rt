//! The ready changes that need a change.
use crate::scenes::plays;

/// Later 203 is approved anew, 202 no longer needs 110, and 205 is approved. Six reads of the queue, the counters and
/// the ready list fill the book that holds what is live, and one of each change that is ready.
const SCENES: &str = "
# who is ready and needs a change is found
memory

put needs = done
enters 110 = 5 202, 7 203, 9 201
enters 111 = 6 204
enters 201 = none
enters 112 = none

# later needs are found
memory

put needs = done
put change 203 11 110; change 202 5 -; change 205 12 110 = done
enters 110 = 9 201, 11 203, 12 205
ready = 5 202, 6 204, 9 201, 10 207, 11 203, 12 205

# who is ready and needs a change is answered from memory
live over needs

settings core/10/1 lib@core = taken

twice
enters 110 = 5 202, 7 203, 9 201
enters 111 = 6 204
enters 201 = none
enters 112 = none

put change 203 11 110; change 202 5 -; change 205 12 110 = done
enters 110 = 9 201, 11 203, 12 205
ready = 5 202, 6 204, 9 201, 10 207, 11 203, 12 205

below, asked 11";

#[test]
fn who_is_ready_and_needs_a_change_is_found(rt: HostRuntime) {
    plays(&rt, SCENES);
}

//! How many landings of a queue stand on the line of an item.
ghost use Rattle.std.specs.Prelude.{◌≡◌, true};
ghost use Rattle.gate_queue.specs.WholeQueue.Shared.{are_below};

use gate_types::numbers::Serial;
use gate_types::records::Landing;

/// Some first landings with lower serials, where the first `known` have.
fn shared_from(landings: &[Landing], known: usize, serial: Serial) -> usize
    requires { are_below known landings.now serial ≡ true }
    ensures { are_below result landings.now serial ≡ true }
{
    let mut shared = landings.len().min(known);
    for landing in &landings[shared..] {
        if landing.serial.get() >= serial.get() {
            return shared;
        }
        shared += 1;
    }
    shared
}

/// Some first landings with serials below `serial`, where the first `known` have serials below `below`:
/// as many as there are before the first that hasn't, if the serials rise from call to call.
pub(crate) fn shared_with(landings: &[Landing], known: usize, below: u64, serial: Serial) -> usize
    requires { are_below known landings.now below ≡ true }
    ensures { are_below result landings.now serial ≡ true }
{
    if below <= serial.get() {
        shared_from(landings, known, serial)
    } else {
        shared_from(landings, 0, serial)
    }
}

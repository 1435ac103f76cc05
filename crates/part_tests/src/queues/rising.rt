//! Whether rows rise, as a settling wants them to.
ghost use Rattle.std.specs.Prelude.{IsTrue, map};
ghost use Rattle.std.specs.List.Sorted.{IsStrictlyIncreasing};

use gate_types::records::{Build, Item};

/// Whether items rise by serial.
pub(crate) fn items_rise(items: &[Item]) -> bool
    ensures { IsTrue result → IsStrictlyIncreasing (map (λ i. i.serial) items.now) }
{
    for index in 1..items.len() {
        if items[index].serial.get() <= items[index - 1].serial.get() {
            return false;
        }
    }
    true
}

/// Whether builds rise by number.
pub(crate) fn builds_rise(builds: &[Build]) -> bool
    ensures { IsTrue result → IsStrictlyIncreasing (map (λ b. b.number) builds.now) }
{
    for index in 1..builds.len() {
        if builds[index].number.get() <= builds[index - 1].number.get() {
            return false;
        }
    }
    true
}

//! Whether a build ran on the line of an item, compared without building the line.
ghost use Rattle.std.specs.Prelude.{◌≡◌, ◌≤◌, ◌+◌, true, nat_lt, [], ◌∷◌, ◌++◌, map, filter, drop, length, slice_get};
ghost use Rattle.std.specs.Prelude.{IfSome};
ghost use Rattle.gate_types.specs.Line.{same_entries, line, ran_on, landed_entry, item_entry};
ghost use Rattle.gate_queue.specs.WholeQueue.Facts.{place_in_context, place_for_line};
ghost use Rattle.gate_queue.specs.WholeQueue.Follows.{has_entry, Follows};
ghost use Rattle.gate_queue.specs.WholeQueue.Shared.{are_below};

use crate::whole_queue::context::{BareItem, ItemContext};
use gate_types::numbers::Serial;
use gate_types::records::{Build, Entry, Landing};

fn landed_entry(landing: &Landing) -> Entry
    ensures { result ≡ landed_entry landing.now }
{
    Entry {
        change: landing.change,
        revision: landing.revision,
    }
}

fn item_entry(item: &BareItem) -> Entry
    ensures { result ≡ item_entry item.now }
{
    Entry {
        change: item.change,
        revision: item.revision,
    }
}

/// The n-th entry of what a build ran on, from 0.
fn entry_at(landings: &[Landing], build: &Build, n: usize) -> Option<Entry>
    ensures { result ≡ slice_get (ran_on landings.now build.now) n }
{
    let landed = landings.len().min(build.after as usize);
    let ahead = build.ahead.as_slice();
    if n < landed {
        Some(landed_entry(&landings[n]))
    } else if n - landed < ahead.len() {
        Some(ahead[n - landed])
    } else if n - landed == ahead.len() {
        Some(Entry {
            change: build.change,
            revision: build.revision,
        })
    } else {
        None
    }
}

fn has_entry(landings: &[Landing], build: &Build, n: usize, entry: Entry) -> bool
    ensures { result ≡ has_entry (ran_on landings.now build.now) n entry }
{
    match entry_at(landings, build, n) {
        Some(found) => found == entry,
        None => false,
    }
}

/// Goes along those of the last landings that are on the line of a serial, from the entry `from` of
/// what the build ran on: the number of the entry behind them, or none where it ran on something else.
fn behind_landings(
    landings: &[Landing],
    last: &[Landing],
    serial: Serial,
    build: &Build,
    from: usize,
) -> Option<usize>
    requires { from + length last.now ≤ length landings.now }
    ensures follows { let below = filter (λ l. nat_lt l.serial serial) last.now in
        Follows (ran_on landings.now build.now) from (map landed_entry below) result }
    ensures within { IfSome result (λ n. n ≤ length landings.now) }
{
    let mut n = from;
    for landing in last {
        if landing.serial.get() < serial.get() {
            if !has_entry(landings, build, n, landed_entry(landing)) {
                return None;
            }
            n += 1;
        }
    }
    Some(n)
}

/// The same for the items ahead, from the entry `from` of what the build ran on.
fn behind_items(
    landings: &[Landing],
    ahead: &[BareItem],
    build: &Build,
    from: usize,
) -> Option<usize>
    requires { from ≤ length landings.now }
    ensures follows { Follows (ran_on landings.now build.now) from (map item_entry ahead.now) result }
    ensures within { IfSome result (λ n. n ≤ from + length ahead.now) }
{
    let mut n = from;
    for item in ahead {
        if !has_entry(landings, build, n, item_entry(item)) {
            return None;
        }
        n += 1;
    }
    Some(n)
}

/// Whether the items ahead and then the item itself are all that is left of what the build ran on.
fn is_rest(
    landings: &[Landing],
    ahead: &[BareItem],
    item: BareItem,
    build: &Build,
    from: usize,
) -> bool
    requires { from ≤ length landings.now }
    ensures { let rest = map item_entry ahead.now ++ item_entry item ∷ [] in
        result ≡ same_entries (drop from (ran_on landings.now build.now)) rest }
{
    let Some(own) = behind_items(landings, ahead, build, from) else {
        return false;
    };
    has_entry(landings, build, own, item_entry(&item))
        && entry_at(landings, build, own + 1).is_none()
}

/// Whether the build ran on these landings, as far as they have a lower serial than the item, then on
/// the items ahead, then on the item. The first `shared` landings, which do, aren't compared.
fn is_line(
    landings: &[Landing],
    shared: usize,
    ahead: &[BareItem],
    item: BareItem,
    build: &Build,
) -> bool
    requires { are_below shared landings.now item.serial ≡ true }
    ensures { result ≡
        same_entries (ran_on landings.now build.now) (line (place_for_line landings.now ahead.now item)) }
{
    let from = landings.len().min(shared).min(build.after as usize);
    match behind_landings(landings, &landings[from..], item.serial, build, from) {
        Some(landed) => is_rest(landings, ahead, item, build, landed),
        None => false,
    }
}

/// Whether the build ran on the item's line.
pub(crate) fn ran_on_line(context: &ItemContext, build: &Build) -> bool
    ensures { result ≡ same_entries (ran_on context.now.landings.now build.now) (line (place_in_context context.now)) }
{
    is_line(
        context.landings,
        context.shared,
        context.ahead,
        context.item,
        build,
    )
}

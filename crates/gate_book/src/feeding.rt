//! The lines of accepted deliveries are written, one after another.
ghost use Rattle.std.specs.Prelude.{◌≡◌, ◌++◌, false, length, take, IfOk, string_bytes};
ghost use Rattle.gate_types.specs.Tap.{has_failed};
ghost use Rattle.gate_archive.specs.Feed.{feed_lines};
ghost use Rattle.gate_book.specs.Past.{IsFed, LeavesFeedTap, WritesKeptLines};

use gate_archive::{FeedFault, feed_line};
use gate_types::names::NoMemory;
use gate_types::records::Kept;
use gate_types::tap::Tap;
use std::alloc::Global;
use std::io::Write;

/// The lines of some deliveries.
fn beginning(alloc: Global, kept: &[Kept]) -> Result<String, NoMemory>
    ensures { IfOk result (λ s. string_bytes s ≡ feed_lines kept.now) }
{
    let mut text = String::new(alloc);
    for one in kept {
        let line = feed_line(alloc, one.id, one.said.as_str())?;
        text.push_str(line.as_str())?;
    }
    Ok(text)
}

/// Writes the lines of deliveries.
fn write_lines<W: Write>(alloc: Global, kept: &[Kept], w: &mut Tap<W>) -> Result<(), FeedFault>
    requires { has_failed w.old ≡ false }
    ensures text { IsFed W.contents w.old w.new (feed_lines kept.now) result }
    ensures stops { LeavesFeedTap w.new result }
{
    for one in kept {
        let Ok(line) = feed_line(alloc, one.id, one.said.as_str()) else {
            return Err(FeedFault::Broken);
        };
        w.write_all(line.as_bytes())?;
    }
    Ok(())
}

/// Writes the front, and then some lines.
fn write_beginning<W: Write>(front: &[u8], text: &str, w: &mut Tap<W>) -> Result<(), FeedFault>
    requires { has_failed w.old ≡ false }
    ensures text { IsFed W.contents w.old w.new (front.now ++ text.now) result }
    ensures stops { LeavesFeedTap w.new result }
{
    w.write_all(front)?;
    w.write_all(text.as_bytes())?;
    Ok(())
}

/// Writes the front and then the lines of deliveries, and tells how many these are. The first line is made before
/// anything is written.
fn write_all_of<W: Write>(
    alloc: Global,
    kept: &[Kept],
    front: &[u8],
    w: &mut Tap<W>,
) -> Result<u64, FeedFault>
    requires { has_failed w.old ≡ false }
    ensures { WritesKeptLines W.contents w.old w.new (front.now ++ feed_lines kept.now) (length kept.now) result }
{
    let (first, rest) = kept.split_at(kept.len().min(1));
    let Ok(text) = beginning(alloc, first) else {
        return Err(FeedFault::Unavailable);
    };
    write_beginning(front, text.as_str(), w)?;
    write_lines(alloc, rest, w)?;
    Ok(kept.len() as u64)
}

/// The first deliveries, no more than `most`.
fn first(kept: &[Kept], most: u64) -> &[Kept]
    ensures { result.now ≡ take most kept.now }
{
    &kept[..(kept.len() as u64).min(most) as usize]
}

/// Writes the front and then the lines of the first deliveries, no more than `most`, and tells how many these are.
pub(crate) fn write_feed<W: Write>(
    alloc: Global,
    kept: &[Kept],
    most: u64,
    front: &[u8],
    w: &mut Tap<W>,
) -> Result<u64, FeedFault>
    requires { has_failed w.old ≡ false }
    ensures { WritesKeptLines W.contents w.old w.new (front.now ++ feed_lines (take most kept.now))
        (length (take most kept.now)) result }
{
    write_all_of(alloc, first(kept, most), front, w)
}

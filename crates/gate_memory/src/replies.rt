//! The kept deliveries of a book in memory.
ghost use Rattle.std.specs.Prelude.{◌≡◌, ◌<◌, ◌≤◌, ◌+◌, ◌++◌, ◌∷◌, [], ℕ, suc, List, Some, None, if◌then◌else◌};
ghost use Rattle.std.specs.Prelude.{length, drop, slice_get, IfOk, IfSome, IfNone, OnOk};
ghost use Rattle.std.specs.Option.{option_or};
ghost use Rattle.std.specs.HashMap.{get, spare};
ghost use Rattle.gate_types.specs.Once.{kept_for};
ghost use Rattle.gate_archive.specs.Feed.{behind_id};
ghost use Rattle.gate_memory.specs.Replies.{same_id, IsKeptReplyTable, HasRoomForReplies};

use gate_types::names::NoMemory;
use gate_types::records::{Id, Kept};
use std::alloc::{AllocError, Global};
use std::collections::HashMap;

/// The kept deliveries, in the order in which they were accepted, and the position of each id.
#[derive(Drop)]
pub struct ReplyTable {
    rows: Vec<Kept>,
    positions: HashMap<[u8; 16], usize>,
}

/// Notes the position of an id, unless it has one.
fn note_position(positions: &mut HashMap<[u8; 16], usize>, id: [u8; 16], position: usize)
    requires { 0 < spare positions.old }
    ensures noted { (q : List ℕ) → get same_id positions.new q
        ≡ option_or (get same_id positions.old q) (if same_id id q then Some position else None) }
    ensures room { spare positions.old ≤ spare positions.new + 1 }
{
    if positions.get(&id).is_some() {
        return;
    }
    let inserted: Result<_, _> = positions.insert(id, position);
    let _old = inserted.unwrap();
}

fn copy_at(rows: &[Kept], position: usize) -> Result<Option<Kept>, NoMemory>
    ensures { IfOk result (λ found. found ≡ slice_get rows.now position) }
{
    match rows.get(position) {
        Some(kept) => Ok(Some(kept.copy()?)),
        None => Ok(None),
    }
}

/// The rows behind a position.
fn behind_position(rows: &[Kept], position: usize) -> &[Kept]
    requires { position < length rows.now }
    ensures { result.now ≡ drop (position + 1) rows.now }
{
    &rows[position + 1..]
}

impl ReplyTable {
    pub fn new(alloc: Global) -> Self
        ensures rows { result.rows.items ≡ [] }
        ensures kept { IsKeptReplyTable result }
    {
        ReplyTable {
            rows: Vec::new(alloc),
            positions: HashMap::new(alloc),
        }
    }

    /// Makes room for `n` more deliveries. What is kept stays, whatever the result.
    pub fn make_room(&mut self, n: usize) -> Result<(), AllocError>
        requires { IsKeptReplyTable self.old }
        ensures rows { self.new.rows.items ≡ self.old.rows.items }
        ensures kept { IsKeptReplyTable self.new }
        ensures room { OnOk result (HasRoomForReplies n self.new) }
    {
        self.rows.reserve(n)?;
        self.positions.reserve(n)?;
        Ok(())
    }

    /// Keeps a delivery, where there is room.
    pub fn keep(&mut self, kept: Kept)
        requires kept { IsKeptReplyTable self.old }
        requires room { HasRoomForReplies 1 self.old }
        ensures rows { self.new.rows.items ≡ self.old.rows.items ++ kept ∷ [] }
        ensures kept { IsKeptReplyTable self.new }
        ensures room { (n : ℕ) → HasRoomForReplies (suc n) self.old → HasRoomForReplies n self.new }
    {
        note_position(&mut self.positions, kept.id.0, self.rows.len());
        self.rows.push_reserved(kept);
    }

    /// What is kept under an id.
    pub fn get(&self, id: &Id) -> Result<Option<Kept>, NoMemory>
        requires { IsKeptReplyTable self.now }
        ensures { IfOk result (λ found. found ≡ kept_for id.now self.now.rows.items) }
    {
        match self.positions.get(&id.0) {
            Some(position) => copy_at(&self.rows, *position),
            None => Ok(None),
        }
    }

    /// All deliveries, in the order in which they were accepted.
    pub fn rows(&self) -> &[Kept]
        ensures { result.now ≡ self.now.rows.items }
    {
        self.rows.as_slice()
    }

    /// What was kept behind the delivery of an id, if there is one.
    pub fn behind(&self, id: &Id) -> Option<&[Kept]>
        requires { IsKeptReplyTable self.now }
        ensures there { IfSome result (λ ks. behind_id id.now self.now.rows.items ≡ Some ks.now) }
        ensures missing { IfNone result (behind_id id.now self.now.rows.items ≡ None) }
    {
        match self.positions.get(&id.0) {
            Some(position) => Some(behind_position(&self.rows, *position)),
            None => None,
        }
    }
}

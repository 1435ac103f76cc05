//! The builds of a book in memory.
ghost use Rattle.std.specs.Prelude.{◌≡◌, ◌==◌, ◌<◌, ◌≤◌, ◌+◌, ◌++◌, ℕ, suc, [], find, filter, map, take, drop};
ghost use Rattle.std.specs.Prelude.{length, not, false, option_map, IfOk, OnOk, IfSome, vec_len, vec_capacity};
ghost use Rattle.std.specs.List.{AllByRecursion, filter_map, cons_option};
ghost use Rattle.std.specs.Option.{option_copied};
ghost use Rattle.gate_types.specs.State.{put_by};
ghost use Rattle.gate_types.specs.Rebase.{with_live};
ghost use Rattle.gate_types.specs.Rows.{with_outcome, change_build};
ghost use Rattle.gate_types.specs.Rising.{RisesFrom};
ghost use Rattle.gate_archive.specs.ItemText.{last_of, summary_of};
ghost use Rattle.gate_memory.specs.Sorted.{passing_at, first_of, without};
ghost use Rattle.gate_memory.specs.Pairs.{pair_key, IsFit};
ghost use Rattle.gate_memory.specs.Builds as index;
ghost use Rattle.gate_memory.specs.Builds.{IsKeptBuildTable, HaveRoom, Indexes, number_of_build, is_live_of};
ghost use Rattle.gate_memory.specs.Builds.{is_build_of};

use crate::pairs::{Pair, of_first, remove_first};
use crate::sorted;
use crate::sorted::Keyed;
use crate::telling::{last, summaries};
use gate_archive::BuildSummary;
use gate_types::names::NoMemory;
use gate_types::numbers::{BuildNo, Serial};
use gate_types::records::{Build, Outcome};
use gate_types::sequence::Sequence;
use std::alloc::{AllocError, Global};

/// All builds by number, and two indexes, pairs of serial and number: of all, and of the live ones.
#[derive(Drop)]
pub struct BuildTable {
    rows: Vec<Build>,
    told: Vec<Pair>,
    live: Vec<Pair>,
}

impl Keyed for Build {
    ghost use Rattle.gate_memory.specs.Builds.{number_of_build};

    ghost key = { number_of_build };

    fn key(&self) -> u128 {
        self.number.get() as u128
    }
}

/// What an index keeps of a build.
fn pair_of(build: &Build) -> Pair
    ensures pair { result ≡ index.pair_of build.now }
    ensures fit { IsFit result }
{
    Pair {
        first: build.serial.get(),
        second: build.number.get(),
    }
}

/// Drops from an index of builds what it keeps of the one of a number.
fn forget(told: &mut Vec<Pair>, rows: &[Build], number: BuildNo)
    requires rising { RisesFrom number_of_build 0 rows.now }
    requires index { Indexes told.old.items rows.now }
    ensures index { Indexes told.new.items (without number_of_build number rows.now) }
    ensures len { vec_len told.new ≤ vec_len told.old }
    ensures capacity { vec_capacity told.new ≡ vec_capacity told.old }
{
    if let Some(build) = sorted::at(rows, number.get() as u128) {
        sorted::remove(told, pair_of(build).key());
    }
}

/// Notes in an index of builds, where there is room, the one that is to be put.
fn note(told: &mut Vec<Pair>, rows: &[Build], build: &Build)
    requires room { vec_len told.old < vec_capacity told.old }
    requires rising { RisesFrom number_of_build 0 rows.now }
    requires index { Indexes told.old.items rows.now }
    ensures index { Indexes told.new.items (put_by number_of_build build.now rows.now) }
    ensures len { vec_len told.new ≤ vec_len told.old + 1 }
    ensures capacity { vec_capacity told.new ≡ vec_capacity told.old }
{
    forget(told, rows, build.number);
    sorted::put(told, pair_of(build));
}

/// Whether a build is of a serial.
fn is_of(build: &Build, serial: Serial) -> bool
    ensures { result ≡ is_build_of serial build.now }
{
    build.serial == serial
}

/// The lowest number of a build of a serial.
fn first_number(told: &[Pair], serial: Serial) -> Option<u64>
    requires rising { RisesFrom pair_key 0 told.now }
    requires fit { AllByRecursion IsFit told.now }
    ensures { result ≡ option_map (λ p. p.second) (first_of (filter (λ p. p.first == serial) told.now)) }
{
    match of_first(told, serial.get()) {
        [pair, ..] => Some(pair.second),
        [] => None,
    }
}

/// Moves the build at a position behind those that stay, unless it is of a serial, and says where those end then.
fn keep_other(rows: &mut Vec<Build>, position: usize, end: usize, serial: Serial) -> usize
    requires within { position < vec_len rows.old }
    requires order { end ≤ position }
    ensures kept { take result rows.new.items
        ++ filter (λ b. not (is_build_of serial b)) (drop (position + 1) rows.new.items)
        ≡ take end rows.old.items ++ filter (λ b. not (is_build_of serial b)) (drop position rows.old.items) }
    ensures order { result ≤ position + 1 }
    ensures len { vec_len rows.new ≡ vec_len rows.old }
    ensures capacity { vec_capacity rows.new ≡ vec_capacity rows.old }
{
    if is_of(&rows[position], serial) {
        return end;
    }
    rows.swap(end, position);
    end + 1
}

/// Drops the builds of a serial, of which none has a number below this one: those behind it move up, each once.
fn drop_rows(rows: &mut Vec<Build>, first: u64, serial: Serial)
    requires rising { RisesFrom number_of_build 0 rows.old.items }
    requires lowest { AllByRecursion (λ b. b.serial ≡ serial → first ≤ b.number) rows.old.items }
    ensures rows { rows.new.items ≡ filter (λ b. not (is_build_of serial b)) rows.old.items }
    ensures len { vec_len rows.new ≤ vec_len rows.old }
    ensures capacity { vec_capacity rows.new ≡ vec_capacity rows.old }
{
    let start = sorted::position_of(rows, first as u128);
    let mut end = start;
    for position in start..rows.len() {
        end = keep_other(rows, position, end, serial);
    }
    rows.truncate(end);
}

fn set_outcome(rows: &mut Vec<Build>, number: BuildNo, outcome: Outcome)
    requires { RisesFrom number_of_build 0 rows.old.items }
    ensures rows { rows.new.items ≡ change_build number (with_outcome outcome) rows.old.items }
    ensures capacity { vec_capacity rows.new ≡ vec_capacity rows.old }
{
    if let Some(position) = sorted::position_at(rows, number.get() as u128) {
        rows[position].outcome = outcome;
    }
}

/// Stops a build, and gives what the index keeps of it.
fn stop(rows: &mut Vec<Build>, number: BuildNo) -> Option<Pair>
    requires { RisesFrom number_of_build 0 rows.old.items }
    ensures rows { rows.new.items ≡ change_build number (with_live false) rows.old.items }
    ensures capacity { vec_capacity rows.new ≡ vec_capacity rows.old }
    ensures pair { IfSome result (λ pair. (pair.second ≡ number) × IsFit pair) }
{
    let Some(position) = sorted::position_at(rows, number.get() as u128) else {
        return None;
    };
    let build = &mut rows[position];
    build.live = false;
    Some(Pair {
        first: build.serial.get(),
        second: build.number.get(),
    })
}

/// The build of a number if it is a live one of this serial.
fn live_one(rows: &[Build], number: u64, serial: Serial) -> Option<&Build>
    requires { RisesFrom number_of_build 0 rows.now }
    ensures { option_copied result ≡ passing_at number_of_build (is_live_of serial) rows.now number }
{
    let build = sorted::at(rows, number as u128)?;
    if build.live && build.serial == serial {
        Some(build)
    } else {
        None
    }
}

fn push_copy(found: &mut Sequence<Build>, build: Option<&Build>) -> Result<(), NoMemory>
    ensures { OnOk result (found.new ≡ found.old ++ cons_option (option_copied build.entry) []) }
{
    if let Some(build) = build {
        found.push(build.copy()?)?;
    }
    Ok(())
}

/// Adds those builds that are live ones of this serial, of the numbers that the pairs tell.
fn add_live(
    found: &mut Sequence<Build>,
    rows: &[Build],
    pairs: &[Pair],
    serial: Serial,
) -> Result<(), NoMemory>
    requires { RisesFrom number_of_build 0 rows.now }
    ensures { OnOk result (found.new
        ≡ found.old ++ filter_map (λ p. passing_at number_of_build (is_live_of serial) rows.now p.second) pairs.now) }
{
    for pair in pairs {
        push_copy(found, live_one(rows, pair.second, serial))?;
    }
    Ok(())
}

impl BuildTable {
    pub fn new(alloc: Global) -> Self
        ensures rows { result.rows.items ≡ [] }
        ensures kept { IsKeptBuildTable result }
    {
        BuildTable {
            rows: Vec::new(alloc),
            told: Vec::new(alloc),
            live: Vec::new(alloc),
        }
    }

    /// Makes room for `n` more builds. The builds stay, whatever the result.
    pub fn make_room(&mut self, n: usize) -> Result<(), AllocError>
        requires { IsKeptBuildTable self.old }
        ensures rows { self.new.rows.items ≡ self.old.rows.items }
        ensures kept { IsKeptBuildTable self.new }
        ensures room { OnOk result (HaveRoom n self.new) }
    {
        self.rows.reserve(n)?;
        self.told.reserve(n)?;
        self.live.reserve(n)?;
        Ok(())
    }

    /// Puts a build where there is room, in place of one with its number.
    pub fn put(&mut self, build: Build)
        requires kept { IsKeptBuildTable self.old }
        requires room { HaveRoom 1 self.old }
        ensures rows { self.new.rows.items ≡ put_by number_of_build build self.old.rows.items }
        ensures kept { IsKeptBuildTable self.new }
        ensures room { (n : ℕ) → HaveRoom (suc n) self.old → HaveRoom n self.new }
    {
        let pair = Pair {
            first: build.serial.get(),
            second: build.number.get(),
        };
        note(&mut self.told, &self.rows, &build);
        sorted::put(&mut self.live, pair);
        sorted::put(&mut self.rows, build);
    }

    pub fn set_outcome(&mut self, number: BuildNo, outcome: Outcome)
        requires kept { IsKeptBuildTable self.old }
        ensures rows { self.new.rows.items ≡ change_build number (with_outcome outcome) self.old.rows.items }
        ensures kept { IsKeptBuildTable self.new }
        ensures room { (n : ℕ) → HaveRoom n self.old → HaveRoom n self.new }
    {
        set_outcome(&mut self.rows, number, outcome);
    }

    /// The build stops being live.
    pub fn stop(&mut self, number: BuildNo)
        requires kept { IsKeptBuildTable self.old }
        ensures rows { self.new.rows.items ≡ change_build number (with_live false) self.old.rows.items }
        ensures kept { IsKeptBuildTable self.new }
        ensures room { (n : ℕ) → HaveRoom n self.old → HaveRoom n self.new }
    {
        if let Some(pair) = stop(&mut self.rows, number) {
            sorted::remove(&mut self.live, pair.key());
        }
    }

    /// The build is no longer there, if it was.
    pub fn remove(&mut self, number: BuildNo)
        requires kept { IsKeptBuildTable self.old }
        ensures rows { self.new.rows.items ≡ without number_of_build number self.old.rows.items }
        ensures kept { IsKeptBuildTable self.new }
        ensures room { (n : ℕ) → HaveRoom n self.old → HaveRoom n self.new }
    {
        let key = number.get() as u128;
        if let Some(build) = sorted::at(&self.rows, key) {
            let pair = pair_of(build).key();
            sorted::remove(&mut self.told, pair);
            sorted::remove(&mut self.live, pair);
            sorted::remove(&mut self.rows, key);
        }
    }

    /// All builds of a serial go. This costs what goes, and one move of what stays behind the first of them.
    pub fn drop_of(&mut self, serial: Serial)
        requires kept { IsKeptBuildTable self.old }
        ensures rows { self.new.rows.items ≡ filter (λ b. not (is_build_of serial b)) self.old.rows.items }
        ensures kept { IsKeptBuildTable self.new }
        ensures room { (n : ℕ) → HaveRoom n self.old → HaveRoom n self.new }
    {
        if let Some(first) = first_number(&self.told, serial) {
            drop_rows(&mut self.rows, first, serial);
            remove_first(&mut self.told, serial.get());
            remove_first(&mut self.live, serial.get());
        }
    }

    pub fn get(&self, number: BuildNo) -> Result<Option<Build>, NoMemory>
        requires { IsKeptBuildTable self.now }
        ensures { IfOk result (λ found. found ≡ find (λ b. b.number == number) self.now.rows.items) }
    {
        match sorted::at(&self.rows, number.get() as u128) {
            Some(build) => Ok(Some(build.copy()?)),
            None => Ok(None),
        }
    }

    /// Adds the live builds of a serial, by number.
    pub fn add_live(&self, found: &mut Sequence<Build>, serial: Serial) -> Result<(), NoMemory>
        requires { IsKeptBuildTable self.now }
        ensures { OnOk result (found.new ≡ found.old ++ filter (is_live_of serial) self.now.rows.items) }
    {
        let pairs = of_first(&self.live, serial.get());
        add_live(found, &self.rows, pairs, serial)?;
        Ok(())
    }

    /// The live builds of a serial, by number.
    pub fn live_of(&self, alloc: Global, serial: Serial) -> Result<Sequence<Build>, NoMemory>
        requires { IsKeptBuildTable self.now }
        ensures { IfOk result (λ found. found ≡ filter (is_live_of serial) self.now.rows.items) }
    {
        let mut found = Sequence::new(alloc);
        self.add_live(&mut found, serial)?;
        Ok(found)
    }

    /// How many builds of a serial there are, live or not.
    pub fn count_of(&self, serial: Serial) -> u64
        requires { IsKeptBuildTable self.now }
        ensures { result ≡ length (filter (is_build_of serial) self.now.rows.items) }
    {
        of_first(&self.told, serial.get()).len() as u64
    }

    /// The last builds of a serial, live or not, by number, no more than `most`.
    pub fn last_of(
        &self,
        alloc: Global,
        serial: Serial,
        most: u32,
    ) -> Result<Sequence<BuildSummary>, NoMemory>
        requires { IsKeptBuildTable self.now }
        ensures { IfOk result (λ found. found
            ≡ map summary_of (last_of most (filter (is_build_of serial) self.now.rows.items))) }
    {
        let pairs = last(of_first(&self.told, serial.get()), most);
        summaries(alloc, &self.rows, pairs)
    }
}

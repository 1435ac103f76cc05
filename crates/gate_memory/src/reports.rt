//! The reports of one queue of a book in memory.
ghost use Rattle.std.specs.Prelude.{◌≡◌, ◌==◌, ◌-◌, ℕ, suc, [], find, take, drop, OnOk};
ghost use Rattle.std.specs.List.{filter_map};
ghost use Rattle.std.specs.Option.{option_copied};
ghost use Rattle.gate_types.specs.State.{put_by};
ghost use Rattle.gate_memory.specs.Sorted.{passing_at, first_of};
ghost use Rattle.gate_memory.specs.Pairs.{IsFit};
ghost use Rattle.gate_memory.specs.Reports as entries;
ghost use Rattle.gate_memory.specs.Reports.{IsKeptReportTable, HasRoomForReports, is_of_serial};
ghost use Rattle.gate_types.specs.Limits.{most_listed};
ghost use Rattle.gate_types.specs.Keys.{place_of_report};
ghost use Rattle.gate_types.specs.Rising.{RisesFrom};

use crate::pairs::{Pair, of_first, paired};
use crate::sorted;
use crate::sorted::Keyed;
use gate_types::limits::MOST_LISTED;
use gate_types::numbers::Serial;
use gate_types::rows::ReportRow;
use std::alloc::{AllocError, Global};

/// The reports of a queue by place, and an index of them: pairs of serial and place.
#[derive(Drop)]
pub struct ReportTable {
    rows: Vec<ReportRow>,
    entries: Vec<Pair>,
}

impl Keyed for ReportRow {
    ghost use Rattle.gate_types.specs.Keys.{place_of_report};

    ghost key = { place_of_report };

    fn key(&self) -> u128 {
        self.place as u128
    }
}

/// What the index keeps of a report.
fn entry_of(row: &ReportRow) -> Pair
    ensures entry { result ≡ entries.indexed_report row.now }
    ensures fit { IsFit result }
{
    paired(row.report.serial.get(), row.place)
}

/// The report at a place, if it is of this serial.
fn report_if(rows: &[ReportRow], place: u64, serial: Serial) -> Option<&ReportRow>
    requires { RisesFrom place_of_report 0 rows.now }
    ensures { option_copied result ≡ passing_at place_of_report (is_of_serial serial) rows.now place }
{
    let row = sorted::at(rows, place as u128)?;
    if row.report.serial == serial {
        Some(row)
    } else {
        None
    }
}

/// The first report of a serial, of the places that the entries tell.
fn first_report<'a>(
    rows: &'a [ReportRow],
    entries: &[Pair],
    serial: Serial,
) -> Option<&'a ReportRow>
    requires { RisesFrom place_of_report 0 rows.now }
    ensures { option_copied result
        ≡ first_of (filter_map (λ p. passing_at place_of_report (is_of_serial serial) rows.now p.second) entries.now) }
{
    for entry in entries {
        if let Some(row) = report_if(rows, entry.second, serial) {
            return Some(row);
        }
    }
    None
}

impl ReportTable {
    pub fn new(alloc: Global) -> Self
        ensures rows { result.rows.items ≡ [] }
        ensures kept { IsKeptReportTable result }
    {
        ReportTable {
            rows: Vec::new(alloc),
            entries: Vec::new(alloc),
        }
    }

    /// Makes room for `n` more reports. The reports stay, whatever the result.
    pub fn make_room(&mut self, n: usize) -> Result<(), AllocError>
        requires { IsKeptReportTable self.old }
        ensures rows { self.new.rows.items ≡ self.old.rows.items }
        ensures kept { IsKeptReportTable self.new }
        ensures room { OnOk result (HasRoomForReports n self.new) }
    {
        self.rows.reserve(n)?;
        self.entries.reserve(n)?;
        Ok(())
    }

    /// Puts a report where there is room, in place of one at its place.
    pub fn put(&mut self, row: ReportRow)
        requires kept { IsKeptReportTable self.old }
        requires room { HasRoomForReports 1 self.old }
        ensures rows { self.new.rows.items ≡ put_by place_of_report row self.old.rows.items }
        ensures kept { IsKeptReportTable self.new }
        ensures room { (n : ℕ) → HasRoomForReports (suc n) self.old → HasRoomForReports n self.new }
    {
        sorted::put(&mut self.entries, entry_of(&row));
        sorted::put(&mut self.rows, row);
    }

    /// All reports, by place.
    pub fn rows(&self) -> &[ReportRow]
        ensures { result.now ≡ self.now.rows.items }
    {
        &self.rows
    }

    /// The first report of a serial.
    pub fn of_serial(&self, serial: Serial) -> Option<&ReportRow>
        requires { IsKeptReportTable self.now }
        ensures { option_copied result ≡ find (λ r. r.report.serial == serial) self.now.rows.items }
    {
        first_report(&self.rows, of_first(&self.entries, serial.get()), serial)
    }

    /// The reports from the `from`th on, from 1, no more than 1,000.
    pub fn page(&self, from: u64) -> &[ReportRow]
        ensures { result.now ≡ take most_listed (drop (from - 1) self.now.rows.items) }
    {
        let count = self.rows.len();
        let start = from.saturating_sub(1).min(count as u64) as usize;
        &self.rows[start..start + (count - start).min(MOST_LISTED as usize)]
    }
}

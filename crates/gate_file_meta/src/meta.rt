//! What the table `meta` of a file says, and what is made of it.
ghost use Rattle.std.specs.Prelude.{◌≡◌, ◌<◌, [], false, length, bytes_eq, option_copied};
ghost use Rattle.std.specs.Prelude.{IfErr, IfOk, IfSome, IsTrue, OnOk, Some};
ghost use Rattle.sqlite.specs.Held.{state};
ghost use Rattle.sqlite.specs.State.{FailsToQuery, HasCleanDisk, IsUnchanged, Shown};
ghost use Rattle.sqlite.specs.declared.types.Value.TheVariants.{Text};
ghost use Rattle.sqlite_value.specs.Order.{column};
ghost use Rattle.gate_types.specs.SettingsText.{settings_text};
ghost use Rattle.gate_rows.specs.Writes.{LeavesNothing};
ghost use Rattle.gate_schema.specs.Rows.{pair_of_words};
ghost use Rattle.gate_found_rows.specs.Finds.{Stays};
ghost use Rattle.gate_file_meta.specs.Opens.{IsMeta, with_meta};
ghost use Rattle.gate_file_meta.specs.Reading.{HasNoMeta, IsFound, IsFoundOf, IsMet, IsUnread, ShowsMeta};
ghost use Rattle.gate_file_meta.specs.Reading.{says_nothing, met, meta_rows, meta_sql};

use gate_kept_settings::{TextFault, read_text};
use gate_types::adopting::may_adopt;
use gate_types::config::Config;
use gate_types::open_fault::OpenFault;
use sqlite::types::ValueRef;
use sqlite::{Alter, Connection, Error, ErrorCode, Row};
use std::alloc::Global;

/// The rows of `meta`, by key.
pub fn read_meta<S: Alter>(conn: &mut Connection<S>) -> Result<Vec<Row>, Error>
    ensures shown { HasCleanDisk (state S.Store conn.new) →
        IfOk result (λ rows. Shown meta_sql [] (state S.Store conn.old) (state S.Store conn.new) rows.items) }
    ensures err { HasCleanDisk (state S.Store conn.new) →
        IfErr result (FailsToQuery meta_sql [] (state S.Store conn.old) (state S.Store conn.new)) }
    ensures mode { conn.old.in_transaction ≡ false → conn.new.in_transaction ≡ false }
    ensures crash { LeavesNothing (state S.Store conn.old) (state S.Store conn.new) }
    ensures clean { HasCleanDisk (state S.Store conn.new) → HasCleanDisk (state S.Store conn.old) }
{
    conn.query_all("SELECT k, v FROM meta ORDER BY k", &[])
}

/// Whether a value is this text.
pub fn is_text(value: &[u8], wanted: &str) -> bool
    ensures { result ≡ bytes_eq value.now wanted.now }
{
    value == wanted.as_bytes()
}

/// The text in a column; None where it holds none.
fn text_at(row: &Row, at: usize) -> Option<&[u8]>
    ensures found { (t : _) → column row.now at ≡ Text t → option_copied result ≡ Some t }
    ensures only { IfSome result (λ t. (at < length row.now) × (column row.now at ≡ Text t.now)) }
{
    match row.get_ref(at) {
        Ok(ValueRef::Text(text)) => Some(text),
        _ => None,
    }
}

/// The second of two texts, where the first is this key.
pub fn value_for<'a>(row: &'a Row, key: &str) -> Option<&'a [u8]>
    ensures found { (t : _) → row.now ≡ pair_of_words key.now t → option_copied result ≡ Some t }
    ensures only { IfSome result (λ t. row.now ≡ pair_of_words key.now t.now) }
{
    if row.column_count() == 2 && is_text(text_at(row, 0)?, key) {
        text_at(row, 1)
    } else {
        None
    }
}

/// The settings of a kept text, if these may be taken in their place.
fn judge_text(alloc: Global, kept: &[u8], config: &Config) -> Result<Config, OpenFault>
    ensures { IsMet result kept.now config.now }
{
    match read_text(alloc, kept) {
        Ok(other) => {
            if may_adopt(&other, config) {
                Ok(other)
            } else {
                Err(OpenFault::OtherSettings)
            }
        }
        Err(TextFault::NotSettings) => Err(OpenFault::OtherSettings),
        Err(TextFault::NoMemory) => Err(OpenFault::Unavailable),
    }
}

/// The settings of a file of this version that keeps this text, if they are others in whose place these may be taken.
fn judge_texts(
    alloc: Global,
    version: &[u8],
    kept: &[u8],
    settings: &str,
    config: &Config,
) -> Result<Option<Config>, OpenFault>
    ensures { settings.now ≡ settings_text config.now → IsFound result version.now kept.now config.now }
{
    if version != "2".as_bytes() {
        return Err(OpenFault::OtherSchema);
    }
    if kept == settings.as_bytes() {
        return Ok(None);
    }
    match judge_text(alloc, kept, config) {
        Ok(other) => Ok(Some(other)),
        Err(fault) => Err(fault),
    }
}

/// The settings that these rows of `meta` keep, if they are others in whose place these may be taken.
fn judge(
    alloc: Global,
    rows: &[Row],
    settings: &str,
    config: &Config,
) -> Result<Option<Config>, OpenFault>
    ensures judged { settings.now ≡ settings_text config.now → (version kept : _) →
        rows.now ≡ meta_rows version kept → IsFound result version kept config.now }
    ensures told { settings.now ≡ settings_text config.now →
        IsFoundOf result (λ version kept. rows.now ≡ meta_rows version kept) config.now }
{
    let [first, second, third] = rows else {
        return Err(OpenFault::WrongFile);
    };
    let Some(format) = value_for(first, "format") else {
        return Err(OpenFault::WrongFile);
    };
    let Some(version) = value_for(second, "schema") else {
        return Err(OpenFault::WrongFile);
    };
    let Some(kept) = value_for(third, "settings") else {
        return Err(OpenFault::WrongFile);
    };
    if !is_text(format, "gate") {
        return Err(OpenFault::WrongFile);
    }
    judge_texts(alloc, version, kept, settings, config)
}

/// Why `meta` wasn't read.
pub fn fault_of(error: &Error) -> OpenFault
    ensures unavailable { IsTrue (says_nothing error.now) → result ≡ OpenFault.Unavailable }
    ensures other { says_nothing error.now ≡ false → result ≡ OpenFault.WrongFile }
    ensures unread { IsUnread (Some result) }
{
    match error {
        Error::SqliteFailure(
            ErrorCode::OutOfMemory
            | ErrorCode::SystemIoFailure
            | ErrorCode::DatabaseCorrupt
            | ErrorCode::DiskFull
            | ErrorCode::Closed
            | ErrorCode::TooBig
            | ErrorCode::OperationInterrupted,
        ) => OpenFault::Unavailable,
        _ => OpenFault::WrongFile,
    }
}

/// The settings that the file keeps, if they are others in whose place these may be taken.
pub fn kept_in<S: Alter>(
    alloc: Global,
    conn: &mut Connection<S>,
    settings: &str,
    config: &Config,
) -> Result<Option<Config>, OpenFault>
    ensures judged { settings.now ≡ settings_text config.now → HasCleanDisk (state S.Store conn.new) →
        (tables : _) (indexes : _) (views : _) (version kept : _) →
        (state S.Store conn.old).now.schema ≡ with_meta tables indexes views →
        IsMeta (state S.Store conn.old).now.trees version kept → IsFound result version kept config.now }
    ensures told { settings.now ≡ settings_text config.now → HasCleanDisk (state S.Store conn.new) →
        IsFoundOf result (ShowsMeta (state S.Store conn.old).now) config.now }
    ensures unread { HasCleanDisk (state S.Store conn.new) → HasNoMeta (state S.Store conn.old).now.schema →
        IsUnread (met result) }
    ensures same { HasCleanDisk (state S.Store conn.new) →
        OnOk result (IsUnchanged (state S.Store conn.old) (state S.Store conn.new) ×
        ((state S.Store conn.old).now ≡ (state S.Store conn.old).committed)) }
    ensures stays { HasCleanDisk (state S.Store conn.new) → Stays (state S.Store conn.old) (state S.Store conn.new) }
    ensures mode { OnOk result (conn.new.in_transaction ≡ false) }
    ensures crash { LeavesNothing (state S.Store conn.old) (state S.Store conn.new) }
    ensures clean { HasCleanDisk (state S.Store conn.new) → HasCleanDisk (state S.Store conn.old) }
{
    if !conn.is_autocommit() {
        return Err(OpenFault::Unavailable);
    }
    match read_meta(conn) {
        Ok(rows) => judge(alloc, rows.as_slice(), settings, config),
        Err(error) => Err(fault_of(&error)),
    }
}

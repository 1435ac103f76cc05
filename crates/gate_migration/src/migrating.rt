//! A gate's file of schema 1 made one of schema 2.
ghost use Rattle.std.specs.Prelude.{◌≡◌, ◌≢◌, false, map, IfErr, IsTrue, MatchResult, OnOk};
ghost use Rattle.sqlite.specs.Held.{state};
ghost use Rattle.sqlite.specs.State.{HasCleanDisk, IsUnchanged};
ghost use Rattle.sqlite.specs.Tree.{Trees};
ghost use Rattle.gate_types.specs.Migrate.{migrated_content};
ghost use Rattle.gate_types.specs.Once.{Content};
ghost use Rattle.gate_types.specs.Settings.{Settings};
ghost use Rattle.gate_types.specs.State.{Queue as GateQueue};
ghost use Rattle.gate_rows.specs.Matches.{StandsFor};
ghost use Rattle.gate_rows.specs.Writes.{LeavesNothing};
ghost use Rattle.gate_found_rows.specs.Finds.{Stays};
ghost use Rattle.gate_file_changes.specs.Applies.{LeavesOrStands};
ghost use Rattle.gate_table_laws.specs.Held.{IsShownFor, queue_names};
ghost use Rattle.gate_migration.specs.Upgrade.{StandsForFirst};
ghost use Rattle.gate_file_changes.specs.Making.{IsUpAndCommitted};
ghost use Rattle.gate_migration.specs.Migrates.{CanMigrate, Carries, HasNoneToMigrate, IsLeft};
ghost use Rattle.gate_file_meta.specs.Opens.{IsMeta, with_meta};
ghost use Rattle.gate_migration.specs.Standing.{IsMigrated, IsStanding, fault_before, is_newly_taken};
ghost use Rattle.gate_file_meta.specs.Reading.{HasNoMeta, IsUnread, ShowsMeta, met, meta_rows};
ghost use Rattle.gate_migration.specs.Standing.{IsMigratedOf, IsStandingOf};

use crate::planning::first_plans;
use crate::upgrading::upgrade_if_open;
use gate_file_meta::{fault_of, is_any_used, is_text, read_meta, value_for};
use gate_types::config::Config;
use gate_types::open_fault::OpenFault;
use sqlite::{Alter, Connection, Row};
use sqlite_schema::schema::Schema;
use std::alloc::Global;

/// What `migrate` has done.
#[derive(Clone, Copy, Debug, PartialEq, Eq)]
pub enum Migrated {
    /// A file of schema 1 is now one of schema 2.
    Done,
    /// It was one of schema 2.
    Already,
}

/// Whether a file of this version and these settings is of schema 1, and not of schema 2; or why it is neither.
fn judge_version(version: &[u8], kept: &[u8], settings: &str) -> Result<bool, OpenFault>
    ensures { IsStanding result version.now kept.now settings.now }
{
    if version == "2".as_bytes() {
        Ok(false)
    } else if version != "1".as_bytes() {
        Err(OpenFault::OtherSchema)
    } else if kept != settings.as_bytes() {
        Err(OpenFault::OtherSettings)
    } else {
        Ok(true)
    }
}

/// The same of a file with these rows in `meta`.
fn judge_rows(rows: &[Row], settings: &str) -> Result<bool, OpenFault>
    ensures judged { (version kept : _) → rows.now ≡ meta_rows version kept →
        IsStanding result version kept settings.now }
    ensures told { IsStandingOf result (λ version kept. rows.now ≡ meta_rows version kept) settings.now }
{
    let [first, second, third] = rows else {
        return Err(OpenFault::WrongFile);
    };
    let Some(format) = value_for(first, "format") else {
        return Err(OpenFault::WrongFile);
    };
    let Some(version) = value_for(second, "schema") else {
        return Err(OpenFault::WrongFile);
    };
    let Some(kept) = value_for(third, "settings") else {
        return Err(OpenFault::WrongFile);
    };
    if !is_text(format, "gate") {
        return Err(OpenFault::WrongFile);
    }
    judge_version(version, kept, settings)
}

/// The same of the file of a connection.
fn standing_in<S: Alter>(conn: &mut Connection<S>, settings: &str) -> Result<bool, OpenFault>
    ensures judged { HasCleanDisk (state S.Store conn.new) → (tables : _) (indexes : _) (views : _) (version kept : _) →
        (state S.Store conn.old).now.schema ≡ with_meta tables indexes views →
        IsMeta (state S.Store conn.old).now.trees version kept → IsStanding result version kept settings.now }
    ensures told { HasCleanDisk (state S.Store conn.new) →
        IsStandingOf result (ShowsMeta (state S.Store conn.old).now) settings.now }
    ensures unread { HasCleanDisk (state S.Store conn.new) → HasNoMeta (state S.Store conn.old).now.schema →
        IsUnread (met result) }
    ensures same { HasCleanDisk (state S.Store conn.new) →
        OnOk result (IsUnchanged (state S.Store conn.old) (state S.Store conn.new)) }
    ensures stays { HasCleanDisk (state S.Store conn.new) → Stays (state S.Store conn.old) (state S.Store conn.new) }
    ensures mode { OnOk result (conn.new.in_transaction ≡ false) }
    ensures crash { LeavesNothing (state S.Store conn.old) (state S.Store conn.new) }
    ensures clean { HasCleanDisk (state S.Store conn.new) → HasCleanDisk (state S.Store conn.old) }
{
    if !conn.is_autocommit() {
        return Err(OpenFault::Unavailable);
    }
    match read_meta(conn) {
        Ok(rows) => judge_rows(rows.as_slice(), settings),
        Err(error) => Err(fault_of(&error)),
    }
}

/// Gives the items and the landings of a file of schema 1 their plans, all or none.
fn carry_out<S: Alter>(
    alloc: Global,
    conn: &mut Connection<S>,
    config: &Config,
) -> Result<Migrated, OpenFault>
    ensures done { HasCleanDisk (state S.Store conn.new) → IsTrue (state S.Store conn.old).is_open → (x : Content) →
        CanMigrate (state S.Store conn.old) config.now x →
        Carries (state S.Store conn.old) (state S.Store conn.new) config.now x result }
    ensures answer { MatchResult result (λ m. m ≡ Migrated.Done) (λ f. f ≡ OpenFault.Unavailable) }
    ensures settled { HasCleanDisk (state S.Store conn.new) → OnOk result (IsUpAndCommitted (state S.Store conn.new)) }
    ensures mode { OnOk result (conn.new.in_transaction ≡ false) }
    ensures crash { HasCleanDisk (state S.Store conn.new) → IsTrue (state S.Store conn.old).is_open → (x : Content) →
        CanMigrate (state S.Store conn.old) config.now x →
        LeavesOrStands (state S.Store conn.old) (state S.Store conn.new) config.now
        (migrated_content config.now x) }
    ensures clean { HasCleanDisk (state S.Store conn.new) → HasCleanDisk (state S.Store conn.old) }
{
    config.show_sound();
    let Ok(edits) = first_plans(alloc, conn, config) else {
        return Err(OpenFault::Unavailable);
    };
    if !conn.is_autocommit() {
        return Err(OpenFault::Unavailable);
    }
    match upgrade_if_open(alloc, conn, &edits) {
        Ok(()) => Ok(Migrated::Done),
        Err(_) => Err(OpenFault::Unavailable),
    }
}

/// Whether the name of one of the two tables that schema 2 adds is there.
fn has_new_names(schema: &Schema) -> bool
    ensures { result ≡ is_newly_taken schema.now }
{
    is_any_used(schema, &["item_job", "item_fast"])
}

/// Why a file isn't migrated: a name that is taken comes before other settings.
fn fault_before(taken: bool, fault: OpenFault) -> OpenFault
    ensures { result ≡ fault_before taken fault }
{
    match fault {
        OpenFault::OtherSettings => {
            if taken {
                OpenFault::WrongFile
            } else {
                OpenFault::OtherSettings
            }
        }
        OpenFault::WrongFile => OpenFault::WrongFile,
        OpenFault::OtherSchema => OpenFault::OtherSchema,
        OpenFault::Unavailable => OpenFault::Unavailable,
    }
}

/// Makes a gate's file of schema 1 one of schema 2, all or none: each item and each landing gets the jobs of the
/// project of its change, each item whether that fails fast. A file of schema 2 is left as it is, whatever its
/// settings. `WrongFile` where `meta` hasn't the rows of a gate's file, or the name of a new table is there;
/// `OtherSchema` where they name yet another version; `OtherSettings` where a file of schema 1 keeps other settings;
/// `Unavailable` where a transaction is under way, where memory, the disk or its size failed, or where two of its items
/// and landings have one serial, as in no file of a gate.
pub fn migrate<S: Alter>(
    alloc: Global,
    conn: &mut Connection<S>,
    config: &Config,
) -> Result<Migrated, OpenFault>
    ensures done { HasCleanDisk (state S.Store conn.new) → IsTrue (state S.Store conn.old).is_open → (x : Content) →
        StandsForFirst (state S.Store conn.old).now.trees config.now x →
        map (λ (q : GateQueue). q.name) x.state.queues ≡ queue_names config.now → MatchResult result
        (λ m. (m ≡ Migrated.Done) × IsShownFor (state S.Store conn.new) config.now (migrated_content config.now x))
        (λ f. (f ≡ OpenFault.Unavailable) × Stays (state S.Store conn.old) (state S.Store conn.new)) }
    ensures settled { HasCleanDisk (state S.Store conn.new) → IsTrue (state S.Store conn.old).is_open → (x : Content) →
        StandsForFirst (state S.Store conn.old).now.trees config.now x →
        map (λ (q : GateQueue). q.name) x.state.queues ≡ queue_names config.now →
        OnOk result ((db : Trees) → S.Store.recovers conn.new.store db →
        StandsFor db config.now (migrated_content config.now x)) }
    ensures already { HasCleanDisk (state S.Store conn.new) → IsTrue (state S.Store conn.old).is_open →
        (c : Settings) (x : Content) → StandsFor (state S.Store conn.old).now.trees c x → MatchResult result
        (λ m. m ≡ Migrated.Already) (λ f. f ≡ OpenFault.Unavailable)
        × IsLeft (state S.Store conn.old) (state S.Store conn.new) }
    // whether it is migrated is decided by the file alone
    ensures judged { HasCleanDisk (state S.Store conn.new) → (tables : _) (indexes : _) (views : _) (version kept : _) →
        (state S.Store conn.old).now.schema ≡ with_meta tables indexes views →
        IsMeta (state S.Store conn.old).now.trees version kept →
        IsMigrated result (is_newly_taken (state S.Store conn.old).now.schema) version kept config.now }
    ensures told { HasCleanDisk (state S.Store conn.new) →
        IsMigratedOf result (is_newly_taken (state S.Store conn.old).now.schema)
        (ShowsMeta (state S.Store conn.old).now) config.now }
    ensures unread { HasCleanDisk (state S.Store conn.new) → HasNoMeta (state S.Store conn.old).now.schema →
        IsUnread (met result) }
    ensures refused { HasCleanDisk (state S.Store conn.new) → IfErr result (λ f. f ≢ OpenFault.Unavailable →
        IsLeft (state S.Store conn.old) (state S.Store conn.new)) }
    ensures mode { OnOk result (conn.new.in_transaction ≡ false) }
    ensures none { HasCleanDisk (state S.Store conn.new) →
        HasNoneToMigrate (state S.Store conn.old).now config.now →
        IsLeft (state S.Store conn.old) (state S.Store conn.new) }
    ensures crash { HasCleanDisk (state S.Store conn.new) → IsTrue (state S.Store conn.old).is_open → (x : Content) →
        StandsForFirst (state S.Store conn.old).now.trees config.now x →
        map (λ (q : GateQueue). q.name) x.state.queues ≡ queue_names config.now →
        LeavesOrStands (state S.Store conn.old) (state S.Store conn.new) config.now
        (migrated_content config.now x) }
    ensures clean { HasCleanDisk (state S.Store conn.new) → HasCleanDisk (state S.Store conn.old) }
{
    let Ok(settings) = config.text(alloc) else {
        return Err(OpenFault::Unavailable);
    };
    // It tells that the schema is the one that the tables list.
    let taken = has_new_names(conn.schema());
    match standing_in(conn, settings.as_str()) {
        Ok(true) => {
            if taken {
                Err(OpenFault::WrongFile)
            } else {
                carry_out(alloc, conn, config)
            }
        }
        Ok(false) => Ok(Migrated::Already),
        Err(fault) => Err(fault_before(taken, fault)),
    }
}

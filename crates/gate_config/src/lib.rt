//! The settings file: a TOML document becomes a `Config`, or the least of its faults.
//!
//! ```text
//! let config = gate_config::read(alloc, bytes)?;
//! for queue in config.queues.as_slice() {
//!     // its name, its window, its floor and its rule
//! ```
#![tactic(auto)]

ghost use Rattle.std.specs.Prelude.{◌≡◌, ◌⊎◌, Some, None, IfOk, IfErr};
ghost use Rattle.toml.specs.View.{view};
ghost use Rattle.gate_config.specs.Faults.{broken_rule, fault_of};
ghost use Rattle.gate_config.specs.Reading.{document, said_by, GivesSettings};

mod build;
mod document;
mod fault;
mod kinds;
mod members;
mod rules;

pub use fault::ConfigFault;
use gate_types::config::Config;
use std::alloc::Global;
use toml::Value;

/// The settings that the bytes of a file say.
///
/// # Errors
///
/// The fault with the least number, if the file has any; and `NoMemory` where memory was refused, whatever the file is.
pub fn read(alloc: Global, bytes: &[u8]) -> Result<Config, ConfigFault>
    ensures { GivesSettings result (said_by bytes.now) }
{
    let document = parse(alloc, bytes)?;
    match fault_in(&document) {
        Some(fault) => Err(fault),
        None => Ok(build::config(alloc, &document)?),
    }
}

/// The document, a table.
fn parse(alloc: Global, bytes: &[u8]) -> Result<Value, ConfigFault>
    ensures ok { IfOk result (λ v. document bytes.now ≡ Some (view v)) }
    ensures err { IfErr result (λ e. (e ≡ ConfigFault.NoMemory)
        ⊎ ((e ≡ ConfigFault.NotToml) × (document bytes.now ≡ None))) }
{
    match toml::table_from_slice(alloc, bytes) {
        Ok(table) => Ok(Value::Table(table)),
        Err(e) => {
            if e.is_memory() {
                Err(ConfigFault::NoMemory)
            } else {
                Err(ConfigFault::NotToml)
            }
        }
    }
}

/// The least fault, if the document has one.
fn fault_in(document: &Value) -> Option<ConfigFault>
    ensures { result ≡ fault_of (view document.now) }
{
    if members::misses_member(document) {
        Some(ConfigFault::MissingMember)
    } else if kinds::has_wrong_kind(document) {
        Some(ConfigFault::WrongKind)
    } else if members::has_unknown_member(document) {
        Some(ConfigFault::UnknownMember)
    } else {
        broken_rule(document)
    }
}

/// The least fault among those of values, for a document whose members are all of their kinds.
fn broken_rule(document: &Value) -> Option<ConfigFault>
    ensures { result ≡ broken_rule (view document.now) }
{
    if rules::has_bad_name_anywhere(document) {
        Some(ConfigFault::BadName)
    } else if rules::has_double_name(document) {
        Some(ConfigFault::DoubleName)
    } else if rules::names_no_queue(document) {
        Some(ConfigFault::UnknownQueue)
    } else if rules::has_bad_window(document) {
        Some(ConfigFault::BadWindow)
    } else if rules::has_no_voting_job(document) {
        Some(ConfigFault::NoVotingJob)
    } else if rules::is_beyond_limits(document) {
        Some(ConfigFault::Limit)
    } else {
        None
    }
}

//! Settings read back from the one text that `Config::text` writes of them.
//!
//! ```text
//! let text = config.text(alloc)?;
//! let again = read_text(alloc, text.as_bytes())?;
//! // `again` has the same queues, projects and jobs, in the same order
//! ```
#![tactic(auto)]

ghost use Rattle.std.specs.Prelude.{◌≡◌, MatchResult, IfOk};
ghost use Rattle.gate_types.specs.Settings.{Settings};
ghost use Rattle.gate_types.specs.Reading.{value_of};
ghost use Rattle.serde_json.specs.View.{view};
ghost use Rattle.gate_kept_settings.specs.Reading.{GivesKept, kept_said_by};
ghost use Rattle.gate_kept_settings.specs.Told.{SaysSettings};

mod fault;
mod laws;
mod members;
mod reading;

pub use fault::TextFault;
use gate_types::config::Config;
pub use laws::one_text_a_setting;
use serde_json::Value;
use std::alloc::Global;

/// The value of a text.
fn parse(alloc: Global, text: &[u8]) -> Result<Value, TextFault>
    ensures { GivesKept view result (value_of text.now) }
{
    match Value::from_slice(alloc, text) {
        Ok(value) => Ok(value),
        Err(error) => {
            if error.is_memory() {
                Err(TextFault::NoMemory)
            } else {
                Err(TextFault::NotSettings)
            }
        }
    }
}

/// The settings that a text says at its members, whatever else it is.
fn read_members(alloc: Global, text: &[u8]) -> Result<Config, TextFault>
    ensures { GivesKept (λ c. c) result (kept_said_by text.now) }
{
    let value = parse(alloc, text)?;
    reading::settings_of(alloc, &value)
}

/// The settings whose text this is, byte for byte.
///
/// # Errors
///
/// `NotSettings` where it is the text of no settings, and `NoMemory` where memory was refused.
pub fn read_text(alloc: Global, text: &[u8]) -> Result<Config, TextFault>
    ensures exact { IfOk result (λ c. SaysSettings text.now c) }
    ensures told { (c : Settings) → SaysSettings text.now c →
        MatchResult result (λ read. read ≡ c) (λ fault. fault ≡ TextFault.NoMemory) }
{
    let config = read_members(alloc, text)?;
    let written = config.text(alloc)?;
    if written.as_bytes() == text {
        Ok(config)
    } else {
        Err(TextFault::NotSettings)
    }
}

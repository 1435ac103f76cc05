//! The members of a JSON value, each read by its kind.
ghost use Rattle.std.specs.Prelude.{Some, map, string_bytes};
ghost use Rattle.serde_json.specs.View.{view};
ghost use Rattle.gate_types.specs.Reading.{text_at, whole_at};
ghost use Rattle.gate_kept_settings.specs.Reading.{GivesKept, truth_at, list_at, name_at};
ghost use Rattle.gate_kept_settings.specs.Reading.{path_name_at, base_at, number_at, pace_at, factor_at, flag_at};

use crate::fault::TextFault;
use gate_types::config::Pace;
use gate_types::limits::MOST_WINDOW;
use gate_types::names::{Base, Name, PathName};
use gate_types::sound::is_factor;
use serde_json::Value;
use std::alloc::Global;

fn text_of<'v>(value: &'v Value, key: &str) -> Result<&'v str, TextFault>
    ensures { GivesKept (λ s. s.now) result (text_at key.now (view value.now)) }
{
    match value.get(key) {
        Some(member) => match member.as_str() {
            Some(text) => Ok(text),
            None => Err(TextFault::NotSettings),
        },
        None => Err(TextFault::NotSettings),
    }
}

fn whole_of(value: &Value, key: &str) -> Result<u64, TextFault>
    ensures { GivesKept (λ n. n) result (whole_at key.now (view value.now)) }
{
    match value.get(key) {
        Some(member) => match member.as_u64() {
            Some(number) => Ok(number),
            None => Err(TextFault::NotSettings),
        },
        None => Err(TextFault::NotSettings),
    }
}

pub(crate) fn truth_of(value: &Value, key: &str) -> Result<bool, TextFault>
    ensures { GivesKept (λ b. b) result (truth_at key.now (view value.now)) }
{
    match value.get(key) {
        Some(member) => match member.as_bool() {
            Some(truth) => Ok(truth),
            None => Err(TextFault::NotSettings),
        },
        None => Err(TextFault::NotSettings),
    }
}

/// The values of an array.
#[tactic(auto, using(crate::proofs::SettingsData::list_of_items))]
pub(crate) fn list_of<'v>(value: &'v Value, key: &str) -> Result<&'v [Value], TextFault>
    ensures { GivesKept (λ values. map view values.now) result (list_at key.now (view value.now)) }
{
    match value.get(key) {
        Some(member) => match member.as_array() {
            Some(values) => Ok(values.as_slice()),
            None => Err(TextFault::NotSettings),
        },
        None => Err(TextFault::NotSettings),
    }
}

fn copy_of(alloc: Global, text: &str) -> Result<String, TextFault>
    ensures { GivesKept string_bytes result (Some text.now) }
{
    match String::from_str(alloc, text) {
        Ok(copy) => Ok(copy),
        Err(_) => Err(TextFault::NoMemory),
    }
}

#[tactic(auto, unfolding(crate::specs::Reading::name_at))]
pub(crate) fn name_of(alloc: Global, value: &Value, key: &str) -> Result<Name, TextFault>
    ensures { GivesKept (λ n. n) result (name_at key.now (view value.now)) }
{
    match Name::new(copy_of(alloc, text_of(value, key)?)?) {
        Some(name) => Ok(name),
        None => Err(TextFault::NotSettings),
    }
}

#[tactic(auto, unfolding(crate::specs::Reading::path_name_at))]
pub(crate) fn path_name_of(alloc: Global, value: &Value, key: &str) -> Result<PathName, TextFault>
    ensures { GivesKept (λ n. n) result (path_name_at key.now (view value.now)) }
{
    match PathName::new(copy_of(alloc, text_of(value, key)?)?) {
        Some(name) => Ok(name),
        None => Err(TextFault::NotSettings),
    }
}

#[tactic(auto, unfolding(crate::specs::Reading::base_at))]
pub(crate) fn base_of(alloc: Global, value: &Value, key: &str) -> Result<Base, TextFault>
    ensures { GivesKept (λ b. b) result (base_at key.now (view value.now)) }
{
    match Base::new(copy_of(alloc, text_of(value, key)?)?) {
        Some(base) => Ok(base),
        None => Err(TextFault::NotSettings),
    }
}

/// A number of items, up to the largest window.
#[tactic(auto, unfolding(crate::specs::Reading::number_at))]
pub(crate) fn number_of(value: &Value, key: &str) -> Result<u32, TextFault>
    ensures { GivesKept (λ n. n) result (number_at key.now (view value.now)) }
{
    let number = whole_of(value, key)?;
    if number <= MOST_WINDOW {
        Ok(number as u32)
    } else {
        Err(TextFault::NotSettings)
    }
}

/// A pace, or the default where none is told.
#[tactic(auto, unfolding(crate::specs::Reading::pace_at))]
pub(crate) fn pace_of(value: &Value, key: &str, default: Pace) -> Result<Pace, TextFault>
    ensures { GivesKept (λ p. p) result (pace_at default key.now (view value.now)) }
{
    match value.get(key) {
        Some(member) => match member.as_str() {
            Some(word) => match Pace::of_word(word) {
                Some(pace) => Ok(pace),
                None => Err(TextFault::NotSettings),
            },
            None => Err(TextFault::NotSettings),
        },
        None => Ok(default),
    }
}

/// What a window changes by, if it may, or the default where that isn't told.
#[tactic(auto, unfolding(crate::specs::Reading::factor_at))]
pub(crate) fn factor_of(value: &Value, key: &str, default: u32) -> Result<u32, TextFault>
    ensures { GivesKept (λ n. n) result (factor_at default key.now (view value.now)) }
{
    match value.get(key) {
        Some(member) => match member.as_u64() {
            Some(number) => {
                if is_factor(number) {
                    Ok(number as u32)
                } else {
                    Err(TextFault::NotSettings)
                }
            }
            None => Err(TextFault::NotSettings),
        },
        None => Ok(default),
    }
}

/// A truth value, or false where none is told.
#[tactic(auto, unfolding(crate::specs::Reading::flag_at))]
pub(crate) fn flag_of(value: &Value, key: &str) -> Result<bool, TextFault>
    ensures { GivesKept (λ b. b) result (flag_at key.now (view value.now)) }
{
    match value.get(key) {
        Some(member) => match member.as_bool() {
            Some(truth) => Ok(truth),
            None => Err(TextFault::NotSettings),
        },
        None => Ok(false),
    }
}

//! What is answered to a text, as a text: none where memory was refused, or where there is no such way to ask.
use crate::texts::replied::replied;
use gate_config::{ConfigFault, read};
use gate_kept_settings::{TextFault, read_text};
use gate_types::canonical::canonical;
use gate_types::config::Config;
use gate_types::deliveries::Refusal;
use gate_types::numbers::ChangeNo;
use gate_wire::{Door, needs, read_delivery};
use std::alloc::Global;

/// The number of a refusal.
fn refused(alloc: Global, refusal: Refusal) -> Option<String> {
    let number = match refusal {
        Refusal::BadJson => "E1",
        Refusal::BadDelivery => "E2",
        Refusal::WrongDoor => "E3",
        Refusal::TooManyNeeds => "E13",
        Refusal::Unavailable => return None,
        _ => "another refusal",
    };
    number.to_string(alloc).ok()
}

/// The canonical text of what bytes say at a door.
fn said(alloc: Global, bytes: &[u8], door: Door) -> Option<String> {
    match read_delivery(alloc, bytes, door) {
        Ok((_id, delivery)) => canonical(alloc, &delivery).ok(),
        Err(refusal) => refused(alloc, refusal),
    }
}

/// The id that bytes are under.
fn identified(alloc: Global, bytes: &[u8]) -> Option<String> {
    match read_delivery(alloc, bytes, Door::Forge) {
        Ok((id, _delivery)) => {
            let id = u128::from_be_bytes(id.0);
            format!(in alloc; "{id:032x}").ok()
        }
        Err(refusal) => refused(alloc, refusal),
    }
}

fn settings_text(alloc: Global, config: &Config, is_whole: bool) -> Option<String> {
    if is_whole {
        config.text(alloc).ok()
    } else {
        "sound".to_string(alloc).ok()
    }
}

/// The number and the word of a fault.
fn fault_text(alloc: Global, fault: ConfigFault) -> Option<String> {
    if fault == ConfigFault::NoMemory {
        return None;
    }
    let (number, word) = (fault.number(), fault.word());
    format!(in alloc; "{number} {word}").ok()
}

/// The settings that a file says, by their whole text or just that they are `sound`; or its fault.
fn read_settings(alloc: Global, file: &[u8], is_whole: bool) -> Option<String> {
    match read(alloc, file) {
        Ok(config) => settings_text(alloc, &config, is_whole),
        Err(fault) => fault_text(alloc, fault),
    }
}

/// The settings that a kept text tells, by their text, or that it tells none.
fn read_kept(alloc: Global, text: &[u8]) -> Option<String> {
    match read_text(alloc, text) {
        Ok(config) => config.text(alloc).ok(),
        Err(TextFault::NotSettings) => "no settings".to_string(alloc).ok(),
        Err(TextFault::NoMemory) => None,
    }
}

fn numbers(alloc: Global, changes: &[ChangeNo]) -> Option<String> {
    let mut numbers = Vec::new(alloc);
    for change in changes {
        numbers.push(change.get()).ok()?;
    }
    format!(in alloc; "{numbers:?}").ok()
}

/// The changes that a message needs over the base that stands before it.
fn needed(alloc: Global, asked: &[u8]) -> Option<String> {
    let (base, message) = str::from_utf8(asked).ok()?.split_once('|')?;
    match needs(alloc, base, message) {
        Ok(found) => numbers(alloc, &found),
        Err(refusal) => refused(alloc, refusal),
    }
}

pub(crate) fn answer(alloc: Global, way: &str, asked: &[u8]) -> Option<String> {
    match way {
        "forge" => said(alloc, asked, Door::Forge),
        "worker" => said(alloc, asked, Door::Worker),
        "any" => said(alloc, asked, Door::Any),
        "id" => identified(alloc, asked),
        "settings" => read_settings(alloc, asked, true),
        "fault" => read_settings(alloc, asked, false),
        "kept" => read_kept(alloc, asked),
        "needs" => needed(alloc, asked),
        "reply" => replied(alloc, asked),
        _ => None,
    }
}

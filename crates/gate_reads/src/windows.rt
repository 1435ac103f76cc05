//! The window that a delivery leaves of the queue of the item that it touched.
ghost use Rattle.std.specs.Prelude.{◌≡◌, option_copied};
ghost use Rattle.gate_reads.specs.Windows as rules;

use crate::touched::Event;
use gate_queue_rules::{grow, shrink};
use gate_types::config::{Queue, WindowRule};
use gate_types::records::Verdict;

fn window_by(event: Event, floor: u32, rule: WindowRule, window: u32) -> u32
    ensures { result ≡ rules.window_now event (record { floor = floor; rule = rule }) window }
{
    match event {
        Event::Landed => grow(window, rule),
        Event::Left(Verdict::Refused) => shrink(window, floor, rule),
        _ => window,
    }
}

/// The window of a queue once this befell one of its items: a landing grows it, a refusal by the forge shrinks it. A
/// queue that the settings don't name goes by the defaults.
pub fn window_now(event: Event, settings: Option<&Queue>, window: u32) -> u32
    ensures { result ≡ rules.window_now event (rules.bounds_if (option_copied settings.entry)) window }
{
    match settings {
        Some(settings) => window_by(event, settings.floor, settings.rule, window),
        None => window_by(event, 1, WindowRule::default(), window),
    }
}

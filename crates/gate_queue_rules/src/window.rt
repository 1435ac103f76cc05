//! How many items of a queue may be tested at once.
ghost use Rattle.std.specs.Prelude.{◌≡◌, ◌/◌};
ghost use Rattle.gate_types.specs.Window as rules;
ghost use Rattle.gate_queue_rules.specs.Edits as edits_of;

use gate_types::config::{Pace, WindowRule};
use gate_types::limits::MOST_WINDOW;
use gate_types::records::Verdict;

/// The largest window.
const MOST: u32 = MOST_WINDOW as u32;

/// The window after a landing: more by the queue's rule, up to 1,000. A window of 0 sets no bound and
/// stays 0.
pub fn grow(window: u32, rule: WindowRule) -> u32
    ensures { result ≡ rules.grow window rule }
{
    if window == 0 {
        return 0;
    }
    match rule.increase {
        Pace::Linear => window.saturating_add(rule.increase_by).min(MOST),
        Pace::Exponential => window.saturating_mul(rule.increase_by).min(MOST),
    }
}

/// The window after a failure: less by the queue's rule, rounded down, and never below the floor. A window
/// of 0 sets no bound and stays 0.
pub fn shrink(window: u32, floor: u32, rule: WindowRule) -> u32
    ensures { result ≡ rules.shrink window floor rule }
{
    if window == 0 {
        return 0;
    }
    match rule.decrease {
        Pace::Linear => window.saturating_sub(rule.decrease_by).max(floor),
        Pace::Exponential => divided(window, rule.decrease_by).max(floor),
    }
}

/// The window behind an item with a verdict: each failure shrinks it.
pub fn window_behind(window: u32, floor: u32, rule: WindowRule, verdict: Option<Verdict>) -> u32
    ensures { result ≡ edits_of.window_behind (record { floor = floor; rule = rule }) window verdict }
{
    match verdict {
        Some(Verdict::Failed) => shrink(window, floor, rule),
        _ => window,
    }
}

/// Rounded down; 0 where it is divided by 0, which no settings say.
fn divided(window: u32, by: u32) -> u32
    ensures { result ≡ window / by }
{
    if by == 0 { 0 } else { window / by }
}

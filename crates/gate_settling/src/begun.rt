//! A walk before its first visit.
ghost use Rattle.std.specs.Prelude.{◌≡◌, option_map, IfOk, MatchOption};
ghost use Rattle.gate_types.specs.Once.{Content};
ghost use Rattle.gate_walk.specs.TakenOut.{out_of};
ghost use Rattle.gate_walk.specs.UnderWay.{Starts};
ghost use Rattle.gate_settling.specs.Rows as rows;
ghost use Rattle.gate_settling.specs.Touching.{Touching, delivered};

use crate::rows::{has_landed, is_out};
use gate_reads::{TouchedItem, window_now};
use gate_types::config::Config;
use gate_types::names::NoMemory;
use gate_types::numbers::LAST_NUMBER;
use gate_walk::{QueueFacts, TakenOut, Touched, Walk};
use std::alloc::Global;

fn taken_out(touched: &TouchedItem) -> Option<TakenOut>
    ensures { option_map out_of result ≡ rows.taken_out touched.now }
{
    if is_out(touched.event) {
        Some(TakenOut {
            change: touched.item.change,
            failing: touched.item.failing,
            landed: has_landed(touched.event),
        })
    } else {
        None
    }
}

fn starting_point(touched: &TouchedItem) -> Touched
    ensures serial { result.serial ≡ touched.now.item.serial }
    ensures ahead { result.ahead ≡ touched.now.item.ahead }
    ensures out { option_map out_of result.out ≡ rows.taken_out touched.now }
{
    Touched {
        serial: touched.item.serial,
        ahead: touched.item.ahead,
        out: taken_out(touched),
    }
}

/// The walk for a touched item, before its first visit; none where its queue isn't there.
pub(crate) fn begun(
    alloc: Global,
    config: &Config,
    touched: &TouchedItem,
) -> Result<Option<Walk>, NoMemory>
    ensures { IfOk result (λ found. (x : Content) (h : Touching config.now x touched.now) →
        MatchOption found ⊥ (λ walk. Starts (delivered h) walk)) }
{
    let Some(settings) = config.queue(touched.queue.as_str()) else {
        return Ok(None);
    };
    let Some(window) = touched.figures.window else {
        return Ok(None);
    };
    let before = touched.figures.reports;
    if before >= LAST_NUMBER {
        return Ok(None);
    }
    let reports = if is_out(touched.event) {
        before + 1
    } else {
        before
    };
    let facts = QueueFacts {
        settings,
        window: window_now(touched.event, Some(settings), window),
        reports,
    };
    Ok(Some(Walk::start(alloc, facts, starting_point(touched))?))
}

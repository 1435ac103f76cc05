//! What is told of the builds of an item.
ghost use Rattle.std.specs.Prelude.{◌≡◌, ◌==◌, ◌++◌, [], find, option_map, IfOk, OnOk};
ghost use Rattle.std.specs.List.{filter_map, cons_option};
ghost use Rattle.std.specs.Option.{option_copied};
ghost use Rattle.gate_types.specs.Rising.{RisesFrom};
ghost use Rattle.gate_archive.specs.ItemText.{last_of, summary_of};
ghost use Rattle.gate_memory.specs.Builds.{number_of_build};

use crate::pairs::Pair;
use crate::sorted;
use gate_archive::BuildSummary;
use gate_types::names::NoMemory;
use gate_types::records::Build;
use gate_types::sequence::Sequence;
use std::alloc::Global;

fn push_summary(found: &mut Sequence<BuildSummary>, build: Option<&Build>) -> Result<(), NoMemory>
    ensures { OnOk result (found.new
        ≡ found.old ++ cons_option (option_map summary_of (option_copied build.entry)) []) }
{
    if let Some(build) = build {
        found.push(BuildSummary {
            number: build.number,
            job: build.job.copy()?,
            live: build.live,
            outcome: build.outcome,
        })?;
    }
    Ok(())
}

/// What is told of the builds of the numbers that the pairs tell.
pub fn summaries(
    alloc: Global,
    rows: &[Build],
    pairs: &[Pair],
) -> Result<Sequence<BuildSummary>, NoMemory>
    requires { RisesFrom number_of_build 0 rows.now }
    ensures { IfOk result (λ found. found ≡ filter_map
        (λ p. option_map summary_of (find (λ b. b.number == p.second) rows.now)) pairs.now) }
{
    let mut found = Sequence::new(alloc);
    for pair in pairs {
        push_summary(&mut found, sorted::at(rows, pair.second as u128))?;
    }
    Ok(found)
}

/// The last pairs, no more than `most`.
pub fn last(pairs: &[Pair], most: u32) -> &[Pair]
    ensures { result.now ≡ last_of most pairs.now }
{
    &pairs[pairs.len().saturating_sub(most as usize)..]
}

//! What is left of the fuel.
ghost use Rattle.std.specs.Prelude.{◌≡◌, ◌+◌, ◌<◌, map, get_or, MatchOption};
ghost use Rattle.dp_lean_epoch.specs.LeanBatch.{steps_among};
ghost use Rattle.dp_lean_machine.specs.Held.{held_in};

use dp_lean_machine::StageColumns;

/// How many steps a stage counted at an iteration.
#[inline(always)]
fn counted(steps: &[u32], place: usize) -> u64
    ensures { result ≡ get_or steps.now place 0 }
{
    match steps.get(place) {
        Some(count) => *count as u64,
        None => 0,
    }
}

/// What is left of the fuel behind the steps of an iteration in all stages, if it is enough for them.
pub(crate) fn left_behind(left: u64, stages: &[StageColumns], place: usize) -> Option<u64>
    ensures { MatchOption result (left < steps_among (map held_in stages.now) place) (λ after. left ≡ after + steps_among (map held_in stages.now) place) }
{
    let mut after = left;
    for columns in stages {
        after = match after.checked_sub(counted(columns.steps.as_slice(), place)) {
            Some(less) => less,
            None => return None,
        };
    }
    Some(after)
}

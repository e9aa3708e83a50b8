//! The pipeline of the epoch that begins behind what is committed.
ghost use Rattle.std.specs.Prelude.{◌≡◌, ◌≤◌, IfOk};
ghost use Rattle.dp_semantics.specs.EpochCauses.{IsSound};
ghost use Rattle.dp_epoch.specs.InEpoch.{key_here, none_given};

use crate::ledger::Ledger;
use dp_base::NoMemory;
use dp_pipeline::{Begin, CrewSize, Pipeline};
use dp_prepared::PreparedRegion;
use dp_stop::StopSetter;
use std::alloc::Global;

/// Makes the pipeline of the epoch that begins behind what is committed. Its units look at the flag of the setter.
pub fn pipeline_here<'u, 'p>(
    alloc: Global,
    region: &'u PreparedRegion<'p>,
    input: &'u [i64],
    size: CrewSize,
    ledger: &Ledger<'_, '_>,
    setter: &mut StopSetter,
) -> Result<Pipeline<'u>, NoMemory>
    requires sound { IsSound (key_here region.now.program region.now.plan input.now ledger.now.committed) }
    requires fuel { ledger.now.committed.machine.fuel ≤ 1000000000 }
    ensures setter { setter.new ≡ setter.old }
    ensures verdicts { IfOk result
        (λ made. made.verdicts ≡ none_given (key_here region.now.program region.now.plan input.now ledger.now.committed)) }
{
    let committed = &ledger.committed;
    let begin = Begin {
        first: committed.count(),
        base: committed.cells(),
        steps: committed.steps(),
        fuel: committed.fuel(),
    };
    Pipeline::new(alloc, region, input, begin, size, setter)
}

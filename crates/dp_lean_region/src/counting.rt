//! How many stages a plan has.
ghost use Rattle.std.specs.Prelude.{◌≡◌, IfOk, length};

use dp_plan::Plan;
use dp_room::NoMemory;

/// The number of the plan's stages.
pub(crate) fn stage_count(plan: &Plan) -> Result<u32, NoMemory>
    ensures { IfOk result (λ count. count ≡ length plan.now.stages) }
{
    match u32::try_from(plan.stages.len()) {
        Ok(count) => Ok(count),
        Err(_) => Err(NoMemory),
    }
}

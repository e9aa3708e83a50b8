//! A run that is counted while it is made.
ghost use Rattle.std.specs.Prelude.{◌≡◌, IfOk};
ghost use Rattle.dp_tree.specs.Inlined.{IsInlined};
ghost use Rattle.dp_profile.specs.Observed.{observed};
ghost use Rattle.dp_observe.specs.steps.Running.{Ran};

use crate::board::Board;
use crate::frame::Seen;
use crate::profile::profiles;
use dp_base::{End, NoMemory, Row};
use dp_meaning::{Loads, Machine, Sight};
use dp_profile::{Observed, Profile, regions_of};
use dp_tree::Program;
use std::alloc::Global;

/// Makes all steps that are left, and counts each.
fn run(alloc: Global, machine: &mut Machine<'_>, board: &mut Board) -> Result<End, NoMemory>
    ensures { IfOk result (λ end. Ran end machine.old board.old board.new) }
{
    let mut out = Row::new(alloc);
    let mut loads = Loads::new(alloc);
    loop {
        out.clear();
        match machine.watch(&mut out, &mut loads)? {
            Sight::Finished => return Ok(End::Done),
            Sight::Fuel => return Ok(End::Fuel),
            Sight::Fault(fault) => return Ok(End::Fault(fault)),
            Sight::Step { site, effect } => board.note(Seen {
                site,
                effect,
                cells: loads.cells.as_slice(),
                after: machine.steps(),
            })?,
        }
    }
}

/// What a run of the program shows of its regions, and how it ends.
pub fn observe(
    alloc: Global,
    program: &Program,
    input: &[i64],
    fuel: u64,
) -> Result<Observed, NoMemory>
    requires { IsInlined program.now }
    ensures { IfOk result (λ shown. shown ≡ observed program.now input.now fuel) }
{
    let sites = regions_of(alloc, program)?;
    let mut board = Board::new(alloc, program, sites.as_slice())?;
    let mut machine = Machine::new(alloc, program, input, fuel)?;
    let end = run(alloc, &mut machine, &mut board)?;
    let regions = profiles(alloc, sites.as_slice(), board.counters.as_slice())?;
    Ok(Observed {
        profile: Profile { regions },
        end,
    })
}

ghost use Rattle.std.specs.Prelude.{◌≡◌, true};
ghost use Rattle.dp_tree.specs.GoesOn.{GoesOn, GoesOnFrom};
ghost use Rattle.dp_tree.specs.InMain.{StandsInMain, StaysInMain};
ghost use Rattle.dp_tree.specs.IterationLaws.{IterationsAdjoin};
ghost use Rattle.dp_tree.specs.RegionLaws.{RegionsAreIterations};
ghost use Rattle.dp_tree.specs.Numbering.{regions_in_order};
ghost use Rattle.dp_tree.specs.RunLaws.{FuelExtends, RunsByStep};
ghost use Rattle.dp_tree.specs.Trace.{begin};

use crate::Program;

/// A trace under a smaller fuel is a front of the one under a larger fuel, and more fuel changes no end but spent fuel.
pub fn less_fuel_gives_a_front(p: &Program, input: &[i64])
    ensures front { FuelExtends p.now input.now }
{}

/// A run has an event for each of its steps, at most as many as its fuel, and one configuration more.
pub fn a_run_goes_by_steps(p: &Program, input: &[i64])
    ensures by_step { RunsByStep p.now input.now }
{}

/// The iterations of a region follow each other without a gap and without overlap.
pub fn iterations_adjoin(p: &Program, input: &[i64])
    ensures adjoin { IterationsAdjoin p.now input.now }
{}

/// The events at a region's sites are those of its iterations, one iteration after the other, in a program in which
/// the region stands once and its sites nowhere else.
pub fn a_region_is_its_iterations(p: &Program, input: &[i64])
    ensures made_up { RegionsAreIterations p.now input.now }
{}

/// A run goes on from each of its configurations as the run from there does, with the same iterations.
pub fn a_run_goes_on(p: &Program, input: &[i64])
    ensures so { GoesOn p.now input.now }
    ensures from_an_iteration { GoesOnFrom p.now input.now }
{}

/// A run begins within `main`, with as many cells as the program has, and each of its configurations stands there.
pub fn runs_stay_in_main(p: &Program, input: &[i64])
    requires { regions_in_order 1 p.now.main ≡ true }
    ensures begins { StandsInMain p.now (begin p.now) }
    ensures stays { StaysInMain p.now input.now }
{}

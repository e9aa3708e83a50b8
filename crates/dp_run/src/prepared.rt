//! A program that is ready to be run.
ghost use Rattle.std.specs.Prelude.{◌≡◌, Bool, map, IfOk};
ghost use Rattle.dp_prepared.specs.Planned.{prepared_of};
ghost use Rattle.dp_run_plan.specs.Others.{AreOthers};
ghost use Rattle.dp_run.specs.Given.{AreGiven};

use dp_base::{NoMemory, Row};
use dp_plan::Plan;
use dp_run_plan::{RunPlans, RunRegion, prepare};
use dp_tree::Program;
use std::alloc::Global;
use std::marker::Model;

/// A program and its regions, each ready to be run under its plan. It is made once, for all runs.
pub struct PreparedProgram<'p> {
    program: &'p Program,
    regions: Row<RunRegion<'p>>,
}

// By hand, so that a crate above doesn't prove again how all that it holds is dropped.
impl<'p> Drop for PreparedProgram<'p> {
    fn drop(self) {
        let PreparedProgram {
            program: _,
            regions: _,
        } = self;
    }
}

impl<'p> Model for PreparedProgram<'p> {
    ghost use Rattle.dp_tree.specs.contracts.Expr as expr;
    ghost use Rattle.dp_tree.specs.contracts.Stmt as stmt;
    ghost use Rattle.std.specs.Coded.{codes};
    ghost use Rattle.dp_run.specs.Given.{AreGiven};
    ghost use Rattle.dp_run.specs.Prepared.{AreOf, PlannedProgram, plans_in};

    ghost Value = { PlannedProgram };

    ghost coded = { Prim.hlevel (codes, expr.the_row.coded, stmt.the_row.coded) };

    ghost view = { λ s. record { program = s.program.now; plans = plans_in s.regions } };

    ghost invariant = { λ s. AreGiven s.program.now (plans_in s.regions) × AreOf s.program.now s.regions };
}

impl<'p> PreparedProgram<'p> {
    /// The program with these plans, one for each of its regions, and with the run plans of these.
    pub fn new(
        alloc: Global,
        program: &'p Program,
        plans: &'p [Plan],
        others: &'p RunPlans,
    ) -> Result<PreparedProgram<'p>, NoMemory>
        requires given { AreGiven program.now plans.now }
        requires others { AreOthers program.now plans.now others.now }
        ensures { IfOk result (λ made. made ≡ record { program = program.now; plans = plans.now }) }
    {
        let regions = prepare(alloc, program, plans, others)?;
        Ok(PreparedProgram { program, regions })
    }

    pub fn program(&self) -> &'p Program
        ensures program { result.now ≡ self.now.program }
        ensures given { AreGiven self.now.program self.now.plans }
    {
        self.program
    }

    /// The regions, in order.
    pub fn regions(&self) -> &[RunRegion<'p>]
        ensures { result.now ≡ map (prepared_of self.now.program) self.now.plans }
    {
        self.regions.as_slice()
    }
}

//! A region under its plan, made ready once for all its epochs.
ghost use Rattle.std.specs.Prelude.{◌≡◌, ◌≤◌, IfOk};
ghost use Rattle.dp_prepared.specs.Planned.{IsPlanned};

use dp_base::NoMemory;
use dp_lean_region::{Line, RegionTables};
use dp_plan::Plan;
use dp_tree::Program;
use std::alloc::Global;
use std::marker::Model;

/// A program, a plan for one of its regions, and what each epoch of that region needs of them.
pub struct PreparedRegion<'p> {
    tables: RegionTables<'p>,
}

// By hand, so that a crate above doesn't prove again how all that a region holds is dropped.
impl<'p> Drop for PreparedRegion<'p> {
    fn drop(self) {
        let PreparedRegion { tables: _ } = self;
    }
}

impl<'p> Model for PreparedRegion<'p> {
    ghost use Rattle.dp_tree.specs.contracts.Expr as expr;
    ghost use Rattle.dp_tree.specs.contracts.Stmt as stmt;
    ghost use Rattle.std.specs.Coded.{codes};
    ghost use Rattle.dp_prepared.specs.Planned.{IsPlanned, Prepared, prepared_of};

    ghost Value = { Prepared };

    ghost coded = { Prim.hlevel (codes, expr.the_row.coded, stmt.the_row.coded) };

    ghost view = { λ r. prepared_of r.tables.program r.tables.plan };

    ghost invariant = { λ r. IsPlanned r.tables.program r.tables.plan };
}

impl<'p> PreparedRegion<'p> {
    ghost use Rattle.dp_lean_region.specs.Line.{line_plan, line_program};

    /// The region of a plan that is given for the program.
    pub fn new(
        alloc: Global,
        program: &'p Program,
        plan: &'p Plan,
    ) -> Result<PreparedRegion<'p>, NoMemory>
        requires planned { IsPlanned program.now plan.now }
        ensures { IfOk result (λ r. r ≡ record { program = program.now; plan = plan.now }) }
    {
        let tables = RegionTables::new(alloc, program, plan)?;
        Ok(PreparedRegion { tables })
    }

    /// The program.
    pub fn program(&self) -> &Program
        ensures value { result.now ≡ self.now.program }
        ensures planned { IsPlanned self.now.program self.now.plan }
    {
        self.tables.program()
    }

    /// The region's plan.
    pub fn plan(&self) -> &Plan
        ensures { result.now ≡ self.now.plan }
    {
        self.tables.plan()
    }

    /// The region's number, from 1.
    pub fn number(&self) -> u32
        ensures value { result ≡ self.now.plan.region }
        ensures planned { IsPlanned self.now.program self.now.plan }
    {
        self.tables.plan().region
    }

    /// How many iterations of an epoch go together at most.
    pub fn cap(&self) -> u64
        ensures { result ≤ 64 }
    {
        self.tables.cap()
    }

    /// What the stages of its epochs and their judge run on, with an input.
    pub fn line<'u>(&'u self, input: &'u [i64]) -> Line<'u>
        ensures program { line_program result ≡ self.entry.now.program }
        ensures plan { line_plan result ≡ self.entry.now.plan }
        ensures input { result.input.now ≡ input.entry.now }
        ensures planned { IsPlanned self.entry.now.program self.entry.now.plan }
    {
        self.tables.line(input)
    }
}

//! A region that may be run under two plans.
ghost use Rattle.std.specs.Prelude.{◌≡◌, IfOk};
ghost use Rattle.std.specs.Option.{IfSome, option_copied, option_map};
ghost use Rattle.dp_prepared.specs.Planned.{IsPlanned, prepared_of};
ghost use Rattle.dp_run_plan.specs.Others.{MayRunAs, RunsAs};

use dp_base::NoMemory;
use dp_plan::Plan;
use dp_prepared::PreparedRegion;
use dp_tree::Program;
use std::alloc::Global;
use std::marker::Model;

/// A region, made ready, and the same region under other plans that it may be run under, if there are such.
pub struct RunRegion<'p> {
    region: PreparedRegion<'p>,
    other: Option<PreparedRegion<'p>>,
    whole: Option<PreparedRegion<'p>>,
}

// By hand, so that a crate above doesn't prove again how all that a region holds is dropped.
impl<'p> Drop for RunRegion<'p> {
    fn drop(self) {
        let RunRegion {
            region: _,
            other: _,
            whole: _,
        } = self;
    }
}

impl<'p> Model for RunRegion<'p> {
    ghost use Rattle.dp_tree.specs.contracts.Expr as expr;
    ghost use Rattle.dp_tree.specs.contracts.Stmt as stmt;
    ghost use Rattle.std.specs.Coded.{codes};
    ghost use Rattle.dp_prepared.specs.Planned.{Prepared};
    ghost use Rattle.dp_run_plan.specs.Others.{HasOther};

    ghost Value = { Prepared };

    ghost coded = { Prim.hlevel (codes, expr.the_row.coded, stmt.the_row.coded) };

    ghost view = { λ r. r.region };

    ghost invariant = { λ r. HasOther r.region r.other × HasOther r.region r.whole };
}

/// The region under the other plan, if there is one.
fn other_region<'p>(
    alloc: Global,
    program: &'p Program,
    plan: &'p Plan,
    other: Option<&'p Plan>,
) -> Result<Option<PreparedRegion<'p>>, NoMemory>
    requires { MayRunAs program.now plan.now (option_copied other) }
    ensures { IfOk result (λ made. made ≡ option_map (prepared_of program.now) (option_copied other.entry)) }
{
    match other {
        Some(other) => {
            let region = PreparedRegion::new(alloc, program, other)?;
            Ok(Some(region))
        }
        None => Ok(None),
    }
}

impl<'p> RunRegion<'p> {
    /// The region of a plan that is given for the program, and of other ones, if there are such.
    pub(crate) fn new(
        alloc: Global,
        program: &'p Program,
        plan: &'p Plan,
        other: Option<&'p Plan>,
        whole: Option<&'p Plan>,
    ) -> Result<RunRegion<'p>, NoMemory>
        requires planned { IsPlanned program.now plan.now }
        requires other { MayRunAs program.now plan.now (option_copied other) }
        requires whole { MayRunAs program.now plan.now (option_copied whole) }
        ensures { IfOk result (λ r. r ≡ prepared_of program.now plan.now) }
    {
        let other = other_region(alloc, program, plan, other)?;
        let whole = other_region(alloc, program, plan, whole)?;
        let region = PreparedRegion::new(alloc, program, plan)?;
        Ok(RunRegion {
            region,
            other,
            whole,
        })
    }

    /// The region under its own plan.
    pub fn region(&self) -> &PreparedRegion<'p>
        ensures { result.now ≡ self.now }
    {
        &self.region
    }

    /// The region under the one-stage form of its plan, under which it may be run.
    pub fn other(&self) -> Option<&PreparedRegion<'p>>
        ensures { IfSome result (λ other. RunsAs self.now other.now) }
    {
        self.other.as_ref()
    }

    /// The region under a plan that keeps inner loops whole, under which it may be run.
    pub fn whole(&self) -> Option<&PreparedRegion<'p>>
        ensures { IfSome result (λ whole. RunsAs self.now whole.now) }
    {
        self.whole.as_ref()
    }

    /// The program.
    pub fn program(&self) -> &Program
        ensures value { result.now ≡ self.now.program }
        ensures planned { IsPlanned self.now.program self.now.plan }
    {
        self.region.program()
    }

    /// The region's plan.
    pub fn plan(&self) -> &Plan
        ensures { result.now ≡ self.now.plan }
    {
        self.region.plan()
    }

    /// The region's number, from 1.
    pub fn number(&self) -> u32
        ensures value { result ≡ self.now.plan.region }
        ensures planned { IsPlanned self.now.program self.now.plan }
    {
        self.region.number()
    }
}

//! Which variables the stages need, and where those that nobody else asks for are at home.

ghost use Rattle.std.specs.Prelude.{◌≡◌, ◌<◌, ◌&&◌, IfOk, length, map};
ghost use Rattle.std.specs.List.{list_all, list_any};
ghost use Rattle.dp_tree.specs.Numbering.{numbers_from};
ghost use Rattle.dp_plan.specs.Access.{stores_var};
ghost use Rattle.dp_plan.specs.Stage.{is_body_local, stage_of};
ghost use Rattle.dp_plan.specs.CheckedTable.{IsTabled};
ghost use Rattle.dp_semantics.specs.Fits.{has_cell};
ghost use Rattle.dp_semantics.specs.Judge.{last};
ghost use Rattle.dp_net.specs.Hidden as hidden;
ghost use Rattle.dp_lean.specs.Needed as needed;
ghost use Rattle.dp_lean_code.specs.steps.Accesses.{access_of};
ghost use Rattle.dp_lean_code.specs.steps.Needs as spec;

use crate::access::SiteAccess;
use dp_base::{NoMemory, Row, SiteId, VarId};
use dp_code::length_of;
use dp_plan::Plan;
use dp_tree::Program;
use std::alloc::Global;

/// A region's sites, with its plan.
#[derive(Clone, Copy)]
pub struct Needs<'a> {
    pub program: &'a Program,
    pub plan: &'a Plan,
    pub accesses: &'a [SiteAccess],
}

impl<'a> Needs<'a> {
    fn is_judge(self, stage: u32) -> bool
        ensures { result ≡ needed.is_judge self.entry.program.now self.entry.plan.now stage }
    {
        self.plan.stages.len() < stage as usize
    }

    fn stage(self, access: &SiteAccess) -> u32
        ensures { result ≡ stage_of self.entry.program.now self.entry.plan.now access.now.site }
    {
        self.plan.stage(self.program, SiteId(access.site))
    }

    /// The site loads the variable.
    fn loads(self, access: &SiteAccess, var: u32) -> bool
        ensures { result ≡ hidden.loads_var self.entry.program.now self.entry.plan.now var (access_of access.now) }
    {
        for load in access.loads.as_slice() {
            if *load == var {
                return true;
            }
        }
        false
    }

    /// A site of the stage loads the variable.
    fn is_loaded_in(self, stage: u32, var: u32) -> bool
        ensures { result ≡ list_any (needed.loads_in self.entry.program.now self.entry.plan.now stage var) (spec.accesses_in self.entry.accesses.now) }
    {
        for access in self.accesses {
            if self.stage(access) == stage && self.loads(access, var) {
                return true;
            }
        }
        false
    }

    /// A checked site loads the variable.
    fn is_compared(self, var: u32) -> bool
        requires tabled { IsTabled self.program.now self.plan.now }
        ensures { result ≡ list_any (needed.compares self.entry.program.now self.entry.plan.now var) (spec.accesses_in self.entry.accesses.now) }
    {
        for access in self.accesses {
            if self.plan.checked(self.program, SiteId(access.site)) && self.loads(access, var) {
                return true;
            }
        }
        false
    }

    /// The stage loads the variable, or its workers do, which begin with the memory that it had before the iteration.
    fn is_wanted(self, stage: u32, var: u32) -> bool
        requires tabled { IsTabled self.program.now self.plan.now }
        requires few { stage < 4294967295 }
        ensures { result ≡ spec.wanted_among self.entry.program.now self.entry.plan.now (spec.accesses_in self.entry.accesses.now) stage var }
    {
        if self.is_judge(stage) {
            return self.is_compared(var);
        }
        self.is_loaded_in(stage, var)
            || (self.plan.is_replicated(stage + 1) && self.is_loaded_in(stage + 1, var))
    }

    /// The stage does stores to the variable.
    fn is_done_to(self, stage: u32, var: u32) -> bool
        requires tabled { IsTabled self.program.now self.plan.now }
        requires few { stage < 4294967295 }
        ensures { result ≡ spec.done_among self.entry.program.now self.entry.plan.now (spec.accesses_in self.entry.accesses.now) stage var }
    {
        self.is_wanted(stage, var)
            || (self.is_judge(stage) && !self.plan.is_body_local(self.program, VarId(var)))
    }

    /// The site stores the variable.
    fn stores(self, access: &SiteAccess, var: u32) -> bool
        ensures { result ≡ stores_var var (access_of access.now) }
    {
        match access.stores {
            Some(stored) => var == stored,
            None => false,
        }
    }

    /// The stage of the first site that loads the variable, or another one.
    fn first_loading(self, var: u32, other: u32) -> u32
        ensures { result ≡ hidden.first_stage self.entry.program.now self.entry.plan.now (hidden.loads_var self.entry.program.now self.entry.plan.now var) other
            (spec.accesses_in self.entry.accesses.now) }
    {
        for access in self.accesses {
            if self.loads(access, var) {
                return self.stage(access);
            }
        }
        other
    }

    /// The stage of the first site that stores the variable, or 0.
    fn first_storing(self, var: u32) -> u32
        ensures { result ≡ hidden.first_stage self.entry.program.now self.entry.plan.now (stores_var var) 0 (spec.accesses_in self.entry.accesses.now) }
    {
        for access in self.accesses {
            if self.stores(access, var) {
                return self.stage(access);
            }
        }
        0
    }

    /// Each site that loads the variable is of this stage, and isn't checked.
    fn is_kept_in(self, home: u32, var: u32) -> bool
        requires tabled { IsTabled self.program.now self.plan.now }
        ensures { result ≡ list_all (spec.keeps_to self.entry.program.now self.entry.plan.now (spec.accesses_in self.entry.accesses.now) home var)
            (spec.accesses_in self.entry.accesses.now) }
    {
        for access in self.accesses {
            let at_home = self.stage(access) == home
                && !self.plan.checked(self.program, SiteId(access.site));
            if self.loads(access, var) && !at_home {
                return false;
            }
        }
        true
    }

    /// The variable is a body local with a cell.
    fn is_local(self, var: u32) -> bool
        ensures { result ≡ (is_body_local self.entry.program.now self.entry.plan.now var && has_cell self.entry.program.now var) }
    {
        self.plan.is_body_local(self.program, VarId(var)) && 0 < length_of(self.program, VarId(var))
    }

    /// The home of a private variable: one that a stage alone loads, and no checked site.
    fn private_home(self, var: u32) -> Option<u32>
        requires tabled { IsTabled self.program.now self.plan.now }
        ensures { result ≡ spec.private_home self.entry.program.now self.entry.plan.now (spec.accesses_in self.entry.accesses.now) var }
    {
        let home = self.first_loading(var, self.first_storing(var));
        if self.is_local(var) && self.is_kept_in(home, var) {
            Some(home)
        } else {
            None
        }
    }

    /// The number of the variables.
    fn count(self) -> Result<u32, NoMemory>
        ensures { IfOk result (λ count. count ≡ length self.entry.program.now.vars) }
    {
        match u32::try_from(self.program.vars.len()) {
            Ok(count) => Ok(count),
            Err(_) => Err(NoMemory),
        }
    }

    /// The number that stands for the judge.
    fn last(self) -> Result<u32, NoMemory>
        ensures value { IfOk result (λ stage. stage ≡ last self.entry.plan.now) }
        ensures few { IfOk result (λ stage. stage < 4294967295) }
    {
        match u32::try_from(self.plan.stages.len()) {
            Ok(count) if count < u32::MAX - 1 => Ok(count + 1),
            _ => Err(NoMemory),
        }
    }

    /// The homes of the private variables, by variable.
    pub fn homes(self, alloc: Global) -> Result<Row<Option<u32>>, NoMemory>
        requires tabled { IsTabled self.program.now self.plan.now }
        ensures { IfOk result (λ homes. homes ≡ map (spec.private_home self.entry.program.now self.entry.plan.now (spec.accesses_in self.entry.accesses.now))
            (numbers_from 0 (length self.entry.program.now.vars))) }
    {
        let count = self.count()?;
        let mut homes = Row::new(alloc);
        for var in 0..count {
            homes.push(self.private_home(var))?;
        }
        Ok(homes)
    }

    /// Whether the stage does stores, by variable.
    fn done_in(self, alloc: Global, stage: u32) -> Result<Row<bool>, NoMemory>
        requires tabled { IsTabled self.program.now self.plan.now }
        requires few { stage < 4294967295 }
        ensures { IfOk result (λ row. row ≡ map (spec.done_among self.entry.program.now self.entry.plan.now (spec.accesses_in self.entry.accesses.now) stage)
            (numbers_from 0 (length self.entry.program.now.vars))) }
    {
        let count = self.count()?;
        let mut row = Row::new(alloc);
        for var in 0..count {
            row.push(self.is_done_to(stage, var))?;
        }
        Ok(row)
    }

    /// Whether a stage does stores, by stage and variable.
    pub fn done(self, alloc: Global) -> Result<Row<Row<bool>>, NoMemory>
        requires tabled { IsTabled self.program.now self.plan.now }
        ensures { IfOk result
            (λ rows. rows ≡ map (λ stage. map (spec.done_among self.entry.program.now self.entry.plan.now (spec.accesses_in self.entry.accesses.now) stage)
            (numbers_from 0 (length self.entry.program.now.vars))) (numbers_from 1 (last self.entry.plan.now))) }
    {
        let last = self.last()?;
        let mut rows = Row::new(alloc);
        for place in 0..last {
            let row = self.done_in(alloc, place + 1)?;
            rows.push(row)?;
        }
        Ok(rows)
    }
}

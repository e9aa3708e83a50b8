//! The table of a program's variables.

ghost use Rattle.std.specs.Prelude.{◌≡◌, ◌≤◌, ◌^◌, ◌∷◌, [], map, IfOk, OnErr, OnOk};
ghost use Rattle.std.specs.List.{flat_map};
ghost use Rattle.dp_tree.specs.declared.VarScope.TheVariants.{Outer};
ghost use Rattle.dp_check.specs.Place.{Local, parts, parts_all};
ghost use Rattle.dp_check.specs.Tables as spec;

use crate::place::next;
use crate::region::region_after;
use dp_base::{CellId, NoMemory, Row};
use dp_tree::{Name, RawItem, RawStmt, VarInfo, VarScope};
use std::alloc::Global;

/// The variables so far, one after the other in memory.
#[derive(Drop)]
pub struct Variables {
    pub alloc: Global,
    pub rows: Row<VarInfo>,
    /// How many cells they have.
    pub cells: u32,
}

/// A length as a number of cells.
fn cells_of(size: i64) -> Result<u32, NoMemory>
    ensures value { IfOk result (λ n. n ≡ spec.cells_in_length size) }
    ensures large { OnErr result (2 ^ 32 ≤ spec.cells_in_length size) }
{
    if size < 0 {
        return Ok(0);
    }
    u32::try_from(size).map_err(|_| NoMemory)
}

impl Variables {
    ghost use Rattle.dp_check.specs.steps.Growing.{with_variables};

    pub fn new(alloc: Global) -> Variables
        ensures { result ≡ record { alloc = alloc; rows = []; cells = 0 } }
    {
        Variables {
            alloc,
            rows: Row::new(alloc),
            cells: 0,
        }
    }

    fn scalar(&mut self, name: &Name, start: i64, scope: VarScope) -> Result<(), NoMemory>
        ensures { OnOk result (self.new ≡ with_variables self.old (spec.scalar_info name.now start scope ∷ [])) }
    {
        let cells = next(self.cells)?;
        let text = Row::from_slice(self.alloc, name.text.as_slice())?;
        self.rows.push(VarInfo {
            name: text,
            first: CellId(self.cells),
            length: 1,
            array: false,
            start,
            scope,
        })?;
        self.cells = cells;
        Ok(())
    }

    fn array(&mut self, name: &Name, size: i64) -> Result<(), NoMemory>
        ensures { OnOk result (self.new ≡ with_variables self.old (spec.array_info name.now size ∷ [])) }
    {
        let length = cells_of(size)?;
        let cells = self.cells.checked_add(length).ok_or(NoMemory)?;
        let text = Row::from_slice(self.alloc, name.text.as_slice())?;
        self.rows.push(VarInfo {
            name: text,
            first: CellId(self.cells),
            length,
            array: true,
            start: 0,
            scope: VarScope::Global,
        })?;
        self.cells = cells;
        Ok(())
    }

    fn global(&mut self, item: &RawItem) -> Result<(), NoMemory>
        ensures { OnOk result (self.new ≡ with_variables self.old (spec.global_of item.now)) }
    {
        match item {
            RawItem::Scalar { name, start } => self.scalar(name, *start, VarScope::Global),
            RawItem::Array { name, length } => self.array(name, *length),
            RawItem::Function { .. } => Ok(()),
        }
    }

    /// The file-scope variables.
    pub fn globals(&mut self, items: &[RawItem]) -> Result<(), NoMemory>
        ensures { OnOk result (self.new ≡ with_variables self.old (spec.globals items.now)) }
    {
        for item in items {
            self.global(item)?;
        }
        Ok(())
    }

    #[tactic(auto, using(crate::proofs::TableLemmas::local_forms))]
    #[cycle(locals)]
    fn local(&mut self, scope: VarScope, s: &RawStmt) -> Result<(), NoMemory>
        ensures { OnOk result (self.new ≡ with_variables self.old (spec.locals_of scope (parts s.now))) }
    {
        match s {
            RawStmt::Declare { name, .. } => self.scalar(name, 0, scope),
            RawStmt::If {
                then_part,
                else_part,
                ..
            } => {
                self.locals(scope, then_part.as_slice())?;
                self.locals(scope, else_part.as_slice())
            }
            RawStmt::While { body, .. } => self.locals(scope, body.as_slice()),
            RawStmt::For {
                first,
                step,
                body,
                ..
            } => {
                self.locals(scope, first.as_slice())?;
                self.locals(scope, body.as_slice())?;
                self.locals(scope, step.as_slice())
            }
            RawStmt::Assign { .. }
            | RawStmt::Store { .. }
            | RawStmt::Call { .. }
            | RawStmt::Print { .. }
            | RawStmt::Break { .. } => Ok(()),
        }
    }

    /// The variables that statements declare.
    #[cycle(locals)]
    fn locals(&mut self, scope: VarScope, all: &[RawStmt]) -> Result<(), NoMemory>
        ensures { OnOk result (self.new ≡ with_variables self.old (spec.locals_of scope (parts_all all.now))) }
    {
        for s in all {
            self.local(scope, s)?;
        }
        Ok(())
    }

    /// The locals of a statement at the top of `main`. An initialiser stands outside of its region.
    fn top(&mut self, number: u32, s: &RawStmt) -> Result<(), NoMemory>
        ensures { OnOk result (self.new ≡ with_variables self.old (spec.top_locals number s.now)) }
    {
        match s {
            RawStmt::While { marked, body, .. } if *marked => {
                self.locals(VarScope::Body(number), body.as_slice())
            }
            RawStmt::For {
                marked,
                first,
                step,
                body,
                ..
            } if *marked => {
                self.locals(VarScope::Outer, first.as_slice())?;
                self.locals(VarScope::Body(number), body.as_slice())?;
                self.locals(VarScope::Body(number), step.as_slice())
            }
            _ => self.local(VarScope::Outer, s),
        }
    }

    /// The locals of `main`.
    pub fn main(&mut self, all: &[RawStmt]) -> Result<(), NoMemory>
        ensures { OnOk result (self.new ≡ with_variables self.old (spec.main_locals 1 all.now)) }
    {
        let mut number = 1;
        for s in all {
            self.top(number, s)?;
            number = region_after(number, s)?;
        }
        Ok(())
    }

    fn parameters(&mut self, all: &[Name]) -> Result<(), NoMemory>
        ensures { OnOk result (self.new ≡ with_variables self.old (spec.locals_of Outer (map Local all.now))) }
    {
        for name in all {
            self.scalar(name, 0, VarScope::Outer)?;
        }
        Ok(())
    }

    fn function(&mut self, item: &RawItem) -> Result<(), NoMemory>
        ensures { OnOk result (self.new ≡ with_variables self.old (spec.locals_of Outer (spec.item_parts item.now))) }
    {
        match item {
            RawItem::Function { params, body, .. } => {
                self.parameters(params.as_slice())?;
                self.locals(VarScope::Outer, body.as_slice())?;
                Ok(())
            }
            RawItem::Scalar { .. } | RawItem::Array { .. } => Ok(()),
        }
    }

    /// The parameters and locals of the functions.
    pub fn functions(&mut self, items: &[RawItem]) -> Result<(), NoMemory>
        ensures { OnOk result (self.new ≡ with_variables self.old (flat_map (λ item. spec.locals_of Outer (spec.item_parts item)) items.now)) }
    {
        for item in items {
            self.function(item)?;
        }
        Ok(())
    }
}

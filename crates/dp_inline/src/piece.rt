//! The expanded text and its tables while they are written.

ghost use Rattle.std.specs.Prelude.{◌≡◌, ◌≤◌, ◌^◌, ◌∷◌, [], IfOk, OnErr, OnOk, length as length_of, option_copied, suc};
ghost use Rattle.dp_calls.specs.Expand.{is_global};
ghost use Rattle.dp_calls.specs.Tables.{new_site, scope_in};

use crate::expr::rename;
use crate::names::Names;
use dp_base::{CellId, NoMemory, Row, SiteId};
use dp_tree::{Expr, Program, RegionInfo, SiteInfo, Stmt, VarInfo, VarScope};
use std::alloc::Global;
use std::mem;

/// A piece of the expanded text, with the names and the tables after it.
#[derive(Drop)]
pub struct Writer {
    pub alloc: Global,
    pub code: Row<Stmt>,
    pub names: Names,
    pub vars: Row<VarInfo>,
    /// How many cells the variables have.
    pub cells: u32,
    pub sites: Row<SiteInfo>,
    pub regions: Row<RegionInfo>,
}

/// A length as a number.
fn count(length: usize) -> Result<u32, NoMemory>
    ensures value { IfOk result (λ n. n ≡ length) }
    ensures many { OnErr result (2 ^ 32 ≤ length) }
{
    u32::try_from(length).map_err(|_| NoMemory)
}

/// Where a local is declared: in the body of a region, or outside all regions where the number is 0.
fn scope(region: u32) -> VarScope
    ensures { result ≡ scope_in region }
{
    if region == 0 {
        VarScope::Outer
    } else {
        VarScope::Body(region)
    }
}

/// The variable's entry, with another cell and scope.
fn moved(alloc: Global, info: &VarInfo, cell: u32, scope: VarScope) -> Result<VarInfo, NoMemory>
    ensures { IfOk result (λ moved. moved ≡ record info.now { first = record { 0 = cell }; scope = scope }) }
{
    let name = Row::from_slice(alloc, info.name.as_slice())?;
    Ok(VarInfo {
        name,
        first: CellId(cell),
        length: info.length,
        array: info.array,
        start: info.start,
        scope,
    })
}

fn is_file_scope(info: Option<&VarInfo>) -> bool
    ensures { result ≡ is_global (option_copied info.entry) }
{
    match info {
        Some(info) => info.scope == VarScope::Global,
        None => false,
    }
}

impl Writer {
    ghost use Rattle.dp_inline.specs.steps.Written.{written, blank, with_globals, emptied, expr_in, with_statement, with_binding_site, with_text_site};
    ghost use Rattle.dp_inline.specs.steps.Written.{with_new_local, with_declared, with_next_region};

    /// No text yet.
    pub fn new(alloc: Global) -> Writer
        ensures { written result ≡ blank }
    {
        Writer {
            alloc,
            code: Row::new(alloc),
            names: Names::new(alloc),
            vars: Row::new(alloc),
            cells: 0,
            sites: Row::new(alloc),
            regions: Row::new(alloc),
        }
    }

    /// A variable of the file keeps its entry; any other is left out.
    pub fn global(&mut self, info: &VarInfo) -> Result<(), NoMemory>
        ensures { OnOk result (written self.new ≡ with_globals (written self.old) (info.now ∷ [])) }
    {
        if is_file_scope(Some(info)) {
            let cells = self.cells.checked_add(info.length).ok_or(NoMemory)?;
            let kept = moved(self.alloc, info, info.first.0, info.scope)?;
            self.vars.push(kept)?;
            self.cells = cells;
        }
        Ok(())
    }

    /// The expression in the names so far.
    pub fn rename(&self, e: &Expr) -> Result<Expr, NoMemory>
        ensures { IfOk result (λ r. r ≡ expr_in (written self.now).names e.now) }
    {
        rename(self.alloc, &self.names, e)
    }

    /// Sets the text so far aside.
    pub fn begin_block(&mut self) -> Row<Stmt>
        ensures before { result ≡ (written self.old).code }
        ensures after { written self.new ≡ emptied (written self.old) }
    {
        mem::replace(&mut self.code, Row::new(self.alloc))
    }

    /// The block's text; the text before it counts again.
    pub fn end_block(&mut self, before: Row<Stmt>) -> Row<Stmt>
        ensures block { result ≡ (written self.old).code }
        ensures after { written self.new ≡ record (written self.old) { code = before } }
    {
        mem::replace(&mut self.code, before)
    }

    /// Sets the names so far aside.
    pub fn begin_call(&mut self) -> Names
        ensures caller { result ≡ (written self.old).names }
        ensures after { written self.new ≡ record (written self.old) { names = [] } }
    {
        mem::replace(&mut self.names, Names::new(self.alloc))
    }

    /// The caller's names count again.
    pub fn end_call(&mut self, caller: Names)
        ensures { written self.new ≡ record (written self.old) { names = caller } }
    {
        self.names = caller;
    }

    /// Appends a statement.
    pub fn put(&mut self, s: Stmt) -> Result<(), NoMemory>
        ensures { OnOk result (written self.new ≡ with_statement s (written self.old)) }
    {
        self.code.push(s)?;
        Ok(())
    }

    /// The number of the next site.
    pub fn next(&self) -> Result<SiteId, NoMemory>
        ensures value { IfOk result (λ site. site ≡ new_site (written self.now).tables) }
        ensures many { OnErr result (2 ^ 32 ≤ suc (length_of (written self.now).tables.sites)) }
    {
        let before = count(self.sites.len())?;
        Ok(SiteId(before.checked_add(1).ok_or(NoMemory)?))
    }

    /// The next site has this line and kind.
    pub fn site(&mut self, info: SiteInfo) -> Result<(), NoMemory>
        ensures { OnOk result (written self.new ≡ with_binding_site info (written self.old)) }
    {
        self.sites.push(info)?;
        Ok(())
    }

    /// The next site is this one of the program's text.
    pub fn source_site(&mut self, p: &Program, region: u32, site: SiteId) -> Result<(), NoMemory>
        ensures { OnOk result (written self.new ≡ with_text_site p.now region site (written self.old)) }
    {
        if let Some(info) = p.sites.get(site.0.saturating_sub(1) as usize) {
            self.site(SiteInfo {
                line: info.line,
                kind: info.kind,
                region,
            })?;
        }
        Ok(())
    }

    /// The next variable is this local or parameter.
    pub fn local(&mut self, p: &Program, region: u32, source: u32) -> Result<(), NoMemory>
        ensures { OnOk result (written self.new ≡ with_new_local p.now region source (written self.old)) }
    {
        let target = count(self.vars.len())?;
        let cells = self.cells.checked_add(1).ok_or(NoMemory)?;
        if let Some(info) = p.vars.get(source as usize) {
            let info = moved(self.alloc, info, self.cells, scope(region))?;
            self.vars.push(info)?;
        }
        self.cells = cells;
        self.names.push(source, target)?;
        Ok(())
    }

    /// The first assignment to a local declares it.
    pub fn declare(&mut self, p: &Program, region: u32, source: u32) -> Result<(), NoMemory>
        ensures { OnOk result (written self.new ≡ with_declared p.now region source (written self.old)) }
    {
        if self.names.find(source).is_some() || is_file_scope(p.vars.get(source as usize)) {
            return Ok(());
        }
        self.local(p, region, source)?;
        Ok(())
    }

    /// The next region ends with the last site so far.
    pub fn region(&mut self, line: u32, first: SiteId) -> Result<(), NoMemory>
        ensures { OnOk result (written self.new ≡ with_next_region line first (written self.old)) }
    {
        let last = SiteId(count(self.sites.len())?);
        self.regions.push(RegionInfo { line, first, last })?;
        Ok(())
    }
}

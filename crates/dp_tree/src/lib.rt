//! Programs as trees, and what they mean.
//!
//! `specs/` has the meaning, in the order in which `specs/Lib.antt` lists its files: evaluation, steps, traces and the
//! iterations of a region.
#![tactic(auto)]

use dp_base::{BinOp, Boxed, CellId, Row, SiteId, UnOp, VarId};

mod boxing;
mod law;
mod raw;
mod scope;

pub use law::{
    a_region_is_its_iterations, a_run_goes_by_steps, a_run_goes_on, iterations_adjoin,
    less_fuel_gives_a_front, runs_stay_in_main,
};
pub use raw::{Name, RawExpr, RawItem, RawProgram, RawStmt};

/// An expression. Nested boxes hold the operands, the left one first.
pub enum Expr {
    Number(i64),
    /// The input word at an index.
    Input(Boxed<Expr>),
    /// The number of input words.
    InputLen,
    Scalar(VarId),
    Element(VarId, Boxed<Expr>),
    Unary(UnOp, Boxed<Expr>),
    Binary(BinOp, Boxed<Expr>, Boxed<Expr>),
    And(Boxed<Expr>, Boxed<Expr>),
    Or(Boxed<Expr>, Boxed<Expr>),
}

impl Drop for Expr {
    fn drop(self) {
        match self {
            Expr::Number(_) | Expr::Input(_) | Expr::InputLen | Expr::Scalar(_) => {}
            Expr::Element(_, _) | Expr::Unary(_, _) | Expr::Binary(_, _, _) => {}
            Expr::And(_, _) | Expr::Or(_, _) => {}
        }
    }
}

/// A statement. Each but a call has a site, and `check` numbers sites from 1 in text order, those of `main` first.
pub enum Stmt {
    /// An assignment to a scalar, an initialiser, or a binding of an argument to a parameter.
    Assign {
        site: SiteId,
        var: VarId,
        value: Expr,
    },
    /// An assignment to an element of an array.
    Store {
        site: SiteId,
        var: VarId,
        index: Expr,
        value: Expr,
    },
    Print {
        site: SiteId,
        value: Expr,
    },
    If {
        site: SiteId,
        cond: Expr,
        then_part: Row<Stmt>,
        else_part: Row<Stmt>,
    },
    While {
        site: SiteId,
        cond: Expr,
        body: Row<Stmt>,
    },
    /// A marked `while` at the top level of `main`; regions count from 1.
    Region {
        region: u32,
        site: SiteId,
        cond: Expr,
        body: Row<Stmt>,
    },
    /// An early exit, at the top of a region's body: where the condition isn't 0, the region is left.
    Break {
        site: SiteId,
        cond: Expr,
    },
    /// A call of a function, counted from 0, on the line of the function's name.
    Call {
        function: u32,
        line: u32,
        args: Row<Expr>,
    },
}

impl Drop for Stmt {
    fn drop(self) {
        match self {
            Stmt::Assign {
                site: _,
                var: _,
                value: _,
            } => {}
            Stmt::Store {
                site: _,
                var: _,
                index: _,
                value: _,
            } => {}
            Stmt::Print { site: _, value: _ } => {}
            Stmt::If {
                site: _,
                cond: _,
                then_part: _,
                else_part: _,
            } => {}
            Stmt::While {
                site: _,
                cond: _,
                body: _,
            } => {}
            Stmt::Region {
                region: _,
                site: _,
                cond: _,
                body: _,
            } => {}
            Stmt::Break { site: _, cond: _ } => {}
            Stmt::Call {
                function: _,
                line: _,
                args: _,
            } => {}
        }
    }
}

/// Where a variable is declared: at file scope, in the body of a region, or elsewhere.
///
/// A parameter or local of a call that is expanded in a region's body is of that body too.
#[derive(Clone, Copy, PartialEq, Eq)]
pub enum VarScope {
    Global,
    Outer,
    Body(u32),
}

/// A variable. Its cells are `length` many from `first` on; a scalar has one.
pub struct VarInfo {
    pub name: Row<u8>,
    pub first: CellId,
    pub length: u32,
    pub array: bool,
    /// The start value of a file-scope scalar, and 0 for every other variable.
    pub start: i64,
    pub scope: VarScope,
}

impl Drop for VarInfo {
    fn drop(self) {
        let VarInfo {
            name: _,
            first: _,
            length: _,
            array: _,
            start: _,
            scope: _,
        } = self;
    }
}

/// What is evaluated at a site; initialisers and bindings are assignments.
#[derive(Clone, Copy)]
pub enum SiteKind {
    Assign,
    Print,
    If,
    While,
    Break,
}

/// A site: the line of its statement's first token, from 1, and its region, or 0 outside all regions.
#[derive(Clone, Copy)]
pub struct SiteInfo {
    pub line: u32,
    pub kind: SiteKind,
    pub region: u32,
}

/// A region: the line of its `while`, and its first and last site. The first site is its condition.
#[derive(Clone, Copy)]
pub struct RegionInfo {
    pub line: u32,
    pub first: SiteId,
    pub last: SiteId,
}

/// A function other than `main`.
pub struct Function {
    pub params: Row<VarId>,
    pub body: Row<Stmt>,
}

impl Drop for Function {
    fn drop(self) {
        let Function { params: _, body: _ } = self;
    }
}

/// A program whose names are numbers: a `VarId` is a place in `vars`, from 0, a `SiteId` one in `sites`, from 1.
///
/// In an expanded program `functions` is empty and no call stands.
pub struct Program {
    pub vars: Row<VarInfo>,
    pub sites: Row<SiteInfo>,
    pub regions: Row<RegionInfo>,
    pub functions: Row<Function>,
    pub main: Row<Stmt>,
}

impl Drop for Program {
    fn drop(self) {
        let Program {
            vars: _,
            sites: _,
            regions: _,
            functions: _,
            main: _,
        } = self;
    }
}

/// The outcome that is assumed of an `if`: whether its condition is other than 0.
#[derive(Clone, Copy)]
pub struct Assume {
    pub site: SiteId,
    pub taken: bool,
}

use dp_base::{BinOp, Boxed, Row, UnOp};

/// A name as the source writes it, with its line.
pub struct Name {
    pub text: Row<u8>,
    pub line: u32,
}

impl Drop for Name {
    fn drop(self) {
        let Name { text: _, line: _ } = self;
    }
}

/// An expression whose variables are names.
pub enum RawExpr {
    Number(i64),
    Scalar(Name),
    Element(Name, Boxed<RawExpr>),
    Unary(UnOp, Boxed<RawExpr>),
    Binary(BinOp, Boxed<RawExpr>, Boxed<RawExpr>),
    And(Boxed<RawExpr>, Boxed<RawExpr>),
    Or(Boxed<RawExpr>, Boxed<RawExpr>),
}

impl Drop for RawExpr {
    fn drop(self) {
        match self {
            RawExpr::Number(_) | RawExpr::Scalar(_) | RawExpr::Element(_, _) => {}
            RawExpr::Unary(_, _) | RawExpr::Binary(_, _, _) => {}
            RawExpr::And(_, _) | RawExpr::Or(_, _) => {}
        }
    }
}

/// A statement whose variables and functions are names.
pub enum RawStmt {
    Declare {
        line: u32,
        name: Name,
        value: RawExpr,
    },
    Assign {
        name: Name,
        value: RawExpr,
    },
    Store {
        name: Name,
        index: RawExpr,
        value: RawExpr,
    },
    Call {
        name: Name,
        args: Row<RawExpr>,
    },
    Print {
        line: u32,
        value: RawExpr,
    },
    If {
        line: u32,
        cond: RawExpr,
        then_part: Row<RawStmt>,
        else_part: Row<RawStmt>,
    },
    While {
        line: u32,
        marked: bool,
        cond: RawExpr,
        body: Row<RawStmt>,
    },
    /// A `for`, on the line of the word: `first` and `step` hold one statement each.
    For {
        line: u32,
        marked: bool,
        first: Row<RawStmt>,
        cond: RawExpr,
        step: Row<RawStmt>,
        body: Row<RawStmt>,
    },
    /// An early exit, at the top of a marked loop's body.
    Break {
        line: u32,
        cond: RawExpr,
    },
}

impl Drop for RawStmt {
    fn drop(self) {
        match self {
            RawStmt::Declare {
                line: _,
                name: _,
                value: _,
            } => {}
            RawStmt::Assign { name: _, value: _ } => {}
            RawStmt::Store {
                name: _,
                index: _,
                value: _,
            } => {}
            RawStmt::Call { name: _, args: _ } => {}
            RawStmt::Print { line: _, value: _ } => {}
            RawStmt::If {
                line: _,
                cond: _,
                then_part: _,
                else_part: _,
            } => {}
            RawStmt::While {
                line: _,
                marked: _,
                cond: _,
                body: _,
            } => {}
            RawStmt::For {
                line: _,
                marked: _,
                first: _,
                cond: _,
                step: _,
                body: _,
            } => {}
            RawStmt::Break { line: _, cond: _ } => {}
        }
    }
}

/// A declaration at file scope.
pub enum RawItem {
    Scalar {
        name: Name,
        start: i64,
    },
    Array {
        name: Name,
        length: i64,
    },
    Function {
        name: Name,
        params: Row<Name>,
        body: Row<RawStmt>,
    },
}

impl Drop for RawItem {
    fn drop(self) {
        match self {
            RawItem::Scalar { name: _, start: _ } => {}
            RawItem::Array { name: _, length: _ } => {}
            RawItem::Function {
                name: _,
                params: _,
                body: _,
            } => {}
        }
    }
}

/// A program as it was read.
pub struct RawProgram {
    pub items: Row<RawItem>,
    pub main: Row<RawStmt>,
}

impl Drop for RawProgram {
    fn drop(self) {
        let RawProgram { items: _, main: _ } = self;
    }
}

//! The one walk over the statements of a text, and what it asks of each.

ghost use Rattle.std.specs.Prelude.{◌≡◌, ◌++◌, OnOk, IfOk, List};
ghost use Rattle.std.specs.List.{flat_map};
ghost use Rattle.dp_tree.specs.declared.Stmt.{Stmt};
ghost use Rattle.dp_tree.specs.Statements.{asked};
ghost use Rattle.dp_sites.specs.Lists.{asked_in_region};

use dp_base::{NoMemory, Row};
use dp_plan::is_region;
use dp_tree::{Program, Stmt};
use std::alloc::Global;

/// What is asked of each statement of a text by itself.
pub trait Question<X> {
    /// What a statement gives, without those inside it.
    ghost gives: { Stmt → List X };

    /// Appends what the statement gives.
    fn ask(&self, out: &mut Row<X>, statement: &Stmt) -> Result<(), NoMemory>
        ensures { OnOk result (out.new ≡ out.old ++ gives statement.now) };
}

/// Asks the statement and then those inside it, in text order.
#[cycle(walk)]
pub fn ask_each<X, Q: Question<X>>(
    question: &Q,
    out: &mut Row<X>,
    statement: &Stmt,
) -> Result<(), NoMemory>
    ensures { OnOk result (out.new ≡ out.old ++ asked Q.gives statement.now) }
{
    question.ask(out, statement)?;
    match statement {
        Stmt::If {
            then_part,
            else_part,
            ..
        } => {
            ask_all(question, out, then_part.as_slice())?;
            ask_all(question, out, else_part.as_slice())?;
            Ok(())
        }
        Stmt::While { body, .. } => {
            ask_all(question, out, body.as_slice())?;
            Ok(())
        }
        Stmt::Region { body, .. } => {
            ask_all(question, out, body.as_slice())?;
            Ok(())
        }
        Stmt::Assign { .. }
        | Stmt::Store { .. }
        | Stmt::Print { .. }
        | Stmt::Break { .. }
        | Stmt::Call { .. } => Ok(()),
    }
}

/// Asks each of several statements and those inside them.
#[cycle(walk)]
pub(crate) fn ask_all<X, Q: Question<X>>(
    question: &Q,
    out: &mut Row<X>,
    all: &[Stmt],
) -> Result<(), NoMemory>
    ensures { OnOk result (out.new ≡ out.old ++ flat_map (asked Q.gives) all.now) }
{
    for statement in all {
        ask_each(question, out, statement)?;
    }
    Ok(())
}

/// What the statements of a region give.
pub fn ask_region<X: Drop, Q: Question<X>>(
    alloc: Global,
    question: &Q,
    p: &Program,
    region: u32,
) -> Result<Row<X>, NoMemory>
    ensures { IfOk result (λ found. found ≡ asked_in_region Q.gives region p.now.main) }
{
    let mut found = Row::new(alloc);
    for statement in p.main.as_slice() {
        if is_region(region, statement) {
            ask_each(question, &mut found, statement)?;
        }
    }
    Ok(found)
}

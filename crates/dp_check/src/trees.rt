//! A program's text with numbers in place of names.

ghost use Rattle.dp_check.specs.Answer.{GivesChecked};
ghost use Rattle.dp_check.specs.CheckAnswer.{trees_answer};

use crate::CheckFail;
use crate::items::Head;
use crate::limits::global_count;
use crate::names::Names;
use crate::numbers::pass_all;
use crate::place::Place;
use crate::region::main_statements;
use dp_base::Row;
use dp_tree::{Function, RawProgram, Stmt};
use std::alloc::Global;

/// The functions and the statements of `main`.
pub fn resolve(alloc: Global, raw: &RawProgram) -> Result<(Row<Function>, Row<Stmt>), CheckFail>
    ensures { GivesChecked (trees_answer raw.now) result }
{
    let items = raw.items.as_slice();
    let statements = raw.main.as_slice();
    let variable = global_count(items)?;
    let names = Names::predeclared(alloc)?;
    let mut place = Place {
        names,
        variable,
        site: 1,
    };
    pass_all(&mut place, statements)?;
    let mut head = Head {
        place,
        globals: 0,
        functions: 0,
    };
    let functions = head.items(alloc, items)?;
    let mut place = head.place;
    place.variable = variable;
    place.site = 1;
    let main = main_statements(alloc, &mut place, statements)?;
    Ok((functions, main))
}

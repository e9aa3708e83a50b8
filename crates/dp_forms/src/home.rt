//! Where a program's variables are, beside the registers.

ghost use Rattle.std.specs.Prelude.{◌≡◌, ◌<◌, ◌+◌, ◌^◌, IsTrue};
ghost use Rattle.dp_forms.specs.Registers.{is_register_home, homes_apart};
ghost use Rattle.dp_meaning.specs.Places.{site_number};
ghost use Rattle.dp_forms.specs.Values.{IsRegister, IsArray};

use dp_base::VarId;
use dp_tree::{Program, Stmt};

/// Whether the cell is the home of this register, and of none before it.
fn home_is(homes: &[u32], register: usize, cell: u32) -> bool
    ensures { result ≡ is_register_home homes.now register cell }
{
    let mut left = register;
    for home in homes {
        if *home == cell {
            return left == 0;
        }
        if left == 0 {
            return false;
        }
        left -= 1;
    }
    false
}

/// Whether no register's home is among these cells.
fn are_apart(homes: &[u32], first: u64, count: u64) -> bool
    requires { first + count < 2 ^ 63 }
    ensures { result ≡ homes_apart homes.now first count }
{
    for home in homes {
        let home = *home as u64;
        if home < first {} else if home < first + count {
            return false;
        }
    }
    true
}

/// Whether the variable's cell is the home of this register.
pub(crate) fn is_register(
    program: &Program,
    homes: &[u32],
    size: u32,
    register: usize,
    variable: VarId,
) -> bool
    ensures { IsTrue result → IsRegister program.now homes.now size register variable }
{
    match program.vars.get(variable.0 as usize) {
        Some(info) => {
            let first = info.first.0;
            first < size && home_is(homes, register, first)
        }
        None => false,
    }
}

/// Whether the variable has just these cells, apart from the registers' homes.
pub(crate) fn is_array(
    program: &Program,
    homes: &[u32],
    size: u32,
    first: u32,
    count: u32,
    variable: VarId,
) -> bool
    ensures { IsTrue result → IsArray program.now homes.now size first count variable }
{
    match program.vars.get(variable.0 as usize) {
        Some(info) => {
            info.first.0 == first
                && info.length == count
                && first as u64 + count as u64 <= size as u64
                && are_apart(homes, first as u64, count as u64)
        }
        None => false,
    }
}

/// The statement's site; a call has none.
pub(crate) fn site_of(statement: &Stmt) -> u32
    ensures { result ≡ site_number statement.now }
{
    match statement {
        Stmt::Assign { site, .. }
        | Stmt::Store { site, .. }
        | Stmt::Print { site, .. }
        | Stmt::If { site, .. }
        | Stmt::While { site, .. }
        | Stmt::Region { site, .. }
        | Stmt::Break { site, .. } => site.0,
        Stmt::Call { .. } => 0,
    }
}

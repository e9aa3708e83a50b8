//! That code does go on: its promise alone would hold of code that never makes a step.
use crate::{Add, Binary, Composed, InputLen, Lt, Number, Outermost, Say, Scalar, Set, Then, Word};
use dp_base::{BinOp, CellId, NoMemory, Row, SiteId, VarId};
use dp_native::NativeProgram;
use dp_tree::{Expr, Program, SiteInfo, SiteKind, Stmt, VarInfo, VarScope};
use std::alloc::Global;
use std::marker::PhantomData;
use std::test::Fail;

/// A sum over the input that prints each step of it: `total` is in register 0, and `i` in register 1.
///
/// ```c
/// int total;
/// int main() {
///   int i = 0;
///   while (i < input_len) {
///     total = total + input[i];
///     print(total);
///     i = i + 1;
///   }
/// }
/// ```
type Sum = Then<
    1,
    Set<1, 1, Number<0>>,
    Outermost<
        2,
        3,
        4096,
        2,
        Binary<Lt, Scalar<1>, InputLen>,
        Then<
            1,
            Set<3, 0, Binary<Add, Scalar<0>, Word<Scalar<1>>>>,
            Then<1, Say<4, Scalar<0>>, Set<5, 1, Binary<Add, Scalar<1>, Number<1>>>>,
        >,
    >,
>;

const SITES: u32 = 5;

const TOTAL: VarId = VarId(0);

const I: VarId = VarId(1);

fn code() -> Composed<2, Sum> {
    Composed {
        homes: [0, 1],
        size: 2,
        sites: SITES,
        of: PhantomData,
    }
}

fn scalar(alloc: Global, cell: u32, scope: VarScope) -> VarInfo {
    VarInfo {
        name: Row::new(alloc),
        first: CellId(cell),
        length: 1,
        array: false,
        start: 0,
        scope,
    }
}

/// The three statements of the loop, with this operator in the sum.
fn body(alloc: Global, op: BinOp) -> Result<Row<Stmt>, NoMemory> {
    let word = Expr::input(alloc, Expr::Scalar(I))?;
    let sum = Expr::binary(alloc, op, Expr::Scalar(TOTAL), word)?;
    let next = Expr::binary(alloc, BinOp::Add, Expr::Scalar(I), Expr::Number(1))?;
    let mut body = Row::new(alloc);
    body.push(Stmt::Assign {
        site: SiteId(3),
        var: TOTAL,
        value: sum,
    })?;
    body.push(Stmt::Print {
        site: SiteId(4),
        value: Expr::Scalar(TOTAL),
    })?;
    body.push(Stmt::Assign {
        site: SiteId(5),
        var: I,
        value: next,
    })?;
    Ok(body)
}

/// The program, with this operator in its sum.
fn program(alloc: Global, op: BinOp) -> Result<Program, NoMemory> {
    let mut vars = Row::new(alloc);
    vars.push(scalar(alloc, 0, VarScope::Global))?;
    vars.push(scalar(alloc, 1, VarScope::Outer))?;
    let mut sites = Row::new(alloc);
    for line in 0..SITES {
        sites.push(SiteInfo {
            line,
            kind: SiteKind::Assign,
            region: 0,
        })?;
    }
    let mut main = Row::new(alloc);
    main.push(Stmt::Assign {
        site: SiteId(1),
        var: I,
        value: Expr::Number(0),
    })?;
    main.push(Stmt::While {
        site: SiteId(2),
        cond: Expr::binary(alloc, BinOp::Lt, Expr::Scalar(I), Expr::InputLen)?,
        body: body(alloc, op)?,
    })?;
    Ok(Program {
        vars,
        sites,
        regions: Row::new(alloc),
        functions: Row::new(alloc),
        main,
    })
}

#[test]
fn code_is_that_of_its_own_program_alone(rt: HostRuntime) -> Result<(), Fail> {
    assert!(&rt; code().is(&program(rt.alloc(), BinOp::Add)?));
    assert!(&rt; !code().is(&program(rt.alloc(), BinOp::Sub)?));
    Ok(())
}

/// A run of the code: where it begins, and on what; and then the place and the fuel that are left, and what was printed.
struct Case {
    place: u32,
    input: &'static [i64],
    cells: [i64; 2],
    left: (u32, u64),
    after: [i64; 2],
    prints: &'static [i64],
}

/// With fuel for a hundred steps. The sum takes one step, four a turn, and one for the condition behind the last.
const CASES: [Case; 3] = [
    // to the end
    Case {
        place: 0,
        input: &[5, -2, 4],
        cells: [0, 9],
        left: (SITES, 86),
        after: [7, 3],
        prints: &[5, 3, 7],
    },
    // the second sum overflows: the machine is to make that step
    Case {
        place: 0,
        input: &[i64::MAX, 1],
        cells: [0, 0],
        left: (2, 94),
        after: [i64::MAX, 1],
        prints: &[i64::MAX],
    },
    // from the last statement of the last turn
    Case {
        place: 4,
        input: &[5, -2, 4],
        cells: [7, 2],
        left: (SITES, 98),
        after: [7, 3],
        prints: &[],
    },
];

#[test]
fn code_goes_as_far_as_it_can(rt: HostRuntime) -> Result<(), Fail> {
    for case in &CASES {
        let mut cells = case.cells;
        let mut out = Row::new(rt.alloc());
        let left = code().run(case.place, case.input, &mut cells, 100, &mut out);
        assert_eq!(&rt; left, case.left);
        assert_eq!(&rt; cells, case.after);
        assert_eq!(&rt; out.as_slice(), case.prints);
    }
    Ok(())
}

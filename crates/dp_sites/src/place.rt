//! Where an index lies by a variable, and by how much a statement moves one.

ghost use Rattle.std.specs.Prelude.{◌≡◌, ◌<◌, ◌==◌, ◌%◌, ◌&&◌, ◌-ℤ◌, ◌+ℤ◌};
ghost use Rattle.dp_plan.specs.IsFar.{is_strides};
ghost use Rattle.dp_sites.specs.Place as spec;
ghost use Rattle.dp_plan.specs.Touch as touch;

use dp_base::{BinOp, VarId};
use dp_tree::Expr;

/// An index `v`, `v + number` or `number + v`, or, if `less`, `v - number`.
#[derive(Clone, Copy)]
pub struct Place {
    pub by: VarId,
    pub less: bool,
    pub number: i64,
}

/// What is added to a variable, or taken from it: so many and one more.
#[derive(Clone, Copy)]
pub struct Step {
    pub back: bool,
    pub beyond: u64,
}

/// How two places have to differ.
#[derive(Clone, Copy)]
pub enum Gap {
    /// Not by a number of steps of at least one.
    Strides,
    /// At all.
    Whole,
}

/// The variable that the expression is.
#[tactic(auto, using(crate::proofs::PlaceForms::scalar_forms))]
fn scalar(e: &Expr) -> Option<VarId>
    ensures { result ≡ spec.scalar_at e.now }
{
    match e {
        Expr::Scalar(var) => Some(*var),
        Expr::Number(_)
        | Expr::Input(_)
        | Expr::InputLen
        | Expr::Element(..)
        | Expr::Unary(..)
        | Expr::Binary(..)
        | Expr::And(..)
        | Expr::Or(..) => None,
    }
}

/// The number that the expression is.
#[tactic(auto, using(crate::proofs::PlaceForms::number_forms))]
fn number(e: &Expr) -> Option<i64>
    ensures { result ≡ spec.literal_at e.now }
{
    match e {
        Expr::Number(number) => Some(*number),
        Expr::Scalar(_)
        | Expr::Input(_)
        | Expr::InputLen
        | Expr::Element(..)
        | Expr::Unary(..)
        | Expr::Binary(..)
        | Expr::And(..)
        | Expr::Or(..) => None,
    }
}

fn placed(less: bool, var: Option<VarId>, number: Option<i64>) -> Option<Place>
    ensures { result ≡ spec.placed less var number }
{
    let by = var?;
    let number = number?;
    Some(Place { by, less, number })
}

#[tactic(auto, unfolding(crate::specs::Place::scalar_at, crate::specs::Place::literal_at))]
fn placed_by(less: bool, var: &Expr, other: &Expr) -> Option<Place>
    ensures { result ≡ spec.placed less (spec.scalar_in var.now) (touch.literal_in other.now) }
{
    placed(less, scalar(var), number(other))
}

fn added_place(op: BinOp, a: &Expr, b: &Expr) -> Option<Place>
    ensures { result ≡ spec.added_place op a.now b.now }
{
    match op {
        BinOp::Add => match placed_by(false, a, b) {
            Some(place) => Some(place),
            None => placed_by(false, b, a),
        },
        BinOp::Sub => placed_by(true, a, b),
        _ => None,
    }
}

/// The place of an index, if it has one.
#[tactic(auto, using(crate::proofs::PlaceForms::place_forms))]
pub fn place_of(index: &Expr) -> Option<Place>
    ensures { result ≡ spec.index_place index.now }
{
    match index {
        Expr::Scalar(var) => Some(Place {
            by: *var,
            less: false,
            number: 0,
        }),
        Expr::Binary(op, a, b) => added_place(*op, a.get(), b.get()),
        Expr::Number(_)
        | Expr::Input(_)
        | Expr::InputLen
        | Expr::Element(..)
        | Expr::Unary(..)
        | Expr::And(..)
        | Expr::Or(..) => None,
    }
}

fn step_by(back: bool, number: Option<i64>) -> Option<Step>
    ensures { result ≡ spec.stride_of_number back number }
{
    let number = number?;
    if number < 1 {
        return None;
    }
    Some(Step {
        back,
        beyond: (number - 1) as u64,
    })
}

#[tactic(auto, unfolding(crate::specs::Place::scalar_at, crate::specs::Place::literal_at))]
fn step_from(moved: VarId, back: bool, var: &Expr, other: &Expr) -> Option<Step>
    ensures { result ≡ spec.stride_from moved back (spec.scalar_in var.now) (touch.literal_in other.now) }
{
    let var = scalar(var)?;
    if var.0 == moved.0 {
        step_by(back, number(other))
    } else {
        None
    }
}

fn added_step(moved: VarId, op: BinOp, a: &Expr, b: &Expr) -> Option<Step>
    ensures { result ≡ spec.added_step moved op a.now b.now }
{
    match op {
        BinOp::Add => step_from(moved, false, a, b),
        BinOp::Sub => step_from(moved, true, a, b),
        _ => None,
    }
}

/// The step by which the right side of an assignment moves the variable.
#[tactic(auto, using(crate::proofs::PlaceForms::step_forms))]
pub fn step_of(moved: VarId, value: &Expr) -> Option<Step>
    ensures { result ≡ spec.stride_at moved value.now }
{
    match value {
        Expr::Binary(op, a, b) => added_step(moved, *op, a.get(), b.get()),
        Expr::Number(_)
        | Expr::Scalar(_)
        | Expr::Input(_)
        | Expr::InputLen
        | Expr::Element(..)
        | Expr::Unary(..)
        | Expr::And(..)
        | Expr::Or(..) => None,
    }
}

fn signed(less: bool, number: i64) -> i128
    ensures { result ≡ spec.signed less number }
{
    if less {
        -(number as i128)
    } else {
        number as i128
    }
}

fn stride(step: Step) -> i128
    ensures { result ≡ spec.stride_value step.back step.beyond }
{
    if step.back {
        -1 - step.beyond as i128
    } else {
        1 + step.beyond as i128
    }
}

fn stepped(place: Place, step: Step) -> i128
    ensures { result ≡ spec.offset_in place +ℤ spec.stride_in step }
{
    let offset = signed(place.less, place.number);
    let stride = stride(step);
    offset + stride
}

/// Where the place lies, before the variable's step or behind it.
fn place_at(place: Place, behind: bool, step: Step) -> i128
    ensures { result ≡ spec.place_at place behind step }
{
    if behind {
        stepped(place, step)
    } else {
        signed(place.less, place.number)
    }
}

fn difference(stored: Place, late: bool, loaded: Place, behind: bool, step: Step) -> i128
    ensures { result ≡ spec.place_at stored late step -ℤ spec.place_at loaded behind step }
{
    let one = place_at(stored, late, step);
    let other = place_at(loaded, behind, step);
    one - other
}

/// Whether so much is a number of steps, at least one.
fn is_steps(much: i128, step: Step) -> bool
    ensures { result ≡ is_strides (spec.stride_in step) much }
{
    let many = much.unsigned_abs();
    let size = step.beyond as u128 + 1;
    if step.back {
        much < 0 && many % size == 0
    } else {
        0 < much && many % size == 0
    }
}

/// Whether a place that is stored and one that is loaded differ so.
pub fn passes(test: Gap, stored: Place, late: bool, loaded: Place, behind: bool, step: Step) -> bool
    ensures { result ≡ spec.test_of test (spec.stride_in step) (spec.place_at stored late step) (spec.place_at loaded behind step) }
{
    let much = difference(stored, late, loaded, behind, step);
    match test {
        Gap::Strides => !is_steps(much, step),
        Gap::Whole => much != 0,
    }
}

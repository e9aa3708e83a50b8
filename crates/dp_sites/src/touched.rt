//! What an expression reads, and what a statement stores.

ghost use Rattle.std.specs.Prelude.{◌≡◌, ◌++◌, OnOk, IfOk, Some, None};
ghost use Rattle.dp_sites.specs.Place.{index_place};
ghost use Rattle.dp_sites.specs.steps.Parts as spec;

use crate::place::{Place, place_of};
use dp_base::{NoMemory, Row, VarId};
use dp_tree::Expr;
use std::alloc::Global;

/// A variable that is read or stored, with the place of its index, if it has one.
#[derive(Clone, Copy)]
pub struct Touched {
    pub var: VarId,
    pub place: Option<Place>,
}

/// Appends what the expression may load.
#[tactic(auto, using(crate::proofs::PartForms::load_forms))]
fn put_loads(out: &mut Row<Touched>, e: &Expr) -> Result<(), NoMemory>
    ensures { OnOk result (out.new ≡ out.old ++ spec.loads_in e.now) }
{
    match e {
        Expr::Number(_) | Expr::InputLen => Ok(()),
        Expr::Input(index) => put_loads(out, index.get()),
        Expr::Scalar(var) => out.push(Touched {
            var: *var,
            place: None,
        }),
        Expr::Element(var, index) => {
            put_loads(out, index.get())?;
            let place = place_of(index.get());
            out.push(Touched { var: *var, place })?;
            Ok(())
        }
        Expr::Unary(_, a) => put_loads(out, a.get()),
        Expr::Binary(_, a, b) => {
            put_loads(out, a.get())?;
            put_loads(out, b.get())?;
            Ok(())
        }
        Expr::And(a, b) => {
            put_loads(out, a.get())?;
            put_loads(out, b.get())?;
            Ok(())
        }
        Expr::Or(a, b) => {
            put_loads(out, a.get())?;
            put_loads(out, b.get())?;
            Ok(())
        }
    }
}

pub fn loads(alloc: Global, e: &Expr) -> Result<Row<Touched>, NoMemory>
    ensures { IfOk result (λ loads. loads ≡ spec.loads_in e.now) }
{
    let mut loads = Row::new(alloc);
    put_loads(&mut loads, e)?;
    Ok(loads)
}

pub fn both_loads(alloc: Global, a: &Expr, b: &Expr) -> Result<Row<Touched>, NoMemory>
    ensures { IfOk result (λ loads. loads ≡ spec.loads_in a.now ++ spec.loads_in b.now) }
{
    let mut loads = Row::new(alloc);
    put_loads(&mut loads, a)?;
    put_loads(&mut loads, b)?;
    Ok(loads)
}

pub fn whole(var: VarId) -> Option<Touched>
    ensures { result ≡ Some (record { var = var; place = None }) }
{
    Some(Touched { var, place: None })
}

pub fn element(var: VarId, index: &Expr) -> Option<Touched>
    ensures { result ≡ Some (record { var = var; place = index_place index.now }) }
{
    let place = place_of(index);
    Some(Touched { var, place })
}

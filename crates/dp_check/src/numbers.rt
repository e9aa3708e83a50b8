//! The numbers that statements use, before any name is looked at.

ghost use Rattle.std.specs.Prelude.{◌≡◌, ◌≤◌, ◌^◌, OnErr, OnOk};
ghost use Rattle.dp_check.specs.Place.{IsPastNumbers, place_passed, parts, parts_all, sited, with_variable};

use crate::place::Place;
use dp_base::NoMemory;
use dp_tree::RawStmt;

/// Passes a declaration.
fn pass_declaration(place: &mut Place<'_>) -> Result<(), NoMemory>
    ensures place { OnOk result (place.new ≡ with_variable (sited place.old)) }
    ensures full { OnErr result (IsPastNumbers (with_variable (sited place.old))) }
{
    place.take_site()?;
    place.take_variable()?;
    Ok(())
}

/// Passes a statement that has one site, and no variable.
fn pass_site(place: &mut Place<'_>) -> Result<(), NoMemory>
    ensures place { OnOk result (place.new ≡ sited place.old) }
    ensures full { OnErr result (2 ^ 32 ≤ (sited place.old).site) }
{
    place.take_site()?;
    Ok(())
}

/// Passes a statement: its numbers are used.
#[tactic(auto, using(crate::proofs::PlaceLemmas::pass_forms))]
#[cycle(numbers)]
fn pass(place: &mut Place<'_>, s: &RawStmt) -> Result<(), NoMemory>
    ensures place { OnOk result (place.new ≡ place_passed place.old (parts s.now)) }
    ensures full { OnErr result (IsPastNumbers (place_passed place.old (parts s.now))) }
{
    match s {
        RawStmt::Declare { .. } => pass_declaration(place),
        RawStmt::Assign { .. }
        | RawStmt::Store { .. }
        | RawStmt::Print { .. }
        | RawStmt::Break { .. } => pass_site(place),
        RawStmt::Call { .. } => Ok(()),
        RawStmt::If {
            then_part,
            else_part,
            ..
        } => {
            place.take_site()?;
            pass_all(place, then_part.as_slice())?;
            pass_all(place, else_part.as_slice())
        }
        RawStmt::While { body, .. } => {
            place.take_site()?;
            pass_all(place, body.as_slice())
        }
        RawStmt::For {
            first,
            step,
            body,
            ..
        } => {
            pass_all(place, first.as_slice())?;
            place.take_site()?;
            pass_all(place, body.as_slice())?;
            pass_all(place, step.as_slice())
        }
    }
}

/// Passes statements one after the other.
#[cycle(numbers)]
pub fn pass_all(place: &mut Place<'_>, all: &[RawStmt]) -> Result<(), NoMemory>
    ensures place { OnOk result (place.new ≡ place_passed place.old (parts_all all.now)) }
    ensures full { OnErr result (IsPastNumbers (place_passed place.old (parts_all all.now))) }
{
    for s in all {
        pass(place, s)?;
    }
    Ok(())
}

//! What is evaluated at a site.

ghost use Rattle.std.specs.Prelude.{◌≡◌, IfOk, OnOk};
ghost use Rattle.dp_check.specs.Place.{sited};
ghost use Rattle.dp_check.specs.Resolved.{next_site};
ghost use Rattle.dp_check.specs.Answer.{GivesChecked, expr_answer};
ghost use Rattle.dp_check.specs.steps.Evaluation.{expr_part};

use crate::place::Place;
use crate::{CheckFail, expr};
use dp_base::SiteId;
use dp_tree::{Expr, RawExpr};
use std::alloc::Global;

/// The next site, and the expression that is evaluated there.
pub fn evaluation(
    alloc: Global,
    place: &mut Place<'_>,
    e: &RawExpr,
) -> Result<(SiteId, Expr), CheckFail>
    ensures expr { GivesChecked (expr_answer place.old.names e.now) (expr_part result) }
    ensures site { IfOk result (λ found. found.0 ≡ next_site place.old) }
    ensures place { OnOk result (place.new ≡ sited place.old) }
{
    let e = expr::resolve(alloc, &place.names, e)?;
    let site = place.take_site()?;
    Ok((site, e))
}

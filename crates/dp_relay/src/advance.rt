//! One turn of a unit that goes on.
ghost use Rattle.std.specs.Prelude.{◌≡◌, false, None, IfOk, IfErr};
ghost use Rattle.dp_relay.specs.Facts.{RefusesTake, Stays};
ghost use Rattle.dp_relay.specs.Offers.{Advances};
ghost use Rattle.dp_relay.specs.Works.{HasMade, HasSentAll, IsAtWork};

use crate::ends::Ends;
use crate::item::Item;
use crate::offer::offer;
use crate::polled::{IdleWhy, Polled};
use crate::stage::{Made, Stage};
use dp_edge::Gate;
use std::sync::Wait;

/// What is held, or what the stage makes of the next item.
fn next<I: Item, O: Item, E: Ends<I, O>, S: Stage<I, O>, R: Wait, G: Gate>(
    rt: &R,
    gate: &G,
    stage: &mut S,
    ends: &mut E,
    held: &mut Option<Made<O>>,
) -> Result<Made<O>, IdleWhy>
    requires { IsAtWork E.ready E.holds E.taking E.sending E.ended S.stands O.is_sent O.is_last stage.old ends.old false held.old }
    ensures made { IfOk result (λ made. HasMade E.ready E.holds E.taking E.sending E.ended S.stands O.is_sent O.is_last stage.new ends.new made) }
    ensures idle { IfErr result (λ why. HasSentAll E.ready E.holds E.taking E.sending E.ended S.stands O.is_sent O.is_last stage.new ends.new false
        × RefusesTake why (E.taking ends.old) (E.taking ends.new)) }
    ensures sending { Stays (E.sending ends.old) (E.sending ends.new) }
    ensures held { held.new ≡ None }
{
    match held.take() {
        Some(made) => Ok(made),
        None => match ends.take(rt) {
            Ok(item) => Ok(stage.run(gate, item)),
            Err(why) => Err(why),
        },
    }
}

/// Sends what is held, or what the stage makes of the next item.
pub(crate) fn advance<I: Item, O: Item, E: Ends<I, O>, S: Stage<I, O>, R: Wait, G: Gate>(
    rt: &R,
    gate: &G,
    stage: &mut S,
    ends: &mut E,
    held: &mut Option<Made<O>>,
    ended: &mut bool,
) -> Polled
    requires work { IsAtWork E.ready E.holds E.taking E.sending E.ended S.stands O.is_sent O.is_last stage.old ends.old ended.old held.old }
    requires goes_on { ended.old ≡ false }
    ensures work { IsAtWork E.ready E.holds E.taking E.sending E.ended S.stands O.is_sent O.is_last stage.new ends.new ended.new held.new }
    ensures advances { Advances (E.taking ends.old) (E.sending ends.old) result (E.taking ends.new) (E.sending ends.new) }
{
    match next(rt, gate, stage, ends, held) {
        Err(why) => Polled::Idle(why),
        Ok(made) => offer(rt, ends, held, ended, made),
    }
}

//! The ends of a worker of a replicated stage.
ghost use Rattle.std.specs.Prelude.{◌≡◌, ℕ, true, Option};

use crate::carried::Carried;
use dp_relay::{Ends, IdleWhy, Refused};
use dp_ring::{Busy, PutBusy, WorkerSeat};
use std::sync::Wait;

/// Batches come out of a ring and go back into it, each by a ticket.
#[derive(Drop)]
pub struct Tickets<'p> {
    pub(crate) seat: WorkerSeat<Carried<'p>>,
    /// A ticket was drawn, and its batch isn't given yet.
    pub(crate) has_ticket: bool,
}

impl<'p> Tickets<'p> {
    ghost use Rattle.dp_relay.specs.UnitsKey.{UnitsKey};
    ghost use Rattle.dp_pipeline.specs.Seats.{MayTake, taking_facts, giving_facts};

    /// Draws a ticket where it has none.
    fn draw(&mut self)
        requires { (key : UnitsKey) × (s : ℕ) × (place : Option ℕ) × MayTake self.old key s place }
        ensures ready { (key : UnitsKey) (s : ℕ) (place : Option ℕ) → MayTake self.old key s place → MayTake self.new key s place }
        ensures ticket { self.new.has_ticket ≡ true }
        ensures facts { (taking_facts self.new.seat ≡ taking_facts self.old.seat) × (giving_facts self.new.seat ≡ giving_facts self.old.seat) }
        ensures ended { self.new.seat.view.ended ≡ self.old.seat.view.ended }
    {
        if !self.has_ticket {
            self.seat.draw();
            self.has_ticket = true;
        }
    }
}

impl<'p> Ends<Carried<'p>, Carried<'p>> for Tickets<'p> {
    ghost use Rattle.dp_pipeline.specs.Seats.{MayTake, HasTaken, taking_facts, giving_facts};

    ghost ready = { MayTake };

    ghost holds = { HasTaken };

    ghost taking = { λ ends. taking_facts ends.seat };

    ghost sending = { λ ends. giving_facts ends.seat };

    ghost ended = { λ ends. ends.seat.view.ended };

    fn take<R: Wait>(&mut self, _rt: &R) -> Result<Carried<'p>, IdleWhy> {
        self.draw();
        match self.seat.take() {
            Ok(item) => Ok(item),
            Err(Busy { word }) => Err(IdleWhy::Busy { word }),
        }
    }

    fn send<R: Wait>(&mut self, _rt: &R, item: Carried<'p>) -> Result<(), Refused<Carried<'p>>> {
        match self.seat.give(item) {
            Ok(()) => {
                self.has_ticket = false;
                Ok(())
            }
            Err(PutBusy { item, word }) => Err(Refused {
                item,
                why: IdleWhy::Busy { word },
            }),
        }
    }
}

//! A unit of one kind: its stage between its ends.
ghost use Rattle.std.specs.Prelude.{◌≡◌, false};
ghost use Rattle.dp_relay.specs.declared.polled.Polled.TheVariants.{Ended};
ghost use Rattle.dp_relay.specs.Polls.{Polls, HasEnded, LooksOnce, counts_of, why_ended};
ghost use Rattle.dp_relay.specs.Works.{HasSentAll};

use crate::advance::advance;
use crate::ends::Ends;
use crate::item::Item;
use crate::polled::{EndedWhy, Polled};
use crate::stage::{Made, Stage};
use dp_edge::Gate;
use dp_stop::StopSeat;
use std::marker::{Model, PhantomData};
use std::sync::Wait;

/// A stage between its ends, with a seat at the stop flag.
pub struct Relay<I: Item, O: Item, E: Ends<I, O>, S: Stage<I, O>> {
    stage: S,
    ends: E,
    /// What was made and isn't sent yet.
    held: Option<Made<O>>,
    /// The item sent last was an ending one.
    ended: bool,
    seat: StopSeat,
    /// The seat saw the flag set.
    stopped: bool,
    taken: PhantomData<I>,
}

// By hand, so that a crate above doesn't prove again how all that it holds is dropped.
impl<I: Item, O: Item, E: Ends<I, O>, S: Stage<I, O>> Drop for Relay<I, O, E, S> {
    fn drop(self) {
        let Relay {
            stage: _,
            ends: _,
            held: _,
            ended: _,
            seat: _,
            stopped: _,
            taken: _,
        } = self;
    }
}

impl<I: Item, O: Item, E: Ends<I, O>, S: Stage<I, O>> Model for Relay<I, O, E, S> {
    ghost use Rattle.std.specs.Prelude.{◌≡◌};
    ghost use Rattle.dp_relay.specs.Polls.{Counts, counts_of};
    ghost use Rattle.dp_relay.specs.Works.{IsAtWork};

    ghost Value = { Counts };

    ghost view = { λ s. counts_of (E.taking s.ends) (E.sending s.ends) (E.ended s.ends) s.seat };

    ghost invariant = { λ s. IsAtWork E.ready E.holds E.taking E.sending E.ended S.stands O.is_sent O.is_last s.stage s.ends s.ended s.held
        × (s.seat.seen ≡ s.stopped) };
}

impl<I: Item, O: Item, E: Ends<I, O>, S: Stage<I, O>> Relay<I, O, E, S> {
    /// A unit that has taken and sent nothing, with a seat of the flag that hasn't seen it set.
    pub fn new(stage: S, ends: E, seat: StopSeat) -> Relay<I, O, E, S>
        requires start { HasSentAll E.ready E.holds E.taking E.sending E.ended S.stands O.is_sent O.is_last stage ends false }
        requires seat { seat.seen ≡ false }
        ensures { result ≡ counts_of (E.taking ends) (E.sending ends) (E.ended ends) seat }
    {
        Relay {
            stage,
            ends,
            held: None,
            ended: false,
            seat,
            stopped: false,
            taken: PhantomData,
        }
    }

    /// Takes, makes and sends at most one item, and waits neither for an item nor for a place.
    pub fn poll<R: Wait, G: Gate>(&mut self, rt: &R, gate: &G) -> Polled
        ensures polls { Polls self.old result self.new }
        ensures stays { HasEnded self.old → result ≡ Ended }
        ensures looks { LooksOnce self.old result self.new }
    {
        if self.ended || self.stopped {
            return Polled::Ended;
        }
        if self.seat.is_set(rt) {
            self.stopped = true;
            return Polled::Ended;
        }
        advance::<I, O, E, S, R, G>(
            rt,
            gate,
            &mut self.stage,
            &mut self.ends,
            &mut self.held,
            &mut self.ended,
        )
    }

    /// Why it has ended, if it has.
    pub fn ended(&self) -> Option<EndedWhy>
        ensures { result ≡ why_ended self.now }
    {
        if self.ended {
            Some(EndedWhy::Last)
        } else if self.stopped {
            Some(EndedWhy::Stopped)
        } else {
            None
        }
    }
}

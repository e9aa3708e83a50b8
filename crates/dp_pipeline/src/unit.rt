//! The units of an epoch, each polled until it has ended.
use crate::carried::Carried;
use crate::judge::Judge;
use crate::judged::Judged;
use crate::judging::Judging;
use crate::passage::Passage;
use crate::staged::Staged;
use crate::tickets::Tickets;
use dp_base::Boxed;
use dp_edge::Gate;
use dp_relay::{EndedWhy, Polled, Relay};
use std::marker::Model;
use std::sync::Wait;

/// What a unit does.
#[derive(Drop)]
pub(crate) enum Kind<'p> {
    Stage(Relay<Carried<'p>, Carried<'p>, Passage<'p>, Staged>),
    Worker(Relay<Carried<'p>, Carried<'p>, Tickets<'p>, Staged>),
    TryCommit(Relay<Carried<'p>, Judged<'p>, Judging<'p>, Judge>),
}

/// A stage, a worker of a replicated one, or the try-commit unit of an epoch.
pub struct Unit<'p> {
    /// In a box, since a unit is moved often and is large.
    pub(crate) kind: Boxed<Kind<'p>>,
}

// By hand, so that a crate above doesn't prove again how all that a unit holds is dropped.
impl<'p> Drop for Unit<'p> {
    fn drop(self) {
        let Unit { kind: _ } = self;
    }
}

impl<'p> Model for Unit<'p> {
    ghost use Rattle.dp_relay.specs.Polls.{Counts};
    ghost use Rattle.dp_pipeline.specs.declared.unit.Kind.TheVariants.{Stage, Worker, TryCommit};

    ghost Value = { Counts };

    ghost view = { λ s. elim (s.kind) [ Stage unit ↦ unit | Worker unit ↦ unit | TryCommit unit ↦ unit ] };
}

impl<'p> Unit<'p> {
    ghost use Rattle.std.specs.Prelude.{◌≡◌};
    ghost use Rattle.dp_relay.specs.declared.polled.Polled.TheVariants.{Ended};
    ghost use Rattle.dp_relay.specs.Polls.{Polls, HasEnded, LooksOnce, why_ended};

    /// Takes, makes and sends at most one item, and waits neither for an item nor for a place.
    pub fn poll<R: Wait, G: Gate>(&mut self, rt: &R, gate: &G) -> Polled
        ensures polls { Polls self.old result self.new }
        ensures stays { HasEnded self.old → result ≡ Ended }
        ensures looks { LooksOnce self.old result self.new }
    {
        match self.kind.get_mut() {
            Kind::Stage(unit) => unit.poll(rt, gate),
            Kind::Worker(unit) => unit.poll(rt, gate),
            Kind::TryCommit(unit) => unit.poll(rt, gate),
        }
    }

    /// Why it has ended, if it has.
    pub fn ended(&self) -> Option<EndedWhy>
        ensures { result ≡ why_ended self.now }
    {
        match self.kind.get() {
            Kind::Stage(unit) => unit.ended(),
            Kind::Worker(unit) => unit.ended(),
            Kind::TryCommit(unit) => unit.ended(),
        }
    }
}

//! The ends of a stage that takes its batches in order.

use crate::carried::Carried;
use crate::source::Source;
use crate::target::Target;
use dp_relay::{Ends, IdleWhy, Refused};
use std::sync::Wait;

/// Batches come from a source, and go on in order.
#[derive(Drop)]
pub struct Passage<'p> {
    pub(crate) source: Source<'p>,
    pub(crate) target: Target<'p>,
}

impl<'p> Ends<Carried<'p>, Carried<'p>> for Passage<'p> {
    ghost use Rattle.dp_pipeline.specs.Standing.{IsReady, IsHolding, source_facts, target_facts, target_ended};

    ghost ready = { IsReady };

    ghost holds = { IsHolding };

    ghost taking = { λ ends. source_facts ends.source };

    ghost sending = { λ ends. target_facts ends.target };

    ghost ended = { λ ends. target_ended ends.target };

    fn take<R: Wait>(&mut self, rt: &R) -> Result<Carried<'p>, IdleWhy> {
        self.source.take(rt)
    }

    fn send<R: Wait>(&mut self, rt: &R, item: Carried<'p>) -> Result<(), Refused<Carried<'p>>> {
        self.target.send(rt, item)
    }
}

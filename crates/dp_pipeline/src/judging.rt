//! The ends of the try-commit unit.

use crate::carried::Carried;
use crate::judged::Judged;
use crate::source::Source;
use dp_lane::SendEnd;
use dp_relay::{Ends, IdleWhy, Refused};
use std::sync::Wait;

/// Batches come from a source, and verdicts go to the commit unit.
#[derive(Drop)]
pub struct Judging<'p> {
    pub(crate) source: Source<'p>,
    pub(crate) verdicts: SendEnd<Judged<'p>>,
}

impl<'p> Ends<Carried<'p>, Judged<'p>> for Judging<'p> {
    ghost use Rattle.dp_pipeline.specs.Standing.{MayJudge, HasJudged, source_facts, sent_facts, sender_ended};

    ghost ready = { MayJudge };

    ghost holds = { HasJudged };

    ghost taking = { λ ends. source_facts ends.source };

    ghost sending = { λ ends. sent_facts ends.verdicts };

    ghost ended = { λ ends. sender_ended ends.verdicts.view };

    fn take<R: Wait>(&mut self, rt: &R) -> Result<Carried<'p>, IdleWhy> {
        self.source.take(rt)
    }

    fn send<R: Wait>(&mut self, rt: &R, item: Judged<'p>) -> Result<(), Refused<Judged<'p>>> {
        match self.verdicts.send(rt, item) {
            Ok(()) => Ok(()),
            Err(item) => Err(Refused {
                item,
                why: IdleWhy::Full,
            }),
        }
    }
}

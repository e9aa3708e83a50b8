//! The judgement as a unit's stage.
use crate::carried::Carried;
use crate::ending::is_last_told;
use crate::judged::Judged;
use dp_edge::Gate;
use dp_judge::LeanCourt;
use dp_relay::{Made, Stage};

/// What judges the batches of the last stage.
#[derive(Drop)]
pub struct Judge {
    pub(crate) court: LeanCourt,
}

impl<'p> Stage<Carried<'p>, Judged<'p>> for Judge {
    ghost use Rattle.dp_pipeline.specs.Staging.{JudgesAt};

    ghost stands = { JudgesAt };

    fn run<G: Gate>(&mut self, _gate: &G, item: Carried<'p>) -> Made<Judged<'p>> {
        let Carried { batch, mut told } = item;
        self.court.judge(batch.get(), told.get_mut());
        let last = is_last_told(batch.get(), told.get());
        Made {
            item: Judged { told, batch },
            last,
        }
    }
}

//! A stage's machine as a unit's stage.
use crate::carried::Carried;
use crate::ending::is_last_batch;
use dp_edge::Gate;
use dp_lean_machine::LeanMachine;
use dp_relay::{Made, Stage};

/// A stage's machine, and the fuel's number, behind which no iteration follows.
#[derive(Drop)]
pub struct Staged {
    pub(crate) machine: LeanMachine,
    pub(crate) stage: u32,
    pub(crate) fuel: u64,
}

impl<'p> Stage<Carried<'p>, Carried<'p>> for Staged {
    ghost use Rattle.dp_pipeline.specs.Staging.{RunsAt};

    ghost stands = { RunsAt };

    // Only here is the gate known, since a call that it goes along with isn't covered in a trait's method.
    fn run<G: Gate>(&mut self, gate: &G, item: Carried<'p>) -> Made<Carried<'p>> {
        let Carried { mut batch, told } = item;
        let first = batch.get().first();
        for place in 0..batch.get().iterations() {
            gate.enter(self.stage, first.saturating_add(place as u64));
        }
        self.machine.run(batch.get_mut());
        let last = is_last_batch(batch.get(), self.fuel);
        Made {
            item: Carried { batch, told },
            last,
        }
    }
}

//! One line that tells how far a run is.
use crate::choices::Choices;
use crate::page::Page;
use crate::shown::Shown;
use dp_commit::{Chosen, Progress, Watch};
use std::alloc::Global;
use std::time::{Clock, Duration, Instant};

/// The clock is looked at when the run has made so many steps more.
const STRIDE: u64 = 16_384;

/// The line comes after so many milliseconds, and is written over so often.
const FIRST: u64 = 1_000;

const EVERY: u64 = 250;

/// A watch that shows how far a run is, and keeps by which plans its regions were run.
#[derive(Drop)]
pub struct Line<'r, 's, 'p, R, P: Print> {
    alloc: Global,
    clock: &'r R,
    shown: &'s Shown<'p, P>,
    /// When the run began, where it is to be shown.
    begun: Option<Instant>,
    looked: u64,
    next: u64,
    choices: Choices,
}

impl<'r, 's, 'p, R: Clock, P: Print> Line<'r, 's, 'p, R, P> {
    /// A line that is shown, or none; and choices that are kept, where they are asked for.
    pub fn new(
        alloc: Global,
        clock: &'r R,
        shown: &'s Shown<'p, P>,
        on: bool,
        choices: Choices,
    ) -> Line<'r, 's, 'p, R, P> {
        let begun = if on { Instant::now(clock).ok() } else { None };
        Line {
            alloc,
            clock,
            shown,
            begun,
            looked: 0,
            next: FIRST,
            choices,
        }
    }

    /// By which plans regions were run so far.
    pub fn choices(&self) -> &Choices {
        &self.choices
    }

    /// Shows how far the run is, where it is time to.
    fn look(&mut self, progress: Progress) {
        let Some(begun) = self.begun else {
            return;
        };
        let Ok(past) = begun.elapsed(self.clock) else {
            return;
        };
        let past = milliseconds(past);
        if past < self.next {
            return;
        }
        self.next = past.saturating_add(EVERY);
        let mut page = Page::new(self.alloc);
        put_progress(&mut page, progress, past);
        self.shown.show(page.text());
    }
}

impl<R: Clock, P: Print> Watch for Line<'_, '_, '_, R, P> {
    fn went_on(&mut self, progress: Progress) {
        if progress.steps.saturating_sub(self.looked) >= STRIDE {
            self.looked = progress.steps;
            self.look(progress);
        }
    }

    fn chose(&mut self, region: u32, chosen: Chosen) {
        self.choices.add(region, chosen);
    }
}

fn milliseconds(past: Duration) -> u64 {
    past.as_secs()
        .saturating_mul(1_000)
        .saturating_add(u64::from(past.subsec_millis()))
}

/// Puts how far a run is after so many milliseconds.
fn put_progress(page: &mut Page, progress: Progress, past: u64) {
    page.put("dswp: ");
    page.put_number(progress.committed);
    page.put(" committed, ");
    page.put_number(progress.again);
    page.put(" again, ");
    page.put_number(progress.steps);
    page.put(" steps, ");
    page.put_number(progress.steps.saturating_mul(1_000) / past.max(1));
    page.put(" a second");
}

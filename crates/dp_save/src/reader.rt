//! What the lines of a text say so far, and what each line adds.

ghost use Rattle.std.specs.Prelude.{◌≡◌, IfOk};
ghost use Rattle.std.specs.Option.{option_copied};
ghost use Rattle.dp_save.specs.steps.Reading as spec;

use crate::Checkpoint;
use crate::line::{Place, is_version, read_place, read_values};
use crate::memory::cells_fit;
use crate::report::read_report;
use dp_base::{Cells, NoMemory, RegionReport, Row};
use dp_text::next_word;
use dp_tree::Program;
use std::alloc::Global;

/// How far a text has come.
#[derive(Clone, Copy)]
pub enum Phase {
    /// Before its first line.
    Start,
    Headed,
    /// Behind the line of the place.
    Placed,
    /// Behind that of the memory.
    Held,
    /// Behind its last line.
    Over,
}

/// What the lines so far say; what they don't say yet is 0 or empty.
pub struct Reader {
    pub phase: Phase,
    pub so_far: Checkpoint,
}

impl Drop for Reader {
    fn drop(self) {
        let Reader {
            phase: _,
            so_far: _,
        } = self;
    }
}

impl Place {
    /// The region is one of the program, and the steps are within the fuel.
    fn fits(self, p: &Program) -> bool
        ensures { result ≡ spec.place_fits p.now self }
    {
        0 < self.region && self.region as usize <= p.regions.len() && self.steps <= self.fuel
    }
}

impl Checkpoint {
    /// The report is that of the next region up to the checkpoint's own.
    fn is_next(&self, report: &RegionReport) -> bool
        ensures { result ≡ spec.is_next self.now report.now }
    {
        0 < report.region
            && self.reports.len() == report.region as usize - 1
            && report.region <= self.region
            && (report.region != self.region || report.iterations == self.after)
    }
}

impl Reader {
    ghost use Rattle.dp_text.specs.Words.{words, words_behind};
    ghost use Rattle.dp_save.specs.steps.LineWords as line;

    pub(crate) fn new(alloc: Global) -> Reader
        ensures { result ≡ spec.begun }
    {
        Reader {
            phase: Phase::Start,
            so_far: Checkpoint {
                region: 0,
                after: 0,
                steps: 0,
                fuel: 0,
                cells: Cells::from_values(alloc, Vec::new(alloc)),
                reports: Row::new(alloc),
            },
        }
    }

    fn in_phase(self, phase: Phase) -> Reader
        ensures { result ≡ spec.in_phase phase self }
    {
        let mut reader = self;
        reader.phase = phase;
        reader
    }

    pub(crate) fn into_checkpoint(self) -> Checkpoint
        ensures { result ≡ self.so_far }
    {
        let Reader { phase: _, so_far } = self;
        so_far
    }

    fn is_headed(&self) -> bool
        ensures { result ≡ spec.is_headed self.now.phase }
    {
        matches!(self.phase, Phase::Headed)
    }

    fn is_placed(&self) -> bool
        ensures { result ≡ spec.is_placed self.now.phase }
    {
        matches!(self.phase, Phase::Placed)
    }

    fn is_held(&self) -> bool
        ensures { result ≡ spec.is_held self.now.phase }
    {
        matches!(self.phase, Phase::Held)
    }

    #[tactic(auto, unfolding(crate::specs::steps::Reading::next, crate::specs::steps::Reading::next_by))]
    fn head(self, p: &Program, text: Option<&[u8]>) -> Option<Reader>
        ensures { result ≡ spec.next_by p.now self (line.head_line (words_behind (option_copied text.entry))) }
    {
        if !is_version(text) || !matches!(self.phase, Phase::Start) || p.regions.is_empty() {
            return None;
        }
        Some(self.in_phase(Phase::Headed))
    }

    fn placed(self, place: Place) -> Reader
        ensures { result ≡ spec.placed self place }
    {
        let mut reader = self;
        reader.phase = Phase::Placed;
        reader.so_far.region = place.region;
        reader.so_far.after = place.after;
        reader.so_far.steps = place.steps;
        reader.so_far.fuel = place.fuel;
        reader
    }

    #[tactic(auto, unfolding(crate::specs::steps::Reading::next, crate::specs::steps::Reading::next_by))]
    fn place(self, p: &Program, place: Option<Place>) -> Option<Reader>
        ensures { result ≡ spec.next_by p.now self (line.place_line place) }
    {
        let place = place?;
        if !self.is_headed() || !place.fits(p) {
            return None;
        }
        Some(self.placed(place))
    }

    fn cells(self, alloc: Global, p: &Program, cells: Row<i64>) -> Option<Reader>
        ensures { result ≡ spec.cells_next p.now self cells }
    {
        if !self.is_placed() || !cells_fit(p, cells.as_slice()) {
            return None;
        }
        let mut reader = self;
        reader.phase = Phase::Held;
        reader.so_far.cells = Cells::from_values(alloc, cells.into_vec());
        Some(reader)
    }

    #[tactic(auto, unfolding(crate::specs::steps::Reading::next, crate::specs::steps::Reading::next_by))]
    fn read_cells(
        self,
        alloc: Global,
        p: &Program,
        text: Option<&[u8]>,
    ) -> Result<Option<Reader>, NoMemory>
        ensures { let words = words_behind (option_copied text.entry) in
            IfOk result (λ reader. reader ≡ spec.next_by p.now self (line.cells_line words (line.each_read line.value_of words))) }
    {
        match read_values(alloc, text)? {
            None => Ok(None),
            Some(cells) => Ok(self.cells(alloc, p, cells)),
        }
    }

    fn report(self, report: RegionReport) -> Result<Option<Reader>, NoMemory>
        ensures { IfOk result (λ reader. reader ≡ spec.report_next self report) }
    {
        if !self.is_held() || !self.so_far.is_next(&report) {
            return Ok(None);
        }
        let mut reader = self;
        reader.so_far.reports.push(report)?;
        Ok(Some(reader))
    }

    #[tactic(auto, unfolding(crate::specs::steps::Reading::next, crate::specs::steps::Reading::next_by))]
    fn read_report(
        self,
        alloc: Global,
        p: &Program,
        text: Option<&[u8]>,
    ) -> Result<Option<Reader>, NoMemory>
        ensures { IfOk result (λ reader. reader ≡ spec.next_by p.now self (line.report_line (line.report_of (words_behind (option_copied text.entry))))) }
    {
        match read_report(alloc, text)? {
            None => Ok(None),
            Some(report) => self.report(report),
        }
    }

    #[tactic(auto, unfolding(crate::specs::steps::Reading::next, crate::specs::steps::Reading::next_by), using(crate::proofs::WordLemmas::end_more))]
    fn end(self, p: &Program, text: Option<&[u8]>) -> Option<Reader>
        ensures { result ≡ spec.next_by p.now self (line.end_line (words_behind (option_copied text.entry))) }
    {
        match text {
            None => {
                if !self.is_held() || self.so_far.reports.len() != self.so_far.region as usize {
                    return None;
                }
                Some(self.in_phase(Phase::Over))
            }
            Some(_) => None,
        }
    }

    /// What is known after one more line, if it may stand here; it is given without its LF.
    #[tactic(auto, unfolding(crate::specs::steps::LineWords::line_of, crate::specs::steps::Reading::next_by))]
    pub(crate) fn after(
        self,
        alloc: Global,
        p: &Program,
        text: &[u8],
    ) -> Result<Option<Reader>, NoMemory>
        ensures { IfOk result (λ reader. reader ≡ spec.next_by p.now self (line.line_of (words text.now))) }
    {
        let (label, rest) = next_word(text);
        if label == b"report".as_slice() {
            self.read_report(alloc, p, rest)
        } else if label == b"cells".as_slice() {
            self.read_cells(alloc, p, rest)
        } else if label == b"region".as_slice() {
            Ok(self.place(p, read_place(rest)))
        } else if label == b"checkpoint".as_slice() {
            Ok(self.head(p, rest))
        } else if label == b"end".as_slice() {
            Ok(self.end(p, rest))
        } else {
            Ok(None)
        }
    }
}

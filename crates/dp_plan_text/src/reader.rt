//! What the lines of a text say so far, and what each line adds.

ghost use Rattle.std.specs.Prelude.{◌≡◌, [], IfOk};

use crate::line::Line;
use dp_base::limits::STAGES;
use dp_base::{NoMemory, Row};
use dp_plan::{WrittenPlan, WrittenStage};
use dp_tree::Assume;
use std::alloc::Global;

/// How far a text has come.
#[derive(Clone, Copy)]
pub enum Phase {
    /// Before its first line.
    Start,
    Inside,
    /// Behind its last line.
    Over,
}

/// What the lines so far say.
#[derive(Drop)]
pub struct Reader {
    pub phase: Phase,
    /// What the first line says of proved independence.
    pub proved: bool,
    /// The plans of the regions before the last one.
    pub plans: Row<WrittenPlan>,
    /// That of the last region, whose number is 0 where there is none.
    pub last: WrittenPlan,
}

/// A plan without a line but the first.
fn opened(alloc: Global, region: u32, words: u32) -> WrittenPlan
    ensures { result ≡ record { region = region; words = words; stages = []; assume = [] } }
{
    WrittenPlan {
        region,
        words,
        stages: Row::new(alloc),
        assume: Row::new(alloc),
    }
}

impl Reader {
    ghost use Rattle.std.specs.Prelude.{Some};
    ghost use Rattle.dp_plan_text.specs.declared.line.Line.TheVariants as line;
    ghost use Rattle.dp_plan_text.specs.steps.Reading as spec;

    pub(crate) fn new(alloc: Global) -> Reader
        ensures { result ≡ spec.begun }
    {
        Reader {
            phase: Phase::Start,
            proved: false,
            plans: Row::new(alloc),
            last: opened(alloc, 0, 0),
        }
    }

    fn is_inside(&self) -> bool
        ensures { result ≡ spec.is_inside self.now.phase }
    {
        matches!(self.phase, Phase::Inside)
    }

    fn has_region(&self) -> bool
        ensures { result ≡ spec.has_region self.now }
    {
        self.is_inside() && self.last.region != 0
    }

    /// No region's line has been read, or the last region has a stage.
    fn is_between(&self) -> bool
        ensures { result ≡ spec.is_between self.now }
    {
        self.is_inside() && (self.last.region == 0 || !self.last.stages.is_empty())
    }

    /// The plans with that of the last region.
    fn closed(self) -> Result<Row<WrittenPlan>, NoMemory>
        ensures { IfOk result (λ plans. plans ≡ spec.closed self) }
    {
        let Reader {
            mut plans,
            last,
            ..
        } = self;
        if last.region != 0 {
            plans.push(last)?;
        }
        Ok(plans)
    }

    #[tactic(auto, unfolding(crate::specs::steps::Reading::next))]
    fn head(self, regions: u32, proved: bool) -> Option<Reader>
        ensures { result ≡ spec.next regions self (line.Head proved) }
    {
        if !matches!(self.phase, Phase::Start) {
            return None;
        }
        let Reader { plans, last, .. } = self;
        Some(Reader {
            phase: Phase::Inside,
            proved,
            plans,
            last,
        })
    }

    #[tactic(auto, unfolding(crate::specs::steps::Reading::next))]
    fn region(
        self,
        alloc: Global,
        regions: u32,
        region: u32,
        words: u32,
    ) -> Result<Option<Reader>, NoMemory>
        ensures { IfOk result (λ reader. reader ≡ spec.next regions self (line.Region region words)) }
    {
        if !self.is_between() || self.last.region >= regions || region != self.last.region + 1 {
            return Ok(None);
        }
        Ok(Some(Reader {
            phase: Phase::Inside,
            proved: self.proved,
            plans: self.closed()?,
            last: opened(alloc, region, words),
        }))
    }

    #[tactic(auto, unfolding(crate::specs::steps::Reading::next))]
    fn stage(self, regions: u32, stage: WrittenStage) -> Result<Option<Reader>, NoMemory>
        ensures { IfOk result (λ reader. reader ≡ spec.next regions self (line.Stage stage)) }
    {
        if !self.has_region()
            || self.last.stages.len() >= STAGES as usize
            || !self.last.assume.is_empty()
        {
            return Ok(None);
        }
        let mut reader = self;
        reader.last.stages.push(stage)?;
        Ok(Some(reader))
    }

    #[tactic(auto, unfolding(crate::specs::steps::Reading::next))]
    fn assume(self, regions: u32, assume: Assume) -> Result<Option<Reader>, NoMemory>
        ensures { IfOk result (λ reader. reader ≡ spec.next regions self (line.Assume assume)) }
    {
        if !self.has_region() || self.last.stages.is_empty() {
            return Ok(None);
        }
        let mut reader = self;
        reader.last.assume.push(assume)?;
        Ok(Some(reader))
    }

    #[tactic(auto, unfolding(crate::specs::steps::Reading::next))]
    fn end(self, alloc: Global, regions: u32) -> Result<Option<Reader>, NoMemory>
        ensures { IfOk result (λ reader. reader ≡ spec.next regions self line.End) }
    {
        if !self.is_between() || self.last.region != regions {
            return Ok(None);
        }
        Ok(Some(Reader {
            phase: Phase::Over,
            proved: self.proved,
            plans: self.closed()?,
            last: opened(alloc, 0, 0),
        }))
    }

    /// What is known after one more line, if it may stand here.
    #[tactic(auto, unfolding(crate::specs::steps::Reading::next_by))]
    pub(crate) fn after(
        self,
        alloc: Global,
        regions: u32,
        line: Option<Line>,
    ) -> Result<Option<Reader>, NoMemory>
        ensures { IfOk result (λ reader. reader ≡ spec.next_by regions self line) }
    {
        match line {
            None => Ok(None),
            Some(Line::Head { proved }) => Ok(self.head(regions, proved)),
            Some(Line::Region { region, words }) => self.region(alloc, regions, region, words),
            Some(Line::Stage(stage)) => self.stage(regions, stage),
            Some(Line::Assume(assume)) => self.assume(regions, assume),
            Some(Line::End) => self.end(alloc, regions),
        }
    }
}

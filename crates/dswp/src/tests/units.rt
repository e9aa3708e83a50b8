//! The units of one epoch, polled by hand: what a poll answers, and that no order of polls changes a verdict.
ghost use Rattle.std.specs.Prelude.{◌≡◌, ◌<◌, ◌^◌, ◌-◌, ℕ, true, false, IfOk, IfSome};
ghost use Rattle.dp_semantics.specs.EpochVerdicts.{goes_on, verdict_at};
ghost use Rattle.dp_tree.specs.Inlined.{IsInlined};

use super::shelf_of;
use dp_base::{Cells, NoMemory, Row};
use dp_edge::{OpenGate, Shelf};
use dp_judge::Verdict;
use dp_load::{Loaded, load_plans, load_program};
use dp_meaning::Machine;
use dp_pipeline::{Begin, CrewSize, LaneVerdicts, Pipeline};
use dp_prepared::PreparedRegion;
use dp_relay::{IdleWhy, Polled};
use dp_stop::StopSetter;
use dp_tree::Program;
use std::alloc::Global;
use std::process::Abort;
use std::sync::Wait;
use std::test::Fail;
use std::time::Clock;

const PLAN: &[u8] = b"plan 1\nregion 1 words 4096\nseq 2 3 4\npar 5\nseq 6\nend\n";

const WORDS: [i64; 7] = [0, 1, 2, 3, 4, 5, 6];

/// More polls than the units need in any of the orders.
const POLLS: u32 = 2_000;

/// In which order the units are polled.
#[derive(Clone, Copy)]
enum Order {
    Forwards,
    Backwards,
    Mixed,
}

impl Order {
    /// The place of the unit that is polled at this turn, which has this number.
    fn place(self, turn: u32, number: u64, units: usize) -> usize {
        let count = units.max(1);
        let place = turn as usize % count;
        match self {
            Order::Forwards => place,
            Order::Backwards => count - 1 - place,
            Order::Mixed => number as usize % count,
        }
    }
}

/// The pipeline of an epoch that begins with the first iteration, in a memory of zeros.
fn pipeline_of<'u>(
    alloc: Global,
    region: &'u PreparedRegion<'_>,
    size: CrewSize,
    setter: &mut StopSetter,
) -> Result<Pipeline<'u>, NoMemory>
    ensures { IfOk result (λ made. made.verdicts.given ≡ 0) }
{
    let machine = Machine::new(alloc, region.program(), &WORDS, 1_000)?;
    match u32::try_from(machine.cells().len()) {
        Ok(count) => {
            let base = Cells::new(alloc, count)?;
            let begin = Begin {
                first: 0,
                base: &base,
                steps: 0,
                fuel: 1_000,
            };
            Pipeline::new(alloc, region, &WORDS, begin, size, setter)
        }
        Err(_) => Err(NoMemory),
    }
}

/// What a clean verdict tells.
#[derive(Clone, Copy)]
struct Told {
    closing: bool,
    stores: bool,
}

/// What the verdict on the next iteration tells, if it is clean.
fn next_told<R: Wait + Clock>(rt: &R, verdicts: &mut LaneVerdicts<'_>) -> Option<Told>
    requires { (n : ℕ) → n < verdicts.old.given → goes_on (verdict_at verdicts.old.key n) ≡ true }
    ensures { IfSome result (λ told. told.closing ≡ false → (n : ℕ) → n < verdicts.new.given → goes_on (verdict_at verdicts.new.key n) ≡ true) }
{
    verdicts.next(rt);
    match verdicts.verdict() {
        Verdict::Clean(clean) => Some(Told {
            closing: clean.closing(),
            stores: !clean.stores().is_empty(),
        }),
        Verdict::Unclean | Verdict::NoMemory => None,
    }
}

/// Whether the verdicts on so many iterations are clean, and the last of them, which alone stores nothing, closes the region.
fn all_clean<R: Wait + Clock>(rt: &R, verdicts: &mut LaneVerdicts<'_>, count: u32) -> bool
    requires { verdicts.old.given ≡ 0 }
{
    for place in 0..count {
        match next_told(rt, verdicts) {
            Some(told) => {
                if told.closing {
                    return place + 1 == count && !told.stores;
                }
                if !told.stores {
                    return false;
                }
            }
            None => return false,
        }
    }
    false
}

/// Whether the epoch's eight iterations are clean where its units are polled in this order.
fn is_clean_in<R: Wait + Clock>(
    rt: &R,
    alloc: Global,
    region: &PreparedRegion<'_>,
    order: Order,
) -> Result<bool, NoMemory> {
    let mut setter = StopSetter::new(alloc)?;
    let size = CrewSize::new(2, 16, true);
    let Pipeline {
        mut units,
        mut verdicts,
    } = pipeline_of(alloc, region, size, &mut setter)?;
    let mut number: u64 = 1;
    for turn in 0..POLLS {
        number = number.wrapping_mul(1_103_515_245).wrapping_add(12_345) % 2_147_483_648;
        let place = order.place(turn, number, units.len());
        if let Some(unit) = units.as_mut_slice().get_mut(place) {
            unit.poll(rt, &OpenGate);
        }
    }
    Ok(all_clean(rt, &mut verdicts, 8))
}

/// What the try-commit unit answers first, and then stage 1 twice, where there is one worker and a lane has one place.
fn first_answers<R: Wait + Clock>(
    rt: &R,
    alloc: Global,
    region: &PreparedRegion<'_>,
) -> Result<Row<Polled>, NoMemory> {
    let mut setter = StopSetter::new(alloc)?;
    let size = CrewSize::new(1, 1, true);
    let Pipeline { mut units, .. } = pipeline_of(alloc, region, size, &mut setter)?;
    let mut answers = Row::new(alloc);
    for place in [3, 0, 0] {
        if let Some(unit) = units.as_mut_slice().get_mut(place) {
            answers.push(unit.poll(rt, &OpenGate))?;
        }
    }
    Ok(answers)
}

/// The rows for one region.
fn each_row<R: Abort + Wait + Clock>(
    rt: &R,
    alloc: Global,
    region: &PreparedRegion<'_>,
) -> Result<(), NoMemory> {
    let expected = [
        Polled::Idle(IdleWhy::Empty),
        Polled::Moved,
        Polled::Idle(IdleWhy::Busy { word: 1 }),
    ];
    let answers = first_answers(rt, alloc, region)?;
    assert!(rt; answers.as_slice() == expected.as_slice());
    for order in [Order::Forwards, Order::Backwards, Order::Mixed] {
        assert!(rt; is_clean_in(rt, alloc, region, order)?);
    }
    Ok(())
}

/// The rows for the plan in the shelf.
fn with_program<R: Abort + Wait + Clock, S: Shelf>(
    rt: &R,
    alloc: Global,
    program: &Program,
    shelf: &mut S,
) -> Result<(), NoMemory>
    requires inlined { IsInlined program.now }
    requires shelf { S.faults shelf.old < 2 ^ 64 - 1 }
{
    match load_plans(alloc, shelf, "plan.txt", program)? {
        Loaded::Text(plans) => match plans.as_slice().first() {
            Some(plan) => {
                let region = PreparedRegion::new(alloc, program, plan)?;
                each_row(rt, alloc, &region)?
            }
            None => assert!(rt; false, "no plan"),
        },
        Loaded::Refused(_) | Loaded::Failed => assert!(rt; false, "a refused plan"),
    }
    Ok(())
}

/// The rows for the program in the shelf and its plan.
fn with_texts<R: Abort + Wait + Clock, S: Shelf>(
    rt: &R,
    alloc: Global,
    shelf: &mut S,
) -> Result<(), NoMemory>
    requires { S.faults shelf.old < 2 ^ 64 - 1 }
{
    match load_program(alloc, shelf, "histogram.c")? {
        Loaded::Text(program) => with_program(rt, alloc, &program, shelf)?,
        Loaded::Refused(_) | Loaded::Failed => assert!(rt; false, "a refused program"),
    }
    Ok(())
}

#[test]
fn units_are_polled_in_any_order(rt: HostRuntime) -> Result<(), Fail> {
    let mut shelf = shelf_of(rt.alloc(), &[("plan.txt", PLAN)], &[])?;
    with_texts(&rt, rt.alloc(), &mut shelf)?;
    Ok(())
}

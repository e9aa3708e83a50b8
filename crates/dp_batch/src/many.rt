//! The runs of all inputs, several at once.
ghost use Rattle.std.specs.Prelude.{◌≡◌, ◌≤◌, ◌<◌, ℤ, List, All, length, slice_index_or, IfOk};
ghost use Rattle.dp_batch.specs.BatchText.{AreTexts, batch_bytes, batched_run_text};

use crate::joining::{Text, joined};
use crate::seats::Seats;
use crate::sharing::{processors, share};
use crate::single::one;
use dp_base::{NoMemory, Row};
use dp_run::{CrewSize, PreparedProgram};
use std::alloc::Global;
use std::sync::Wait;
use std::thread::{Threads, for_each_mut};
use std::time::Clock;

/// So many threads wait for their turns at most.
const THREADS: usize = 64;

/// The text of a batch: that of each input's run in the inputs' order, behind the input's number, which counts from 1.
///
/// Several inputs are run at once. One for which there is no thread is run behind another.
pub fn batch<R: Threads + Wait + Clock + Sync>(
    rt: &R,
    alloc: Global,
    prepared: &PreparedProgram<'_>,
    inputs: &[Row<i64>],
    fuel: u64,
    size: CrewSize,
) -> Result<Row<u8>, NoMemory>
    requires words { All (λ input. length input ≤ 65536) inputs.now }
    requires fuel { fuel ≤ 1000000000 }
    ensures { IfOk result (λ bytes. bytes ≡ batch_bytes prepared.now.program prepared.now.plans fuel inputs.now) }
{
    let texts = texts_of(rt, alloc, prepared, inputs, fuel, size)?;
    joined(alloc, texts.as_slice())
}

/// The text of each input's run.
fn texts_of<R: Threads + Wait + Clock + Sync>(
    rt: &R,
    alloc: Global,
    prepared: &PreparedProgram<'_>,
    inputs: &[Row<i64>],
    fuel: u64,
    size: CrewSize,
) -> Result<Vec<Text>, NoMemory>
    requires words { All (λ input. length input ≤ 65536) inputs.now }
    requires fuel { fuel ≤ 1000000000 }
    ensures { IfOk result (λ texts. AreTexts (batched_run_text prepared.now.program prepared.now.plans fuel) inputs.now texts.items) }
{
    let sharing = share(processors(rt), inputs.len(), prepared.regions(), size);
    let (made, size) = (Seats::new(sharing.at_once), sharing.size);
    let seats = &made;
    let mut texts = no_texts(alloc, inputs.len())?;
    for_each_mut(
        rt,
        texts.as_mut_slice(),
        THREADS,
        &|place: usize, text: &mut Text|
            requires { (place < length inputs.now) × All (λ input. length input ≤ 65536) inputs.now × (fuel ≤ 1000000000) }
            ensures { (d : List ℤ) → IfOk text.exit.now (λ bytes. bytes ≡ batched_run_text prepared.entry.now.program prepared.entry.now.plans fuel
                (slice_index_or inputs.entry.now place d)) }
        { *text = text_at(rt, alloc, prepared, inputs, place, fuel, size, seats) },
    );
    Ok(texts)
}

/// No text for each of so many inputs.
fn no_texts(alloc: Global, count: usize) -> Result<Vec<Text>, NoMemory>
    ensures { IfOk result (λ texts. length texts.items ≡ count) }
{
    let mut texts = Vec::with_capacity(alloc, count)?;
    for _ in 0..count {
        texts.push(Err(NoMemory))?;
    }
    Ok(texts)
}

/// The text of the run of the input at a place, from 0, which keeps a seat meanwhile.
fn text_at<R: Threads + Wait + Clock + Sync>(
    rt: &R,
    alloc: Global,
    prepared: &PreparedProgram<'_>,
    inputs: &[Row<i64>],
    place: usize,
    fuel: u64,
    size: CrewSize,
    seats: &Seats,
) -> Text
    requires place { place < length inputs.now }
    requires words { All (λ input. length input ≤ 65536) inputs.now }
    requires fuel { fuel ≤ 1000000000 }
    ensures { (d : List ℤ) → IfOk result (λ bytes. bytes ≡ batched_run_text prepared.now.program prepared.now.plans fuel (slice_index_or inputs.now place d)) }
{
    seats.take(rt);
    let text = one(rt, alloc, prepared, inputs[place].as_slice(), fuel, size);
    seats.give_back(rt);
    text
}

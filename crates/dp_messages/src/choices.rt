//! By which plans the regions of a run were run, for those who ask.
ghost use Rattle.std.specs.Prelude.{◌<◌, ◌-◌, ◌^◌};
ghost use Rattle.dp_edge.specs.Writing.{FaultsAfter};

use crate::page::Page;
use dp_commit::{Chosen, Ran};
use dp_edge::{Sink, WriteFail, write};
use std::alloc::{AllocGlobal, Global};
use std::env;
use std::rt::Env;

/// The variable of the environment that asks for it, by the value 1.
const VARIABLE: &str = "DSWP_CHOICE";

/// A region's number, and by which plans it was run.
#[derive(Clone, Copy)]
struct Entry {
    region: u32,
    chosen: Chosen,
}

/// By which plans each region was run, in order. Where memory is wanting some are left out.
#[derive(Drop)]
pub struct Choices {
    asked: bool,
    entries: Vec<Entry>,
}

impl Choices {
    /// None yet; where nobody has asked, none at all.
    pub fn new(alloc: Global, asked: bool) -> Choices {
        Choices {
            asked,
            entries: Vec::new(alloc),
        }
    }

    /// A region was run, by these plans.
    pub fn add(&mut self, region: u32, chosen: Chosen) {
        if self.asked {
            drop(self.entries.push(Entry { region, chosen }));
        }
    }
}

/// Whether the environment asks by which plans regions are run.
pub fn asks_choices<R: Env + AllocGlobal>(rt: &R) -> bool {
    match env::var(rt, VARIABLE) {
        Ok(value) => value.as_str() == "1",
        Err(_) => false,
    }
}

/// Writes by which plans each region was run, a line each. Where memory is wanting it ends early.
pub fn tell_choices<K: Sink>(
    alloc: Global,
    choices: &Choices,
    sink: &mut K,
) -> Result<(), WriteFail>
    requires sink { K.faults sink.old < 2 ^ 64 - 1 }
    ensures faults { FaultsAfter result (K.faults sink.old) (K.faults sink.new) }
{
    let mut page = Page::new(alloc);
    for entry in choices.entries.as_slice() {
        put_entry(&mut page, *entry);
    }
    write(page.text(), sink)
}

fn put_entry(page: &mut Page, entry: Entry) {
    let chosen = entry.chosen;
    put_count(page, "dswp: region ", u64::from(entry.region));
    put_ran(page, ": one stage ", chosen.one_stage);
    put_ran(page, "; whole loops ", chosen.whole_loops);
    put_ran(page, "; own plan ", chosen.own);
    put_count(page, "; again ", chosen.again);
    put_count(page, "; switches ", chosen.switches);
    put_count(page, "; ms ", milliseconds(chosen.nanoseconds));
    page.put("\n");
}

/// Puts what was run by one plan.
fn put_ran(page: &mut Page, label: &str, ran: Ran) {
    put_count(page, label, ran.iterations);
    put_count(page, ", epochs ", ran.epochs);
    put_count(page, ", ms ", milliseconds(ran.nanoseconds));
}

fn put_count(page: &mut Page, label: &str, count: u64) {
    page.put(label);
    page.put_number(count);
}

fn milliseconds(nanoseconds: u64) -> u64 {
    nanoseconds / 1_000_000
}

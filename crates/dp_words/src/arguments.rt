//! The names and options that commands take.
ghost use Rattle.std.specs.Prelude.{◌≡◌, false};
ghost use Rattle.clap.specs.Words.{rule_of};
ghost use Rattle.dp_words.specs.Commands as spec;
ghost use Rattle.dp_words.specs.steps.Table.{rule_for};

use crate::task::REGION;
use clap::builder::ValueParser;
use clap::{Arg, ArgAction};
use dp_base::limits::{FUEL, INPUT_WORDS, LANE, RATE, SEED, STAGES, WORKERS};
use std::alloc::Global;

/// A name or an option, with its id. A number has the least and the greatest that it may be.
#[derive(Clone, Copy)]
pub enum Argument {
    /// A name that has to be given.
    Name(&'static str),
    /// A name that may be given.
    FurtherName(&'static str),
    /// A number that has to be given.
    NumberName(&'static str, u64, u64),
    /// An option with a file's name.
    FileOption(&'static str),
    NumberOption(&'static str, u64, u64),
    /// An option with a number, that has to be given.
    NeededNumber(&'static str, u64, u64),
    /// An option that stands alone.
    Flag(&'static str),
}

pub const PROGRAM: Argument = Argument::Name("program");

pub const INPUT: Argument = Argument::FurtherName("input");

pub const LOG: Argument = Argument::Name("log");

pub const CHECKPOINT: Argument = Argument::Name("checkpoint");

pub const LIST: Argument = Argument::Name("list");
/// The seed of the made program's input, and how many words this has.
pub const SEED_NUMBER: Argument = Argument::NumberName("seed", 0, SEED as u64);

pub const SIZE: Argument = Argument::NumberName("size", 1, INPUT_WORDS as u64);
/// A text of plans.
pub const PLAN: Argument = Argument::FileOption("plan");
/// The workers of a replicated stage, and the places of a lane.
pub const WORKERS_OPTION: Argument = Argument::NumberOption("workers", 1, WORKERS as u64);

pub const LANE_OPTION: Argument = Argument::NumberOption("lane", 1, LANE as u64);
/// The greatest number of steps.
pub const FUEL_OPTION: Argument = Argument::NumberOption("fuel", 0, FUEL as u64);
/// Whether a run's text says why iterations were executed again.
pub const WHY: Argument = Argument::Flag("why");
/// Where a run is saved.
pub const REGION_OPTION: Argument = Argument::NeededNumber("region", 1, REGION as u64);

pub const AFTER: Argument = Argument::NeededNumber("after", 0, FUEL as u64);
/// How automatic plans are made.
pub const PLAN_OPTIONS: [Argument; 4] = [
    Argument::FileOption("profile"),
    Argument::NumberOption("rate", 0, RATE as u64),
    Argument::NumberOption("stages", 1, STAGES as u64),
    WORKERS_OPTION,
];

/// The argument, as a command takes it.
pub fn arg_of<'w>(alloc: Global, argument: Argument) -> Arg<'w>
    ensures rule { rule_of result ≡ rule_for argument }
    ensures local { result.global ≡ false }
{
    match argument {
        Argument::Name(id) => name_of(alloc, id),
        Argument::FurtherName(id) => further_name(alloc, id),
        Argument::NumberName(id, low, high) => {
            name_of(alloc, id).value_parser(ValueParser::unsigned(low, high))
        }
        Argument::FileOption(id) => file_option(alloc, id),
        Argument::NumberOption(id, low, high) => number_option(alloc, id, low, high),
        Argument::NeededNumber(id, low, high) => number_option(alloc, id, low, high).required(true),
        Argument::Flag(id) => Arg::new(alloc, id).long(id).action(ArgAction::SetTrue),
    }
}

fn name_of<'w>(alloc: Global, id: &'w str) -> Arg<'w>
    ensures rule { rule_of result ≡ spec.name_rule id.entry.now }
    ensures local { result.global ≡ false }
{
    further_name(alloc, id).required(true)
}

fn further_name<'w>(alloc: Global, id: &'w str) -> Arg<'w>
    ensures rule { rule_of result ≡ spec.further_name id.entry.now }
    ensures local { result.global ≡ false }
{
    Arg::new(alloc, id).action(ArgAction::Set)
}

fn file_option<'w>(alloc: Global, id: &'w str) -> Arg<'w>
    ensures rule { rule_of result ≡ spec.file_option id.entry.now }
    ensures local { result.global ≡ false }
{
    Arg::new(alloc, id).long(id).action(ArgAction::Set)
}

fn number_option<'w>(alloc: Global, id: &'w str, low: u64, high: u64) -> Arg<'w>
    ensures rule { rule_of result ≡ spec.number_option id.entry.now low high }
    ensures local { result.global ≡ false }
{
    file_option(alloc, id).value_parser(ValueParser::unsigned(low, high))
}

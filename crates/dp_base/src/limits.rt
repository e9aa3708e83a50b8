//! The numbers that are limits, in one table. Code and definitions cite them from here.
ghost use Rattle.std.specs.Prelude.{◌≡◌, ◌≤◌, ◌+◌};
ghost use Rattle.dp_base.specs.Counts.{reported_count};

/// Bytes of a program's text.
pub const PROGRAM_BYTES: u32 = 65_536;
/// Open braces.
pub const NESTING: u32 = 64;
/// Operators and opening brackets between two neighbouring tokens of `{`, `}`, `;`.
pub const OPERATORS: u32 = 64;
/// `else` directly followed by `if`, in a program.
pub const ELSE_IF: u32 = 256;
/// Functions besides `main`.
pub const FUNCTIONS: u32 = 64;
/// Cells of file-scope variables.
pub const CELLS: u32 = 65_536;
/// Sites and expanded calls of an inlined program.
pub const INLINED_SIZE: u32 = 8_192;
/// Sites of a region.
pub const REGION_SITES: u32 = 1_024;
/// Bytes of an input file.
pub const INPUT_BYTES: u32 = 2_097_152;
/// Words of an input.
pub const INPUT_WORDS: u32 = 65_536;
/// Bytes of a plan file.
pub const PLAN_BYTES: u32 = 1_048_576;
/// Bytes of a profile file.
pub const PROFILE_BYTES: u32 = 67_108_864;
/// A count in a profile.
pub const PROFILE_COUNT: u64 = 1_000_000_000_000;
/// Bytes of a commit log.
pub const LOG_BYTES: u32 = 16_777_216;
/// Bytes of a checkpoint.
pub const CHECKPOINT_BYTES: u32 = 33_554_432;
/// Bytes of a list of inputs.
pub const LIST_BYTES: u32 = 16_384;

/// Stages of a region's plan, at least 1.
pub const STAGES: u32 = 8;
/// Workers of a replicated stage, at least 1.
pub const WORKERS: u32 = 8;
/// Places of a lane, at least 1.
pub const LANE: u32 = 64;
/// The least number of words that a plan may allow a stage in an iteration.
pub const LEAST_WORDS: u32 = 16;
/// The largest number of words that a plan may allow a stage in an iteration.
pub const MOST_WORDS: u32 = 4_096;
/// The rate below which a dependence or an outcome counts as rare, in thousandths.
pub const RATE: u32 = 1_000;
/// Steps of a run.
pub const FUEL: u32 = 1_000_000_000;

/// The seed of the made program's input.
pub const SEED: u32 = 2_147_483_647;

/// A count above this is reported as this.
pub const COUNTED: u32 = 1_000_000;
/// Iterations that a region's report lists.
pub const LISTED: u32 = 1_000;

/// The sum of two counts, as it is reported.
pub fn counted_sum(a: u32, b: u32) -> u32
    requires left { a ≤ COUNTED }
    requires right { b ≤ COUNTED }
    ensures { result ≡ reported_count (a + b) }
{
    (a + b).min(COUNTED)
}

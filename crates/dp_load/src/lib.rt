//! What is run: the program, the input and the plans, from the texts that the words name.
#![tactic(auto)]

mod batch;
mod last;
mod law;
mod list;
mod load;
mod planning;
mod program;
mod texts;

pub use batch::{BatchTexts, Listed, load_batch, load_inputs};
pub use last::{load_checkpoint, load_log};
pub use law::{
    read_numbers_fit, read_plans_are_ready, read_programs_are_at_home, read_programs_start_clear,
};
pub use load::{Loaded, load_plans, load_program};
pub use planning::{automatic_plans, load_counts, load_least};
pub use program::read_program;
pub use texts::{Texts, load_texts, load_words};

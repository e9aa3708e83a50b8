//! The texts that the program writes of a run and of a program's sites, and the program that it makes.
#![tactic(auto)]

mod causes;
mod decimal;
mod ending;
mod fault;
mod generator;
mod prints;
mod regions;
mod sites;
mod state;

pub use ending::{end_text, put_end};
pub use generator::{Made, make_program};
pub use prints::prints_text;
pub use sites::site_text;

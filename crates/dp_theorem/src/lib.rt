//! The laws of what a pipeline under a plan does with a source: the central theorem, and what stands beside it.
#![tactic(auto)]

mod law;

pub use law::{
    a_judgement_tells_all, cells_tell_the_loads, far_pairs_are_apart, given_plans_fit,
    judgement_is_the_sources, long_is_unclean, one_stage_fits, one_stage_is_clean,
    recovered_ascend, reports_go_on, turns_end_by_their_words, unclean_has_a_cause,
    valid_plans_fit, verdicts_are_right, verdicts_go_on, walks_find_causes,
};

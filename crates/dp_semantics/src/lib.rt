//! What a pipeline under a plan does with a source, and when its answer is the source's.
#![tactic(auto)]

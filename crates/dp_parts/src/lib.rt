//! What no text reaches: the parts of a pipeline by hand, and between threads of their own. It has nothing but tests,
//! which are proved beside the crates above those that they try.
#![tactic(auto)]

#[cfg(test)]
mod tests;

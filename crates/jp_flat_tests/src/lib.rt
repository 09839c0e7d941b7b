//! Tests of `jp_flat` that rows cannot say: how often memory grows while lines are read.
#![tactic(auto)]

#[cfg(test)]
mod refusals;

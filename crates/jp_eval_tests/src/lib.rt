//! Tests of `jp_eval` through its public calls.
#![tactic(auto)]

#[cfg(test)]
mod calls;
#[cfg(test)]
mod forks;
#[cfg(test)]
mod sizes;
#[cfg(test)]
mod splits;

//! Tests of `jp_board`: each call on one thread, and what no clause says, that threads share a board and
//! see each other's reports.
#![tactic(auto)]

#[cfg(test)]
mod one_thread;
#[cfg(test)]
mod refusals;
#[cfg(test)]
mod threads;

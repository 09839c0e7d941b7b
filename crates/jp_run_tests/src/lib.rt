//! Tests of `jp_run` through its public calls, of what only threads show, and of what no row can say.
#![tactic(auto)]

#[cfg(test)]
mod answers;
#[cfg(test)]
mod batches;
#[cfg(test)]
mod beside;
#[cfg(test)]
mod faults;
#[cfg(test)]
mod gates;
#[cfg(test)]
mod keep_going;
#[cfg(test)]
mod kept_reads;
#[cfg(test)]
mod many_lines;
#[cfg(test)]
mod shared;

//! Tests of the blocks, the ring and the queue of `jp_answer`: each call on one thread, and what no clause
//! says, that workers answer the blocks that are handed out.
#![tactic(auto)]

#[cfg(test)]
mod beside;
#[cfg(test)]
mod one_block;
#[cfg(test)]
mod queue;
#[cfg(test)]
mod ring;
#[cfg(test)]
mod tasks;

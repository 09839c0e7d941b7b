//! What these tests share: tasks, and the bytes of answers.

use jp_answer::{Answerer, Asked, Crew, LinePolicy, OnFault, Outcome, Task};
use jp_buffer::WaitingLines;
use jp_compiled::CompiledQuery;
use jp_number::Numbers;
use jp_output::{Layout, NodeLines, join_chunks};
use std::alloc::Global;
use std::thread::Threads;

/// The policy by which an answer ends before a faulty line.
pub(crate) fn stopping() -> LinePolicy {
    LinePolicy {
        numbers: Numbers::Whole,
        on_fault: OnFault::Stop,
    }
}

/// The policy by which an answer passes faulty lines.
pub(crate) fn going_on() -> LinePolicy {
    LinePolicy {
        numbers: Numbers::Whole,
        on_fault: OnFault::KeepGoing,
    }
}

/// The lines of a text, with their numbers from this one on.
pub(crate) fn lines_of(alloc: Global, text: &str, first: u64) -> Option<WaitingLines> {
    let mut lines = WaitingLines::new(alloc);
    let mut number = first;
    for line in text.lines() {
        if lines.push(number, line.as_bytes(), b"").is_err() {
            return None;
        }
        number = number.saturating_add(1);
    }
    Some(lines)
}

/// The lines of a text so many times, one after another.
pub(crate) fn many_lines(alloc: Global, text: &str, count: u64) -> Option<WaitingLines> {
    let mut all = String::new(alloc);
    for _time in 0..count {
        if all.push_str(text).is_err() {
            return None;
        }
    }
    lines_of(alloc, &all, 1)
}

/// What is asked by a query in a layout, by a policy, of one worker.
pub(crate) fn asked_of<'q>(
    query: &'q CompiledQuery,
    layout: &'q Layout,
    policy: LinePolicy,
) -> Asked<'q> {
    Asked {
        query,
        filter: None,
        layout,
        policy,
        workers: 1,
    }
}

/// The bytes of the answer to lines by one thread, which answers them all at once.
pub(crate) fn by_one_thread<R: Threads + Sync, G>(
    crew: &Crew<R, G>,
    asked: &Asked<'_>,
    lines: &WaitingLines,
) -> Option<Vec<u8>> {
    let Ok(lines) = lines.lines(crew.alloc) else {
        return None;
    };
    if lines.len() > 4_294_967_296 {
        return None;
    }
    let mut answerer = Answerer::new(crew.alloc);
    match answerer.answer_lines::<R, G, NodeLines>(crew, asked, &lines) {
        Ok(answer) => join_chunks(crew.alloc, answer.chunks).ok(),
        Err(_) => None,
    }
}

/// A task of these lines.
pub(crate) fn task_of<'q>(asked: Asked<'q>, lines: WaitingLines) -> Option<Task<'q>> {
    if lines.len() > 4_294_967_296 {
        return None;
    }
    Some(Task { asked, lines })
}

/// What stands behind the bytes of an answer, if these begin with them. It takes no memory.
pub(crate) fn behind<'w>(answer: &Outcome, wanted: &'w [u8]) -> Option<&'w [u8]> {
    let mut rest = wanted;
    for chunk in &answer.chunks {
        rest = rest.strip_prefix(chunk.as_slice())?;
    }
    Some(rest)
}

/// Whether the bytes of an answer are these. It takes no memory.
pub(crate) fn has_bytes(answer: &Outcome, wanted: &str) -> bool {
    match behind(answer, wanted.as_bytes()) {
        Some(rest) => rest.is_empty(),
        None => false,
    }
}

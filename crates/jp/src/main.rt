//! The command `jp`: runs one JSONPath query (RFC 9535) over the documents on standard input or in files, one
//! on a line, and prints a line for each node that it selects.
#![tactic(auto)]

mod beside;
mod system_inputs;
mod system_source;

ghost use Rattle.std.specs.Prelude.{◌≡◌, ◌^◌, ◌≤◌, false};

use beside::run_errands;
use jp_program::{Inputs, program, refuse_words, tell};
use jp_run::{FromWriter, RunFault, Sink, Source};
use std::alloc::{AllocError, Global};
use std::io::{self, ErrorKind};
use std::process::ExitCode;
use std::{env, fs, thread};
use system_inputs::SystemInputs;

/// Runs the program over the words of the command line, the system's files, and standard input and output.
/// Nothing is held back before standard output: a run writes the lines of a batch in long chunks.
///
/// A regular file never waits. What may wait is read by a thread beside, or where there is none to be had by
/// this one, which then answers all that has come before each read. No thread is started where standard input
/// is a regular file: then hardly anything may wait.
fn main(rt: HostRuntime) -> ExitCode {
    let mut notes = FromWriter::new(rt.stderr());
    let mut sink = FromWriter::new(io::writer(&rt));
    let given = match given_words(&rt) {
        Ok(Some(given)) => given,
        Ok(None) => return ExitCode::from(refuse_words(rt.alloc(), &mut notes)),
        Err(fault) => return end_with(rt.alloc(), &mut notes, &fault),
    };
    let Ok(words) = texts_of(rt.alloc(), &given) else {
        return end_with(rt.alloc(), &mut notes, &RunFault::Memory);
    };
    let Ok((errands, taken)) = crossbeam_channel::bounded(rt.alloc(), 1) else {
        return end_with(rt.alloc(), &mut notes, &RunFault::Memory);
    };
    let errands = if is_file(&rt) {
        None
    } else {
        match thread::spawn(&rt, move || run_errands(&rt, rt.alloc(), &taken)) {
            Ok(_) => Some(&errands),
            Err(_) => None,
        }
    };
    let mut inputs = SystemInputs::new(&rt, rt.alloc(), errands);
    let mut source = inputs.standard_input();
    let status = program(&rt, &words, &mut inputs, &mut source, &mut sink, &mut notes);
    ExitCode::from(status)
}

/// The words of the command line; none where one of them is no UTF-8.
fn given_words(rt: &HostRuntime) -> Result<Option<Vec<String>>, RunFault> {
    match env::args(rt) {
        Ok(words) => Ok(Some(words.collect(rt.alloc())?)),
        Err(error) if error.kind() == ErrorKind::OutOfMemory => Err(RunFault::Memory),
        Err(_) => Ok(None),
    }
}

/// The same words, as the program takes them.
fn texts_of(alloc: Global, words: &[String]) -> Result<Vec<&str>, AllocError> {
    words.iter().map(|word| word.as_str()).collect(alloc)
}

/// Whether standard input is a regular file. Where the system does not say it is none.
fn is_file(rt: &HostRuntime) -> bool {
    match fs::metadata(rt, "/dev/stdin") {
        Ok(metadata) => metadata.is_file(),
        Err(_) => false,
    }
}

/// Tells a fault, and gives what it ends with.
fn end_with<N: Sink>(alloc: Global, notes: &mut N, fault: &RunFault) -> ExitCode {
    tell(alloc, notes, fault);
    ExitCode::from(fault.status())
}

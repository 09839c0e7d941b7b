//! The first faulty lines of a run: what helps with the first, and where they went wrong, if that is asked.

ghost use Rattle.std.specs.Prelude.{◌≡◌, true, false};
ghost use Rattle.jp_run.specs.Status.{status_of};

use crate::command::note_text;
use jp_answer::{Gate, OnFault};
use jp_doc::DocFault;
use jp_explain::{
    LineExplanation, document_help, escaped, explain_line, help_with_document, help_with_line,
    line_help, write_document_mark, write_line_mark,
};
use jp_number::Numbers;
use jp_run::{Cutting, RunFault, Sink};
use once_cell::race::OnceBox;
use std::alloc::{AllocError, Global};

/// What keeps a text of each of the first ten faulty lines, where they are to be explained, and else sees the
/// one at which the run ends.
#[derive(Drop)]
pub(crate) struct Witness {
    pub(crate) is_asked: bool,
    /// What the run does where a line is faulty.
    pub(crate) on_fault: OnFault,
    /// Which numbers lines may have.
    pub(crate) numbers: Numbers,
    /// How the input is cut: documents over lines are told by their own numbers.
    pub(crate) cutting: Cutting,
    /// Whether the status is to tell that nothing is selected.
    pub(crate) tells_nothing: bool,
    /// Whether the run goes on past files that cannot be read.
    pub(crate) passes_files: bool,
    /// The line of what helps with the first faulty line, if that is known, once one was seen.
    help: OnceBox<Option<String>>,
    texts: [OnceBox<String>; 10],
}

/// A line that is faulty.
#[derive(Clone, Copy)]
struct FaultyLine<'l> {
    number: u64,
    bytes: &'l [u8],
    fault: &'l DocFault,
}

/// What helps with a faulty line of that explanation, if that is known.
fn help_of(explanation: &Option<LineExplanation>, cutting: Cutting) -> Option<&'static str> {
    let Some(explanation) = explanation else {
        return None;
    };
    match cutting {
        Cutting::Lines => line_help(&explanation.reason),
        Cutting::Documents => document_help(&explanation.reason),
    }
}

/// A text behind a file's name, with escapes for a terminal, if a name is given.
fn behind_name(alloc: Global, name: Option<&str>, text: String) -> Result<String, AllocError> {
    let Some(name) = name else {
        return Ok(text);
    };
    let name = escaped(alloc, name)?;
    format!(in alloc; "{name}: {text}")
}

impl Witness {
    /// A witness that is not asked, and keeps nothing. It takes no memory.
    pub(crate) fn new(alloc: Global) -> Witness
        ensures { result.tells_nothing ≡ false }
    {
        Witness {
            is_asked: false,
            on_fault: OnFault::Stop,
            numbers: Numbers::Whole,
            cutting: Cutting::Lines,
            tells_nothing: false,
            passes_files: false,
            help: OnceBox::new(alloc),
            texts: [
                OnceBox::new(alloc),
                OnceBox::new(alloc),
                OnceBox::new(alloc),
                OnceBox::new(alloc),
                OnceBox::new(alloc),
                OnceBox::new(alloc),
                OnceBox::new(alloc),
                OnceBox::new(alloc),
                OnceBox::new(alloc),
                OnceBox::new(alloc),
            ],
        }
    }

    /// Where a text is kept next.
    fn place(&self) -> Option<&OnceBox<String>> {
        self.texts.iter().find(|place| place.get().is_none())
    }

    /// Whether it is to be told of further faulty lines.
    fn wants_faulty(&self) -> bool {
        if self.is_asked {
            self.place().is_some()
        } else {
            self.on_fault == OnFault::Stop && self.help.get().is_none()
        }
    }

    /// What there is to say of a faulty line where it is to be explained.
    fn text_of(
        &self,
        alloc: Global,
        line: &FaultyLine<'_>,
        explanation: &Option<LineExplanation>,
    ) -> Result<String, AllocError> {
        let FaultyLine {
            number,
            bytes,
            fault,
        } = line;
        match (self.cutting, explanation) {
            (Cutting::Lines, Some(told)) => write_line_mark(alloc, *number, bytes, told),
            (Cutting::Documents, Some(told)) => write_document_mark(alloc, *number, bytes, told),
            (Cutting::Lines, None) => format!(in alloc; "line {number}: {fault}\n"),
            (Cutting::Documents, None) => format!(in alloc; "document {number}: {fault}\n"),
        }
    }

    /// What helps with a faulty line that is not to be explained, if that is known.
    fn help_with(
        &self,
        alloc: Global,
        line: &FaultyLine<'_>,
    ) -> Result<Option<&'static str>, AllocError> {
        match self.cutting {
            Cutting::Lines => help_with_line(alloc, line.bytes, line.fault, self.numbers),
            Cutting::Documents => {
                help_with_document(alloc, line.bytes, line.fault, self.numbers)
            }
        }
    }

    /// Keeps what helps, where no line came before.
    fn keep_help(&self, alloc: Global, help: Option<&'static str>) -> Result<(), AllocError> {
        let help = match help {
            Some(help) => Some(format!(in alloc; "jp: {help}\n")?),
            None => None,
        };
        let _ = self.help.set(Box::new(alloc, help)?);
        Ok(())
    }

    /// Keeps what there is to say of a faulty line, behind the name of its file, if that is given.
    fn keep(
        &self,
        alloc: Global,
        name: Option<&str>,
        line: &FaultyLine<'_>,
    ) -> Result<(), AllocError> {
        if !self.is_asked {
            let help = self.help_with(alloc, line)?;
            return self.keep_help(alloc, help);
        }
        let explanation = explain_line(alloc, line.bytes, line.fault, self.numbers)?;
        self.keep_help(alloc, help_of(&explanation, self.cutting))?;
        let text = self.text_of(alloc, line, &explanation)?;
        if let Some(place) = self.place() {
            let _ = place.set(Box::new(alloc, behind_name(alloc, name, text)?)?);
        }
        Ok(())
    }

    /// Writes what helps, and the texts, behind the fault of a line, and the texts behind files that were
    /// passed, since the faulty lines are told there too. Behind another fault no line is told, and so no
    /// place.
    pub(crate) fn tell_behind<N: Sink>(&self, notes: &mut N, fault: &RunFault)
        ensures untouched { N.failed notes.old ≡ true → notes.new ≡ notes.old }
        ensures other { status_of fault.now ≡ 2 → notes.new ≡ notes.old }
    {
        match fault {
            RunFault::Document { .. } => self.tell_help(notes),
            RunFault::Read if self.passes_files => self.tell(notes),
            _ => {}
        }
    }

    /// Writes the texts, or what helps, where there are none.
    fn tell_help<N: Sink>(&self, notes: &mut N)
        ensures untouched { N.failed notes.old ≡ true → notes.new ≡ notes.old }
    {
        if self.texts[0].get().is_some() {
            // They say what helps too.
            self.tell(notes);
        } else if let Some(Some(help)) = self.help.get() {
            note_text(notes, help.as_str());
        }
    }

    /// Writes the texts, where the notes have not failed before.
    pub(crate) fn tell<N: Sink>(&self, notes: &mut N)
        ensures untouched { N.failed notes.old ≡ true → notes.new ≡ notes.old }
    {
        if notes.failed() {
            return;
        }
        for place in &self.texts {
            if let Some(text) = place.get() {
                note_text(notes, text.as_str());
            }
        }
    }
}

/// A witness of the faulty lines of one file, or of standard input.
#[derive(Drop)]
pub(crate) struct NamedWitness<'w, 'n> {
    pub(crate) witness: &'w Witness,
    /// The name of the file, where its lines are to be told with it.
    pub(crate) name: Option<&'n str>,
}

impl Gate for NamedWitness<'_, '_> {
    fn pass(&self, _piece: u64) {}

    fn wants_faulty(&self) -> bool {
        self.witness.wants_faulty()
    }

    fn faulty(&self, alloc: Global, number: u64, line: &[u8], fault: &DocFault) {
        // Where memory for it is refused there is none, as for each note.
        let line = FaultyLine {
            number,
            bytes: line,
            fault,
        };
        let _ = self.witness.keep(alloc, self.name, &line);
    }
}

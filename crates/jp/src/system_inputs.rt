//! The system's files and standard input, opened by their names.

ghost use Rattle.std.specs.Prelude.{◌≡◌, None, IfOk, false};

use crate::beside::{BesideReader, Errand, Waiting};
use crate::system_source::{OpenInput, Reason, SystemSource};
use crossbeam_channel::Sender;
use jp_program::Inputs;
use jp_run::{Broken, Supply};
use std::alloc::{AllocError, Global};
use std::fs::{self, File, Files, Metadata, OpenFile};
use std::io::{self, Input};
use std::os::unix::fs::MetadataExt;
use std::sync::Wait;

/// Which file it is: its device, and its number there.
#[derive(Clone, Copy, PartialEq, Eq)]
struct FileId {
    device: u64,
    number: u64,
}

/// What an input is.
#[derive(Clone, Copy)]
enum Kind {
    /// The regular file that the answer is written to.
    Output,
    /// Another regular file, of which no read waits.
    Regular,
    /// Anything else, or what the system does not say.
    Other,
}

/// A source of the system that has these handles.
type SourceOf<'r, R> = SystemSource<'r, R, <R as Input>::Reader, <R as Files>::File>;

/// What takes errands to the thread beside.
type Errands<R> = Sender<Errand<<R as Files>::File>, Global>;

/// Opens the system's files, and standard input for `-`. Nothing is known of what a name holds.
#[derive(Drop)]
pub struct SystemInputs<'r, R: Files> {
    rt: &'r R,
    alloc: Global,
    /// What takes errands to a thread beside, if there is one.
    errands: Option<&'r Errands<R>>,
    /// The regular file that the answer is written to, if it is one.
    output: Option<FileId>,
    opens: u64,
    broken: u64,
}

impl<'r, R: Files + Input + Wait> SystemInputs<'r, R> {
    /// Nothing is opened yet.
    pub fn new(rt: &'r R, alloc: Global, errands: Option<&'r Errands<R>>) -> SystemInputs<'r, R>
        ensures unopened { ⟦<SystemInputs<'r, R> as Inputs<SourceOf<'r, R>>>⟧.opens result ≡ 0 }
    {
        SystemInputs {
            rt,
            alloc,
            errands,
            output: regular_file(fs::metadata(rt, "/dev/stdout")),
            opens: 0,
            broken: 0,
        }
    }

    /// Standard input, from which nothing was read.
    pub fn standard_input(&self) -> SourceOf<'r, R>
        ensures unread { ⟦<SourceOf<'r, R> as Supply>⟧.reads result ≡ 0 }
        ensures ungiven { ⟦<SourceOf<'r, R> as Supply>⟧.given result ≡ 0 }
        ensures working { ⟦<SourceOf<'r, R> as Supply>⟧.failed result ≡ false }
    {
        match (
            self.kind_of(fs::metadata(self.rt, "/dev/stdin")),
            self.errands,
        ) {
            (Kind::Output, _) => SystemSource::over(OpenInput::Nothing(Reason::IsOutput), true),
            (Kind::Other, Some(errands)) => self.beside(errands, Waiting::Input),
            (Kind::Other, None) => SystemSource::over(OpenInput::Input(self.rt.reader()), false),
            (Kind::Regular, _) => SystemSource::over(OpenInput::Input(self.rt.reader()), true),
        }
    }

    /// A file that was opened, from which nothing was read. What it is is asked of itself: by its name
    /// another might be found.
    fn over_file(&self, file: R::File) -> SourceOf<'r, R>
        ensures unread { ⟦<SourceOf<'r, R> as Supply>⟧.reads result ≡ 0 }
        ensures ungiven { ⟦<SourceOf<'r, R> as Supply>⟧.given result ≡ 0 }
        ensures working { ⟦<SourceOf<'r, R> as Supply>⟧.failed result ≡ false }
    {
        match (self.kind_of(file.metadata()), self.errands) {
            (Kind::Output, _) => SystemSource::over(OpenInput::Nothing(Reason::IsOutput), true),
            (Kind::Other, Some(errands)) => self.beside(errands, Waiting::File(file)),
            (Kind::Other, None) => SystemSource::over(OpenInput::File(file), false),
            (Kind::Regular, _) => SystemSource::over(OpenInput::File(file), true),
        }
    }

    /// An input that may wait, read by the thread beside.
    fn beside(&self, errands: &'r Errands<R>, input: Waiting<R::File>) -> SourceOf<'r, R>
        ensures unread { ⟦<SourceOf<'r, R> as Supply>⟧.reads result ≡ 0 }
        ensures ungiven { ⟦<SourceOf<'r, R> as Supply>⟧.given result ≡ 0 }
        ensures working { ⟦<SourceOf<'r, R> as Supply>⟧.failed result ≡ false }
    {
        let reader = BesideReader::new(self.rt, self.alloc, errands, input);
        SystemSource::over(OpenInput::Beside(reader), false)
    }

    /// What kind of input has these metadata.
    fn kind_of(&self, metadata: io::Result<Metadata>) -> Kind {
        match regular_file(metadata) {
            None => Kind::Other,
            Some(id) if self.output == Some(id) => Kind::Output,
            Some(_) => Kind::Regular,
        }
    }

    /// What this name opens, from which nothing was read, or why it cannot be opened.
    fn opened(&self, name: &str) -> Result<SourceOf<'r, R>, Reason>
        ensures unread { IfOk result (λ source. ⟦<SourceOf<'r, R> as Supply>⟧.reads source ≡ 0) }
        ensures ungiven { IfOk result (λ source. ⟦<SourceOf<'r, R> as Supply>⟧.given source ≡ 0) }
        ensures working { IfOk result (λ source. ⟦<SourceOf<'r, R> as Supply>⟧.failed source ≡ false) }
    {
        if name == "-" {
            return Ok(self.standard_input());
        }
        match File::open(self.rt, name) {
            Ok(file) => Ok(self.over_file(file)),
            Err(error) => Err(Reason::System(error)),
        }
    }
}

impl<'r, R: Files + Input + Wait> Inputs<SourceOf<'r, R>> for SystemInputs<'r, R> {
    ghost holds = { λ _ _. None };

    ghost opens = { λ s. s.opens };

    ghost broken = { λ s. s.broken };

    fn open(&mut self, name: &str, source: &mut SourceOf<'r, R>) -> Result<(), Broken> {
        self.opens = self.opens.saturating_add(1);
        if source.failed() {
            self.broken = self.broken.saturating_add(1);
        }
        match self.opened(name) {
            Ok(opened) => {
                *source = opened;
                Ok(())
            }
            Err(reason) => {
                *source = SystemSource::broken(reason);
                Err(Broken)
            }
        }
    }

    fn opens(&self) -> u64 {
        self.opens
    }

    fn reason(
        &self,
        alloc: Global,
        source: &SourceOf<'r, R>,
    ) -> Result<Option<String>, AllocError> {
        match source.reason() {
            Some(reason) => Ok(Some(format!(in alloc; "{reason}")?)),
            None => Ok(None),
        }
    }
}

/// Which regular file it is, if it is one.
fn regular_file(metadata: io::Result<Metadata>) -> Option<FileId> {
    match metadata {
        Ok(metadata) if metadata.is_file() => Some(FileId {
            device: metadata.dev(),
            number: metadata.ino(),
        }),
        _ => None,
    }
}

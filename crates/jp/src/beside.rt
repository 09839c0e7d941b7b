//! A reader whose bytes a thread beside reads, so that it can be said whether a read would wait.

ghost use Rattle.std.specs.Prelude.{◌≤◌, length};

use crossbeam_channel::{Receiver, SendError, Sender};
use std::alloc::Global;
use std::io::{self, Input, Read};
use std::mem;
use std::sync::Wait;

/// How many bytes a piece has at most: as many as a run asks for at once.
const PIECE_SIZE: usize = 65_536;

/// How many pieces are read ahead at most: a megabyte.
const PIECES: usize = 16;

/// What a read of the thread beside has given.
#[derive(Drop)]
enum Piece {
    Bytes(Vec<u8>),
    /// The read failed, or memory for its bytes was refused.
    Failed(io::Error),
}

/// An input that may wait.
#[derive(Drop)]
pub enum Waiting<F> {
    /// Standard input.
    Input,
    File(F),
}

/// What the thread beside is to read, and where the pieces go.
#[derive(Drop)]
pub struct Errand<F> {
    input: Waiting<F>,
    to: Sender<Piece, Global>,
}

/// Waits for an errand, reads its input to the end, and hands on each piece as it comes; and so on.
pub fn run_errands<R: Input + Wait, F: Read + Drop>(
    rt: &R,
    alloc: Global,
    given: &Receiver<Errand<F>, Global>,
) {
    for _ in 0..u64::MAX {
        let Ok(errand) = given.recv(rt) else {
            return;
        };
        let Errand { input, to } = errand;
        match input {
            Waiting::Input => read_whole(rt, alloc, rt.reader(), &to),
            Waiting::File(file) => read_whole(rt, alloc, file, &to),
        }
    }
}

/// Reads to the end, and hands on each piece as it comes.
fn read_whole<W: Wait, I: Read + Drop>(
    rt: &W,
    alloc: Global,
    mut reader: I,
    to: &Sender<Piece, Global>,
) {
    let mut buf = [0u8; PIECE_SIZE];
    for _ in 0..u64::MAX {
        let piece = match reader.read(&mut buf) {
            Ok(0) => return,
            Ok(n) => piece_of(alloc, &buf[..n]),
            Err(error) => Piece::Failed(error),
        };
        if to.send(rt, piece).is_err() {
            return;
        }
    }
}

/// A piece of these bytes.
fn piece_of(alloc: Global, bytes: &[u8]) -> Piece {
    let mut kept = Vec::new(alloc);
    match kept.extend_from_slice(bytes) {
        Ok(()) => Piece::Bytes(kept),
        Err(error) => Piece::Failed(error.into()),
    }
}

/// Who reads.
#[derive(Drop)]
enum By<F> {
    /// Nobody yet.
    Nobody(Waiting<F>),
    /// The thread beside, from which pieces come.
    Thread(Receiver<Piece, Global>),
    /// Whoever asks: there is no thread.
    Asker(Waiting<F>),
    /// Nobody any more.
    Lost,
}

/// A reader of which nothing is read before it is asked for. Then a thread beside reads it ahead, if there is
/// one.
#[derive(Drop)]
pub struct BesideReader<'r, R, F> {
    rt: &'r R,
    alloc: Global,
    /// What takes errands to the thread beside.
    errands: &'r Sender<Errand<F>, Global>,
    by: By<F>,
    /// A piece that has come and of which not all is handed out, and how much of it is.
    held: Option<Piece>,
    place: usize,
}

impl<'r, R: Input + Wait, F: Read + Drop> BesideReader<'r, R, F> {
    /// A reader of which nothing is read yet.
    pub fn new(
        rt: &'r R,
        alloc: Global,
        errands: &'r Sender<Errand<F>, Global>,
        input: Waiting<F>,
    ) -> BesideReader<'r, R, F> {
        BesideReader {
            rt,
            alloc,
            errands,
            by: By::Nobody(input),
            held: None,
            place: 0,
        }
    }

    /// Whether the next read does not wait: a piece has come.
    pub fn is_ready(&mut self) -> bool {
        self.begin();
        if self.held.is_none() {
            if let By::Thread(from) = &self.by {
                if let Ok(piece) = from.try_recv(self.rt) {
                    self.hold(piece);
                }
            }
        }
        self.held.is_some()
    }

    /// Gives the input to the thread beside, if nobody reads it yet.
    fn begin(&mut self) {
        if matches!(self.by, By::Nobody(_)) {
            if let By::Nobody(input) = mem::replace(&mut self.by, By::Lost) {
                self.by = self.given_away(input);
            }
        }
    }

    /// Who reads once the thread beside was asked to.
    fn given_away(&self, input: Waiting<F>) -> By<F> {
        let Ok((to, from)) = crossbeam_channel::bounded(self.alloc, PIECES) else {
            return By::Asker(input);
        };
        match self.errands.send(self.rt, Errand { input, to }) {
            Ok(()) => By::Thread(from),
            Err(SendError::Disconnected(errand)) => By::Asker(errand.input),
            Err(SendError::OutOfMemory(errand)) => By::Asker(errand.input),
        }
    }

    /// Holds a piece, of which nothing is handed out.
    fn hold(&mut self, piece: Piece) {
        self.held = Some(piece);
        self.place = 0;
    }

    /// Waits for a piece of the thread beside, if none is held.
    fn wait(&mut self) {
        if self.held.is_none() {
            if let By::Thread(from) = &self.by {
                if let Ok(piece) = from.recv(self.rt) {
                    self.hold(piece);
                }
            }
        }
    }

    /// Hands out bytes of a piece at the front of the buffer, and says how many. What is left is held.
    fn hand_out(&mut self, bytes: Vec<u8>, buf: &mut [u8]) -> usize
        ensures bound { result ≤ length buf.new }
    {
        let rest = match bytes.get(self.place..) {
            Some(rest) => rest,
            None => &[],
        };
        let n = rest.len().min(buf.len());
        buf[..n].copy_from_slice(&rest[..n]);
        if n < rest.len() {
            self.place = self.place.saturating_add(n);
            self.held = Some(Piece::Bytes(bytes));
        }
        n
    }
}

impl<R: Input + Wait, F: Read + Drop> Read for BesideReader<'_, R, F> {
    fn read(&mut self, buf: &mut [u8]) -> io::Result<usize> {
        self.begin();
        match &mut self.by {
            By::Asker(Waiting::Input) => return self.rt.reader().read(buf),
            By::Asker(Waiting::File(file)) => return file.read(buf),
            _ => {}
        }
        self.wait();
        match self.held.take() {
            Some(Piece::Bytes(bytes)) => Ok(self.hand_out(bytes, buf)),
            Some(Piece::Failed(error)) => Err(error),
            // The thread beside has come to the end of the input.
            None => Ok(0),
        }
    }
}

//! The ring of cells through which blocks go to the workers. No thread waits for a cell.

ghost use Rattle.std.specs.Prelude.{◌≡◌, ◌<◌, IfOk, vec_len};

use crate::block::Block;
use crate::limits::{MOST_OUT, TRIES};
use jp_output::Form;
use std::alloc::{AllocError, Global};
use std::hint::spin_loop;
use std::sync::atomic::Ordering::Relaxed;
use std::sync::atomic::{AtomicBool, AtomicU64};
use std::sync::{Arc, Mutex};

/// What was handed out in a cell last: its number, and the block, unless some thread has taken it.
#[derive(Drop)]
struct Handed<'q, F: Form> {
    number: u64,
    block: Option<Arc<Block<'q, F>, Global>>,
}

/// A cell, which has one thread at a time.
type Cell<'q, F> = Mutex<Option<Handed<'q, F>>>;

/// What a worker finds of the block that it has claimed.
#[derive(Drop)]
pub(crate) enum Claimed<'q, F: Form> {
    /// The block, which no other thread takes out of the ring.
    Here(Arc<Block<'q, F>, Global>),
    /// Another thread has it, or a later one stands in its cell.
    Gone,
    /// It has not been handed out.
    NotYet,
}

/// A ring of 16 cells, through which blocks with the numbers from 0 on go to workers, one after another.
///
/// What threads tell one another by it are hints: no clause says what is in a cell, or who has ended.
#[derive(Drop)]
pub struct Ring<'q, F: Form> {
    cells: Vec<Cell<'q, F>>,
    /// The number of the next block.
    next: AtomicU64,
    /// How many workers have ended.
    ended: AtomicU64,
    /// Whether no more is handed out.
    closed: AtomicBool,
    ghost some_cell: { 0 < vec_len cells },
}

impl<'q, F: Form + Drop> Ring<'q, F> {
    /// A ring with no block. `AllocError` if its cells were refused their memory.
    pub fn new(alloc: Global) -> Result<Ring<'q, F>, AllocError> {
        Ok(Ring {
            cells: new_cells(alloc)?,
            next: AtomicU64::new(0),
            ended: AtomicU64::new(0),
            closed: AtomicBool::new(false),
        })
    }

    /// The cell of a number.
    fn cell(&self, number: u64) -> &Cell<'q, F> {
        &self.cells[(number % self.cells.len() as u64) as usize]
    }

    /// Hands the block with this number out, the next one, in the place of the one 16 before it. Where
    /// another thread does not let the cell go, no worker gets the block.
    pub fn hand_out(&self, number: u64, block: Arc<Block<'q, F>, Global>) {
        let cell = self.cell(number);
        for _try in 0..TRIES {
            if let Some(mut guard) = cell.try_lock() {
                *guard = Some(Handed {
                    number,
                    block: Some(block),
                });
                break;
            }
            spin_loop();
        }
        // After the cell has it: a worker looks into a cell only for a number below.
        self.next.store(number.saturating_add(1), Relaxed);
    }

    /// Takes the block with this number back, so that no worker answers it. Gives whether it was there: where
    /// it was not, some worker may be answering it.
    pub fn take_back(&self, number: u64) -> bool {
        match self.claimed(number) {
            Claimed::Here(_) => true,
            Claimed::Gone | Claimed::NotYet => false,
        }
    }

    /// What there is of the block with this number. The block is taken out of its cell.
    pub(crate) fn claimed(&self, number: u64) -> Claimed<'q, F> {
        if self.next.load(Relaxed) <= number {
            return Claimed::NotYet;
        }
        let Some(mut guard) = self.cell(number).try_lock() else {
            return Claimed::NotYet;
        };
        match guard.as_mut() {
            Some(handed) if handed.number == number => match handed.block.take() {
                Some(block) => Claimed::Here(block),
                None => Claimed::Gone,
            },
            _ => Claimed::Gone,
        }
    }

    /// Tells the workers that no more is handed out, so that they end.
    pub fn close(&self) {
        self.closed.store(true, Relaxed);
    }

    /// Whether no more is handed out.
    pub fn is_closed(&self) -> bool {
        self.closed.load(Relaxed)
    }

    /// How many workers have ended. A worker ends where it has looked for a block in vain for long, or knows
    /// that no more comes.
    pub fn ended(&self) -> u64 {
        self.ended.load(Relaxed)
    }

    /// Tells that a worker has ended.
    pub(crate) fn end(&self) {
        self.ended.fetch_add(1, Relaxed);
    }
}

/// Cells with no block.
fn new_cells<'q, F: Form + Drop>(alloc: Global) -> Result<Vec<Cell<'q, F>>, AllocError>
    ensures { IfOk result (λ cells. vec_len cells ≡ 16) }
{
    let mut cells = Vec::with_capacity(alloc, MOST_OUT)?;
    for _cell in 0..MOST_OUT {
        cells.push(Mutex::new(None))?;
    }
    Ok(cells)
}

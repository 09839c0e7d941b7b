//! The board and its calls.
ghost use Rattle.std.specs.Prelude.{◌≡◌, ◌<◌, ◌≤◌, ◌⊎◌, ◌↔◌, ◌∷◌, [], map, All, Contains, IfSome, IfNone};
ghost use Rattle.std.specs.Prelude.{IfOk, IfErr, IsErrOf, IsOk, None, vec_len};
ghost use Rattle.jp_board.specs.Limits.{max_pieces, max_seats};

use crate::fault::{BoardFault, CloseFault};
use crate::rule::{Claim, Gather, Look, Report};
use crate::seat::{BoardTable, Seat};
use crate::tally::Tally;
use crate::view::View;
use atomic_table::{Seat as Token, Table};
use std::alloc::Global;

/// A board of numbered pieces. Threads share it by reference, each with a seat of its own.
#[derive(Drop)]
pub struct Board {
    table: BoardTable,
    pieces: u64,
    made: u64,
    ghost counts: { (table.shared.table_id.words ≡ 2) × (table.shared.table_id.slots ≡ 0) },
    ghost key_is: { table.shared.key ≡ (pieces, made) },
    pub ghost few_pieces: { pieces ≤ max_pieces },
    pub ghost some_seat: { (0 < made) × (made ≤ max_seats) },
}

impl Board {
    /// The greatest number of pieces: the word `next` counts them, and is far from where 64 bits end.
    const MAX_PIECES: u64 = 4_294_967_296;

    /// The greatest number of seats: `next` counts one more for each.
    const MAX_SEATS: u64 = 64;

    ghost use Rattle.jp_board.specs.Account.{SameAccount};
    ghost use Rattle.jp_board.specs.Lawful.{IsLeastOf};
    ghost use Rattle.jp_board.specs.Seats.{pieces_of, made_of, view_of, IsSeatOf, IsFresh, WasTold};
    ghost use Rattle.jp_board.specs.Tally.{Tallies, HandsBack};
    ghost use Rattle.jp_board.specs.Views.{with_claim, once_told, with_report, with_look};

    /// A board of the pieces from 0 on, and its seats, which have done nothing yet.
    pub fn new(alloc: Global, pieces: u64, seats: u64) -> Result<(Board, Vec<Seat>), BoardFault>
        ensures board { IfOk result (λ r. (pieces_of r.0 ≡ pieces) × (made_of r.0 ≡ seats)) }
        ensures len { IfOk result (λ r. vec_len r.1 ≡ seats) }
        ensures seats { IfOk result (λ r. All (IsSeatOf r.0) r.1.items) }
        ensures fresh { IfOk result (λ r. All (IsFresh pieces seats) r.1.items) }
        ensures too_many { IsErrOf result BoardFault.TooMany
            ↔ ((max_pieces < pieces) ⊎ (seats ≡ 0) ⊎ (max_seats < seats)) }
    {
        if pieces > Board::MAX_PIECES || seats == 0 || seats > Board::MAX_SEATS {
            return Err(BoardFault::TooMany);
        }
        // Before there is a table, so that nothing can be refused while its seats are dealt.
        let Ok(dealt) = Vec::with_capacity(alloc, seats as usize) else {
            return Err(BoardFault::Memory);
        };
        let Ok((table, first)) = Table::of_words(alloc, &[0, pieces], &(pieces, seats)) else {
            return Err(BoardFault::Memory);
        };
        let dealt = Seat::deal(&table, first, seats, dealt);
        Ok((
            Board {
                table,
                pieces,
                made: seats,
            },
            dealt,
        ))
    }

    /// Claims a piece that nobody else claims. `None` where all are out, and from then on for this seat.
    pub fn claim(&self, seat: &mut Seat) -> Option<u64>
        requires { IsSeatOf self.now seat.old }
        ensures seat { IsSeatOf self.now seat.new }
        ensures within { IfSome result (λ i. i < pieces_of self.now) }
        ensures rises { IfSome result (λ i. All (λ x. x < i) (view_of seat.old).claims) }
        ensures claimed { IfSome result (λ i. view_of seat.new ≡ with_claim (view_of seat.old) i) }
        ensures mine { IfSome result (Contains (view_of seat.new).claims) }
        ensures none { IfNone result (view_of seat.new ≡ once_told (view_of seat.old)) }
        ensures told { IfNone result (WasTold seat.new) }
        ensures again { WasTold seat.old → (result ≡ None) × (seat.new ≡ seat.old) }
    {
        // No further step, since `next` counts one more for each seat, and no more than one.
        if seat.told {
            return None;
        }
        let found = self.table.shared.fetch_add::<Claim>(&mut seat.token, 0, 1);
        if found < self.pieces {
            return Some(found);
        }
        seat.told = true;
        None
    }

    /// Reports a piece that this seat has claimed: the mark is no higher from then on.
    pub fn report(&self, seat: &mut Seat, piece: u64)
        requires board { IsSeatOf self.now seat.old }
        requires claimed { Contains (view_of seat.old).claims piece }
        ensures seat { IsSeatOf self.now seat.new }
        ensures report { view_of seat.new ≡ with_report (view_of seat.old) piece }
    {
        self.table
            .shared
            .fetch_min::<Report>(&mut seat.token, 1, piece);
    }

    /// The mark: the number of pieces, or a piece that some seat has reported. It never rises for one seat.
    pub fn look(&self, seat: &mut Seat) -> u64
        requires { IsSeatOf self.now seat.old }
        ensures seat { IsSeatOf self.now seat.new }
        ensures within { result ≤ pieces_of self.now }
        ensures falls { All (λ x. result ≤ x) (view_of seat.old).looks }
        ensures under_reports { All (λ x. result ≤ x) (view_of seat.old).reports }
        ensures look { view_of seat.new ≡ with_look (view_of seat.old) result }
        ensures least { IsLeastOf (view_of seat.new) result }
    {
        self.table.shared.load::<Look>(&mut seat.token, 1)
    }

    /// Ends the board, and says what its seats did together.
    pub fn close(self, seats: Vec<Seat>) -> Result<Tally, CloseFault>
        requires { All (IsSeatOf self) seats.items }
        ensures all { IsOk result ↔ (vec_len seats ≡ made_of self) }
        ensures tally { IfOk result
            (λ t. Tallies (pieces_of self) t.claimed t.least (map view_of seats.items)) }
        ensures missing { IfErr result (HandsBack self seats.items) }
    {
        if seats.len() as u64 != self.made {
            return Err(CloseFault::Missing { board: self, seats });
        }
        let all = self.gather(seats);
        Ok(self.settle(all))
    }

    // One seat that has done what all of them did.
    fn gather(&self, mut seats: Vec<Seat>) -> Token<(), View>
        requires { All (IsSeatOf self.now) seats.items × (0 < vec_len seats) }
        ensures table { result.table_id ≡ self.now.table.shared.table_id }
        ensures all { result.me.0.stands_for ≡ vec_len seats }
        ensures same { SameAccount (map view_of seats.items) (result.me.0 ∷ []) }
    {
        let Some(Seat { token: mut all, .. }) = seats.pop() else {
            unreachable!()
        };
        while let Some(Seat { token, .. }) = seats.pop() {
            self.table.shared.join_seat::<Gather>(&mut all, token);
        }
        all
    }

    // Takes the table down with the seat that stands for all.
    fn settle(self, all: Token<(), View>) -> Tally
        requires { (all.table_id ≡ self.table.shared.table_id) × (all.me.0.stands_for ≡ self.made) }
        ensures { Tallies self.pieces result.claimed result.least (all.me.0 ∷ []) }
    {
        let Board { table, pieces, .. } = self;
        let closed = table.close_with(all);
        let next = closed.word(0);
        let least = closed.word(1);
        closed.free();
        Tally {
            claimed: next.min(pieces),
            least,
        }
    }
}

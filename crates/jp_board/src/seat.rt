//! A caller's place at a board.
ghost use Rattle.std.specs.Prelude.{◌≡◌, ◌<◌, ◌≤◌, [], All, vec_len, vec_capacity, if◌then◌else◌};

use crate::rule::{BoardRule, Deal};
use crate::view::View;
use atomic_table::{Seat as Token, Table};
use std::alloc::Global;

pub(crate) type BoardTable = Table<(), View, (u64, u64), BoardRule, Global>;

/// A caller's place at a board. It goes to the thread of its caller, and comes back before the board is
/// closed.
#[derive(Drop)]
pub struct Seat {
    pub(crate) token: Token<(), View>,
    pub(crate) told: bool,
    ghost one: { token.me.0.stands_for ≡ 1 },
    ghost holds_no_slot: { token.me.1 ≡ [] },
    ghost told_once: { token.me.0.told ≡ (if told then 1 else 0) },
}

impl Seat {
    ghost use Rattle.jp_board.specs.Seats.{IsAt, IsFresh, view_of};
    ghost use Rattle.jp_board.specs.Views.{fresh};

    fn new(token: Token<(), View>) -> Seat
        requires one { token.me.0.stands_for ≡ 1 }
        requires new { (token.me.1 ≡ []) × (token.me.0.told ≡ 0) }
        ensures { result.token ≡ token }
    {
        Seat { token, told: false }
    }

    // Cuts a seat after the other off the first, which stands for all of them.
    pub(crate) fn deal(
        table: &BoardTable,
        mut first: Token<(), View>,
        seats: u64,
        mut dealt: Vec<Seat>,
    ) -> Vec<Seat>
        requires table { (first.table_id ≡ table.now.shared.table_id)
            × (table.now.shared.table_id.words ≡ 2) }
        requires first { first.me ≡ (fresh table.now.shared.key.0 table.now.shared.key.1 seats, []) }
        requires some { (0 < seats) × (seats ≤ vec_capacity dealt) × (dealt.items ≡ []) }
        ensures len { vec_len result ≡ seats }
        ensures at { All (IsAt table.now.shared.table_id table.now.shared.key.0 table.now.shared.key.1)
            result.items }
        ensures fresh { All (IsFresh table.now.shared.key.0 table.now.shared.key.1) result.items }
    {
        for _done in 1..seats {
            let token = table.shared.split_seat::<Deal>(&mut first);
            dealt.push_reserved(Seat::new(token));
        }
        dealt.push_reserved(Seat::new(first));
        dealt
    }
}

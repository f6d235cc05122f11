//! The words of a cell, of one of four widths, and a token of them.
ghost use Rattle.std.specs.Prelude.{◌≡◌, ◌+◌, ◌≤◌, ℕ, List, [], ◌∷◌, ◌++◌, true, false, nat_eq, length, if◌then◌else◌, IfOk, MatchResult};
ghost use lib.Pointwise.{pointwise};
ghost use Rattle.crossbeam_utils.specs.Register.{Forks, Merges, Turns};
ghost use Rattle.crossbeam_utils.specs.Seq.{cell_view, IsSamePass};
ghost use Rattle.version_cell.specs.Views.{blank};
ghost use Rattle.version_cell.specs.Rule.{Kept};
ghost use Rattle.version_cell.specs.Spellings.{words_of};
ghost use Rattle.version_cell.specs.Widths.{Stands, StandsIn};
ghost use Rattle.version_cell.specs.Strips.{table_of};

use crate::cut::{Seat, Words, exchange_in, load_in, ruled_in, swap_in};
use crate::rule::View;
use crate::spelling::Spelling;
use atomic_table::{Join, Split};
use crossbeam_utils::rule::Outcome;
use row_words::Row;
use std::alloc::{AllocError, Global};
use std::marker::Model;
use std::sync::Wait;

/// The words of a cell. Rows of at most 8, 32, 80 and 125 words have 34, 58, 106 and 151 of them.
#[derive(Drop)]
pub(crate) enum Strip {
    Narrow(Words<34>),
    Short(Words<58>),
    Long(Words<106>),
    Whole(Words<151>),
}

#[derive(Drop)]
pub(crate) enum Seats {
    Narrow(Seat<34>),
    Short(Seat<58>),
    Long(Seat<106>),
    Whole(Seat<151>),
}

/// A token of a cell's words, with what it has seen. It has the width of its cell.
#[derive(Drop)]
pub(crate) struct Place {
    pub(crate) seats: Seats,
}

impl Model for Place {
    ghost use Rattle.std.specs.Prelude.{ℕ, List};
    ghost use Rattle.atomic_table.specs.declared.shared.Seat.{Seat};
    ghost use Rattle.crossbeam_utils.specs.declared.atomic.seq_cell.Doing.{Doing};
    ghost use Rattle.version_cell.specs.declared.rule.View.{View};

    ghost Value = { Seat (List ℕ) (Doing (List ℕ) View) };

    ghost use Rattle.version_cell.specs.Strips.{seat_in, IsOfWidth};

    ghost view = { λ p. seat_in p.seats };

    ghost invariant = { λ p. IsOfWidth p.seats };
}

impl Strip {
    /// The words of a new cell for rows of so many words.
    pub(crate) fn ruled(
        alloc: Global,
        row: u32,
        start: &Spelling,
    ) -> Result<(Strip, Place), AllocError>
        requires narrow { row ≤ 125 }
        requires start { (count : ℕ) → 26 ≤ count → count ≤ 151
            → Stands count (words_of start.now) }
        requires rule { Kept (words_of start.now) (blank ∷ []) }
        ensures name { IfOk result (λ made. made.1.table_id ≡ table_of made.0) }
        ensures view { IfOk result (λ made. cell_view made.1 ≡ blank) }
        ensures room { IfOk result (λ made. row + 27 ≤ (table_of made.0).words) }
    {
        if row <= 8 {
            let (words, seat) = ruled_in::<34>(alloc, start)?;
            let seats = Seats::Narrow(seat);
            Ok((Strip::Narrow(words), Place { seats }))
        } else if row <= 32 {
            let (words, seat) = ruled_in::<58>(alloc, start)?;
            let seats = Seats::Short(seat);
            Ok((Strip::Short(words), Place { seats }))
        } else if row <= 80 {
            let (words, seat) = ruled_in::<106>(alloc, start)?;
            let seats = Seats::Long(seat);
            Ok((Strip::Long(words), Place { seats }))
        } else {
            let (words, seat) = ruled_in::<151>(alloc, start)?;
            let seats = Seats::Whole(seat);
            Ok((Strip::Whole(words), Place { seats }))
        }
    }

    /// One load. The words that it finds are the head, which is those before a row, and the row.
    pub(crate) fn load_as<M: Outcome<[u64; 151], View>, R: Wait>(
        &self,
        rt: &R,
        place: &mut Place,
        head: &mut [u64; 26],
        row: &mut Row,
    )
        requires own { place.old.table_id ≡ table_of self.now }
        requires rule { Turns Kept place.old.id (cell_view place.old) (λ x. x) M.then }
        ensures same { IsSamePass place.old place.new }
        ensures told { let found = head.new ++ row.new.words in
            M.then (cell_view place.old) found found (cell_view place.new) }
    {
        match (self, &mut place.seats) {
            (Strip::Narrow(words), Seats::Narrow(seat)) => {
                load_in::<M, R, 34>(rt, words, seat, head, row)
            }
            (Strip::Short(words), Seats::Short(seat)) => {
                load_in::<M, R, 58>(rt, words, seat, head, row)
            }
            (Strip::Long(words), Seats::Long(seat)) => {
                load_in::<M, R, 106>(rt, words, seat, head, row)
            }
            (Strip::Whole(words), Seats::Whole(seat)) => {
                load_in::<M, R, 151>(rt, words, seat, head, row)
            }
            _ => unreachable!(),
        }
    }

    /// One exchange, which wins where it finds the words that it expects.
    pub(crate) fn compare_exchange_as<M: Outcome<[u64; 151], View>, R: Wait>(
        &self,
        rt: &R,
        place: &mut Place,
        current: &Spelling,
        new: &Spelling,
    ) -> Result<(), [u64; 151]>
        requires own { place.old.table_id ≡ table_of self.now }
        requires current { StandsIn (table_of self.now) (words_of current.now) }
        requires new { StandsIn (table_of self.now) (words_of new.now) }
        requires rule { Turns Kept place.old.id (cell_view place.old)
            (λ x. if pointwise nat_eq x (words_of current.now) then words_of new.now else x)
            M.then }
        ensures same { IsSamePass place.old place.new }
        ensures told { MatchResult result
            (λ _. (x : List ℕ) × (pointwise nat_eq x (words_of current.now) ≡ true)
            × M.then (cell_view place.old) x (words_of new.now) (cell_view place.new))
            (λ x. (pointwise nat_eq x (words_of current.now) ≡ false)
            × M.then (cell_view place.old) x x (cell_view place.new)) }
    {
        match (self, &mut place.seats) {
            (Strip::Narrow(words), Seats::Narrow(seat)) => {
                exchange_in::<M, R, 34>(rt, words, seat, current, new)
            }
            (Strip::Short(words), Seats::Short(seat)) => {
                exchange_in::<M, R, 58>(rt, words, seat, current, new)
            }
            (Strip::Long(words), Seats::Long(seat)) => {
                exchange_in::<M, R, 106>(rt, words, seat, current, new)
            }
            (Strip::Whole(words), Seats::Whole(seat)) => {
                exchange_in::<M, R, 151>(rt, words, seat, current, new)
            }
            _ => unreachable!(),
        }
    }

    /// One store.
    pub(crate) fn swap_as<M: Outcome<[u64; 151], View>, R: Wait>(
        &self,
        rt: &R,
        place: &mut Place,
        new: &Spelling,
    )
        requires own { place.old.table_id ≡ table_of self.now }
        requires new { StandsIn (table_of self.now) (words_of new.now) }
        requires rule { Turns Kept place.old.id (cell_view place.old) (λ _. words_of new.now)
            M.then }
        ensures same { IsSamePass place.old place.new }
        ensures told { (x : List ℕ)
            × M.then (cell_view place.old) x (words_of new.now) (cell_view place.new) }
    {
        match (self, &mut place.seats) {
            (Strip::Narrow(words), Seats::Narrow(seat)) => {
                swap_in::<M, R, 34>(rt, words, seat, new)
            }
            (Strip::Short(words), Seats::Short(seat)) => swap_in::<M, R, 58>(rt, words, seat, new),
            (Strip::Long(words), Seats::Long(seat)) => swap_in::<M, R, 106>(rt, words, seat, new),
            (Strip::Whole(words), Seats::Whole(seat)) => {
                swap_in::<M, R, 151>(rt, words, seat, new)
            }
            _ => unreachable!(),
        }
    }

    /// Cuts what the token has seen in two.
    pub(crate) fn split_pass<M: Split<View>>(&self, place: &mut Place) -> Place
        requires own { place.old.table_id ≡ table_of self.now }
        requires rule { Forks Kept place.old.id (cell_view place.old)
            (M.left (cell_view place.old)) (M.right (cell_view place.old)) }
        ensures kept { IsSamePass place.old place.new
            × (cell_view place.new ≡ M.left (cell_view place.old)) }
        ensures given { (result.table_id ≡ place.old.table_id)
            × (cell_view result ≡ M.right (cell_view place.old)) × (result.me.1 ≡ []) }
    {
        let seats = match (self, &mut place.seats) {
            (Strip::Narrow(words), Seats::Narrow(seat)) => {
                Seats::Narrow(words.split_pass::<M>(seat))
            }
            (Strip::Short(words), Seats::Short(seat)) => Seats::Short(words.split_pass::<M>(seat)),
            (Strip::Long(words), Seats::Long(seat)) => Seats::Long(words.split_pass::<M>(seat)),
            (Strip::Whole(words), Seats::Whole(seat)) => Seats::Whole(words.split_pass::<M>(seat)),
            _ => unreachable!(),
        };
        Place { seats }
    }

    /// Takes in what a token has seen that `split_pass` gave.
    pub(crate) fn join_pass<M: Join<View>>(&self, place: &mut Place, other: Place)
        requires own { (place.old.table_id ≡ table_of self.now)
            × (other.table_id ≡ place.old.table_id) × (other.me.1 ≡ []) }
        requires rule { Merges Kept place.old.id (cell_view place.old) other.id (cell_view other)
            (M.both (cell_view place.old) (cell_view other)) M.spent }
        ensures { IsSamePass place.old place.new
            × (cell_view place.new ≡ M.both (cell_view place.old) (cell_view other)) }
    {
        match (self, &mut place.seats, other.seats) {
            (Strip::Narrow(words), Seats::Narrow(seat), Seats::Narrow(other)) => {
                words.join_pass::<M>(seat, other)
            }
            (Strip::Short(words), Seats::Short(seat), Seats::Short(other)) => {
                words.join_pass::<M>(seat, other)
            }
            (Strip::Long(words), Seats::Long(seat), Seats::Long(other)) => {
                words.join_pass::<M>(seat, other)
            }
            (Strip::Whole(words), Seats::Whole(seat), Seats::Whole(other)) => {
                words.join_pass::<M>(seat, other)
            }
            _ => unreachable!(),
        }
    }
}

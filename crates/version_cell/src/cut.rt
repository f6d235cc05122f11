//! Cells of N words that stand for 151 words: those are the N words and zeros behind them. Steps of one width stay functions of
//! their own, so that a call pays for the locals of its width alone.
ghost use Rattle.std.specs.Prelude.{◌≡◌, ◌≤◌, ℕ, List, [], ◌∷◌, ◌++◌, true, false, nat_eq, length, take, if◌then◌else◌, IfOk, MatchResult};
ghost use lib.Pointwise.{pointwise};
ghost use Rattle.crossbeam_utils.specs.Register.{Turns};
ghost use Rattle.crossbeam_utils.specs.Seq.{cell_view, IsSamePass};
ghost use Rattle.version_cell.specs.Widths.{widened, Stands};
ghost use Rattle.version_cell.specs.Views.{blank};
ghost use Rattle.version_cell.specs.Rule.{Kept};
ghost use Rattle.version_cell.specs.Spellings.{words_of};

use crate::rule::{OneHistory, View};
use crate::spelling::Spelling;
use crossbeam_utils::atomic::seq_cell;
use crossbeam_utils::atomic::seq_cell::RuledSeqCell;
use crossbeam_utils::rule::Outcome;
use row_words::Row;
use std::alloc::{AllocError, Global};
use std::marker::PhantomData;
use std::sync::Wait;

/// What a step of 151 words tells, of the N words that stand for them.
pub struct Cut<M, const N: usize> {
    outcome: PhantomData<M>,
}

impl<M: Outcome<[u64; 151], View>, const N: usize> Outcome<[u64; N], View> for Cut<M, N> {
    ghost use Rattle.version_cell.specs.Widths.{widened};

    ghost then = { λ v x y w. M.then v (widened N x) (widened N y) w };
}

/// N words under the rule.
pub(crate) type Words<const N: usize> = RuledSeqCell<[u64; N], View, OneHistory<N>, N>;

/// A token of them, with what it has seen.
pub(crate) type Seat<const N: usize> = seq_cell::Pass<[u64; N], View>;

/// A cell of N words, the first of these.
#[inline(never)]
pub(crate) fn ruled_in<const N: usize>(
    alloc: Global,
    start: &Spelling,
) -> Result<(Words<N>, Seat<N>), AllocError>
    requires wide { 26 ≤ N }
    requires small { N ≤ 151 }
    requires start { Stands N (words_of start.now) }
    requires rule { Kept (words_of start.now) (blank ∷ []) }
    ensures name { IfOk result (λ made. made.1.table_id ≡ made.0.table.shared.table_id) }
    ensures view { IfOk result (λ made. cell_view made.1 ≡ blank) }
{
    Words::<N>::ruled(alloc, start.first())
}

/// One load. The words that it finds are the head, which is those before a row, and the row.
#[inline(never)]
pub(crate) fn load_in<M: Outcome<[u64; 151], View>, R: Wait, const N: usize>(
    rt: &R,
    words: &Words<N>,
    seat: &mut Seat<N>,
    head: &mut [u64; 26],
    row: &mut Row,
)
    requires wide { 26 ≤ N }
    requires small { N ≤ 151 }
    requires own { seat.old.table_id ≡ words.now.table.shared.table_id }
    requires rule { Turns Kept seat.old.id (cell_view seat.old) (λ x. x) M.then }
    ensures same { IsSamePass seat.old seat.new }
    ensures told { let found = head.new ++ row.new.words in
        M.then (cell_view seat.old) found found (cell_view seat.new) }
{
    let found = words.load_as::<Cut<M, N>, R>(rt, seat);
    part(&found, head, row);
}

/// One exchange, which wins where it finds the words that it expects.
#[inline(never)]
pub(crate) fn exchange_in<M: Outcome<[u64; 151], View>, R: Wait, const N: usize>(
    rt: &R,
    words: &Words<N>,
    seat: &mut Seat<N>,
    current: &Spelling,
    new: &Spelling,
) -> Result<(), [u64; 151]>
    requires wide { 26 ≤ N }
    requires small { N ≤ 151 }
    requires current { Stands N (words_of current.now) }
    requires new { Stands N (words_of new.now) }
    requires own { seat.old.table_id ≡ words.now.table.shared.table_id }
    requires rule { Turns Kept seat.old.id (cell_view seat.old)
        (λ x. if pointwise nat_eq x (words_of current.now) then words_of new.now else x) M.then }
    ensures same { IsSamePass seat.old seat.new }
    ensures told { MatchResult result
        (λ _. (x : List ℕ) × (pointwise nat_eq x (words_of current.now) ≡ true)
        × M.then (cell_view seat.old) x (words_of new.now) (cell_view seat.new))
        (λ x. (pointwise nat_eq x (words_of current.now) ≡ false)
        × M.then (cell_view seat.old) x x (cell_view seat.new)) }
{
    match words.compare_exchange_as::<Cut<M, N>, R>(rt, seat, current.first(), new.first()) {
        Ok(_) => Ok(()),
        Err(found) => Err(wide(&found)),
    }
}

/// One store.
#[inline(never)]
pub(crate) fn swap_in<M: Outcome<[u64; 151], View>, R: Wait, const N: usize>(
    rt: &R,
    words: &Words<N>,
    seat: &mut Seat<N>,
    new: &Spelling,
)
    requires wide { 26 ≤ N }
    requires small { N ≤ 151 }
    requires new { Stands N (words_of new.now) }
    requires own { seat.old.table_id ≡ words.now.table.shared.table_id }
    requires rule { Turns Kept seat.old.id (cell_view seat.old) (λ _. words_of new.now) M.then }
    ensures same { IsSamePass seat.old seat.new }
    ensures told { (x : List ℕ)
        × M.then (cell_view seat.old) x (words_of new.now) (cell_view seat.new) }
{
    words.swap_as::<Cut<M, N>, R>(rt, seat, new.first());
}

// The head and the row of the 151 words for which these stand.
#[inline(always)]
fn part(words: &[u64], head: &mut [u64; 26], row: &mut Row)
    requires wide { 26 ≤ length words.now }
    requires small { length words.now ≤ 151 }
    ensures { head.new ++ row.new.words ≡ widened (length words.now) words.now }
{
    let count = words.len() - 26;
    head.copy_from_slice(&words[..26]);
    row.words[..count].copy_from_slice(&words[26..]);
    row.words[count..].fill(0);
}

// The 151 words for which these stand.
#[inline(always)]
fn wide<const N: usize>(words: &[u64; N]) -> [u64; 151]
    requires { N ≤ 151 }
    ensures { result ≡ widened N words.now }
{
    let mut wide = [0u64; 151];
    wide[..N].copy_from_slice(words);
    wide
}

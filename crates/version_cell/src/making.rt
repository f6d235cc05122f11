//! The making of a cell, in which the eight numbers are given.
ghost use Rattle.std.specs.Prelude.{◌≡◌, ℕ, ◌+◌, ◌<◌, ◌≤◌, ◌^◌, ◌++◌, length, sum, true, Some, None, IfSome, IfOk};
ghost use Rattle.crossbeam_utils.specs.Seq.{cell_view};
ghost use Rattle.version_cell.specs.Views.{copied, joined, settled};
ghost use Rattle.version_cell.specs.Cells.{IsCell};
ghost use Rattle.version_cell.specs.Passes.{AreNumbered, new_pass};
ghost use Rattle.version_cell.specs.Strips.{table_of};
ghost use Rattle.version_cell.specs.Making.{AreFresh, AreNew, IsFresh, new_known};

use crate::cell::Cell;
use crate::pass::Pass;
use crate::places::{join_places, load_words};
use crate::rule::{Copies, Enrolling};
use crate::spelling::{spelled, terms_for, words_of_rows};
use crate::strip::{Place, Strip};
use dataset_meta::Meta;
use row_words::Row;
use std::alloc::Global;
use std::sync::Wait;
use std::sync::atomic::AtomicU64;
use ua_base::NoMemory;

impl Cell {
    /// A cell of rows of this meta with no entries yet, whose authors may make so many entries; a pass with no number, and a pass
    /// for each of the eight numbers, in order. All have seen the opening row alone.
    pub fn new<R: Wait>(
        rt: &R,
        alloc: Global,
        meta: &Meta,
        quotas: &[u64; 8],
    ) -> Result<(Cell, Pass, Vec<Pass>), NoMemory>
        requires quotas { sum quotas.now < 2 ^ 63 }
        ensures cell { IfOk result (λ made. IsCell made.0) }
        ensures meta { IfOk result (λ made. made.0.meta ≡ meta.now) }
        ensures quotas { IfOk result (λ made. made.0.quotas ≡ quotas.now) }
        ensures first { IfOk result (λ made. made.1 ≡ new_pass made.0 None) }
        ensures numbered { IfOk result (λ made. AreNumbered made.0 made.2.items) }
    {
        let terms = terms_for(quotas, meta);
        let row = words_of_rows(meta);
        let meta = meta.copy(alloc)?;
        let (words, first, passes) = begun(rt, alloc, row, &terms)?;
        let newest = AtomicU64::new(0);
        let cell = Cell {
            words,
            meta,
            terms,
            newest,
        };
        Ok((cell, first, passes))
    }
}

// Nobody else has a token of the words yet, so the first attempt succeeds; no clause says so.
fn begun<R: Wait>(
    rt: &R,
    alloc: Global,
    row: u32,
    terms: &[u64; 24],
) -> Result<(Strip, Pass, Vec<Pass>), NoMemory>
    requires wide { length terms.now ≡ 24 }
    requires narrow { row ≤ 125 }
    ensures room { IfOk result (λ made. row + 27 ≤ (table_of made.0).words) }
    ensures first { IfOk result
        (λ made. made.1 ≡ new_known (table_of made.0) terms.now None) }
    ensures count { IfOk result (λ made. length made.2.items ≡ 8) }
    ensures numbered { IfOk result
        (λ made. AreNew (table_of made.0) terms.now made.2.items) }
{
    for _ in rt.forever() {
        if let Some(made) = attempt(rt, alloc, row, terms)? {
            return Ok(made);
        }
    }
    unreachable!()
}

fn attempt<R: Wait>(
    rt: &R,
    alloc: Global,
    row: u32,
    terms: &[u64; 24],
) -> Result<Option<(Strip, Pass, Vec<Pass>)>, NoMemory>
    requires wide { length terms.now ≡ 24 }
    requires narrow { row ≤ 125 }
    ensures { IfOk result (λ r. IfSome r (λ made. (row + 27 ≤ (table_of made.0).words)
        × (made.1 ≡ new_known (table_of made.0) terms.now None)
        × (length made.2.items ≡ 8)
        × AreNew (table_of made.0) terms.now made.2.items)) }
{
    let opening = Row::opening();
    let start = spelled(0, 0, &opening, terms);
    let (words, mut first) = Strip::ruled(alloc, row, &start)?;
    let (mut head, mut row) = ([0u64; 26], opening);
    load_words(rt, &words, &mut first, &mut head, &mut row);
    if !is_found(&start.first(), &head, &row) {
        return Ok(None);
    }
    let Some(places) = all_enrolled(rt, alloc, &words, terms, &mut first)? else {
        return Ok(None);
    };
    let passes = passes_of(rt, alloc, &words, terms, &mut first, places)?;
    let pass = pass_of(&words, terms, first, None);
    Ok(Some((words, pass, passes)))
}

// Whether the head and the row are these words.
fn is_found(words: &[u64; 151], head: &[u64; 26], row: &Row) -> bool
    ensures { result ≡ true → head.now ++ row.now.words ≡ words.now }
{
    head[..] == words[..26] && row.words[..] == words[26..]
}

// The tokens of the eight numbers, or none where another took one.
fn all_enrolled<R: Wait>(
    rt: &R,
    alloc: Global,
    words: &Strip,
    terms: &[u64; 24],
    first: &mut Place,
) -> Result<Option<Vec<Place>>, NoMemory>
    requires { IsFresh (table_of words.now) terms.now None 0 first.old }
    ensures { IfOk result (λ r. IfSome r (λ places. (length places.items ≡ 8)
        × AreFresh (table_of words.entry.now) terms.entry.now places.items
        × IsFresh (table_of words.entry.now) terms.entry.now None 8 first.new)) }
{
    let mut places = Vec::new(alloc);
    for number in 0..8 {
        let Some(place) = enrolled(rt, words, terms, first, number) else {
            return Ok(None);
        };
        places.push(place)?;
    }
    Ok(Some(places))
}

// A new token with this number, which the first then knows of.
fn enrolled<R: Wait>(
    rt: &R,
    words: &Strip,
    terms: &[u64; 24],
    first: &mut Place,
    number: u64,
) -> Option<Place>
    requires small { number < 8 }
    requires first { IsFresh (table_of words.now) terms.now None number first.old }
    ensures { IfSome result (λ place.
        let id = table_of words.entry.now in let count = number + 1 in
        IsFresh id terms.entry.now (Some number) count place
        × IsFresh id terms.entry.now None count first.new) }
{
    let mut place = words.split_pass::<Copies>(first);
    let opening = Row::opening();
    let front = spelled(0, number, &opening, terms);
    let next = spelled(0, number + 1, &opening, terms);
    let Ok(_) = words.compare_exchange_as::<Enrolling, R>(rt, &mut place, &front, &next) else {
        return None;
    };
    take_in(rt, words, first, &mut place);
    Some(place)
}

// Each token learns that all eight numbers are given, and becomes a pass.
fn passes_of<R: Wait>(
    rt: &R,
    alloc: Global,
    words: &Strip,
    terms: &[u64; 24],
    first: &mut Place,
    places: Vec<Place>,
) -> Result<Vec<Pass>, NoMemory>
    requires count { length places.items ≡ 8 }
    requires wide { length terms.now ≡ 24 }
    requires numbered { AreFresh (table_of words.now) terms.now places.items }
    requires first { IsFresh (table_of words.now) terms.now None 8 first.old }
    ensures first { IsFresh (table_of words.entry.now) terms.entry.now None 8 first.new }
    ensures passes { IfOk result (λ passes. (length passes.items ≡ 8)
        × AreNew (table_of words.entry.now) terms.entry.now passes.items) }
{
    let mut passes = Vec::new(alloc);
    let mut number = 0u8;
    for place in places {
        let mut place = place;
        take_in(rt, words, &mut place, first);
        passes.push(pass_of(words, terms, place, Some(number)))?;
        number += 1;
    }
    Ok(passes)
}

// The token learns what the other knows.
fn take_in<R: Wait>(rt: &R, words: &Strip, place: &mut Place, other: &mut Place)
    requires own { place.old.table_id ≡ table_of words.now }
    requires other { other.old.table_id ≡ table_of words.now }
    ensures name { place.new.table_id ≡ place.old.table_id }
    ensures view { cell_view place.new
        ≡ settled (joined (cell_view place.old) (copied (cell_view other.old))) }
    ensures other { (other.new.table_id ≡ other.old.table_id)
        × (cell_view other.new ≡ cell_view other.old) }
{
    let told = words.split_pass::<Copies>(other);
    join_places(rt, words, place, told);
}

// A token that knows all numbers is a pass.
fn pass_of(words: &Strip, terms: &[u64; 24], place: Place, author: Option<u8>) -> Pass
    requires wide { length terms.now ≡ 24 }
    requires fresh { IsFresh (table_of words.now) terms.now author 8 place }
    requires number { (t : ℕ) → author ≡ Some t → t < 8 }
    ensures { result ≡ new_known (table_of words.entry.now) terms.entry.now author }
{
    Pass {
        place,
        version: 0,
        row: Row::opening(),
        author,
        made: 0,
    }
}

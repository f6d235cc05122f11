//! Laws of journals and of links, each the contract of a function that does nothing.
ghost use Rattle.std.specs.Prelude.{◌++◌, ◌+◌, ℕ, List, Contains};
ghost use Rattle.std.specs.List.{All};
ghost use Rattle.ua_base.specs.Journal.{Entry, IsHonest, sent_list, received_list};
ghost use Rattle.ua_base.specs.Links.{KeepsLink};

use crate::Link;

/// Of an honest journal each received datagram is one that was sent.
pub fn what_was_received_was_sent()
    ensures { (journal : List Entry) → IsHonest journal
        → All (Contains (sent_list journal)) (received_list journal) }
{}

/// A journal that is honest was so at each earlier moment.
pub fn an_honest_journal_begins_honestly()
    ensures { (front rest : List Entry) → IsHonest (front ++ rest) → IsHonest front }
{}

/// What each of two calls in a row keeps of a link, both keep.
pub fn calls_in_a_row_keep_a_link<L: Link>()
    ensures { (first next last : L) (one other : ℕ)
        → KeepsLink L.told L.patience L.opened_with L.faults L.made L.openings one first next
        → KeepsLink L.told L.patience L.opened_with L.faults L.made L.openings other next last
        → KeepsLink L.told L.patience L.opened_with L.faults L.made L.openings
        (one + other) first last }
{}

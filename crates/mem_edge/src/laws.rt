//! Laws of the outside in memory, each the contract of a function that does nothing.
ghost use Rattle.std.specs.Prelude.{◌≡◌, ◌∷◌, ℕ, List, Some, [], Contains};
ghost use Rattle.std.specs.List.{All};
ghost use Rattle.ua_base.specs.Journal.{LinkState, Sent, IsHonest};
ghost use Rattle.ua_base.specs.Links.{Opening};
ghost use Rattle.mem_edge.specs.declared.memory_link.MemoryLink.{MemoryLink as LinkValue};
ghost use Rattle.mem_edge.specs.MemoryLinks.{told_by, opened_by, made_by, fates_of, injected_by, receives_made};
ghost use Rattle.mem_edge.specs.Runs.{AnswersAll, settings_of};
ghost use Rattle.mem_edge.specs.Standings.{Call, Settings, IsFated, IsDelivered, obeying, queued_in, state_after, three_sent};

use ua_base::Fate;

/// A link in memory without injected datagrams delivers only what was sent, whatever its fates: each datagram that it
/// tells as received was sent before, and so was each that waits.
pub fn a_memory_link_is_honest()
    ensures received { (link : LinkValue) (state : LinkState)
        → injected_by link ≡ [] → told_by link ≡ Some state → IsHonest state.journal }
    ensures waiting { (link : LinkValue) (state : LinkState)
        → injected_by link ≡ [] → told_by link ≡ Some state
        → All (λ datagram. Contains state.journal (Sent datagram)) state.waiting }
{}

/// The fates by which a link in memory queues are those that it was opened with.
pub fn fates_are_those_of_the_opening()
    ensures { (link : LinkValue) (opening : Opening) → opened_by link ≡ Some opening
        → fates_of link ≡ opening.fates }
{}

/// What a link in memory tells is the fated journal of its own sends, for what it was made to do and the fates that it was opened
/// with: as long as it tells, it tells what the calls of its journal give. So what a session over it receives is what the
/// definitions say of what it sent.
pub fn a_memory_link_tells_its_fated_journal()
    ensures { (link : LinkValue) (state : LinkState) (opening : Opening)
        → told_by link ≡ Some state → opened_by link ≡ Some opening
        → IsFated (record { making = made_by link; fates = opening.fates }) state }
{}

/// In a fated journal what was taken and what waits, together and in order, is what its sends queue: each copy, what waited for
/// it, and what is injected behind it.
pub fn a_fated_journal_delivers_what_its_sends_queue()
    ensures { (settings : Settings) (state : LinkState)
        → IsFated settings state → IsDelivered settings state }
{}

/// What the fates of three datagrams make of them: a dropped one never comes, a repeated one so often, a held one behind the one
/// that it waits for, and one that comes again then once more.
pub fn fates_make_of_three_datagrams()
    ensures none { (a b c : List ℕ)
        → queued_in (obeying []) (three_sent a b c) ≡ a ∷ b ∷ c ∷ [] }
    ensures drop { (a b c : List ℕ)
        → queued_in (obeying ((1, Fate.Drop) ∷ [])) (three_sent a b c) ≡ a ∷ c ∷ [] }
    ensures repeat { (a b c : List ℕ)
        → queued_in (obeying ((1, Fate.Repeat 2) ∷ [])) (three_sent a b c) ≡ a ∷ b ∷ b ∷ c ∷ [] }
    ensures hold { (a b c : List ℕ)
        → queued_in (obeying ((0, Fate.Hold 2) ∷ [])) (three_sent a b c) ≡ b ∷ c ∷ a ∷ [] }
    ensures again { (a b c : List ℕ)
        → queued_in (obeying ((0, Fate.Again 1) ∷ [])) (three_sent a b c) ≡ a ∷ b ∷ a ∷ c ∷ [] }
{}

/// What a link in memory tells is determined by the calls since its opening, its fates, its failing calls and its
/// injected datagrams. A send that finds no memory is a call too, and leaves all as it was.
pub fn a_journal_is_determined_by_its_calls()
    ensures { (calls : List Call) (first last : LinkValue) (state : LinkState)
        → told_by first ≡ Some (record { journal = []; waiting = [] }) → receives_made first ≡ 0
        → AnswersAll calls first last → told_by last ≡ Some state
        → state ≡ state_after (settings_of first) calls }
{}

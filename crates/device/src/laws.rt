//! Laws of publishers, each the contract of a function that does nothing.
ghost use Rattle.std.specs.Prelude.{ℕ, List, ◌<◌, length};
ghost use Rattle.device.specs.declared.publisher.Publisher.{Publisher};
ghost use Rattle.device.specs.Calls.{AreCalled, Call, FallBackNever, GiveOthers, GivesEach, IsStore, RestoredGiveOthers, SavesNoLower};
ghost use Rattle.device.specs.Storing.{HasSaved, none_stored};

/// Over any list of calls of a publisher no sender of a key group falls back: its token is never lower, and under the same token
/// neither is the number that was used last. So the numbers of a turn, which are those that follow it (`HasNumbered`), are given
/// nowhere else under their token.
pub fn no_sender_falls_back()
    ensures { (calls : List Call) (old new : Publisher)
        → AreCalled calls old new → FallBackNever old.senders.items new.senders.items }
{}

/// So no call of a publisher gives a datagram of a key group a token and a number that a call before gave one, whatever was called in
/// between.
pub fn a_token_and_number_is_given_once()
    ensures { (keygroup : ℕ) (first : Call) (calls : List Call) (last : Call)
        → GiveOthers keygroup first calls last }
{}

/// And each datagram of a secured group's turn is given one: the first that which follows the last number used under the token in use,
/// and each other the next. So `Gives` leaves none out.
pub fn each_datagram_of_a_turn_is_given_its_number()
    ensures { (keygroup now : ℕ) (old new : Publisher) → GivesEach keygroup now old new }
{}

/// What a publisher saves has no lower token and number than what is in store, and none lower than those that were used. So the store may
/// have either, whenever a program stops between the two.
pub fn what_is_saved_may_be_in_store()
    ensures opening { IsStore none_stored }
    ensures kept { (calls : List Call) (old new : Publisher)
        → AreCalled calls old new → IsStore old.store → IsStore new.store }
    ensures saved { (ahead : ℕ) (old new : Publisher) (bytes : List ℕ)
        (saved : HasSaved ahead old new bytes) (keygroup : ℕ)
        → keygroup < length old.senders.items → SavesNoLower keygroup old saved.state.words }
{}

/// A life that begins with `restore` of what the life before saved gives no datagram of a key group a token and a number that a datagram
/// of that life had which `may_hand_over` let go: whatever was called in each of them, and wherever the first one stopped.
pub fn a_restored_life_gives_no_number_again()
    ensures { (keygroup : ℕ) (first : Call) (calls others : List Call) (last : Call)
        → RestoredGiveOthers keygroup first calls others last }
{}

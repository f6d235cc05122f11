//! What the definitions owe the reader, each law the contract of a function that does nothing.
ghost use Rattle.std.specs.Prelude.{◌≡◌, ℕ, List, true};
ghost use Rattle.group_keys.specs.declared.key_set.KeySet.{KeySet};
ghost use Rattle.message_guard.specs.declared.guard.Guard.{Guard};
ghost use Rattle.message_guard.specs.Guards.{setup_of};
ghost use Rattle.ps_config.specs.declared.parts.Config.{Config};
ghost use Rattle.cmd_keys.specs.declared.words.Asked.{Asked};
ghost use Rattle.cmd_keys.specs.Ends.{TellsAnswer, TellsExchange};
ghost use Rattle.cmd_keys.specs.Opening.{CanOpen, FindsZeros, IsProtected};

/// No configuration has two texts for what is asked: the keys, or one refusal.
pub fn a_configuration_has_one_text()
    ensures { (config : Config) (asked : Asked) (one other : List ℕ)
        → TellsAnswer config asked one → TellsAnswer config asked other → one ≡ other }
{}

/// Each key that is tried opens: where the text tells what passed between the service and the puller, it tells what is answered,
/// and of each key of an answer to START 0 that it opens.
pub fn each_key_that_is_tried_opens()
    ensures { (config : Config) (asked : Asked) (text : List ℕ)
        → TellsExchange config asked text → TellsAnswer config asked text }
{}

/// A guard with the keys of a set, which accepted nothing, decrypts, and has first block 1, finds the four zero bytes in each
/// datagram of them that was protected under the set.
pub fn what_is_protected_is_found()
    ensures { (guard : Guard) (set : KeySet) (datagram : List ℕ) → CanOpen guard set
        → IsProtected set datagram → FindsZeros (setup_of guard) datagram true }
{}

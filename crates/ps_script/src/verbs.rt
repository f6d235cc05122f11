//! What lines begin with, and the words for what happens to a datagram.
ghost use Rattle.std.specs.Prelude.{◌≡◌};

use crate::texts::word;

/// What a line does.
#[derive(Clone, Copy, Debug, PartialEq, Eq)]
pub(crate) enum Verb {
    Write,
    Tick,
    Enable,
    Disable,
    Append,
    Fate,
    Watch,
}

/// What happens to a datagram.
#[derive(Clone, Copy, Debug, PartialEq, Eq)]
pub(crate) enum FateWord {
    Drop,
    Repeat,
    Hold,
    Again,
}

impl Verb {
    ghost use Rattle.ps_script.specs.Verbs.{verb_of, verb_named};

    /// What a line does; nothing where its first word says nothing.
    #[tactic(auto, unfolding(crate::specs::Verbs::verb_of))]
    pub(crate) fn of(line: &[u8]) -> Option<Verb>
        ensures { result ≡ verb_of line.now }
    {
        Verb::named(word(line, 0))
    }

    pub(crate) fn named(first: &[u8]) -> Option<Verb>
        ensures { result ≡ verb_named first.now }
    {
        if first == b"write".as_slice() {
            return Some(Verb::Write);
        }
        if first == b"tick".as_slice() {
            return Some(Verb::Tick);
        }
        if first == b"enable".as_slice() {
            return Some(Verb::Enable);
        }
        if first == b"disable".as_slice() {
            return Some(Verb::Disable);
        }
        if first == b"append".as_slice() {
            return Some(Verb::Append);
        }
        if first == b"fate".as_slice() {
            return Some(Verb::Fate);
        }
        if first == b"watch".as_slice() {
            return Some(Verb::Watch);
        }
        None
    }
}

impl FateWord {
    ghost use Rattle.ps_script.specs.Verbs.{fate_of, fate_named};

    /// What the third word of a line says of a datagram.
    #[tactic(auto, unfolding(crate::specs::Verbs::fate_of))]
    pub(crate) fn of(line: &[u8]) -> Option<FateWord>
        ensures { result ≡ fate_of line.now }
    {
        FateWord::named(word(line, 2))
    }

    fn named(third: &[u8]) -> Option<FateWord>
        ensures { result ≡ fate_named third.now }
    {
        if third == b"drop".as_slice() {
            return Some(FateWord::Drop);
        }
        if third == b"repeat".as_slice() {
            return Some(FateWord::Repeat);
        }
        if third == b"hold".as_slice() {
            return Some(FateWord::Hold);
        }
        if third == b"again".as_slice() {
            return Some(FateWord::Again);
        }
        None
    }
}

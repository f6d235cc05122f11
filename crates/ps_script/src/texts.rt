//! Lines and the words of a line, in place: words are found where they stand, and none is copied.
ghost use Rattle.std.specs.Prelude.{◌≡◌, ◌==◌, position, ◌<◌, ◌≤◌, ◌∷◌, [], length, drop, MatchOption, IfSome};
ghost use Rattle.ps_script.specs.Texts.{until, behind, words_of, word};

/// The bytes up to the first such byte, and those after it. Where there is none: all, and none.
#[tactic(auto, using(crate::proofs::Pieces::until_some, crate::proofs::Pieces::behind_some, crate::proofs::Pieces::place_some, crate::proofs::Pieces::until_none, crate::proofs::Pieces::behind_none))]
pub(crate) fn cut(bytes: &[u8], mark: u8) -> (&[u8], &[u8])
    ensures front { result.0.now ≡ until mark bytes.now }
    ensures rest { result.1.now ≡ behind mark bytes.now }
    ensures shorter { 0 < length bytes.now → length result.1.now < length bytes.now }
{
    match place_of(bytes, mark) {
        Some(index) => (&bytes[..index], &bytes[index + 1..]),
        None => (bytes, &[]),
    }
}

fn place_of(bytes: &[u8], mark: u8) -> Option<usize>
    ensures { result ≡ position (λ byte. byte == mark) bytes.now }
{
    bytes.iter().position(|byte| *byte == mark)
}

/// The first word of a line, and what stands after it.
#[tactic(auto, using(crate::proofs::Pieces::word_first, crate::proofs::Pieces::word_later, crate::proofs::Pieces::words_none))]
pub(crate) fn first_word(line: &[u8]) -> Option<(&[u8], &[u8])>
    ensures words { MatchOption result (words_of line.now ≡ [])
        (λ found. words_of line.now ≡ found.0.now ∷ words_of found.1.now) }
    ensures shorter { IfSome result (λ found. length found.1.now < length line.now) }
{
    let mut rest = line;
    'words: while !rest.is_empty() {
        let (word, behind) = cut(rest, b' ');
        if !word.is_empty() {
            return Some((word, behind));
        }
        rest = behind;
    }
    None
}

/// What stands after so many words.
#[tactic(auto, using(crate::proofs::Pieces::drop_first, crate::proofs::Pieces::drop_nothing))]
pub(crate) fn behind_words(line: &[u8], count: usize) -> &[u8]
    ensures words { words_of result.now ≡ drop count (words_of line.now) }
    ensures bound { length result.now ≤ length line.now }
{
    let mut rest = line;
    let mut left = count;
    'words: while 0 < left {
        let Some((_, behind)) = first_word(rest) else {
            return rest;
        };
        rest = behind;
        left -= 1;
    }
    rest
}

/// The word at this index, from 0; nothing after the last.
pub(crate) fn word(line: &[u8], index: usize) -> &[u8]
    ensures { result.now ≡ word index line.now }
{
    match first_word(behind_words(line, index)) {
        Some((word, _)) => word,
        None => &[],
    }
}

/// How many words a line has.
pub(crate) fn count_words(line: &[u8]) -> usize
    ensures { result ≡ length (words_of line.now) }
{
    let mut count = 0;
    let mut rest = line;
    'words: while let Some((_, behind)) = first_word(rest) {
        count += 1;
        rest = behind;
    }
    count
}

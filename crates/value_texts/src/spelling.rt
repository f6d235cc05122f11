//! Texts as they are spelled: a byte stands as itself or as `%` and two upper-case digits.
ghost use Rattle.std.specs.Prelude.{◌≡◌, ◌≢◌, ◌≤◌, ◌<◌, ◌+◌, ◌++◌, ℕ, true, List, length, IfSome, MatchOption, Some};
ghost use Rattle.std.specs.Fmt.{digit_glyph};
ghost use Rattle.ua_values.specs.Texts.{IsText};
ghost use Rattle.value_texts.specs.Texts.{is_plain, digits_of, byte_text};
ghost use Rattle.value_texts.specs.Spelling.{BeginsWith, Spells};

use arrayvec::ArrayVec;
use ua_values::Text;

/// The text that the word spells.
pub fn text_spelled(word: &[u8]) -> Option<Text>
    ensures found { IfSome result (Spells word.now) }
    ensures valid { IfSome result IsText }
    ensures every { (text : List ℕ) → IsText text → Spells word.now text → result ≡ Some text }
{
    let mut bytes = ArrayVec::<u8, 256>::new();
    let mut rest = word;
    'bytes: while !rest.is_empty() {
        let (byte, behind) = first_byte(rest)?;
        if bytes.is_full() {
            return None;
        }
        bytes.push(byte);
        rest = behind;
    }
    Text::from_bytes(bytes.as_slice()).ok()
}

/// The byte that the word begins with, and what follows it.
fn first_byte(word: &[u8]) -> Option<(u8, &[u8])>
    ensures { MatchOption result
        ((byte : ℕ) (rest : List ℕ) → ¬ BeginsWith word.now byte rest)
        (λ found. BeginsWith word.now found.0 found.1.now) }
{
    let (first, rest) = word.split_first()?;
    if *first == b'%' {
        return escaped_byte(rest);
    }
    if is_plain(*first) {
        Some((*first, rest))
    } else {
        None
    }
}

/// The byte that the two digits behind a `%` stand for, and what follows them.
fn escaped_byte(digits: &[u8]) -> Option<(u8, &[u8])>
    ensures { MatchOption result
        ((byte : ℕ) (rest : List ℕ) → byte < 256 → digits.now ≢ digits_of byte ++ rest)
        (λ found. digits.now ≡ digits_of found.0 ++ found.1.now) }
{
    let (high, behind) = digits.split_first()?;
    let (low, rest) = behind.split_first()?;
    let high = upper_value(*high)?;
    let low = upper_value(*low)?;
    Some((high * 16 + low, rest))
}

/// What an upper-case digit stands for.
fn upper_value(glyph: u8) -> Option<u8>
    ensures { MatchOption result
        ((digit : ℕ) → digit < 16 → glyph ≢ digit_glyph true digit)
        (λ digit. (digit < 16) × (glyph ≡ digit_glyph true digit)) }
{
    match glyph {
        b'0'..=b'9' => Some(glyph - b'0'),
        b'A'..=b'F' => Some(glyph - b'A' + 10),
        _ => None,
    }
}

/// Appends a byte as it is printed.
pub fn push_escaped(text: &mut ArrayVec<u8, 768>, byte: u8)
    requires { length text.old.items + 3 ≤ 768 }
    ensures { text.new.items ≡ text.old.items ++ byte_text byte }
{
    if is_plain(byte) {
        text.push(byte);
    } else {
        text.push(b'%');
        text.push(upper_digit(byte / 16));
        text.push(upper_digit(byte % 16));
    }
}

fn upper_digit(digit: u8) -> u8
    requires { digit < 16 }
    ensures { result ≡ digit_glyph true digit }
{
    if digit < 10 {
        b'0' + digit
    } else {
        b'A' + digit - 10
    }
}

fn is_plain(byte: u8) -> bool
    ensures { result ≡ is_plain byte }
{
    33 <= byte && (byte <= 126 && byte != b'%')
}

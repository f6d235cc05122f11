//! The words of the command line.
ghost use Rattle.std.specs.Prelude.{◌≡◌};
ghost use Rattle.cmd_base.specs.Words.{is_file_name};

use std::marker::Model;

/// A word of the command line, seen as its bytes.
#[derive(Drop)]
pub struct Word {
    text: String,
}

impl Model for Word {
    ghost use Rattle.std.specs.Prelude.{List, ℕ, string_bytes};

    ghost Value = { List ℕ };

    ghost view = { λ w. string_bytes w.text };
}

impl Word {
    ghost use Rattle.std.specs.Prelude.{string_bytes};

    pub fn new(text: String) -> Word
        ensures { result ≡ string_bytes text }
    {
        Word { text }
    }

    pub fn as_str(&self) -> &str
        ensures { result.now ≡ self.now }
    {
        self.text.as_str()
    }
}

/// Whether a word may name a file: 1 to 255 bytes, the first of which is no dash.
pub fn names_file(word: &[u8]) -> bool
    ensures { result ≡ is_file_name word.now }
{
    1 <= word.len() && word.len() <= 255 && word[0] != b'-'
}

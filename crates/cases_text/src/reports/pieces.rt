//! The pieces of a line.
use case_lines::{CaseLine, Line, LineFault};

/// What is left of a line of pieces. ` ; ` stands before each, and each begins with a word that tells what it is of.
#[derive(Drop)]
pub struct Pieces<'a> {
    /// What is left of the piece that was begun last.
    pub line: CaseLine<'a>,
    rest: &'a str,
}

impl<'a> Pieces<'a> {
    pub fn new(text: &'a str) -> Pieces<'a> {
        Pieces {
            line: CaseLine::new(""),
            rest: text.strip_prefix("; ").unwrap_or(""),
        }
    }

    /// Begins the next piece, which is of this word.
    pub fn begin(&mut self, word: &str) {
        if !self.has_begun(word) {
            self.line.fail(LineFault::Missing);
        }
    }

    /// Begins the next piece, where it is of this word.
    pub fn has_begun(&mut self, word: &str) -> bool {
        let (piece, rest) = match self.rest.split_once(" ; ") {
            Some(halves) => halves,
            None => (self.rest, ""),
        };
        let mut left = Line::new(piece);
        if left.optional().unwrap_or("") != word {
            return false;
        }
        self.line.left = left;
        self.rest = rest;
        true
    }
}

//! Where a fault stands, as it is told.
ghost use Rattle.std.specs.Prelude.{◌≡◌, ◌+◌, ◌++◌, ◌≤◌, length};
ghost use Rattle.config_tables.specs.Paths.{path_text, element_text};
ghost use Rattle.arrayvec.specs.ArrayString.{array_string_len};

use crate::place::Place;
use arrayvec::ArrayString;
use itoa::Buffer;
use std::fmt::{self, Display, Formatter, Write};
use std::marker::Model;

/// Where a table stands, as in `dataset[2].field[3]`. It takes no memory of its own.
#[derive(Debug, Drop)]
pub struct Path {
    text: ArrayString<64>,
}

impl Model for Path {
    ghost use Rattle.std.specs.Prelude.{List, ℕ};

    ghost Value = { List ℕ };

    ghost view = { λ p. p.text.bytes };
}

impl Path {
    pub fn of(place: Place) -> Path
        ensures { result ≡ path_text place }
    {
        let mut text = ArrayString::new();
        match place {
            Place::Root => text.push_str("."),
            Place::Publisher => text.push_str("publisher"),
            Place::Outer(part, index) => push_element(&mut text, part.outer_key(), index),
            Place::Inner(part, outer, inner) => {
                push_element(&mut text, part.outer_key(), outer);
                text.push_str(".");
                push_element(&mut text, part.inner_key(), inner);
            }
        }
        Path { text }
    }

    pub fn as_str(&self) -> &str
        ensures { result.now ≡ self.now }
    {
        self.text.as_str()
    }

    pub fn as_bytes(&self) -> &[u8]
        ensures { result.now ≡ self.now }
    {
        self.text.as_str().as_bytes()
    }
}

impl Display for Path {
    ghost use Rattle.std.specs.Prelude.{Some};

    ghost output = { λ path. Some path };

    fn fmt<W: Write>(&self, f: &mut Formatter<W>) -> fmt::Result {
        f.write_str(self.as_str())
    }
}

fn push_element(text: &mut ArrayString<64>, key: &str, index: usize)
    requires { array_string_len text.old + length key.now + 22 ≤ 64 }
    ensures bytes { text.new.bytes ≡ text.old.bytes ++ element_text key.now index }
    ensures len { array_string_len text.new ≤ array_string_len text.old + length key.now + 22 }
{
    let mut digits = Buffer::new();
    text.push_str(key);
    text.push_str("[");
    text.push_str(digits.format(index));
    text.push_str("]");
}

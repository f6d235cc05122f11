//! Laws of the texts, each the contract of a function that does nothing.
ghost use Rattle.std.specs.Prelude.{◌≡◌, ◌<◌, ◌^◌, ℕ, List};
ghost use Rattle.std.specs.Fmt.{decimal};
ghost use Rattle.std.specs.Str.{IsAscii};
ghost use Rattle.ua_values.specs.declared.value.Value.{Value};
ghost use Rattle.ua_values.specs.Values.{kind_of, IsValue};
ghost use Rattle.value_texts.specs.Texts.{hex_text_32, value_text_of};
ghost use Rattle.value_texts.specs.Spelling.{IsTextOf};

/// What is printed of a value is a text of it.
pub fn what_is_printed_is_a_text()
    ensures { (value : Value) → IsValue value → IsTextOf (value_text_of value) value }
{}

/// A word is a text of at most one value of a kind; so values of one kind with one text are equal.
pub fn a_word_is_a_text_of_one_value()
    ensures { (word : List ℕ) (one other : Value) → IsValue one → IsValue other
        → kind_of one ≡ kind_of other → IsTextOf word one → IsTextOf word other → one ≡ other }
{}

/// Every text is ASCII: each that a value has, so each that is printed of one, a StatusCode's and a
/// decimal number's. A String's bytes that aren't printable ASCII are escaped.
pub fn texts_are_ascii()
    ensures values { (word : List ℕ) (value : Value) → IsValue value → IsTextOf word value
        → IsAscii word }
    ensures printed { (value : Value) → IsValue value → IsAscii (value_text_of value) }
    ensures statuses { (status : ℕ) → IsAscii (hex_text_32 status) }
    ensures numbers { (n : ℕ) → n < 2 ^ 64 → IsAscii (decimal n) }
{}

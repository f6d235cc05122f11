//! What words name.

/// What a word names in a table.
pub fn named<T: Copy>(table: &[(&str, T)], word: &str) -> Option<T> {
    for (name, it) in table {
        if *name == word {
            return Some(*it);
        }
    }
    None
}

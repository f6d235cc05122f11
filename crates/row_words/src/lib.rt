//! Rows and patches of a data set in 125 words of 64 bits, and the shape that says which words are rows of a meta.
#![tactic(auto)]

mod copying;
mod digits;
mod laws;
mod meta_shape;
mod patch;
mod reading;
mod row;
mod scalar;
mod statuses;
mod writing;

pub use laws::{
    cut_rows_have_words, equal_patches_have_one_meaning, equal_words_are_equal_rows,
    patched_words_belong, patches_have_words, rows_have_words, shapes_have_one_meaning,
    values_and_statuses_stand_apart, words_belong_by_shape,
};
pub use meta_shape::shape;
pub use patch::Patch;
pub use row::Row;
pub use scalar::is_scalar;

//! Variants and DataValues as bytes, and the numbers that they are made of.
#![tactic(auto)]

mod cursor;
mod data_value;
mod fault;
mod laws;
mod pen;
mod reading;
mod types;
mod writing;

pub use cursor::{Cursor, Short};
pub use data_value::{Measured, read_data_value, write_data_value};
pub use fault::ValueFault;
pub use laws::{
    bytes_are_of_one_data_value, bytes_are_of_one_variant, data_values_are_read_as_spelled,
    data_values_are_refused_at_their_first_fault, fewer_bytes_are_short,
    read_data_values_are_values, read_variants_are_values, variants_are_read_as_spelled,
    variants_are_refused_at_their_first_fault, written_data_values_are_read,
    written_variants_are_read,
};
pub use pen::{Pen, Room};
pub use reading::read_variant;
pub use types::number_of;
pub use writing::{put_variant, variant_len, write_variant};

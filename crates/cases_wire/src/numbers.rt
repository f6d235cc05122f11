//! Rows of `seq_number`.
use case_lines::{Answer, CaseLine, yes_or_no};
use seq_number::newer;
use std::alloc::Global;

/// `newer NUMBER LAST`: yes or no
pub fn is_newer(alloc: Global, line: &mut CaseLine) -> Answer {
    let (number, last) = (line.u16(), line.u16());
    yes_or_no(alloc, newer(number, last))
}

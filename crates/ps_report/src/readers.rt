//! Readers by their index.
ghost use Rattle.std.specs.Prelude.{◌≡◌, ◌<◌, Some, length, slice_get};
ghost use Rattle.ps_report.specs.Conditions.{readers_of};

use ps_config::{ReadGroupPart, ReaderPart};

/// The reader at an index that counts over all read groups.
pub fn reader_at(groups: &[ReadGroupPart], index: usize) -> &ReaderPart
    requires { index < length (readers_of groups.now) }
    ensures { slice_get (readers_of groups.now) index ≡ Some result.now }
{
    let mut left = index;
    for group in groups {
        let readers = group.reader.as_slice();
        if left < readers.len() {
            return &readers[left];
        }
        left -= readers.len();
    }
    unreachable!()
}

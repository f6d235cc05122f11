//! Pieces of lines, each appended to what was written before.
ghost use Rattle.std.specs.Prelude.{◌≡◌, ◌++◌, OnOk};
ghost use Rattle.json_text.specs.Texts.{count_line, number_text};

use ps_report::{put, put_feed, put_named, put_number_or_dash};
use ua_base::NoMemory;

/// The number of the message that a row was last made of.
pub(crate) fn put_number(out: &mut Vec<u8>, number: Option<u16>) -> Result<(), NoMemory>
    ensures { OnOk result (out.new.items ≡ out.old.items ++ number_text number) }
{
    put(out, b" number ")?;
    put_number_or_dash(out, number.map(u64::from))?;
    put(out, b":")
}

/// How many lines there are, and how many datagrams without one.
#[tactic(auto, unfolding(crate::specs::Texts::count_line))]
pub(crate) fn put_count(out: &mut Vec<u8>, lines: u64, skipped: u64) -> Result<(), NoMemory>
    ensures { OnOk result (out.new.items ≡ out.old.items ++ count_line lines skipped) }
{
    put_named(out, b"json lines ", lines)?;
    put_named(out, b" skipped ", skipped)?;
    put_feed(out)
}

//! Why a read group refused datagrams.
ghost use Rattle.std.specs.Prelude.{◌≡◌, ◌<◌, ◌++◌, OnOk, Some, slice_get};
ghost use Rattle.ps_report.specs.Words.{cause_words};
ghost use Rattle.ps_report.specs.Lines.{cause_text, causes_text};

use crate::pieces::{put, put_named};
use ua_base::NoMemory;

/// Each cause with a count above 0, and a space before it.
pub fn put_causes(out: &mut Vec<u8>, counts: &[u64; 20]) -> Result<(), NoMemory>
    ensures { OnOk result (out.new.items ≡ out.old.items ++ causes_text counts.now) }
{
    for i in 0..20 {
        let word = cause_word(i);
        put_cause(out, word, counts[i])?;
    }
    Ok(())
}

#[tactic(auto, unfolding(crate::specs::Lines::cause_text))]
fn put_cause(out: &mut Vec<u8>, word: &str, count: u64) -> Result<(), NoMemory>
    ensures { OnOk result (out.new.items ≡ out.old.items ++ cause_text word.now count) }
{
    if count == 0 {
        return Ok(());
    }
    put(out, b" ")?;
    put(out, word.as_bytes())?;
    put_named(out, b"=", count)
}

/// The cause at this place of a report.
#[tactic(auto, unfolding(crate::specs::Words::cause_words))]
fn cause_word(place: usize) -> &'static str
    requires { place < 20 }
    ensures { slice_get cause_words place ≡ Some result.now }
{
    match place {
        0 => "Short",
        1 => "Version",
        2 => "DiscoveryOut",
        3 => "BadPublisherType",
        4 => "ReservedBits",
        5 => "BadId",
        6 => "NotOurs",
        7 => "ModeDiffers",
        8 => "FooterOut",
        9 => "KeyResetOut",
        10 => "BadNonceLength",
        11 => "GuardShort",
        12 => "UnknownToken",
        13 => "OldToken",
        14 => "BadSignature",
        15 => "Repeated",
        16 => "TooOld",
        17 => "NoIds",
        18 => "BadSizes",
        _ => "BadFrame",
    }
}

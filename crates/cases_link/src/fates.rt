//! Whether a link may be opened with some fates.
ghost use Rattle.std.specs.Prelude.{◌≡◌, ◌==◌};
ghost use Rattle.std.specs.Bool.{OnTrue};
ghost use Rattle.std.specs.List.{list_any};
ghost use Rattle.ua_base.specs.Fates.{AreFates, IsFate};

use ua_base::Fate;

/// Whether a datagram may have this fate.
fn is_fate(number: u64, fate: Fate) -> bool
    ensures { OnTrue result (IsFate number fate) }
{
    match fate {
        Fate::Drop => true,
        Fate::Repeat { times } => 2 <= times && times <= 8,
        Fate::Hold { after } => number < after,
        Fate::Again { after } => number < after,
    }
}

// Whether some fate is this datagram's.
fn names(fates: &[(u64, Fate)], number: u64) -> bool
    ensures { result ≡ list_any (λ other. other.0 == number) fates.now }
{
    fates.iter().any(|other| other.0 == number)
}

/// Whether each fate is in its range, and no datagram has two.
pub(crate) fn are_fates(fates: &[(u64, Fate)]) -> bool
    ensures { OnTrue result (AreFates fates.now) }
{
    match fates.split_first() {
        None => true,
        Some((first, rest)) => {
            if !is_fate(first.0, first.1) {
                return false;
            }
            if names(rest, first.0) {
                return false;
            }
            are_fates(rest)
        }
    }
}

//! Indexes that C gives. They are wider than those of a configuration, which are bytes, so that none is cut on its way.
ghost use Rattle.std.specs.Prelude.{◌≡◌, ◌⊎◌, IfNone, IfSome};
ghost use Rattle.uapubsub_c.specs.Answers.{IsLarge};

/// The index as a byte. None where it is past 255.
pub fn one_index(first: u32) -> Option<u8>
    ensures is { IfSome result (λ index. index ≡ first) }
    ensures large { IfNone result (IsLarge first) }
{
    match u8::try_from(first) {
        Ok(first) => Some(first),
        Err(_) => None,
    }
}

/// Both indexes as bytes. None where one is past 255.
pub fn two_indexes(first: u32, second: u32) -> Option<(u8, u8)>
    ensures are { IfSome result (λ indexes. indexes ≡ (first, second)) }
    ensures large { IfNone result (IsLarge first ⊎ IsLarge second) }
{
    let first = one_index(first)?;
    let second = one_index(second)?;
    Some((first, second))
}

/// The three indexes as bytes. None where one is past 255.
pub fn three_indexes(first: u32, second: u32, third: u32) -> Option<(u8, u8, u8)>
    ensures are { IfSome result (λ indexes. indexes ≡ (first, second, third)) }
    ensures large { IfNone result (IsLarge first ⊎ (IsLarge second ⊎ IsLarge third)) }
{
    let (first, second) = two_indexes(first, second)?;
    let third = one_index(third)?;
    Some((first, second, third))
}

//! Laws of message numbers, each the contract of a function that does nothing.
ghost use Rattle.std.specs.Prelude.{◌≡◌, ◌+◌, ◌-◌, ◌%◌, ◌<◌, ◌≤◌, ◌^◌, ◌∷◌, ◌++◌, ℕ, List, nat_lt};
ghost use Rattle.seq_number.specs.Numbers.{number_of_place, newer, greatest, IsNear, place_from};

/// Of two places, the first at most 16,384 above and at most 49,151 below the second, the first's number is newer exactly
/// where its place is greater.
pub fn near_places_are_newer()
    ensures { (place other : ℕ) → place ≤ other + 16384 → other < place + 49152
        → newer (number_of_place place) (number_of_place other) ≡ nat_lt other place }
{}

/// At each step of near places, latest first, the number is newer than that of the greatest place before it exactly where
/// the place is greater.
pub fn steps_are_newer()
    ensures { (later : List ℕ) (place last : ℕ) (before : List ℕ)
        → IsNear (later ++ place ∷ last ∷ before)
        → newer (number_of_place place) (number_of_place (greatest (last ∷ before)))
        ≡ nat_lt (greatest (last ∷ before)) place }
{}

/// The number of one of a writer's first 65,536 places gives the place back.
pub fn numbers_give_places()
    ensures { (first place : ℕ) → first ≤ place → place < first + 65536
        → place_from first (number_of_place place) ≡ place }
{}

/// The place that a number stands for has that number.
pub fn places_give_numbers()
    ensures { (first number : ℕ) → number < 2 ^ 16
        → number_of_place (place_from first number) ≡ number }
{}

/// The number one before the next place's is that of the place before.
pub fn silent_number_is_before()
    ensures { (next : ℕ) → 1 ≤ next → (number_of_place next + 65535) % 65536
        ≡ number_of_place (next - 1) }
{}

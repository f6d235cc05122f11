//! Laws of taken numbers, each the contract of a function that does nothing. Lists have the latest first.
ghost use Rattle.std.specs.Prelude.{◌≡◌, ◌+◌, ◌<◌, ◌≤◌, ◌↔◌, ◌==◌, ℕ, List};
ghost use Rattle.std.specs.List.{Contains, count_by};
ghost use Rattle.replay_window.specs.Taken.{greatest, seen, WereFresh};
ghost use Rattle.replay_window.specs.declared.seen.Seen.TheVariants.{Fresh};

/// A number that was taken is never fresh again.
pub fn taken_numbers_are_never_fresh_again()
    ensures { (taken : List ℕ) (number : ℕ) → Contains taken number
        → ¬ (seen taken number ≡ Fresh) }
{}

/// A number is fresh exactly where it wasn't taken and is less than 1,024 below the greatest that was.
pub fn fresh_numbers_are_new_and_recent()
    ensures { (taken : List ℕ) (number : ℕ) → (seen taken number ≡ Fresh)
        ↔ ((¬ (Contains taken number)) × (greatest taken < number + 1024)) }
{}

/// Where each number was fresh when it was taken, each was taken once.
pub fn fresh_numbers_are_taken_once()
    ensures { (taken : List ℕ) → WereFresh taken
        → (number : ℕ) → count_by (λ n. n == number) taken ≤ 1 }
{}

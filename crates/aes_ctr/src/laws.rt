// What the definitions owe the reader.
ghost use Rattle.std.specs.Prelude.{◌≡◌, ℕ, ◌<◌, ◌==◌, List};
ghost use Rattle.aes_ctr.specs.Field.{field_mul, inverse};
ghost use Rattle.aes_ctr.specs.Blocks.{streamed};

/// Each byte but 0 has one inverse, and no other byte's product with it is 1. That of 0 is 0 itself
/// (FIPS 197, 5.1.1).
#[tactic(auto, using(crate::proofs::AllBytes::inverse_of_zero, crate::proofs::AllBytes::inverse_small, crate::proofs::AllBytes::only_inverse))]
pub fn inverses()
    ensures only { (b c : ℕ) → 0 < b → b < 256 → c < 256 → (field_mul b c == 1) ≡ (c == inverse b) }
    ensures within { (b : ℕ) → b < 256 → inverse b < 256 }
    ensures zero { inverse 0 ≡ 0 }
{}

/// Adding the stream twice gives the bytes back.
#[tactic(auto, using(crate::proofs::Streaming::twice))]
pub fn stream_undoes_itself()
    ensures { (encrypt : List ℕ → List ℕ) (front : List ℕ) (first : ℕ) (bytes : List ℕ)
        → streamed encrypt front first (streamed encrypt front first bytes) ≡ bytes }
{}

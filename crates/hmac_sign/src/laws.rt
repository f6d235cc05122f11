ghost use Rattle.std.specs.Prelude.{◌≡◌, ℕ, List, length};
ghost use Rattle.hmac_sign.specs.Hmac.{hmac_sha256};

/// A signature has 32 bytes, whatever the key and the text.
#[tactic(auto, using(crate::proofs::Lengths::signature_length))]
pub fn a_signature_has_32_bytes()
    ensures { (key text : List ℕ) → length (hmac_sha256 key text) ≡ 32 }
{}

ghost use Rattle.std.specs.Prelude.{◌≡◌, ℕ, ◌<◌, ◌≤◌, ◌⊎◌, List, Some};
ghost use Rattle.group_keys.specs.KeySets.{Rises, current, with_token};
ghost use Rattle.group_keys.specs.declared.key_set.KeySet.{KeySet};

/// The set of a later moment is the same, or has a higher token.
#[tactic(auto, using(crate::proofs::Moments::later_token))]
pub fn tokens_rise_with_moments()
    ensures { (sets : List KeySet) (earlier now : ℕ) (a b : KeySet) → Rises sets → earlier ≤ now
        → current sets earlier ≡ Some a → current sets now ≡ Some b
        → (a ≡ b) ⊎ (a.token < b.token) }
{}

/// The set of a moment is found by its token.
#[tactic(auto, using(crate::proofs::Moments::found_by_token))]
pub fn a_set_is_found_by_its_token()
    ensures { (sets : List KeySet) (now : ℕ) (set : KeySet) → Rises sets
        → current sets now ≡ Some set → with_token sets set.token ≡ Some set }
{}

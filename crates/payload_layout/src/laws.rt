//! Laws of packs and payloads, each the contract of a function that does nothing. A frame is a list of bytes, and a part is a
//! frame with the id of its writer: the clauses `frames` are of the one, the clauses `parts` of the other.
ghost use Rattle.std.specs.Prelude.{◌≡◌, ◌<◌, ◌++◌, ◌∷◌, [], ℕ, List, length, map};
ghost use Rattle.std.specs.List.{All, flat_map};
ghost use Rattle.payload_layout.specs.Packing.{Packed, packs_of, pack_of, payload_size, IsSound, IsFull};
ghost use Rattle.payload_layout.specs.Payloads.{dynamic_payload, frames_of, parts_of, part_size, ids_in, frames_in, AreShort, HasBadSizes, BeginsWithPayload};
ghost use Rattle.ua_binary.specs.Wire.{AreBytes};

/// Each frame stands in one pack, with its id, and they stand in order.
pub fn packed_frames_are_the_frames()
    ensures frames { (room : ℕ) (frames : List (List ℕ))
        → flat_map (λ pack. pack.frames) (packs_of length room frames) ≡ frames }
    ensures parts { (room : ℕ) (parts : List (ℕ × List ℕ))
        → flat_map (λ pack. pack.frames) (packs_of part_size room parts) ≡ parts }
{}

/// Each pack has a frame, and fits with its sizes and further writer ids, or is one frame that doesn't fit and is cut.
pub fn packs_fit_or_are_cut()
    ensures frames { (room : ℕ) (frames : List (List ℕ))
        → All (IsSound length room) (packs_of length room frames) }
    ensures parts { (room : ℕ) (parts : List (ℕ × List ℕ))
        → All (IsSound part_size room) (packs_of part_size room parts) }
{}

/// A pack is followed by another only where it is cut, or the other's first frame doesn't fit in it too.
pub fn packs_are_filled()
    ensures frames { (room : ℕ) (frames : List (List ℕ)) (before : List (Packed (List ℕ)))
        (pack next : Packed (List ℕ)) (after : List (Packed (List ℕ)))
        → packs_of length room frames ≡ before ++ pack ∷ next ∷ after
        → IsFull length room pack next }
    ensures parts { (room : ℕ) (parts : List (ℕ × List ℕ)) (before : List (Packed (ℕ × List ℕ)))
        (pack next : Packed (ℕ × List ℕ)) (after : List (Packed (ℕ × List ℕ)))
        → packs_of part_size room parts ≡ before ++ pack ∷ next ∷ after
        → IsFull part_size room pack next }
{}

/// What is told of the packs hangs on the frames' sizes alone.
pub fn packs_are_told_by_sizes()
    ensures frames { (room : ℕ) (frames : List (List ℕ)) → map pack_of (packs_of length room frames)
        ≡ map pack_of (packs_of (λ size. size) room (map length frames)) }
    ensures parts { (room : ℕ) (parts : List (ℕ × List ℕ))
        → map pack_of (packs_of part_size room parts)
        ≡ map pack_of (packs_of (λ size. size) room (map part_size parts)) }
{}

/// A payload has as many bytes as packing counts for its sizes and frames.
pub fn payloads_are_as_long_as_counted()
    ensures frames { (frames : List (List ℕ))
        → payload_size length frames ≡ length (dynamic_payload frames) }
    ensures parts { (parts : List (ℕ × List ℕ))
        → payload_size part_size parts ≡ length (dynamic_payload (frames_in parts)) }
{}

/// The frames of a payload, each of fewer than 65,536 bytes where they are more than one, are split again, and its sizes are good;
/// what follows more than one frame is ignored.
pub fn payloads_are_split_again()
    ensures several { (frames : List (List ℕ)) (rest : List ℕ) → AreShort frames → 1 < length frames
        → frames_of (length frames) (dynamic_payload frames ++ rest) ≡ frames }
    ensures one { (frame : List ℕ) → frames_of 1 (dynamic_payload (frame ∷ [])) ≡ frame ∷ [] }
    ensures good { (frames : List (List ℕ)) (rest : List ℕ) → AreShort frames
        → ¬ HasBadSizes (length frames) (dynamic_payload frames ++ rest) }
{}

/// Frames of fewer than 65,536 bytes come back with the ids of their writers, one for one and in order, whether they are none, one
/// or more; what follows more than one frame is ignored.
pub fn frames_come_back_with_their_ids()
    ensures payload { (parts : List (ℕ × List ℕ)) → AreShort (frames_in parts)
        → parts_of (ids_in parts) (dynamic_payload (frames_in parts)) ≡ parts }
    ensures several { (parts : List (ℕ × List ℕ)) (rest : List ℕ) → AreShort (frames_in parts)
        → 1 < length parts
        → parts_of (ids_in parts) (dynamic_payload (frames_in parts) ++ rest) ≡ parts }
{}

/// A payload with good sizes for more than one frame is that of the frames that it is split into, and a rest.
pub fn split_payloads_are_laid_out()
    ensures { (count : ℕ) (payload : List ℕ) → AreBytes payload → 1 < count
        → ¬ HasBadSizes count payload → BeginsWithPayload payload (frames_of count payload) }
{}

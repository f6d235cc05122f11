//! Laws of chunks, each the contract of a function that does nothing. Lists have the latest first.
ghost use Rattle.std.specs.Prelude.{◌≡◌, ◌+◌, ◌≤◌, ◌++◌, false, ℕ, List, length};
ghost use Rattle.std.specs.List.{Contains};
ghost use Rattle.chunker.specs.Chunks.{Chunk, cuts, longest_message};
ghost use Rattle.chunker.specs.Joining.{Joining, chunk_case, is_laid};
ghost use Rattle.chunker.specs.Spelling.{CutCanBeWritten, IsChunk, chunk_at, chunk_bytes};
ghost use Rattle.chunker.specs.Joins.{numbered, NearChunkJoins, NearChunksJoin, CutComesOnce, CoverGivesBack, IsCutOf, IsWithinRoom};
ghost use Rattle.chunker.specs.declared.joiner.TheConstants.{MESSAGE_BYTES};
ghost use Rattle.chunker.specs.declared.payload.TheConstants.{CHUNK_FRONT_BYTES};

/// After chunks of near places, one more that is near makes its message whole exactly where they cover it then and didn't
/// before, and the message's bytes are those of the last chunk that has each. Chunks of an older place change nothing.
pub fn each_near_chunk_joins()
    ensures { (chunks : List Chunk) (chunk : Chunk) (kept : Joining)
        → NearChunkJoins chunks chunk kept }
{}

/// So it is over every list of chunks that came since the joiner was cleared, where the places of those that count are near.
pub fn near_chunks_join()
    ensures { (before : List Chunk) (chunk : Chunk) → NearChunksJoin before chunk }
{}

/// The constant that callers read, and the joiner's room, are the length of the longest message that is joined.
pub fn the_joiner_has_room_for_the_longest_message()
    ensures { MESSAGE_BYTES ≡ longest_message }
{}

/// A chunk whose bytes aren't laid in changes nothing.
pub fn refused_chunks_change_nothing()
    ensures { (kept : Joining) (chunk : Chunk)
        → is_laid (chunk_case kept chunk).1 ≡ false → (chunk_case kept chunk).0 ≡ kept }
{}

/// The chunks of a cut, in any order and with repeats, give the message once: one of a byte or more, and of no more than the longest
/// has, cut to rooms of a byte or more, for one who joins none of this number.
pub fn chunks_of_a_cut_give_the_message_once()
    ensures { (room place : ℕ) (message : List ℕ) (kept : Joining) (given : List Chunk)
        → CutComesOnce room place message kept given }
{}

/// Each chunk of a cut has the message's place and some of its bytes.
pub fn each_chunk_of_a_cut_is_of_its_message()
    ensures { (room place : ℕ) (message : List ℕ) (chunk : Chunk)
        → Contains (cuts room place message) chunk
        → (chunk.place ≡ place) × IsCutOf message chunk }
{}

/// Each chunk of a cut has a byte or more, at most as many as there is room for, and they are within its message, where the message
/// has a byte and there is room for one.
pub fn each_chunk_of_a_cut_has_room_for_its_bytes()
    ensures { (room place : ℕ) (message : List ℕ) (chunk : Chunk) → 1 ≤ room → 1 ≤ length message
        → Contains (cuts room place message) chunk → IsWithinRoom room chunk }
{}

/// Chunks of one message that cover it give it back.
pub fn chunks_that_cover_a_message_give_it_back()
    ensures { (message : List ℕ) (place : ℕ) (chunks : List Chunk)
        → CoverGivesBack message place chunks }
{}

/// A chunk whose numbers are of their types, written, is read as itself, whatever bytes follow it; and likewise with its place's
/// number.
pub fn a_written_chunk_is_read_whatever_follows()
    ensures itself { (chunk : Chunk) (rest : List ℕ) → IsChunk chunk
        → chunk_at (chunk_bytes chunk ++ rest) ≡ Ok (chunk, rest) }
    ensures by_number { (chunk : Chunk) (rest : List ℕ) → IsChunk (numbered chunk)
        → chunk_at (chunk_bytes (numbered chunk) ++ rest) ≡ Ok (numbered chunk, rest) }
{}

/// A written chunk has `CHUNK_FRONT_BYTES` bytes before its data.
pub fn a_written_chunk_is_its_front_and_its_data()
    ensures { (chunk : Chunk)
        → length (chunk_bytes chunk) ≡ CHUNK_FRONT_BYTES + length chunk.bytes }
{}

/// Each chunk of a cut can be written, with its place's number, where there is room for a byte, and the message has a byte or more
/// and fewer than 2^31.
pub fn each_chunk_of_a_cut_can_be_written()
    ensures { (room place : ℕ) (message : List ℕ) (chunk : Chunk)
        → CutCanBeWritten room place message chunk }
{}

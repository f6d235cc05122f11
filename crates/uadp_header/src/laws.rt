//! Laws of headers, each the contract of a function that does nothing.
ghost use Rattle.std.specs.Prelude.{◌≡◌, ◌≢◌, ◌+◌, ◌*◌, ◌/◌, ◌%◌, ◌∷◌, [], ◌++◌, ◌<◌, ◌^◌, ◌↔◌, ◌⊎◌, ℕ, List, length, take, drop, slice_index, All, Some, Ok, Err};
ghost use Rattle.std.specs.Int.{w16, from_le_bytes, to_le_bytes};
ghost use Rattle.std.specs.List.{flat_map};
ghost use Rattle.uadp_header.specs.declared.fault.HeaderFault.{HeaderFault as AnyFault};
ghost use Rattle.uadp_header.specs.declared.fault.HeaderFault.TheVariants as faults;
ghost use Rattle.uadp_header.specs.Flags.{HasExtended1, HasExtended2};
ghost use Rattle.uadp_header.specs.Formats.{Spells, Fails};
ghost use Rattle.uadp_header.specs.Headers.{HeaderValue, SecurityValue, ids_of};
ghost use Rattle.uadp_header.specs.Layout.{header, header_at};
ghost use Rattle.uadp_header.specs.Reading.{BeginsWith, IsSecured};
ghost use Rattle.uadp_header.specs.Spelling.{IsSenders, IsWritten, IsAlike, IsHeader, IsRead, header_bytes, header_len, of_writers};
ghost use Rattle.uadp_header.specs.Wire.{WireHeader, IsWireHeader, wire_bytes, header_read, header_sent, HasIdBytes, BeginsWithHeader};

/// A sender's header, whatever follows it, is read as itself, and up to where its spelling ends.
pub fn written_headers_are_read()
    ensures read { (one : HeaderValue) (rest : List ℕ) → IsWritten one
        → header_at (header_bytes one ++ rest) ≡ Ok (one, rest) }
    ensures begins { (one : HeaderValue) (rest : List ℕ) → IsWritten one
        → BeginsWith (header_bytes one ++ rest) one (header_len one) }
{}

/// Each header that stands on the wire, with whatever is read past, is read as what it tells, and up to where it ends.
/// Bytes are read as a header, with a rest left, exactly where one that tells it stands in front of that rest.
pub fn headers_are_read_as_spelled()
    ensures again { (wire : WireHeader) (rest : List ℕ) → IsWireHeader wire
        → header_at (wire_bytes wire ++ rest) ≡ Ok (header_read wire, rest) }
    ensures exactly { (bytes rest : List ℕ) (one : HeaderValue) → All (λ byte. byte < 256) bytes
        → (header_at bytes ≡ Ok (one, rest)) ↔ BeginsWithHeader bytes one rest }
{}

/// What a sender writes is one of these spellings: the one without the flags that aren't needed, and with nothing that is
/// read past.
pub fn senders_write_one_of_the_spellings()
    ensures { (one : HeaderValue) → IsSenders one → HasIdBytes one.ids
        → header_bytes one ≡ wire_bytes (header_sent one) }
{}

/// The ids of a list, two bytes each, are the numbers that it was made of; there is one for each two bytes.
pub fn ids_are_two_bytes_each()
    ensures again { (ids : List ℕ) → All (λ id. id < 2 ^ 16) ids
        → ids_of (flat_map (to_le_bytes w16) ids) ≡ ids }
    ensures count { (bytes : List ℕ) → length (ids_of bytes) ≡ length bytes / 2 }
    ensures at { (bytes : List ℕ) (k : ℕ) → k < length bytes / 2
        → slice_index (ids_of bytes) k ≡ from_le_bytes w16 (take 2 (drop (2 * k) bytes)) }
{}

/// A written header is as long as its parts tell, and the lengths of its text, ids and nonce: headers
/// that differ in their numbers alone have the same length.
pub fn a_length_goes_by_the_parts()
    ensures len { (one : HeaderValue) → IsHeader one → length (header_bytes one) ≡ header_len one }
    ensures alike { (one other : HeaderValue) → IsAlike one other
        → header_len one ≡ header_len other }
{}

/// Each writer id after the first makes a header two bytes longer.
pub fn each_further_id_takes_two_bytes()
    ensures { (one : HeaderValue) (id : ℕ) (ids : List ℕ) → header_len (of_writers one (id ∷ ids))
        ≡ header_len (of_writers one (id ∷ [])) + 2 * length ids }
{}

/// Bytes begin with the spelling of one sender's header at most.
pub fn bytes_are_of_one_header()
    ensures { (one other : HeaderValue) (rest after : List ℕ) → IsWritten one → IsWritten other
        → header_bytes one ++ rest ≡ header_bytes other ++ after → (one ≡ other) × (rest ≡ after) }
{}

/// Bytes are read as a header exactly where the parts of a header stand in front of the rest, and
/// refused exactly where the first of its parts stand there and the next one fails.
pub fn reading_is_by_parts()
    ensures headers { (bytes rest : List ℕ) (one : HeaderValue)
        → (header_at bytes ≡ Ok (one, rest)) ↔ Spells header bytes one rest }
    ensures faults { (bytes : List ℕ) (fault : AnyFault)
        → (header_at bytes ≡ Err fault) ↔ Fails header bytes fault }
{}

/// The flags are judged from left to right, each by its bits, whatever follows: another version, a PublisherId's type that
/// isn't one, the message types 1 and 2 of discovery, and those that are reserved.
pub fn flags_are_judged_by_their_bits()
    ensures version { (flags : ℕ) (rest : List ℕ) → flags % 16 ≢ 1
        → header_at (flags ∷ rest) ≡ Err (faults.Version (flags % 16)) }
    ensures publisher_type { (flags extended1 : ℕ) (rest : List ℕ) → HasExtended1 flags
        → 4 < extended1 % 8 → header_at (flags ∷ extended1 ∷ rest) ≡ Err faults.BadPublisherType }
    ensures discovery { (flags extended1 extended2 : ℕ) (rest : List ℕ)
        → HasExtended2 flags extended1 → (extended2 / 4 % 8 ≡ 1) ⊎ (extended2 / 4 % 8 ≡ 2)
        → header_at (flags ∷ extended1 ∷ extended2 ∷ rest) ≡ Err faults.DiscoveryOut }
    ensures message_type { (flags extended1 extended2 : ℕ) (rest : List ℕ)
        → HasExtended2 flags extended1 → 2 < extended2 / 4 % 8
        → header_at (flags ∷ extended1 ∷ extended2 ∷ rest) ≡ Err faults.ReservedBits }
{}

/// Bytes begin with one header and one payload, or have one fault.
pub fn bytes_have_one_reading()
    ensures some { (bytes : List ℕ)
        → ((read : HeaderValue × List ℕ) × Spells header bytes read.0 read.1)
        ⊎ ((fault : AnyFault) × Fails header bytes fault) }
    ensures one_header { (bytes rest after : List ℕ) (one other : HeaderValue)
        → Spells header bytes one rest → Spells header bytes other after
        → (one ≡ other) × (rest ≡ after) }
    ensures one_fault { (bytes : List ℕ) (one other : AnyFault)
        → Fails header bytes one → Fails header bytes other → one ≡ other }
    ensures never_both { (bytes rest : List ℕ) (one : HeaderValue) (fault : AnyFault)
        → Spells header bytes one rest → ¬ (Fails header bytes fault) }
{}

/// What is read of bytes is a header: each number is of its type, a text is UTF-8, and a list of ids
/// and a nonce are as long as their one byte of length can tell.
pub fn read_headers_are_headers()
    ensures header { (bytes rest : List ℕ) (one : HeaderValue) → All (λ byte. byte < 256) bytes
        → header_at bytes ≡ Ok (one, rest) → IsRead one }
    ensures nonce { (bytes : List ℕ) (security : SecurityValue) (payload : ℕ)
        → All (λ byte. byte < 256) bytes → IsSecured bytes (Some security) payload
        → length security.nonce < 2 ^ 8 }
{}

/// Of the bytes that a header is read from, fewer are Short.
pub fn fewer_bytes_are_short()
    ensures { (bytes rest : List ℕ) (one : HeaderValue) (len : ℕ)
        → header_at bytes ≡ Ok (one, rest) → len + length rest < length bytes
        → header_at (take len bytes) ≡ Err faults.Short }
{}

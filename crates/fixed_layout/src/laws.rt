//! Laws of RawData and of slots, each the contract of a function that does nothing.
ghost use Rattle.std.specs.Prelude.{◌≡◌, ◌≢◌, ◌+◌, ◌-◌, ◌<◌, ◌≤◌, ◌⊎◌, ◌++◌, ◌↔◌, ℕ, List, All, length, take, replicate, slice_index, max, Some, Ok, Err};
ghost use Rattle.ua_binary.specs.Wire.{AreBytes};
ghost use Rattle.dataset_meta.specs.declared.field.Field.{Field};
ghost use Rattle.dataset_meta.specs.DataValues.{DataValue};
ghost use Rattle.dataset_meta.specs.Metas.{IsMeta, MetaData};
ghost use Rattle.dataset_meta.specs.Rows.{IsRow};
ghost use Rattle.row_words.specs.Belonging.{Belongs, row_in};
ghost use Rattle.fixed_layout.specs.declared.fault.RawFault.{RawFault};
ghost use Rattle.fixed_layout.specs.declared.fault.RawFault.TheVariants as faults;
ghost use Rattle.fixed_layout.specs.declared.slot.Slot.{Slot};
ghost use Rattle.fixed_layout.specs.declared.slot_fault.SlotFault.{SlotFault};
ghost use Rattle.fixed_layout.specs.Begins.{BeginsWithRow, FailsAtValue, BeginsWithBadLength, BeginsWithBadText};
ghost use Rattle.fixed_layout.specs.Datagrams.{filled, slot_of, slot_at, last_end, AreSpelled, AreFrames, spelled, datagram_of, fixed_payload};
ghost use Rattle.fixed_layout.specs.Faults.{RefusesSlots};
ghost use Rattle.fixed_layout.specs.Held.{HoldsFrame};
ghost use Rattle.fixed_layout.specs.Reading.{raw_field_at, raw_row_at};
ghost use Rattle.fixed_layout.specs.Slots.{end_of, Covers, LieApart, header_of, AreApart, AreSlots};
ghost use Rattle.fixed_layout.specs.Spelling.{raw_row, raw_size, as_good, AreGood};
ghost use Rattle.fixed_layout.specs.Wire.{WireRaw, AreWireRaws, wires_bytes};

/// Bytes are read as a row, with a rest left, exactly where one of the row's spellings stands in front of that rest. What
/// fills a text or a blob up to its cap may be any bytes.
pub fn rows_are_read_as_spelled()
    ensures { (fields : List Field) (bytes rest : List ℕ) (row : List DataValue) → IsMeta fields
        → AreBytes bytes
        → (raw_row_at fields bytes ≡ Ok (row, rest)) ↔ BeginsWithRow fields bytes row rest }
{}

/// A written row whose statuses are Good, whatever follows it, is read as itself, and up to where it ends; in words too. One
/// with other statuses is read with its values, and Good.
pub fn written_rows_are_read()
    ensures rows { (meta : MetaData) (row : List DataValue) (rest : List ℕ) → IsMeta meta.fields
        → IsRow meta row → AreGood row
        → raw_row_at meta.fields (raw_row meta.fields row ++ rest) ≡ Ok (row, rest) }
    ensures words { (meta : MetaData) (words other rest : List ℕ) → IsMeta meta.fields
        → Belongs meta words → Belongs meta other → AreGood (row_in meta.fields words)
        → raw_row_at meta.fields (raw_row meta.fields (row_in meta.fields words) ++ rest)
        ≡ Ok (row_in meta.fields other, rest)
        → other ≡ words }
    ensures statuses { (meta : MetaData) (row : List DataValue) (rest : List ℕ) → IsMeta meta.fields
        → IsRow meta row
        → raw_row_at meta.fields (raw_row meta.fields row ++ rest) ≡ Ok (as_good row, rest) }
{}

/// A row takes as many bytes as its meta says, whatever its values are: so many are written, and so many are read.
pub fn rows_have_the_size_of_their_meta()
    ensures written { (meta : MetaData) (row : List DataValue) → IsRow meta row
        → length (raw_row meta.fields row) ≡ raw_size meta.fields }
    ensures read { (fields : List Field) (bytes rest : List ℕ) (row : List DataValue)
        → IsMeta fields → AreBytes bytes → raw_row_at fields bytes ≡ Ok (row, rest)
        → length bytes ≡ raw_size fields + length rest }
{}

/// What is read is a row of each data set that has these fields, and its statuses are Good.
pub fn read_rows_fit()
    ensures row { (meta : MetaData) (bytes rest : List ℕ) (row : List DataValue)
        → IsMeta meta.fields → AreBytes bytes → raw_row_at meta.fields bytes ≡ Ok (row, rest)
        → IsRow meta row }
    ensures good { (fields : List Field) (bytes rest : List ℕ) (row : List DataValue)
        → IsMeta fields → AreBytes bytes → raw_row_at fields bytes ≡ Ok (row, rest) → AreGood row }
{}

/// Bytes begin with the written form of one row of Good statuses at most.
pub fn bytes_are_of_one_row()
    ensures { (meta : MetaData) (one other : List DataValue) (rest after : List ℕ)
        → IsMeta meta.fields → IsRow meta one → IsRow meta other → AreGood one → AreGood other
        → raw_row meta.fields one ++ rest ≡ raw_row meta.fields other ++ after
        → (one ≡ other) × (rest ≡ after) }
{}

/// Of a row's spelling fewer bytes are Short.
pub fn fewer_bytes_are_short()
    ensures { (fields : List Field) (raws : List WireRaw) (len : ℕ) → IsMeta fields
        → AreWireRaws fields raws → len < length (wires_bytes raws)
        → raw_row_at fields (take len (wires_bytes raws)) ≡ Err faults.Short }
{}

/// A row is refused where the first of its values is refused, and with that value's fault.
pub fn rows_are_refused_at_their_first_fault()
    ensures { (fields : List Field) (bytes : List ℕ) (fault : RawFault) → IsMeta fields
        → AreBytes bytes
        → (raw_row_at fields bytes ≡ Err fault) ↔ FailsAtValue fields bytes fault }
{}

/// Each fault of a value but Short, by the bytes that have it.
pub fn values_are_refused_at_their_first_fault()
    ensures bad_length { (field : Field) (bytes : List ℕ) → AreBytes bytes
        → (raw_field_at field bytes ≡ Err faults.BadLength) ↔ BeginsWithBadLength field bytes }
    ensures bad_utf8 { (field : Field) (bytes : List ℕ) → field.cap ≤ 256 → AreBytes bytes
        → (raw_field_at field bytes ≡ Err faults.BadUtf8) ↔ BeginsWithBadText field bytes }
{}

/// Slots have one fault at most, and none where they are accepted.
pub fn slots_have_one_fault()
    ensures one { (start limit : ℕ) (slots : List Slot) (fault other : SlotFault)
        → RefusesSlots start limit slots fault → RefusesSlots start limit slots other
        → fault ≡ other }
    ensures none { (start limit : ℕ) (slots : List Slot) (fault : SlotFault)
        → RefusesSlots start limit slots fault → ¬ AreSlots start limit slots }
{}

/// Two slots share no byte exactly where one ends before the other begins, or one has no bytes. A slot shares none with the
/// header exactly where it has none, or begins behind the header.
pub fn slots_lie_apart_by_their_ends()
    ensures two { (one other : Slot) → LieApart one other
        ↔ ((end_of one ≤ other.offset) ⊎ ((end_of other ≤ one.offset)
        ⊎ ((one.size ≡ 0) ⊎ (other.size ≡ 0)))) }
    ensures header { (start : ℕ) (slot : Slot) → LieApart (header_of start) slot
        ↔ ((slot.size ≡ 0) ⊎ (start ≤ slot.offset)) }
{}

/// Each frame of a datagram stands in its slot with zeros behind it, and in a slot that has no frame stand zeros, where slots and
/// header lie apart, and of each slot there is one frame at most, which fits.
pub fn frames_stand_in_their_slots()
    ensures held { (header : List ℕ) (slots : List Slot) (frames : List (ℕ × List ℕ))
        → AreApart (length header) slots → AreFrames slots frames
        → All (λ frame. slot_of (datagram_of header slots frames) (slot_at slots frame.0)
        ≡ Some (filled (slot_at slots frame.0) frame.1)) frames }
    ensures free { (header : List ℕ) (slots : List Slot) (frames : List (ℕ × List ℕ)) (index : ℕ)
        → AreApart (length header) slots → AreFrames slots frames → index < length slots
        → All (λ frame. frame.0 ≢ index) frames
        → slot_of (datagram_of header slots frames) (slot_at slots index)
        ≡ Some (replicate (slot_at slots index).size 0) }
{}

/// What stands in a slot of a payload behind a header, from which the slots lie apart as from one another, is one frame of that slot
/// with zeros behind it, or zeros, where of each slot there is one frame at most, which fits.
pub fn a_slot_holds_one_frame_or_zeros<X>()
    ensures { (front : List ℕ) (slots : List Slot) (index : X → ℕ) (spelling : X → List ℕ)
        (frames : List X) (place : ℕ) (bytes : List ℕ) → AreApart (length front) slots
        → AreSpelled slots index spelling frames → place < length slots
        → slot_of (front ++ fixed_payload (length front) slots (spelled index spelling frames))
        (slot_at slots place) ≡ Some bytes
        → HoldsFrame index spelling frames place bytes }
{}

/// A datagram whose slots and header lie apart is its header and a payload, which hangs on the header's length alone; and where of
/// each slot there is one frame at most, which fits, the payload ends with the slot that ends last.
pub fn payloads_stand_behind_their_header()
    ensures split { (header : List ℕ) (slots : List Slot) (frames : List (ℕ × List ℕ))
        → AreApart (length header) slots → AreFrames slots frames
        → datagram_of header slots frames ≡ header ++ fixed_payload (length header) slots frames }
    ensures length { (start : ℕ) (slots : List Slot) (frames : List (ℕ × List ℕ))
        → AreFrames slots frames
        → length (fixed_payload start slots frames) ≡ last_end slots - start }
{}

/// Where of each slot there is one frame at most, which fits, a datagram begins with its header, if the slots lie apart from it, is
/// zero outside it and the slots, and ends with the slot that ends last, or with its header where no slot ends behind that. So it
/// has no more bytes than the limit that its slots keep, where its header has no more.
pub fn datagrams_are_zero_outside_their_slots()
    ensures header { (header : List ℕ) (slots : List Slot) (frames : List (ℕ × List ℕ))
        → AreApart (length header) slots → AreFrames slots frames
        → take (length header) (datagram_of header slots frames) ≡ header }
    ensures zero { (header : List ℕ) (slots : List Slot) (frames : List (ℕ × List ℕ)) (place : ℕ)
        → AreFrames slots frames → length header ≤ place → All (λ slot. ¬ Covers slot place) slots
        → slice_index (datagram_of header slots frames) place ≡ 0 }
    ensures end { (header : List ℕ) (slots : List Slot) (frames : List (ℕ × List ℕ))
        → AreFrames slots frames
        → length (datagram_of header slots frames) ≡ max (length header) (last_end slots) }
    ensures within { (header : List ℕ) (limit : ℕ) (slots : List Slot) (frames : List (ℕ × List ℕ))
        → AreSlots (length header) limit slots → AreFrames slots frames → length header ≤ limit
        → length (datagram_of header slots frames) ≤ limit }
{}

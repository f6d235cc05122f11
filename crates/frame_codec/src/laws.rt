//! Laws of DataSetMessages, each the contract of a function that does nothing.
ghost use Rattle.std.specs.Prelude.{◌≡◌, ◌≢◌, ◌++◌, ◌∷◌, ◌+◌, ◌-◌, ◌||◌, nat_lt, ◌/◌, ◌%◌, ◌<◌, ◌≤◌, ◌^◌, ◌↔◌, ℕ, Bool, true, false, List, [], length, take, Option, Some, None, Ok, Err, IfSome, replicate, slice_get};
ghost use Rattle.std.specs.Int.{w16, to_le_bytes};
ghost use Rattle.ua_binary.specs.ReadingValues.{has, variant_at};
ghost use Rattle.ua_binary.specs.Wire.{AreBytes};
ghost use Rattle.dataset_meta.specs.declared.field.Field.{Field};
ghost use Rattle.dataset_meta.specs.DataValues.{DataValue};
ghost use Rattle.dataset_meta.specs.Metas.{IsMeta, MetaData, HasGrown};
ghost use Rattle.frame_codec.specs.declared.fault.FrameFault.{FrameFault};
ghost use Rattle.frame_codec.specs.declared.fault.FrameFault.TheVariants as faults;
ghost use Rattle.frame_codec.specs.declared.frame.Frame.{Frame as FrameWords};
ghost use Rattle.frame_codec.specs.declared.front.Front.{Front as AnyFront};
ghost use Rattle.frame_codec.specs.Begins.{BeginsWithFront, IsSpelled, raw_front};
ghost use Rattle.frame_codec.specs.Contents.{field_at, surplus_at, change_at, is_newer, is_count};
ghost use Rattle.frame_codec.specs.declared.faulty.FieldFault.{FieldFault};
ghost use Rattle.frame_codec.specs.FieldFaults.{fault_at, judged_at, field_fault, IsOfValue, IsOfValueAlone};
ghost use Rattle.frame_codec.specs.Frames.{Frame, Change, Alive, IsFrame, frame_cut};
ghost use Rattle.frame_codec.specs.Fronts.{encoding_in, fault_in_flags1, fault_in_flags2, front_at};
ghost use Rattle.frame_codec.specs.Reading.{are_zero, frame_at};
ghost use Rattle.frame_codec.specs.Refusals.{HasFlags2, IsOwnFault, RefusesVariant, RefusesDataValue, RefusesSurplus};
ghost use Rattle.frame_codec.specs.Spelling.{front_bytes, frame_bytes};
ghost use Rattle.frame_codec.specs.Wire.{is_field_encoding, WireFront, IsWireFront, wire_front_bytes, WireField, wire_values_bytes, wire_changes_bytes, AreValues, AreChanges, patch_read, WireFrame, IsWireFrame, wire_bytes};
ghost use Rattle.frame_codec.specs.Words.{IsFrameOf, GivesFrame, frame_in, spelled_frame};

/// Bytes are read as a frame exactly where one of the messages that are this frame stands there, with zeros behind it,
/// whatever is in the parts that are read past.
pub fn frames_are_read_as_spelled()
    ensures { (meta : MetaData) (bytes : List ℕ) (frame : Frame) → AreBytes bytes
        → (frame_at meta bytes ≡ Ok frame) ↔ IsSpelled meta bytes frame }
{}

/// Bytes are read as a front exactly where one of the fronts that tell this stands in front of the rest.
pub fn fronts_are_read_as_spelled()
    ensures { (fixed : Bool) (bytes rest : List ℕ) (front : AnyFront) → AreBytes bytes
        → (front_at fixed bytes ≡ Ok (front, rest)) ↔ BeginsWithFront fixed bytes front rest }
{}

/// A written frame, with any number of zeros behind it, is read as itself, and answered in the words that it was written from.
pub fn written_frames_are_read()
    ensures frames { (meta : MetaData) (frame : Frame) (zeros : ℕ) → IsMeta meta.fields
        → IsFrame meta frame
        → frame_at meta (frame_bytes meta.quality frame ++ replicate zeros 0) ≡ Ok frame }
    ensures words { (meta : MetaData) (frame other : FrameWords) (zeros : ℕ) → IsMeta meta.fields
        → IsFrameOf meta frame → IsFrame meta (frame_in meta.fields frame)
        → GivesFrame meta (Ok other) (frame_at meta
        (frame_bytes meta.quality (frame_in meta.fields frame) ++ replicate zeros 0))
        → other ≡ frame }
{}

/// What a data set that has grown writes with a greater minor version is read for what it was before as the same frame, cut to
/// the fields that it had.
pub fn grown_frames_are_read_cut()
    ensures { (short full : MetaData) (frame : Frame) (minor zeros : ℕ) → IsMeta full.fields
        → HasGrown short full
        → IsFrame full frame → frame.minor ≡ Some minor → short.minor < minor
        → frame_at short (frame_bytes full.quality frame ++ replicate zeros 0)
        ≡ Ok (frame_cut short frame) }
{}

/// The front of a frame with RawData, which is no delta frame, is read as the front of that frame, whatever follows it, and up
/// to where it ends.
pub fn written_fronts_are_read()
    ensures { (meta : MetaData) (frame : Frame) (rest : List ℕ) → IsFrame meta frame
        → ((patch : List (ℕ × DataValue)) → ¬ (frame.content ≡ Change patch))
        → front_at true (front_bytes 1 frame ++ rest) ≡ Ok (raw_front frame, rest) }
{}

/// Of a message, and of a front, fewer bytes are Short; of a written frame too.
pub fn fewer_bytes_are_short()
    ensures messages { (meta : MetaData) (wire : WireFrame) (len : ℕ) → IsWireFrame meta wire
        → len < length (wire_bytes wire)
        → frame_at meta (take len (wire_bytes wire)) ≡ Err faults.Short }
    ensures fronts { (fixed : Bool) (wire : WireFront) (len : ℕ) → IsWireFront fixed wire
        → len < length (wire_front_bytes wire)
        → front_at fixed (take len (wire_front_bytes wire)) ≡ Err faults.Short }
    ensures written { (meta : MetaData) (frame : Frame) (len : ℕ) → IsMeta meta.fields
        → IsFrame meta frame
        → len < length (frame_bytes meta.quality frame)
        → frame_at meta (take len (frame_bytes meta.quality frame)) ≡ Err faults.Short }
{}

/// DataSetFlags1 and DataSetFlags2 are judged where they stand, and a front's fault is the frame's.
pub fn flags_are_judged_first()
    ensures flags1 { (fixed : Bool) (flags : ℕ) (rest : List ℕ) (fault : FrameFault)
        → fault_in_flags1 fixed flags ≡ Some fault
        → front_at fixed (flags ∷ rest) ≡ Err fault }
    ensures flags2 { (fixed : Bool) (flags extended : ℕ) (rest : List ℕ) (fault : FrameFault)
        → fault_in_flags1 fixed flags ≡ None
        → has flags 0x80 ≡ true → fault_in_flags2 (encoding_in flags) extended ≡ Some fault
        → front_at fixed (flags ∷ extended ∷ rest) ≡ Err fault }
    ensures frames { (meta : MetaData) (bytes : List ℕ) (fault : FrameFault)
        → front_at false bytes ≡ Err fault
        → frame_at meta bytes ≡ Err fault }
{}

/// An even DataSetFlags1 isn't valid; an odd one has a field encoding of the layout. Behind it a delta frame of RawData is a
/// BadEncoding, an event is an event whatever its other bits are, and then each other kind, and bits 6 and 7, are reserved.
pub fn flags_are_refused_by_their_bits()
    ensures not_valid { (fixed : Bool) (flags : ℕ) (rest : List ℕ) → flags < 256
        → flags % 2 ≡ 0 → front_at fixed (flags ∷ rest) ≡ Err faults.NotValid }
    ensures encoding { (fixed : Bool) (flags : ℕ) (rest : List ℕ) → flags < 256
        → flags % 2 ≡ 1 → is_field_encoding fixed (flags / 2 % 4) ≡ false
        → front_at fixed (flags ∷ rest) ≡ Err faults.BadEncoding }
    ensures raw_delta { (fixed : Bool) (flags extended : ℕ) (rest : List ℕ)
        → HasFlags2 fixed flags → flags / 2 % 4 ≡ 1 → extended % 16 ≡ 1
        → front_at fixed (flags ∷ extended ∷ rest) ≡ Err faults.BadEncoding }
    ensures event { (fixed : Bool) (flags extended : ℕ) (rest : List ℕ)
        → HasFlags2 fixed flags → extended % 16 ≡ 2
        → front_at fixed (flags ∷ extended ∷ rest) ≡ Err faults.EventOut }
    ensures kind { (fixed : Bool) (flags extended : ℕ) (rest : List ℕ)
        → HasFlags2 fixed flags → 4 ≤ extended % 16
        → front_at fixed (flags ∷ extended ∷ rest) ≡ Err faults.ReservedBits }
    ensures bits { (fixed : Bool) (flags extended : ℕ) (rest : List ℕ)
        → HasFlags2 fixed flags → extended < 256 → 64 ≤ extended → extended % 16 ≢ 2
        → ¬ ((flags / 2 % 4 ≡ 1) × (extended % 16 ≡ 1))
        → front_at fixed (flags ∷ extended ∷ rest) ≡ Err faults.ReservedBits }
{}

/// Behind a right front each fault of the fields is named at the first part that has it: the count of a key frame, a value
/// behind right ones, a surplus value behind right ones, an index or a value of a delta frame behind right ones; and last a
/// byte behind the message that isn't 0.
pub fn fields_are_judged_in_their_order()
    ensures count { (meta : MetaData) (wire : WireFront) (count : ℕ) (rest : List ℕ)
        → IsWireFront false wire → wire.kind ≡ 0
        → count < 2 ^ 16 → is_count (is_newer meta wire.minor) (length meta.fields) count ≡ false
        → frame_at meta (wire_front_bytes wire ++ (to_le_bytes w16 count ++ rest))
        ≡ Err (faults.WrongCount count) }
    ensures value { (meta : MetaData) (wire : WireFront) (count : ℕ) (before after : List Field)
        (field : Field)
        (values : List WireField) (rest : List ℕ) (fault : FrameFault) → IsWireFront false wire
        → wire.kind ≡ 0 → count < 2 ^ 16
        → is_count (is_newer meta wire.minor) (length meta.fields) count ≡ true
        → meta.fields ≡ before ++ field ∷ after
        → AreValues false wire.encoding before values
        → field_at meta.quality wire.encoding field rest ≡ Err fault
        → frame_at meta (wire_front_bytes wire ++ (to_le_bytes w16 count ++
        (wire_values_bytes values ++ rest))) ≡ Err fault }
    ensures surplus { (meta : MetaData) (wire : WireFront) (count : ℕ)
        (values more : List WireField) (rest : List ℕ)
        (fault : FrameFault) → IsWireFront false wire → wire.kind ≡ 0 → count < 2 ^ 16
        → is_count (is_newer meta wire.minor) (length meta.fields) count ≡ true
        → AreValues false wire.encoding meta.fields values → AreValues true wire.encoding [] more
        → length more < count - length meta.fields → surplus_at wire.encoding rest ≡ Err fault
        → frame_at meta (wire_front_bytes wire ++ (to_le_bytes w16 count ++
        (wire_values_bytes values ++ (wire_values_bytes more ++ rest))))
        ≡ Err fault }
    ensures change { (meta : MetaData) (wire : WireFront) (count : ℕ) (changes : List
        (ℕ × WireField)) (rest : List ℕ)
        (fault : FrameFault) → IsWireFront false wire → wire.kind ≡ 1 → count < 2 ^ 16
        → AreChanges (is_newer meta wire.minor) wire.encoding meta.fields changes
        → length changes < count
        → change_at meta (is_newer meta wire.minor) wire.encoding
        (patch_read meta.quality meta.fields [] changes) rest ≡ Err fault
        → frame_at meta (wire_front_bytes wire ++ (to_le_bytes w16 count ++
        (wire_changes_bytes changes ++ rest))) ≡ Err fault }
    ensures behind { (meta : MetaData) (wire : WireFrame) (rest : List ℕ) → IsWireFrame meta wire
        → are_zero rest ≡ false
        → frame_at meta (wire_bytes wire ++ rest) ≡ Err faults.Trailing }
{}

/// What stands in the place of a field's value is refused for its own first fault, and else with BadValue where a DataValue has
/// no value or the value doesn't fit the field, and for nothing else. A value that is no field's is refused for its own first
/// fault, and with BadValue where a DataValue has none.
pub fn values_are_refused_for_their_own_fault()
    ensures variants { (quality : Bool) (field : Field) (bytes : List ℕ) (fault : FrameFault)
        → (field_at quality 0 field bytes ≡ Err fault) ↔ RefusesVariant field bytes fault }
    ensures data_values { (quality : Bool) (field : Field) (bytes : List ℕ) (fault : FrameFault)
        → (field_at quality 2 field bytes ≡ Err fault) ↔ RefusesDataValue field bytes fault }
    ensures surplus_variants { (bytes : List ℕ) (fault : FrameFault)
        → (surplus_at 0 bytes ≡ Err fault) ↔ IsOwnFault (variant_at bytes) fault }
    ensures surplus_data_values { (bytes : List ℕ) (fault : FrameFault)
        → (surplus_at 2 bytes ≡ Err fault) ↔ RefusesSurplus bytes fault }
{}

/// A change of a delta frame is its index and a value. An index that is no field's is a BadIndex, of that index, where the frame
/// carries no greater minor version than the meta's. Else the value is judged, of a field or as a surplus one.
pub fn indexes_are_judged_by_the_fields()
    ensures short { (meta : MetaData) (newer : Bool) (encoding : ℕ) (patch : List (ℕ × DataValue))
        (bytes : List ℕ) → length bytes < 2
        → change_at meta newer encoding patch bytes ≡ Err faults.Short }
    ensures out { (meta : MetaData) (encoding index : ℕ) (patch : List (ℕ × DataValue))
        (rest : List ℕ) → index < 2 ^ 16 → length meta.fields ≤ index
        → change_at meta false encoding patch (to_le_bytes w16 index ++ rest)
        ≡ Err (faults.BadIndex index) }
    ensures field { (meta : MetaData) (newer : Bool) (encoding index : ℕ)
        (patch : List (ℕ × DataValue)) (field : Field) (rest : List ℕ) (fault : FrameFault)
        → index < 2 ^ 16 → slice_get meta.fields index ≡ Some field
        → field_at meta.quality encoding field rest ≡ Err fault
        → change_at meta newer encoding patch (to_le_bytes w16 index ++ rest) ≡ Err fault }
    ensures surplus { (meta : MetaData) (encoding index : ℕ) (patch : List (ℕ × DataValue))
        (rest : List ℕ) (fault : FrameFault) → index < 2 ^ 16 → length meta.fields ≤ index
        → surplus_at encoding rest ≡ Err fault
        → change_at meta true encoding patch (to_le_bytes w16 index ++ rest) ≡ Err fault }
{}

/// The field that is told of a refused frame is the first whose value can't be read: of a key frame by how many values stand
/// before it, of a delta frame by its index, with the type byte where its bytes begin. Where a field is told the frame's fault is
/// one that a value has, and each fault that a value alone has tells a field.
pub fn faulty_fields_are_named()
    ensures value { (meta : MetaData) (wire : WireFront) (count : ℕ) (before after : List Field)
        (field : Field)
        (values : List WireField) (rest : List ℕ) (fault : FrameFault) → IsWireFront false wire
        → wire.kind ≡ 0 → count < 2 ^ 16
        → is_count (is_newer meta wire.minor) (length meta.fields) count ≡ true
        → meta.fields ≡ before ++ field ∷ after
        → AreValues false wire.encoding before values
        → field_at meta.quality wire.encoding field rest ≡ Err fault
        → field_fault meta (wire_front_bytes wire ++ (to_le_bytes w16 count ++
        (wire_values_bytes values ++ rest)))
        ≡ Some (fault_at wire.encoding (length before) rest) }
    ensures surplus { (meta : MetaData) (wire : WireFront) (count : ℕ)
        (values more : List WireField) (rest : List ℕ)
        (fault : FrameFault) → IsWireFront false wire → wire.kind ≡ 0 → count < 2 ^ 16
        → is_count (is_newer meta wire.minor) (length meta.fields) count ≡ true
        → AreValues false wire.encoding meta.fields values → AreValues true wire.encoding [] more
        → length more < count - length meta.fields → surplus_at wire.encoding rest ≡ Err fault
        → field_fault meta (wire_front_bytes wire ++ (to_le_bytes w16 count ++
        (wire_values_bytes values ++ (wire_values_bytes more ++ rest))))
        ≡ Some (fault_at wire.encoding (length meta.fields + length more) rest) }
    ensures change { (meta : MetaData) (wire : WireFront) (count index : ℕ) (changes : List
        (ℕ × WireField)) (rest : List ℕ)
        (fault : FrameFault) → IsWireFront false wire → wire.kind ≡ 1 → count < 2 ^ 16
        → AreChanges (is_newer meta wire.minor) wire.encoding meta.fields changes
        → length changes < count → index < 2 ^ 16
        → (is_newer meta wire.minor || nat_lt index (length meta.fields)) ≡ true
        → judged_at meta.quality wire.encoding (slice_get meta.fields index) rest ≡ Err fault
        → field_fault meta (wire_front_bytes wire ++ (to_le_bytes w16 count ++
        (wire_changes_bytes changes ++ (to_le_bytes w16 index ++ rest))))
        ≡ Some (fault_at wire.encoding index rest) }
    ensures named { (meta : MetaData) (bytes : List ℕ) (field : FieldFault)
        → field_fault meta bytes ≡ Some field
        → (fault : FrameFault) × (frame_at meta bytes ≡ Err fault) × IsOfValue fault }
    ensures of_value { (meta : MetaData) (bytes : List ℕ) (fault : FrameFault)
        → frame_at meta bytes ≡ Err fault → IsOfValueAlone fault
        → (field : FieldFault) × (field_fault meta bytes ≡ Some field) }
{}

/// A front is read in a fixed layout as in a dynamic one, faults and all, but for RawData, which stands in a fixed layout alone.
pub fn layouts_differ_in_raw_data_alone()
    ensures answers { (flags : ℕ) (rest : List ℕ) → encoding_in flags ≢ 1
        → front_at true (flags ∷ rest) ≡ front_at false (flags ∷ rest) }
    ensures fronts { (bytes rest : List ℕ) (front : AnyFront) → AreBytes bytes → front.encoding ≢ 1
        → (front_at true bytes ≡ Ok (front, rest)) ↔ (front_at false bytes ≡ Ok (front, rest)) }
{}

/// Bytes are those of one frame at most.
pub fn bytes_are_of_one_frame()
    ensures { (meta : MetaData) (one other : Frame) → IsMeta meta.fields → IsFrame meta one
        → IsFrame meta other
        → frame_bytes meta.quality one ≡ frame_bytes meta.quality other → one ≡ other }
{}

/// What is read is a frame of the data set that it was read for: each value fits its field, and each number its width.
pub fn what_is_read_fits()
    ensures { (meta : MetaData) (bytes : List ℕ) (frame : Frame) → AreBytes bytes
        → frame_at meta bytes ≡ Ok frame
        → IsFrame meta frame }
{}

/// A written frame of a meta has at most 2,048 bytes, and one at least; a keep-alive has at most 12. Zeros alone are no frame.
pub fn frames_are_not_too_long()
    ensures long { (meta : MetaData) (frame : Frame) → IsMeta meta.fields → IsFrame meta frame
        → length (frame_bytes meta.quality frame) ≤ 2048 }
    ensures some { (quality : Bool) (frame : Frame) → 1 ≤ length (frame_bytes quality frame) }
    ensures alive { (quality : Bool) (frame : Frame) → frame.content ≡ Alive
        → length (frame_bytes quality frame) ≤ 12 }
    ensures zeros { (meta : MetaData) (count : ℕ) (frame : Frame)
        → ¬ (frame_at meta (replicate count 0) ≡ Ok frame) }
{}

/// Words of a meta stand for a frame of it, each frame has words, and two that stand for the same are equal.
pub fn frames_have_one_meaning()
    ensures meaning { (meta : MetaData) (frame : FrameWords) → IsFrameOf meta frame
        → IfSome frame.number (λ n. n < 2 ^ 16)
        → IfSome frame.major (λ n. n < 2 ^ 32) → IfSome frame.minor (λ n. n < 2 ^ 32)
        → IsFrame meta (frame_in meta.fields frame) }
    ensures words { (meta : MetaData) (frame : Frame) → IsMeta meta.fields → IsFrame meta frame
        → IsFrameOf meta (spelled_frame meta.fields frame) }
    ensures back { (meta : MetaData) (frame : Frame) → IsMeta meta.fields → IsFrame meta frame
        → frame_in meta.fields (spelled_frame meta.fields frame) ≡ frame }
    ensures one { (meta : MetaData) (one other : FrameWords) → IsFrameOf meta one
        → IsFrameOf meta other
        → frame_in meta.fields one ≡ frame_in meta.fields other → one ≡ other }
{}

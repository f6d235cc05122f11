//! Laws of Variants and DataValues, each the contract of a function that does nothing. The bytes are bytes: below 256.
ghost use Rattle.std.specs.Prelude.{◌≡◌, ◌≢◌, ◌+◌, ◌++◌, ◌∷◌, ◌<◌, ◌↔◌, ◌^◌, ℕ, true, false, List, length, take, Option, Some, Ok, Err, IfSome, unwrap_or};
ghost use Rattle.ua_binary.specs.declared.data_value.Measured.{Measured};
ghost use Rattle.ua_binary.specs.declared.fault.ValueFault.{ValueFault};
ghost use Rattle.ua_binary.specs.declared.fault.ValueFault.TheVariants as faults;
ghost use Rattle.ua_binary.specs.Begins.{BeginsWithVariant, BeginsWithDataValue, BeginsWithOtherType, BeginsWithBadLength, BeginsWithBadText};
ghost use Rattle.ua_binary.specs.ReadingValues.{has, variant_at, data_value_at};
ghost use Rattle.ua_binary.specs.Spelling.{variant, data_value};
ghost use Rattle.ua_binary.specs.Wire.{AreBytes, WireValue, IsWireValue, variant_as, WireDataValue, IsWireDataValue, data_value_as};
ghost use Rattle.ua_values.specs.declared.value.Value.{Value};
ghost use Rattle.ua_values.specs.Values.{kind_of, Fits, IsValue};

/// Bytes are read as a value, with a rest left, exactly where one of the value's spellings stands in front of that rest.
pub fn variants_are_read_as_spelled()
    ensures { (bytes rest : List ℕ) (value : Value) → AreBytes bytes
        → (variant_at bytes ≡ Ok (value, rest)) ↔ BeginsWithVariant bytes value rest }
{}

/// Bytes are read as a value and a status exactly where a DataValue of that meaning stands in front of the rest, whatever
/// its times are.
pub fn data_values_are_read_as_spelled()
    ensures { (bytes rest : List ℕ) (measured : Measured) → AreBytes bytes
        → (data_value_at bytes ≡ Ok (measured, rest)) ↔ BeginsWithDataValue bytes measured rest }
{}

/// Each fault of a Variant but Short, by the bytes that have it. What isn't read and has none of them is Short.
pub fn variants_are_refused_at_their_first_fault()
    ensures kind_out { (bytes : List ℕ) → (variant_at bytes ≡ Err faults.KindOut)
        ↔ BeginsWithOtherType bytes }
    ensures bad_length { (bytes : List ℕ) → AreBytes bytes
        → (variant_at bytes ≡ Err faults.BadLength) ↔ BeginsWithBadLength bytes }
    ensures bad_utf8 { (bytes : List ℕ) → AreBytes bytes
        → (variant_at bytes ≡ Err faults.BadUtf8) ↔ BeginsWithBadText bytes }
{}

/// A DataValue's mask is judged first: bit 6 or 7 is KindOut. Each other fault but Short is its value's.
pub fn data_values_are_refused_at_their_first_fault()
    ensures reserved { (mask : ℕ) (rest : List ℕ) → has mask 0xc0 ≡ true
        → data_value_at (mask ∷ rest) ≡ Err faults.KindOut }
    ensures value { (mask : ℕ) (rest : List ℕ) (fault : ValueFault) → has mask 0xc0 ≡ false
        → fault ≢ faults.Short
        → (data_value_at (mask ∷ rest) ≡ Err fault)
        ↔ ((has mask 0x01 ≡ true) × (variant_at rest ≡ Err fault)) }
{}

/// Of a spelling fewer bytes are Short.
pub fn fewer_bytes_are_short()
    ensures variants { (wire : WireValue) (len : ℕ) → IsWireValue wire
        → len < length (variant_as wire)
        → variant_at (take len (variant_as wire)) ≡ Err faults.Short }
    ensures data_values { (wire : WireDataValue) (len : ℕ) → IsWireDataValue wire
        → len < length (data_value_as wire)
        → data_value_at (take len (data_value_as wire)) ≡ Err faults.Short }
{}

/// A written Variant, whatever follows it, is read as its value, and up to where the spelling ends.
pub fn written_variants_are_read()
    ensures { (value : Value) (rest : List ℕ) → IsValue value
        → variant_at (variant value ++ rest) ≡ Ok (value, rest) }
{}

/// A written DataValue, whatever follows it, is read as its value and its status, or Good where it has none, and up to
/// where the spelling ends.
pub fn written_data_values_are_read()
    ensures { (value : Value) (status : Option ℕ) (rest : List ℕ) → IsValue value
        → IfSome status (λ code. code < 2 ^ 32)
        → data_value_at (data_value value status ++ rest)
        ≡ Ok (record { value = Some value; status = unwrap_or status 0 }, rest) }
{}

/// Bytes begin with the written Variant of one value at most. That they are read as one value at most needs no law, since
/// reading is a function of the bytes.
pub fn bytes_are_of_one_variant()
    ensures { (one other : Value) (rest after : List ℕ) → IsValue one → IsValue other
        → variant one ++ rest ≡ variant other ++ after
        → (one ≡ other) × (rest ≡ after) }
{}

/// Bytes begin with the written DataValue of one value at most, with one status or none.
pub fn bytes_are_of_one_data_value()
    ensures { (one other : Value) (status code : Option ℕ) (rest after : List ℕ) → IsValue one
        → IsValue other
        → IfSome status (λ n. n < 2 ^ 32) → IfSome code (λ n. n < 2 ^ 32)
        → data_value one status ++ rest ≡ data_value other code ++ after
        → (one ≡ other) × (status ≡ code) × (rest ≡ after) }
{}

/// What is read as a Variant is in the range of its kind, and fits a field of that kind with the longest cap.
pub fn read_variants_are_values()
    ensures value { (bytes rest : List ℕ) (value : Value) → AreBytes bytes
        → variant_at bytes ≡ Ok (value, rest) → IsValue value }
    ensures fits { (bytes rest : List ℕ) (value : Value) → AreBytes bytes
        → variant_at bytes ≡ Ok (value, rest)
        → Fits value (kind_of value) 256 }
{}

/// What is read as a DataValue has a value in the range of its kind, or none, and a StatusCode.
pub fn read_data_values_are_values()
    ensures value { (bytes rest : List ℕ) (measured : Measured) → AreBytes bytes
        → data_value_at bytes ≡ Ok (measured, rest)
        → IfSome measured.value IsValue }
    ensures status { (bytes rest : List ℕ) (measured : Measured) → AreBytes bytes
        → data_value_at bytes ≡ Ok (measured, rest)
        → measured.status < 2 ^ 32 }
{}

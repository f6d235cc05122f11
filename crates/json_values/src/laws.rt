//! Laws of values in JSON, each the contract of a function that does nothing.
ghost use Rattle.std.specs.Prelude.{◌≡◌, Bool};
ghost use Rattle.serde_json.specs.Data.{Data};
ghost use Rattle.dataset_meta.specs.declared.field.Field.{Field};
ghost use Rattle.dataset_meta.specs.DataValues.{DataValue, FitsField};
ghost use Rattle.json_values.specs.Spelled.{field_json};
ghost use Rattle.json_values.specs.Reading.{ReadsField};

/// What is written of a value that fits its field is read as that value.
pub fn written_values_are_read()
    ensures { (quality : Bool) (field : Field) (x : DataValue) → FitsField quality field x
        → ReadsField quality field (field_json quality x) x }
{}

/// A JSON value is read as at most one value of a field.
pub fn a_json_value_is_read_as_one_value()
    ensures { (quality : Bool) (field : Field) (d : Data) (x y : DataValue)
        → ReadsField quality field d x → ReadsField quality field d y → x ≡ y }
{}

//! Laws of messages, each the contract of a function that does nothing.
ghost use Rattle.std.specs.Prelude.{◌≡◌, ◌≤◌, ℕ, List, length, Some, Ok};
ghost use Rattle.std.specs.List.{AllByRecursion};
ghost use Rattle.serde_json.specs.Data.{Items};
ghost use Rattle.dataset_meta.specs.Metas.{MetaData};
ghost use Rattle.json_frames.specs.declared.message.JsonRead.{JsonRead};
ghost use Rattle.json_frames.specs.Parts.{Part};
ghost use Rattle.json_frames.specs.Written.{elements_json, message_json};
ghost use Rattle.json_frames.specs.Reading.{IsNamedPart, ReadAs};
ghost use Rattle.json_frames.specs.Documents.{value_of, document, IsRead, HasMessage};

/// What is written of parts is read as these parts, and none is bad, where the data set of each writer
/// is named.
pub fn written_parts_are_read()
    ensures { (metas : List MetaData) (sets : List (ℕ × ℕ)) (parts : List Part)
        → AllByRecursion (IsNamedPart metas sets) parts
        → ReadAs metas sets (elements_json metas parts) parts 0 }
{}

/// Elements are read as one list of parts, with one number of bad ones.
pub fn elements_are_read_one_way()
    ensures { (metas : List MetaData) (sets : List (ℕ × ℕ)) (elements : Items)
        (one other : List Part) (bad worse : ℕ) → ReadAs metas sets elements one bad
        → ReadAs metas sets elements other worse → (one ≡ other) × (bad ≡ worse) }
{}

/// What is read of a written message, whose publisher has at most 256 bytes and whose parts are of the data sets that are named for
/// their writers, is its publisher and its parts, each the same, and no bad element; and it is refused for nothing: its document is
/// the publisher and the elements of the parts.
pub fn what_is_written_is_read()
    ensures read { (metas : List MetaData) (sets : List (ℕ × ℕ)) (id : ℕ) (publisher : List ℕ)
        (parts : List Part) (bytes : List ℕ) (found : JsonRead) → length publisher ≤ 256
        → AllByRecursion (IsNamedPart metas sets) parts
        → value_of bytes ≡ Some (message_json metas id publisher parts)
        → IsRead metas sets bytes found → HasMessage metas publisher parts found }
    ensures accepted { (metas : List MetaData) (id : ℕ) (publisher : List ℕ) (parts : List Part)
        (bytes : List ℕ) → length publisher ≤ 256
        → value_of bytes ≡ Some (message_json metas id publisher parts)
        → document bytes ≡ Ok (publisher, elements_json metas parts) }
{}

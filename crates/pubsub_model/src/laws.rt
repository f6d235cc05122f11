//! Laws of the model's definitions, each the contract of a function that does nothing.
ghost use Rattle.std.specs.Prelude.{◌≡◌, ◌≢◌, ◌<◌, ◌≤◌, ◌++◌, ◌+◌, [], ◌∷◌, ℕ, List, All, Option, Some, None, length, map, take, drop, reverse, replicate, slice_get, slice_index_or, sum_by, Bool, false, true, option_map};
ghost use Rattle.std.specs.List.{list_any};
ghost use Rattle.dataset_meta.specs.DataValues.{DataValue};
ghost use Rattle.dataset_meta.specs.declared.field.Field.{Field};
ghost use Rattle.dataset_meta.specs.Metas.{MetaData};
ghost use Rattle.dataset_meta.specs.Rows.{IsRow, opening_row, patched, differs};
ghost use Rattle.pubsub_model.specs.History.{Written, IsHistory, ArePatches, IsLegal, row_of, times_of, patch_at, last_row, legal_rows, legal_history};
ghost use Rattle.pubsub_model.specs.Frames.{PlacedFrame, Whole, Change, Alive, is_whole, published};
ghost use Rattle.pubsub_model.specs.Cadence.{Settings, WriterTurn, Answered, WriterDeed, HadTurn, HasRowsOf, answer, quiet_answer, is_key_due, is_fresh, cadence, next_place, is_key, is_data, last_turn, log_of, frames_of, HasKeyBehind};
ghost use Rattle.pubsub_model.specs.Records.{Item, Held, Came, breaks_with, held_in, at, breaks, held};

/// Where the rows of the turns between two refreshes are rows of one meta, what a writer's frames publish is the row of its
/// last turn with a data frame. From one refresh to the next the data set may have grown.
pub fn frames_publish_whole_rows()
    ensures { (meta : MetaData) (s : Settings) (deeds : List WriterDeed) → HasRowsOf meta deeds
        → published (frames_of (cadence s deeds)) ≡ (last_turn is_data (cadence s deeds)).row }
{}

/// Where no key frame is due, a turn with the row of the last data frame gets the quiet answer, which is no delta frame; a turn
/// with another row of the same meta gets the delta frame of exactly the fields that differ.
pub fn turns_change_only_what_differs()
    ensures same { (s : Settings) (fresh : Bool) (before : List Answered) (turn : WriterTurn)
        → is_key_due s fresh before turn ≡ false → (last_turn is_data before).row ≡ turn.row
        → answer s fresh before turn ≡ quiet_answer s before turn }
    ensures quiet { (s : Settings) (before : List Answered) (turn : WriterTurn)
        (place : ℕ) (patch : List (ℕ × DataValue))
        → quiet_answer s before turn ≢ Some (Change place patch) }
    ensures changed { (meta : MetaData) (s : Settings) (fresh : Bool) (before : List Answered)
        (turn : WriterTurn)
        → is_key_due s fresh before turn ≡ false
        → let old = (last_turn is_data before).row in IsRow meta old → IsRow meta turn.row
        → old ≢ turn.row
        → answer s fresh before turn ≡ Some (Change (next_place s before) (differs old turn.row)) }
{}

/// With a key frame count of 1 each turn is answered by a key frame, and the log gets its place and version.
pub fn key_frames_alone()
    ensures each { (s : Settings) (fresh : Bool) (before : List Answered) (turn : WriterTurn)
        → s.key_frame_count ≡ 1
        → answer s fresh before turn ≡ Some (Whole (next_place s before) turn.row) }
    ensures log { (s : Settings) (turn : WriterTurn) (before : List WriterDeed)
        → s.key_frame_count ≡ 1
        → let log = log_of s before in let place = s.first_number + length log in
        log_of s (HadTurn turn ∷ before) ≡ log ++ (place, turn.version) ∷ [] }
{}

/// A key frame at a turn is followed by one as many turns later as the key frame count, where none came between, and by none
/// sooner, but at a fresh or a closing turn. So of as many turns in a row one at least is answered by a key frame.
pub fn key_frames_come_in_time()
    ensures next { (s : Settings) (deeds : List WriterDeed) (turn : WriterTurn)
        (since : List Answered)
        → HasKeyBehind since (cadence s deeds) → length since + 1 ≡ s.key_frame_count
        → let before = cadence s deeds in
        answer s (is_fresh deeds) before turn ≡ Some (Whole (next_place s before) turn.row) }
    ensures sooner { (s : Settings) (deeds : List WriterDeed) (turn : WriterTurn)
        (since : List Answered)
        (place : ℕ) (row : List DataValue) → HasKeyBehind since (cadence s deeds)
        → length since + 1 < s.key_frame_count → is_fresh deeds ≡ false → turn.closing ≡ false
        → answer s (is_fresh deeds) (cadence s deeds) turn ≢ Some (Whole place row) }
    ensures often { (s : Settings) (deeds : List WriterDeed) (later : ℕ) → 1 ≤ s.key_frame_count
        → later + s.key_frame_count ≤ length (cadence s deeds)
        → list_any is_key (take s.key_frame_count (drop later (cadence s deeds))) ≡ true }
{}

/// Data frames have places in a row from the first number on, and a keep-alive tells of the place of the next one: it uses up
/// none.
pub fn data_frames_are_numbered_in_a_row()
    ensures log { (s : Settings) (deeds : List WriterDeed) (j : ℕ) (entry : ℕ × ℕ)
        → slice_get (log_of s deeds) j ≡ Some entry → entry.0 ≡ s.first_number + j }
    ensures alive { (s : Settings) (before : List WriterDeed) (turn : WriterTurn) (next : ℕ)
        → answer s (is_fresh before) (cadence s before) turn ≡ Some (Alive next)
        → next ≡ s.first_number + length (log_of s before) }
{}

/// A turn with nothing else to send has a keep-alive where the last frame of any kind is at least the keep-alive time ago, and
/// nothing where it is less, or where the time is 0.
pub fn keep_alives_come_in_time()
    ensures never { (s : Settings) (before : List Answered) (turn : WriterTurn)
        → s.keep_alive ≡ 0 → quiet_answer s before turn ≡ None }
    ensures due { (s : Settings) (since earlier : List Answered) (last : Answered)
        (frame : PlacedFrame) (turn : WriterTurn)
        → All (λ a. a.answer ≡ None) since → last.answer ≡ Some frame
        → 1 ≤ s.keep_alive → last.turn.moment + s.keep_alive ≤ turn.moment
        → let before = since ++ last ∷ earlier in
        quiet_answer s before turn ≡ Some (Alive (next_place s before)) }
    ensures early { (s : Settings) (since earlier : List Answered) (last : Answered)
        (frame : PlacedFrame) (turn : WriterTurn)
        → All (λ a. a.answer ≡ None) since → last.answer ≡ Some frame
        → turn.moment < last.turn.moment + s.keep_alive
        → quiet_answer s (since ++ last ∷ earlier) turn ≡ None }
{}

/// The first turn is answered by a key frame, so the place that a keep-alive tells of is never the first.
pub fn keep_alives_follow_data_frames()
    ensures latest { (s : Settings) (turn : WriterTurn) (before : List WriterDeed) (next : ℕ)
        → answer s (is_fresh before) (cadence s before) turn ≡ Some (Alive next)
        → s.first_number < next }
    ensures each { (s : Settings) (deeds : List WriterDeed)
        → All (λ frame. (next : ℕ) → frame ≡ Alive next
        → s.first_number < next) (frames_of (cadence s deeds)) }
{}

/// A key frame that is a record is held, and a delta frame that follows is laid into the row that is held.
pub fn records_are_held()
    ensures whole { (moment : ℕ) (stamp : Option ℕ) (place : ℕ) (row : List DataValue)
        (rest : List Item)
        → held_in (at moment stamp (Whole place row) ∷ rest)
        ≡ Some (record { place = place; row = row }) }
    ensures change { (moment : ℕ) (stamp : Option ℕ) (place : ℕ) (patch : List (ℕ × DataValue))
        (last : Item) (rest : List Item)
        → let item = at moment stamp (Change place patch) in breaks_with last item ≡ false
        → held_in (item ∷ last ∷ rest)
        ≡ option_map (λ h. record { place = place; row = patched h.row patch })
        (held_in (last ∷ rest)) }
    ensures broken { (item last : Item) (rest : List Item) → is_whole item.frame ≡ false
        → breaks_with last item ≡ true → held_in (item ∷ last ∷ rest) ≡ None }
{}

/// A list of the first thread alone is legal where it is as long as that thread's patches.
pub fn one_thread_is_legal()
    ensures { (patches : List (List (ℕ × DataValue)))
        → IsLegal (replicate (length patches) 0) (patches ∷ []) }
{}

/// A reader to which each frame of a writer comes, once and in order, finds no break, and after each turn with rows of one data
/// set it holds the row of the writer's last data frame.
pub fn frames_in_order_are_held()
    ensures unbroken { (s : Settings) (deeds : List WriterDeed)
        → breaks (map (λ frame. Came (at 0 None frame)) (frames_of (cadence s deeds))) ≡ [] }
    ensures held { (meta : MetaData) (s : Settings) (turn : WriterTurn) (before : List WriterDeed)
        → HasRowsOf meta (HadTurn turn ∷ before)
        → let answered = cadence s (HadTurn turn ∷ before) in
        let came = map (λ frame. Came (at 0 None frame)) (frames_of answered) in
        option_map (λ h. h.row) (held came) ≡ Some (last_turn is_data answered).row }
{}

/// A legal list is as long as there are patches, and each of its threads is one of those that the patches are of.
pub fn legal_lists_have_a_place_for_each_patch()
    ensures length { (threads : List ℕ) (patches : List (List (List (ℕ × DataValue))))
        → IsLegal threads patches → length threads ≡ sum_by length patches }
    ensures threads { (threads : List ℕ) (patches : List (List (List (ℕ × DataValue))))
        → IsLegal threads patches → All (λ thread. thread < length patches) threads }
{}

/// Where each thread's patches are patches of the meta, the rows of each order of the threads are rows of the meta, and so is
/// the one that they end with; so is that of each version of a history of such rows.
pub fn legal_rows_fit()
    ensures rows { (meta : MetaData) (patches : List (List (List (ℕ × DataValue))))
        (threads : List ℕ)
        → ArePatches meta patches → All (λ row. IsRow meta row)
        (legal_rows meta.fields patches threads) }
    ensures last { (meta : MetaData) (patches : List (List (List (ℕ × DataValue))))
        (threads : List ℕ)
        → ArePatches meta patches → IsRow meta
        (last_row meta.fields (legal_rows meta.fields patches threads)) }
    ensures versions { (meta : MetaData) (history : List Written) (version : ℕ)
        → IsHistory meta history
        → IsRow meta (row_of meta.fields history version) }
{}

/// The history that a list of threads makes with their patches has an entry for each of them: it names the thread, with the row
/// that the thread leaves.
pub fn entries_of_a_legal_history()
    ensures authors { (fields : List Field) (patches : List (List (List (ℕ × DataValue))))
        (later : List ℕ) (thread : ℕ) (before : List ℕ)
        → let history = legal_history fields patches (later ++ thread ∷ before) in
        let rows = legal_rows fields patches (thread ∷ before) in
        slice_get history (length before)
        ≡ Some (record { author = thread; row = last_row fields rows }) }
    ensures length { (fields : List Field) (patches : List (List (List (ℕ × DataValue))))
        (threads : List ℕ)
        → length (legal_history fields patches threads) ≡ length threads }
{}

/// In the history that any list of threads makes with their patches, the row of a version is the row of the version before it
/// with its thread's next patch laid in; and the rows of its versions are the opening row and then those that the threads leave.
pub fn versions_of_a_legal_history()
    ensures patched { (fields : List Field) (patches : List (List (List (ℕ × DataValue))))
        (later : List ℕ) (thread : ℕ) (before : List ℕ)
        → let history = legal_history fields patches (later ++ thread ∷ before) in
        let patch = patch_at patches thread (times_of thread before) in
        row_of fields history (length (thread ∷ before))
        ≡ patched (row_of fields history (length before)) patch }
    ensures rows { (fields : List Field) (patches : List (List (List (ℕ × DataValue))))
        (threads : List ℕ) (version : ℕ)
        → let opening = opening_row fields in
        let rows = opening ∷ reverse (legal_rows fields patches threads) in
        row_of fields (legal_history fields patches threads) version
        ≡ slice_index_or rows version opening }
{}

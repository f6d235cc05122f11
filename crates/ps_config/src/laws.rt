//! Laws of configurations, each the contract of a function that does nothing.
ghost use Rattle.std.specs.Prelude.{◌≡◌, ◌≢◌, ℕ, ◌+◌, ◌<◌, ◌≤◌, ◌^◌, List, length, slice_get, All, Some, None, Ok};
ghost use Rattle.toml.specs.Data.{Members};
ghost use Rattle.dataset_meta.specs.Metas.{MetaData};
ghost use Rattle.config_tables.specs.declared.fault.Fault.{Fault};
ghost use Rattle.config_tables.specs.declared.place.Place.{Place};
ghost use Rattle.config_tables.specs.declared.place.Part.TheVariants.{KeyGroup, Group, ReadGroup};
ghost use Rattle.config_tables.specs.declared.publisher.Publisher.{Publisher};
ghost use Rattle.ps_config.specs.Beginning.{config_beginning};
ghost use Rattle.ps_config.specs.BuiltIn.{built_in_text, built_in_config};
ghost use Rattle.ps_config.specs.Meaning.{IsRefusedBy, IsAccepted};
ghost use Rattle.ps_config.specs.declared.parts.Config.{Config};
ghost use Rattle.ps_config.specs.declared.parts.GroupPart.{GroupPart};
ghost use Rattle.ps_config.specs.declared.parts.WriterPart.{WriterPart};
ghost use Rattle.ps_config.specs.Types.{HasTypes};
ghost use Rattle.ps_config.specs.Fields.{outer_tables};
ghost use Rattle.ps_config.specs.FixedSound.{IsFixedSound};
ghost use Rattle.ps_config.specs.Headers.{signature_len};
ghost use Rattle.ps_config.specs.Layouts.{IsJudgedByLayout, IsReadByLayout};
ghost use Rattle.ps_config.specs.Rings.{IsJudgedByRing};
ghost use Rattle.ps_config.specs.Rooms.{chunk_room, datagrams_in, frame_header, IsRoomy};
ghost use Rattle.ps_config.specs.Reading.{configuration};
ghost use Rattle.ps_config.specs.Refusals.{refusal};
ghost use Rattle.ps_config.specs.Sound.{IsSound};
ghost use Rattle.config_tables.specs.Tables.{Located, tables};

/// Tables are refused exactly by the first of the faults that stands anywhere, at the first table at
/// which it stands, and are not refused exactly where no fault stands anywhere.
pub fn the_first_fault_is_told()
    ensures refused { (ts : List Located) (fault : Fault) (place : Place)
        → refusal ts ≡ Some (fault, place) → IsRefusedBy ts fault place }
    ensures told { (ts : List Located) (fault : Fault) (place : Place)
        → IsRefusedBy ts fault place → refusal ts ≡ Some (fault, place) }
    ensures accepted { (ts : List Located) → refusal ts ≡ None → IsAccepted ts }
    ensures untold { (ts : List Located) → IsAccepted ts → refusal ts ≡ None }
{}

/// KeyOrder stands at exactly those key groups whose keys no ring takes.
pub fn key_orders_are_the_rings()
    ensures { (document : Members)
        → All (IsJudgedByRing (tables document)) (outer_tables KeyGroup (tables document)) }
{}

/// SlotClash, SlotSmall or SlotPast stands in exactly those fixed groups and read groups whose slots
/// no fixed layout takes.
pub fn slots_are_those_of_the_layout()
    ensures writers { (document : Members)
        → All (IsJudgedByLayout (tables document)) (outer_tables Group (tables document)) }
    ensures readers { (document : Members)
        → All (IsReadByLayout (tables document)) (outer_tables ReadGroup (tables document)) }
{}

/// A dynamic group that doesn't lack room has room for one byte in a chunk, and needs at most 1,024 datagrams for a
/// turn. It has room for 12 bytes, a keep-alive's most, beside a header with one writer id and the signature.
pub fn a_group_with_room_has_room_for_a_keep_alive()
    ensures chunk { (publisher : Publisher) (metas : List MetaData) (group : GroupPart)
        → IsRoomy publisher metas group → 1 ≤ chunk_room publisher group }
    ensures turn { (publisher : Publisher) (metas : List MetaData) (group : GroupPart)
        → IsRoomy publisher metas group
        → datagrams_in (chunk_room publisher group) metas group.writer ≤ 1024 }
    ensures frame { (publisher : Publisher) (metas : List MetaData) (group : GroupPart)
        (ids : List ℕ) → IsRoomy publisher metas group → length ids ≡ 2
        → frame_header publisher group ids + 12 + signature_len group.security ≤ group.max_size }
{}

/// Whatever bytes a configuration is accepted from, it is sound.
pub fn an_accepted_configuration_is_sound()
    ensures sound { (bytes : List ℕ) (config : Config) → configuration bytes ≡ Ok config
        → IsSound config }
    ensures fixed { (bytes : List ℕ) (config : Config) → configuration bytes ≡ Ok config
        → IsFixedSound config }
{}

/// The built-in configuration is what its text is read as.
pub fn the_built_in_text_is_read()
    ensures { configuration built_in_text ≡ Ok built_in_config }
{}

/// So it is sound as well.
pub fn the_built_in_configuration_is_sound()
    ensures sound { IsSound built_in_config }
    ensures fixed { IsFixedSound built_in_config }
    ensures types { HasTypes built_in_config }
{}

/// No other group has a group's id, and no writer of another group has a writer's id.
pub fn no_other_group_has_its_ids()
    ensures group { (config : Config) (index other : ℕ) (one part : GroupPart) → IsSound config
        → slice_get config.group index ≡ Some one → slice_get config.group other ≡ Some part
        → other ≢ index → part.id ≢ one.id }
    ensures writers { (config : Config) (index other place : ℕ) (one part : GroupPart)
        (writer : WriterPart) → IsSound config
        → slice_get config.group index ≡ Some one → slice_get config.group other ≡ Some part
        → other ≢ index → slice_get one.writer place ≡ Some writer
        → All (λ another. another.id ≢ writer.id) part.writer }
{}

/// A sound configuration stays sound where a writer begins at another number.
pub fn a_first_number_keeps_a_configuration_sound()
    ensures sound { (group writer first : ℕ) (config : Config) → IsSound config
        → IsSound (config_beginning group writer first config) }
    ensures fixed { (group writer first : ℕ) (config : Config) → IsFixedSound config
        → IsFixedSound (config_beginning group writer first config) }
    ensures types { (group writer first : ℕ) (config : Config) → first < 2 ^ 16 → HasTypes config
        → HasTypes (config_beginning group writer first config) }
{}

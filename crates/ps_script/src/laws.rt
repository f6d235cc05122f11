//! Laws of scripts, each the contract of a function that does nothing.
ghost use Rattle.std.specs.Prelude.{◌≡◌, ◌↔◌, ◌≤◌, ◌<◌, ◌+◌, ◌*◌, ◌++◌, ◌∷◌, [], ℕ, Bool, false, List, length, take, slice_get, All, Some, Ok, Err, IsOk, IfSome, IsTrue};
ghost use Rattle.std.specs.List.{list_any};
ghost use Rattle.ua_values.specs.declared.kind.Kind.{Kind};
ghost use Rattle.ua_values.specs.declared.value.Value.{Value};
ghost use Rattle.dataset_meta.specs.declared.field.Field.{Field};
ghost use Rattle.dataset_meta.specs.Metas.{IsMeta, MetaData, grown};
ghost use Rattle.row_words.specs.declared.patch.Patch.{Patch as PatchValue};
ghost use Rattle.row_words.specs.Patches.{IsPatchOf, patch_in, spelled_patch};
ghost use Rattle.ua_base.specs.declared.link.Fate.{Fate as FateValue};
ghost use Rattle.ps_config.specs.declared.parts.Config.{Config as ConfigValue};
ghost use Rattle.ps_config.specs.declared.parts.GroupPart.{GroupPart};
ghost use Rattle.ps_config.specs.BuiltIn.{built_in_config};
ghost use Rattle.ps_config.specs.Sound.{IsSound};
ghost use Rattle.ps_script.specs.declared.fault.ScriptFault.{ScriptFault as Fault};
ghost use Rattle.ps_script.specs.declared.script.Act.TheVariants as act;
ghost use Rattle.ps_script.specs.declared.script.Line.{Line as LineValue};
ghost use Rattle.ps_script.specs.declared.script.Script.{Script as ScriptValue};
ghost use Rattle.ps_script.specs.Faults.{CanTellOf, has_mute_writer, is_meta};
ghost use Rattle.ps_script.specs.Generated.{generated};
ghost use Rattle.ps_script.specs.Meaning.{IsAccepted, IsRefusedBy};
ghost use Rattle.ps_script.specs.Scripts.{script};
ghost use Rattle.ps_script.specs.Sessions.{is_append, is_write, appends_in, fates_of, gives_fate, meta_behind, metas_behind, moment_after, patches_of, writes_in};
ghost use Rattle.ps_script.specs.Sound.{IsScript, IsSetOf};
ghost use Rattle.ps_script.specs.Spelled.{value_spelled};
ghost use Rattle.ps_script.specs.Values.{IsValueIn, ValueReader};

use row_words::{equal_patches_have_one_meaning, patched_words_belong, patches_have_words};

/// The test for fields that make a meta is right.
pub fn fields_make_a_meta_exactly_by_the_test()
    ensures { (fields : List Field) → IsTrue (is_meta fields) ↔ IsMeta fields }
{}

/// A patch is the mask and the words of what it stands for.
pub fn a_patch_is_the_words_of_what_it_stands_for()
    ensures { (meta : MetaData) (patch : PatchValue) → IsMeta meta.fields → IsPatchOf meta patch
        → patch ≡ spelled_patch meta.fields (patch_in meta.fields patch) }
{
    patched_words_belong();
    patches_have_words();
    equal_patches_have_one_meaning();
}

/// There is a function that tells what each word says, `value_spelled`, and no other.
pub fn there_is_one_reader_of_values()
    ensures found { (kind : Kind) (cap : ℕ) (word : List ℕ)
        → IfSome (value_spelled kind cap word) (IsValueIn kind cap word) }
    ensures every { (kind : Kind) (cap : ℕ) (word : List ℕ) (value : Value)
        → IsValueIn kind cap word value → value_spelled kind cap word ≡ Some value }
    ensures reader { ValueReader }
    ensures alone { (reader : ValueReader) (kind : Kind) (cap : ℕ) (word : List ℕ)
        → reader.read kind cap word ≡ value_spelled kind cap word }
{}

/// Whatever text a script is accepted from, what it names is there and its numbers are within their
/// limits. Where links have no fates, it gives none.
pub fn an_accepted_script_is_sound()
    ensures sound { (reader : ValueReader) (config : ConfigValue) (bytes : List ℕ)
        (takes_fates : Bool) (found : ScriptValue) → IsSound config
        → script reader config bytes takes_fates ≡ Ok found → IsScript config found }
    ensures fateless { (reader : ValueReader) (config : ConfigValue) (bytes : List ℕ)
        (found : ScriptValue) → IsSound config → script reader config bytes false ≡ Ok found
        → fates_of found.lines ≡ [] }
{}

/// A script is refused exactly by the first line at which a fault stands and by the first of that
/// line's faults, and accepted exactly where no fault stands at any line.
pub fn the_first_line_with_a_fault_is_told()
    ensures refused { (reader : ValueReader) (config : ConfigValue) (bytes : List ℕ)
        (takes_fates : Bool) (line : ℕ) (fault : Fault)
        → script reader config bytes takes_fates ≡ Err (line, fault)
        → IsRefusedBy reader config takes_fates bytes line fault }
    ensures told { (reader : ValueReader) (config : ConfigValue) (bytes : List ℕ)
        (takes_fates : Bool) (line : ℕ) (fault : Fault)
        → IsRefusedBy reader config takes_fates bytes line fault
        → script reader config bytes takes_fates ≡ Err (line, fault) }
    ensures accepted { (reader : ValueReader) (config : ConfigValue) (bytes : List ℕ)
        (takes_fates : Bool) (found : ScriptValue)
        → script reader config bytes takes_fates ≡ Ok found
        → IsAccepted reader config takes_fates bytes }
    ensures untold { (reader : ValueReader) (config : ConfigValue) (bytes : List ℕ)
        (takes_fates : Bool) → IsAccepted reader config takes_fates bytes
        → IsOk (script reader config bytes takes_fates) }
{}

/// No group has a writer that can't tell of a new field of a data set exactly where all its writers
/// can.
pub fn writers_can_tell_where_none_is_mute()
    ensures { (set : ℕ) (groups : List GroupPart)
        → (list_any (has_mute_writer set) groups ≡ false) ↔ All (CanTellOf set) groups }
{}

/// What holds of every accepted script holds of generated work, for the built-in configuration.
pub fn generated_work_is_sound()
    ensures { (n : ℕ) → n ≤ 1024 → IsScript built_in_config (generated n) }
{}

/// A data set is the configured one before the first line, and the script's, with all its fields,
/// after the last. Among all data sets after some lines it stands in its place.
pub fn data_sets_begin_as_configured()
    ensures first { (config : ConfigValue) (script : ScriptValue) (set : ℕ)
        (configured full : MetaData) → IsSetOf config script set configured full
        → meta_behind set configured full [] ≡ configured }
    ensures last { (config : ConfigValue) (script : ScriptValue) (set : ℕ)
        (configured full : MetaData) → IsSetOf config script set configured full
        → meta_behind set configured full script.lines ≡ full }
    ensures each { (config : ConfigValue) (script : ScriptValue) (set : ℕ)
        (configured full : MetaData) (lines : List LineValue)
        → IsSetOf config script set configured full
        → slice_get (metas_behind config.dataset script.metas lines) set
        ≡ Some (meta_behind set configured full lines) }
{}

/// A line that appends to a data set gives it one field more, and a minor version that is one
/// higher. No other line changes it.
pub fn data_sets_grow_by_appended_fields_alone()
    ensures there { (config : ConfigValue) (script : ScriptValue) (set k : ℕ)
        (configured full : MetaData) (line : LineValue) → IsSetOf config script set configured full
        → slice_get script.lines k ≡ Some line → line.act ≡ act.Append set
        → length configured.fields + appends_in set (take k script.lines) < length full.fields }
    ensures append { (set k : ℕ) (configured full : MetaData) (lines : List LineValue)
        (line : LineValue) (field : Field) → slice_get lines k ≡ Some line
        → line.act ≡ act.Append set
        → slice_get full.fields (length configured.fields + appends_in set (take k lines))
        ≡ Some field
        → meta_behind set configured full (take (k + 1) lines)
        ≡ grown (meta_behind set configured full (take k lines)) field }
    ensures other { (set k : ℕ) (configured full : MetaData) (lines : List LineValue)
        (line : LineValue) → slice_get lines k ≡ Some line → is_append set line.act ≡ false
        → meta_behind set configured full (take (k + 1) lines)
        ≡ meta_behind set configured full (take k lines) }
{}

/// A thread writes as many patches to a data set as there are such lines, in the order of these, each
/// a patch of the data set with all its fields.
pub fn written_patches_are_of_their_data_set()
    ensures each { (config : ConfigValue) (script : ScriptValue) (thread set : ℕ) (full : MetaData)
        → IsScript config script → slice_get script.metas set ≡ Some full
        → All (IsPatchOf full) (patches_of thread set script.lines) }
    ensures count { (thread set : ℕ) (lines : List LineValue)
        → length (patches_of thread set lines) ≡ writes_in thread set lines }
    ensures write { (thread set at : ℕ) (patch : PatchValue) (lines : List LineValue)
        → patches_of thread set
        (lines ++ record { at = at; act = act.Write thread set patch } ∷ [])
        ≡ patches_of thread set lines ++ patch ∷ [] }
    ensures other { (thread set : ℕ) (lines : List LineValue) (line : LineValue)
        → is_write thread set line.act ≡ false
        → patches_of thread set (lines ++ line ∷ []) ≡ patches_of thread set lines }
{}

/// A line that gives a datagram its fate adds it after those of the lines before. No other line
/// gives any.
pub fn fates_come_in_the_order_of_lines()
    ensures none { fates_of [] ≡ [] }
    ensures fate { (number at : ℕ) (fate : FateValue) (lines : List LineValue)
        → fates_of (lines ++ record { at = at; act = act.Fated number fate } ∷ [])
        ≡ fates_of lines ++ (number, fate) ∷ [] }
    ensures other { (lines : List LineValue) (line : LineValue) → gives_fate line.act ≡ false
        → fates_of (lines ++ line ∷ []) ≡ fates_of lines }
{}

/// Moments don't fall, a tick comes as many milliseconds after the one before as its line says, and
/// a script takes 4,096 hours at most.
pub fn time_rises_by_ticks()
    ensures later { (lines more : List LineValue)
        → moment_after lines ≤ moment_after (lines ++ more) }
    ensures tick { (lines : List LineValue) (at ms : ℕ)
        → moment_after (lines ++ record { at = at; act = act.Tick ms } ∷ [])
        ≡ moment_after lines + ms }
    ensures most { (config : ConfigValue) (script : ScriptValue) → IsScript config script
        → moment_after script.lines ≤ 4096 * 3600000 }
{}

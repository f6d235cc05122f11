//! Lines `write`, judged and read at once. What is amiss with one that isn't read so is reported
//! elsewhere.
ghost use Rattle.std.specs.Prelude.{◌≡◌, ◌<◌, ◌≤◌, true, length, IfSome};
ghost use Rattle.ps_script.specs.Texts.{words_of};
ghost use Rattle.ps_script.specs.Answered.{IsFaultlessWrite};
ghost use Rattle.ps_script.specs.Values.{ValueReader};
ghost use Rattle.ps_script.specs.Writes.{BeginsWrite, GivesPatch, IsEmptyPatch};

use crate::changes::change_of;
use crate::faults::MOST_WRITES;
use crate::laws::a_patch_is_the_words_of_what_it_stands_for;
use crate::names::set_named;
use crate::numbers::number_within;
use crate::past::Past;
use crate::shapes::{has_byte, is_bad_text, is_long};
use crate::texts::first_word;
use crate::verbs::Verb;
use dataset_meta::Meta;
use row_words::Patch;

/// Who writes, and to which data set, by its place.
#[derive(Clone, Copy)]
pub(crate) struct Target {
    pub(crate) thread: u8,
    pub(crate) set: u8,
}

/// What stands in front of the field words of a line `write`.
#[derive(Clone, Copy)]
struct WriteHead<'a> {
    thread: u8,
    /// The place of the data set.
    set: usize,
    /// The line after its third word.
    fields: &'a [u8],
}

/// Whose write the line is, where it is a line `write` without a fault. The empty patch becomes what
/// it writes then, and nothing is said of it otherwise.
pub(crate) fn sound_write(past: &Past, line: &[u8], patch: &mut Patch) -> Option<Target>
    requires few { length past.now.metas.items ≤ 8 }
    requires empty { IsEmptyPatch patch.old }
    ensures sound { IsFaultlessWrite past.now line.now patch.new result }
    ensures few { IfSome result (λ target. past.now.writes < 32768) }
{
    if is_bad_text(line) || is_long(line) || MOST_WRITES <= past.writes {
        return None;
    }
    let head = write_head(&past.metas, line)?;
    if !fill(patch, &past.metas[head.set], head.fields) {
        return None;
    }
    Some(Target {
        thread: head.thread,
        set: head.set as u8,
    })
}

/// The line's head, where it is a line `write` of a thread and a data set that are there.
#[tactic(auto, using(crate::proofs::Heads::begins))]
fn write_head<'a>(metas: &[Meta], line: &'a [u8]) -> Option<WriteHead<'a>>
    ensures { IfSome result (λ head.
        BeginsWrite metas.now line.now head.thread head.set head.fields.now) }
{
    let (verb, behind) = first_word(line)?;
    if Verb::named(verb) != Some(Verb::Write) {
        return None;
    }
    let (thread, behind) = first_word(behind)?;
    let (set, fields) = first_word(behind)?;
    let thread = number_within(thread, 0, 7)?;
    let set = set_named(metas, set)?;
    Some(WriteHead {
        thread: thread as u8,
        set,
        fields,
    })
}

/// Fills the empty patch with what field words give. The answer is whether there are some, and each
/// gives a field of its own a value and a status.
fn fill(patch: &mut Patch, meta: &Meta, fields: &[u8]) -> bool
    requires { IsEmptyPatch patch.old }
    ensures { (reader : ValueReader) → result ≡ true
        → GivesPatch reader meta.now (words_of fields.now) patch.new }
{
    if !has_words(fields) {
        return false;
    }
    let mut taken = [false; 64];
    prove!(!meta.fields().is_empty());
    let mut rest = fields;
    'words: while let Some((word, behind)) = first_word(rest) {
        if !has_byte(word, b'=') {
            return false;
        }
        let Some(change) = change_of(meta, word) else {
            return false;
        };
        let index = usize::from(change.index);
        if taken[index] {
            return false;
        }
        taken[index] = true;
        patch.put(meta, change.index, &change.value, change.status);
        rest = behind;
    }
    a_patch_is_the_words_of_what_it_stands_for();
    true
}

fn has_words(line: &[u8]) -> bool
    ensures { result ≡ true → 0 < length (words_of line.now) }
{
    match first_word(line) {
        Some(_) => true,
        None => false,
    }
}

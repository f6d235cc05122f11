//! What readers keep of the parts of lines.
ghost use Rattle.std.specs.Prelude.{◌≡◌, ◌<◌, true, length, All};
ghost use Rattle.dataset_reader.specs.Reader.{IsReaderOf, kept_by, numbering_of as numbering_by};
ghost use Rattle.frame_codec.specs.Words.{IsFrameOf, frame_in};
ghost use Rattle.json_frames.specs.Parts.{IsPartOf, meta_at, part_in, parts_in};
ghost use Rattle.reader_group.specs.Members.{numbering_of};
ghost use Rattle.json_text.specs.Readers.{is_for, kept_for, kept_on};

use config_tables::NumberingWord;
use dataset_meta::Meta;
use dataset_reader::{Numbering, Reader};
use json_frames::JsonPart;
use ps_config::{Config, ReaderPart};

/// The meta of the reader's data set.
pub(crate) fn meta_of<'a>(config: &'a Config, part: &ReaderPart) -> &'a Meta
    requires { part.now.dataset < length config.now.dataset }
    ensures { result.now ≡ meta_at config.now.dataset part.now.dataset }
{
    &config.dataset.as_slice()[usize::from(part.dataset)]
}

/// A reader to which the frames of the parts came that are of its writer and data set.
pub(crate) fn reader_over(config: &Config, part: &ReaderPart, parts: &[JsonPart]) -> Reader
    requires dataset { part.now.dataset < length config.now.dataset }
    requires parts { All (IsPartOf config.now.dataset) parts.now }
    ensures kept { kept_by (meta_at config.now.dataset part.now.dataset).fields result
        ≡ kept_for config.now (parts_in config.now.dataset parts.now) part.now }
    ensures reader { IsReaderOf (meta_at config.now.dataset part.now.dataset) result }
{
    let meta = meta_of(config, part);
    let mut reader = Reader::new(numbering_of(part.numbering));
    for read in parts {
        hand_on(&mut reader, meta, part, read);
    }
    reader
}

/// Hands the part's frame to the reader, where it is of its writer and data set.
fn hand_on(reader: &mut Reader, meta: &Meta, part: &ReaderPart, read: &JsonPart)
    requires reader { IsReaderOf meta.now reader.old }
    requires frame { is_for part.now read.now.writer read.now.set ≡ true
        → IsFrameOf meta.now read.now.frame }
    ensures kept { kept_by meta.now.fields reader.new
        ≡ kept_on (numbering_by reader.old) meta.now.major (kept_by meta.now.fields reader.old)
        (is_for part.now read.now.writer read.now.set)
        (frame_in meta.now.fields read.now.frame) }
    ensures reader { IsReaderOf meta.now reader.new }
    ensures numbering { numbering_by reader.new ≡ numbering_by reader.old }
{
    if is_for(part, read) {
        reader.frame(meta, &read.frame, None);
    }
}

fn is_for(part: &ReaderPart, read: &JsonPart) -> bool
    ensures { result ≡ is_for part.now read.now.writer read.now.set }
{
    read.writer == part.writer && read.set == part.dataset
}

fn numbering_of(word: NumberingWord) -> Numbering
    ensures { result ≡ numbering_of word }
{
    match word {
        NumberingWord::Message => Numbering::Message,
        NumberingWord::None => Numbering::Unnumbered,
    }
}

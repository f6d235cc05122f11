//! What readers keep of lines, the contract of a function that does nothing.
ghost use Rattle.std.specs.Prelude.{◌≡◌, ℕ, List};
ghost use Rattle.ps_config.specs.declared.parts.Config.{Config};
ghost use Rattle.ps_config.specs.declared.parts.ReaderPart.{ReaderPart};
ghost use Rattle.json_frames.specs.Parts.{Part};
ghost use Rattle.json_tap.specs.Reading.{AreReadAs};
ghost use Rattle.json_tap.specs.Transcoding.{Message, lines_from};
ghost use Rattle.json_text.specs.Reading.{ReadsLines, parts_of};
ghost use Rattle.json_text.specs.Readers.{HasRecords};

use dataset_reader::{
    each_list_has_arrivals, each_list_keeps_records, each_unnumbered_list_keeps_the_last_whole,
};

/// Lines of which each is read as the message that it was written of are read as the parts of these messages, in order, and as no
/// others.
pub fn lines_are_read_as_their_messages()
    ensures { (config : Config) (messages : List Message) (parts : List Part)
        → AreReadAs config 0 messages → ReadsLines config (lines_from config 0 messages) parts
        → parts ≡ parts_of messages }
{}

/// The frames that are read of lines for a reader can be arrivals with near places, and what it keeps of them is what *Records*
/// says of all such.
pub fn readers_keep_records()
    ensures { (config : Config) (lines : List (List ℕ)) (parts : List Part) (reader : ReaderPart)
        → ReadsLines config lines parts → HasRecords config parts reader }
{
    each_list_has_arrivals();
    each_list_keeps_records();
    each_unnumbered_list_keeps_the_last_whole();
}

//! A message that meets the premises of the laws.
ghost use Rattle.std.specs.Prelude.{◌≡◌, [], ◌∷◌, Some};
ghost use Rattle.ps_config.specs.BuiltIn.{built_in_config, built_in_reader};
ghost use Rattle.json_tap.specs.Reading.{AreReadAs};
ghost use Rattle.json_tap.specs.Transcoding.{lines_from, transcoded};
ghost use Rattle.json_text.specs.Reading.{ReadsLines, parts_of};
ghost use Rattle.json_text.specs.Readers.{kept_for};
ghost use Rattle.json_text.specs.Witness.{small_datagram, small_line, small_message, small_row};

use json_frames::{what_is_written_is_read, written_parts_are_read};
use ps_config::the_built_in_configuration_is_sound;

/// A datagram of the built-in configuration, which has one data set, is transcoded to a message, whose line is spelled out here.
/// The line is read as the message, and the lines are read as its parts, so that the premises of each law are met; and the
/// configuration's reader keeps the row of the message's frame.
pub fn a_small_message_meets_the_premises()
    ensures transcoded { transcoded built_in_config small_datagram ≡ Some small_message }
    ensures line { lines_from built_in_config 0 (small_message ∷ []) ≡ small_line ∷ [] }
    ensures read_as { AreReadAs built_in_config 0 (small_message ∷ []) }
    ensures read { ReadsLines built_in_config (small_line ∷ []) (parts_of (small_message ∷ [])) }
    ensures kept { (kept_for built_in_config (parts_of (small_message ∷ [])) built_in_reader).row
        ≡ Some small_row }
{
    the_built_in_configuration_is_sound();
    what_is_written_is_read();
    written_parts_are_read();
}

//! Turns that meet what the laws ask for.
ghost use Rattle.std.specs.Prelude.{◌≡◌, List, Ok, IsSome, length};
ghost use Rattle.ps_config.specs.BuiltIn.{built_in_config, built_in_group, built_in_read_group};
ghost use Rattle.ps_config.specs.Reading.{configuration};
ghost use Rattle.ps_config.specs.Types.{HasTypes};
ghost use Rattle.writer_group.specs.Turns.{GroupDeed, TurnInput};
ghost use Rattle.group_laws.specs.Matching.{IsBuiltInTurn, IsMatchedTo};
ghost use Rattle.group_laws.specs.TurnDelivered.{ComesInFrames, ComesInSlots, answer_for, its_datagrams};
ghost use Rattle.group_laws.specs.Witness.{chunked_course, fixed_course, secured_course, three_config, three_text};

/// The group, the read group and the reader of the built-in configuration are such as these laws speak of.
pub fn the_built_in_groups_are_matched()
    ensures matched { IsMatchedTo built_in_config built_in_read_group 0 built_in_group 0 }
    ensures turn { (past : List GroupDeed) (input : TurnInput) → IsBuiltInTurn past input }
{}

/// A configuration of a signed group, a fixed one and one whose frames are longer than its datagrams, each with a matched read
/// group, is accepted. A first turn of each of its groups meets all that is asked of a turn that a reader takes in order: a
/// signed datagram, one with a slot, and two with the chunks of one frame. At each the writer answers.
pub fn the_premises_of_turns_are_met()
    ensures accepted { configuration three_text ≡ Ok three_config }
    ensures types { HasTypes three_config }
    ensures secured { ComesInFrames secured_course 0 }
    ensures fixed { ComesInSlots fixed_course 0 }
    ensures chunked { ComesInFrames chunked_course 0 }
    ensures one_signed { length (its_datagrams secured_course) ≡ 1 }
    ensures one_slotted { length (its_datagrams fixed_course) ≡ 1 }
    ensures two_chunks { length (its_datagrams chunked_course) ≡ 2 }
    ensures signed_answer { IsSome (answer_for secured_course 0) }
    ensures slotted_answer { IsSome (answer_for fixed_course 0) }
    ensures chunked_answer { IsSome (answer_for chunked_course 0) }
{}

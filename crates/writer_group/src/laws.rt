//! Laws of groups, each the contract of a function that does nothing.
ghost use Rattle.std.specs.Prelude.{◌≡◌, ℕ, List};
ghost use Rattle.pubsub_model.specs.Cadence.{is_fresh};
ghost use Rattle.message_guard.specs.Senders.{SenderState};
ghost use Rattle.ps_config.specs.declared.parts.Config.{Config};
ghost use Rattle.ps_config.specs.declared.parts.GroupPart.{GroupPart};
ghost use Rattle.writer_group.specs.Sharing.{SenderUse, HaveNumbersOfTheirOwn};
ghost use Rattle.writer_group.specs.Standing.{IsDueInTime};
ghost use Rattle.writer_group.specs.Turning.{AnswersFrame, HasWrittenHeaders, KeepsMaxSize, MakesBytes, MakesFewDatagrams, MakesOneOfEach, MakesSome, OfEachTurn, SendsKeyFrames};
ghost use Rattle.writer_group.specs.Turns.{GroupDeed, is_refreshed, writer_past};

/// No two datagrams of groups that share a sender are read with the same token and number. It is so whatever the moments that it
/// turns to and the rings that renew it, and whichever group makes the datagrams of a turn when. Each turn keeps its conditions:
/// the sender has numbers for it, and its headers can be written.
pub fn no_token_and_number_come_twice_in_groups()
    ensures { (s : SenderState) (uses : List SenderUse) → HaveNumbersOfTheirOwn s uses }
{}

/// A writer that was refreshed since its last turn, or had none, sends a key frame at its next one: so each writer of a group does
/// under a new token, where its group refreshes it.
pub fn a_refreshed_writer_sends_a_key_frame()
    ensures exactly { (writer : ℕ) (past : List GroupDeed)
        → is_fresh (writer_past writer past) ≡ is_refreshed writer past }
    ensures whole { (part : GroupPart) (past : List GroupDeed) → SendsKeyFrames part past }
{}

/// No datagram of a turn of a good configuration is longer than its group's MaxNetworkMessageSize, whatever answers its writers
/// have for metas that leave room, and with the signature where the group is secured, by a sender that isn't spent. A class id
/// has 16 bytes by its type.
pub fn no_datagram_is_longer_than_max_size()
    ensures { (config : Config) (index : ℕ) → KeepsMaxSize config index }
{}

/// A turn makes a datagram for each of its payloads, and so one where a writer of the group, which has room for its data sets, has
/// a frame.
pub fn a_turn_with_a_frame_makes_a_datagram()
    ensures count { OfEachTurn MakesOneOfEach }
    ensures some { (config : Config) (part : GroupPart) → MakesSome config part }
{}

/// The headers of a turn's datagrams can be written, in a group of a sound configuration whose numbers are of their types, whatever
/// frames its writers have. They are without a security header, or with that of a sender that can give fronts.
pub fn headers_of_a_turn_can_be_written()
    ensures { OfEachTurn HasWrittenHeaders }
{}

/// What a writer answers with its turn is a frame of its data set, where its rows since its last refresh are of this, with the
/// turn's own, and the versions have 32 bits.
pub fn each_answer_is_a_frame()
    ensures { OfEachTurn (λ config part past input. (writer : ℕ)
        → AnswersFrame part past input writer) }
{}

/// A turn makes at most 1,024 datagrams, where no group lacks room for its data sets' frames and what each writer answers is one.
pub fn a_turn_makes_at_most_1024_datagrams()
    ensures { OfEachTurn MakesFewDatagrams }
{}

/// Each datagram of a turn has at least one byte, its header's first, whether the group is secured or not.
pub fn a_datagram_is_not_empty()
    ensures { OfEachTurn MakesBytes }
{}

/// Turns at the moments that `Group::moment_of` tells leave the next one due in time, however late each of them comes.
pub fn a_late_turn_leaves_the_next_one_due()
    ensures { (part : GroupPart) (past : List GroupDeed) → IsDueInTime part past }
{}

//! Laws of both groups, each the contract of a function that does nothing.
ghost use Rattle.std.specs.Prelude.{◌≡◌, ℕ, []};
ghost use Rattle.message_guard.specs.declared.mode.Mode.{Mode};
ghost use Rattle.message_guard.specs.Senders.{SenderState, turned};
ghost use Rattle.ps_config.specs.declared.parts.Config.{Config};
ghost use Rattle.ps_config.specs.declared.parts.GroupPart.{GroupPart};
ghost use Rattle.ps_config.specs.declared.parts.KeyGroupPart.{KeyGroupPart};
ghost use Rattle.group_laws.specs.Matching.{AllowsGroupTurns, GivesFronts, GivesHeaderTypes, HasItsMeta, HasTheirMajor, MakesItsSenders, ReadsItsWriter};
ghost use Rattle.group_laws.specs.TurnDelivered.{ComesFromOthers, ComesInFrames, ComesInSlots, ComesToDisabled, Course, GetsAnswer, GetsSlot, IsAheadAfter, IsSenderAhead, IsTakenInOrder, StaysAhead, StaysAheadBy, member_after, member_before};
ghost use Rattle.group_laws.specs.Ticking.{AreWriterMetas, IsSampledAt, IsTurnOfFixed, IsTurnOfGroup, Tick, WasGroupTick, WasTick};
ghost use Rattle.group_laws.specs.TurnItems.{AddsItsAnswer, AddsItsItem, AddsNothing};
ghost use Rattle.group_laws.specs.TurnOpened.{AreAsMany, AreNotDynamic, AreNotOurs, AreTakenAsSent, HaveNothingForOthers};
ghost use Rattle.group_laws.specs.TurnPieces.{HaveItsFrames, HaveItsSlot, HaveNothingOfOthers};
ghost use Rattle.group_laws.specs.TurnReading.{HavePartsInFrames, HavePartsInSlots, IsReadInFrames, IsReadInSlots};

/// What a group of a configuration sends in a turn, taken in order by a matched read group, gives an enabled reader of a writer of
/// the group what this writer answered, once. A token that is raised cuts the reader first. Then it is given the frame: whole,
/// joined of its chunks or out of its slot, and cut to the reader's fields if fields were appended to the writer's data set since.
/// Where the writer answered nothing the reader is left as it was, and in a fixed layout the zeros in its slot are a bad part. A
/// reader of a writer of another group, and a disabled one, are cut at most. It is so in each layout and security mode, whatever
/// the read group went through before, if it accepted nothing that the sender is still to send. Where the frame comes in chunks,
/// the reader must not be joining chunks of a message that isn't older. Then it has accepted nothing that the sender is to send
/// after the turn. Nothing is said here where a datagram is lost: `each_part_is_of_what_was_answered` is for that.
pub fn what_a_turn_sends_is_what_a_reader_is_given()
    ensures dynamic { (c : Course) (writer : ℕ) → ComesInFrames c writer → GetsAnswer c writer }
    ensures fixed { (c : Course) (writer : ℕ) → ComesInSlots c writer → GetsSlot c writer }
    ensures others { (c : Course) → ComesFromOthers c → member_after c ≡ member_before c }
    ensures disabled { (c : Course) → ComesToDisabled c → member_after c ≡ member_before c }
    ensures ahead { (c : Course) → IsTakenInOrder c → IsAheadAfter c }
{}

/// A sender is ahead of a read group that accepted nothing, and stays ahead of one where it goes over to the keys of a moment,
/// and where other groups that share it send with it.
pub fn a_sender_stays_ahead()
    ensures opening { (s : SenderState) → IsSenderAhead [] s }
    ensures turned { (now : ℕ) (s : SenderState) → StaysAhead s (turned s now) }
    ensures shared { (mode : Mode) (s : SenderState) → StaysAheadBy mode s }
{}

/// Whatever it accepted before, a matched read group opens each datagram of a turn to just what its group had for it, where
/// it accepts its token and number, and else refuses it for these, and for nothing else. Without security it takes each.
pub fn each_datagram_is_taken_as_it_was_sent()
    ensures taken { (config : Config) → AreTakenAsSent config }
    ensures many { (config : Config) → AreAsMany config }
{}

/// What the datagrams of a turn of a dynamic group have for the reader of a writer is what that writer answered: its frame,
/// or all the chunks of it in order, or nothing.
pub fn a_dynamic_turn_has_its_writers_frames()
    ensures { (config : Config) → HaveItsFrames config }
{}

/// A reader that takes all datagrams of a turn of a dynamic group, in order, is given once what its writer answered, whole or
/// joined from its chunks, and no part of them is bad. Where the frame comes in chunks, this holds if the reader joins no
/// chunks of a message that isn't older. Where the writer answered nothing the reader is left as it was.
pub fn a_dynamic_turn_is_read_as_it_was_answered()
    ensures { (config : Config) → IsReadInFrames config }
{}

/// What the datagram of a turn of a fixed group has for the reader of a writer is what stands in that writer's slot: its
/// frame with zeros after it, or zeros.
pub fn a_fixed_turn_has_its_writers_slot()
    ensures { (config : Config) → HaveItsSlot config }
{}

/// A reader that takes the datagram of a turn of a fixed group is given the key frame that its writer answered. Where the
/// writer had no turn the reader is left as it was, and the zeros in its slot are a bad part.
pub fn a_fixed_turn_is_read_as_it_was_answered()
    ensures { (config : Config) → IsReadInSlots config }
{}

/// Whichever datagrams of a turn come, and in whichever order, each part of one for the reader of a writer is read as what this
/// writer answered at the turn. It is read as the frame, or as a chunk of the one message of this frame. A chunk stands under
/// the message's number, and no Alive has chunks. A slot of a writer that had no turn is read as no frame.
pub fn each_part_is_of_what_was_answered()
    ensures dynamic { (config : Config) → HavePartsInFrames config }
    ensures fixed { (config : Config) → HavePartsInSlots config }
{}

/// A turn of a dynamic group has nothing for the reader of a writer that isn't of the group.
pub fn a_dynamic_turn_has_nothing_for_readers_of_other_writers()
    ensures { (config : Config) → HaveNothingOfOthers config }
{}

/// A part of what a writer answered at a turn adds its answer to the list of a reader, cut to the reader's fields. It stands at
/// its place if the reader goes by numbers and takes this number for its place. Else it stands without one, where a delta frame
/// comes to nothing. A chunk adds itself where it counts, and the answer where the message is whole with it, if the chunks that
/// stand at its place are of the same message. A jump may cut before the answer. The slot of a writer that had no turn adds
/// nothing.
pub fn a_part_adds_the_item_of_its_answer()
    ensures answered { (group : GroupPart) → AddsItsAnswer group }
    ensures whole { (group : GroupPart) → AddsItsItem group }
    ensures quiet { (group : GroupPart) → AddsNothing group }
{}

/// Whichever read group gets a datagram of a turn, and whichever keys it has, three things hold. A read group that asks for
/// another group by its id refuses it. One of a dynamic layout refuses it if the group is fixed. If the group is dynamic too, what
/// is opened of it has nothing for the reader of a writer that isn't of the group. Of a read group of a fixed layout that asks for
/// any group nothing is said: it takes whatever it can open.
pub fn a_datagram_has_nothing_for_readers_of_other_groups()
    ensures named { (config : Config) → AreNotOurs config }
    ensures fixed { (config : Config) → AreNotDynamic config }
    ensures dynamic { (config : Config) → HaveNothingForOthers config }
{}

/// A sender that was made of the ring of a key group, and has the keys of whichever moment, is a sender of that key group.
pub fn a_ring_makes_senders_of_its_key_group()
    ensures { (ring : KeyGroupPart) → MakesItsSenders ring }
{}

/// The reader of a read group that is matched to a writer reads that writer, and has the meta that the writer's data set has in
/// the configuration. A meta that a writer's frames can be read with has the major version that they have.
pub fn a_matched_reader_reads_its_writer()
    ensures reads { (config : Config) → ReadsItsWriter config }
    ensures meta { (config : Config) → HasItsMeta config }
    ensures major { (group : GroupPart) → HasTheirMajor group }
{}

/// A turn of a group of a configuration that was read, with numbers left for its datagrams, is one that these laws speak of. That
/// its headers can be written follows from the types of the configuration's fields, whichever sender of its key group it has.
pub fn an_allowed_turn_is_a_group_turn()
    ensures turn { (config : Config) → AllowsGroupTurns config }
    ensures headers { (config : Config) → GivesHeaderTypes config }
    ensures fronts { (ring : KeyGroupPart) → GivesFronts ring }
{}

/// A turn that `Group::tick` had, of a group of an accepted configuration whose sender is one of its key group, is one that these
/// laws speak of, after whatever deeds the call is seen.
pub fn a_turn_of_tick_is_a_group_turn()
    ensures { (t : Tick) → WasGroupTick t → IsTurnOfGroup t }
{}

/// A turn that `Group::tick` had, where the metas of the group's writers are metas, is one that the laws of fixed layouts speak of,
/// and what each writer answers at it is a frame of its data set.
pub fn a_turn_of_tick_is_a_fixed_turn()
    ensures fixed { (t : Tick) → WasTick t → AreWriterMetas t → IsTurnOfFixed t }
    ensures sampled { (t : Tick) (writer : ℕ) → WasTick t → IsSampledAt t writer }
{}

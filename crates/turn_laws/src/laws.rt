//! Laws of a key group's sender, each the contract of a function that does nothing.
ghost use Rattle.std.specs.Prelude.{◌≡◌, ◌<◌, ℕ, List, length, true};
ghost use Rattle.message_guard.specs.Modes.{is_secured};
ghost use Rattle.seq_number.specs.Numbers.{number_of_place, place_from};
ghost use Rattle.ps_config.specs.declared.parts.Config.{Config};
ghost use Rattle.ps_config.specs.declared.parts.GroupPart.{GroupPart};
ghost use Rattle.ps_config.specs.declared.parts.ReadGroupPart.{ReadGroupPart};
ghost use Rattle.ps_config.specs.Sound.{IsSound};
ghost use Rattle.reader_group.specs.Agreeing.{IsWayOf, RiseTogether, SendsRise};
ghost use Rattle.reader_group.specs.Plain.{Event, Setting};
ghost use Rattle.reader_group.specs.Settings.{setting_by, setting_of};
ghost use Rattle.writer_group.specs.Parts.{group_at};
ghost use Rattle.writer_group.specs.Turns.{GroupDeed};
ghost use Rattle.group_laws.specs.Matching.{IsMatchedTo};
ghost use Rattle.session_model.specs.Deeds.{Deed, deeds};
ghost use Rattle.session_model.specs.Keeping.{AreStepsOf, IsPlan};
ghost use Rattle.session_model.specs.Events.{events};
ghost use Rattle.session_model.specs.Lives.{Lived, TurnsHoldIn, account_in};
ghost use Rattle.session_model.specs.Sends.{IsRun, journal};
ghost use Rattle.session_model.specs.Steps.{Plan, Step};
ghost use Rattle.session_model.specs.Turns.{TurnsHold};
ghost use Rattle.session_laws.specs.Pasts.{AreTurns, CameAsMade};
ghost use Rattle.session_laws.specs.Reading.{first_number_of};
ghost use Rattle.session_laws.specs.Sessions.{IsHonestFor, pasts_at};
ghost use Rattle.turn_laws.specs.Lives.{ComesFromSenderIn, HasItsRecordsIn, IsHonestIn, IsMadeBySenderIn, IsSignedLife, TakesWhatWasSentIn};
ghost use Rattle.turn_laws.specs.Makers.{AreOwnTurns, ComesFromSender, HasItsRecords, HasOneSender, IsMadeBySender, IsSignedSession, IsSigning, IsWriterUnder, SignedWereMade, Signing, its_setting, its_way, signed_session, signing_of};
ghost use Rattle.turn_laws.specs.Sent.{NamesPlaces, numbered_in, place_near, sends_in};

use reader_group::what_a_secured_group_takes_is_signed;
use session_laws::{signed_readers_have_their_records, what_the_laws_below_say};
use writer_group::no_token_and_number_come_twice_in_groups;

/// Of a group alone, all of whose datagrams are under one token. Over its turns, of however many datagrams each, the numbers of
/// those in which a writer answered rise with the places of its answers. The places rise by at most as much.
pub fn numbers_of_a_group_rise_with_places()
    ensures { (config : Config) (group : GroupPart) (w used : ℕ) (past : List GroupDeed)
        → AreTurns config group past → w < length group.writer
        → RiseTogether (numbered_in group w used past) }
{}

/// So do the numbers that the sender of a key group gives under each token, whichever of the key group's groups have turns in
/// between and whichever moments it comes to. It is so in a session of however many ticks (`session`), in a life with whichever
/// rings (`life`), and after any deeds whose turns are those of the definitions (`any`). Numbers that rise so name the places. In a
/// datagram that was sent, its token and number and the 16 bits of the place tell it (`names`, `numbers`). In a session of fewer
/// than 65,536 ticks the 16 bits alone do, from the writer's first number on (`first`).
pub fn numbers_rise_with_places_over_all_turns()
    ensures session { (p : Plan) (k g w : ℕ) (steps : List Step) → IsPlan p
        → IsWriterUnder p.config k g w → SendsRise (sends_in p.config k g w (deeds p steps)) }
    ensures life { (p : Plan) (k g w : ℕ) (life : List Lived) → IsPlan p
        → IsWriterUnder p.config k g w
        → SendsRise (sends_in p.config k g w (account_in p life).deeds) }
    ensures any { (config : Config) (k g w : ℕ) (list : List Deed) → IsWriterUnder config k g w
        → AreOwnTurns config list → SendsRise (sends_in config k g w list) }
    ensures names { (sent : ℕ → List (ℕ × ℕ)) → SendsRise sent
        → NamesPlaces (place_near sent) sent }
    ensures numbers { (sent : ℕ → List (ℕ × ℕ)) (token number own : ℕ)
        → number_of_place (place_near sent token number own) ≡ number_of_place own }
    ensures first { (most : ℕ) (p : Plan) (k g w : ℕ) (steps : List Step) → IsPlan p
        → IsWriterUnder p.config k g w → AreStepsOf most p steps → most < 65536
        → NamesPlaces (λ token number. place_from (first_number_of p.config g w))
        (sends_in p.config k g w (deeds p steps)) }
{}

/// All that the groups of a key group send is what its own sender makes of their turns, one after another, as it comes to the
/// moments of ticks and whichever rings renew it. Each use is allowed when it comes. They leave the sender where the session's
/// deeds do, with the token and the number that it has then. No token and number come twice. It is so in each session and each life
/// whose turns hold, as those of a script do (`each_turn_of_a_session_holds`, `each_turn_of_a_life_holds`).
pub fn one_sender_makes_what_a_key_group_sends()
    ensures session { (p : Plan) (k : ℕ) (steps : List Step) → IsPlan p → TurnsHold p steps
        → k < length p.config.keygroup → HasOneSender p.config k (deeds p steps) }
    ensures life { (p : Plan) (k : ℕ) (life : List Lived) → IsPlan p → TurnsHoldIn p life
        → k < length p.config.keygroup → HasOneSender p.config k (account_in p life).deeds }
{
    no_token_and_number_come_twice_in_groups();
}

/// A read group is secured that is matched to a group with a key group (`secured`), and what it takes is signed under a key that it
/// has. So where turns made each datagram that came signed, they made each that it took (`made`). Where the link delivers nothing
/// else that is signed so, they made each that came signed (`session`), and the read group takes nothing but what was sent. It is
/// so in a life with whichever rings (`life`), and in a session by `an_honest_link_delivers_what_was_sent`.
pub fn what_is_taken_came_signed()
    ensures secured { (config : Config) (readers : ReadGroupPart) (reader g w k : ℕ) → IsSound config
        → IsWriterUnder config k g w → IsMatchedTo config readers reader (group_at config g) w
        → is_secured (setting_by config readers).setup.mode ≡ true }
    ensures made { (setting : Setting) (config : Config) (pasts : ℕ → List GroupDeed)
        (events : List Event) → is_secured setting.setup.mode ≡ true
        → SignedWereMade setting config pasts events → CameAsMade setting config pasts events }
    ensures session { (p : Plan) (r : ℕ) (steps : List Step) → IsRun p steps
        → IsHonestFor (setting_of p.config r) (journal p steps)
        → SignedWereMade (setting_of p.config r) p.config (pasts_at p steps)
        (events p.config r steps) }
    ensures life { (p : Plan) (r : ℕ) (life : List Lived)
        → is_secured (setting_of p.config r).setup.mode ≡ true
        → IsHonestIn p r life → TakesWhatWasSentIn p r life }
{
    what_a_secured_group_takes_is_signed();
}

/// What a secured read group takes was made by the sender of the key group that it names, under each token with numbers that rise
/// with the places of the messages of a writer. It holds of whatever deeds of a publisher whose turns are those of the definitions,
/// where these made each datagram that the read group takes. So was all that came under a signature of its ring, where they made
/// that (`made`). It is said for a reader that is matched to the writer and goes by numbers, whose 16 bits stand for the places
/// that were sent. Such are those of a session of however many ticks, whose turns hold, and in which the read group takes nothing
/// but what was sent (`session`). So such a reader is what *Arrivals* and *Records* say, however many turns there were, where the
/// places of its chunks are near. No premise is on what a sender made. It is so after any deeds, if besides each cut by hand is a
/// restart and each number stands for a place with its 16 bits (`records`), and in a session, which cuts so alone
/// (`session_records`). Each item that comes to the reader is an answer of the writer, at its place and cut to the reader's fields,
/// however many data frames it sent (`comes`). Of what the read group refuses nothing is asked.
pub fn what_came_signed_was_made_by_its_sender()
    ensures made { (s : Signing) → IsSigning s → IsMadeBySender s }
    ensures session { (most : ℕ) (p : Plan) (r i g w k : ℕ) (steps : List Step)
        (place : ℕ → ℕ → ℕ → ℕ) → NamesPlaces place (sends_in p.config k g w (deeds p steps))
        → IsSignedSession most p r i g w k steps → IsSigning (signing_of p r i g w k steps place) }
    ensures records { (s : Signing) → IsSigning s → IsWayOf (its_setting s) (its_way s) s.events
        → HasItsRecords s }
    ensures comes { (s : Signing) → IsSigning s → ComesFromSender s }
    ensures session_records { (most : ℕ) (p : Plan) (r i g w k : ℕ) (steps : List Step)
        → IsSignedSession most p r i g w k steps
        → HasItsRecords (signed_session p r i g w k steps) }
{
    what_the_laws_below_say();
    signed_readers_have_their_records();
}

/// So in a life, in which rings renew a key group's sender and the read groups that share its keys, at any moments and however
/// many. Where a read group takes nothing but what was sent, this was made by that sender. So was all that came under a signature
/// of the ring that the read group has then, where the link delivers nothing else that is signed so (`made`). A reader that is
/// matched to a writer and goes by numbers is what *Arrivals* and *Records* say, each datagram read with the keys of its time,
/// where the places of its chunks are near (`records`). Each item that comes to it is an answer of the writer, at its place
/// (`comes`). The rings for that key group owe that a token has the same keys in each of them, its configuration's among them, and
/// that these are as long as its policy says. That the tokens of all rings have 32 bits `each_turn_of_a_life_holds` asks for its
/// turns.
pub fn what_came_signed_in_a_life_was_made_by_its_sender()
    ensures made { (most : ℕ) (p : Plan) (r i g w k : ℕ) (life : List Lived)
        → IsSignedLife most p r i g w k life → IsMadeBySenderIn p r i g w k life }
    ensures records { (most : ℕ) (p : Plan) (r i g w k : ℕ) (life : List Lived)
        → IsSignedLife most p r i g w k life → HasItsRecordsIn p r i g w k life }
    ensures comes { (most : ℕ) (p : Plan) (r i g w k : ℕ) (life : List Lived)
        → IsSignedLife most p r i g w k life → ComesFromSenderIn p r i g w k life }
{
    what_the_laws_below_say();
    signed_readers_have_their_records();
}

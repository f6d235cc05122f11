//! Lives of two devices, which meet the premises of their laws.
ghost use Rattle.std.specs.Prelude.{◌≡◌, ◌<◌, ℕ, List, Some, length};
ghost use Rattle.reader_group.specs.Settings.{group_at as read_group_at};
ghost use Rattle.writer_group.specs.Parts.{group_at};
ghost use Rattle.group_laws.specs.Matching.{IsMatchedTo};
ghost use Rattle.device_laws.specs.Larger.{IsRenewedRun, MeetsRenewed, MeetsSecured};
ghost use Rattle.device_laws.specs.Small.{IsSmallRun, MeetsPremises};

/// Two devices are opened with one text, and a field is set. The publisher comes to a moment that brings it a datagram, and this
/// comes to a read group. For each reader of it that the configuration matches to a writer these calls are two lives that meet
/// the premises of the laws, by the clauses of the calls alone, and whatever the read group answers.
pub fn a_small_life_meets_the_premises()
    ensures { (text : List ℕ) (r i g w : ℕ) (run : IsSmallRun text r)
        → g < length run.first.config.group → r < length run.reads.config.readgroup
        → IsMatchedTo run.first.config (read_group_at run.first.config r) i
        (group_at run.first.config g) w
        → MeetsPremises text r i g w run }
{}

/// Such calls are two lives that meet the premises of the laws of secured readers too, where a key group secures the group.
pub fn a_small_secured_life_meets_the_premises()
    ensures { (text : List ℕ) (r i g w k : ℕ) (run : IsSmallRun text r)
        → g < length run.first.config.group → r < length run.reads.config.readgroup
        → IsMatchedTo run.first.config (read_group_at run.first.config r) i
        (group_at run.first.config g) w
        → (group_at run.first.config g).keygroup ≡ Some k → MeetsSecured text r i g w k run }
{}

/// In a longer life both devices are renewed with a ring, and the publisher's first datagram is lost. The next one comes to the read
/// group. Before it came the reader waits for a first key frame. These calls are lives that meet the premises of the laws of secured
/// readers, before the datagram and after it.
pub fn a_renewed_life_with_a_loss_meets_the_premises()
    ensures { (text : List ℕ) (r i g w k : ℕ) (run : IsRenewedRun text r k)
        → g < length run.first.config.group → r < length run.reads.config.readgroup
        → IsMatchedTo run.first.config (read_group_at run.first.config r) i
        (group_at run.first.config g) w
        → (group_at run.first.config g).keygroup ≡ Some k → MeetsRenewed text r i g w k run }
{}

//! How a reader's run of frames breaks, and why a reader holds nothing.
use std::fmt;

/// Why a reader holds no row.
#[derive(Clone, Copy, Debug, PartialEq, Eq)]
pub enum Why {
    /// No key frame has come yet.
    Start,
    /// A message number is missing.
    Gap,
    /// The receive timeout passed.
    Timeout,
    /// The publisher turned to a new security token.
    NewToken,
    /// The message nonce jumped.
    Jump,
    /// The reader, or a component above it, was disabled.
    Restarted,
}

impl Why {
    ghost use Rattle.std.specs.Prelude.{◌≡◌};
    ghost use Rattle.pubsub_model.specs.WhyWords.{why_word};

    /// The word of a report.
    #[tactic(auto, unfolding(crate::specs::WhyWords::why_word))]
    pub fn word(self) -> &'static str
        ensures { result.now ≡ why_word self }
    {
        match self {
            Why::Start => "start",
            Why::Gap => "gap",
            Why::Timeout => "timeout",
            Why::NewToken => "newtoken",
            Why::Jump => "jump",
            Why::Restarted => "restarted",
        }
    }
}

/// The word of a report.
impl fmt::Display for Why {
    ghost use Rattle.std.specs.Prelude.{Some};
    ghost use Rattle.pubsub_model.specs.WhyWords.{why_word};

    ghost output = { λ why. Some (why_word why) };

    fn fmt<W: fmt::Write>(&self, f: &mut fmt::Formatter<W>) -> fmt::Result {
        f.write_str(self.word())
    }
}

/// A place where the run of message numbers broke: the number that was due, and the one that came.
#[derive(Clone, Copy, Debug, Default, PartialEq, Eq)]
pub struct Break {
    pub expected: u16,
    pub got: u16,
}

//! Why a reader waits.
use crate::fault::LineFault;
use crate::tables::named;
use pubsub_model::Why;

static REASONS: [(&str, Why); 6] = [
    ("start", Why::Start),
    ("gap", Why::Gap),
    ("timeout", Why::Timeout),
    ("newtoken", Why::NewToken),
    ("jump", Why::Jump),
    ("restarted", Why::Restarted),
];

/// The reason with this word.
pub fn why_of(word: &str) -> Result<Why, LineFault> {
    named(&REASONS, word).ok_or(LineFault::Missing)
}

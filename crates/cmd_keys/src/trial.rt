//! What passed between a key service and a puller.
use crate::refusal::Refusal;
use arrayvec::ArrayVec;
use key_service::Keys;

/// A datagram that was protected under a key of the service, and what the puller's guard found in it.
#[derive(Default, Drop)]
pub struct Trial {
    /// The key's token.
    pub token: u32,
    /// The datagram.
    pub sent: ArrayVec<u8, 64>,
    /// What the guard decrypted between its header and its signature; none where the guard refused it.
    pub found: Option<ArrayVec<u8, 64>>,
}

/// What passed where keys were answered: request and reply in bytes, what a puller read in the reply, and what it tried of it.
#[derive(Drop)]
pub struct Exchange {
    /// The bytes of the request.
    pub request: ArrayVec<u8, 44>,
    /// The bytes of the reply.
    pub reply: ArrayVec<u8, 1197>,
    /// The keys that are read there, with the puller's moments.
    pub read: Keys,
    /// With START 0 one trial for each key of the answer; with another START none, since no ring is made of such an answer.
    pub trials: Option<ArrayVec<Trial, 16>>,
}

/// What passed where no keys were answered: the request in bytes. A refusal has none.
#[derive(Drop)]
pub struct Refused {
    /// The bytes of the request; none where GROUP is no name, so that no request asks for it.
    pub request: Option<ArrayVec<u8, 44>>,
    pub refusal: Refusal,
}

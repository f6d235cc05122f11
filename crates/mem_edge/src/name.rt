//! Names of files.
ghost use Rattle.std.specs.Prelude.{◌≡◌, ◌↔◌, ℕ, List, IsSome, IfSome};
ghost use Rattle.mem_edge.specs.Names.{IsName};

use arrayvec::ArrayVec;
use std::marker::Model;
use std::str;

/// A text of at most 255 bytes, held in place.
#[derive(Drop)]
pub struct Name {
    bytes: ArrayVec<u8, 255>,
}

impl Model for Name {
    ghost Value = { List ℕ };

    ghost view = { λ n. n.bytes.items };

    ghost invariant = { λ n. IsName n.bytes.items };
}

impl Name {
    pub fn new(bytes: &[u8]) -> Option<Name>
        ensures valid { IsSome result ↔ IsName bytes.now }
        ensures value { IfSome result (λ name. name ≡ bytes.now) }
    {
        let Ok(_) = str::from_utf8(bytes) else {
            return None;
        };
        let mut held = ArrayVec::new();
        let Ok(()) = held.try_extend_from_slice(bytes) else {
            return None;
        };
        Some(Name { bytes: held })
    }

    pub fn as_bytes(&self) -> &[u8]
        ensures value { result.now ≡ self.now }
        ensures valid { IsName result.now }
    {
        &self.bytes
    }
}

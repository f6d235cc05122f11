//! What headers begin with, as bytes.
ghost use Rattle.std.specs.Prelude.{◌≡◌, ◌≤◌};

/// As long as a header without security is at most, in front of a message of one writer.
pub(crate) const LEAD_BYTES: usize = 320;

/// What a header without security begins with, up to its GroupVersion.
#[derive(Drop)]
pub(crate) struct Lead {
    pub bytes: [u8; LEAD_BYTES],
    pub len: usize,
    ghost within: { len ≤ 320 },
}

impl Lead {
    ghost use Rattle.writer_group.specs.Leads.{lead_text};

    /// Its bytes.
    #[inline(always)]
    pub fn text(&self) -> &[u8]
        ensures { result.now ≡ lead_text self.now }
    {
        &self.bytes[..self.len]
    }
}

//! Links of which calls fail.
use crate::injected::Injected;
use case_lines::LineFault;
use mem_edge::MemoryLink;
use std::alloc::Global;

/// The calls of a link that fail.
#[derive(Drop)]
pub(crate) struct Failing {
    /// Each opening.
    pub(crate) opens: bool,
    /// The numbers of the sends.
    pub(crate) sends: Vec<u64>,
    /// The numbers of the receives.
    pub(crate) receives: Vec<u64>,
}

impl Failing {
    /// None.
    pub(crate) fn new(alloc: Global) -> Failing {
        Failing {
            opens: false,
            sends: Vec::new(alloc),
            receives: Vec::new(alloc),
        }
    }

    /// A link of which these calls fail, and to which these datagrams come.
    pub(crate) fn link(self, alloc: Global, injected: Injected) -> MemoryLink {
        let Failing {
            opens,
            sends,
            receives,
        } = self;
        MemoryLink::new(alloc, injected.datagrams, sends, receives, opens)
    }

    /// The same once more.
    pub(crate) fn again(&self, alloc: Global) -> Result<Failing, LineFault> {
        Ok(Failing {
            opens: self.opens,
            sends: Vec::from_slice(alloc, &self.sends)?,
            receives: Vec::from_slice(alloc, &self.receives)?,
        })
    }
}

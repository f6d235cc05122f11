//! Cases.
use crate::configurations::configuration;
use ps_config::Config;
use std::alloc::Global;

/// The datagrams that are sent, and the numbers of those whose send fails.
#[derive(Drop)]
pub struct Case {
    pub config: Config,
    pub datagrams: Vec<Vec<u8>>,
    pub fails: Vec<u64>,
}

impl Case {
    /// The case of a line.
    pub fn read(alloc: Global, text: &str) -> Option<Case> {
        let mut words = text.split_whitespace();
        let Some(name) = words.next() else {
            return None;
        };
        let Some(config) = configuration(alloc, name) else {
            return None;
        };
        let mut case = Case {
            config,
            datagrams: Vec::new(alloc),
            fails: Vec::new(alloc),
        };
        for word in words {
            if !case.add(alloc, word) {
                return None;
            }
        }
        Some(case)
    }

    /// One datagram more, where the word is one and memory is there.
    fn add(&mut self, alloc: Global, word: &str) -> bool {
        match word.strip_prefix('!') {
            Some(digits) => self.add_failing() && self.add_bytes(alloc, digits),
            None => self.add_bytes(alloc, word),
        }
    }

    /// The send of the next datagram fails.
    fn add_failing(&mut self) -> bool {
        let number = self.datagrams.len() as u64;
        self.fails.push(number).is_ok()
    }

    fn add_bytes(&mut self, alloc: Global, digits: &str) -> bool {
        match hex::decode(alloc, digits) {
            Ok(bytes) => self.datagrams.push(bytes).is_ok(),
            Err(_) => false,
        }
    }
}

//! A maker of two datagrams a turn.
use crate::counts::Counts;
use group_threads::Maker;

/// The work of all lanes, and how often each lane had each turn.
#[derive(Drop)]
pub struct Work {
    pub turns: u8,
    pub had: Counts,
}

/// Turn k of its group makes the datagrams of the bytes group, k, 0 and group, k, 1.
#[derive(Drop)]
pub struct Few {
    pub group: u8,
    pub first: [u8; 3],
    pub second: [u8; 3],
}

impl Few {
    pub fn new(group: u8) -> Few {
        Few {
            group,
            first: [0; 3],
            second: [0; 3],
        }
    }
}

impl Maker<Work> for Few {
    ghost use Rattle.std.specs.Prelude.{⊤};
    ghost use Rattle.test_threads.specs.Few.{made_by};

    ghost turn_count = { λ work. work.turns };

    ghost made = { made_by };

    ghost has_made = { λ few. ⊤ };

    ghost may_turn = { λ work number few. ⊤ };

    ghost turns = { λ work number old new. ⊤ };

    fn turn(&mut self, work: &Work, number: u32) {
        let _turns = work.turns;
        let k = number as u8;
        let group = self.group;
        work.had.add(u32::from(group), number);
        self.first = [group, k, 0];
        self.second = [group, k, 1];
    }

    fn count(&self) -> u32 {
        2
    }

    fn group(&self, _: u32) -> u8 {
        self.group
    }

    fn datagram(&self, index: u32) -> &[u8] {
        if index == 0 {
            &self.first
        } else {
            &self.second
        }
    }
}

//! The subscriber's side.
ghost use Rattle.std.specs.Prelude.{◌<◌, IfOk, length};
ghost use Rattle.ps_config.specs.Sound.{IsSound};
ghost use Rattle.reader_group.specs.Groups.{IsMadeOf};
ghost use Rattle.bench_soak.specs.Sides.{IsSubscriber};

use crate::configuration::WRITERS;
use crate::fault::Fault;
use crate::keys::ring_at;
use ps_config::Config;
use reader_group::ReaderGroup;
use std::alloc::Global;
use writer_group::Sampled;

/// No datagram of the group is longer.
const LONGEST: usize = 2_048;

/// The configuration's first read group, with a buffer for its datagrams. All readers are enabled.
#[derive(Drop)]
pub struct Subscriber {
    group: ReaderGroup,
    on: [bool; WRITERS],
    buffer: Vec<u8>,
    // the number of each reader's last message
    numbers: [u16; WRITERS],
    /// How many datagrams were taken.
    pub datagrams: u64,
    /// How often a reader's row was compared with the one that was written.
    pub rows: u64,
    /// How often the number of a reader's messages began anew.
    pub wraps: u64,
}

impl Subscriber {
    pub fn new(alloc: Global, config: &Config) -> Result<Subscriber, Fault>
        requires sound { IsSound config.now }
        requires group { 0 < length config.now.readgroup }
        ensures { IfOk result (IsSubscriber config.now) }
    {
        let mut group = ReaderGroup::new(alloc, config, 0)?;
        group.renew(ring_at(0)?);
        Ok(Subscriber {
            group,
            on: [true; WRITERS],
            buffer: vec![in alloc; 0u8; LONGEST]?,
            numbers: [0; WRITERS],
            datagrams: 0,
            rows: 0,
            wraps: 0,
        })
    }

    /// Goes on with the ring of this moment.
    pub fn renew(&mut self, _config: &Config, moment: u64) -> Result<(), Fault>
        requires { IsSubscriber _config.now self.old }
        ensures { IsSubscriber _config.now self.new }
    {
        self.group.renew(ring_at(moment)?);
        Ok(())
    }

    /// A datagram of the turn with this number comes.
    pub fn datagram(
        &mut self,
        config: &Config,
        turn: u64,
        moment: u64,
        datagram: &[u8],
    ) -> Result<(), Fault>
        requires { IsSubscriber config.now self.old }
        ensures { IsSubscriber config.now self.new }
    {
        let length = datagram.len();
        if length > self.buffer.len() {
            return Err(Fault::Long { turn });
        }
        if usize::from(self.group.count()) != WRITERS {
            return Err(Fault::Unlike);
        }
        let bytes = &mut self.buffer[..length];
        bytes.copy_from_slice(datagram);
        match self.group.datagram(config, moment, &self.on, bytes) {
            Err(refusal) => Err(Fault::Refused { turn, refusal }),
            Ok(taken) if taken.bad > 0 || taken.matched < taken.parts => {
                Err(Fault::Unread { turn })
            }
            Ok(_) => {
                self.datagrams = self.datagrams.saturating_add(1);
                Ok(())
            }
        }
    }

    /// Lets the readers' timers run to this moment, and compares the row that each reader holds with the one that its writer was
    /// given at the turn with this number.
    pub fn compare(
        &mut self,
        config: &Config,
        turn: u64,
        moment: u64,
        rows: &[Sampled; WRITERS],
    ) -> Result<(), Fault>
        requires { IsSubscriber config.now self.old }
        ensures { IsSubscriber config.now self.new }
    {
        self.group.expire(moment);
        for index in 0..WRITERS {
            self.compare_one(config, turn, index as u8, &rows[index])?;
        }
        Ok(())
    }

    fn compare_one(
        &mut self,
        _config: &Config,
        turn: u64,
        index: u8,
        sampled: &Sampled,
    ) -> Result<(), Fault>
        requires subscriber { IsSubscriber _config.now self.old }
        requires index { index < 4 }
        ensures { IsSubscriber _config.now self.new }
    {
        if index >= self.group.count() {
            return Err(Fault::Unlike);
        }
        let reader = self.group.reader(index);
        let (Some(row), Some(number)) = (reader.row(), reader.number()) else {
            return Err(Fault::Differs {
                turn,
                reader: index,
            });
        };
        if *row != sampled.row {
            return Err(Fault::Differs {
                turn,
                reader: index,
            });
        }
        let last = &mut self.numbers[usize::from(index)];
        if number < *last {
            self.wraps = self.wraps.saturating_add(1);
        }
        *last = number;
        self.rows = self.rows.saturating_add(1);
        Ok(())
    }
}

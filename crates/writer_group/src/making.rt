//! Making the datagrams of a turn that was planned.
ghost use Rattle.std.specs.Prelude.{◌≡◌, ◌≤◌, [], length, vec_capacity, None, Some};
ghost use Rattle.ps_config.specs.Headers.{mode_of};
ghost use Rattle.writer_group.specs.Making.{IsFilled, IsPosted, MayFill, MayMake};
ghost use Rattle.writer_group.specs.Sealing.{advanced_by};

use crate::datagrams::Datagrams;
use crate::group::Group;
use crate::header_parts::HeaderParts;
use crate::laying::Cargo;
use crate::load::Load;
use crate::posting::{Range, post_open, post_secured};
use crate::spelled::Frames;
use message_guard::Sender;
use ps_config::{Config, GroupPart, mode_of};

impl Group {
    /// Makes the datagrams that were planned, without security.
    pub(crate) fn post(&self, config: &Config, group: &GroupPart, out: &mut Datagrams)
        requires { MayMake config.now group.now None self.now out.old }
        ensures { IsPosted config.now group.now None self.now out.old out.new }
    {
        self.make(
            config,
            group,
            &out.spelled,
            &out.frames,
            &out.loads,
            &mut out.bytes,
            &mut out.ranges,
        );
    }

    /// Makes the datagrams that were planned, each protected under the sender's next number.
    pub(crate) fn post_sealed(
        &self,
        config: &Config,
        group: &GroupPart,
        sender: &mut Sender,
        out: &mut Datagrams,
    )
        requires { MayMake config.now group.now (Some sender.old) self.now out.old }
        ensures posted { IsPosted config.now group.now (Some sender.old) self.now out.old out.new }
        ensures sender { sender.new
            ≡ advanced_by (mode_of group.now.security) sender.old (length out.old.loads.items) }
    {
        self.make_sealed(
            config,
            group,
            sender,
            &out.spelled,
            &out.frames,
            &out.loads,
            &mut out.bytes,
            &mut out.ranges,
        );
    }

    /// Makes the datagrams of these loads, of the frames that stand in these bytes.
    fn make(
        &self,
        config: &Config,
        group: &GroupPart,
        bytes: &[u8],
        frames: &Frames,
        loads: &[Load],
        free: &mut [u8],
        ranges: &mut Vec<Range>,
    )
        requires may { MayFill config.now group.now None self.now bytes.now free.old frames.now
            loads.now }
        requires empty { ranges.old.items ≡ [] }
        requires left { length loads.now ≤ vec_capacity ranges.old }
        ensures filled { IsFilled config.now group.now None self.now bytes.now free.old frames.now
            loads.now free.new ranges.new.items }
        ensures capacity { vec_capacity ranges.old ≤ vec_capacity ranges.new }
    {
        if loads.is_empty() {
            return;
        }
        let parts = HeaderParts::new(&config.publisher.id, group, self.made);
        let cargo = Cargo {
            bytes,
            frames,
            room: self.rooms.chunk,
            slots: &self.slots,
            leads: &self.leads,
        };
        post_open(&parts, &cargo, loads, free, ranges);
    }

    /// Makes the datagrams of these loads, of the frames that stand in these bytes, each protected by the sender.
    fn make_sealed(
        &self,
        config: &Config,
        group: &GroupPart,
        sender: &mut Sender,
        bytes: &[u8],
        frames: &Frames,
        loads: &[Load],
        free: &mut [u8],
        ranges: &mut Vec<Range>,
    )
        requires may { MayFill config.now group.now (Some sender.old) self.now bytes.now free.old
            frames.now loads.now }
        requires empty { ranges.old.items ≡ [] }
        requires left { length loads.now ≤ vec_capacity ranges.old }
        ensures filled { IsFilled config.now group.now (Some sender.old) self.now bytes.now free.old
            frames.now loads.now free.new ranges.new.items }
        ensures capacity { vec_capacity ranges.old ≤ vec_capacity ranges.new }
        ensures sender { sender.new
            ≡ advanced_by (mode_of group.now.security) sender.old (length loads.now) }
    {
        if loads.is_empty() {
            return;
        }
        let parts = HeaderParts::new(&config.publisher.id, group, self.made);
        let cargo = Cargo {
            bytes,
            frames,
            room: self.rooms.chunk,
            slots: &self.slots,
            leads: &self.leads,
        };
        let mode = mode_of(group.security);
        post_secured(&parts, &cargo, loads, mode, sender, free, ranges);
    }
}

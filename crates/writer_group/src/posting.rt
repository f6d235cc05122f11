//! Making a turn's datagrams, one after another.
ghost use Rattle.std.specs.Prelude.{◌≡◌, ◌<◌, ◌≤◌, ◌+◌, ◌++◌, ◌∷◌, [], true, false, IfSome, length, slice_index_or, vec_len, vec_capacity};
ghost use Rattle.ua_binary.specs.Writing.{laid};
ghost use Rattle.uadp_header.specs.Spelling.{IsSendersSecurity, IsWritten};
ghost use Rattle.message_guard.specs.Modes.{is_secured};
ghost use Rattle.message_guard.specs.Senders.{IsSender, advanced};
ghost use Rattle.ps_config.specs.Headers.{mode_of};
ghost use Rattle.writer_group.specs.Limits.{most_datagrams};
ghost use Rattle.writer_group.specs.declared.load.Load.{Load as AnyLoad};
ghost use Rattle.writer_group.specs.Envelopes.{IsSecuredAs};
ghost use Rattle.writer_group.specs.Holding.{envelope_in, cargo_in, payload_in, payloads_in, settings_in};
ghost use Rattle.writer_group.specs.Numbers.{front_in};
ghost use Rattle.writer_group.specs.Posting.{MayPost, front_of, head_by, joined, laid_by, load_header_by, made_by, open_load, ranges_of, secured_by, secured_header_by, security_of};
ghost use Rattle.writer_group.specs.Sealing.{AreWritten, advanced_by, open_header};

use crate::front::Front;
use crate::header_parts::HeaderParts;
use crate::laying::Cargo;
use crate::load::Load;
use message_guard::{Mode, Sender};
use uadp_header::SecurityPart;

/// The length of a signature in bytes.
const SIGNATURE_BYTES: usize = 32;

/// Where a datagram stands in the bytes for datagrams.
#[derive(Clone, Copy, Debug, Default, PartialEq, Eq)]
pub(crate) struct Range {
    pub start: usize,
    pub end: usize,
}

/// Makes the datagrams with these loads, without security.
pub(crate) fn post_open<'a>(
    parts: &'a HeaderParts<'a>,
    cargo: &'a Cargo<'a>,
    loads: &[Load],
    free: &mut [u8],
    ranges: &mut Vec<Range>,
)
    requires post { MayPost (envelope_in parts.now) cargo.now loads.now }
    requires unsecured { is_secured (mode_of (settings_in parts.now).security) ≡ false }
    requires empty { ranges.old.items ≡ [] }
    requires left { length loads.now ≤ vec_capacity ranges.old }
    requires room { length (joined (made_by parts.now None cargo.now loads.now)) ≤ length free.old }
    ensures laid { free.new
        ≡ laid free.old 0 (joined (made_by parts.now None cargo.now loads.now)) }
    ensures ranges { ranges.new.items ≡ ranges_of 0 (made_by parts.now None cargo.now loads.now) }
    ensures written { AreWritten (envelope_in parts.now) None 0 (payloads_in cargo.now loads.now) }
    ensures capacity { vec_capacity ranges.old ≤ vec_capacity ranges.new }
{
    let mut start = 0;
    for index in 0..loads.len() {
        let load = load_at(loads, index);
        let end = open_datagram(parts, cargo, load, index as u16, free, start);
        push_range(Range { start, end }, ranges);
        start = end;
    }
}

/// Makes the datagrams with these loads, each with the sender's next number. A call, so that turns without security stay short.
#[inline(never)]
pub(crate) fn post_secured<'a>(
    parts: &'a HeaderParts<'a>,
    cargo: &'a Cargo<'a>,
    loads: &[Load],
    mode: Mode,
    sender: &mut Sender,
    free: &mut [u8],
    ranges: &mut Vec<Range>,
)
    requires post { MayPost (envelope_in parts.now) cargo.now loads.now }
    requires mode { mode ≡ mode_of (settings_in parts.now).security }
    requires secured { is_secured mode ≡ true }
    requires numbers { sender.old.used + length loads.now ≤ 4294967295 }
    requires sender { IsSender sender.old }
    requires empty { ranges.old.items ≡ [] }
    requires left { length loads.now ≤ vec_capacity ranges.old }
    requires room { length (joined (made_by parts.now (Some sender.old) cargo.now loads.now))
        ≤ length free.old }
    ensures laid { free.new
        ≡ laid free.old 0 (joined (made_by parts.now (Some sender.old) cargo.now loads.now)) }
    ensures ranges { ranges.new.items
        ≡ ranges_of 0 (made_by parts.now (Some sender.old) cargo.now loads.now) }
    ensures written { AreWritten (envelope_in parts.now) (Some sender.old) 0
        (payloads_in cargo.now loads.now) }
    ensures capacity { vec_capacity ranges.old ≤ vec_capacity ranges.new }
    ensures sender { sender.new ≡ advanced_by mode sender.old (length loads.now) }
{
    let mut start = 0;
    for index in 0..loads.len() {
        let load = load_at(loads, index);
        let end = secured_datagram(parts, cargo, load, index as u16, mode, sender, free, start);
        push_range(Range { start, end }, ranges);
        start = end;
    }
}

/// The load with this index.
fn load_at(loads: &[Load], index: usize) -> Load
    requires { index < length loads.now }
    ensures { (other : AnyLoad) → result ≡ slice_index_or loads.now index other }
{
    loads[index]
}

/// Pushes a range that there is room for.
fn push_range(range: Range, ranges: &mut Vec<Range>)
    requires { vec_len ranges.old < vec_capacity ranges.old }
    ensures pushed { ranges.new.items ≡ ranges.old.items ++ range ∷ [] }
    ensures capacity { vec_capacity ranges.old ≤ vec_capacity ranges.new }
{
    ranges.push_reserved(range);
}

/// Lays a datagram at a place of the free bytes, and tells where it ends.
#[inline(always)]
fn open_datagram<'a>(
    parts: &'a HeaderParts<'a>,
    cargo: &'a Cargo<'a>,
    load: Load,
    index: u16,
    free: &mut [u8],
    start: usize,
) -> usize
    requires few { index < most_datagrams }
    requires post { MayPost (envelope_in parts.now) cargo.now (load ∷ []) }
    requires unsecured { is_secured (mode_of (settings_in parts.now).security) ≡ false }
    requires room { start + length (open_load (envelope_in parts.now) index (cargo_in cargo.now)
        load) ≤ length free.old }
    ensures laid { free.new ≡ laid free.old start
        (open_load (envelope_in parts.now) index (cargo_in cargo.now) load) }
    ensures header { IsWritten (open_header (envelope_in parts.now) index
        (payload_in (cargo_in cargo.now) load).0) }
    ensures end { result
        ≡ start + length (open_load (envelope_in parts.now) index (cargo_in cargo.now) load) }
{
    let laid = lay_out(parts, cargo, load, index, None, free, start);
    laid.1
}

/// Lays a datagram that carries the sender's next front, encrypts its payload as the mode says, and signs it. Tells where it ends.
fn secured_datagram<'a>(
    parts: &'a HeaderParts<'a>,
    cargo: &'a Cargo<'a>,
    load: Load,
    index: u16,
    mode: Mode,
    sender: &mut Sender,
    free: &mut [u8],
    start: usize,
) -> usize
    requires few { index < most_datagrams }
    requires post { MayPost (envelope_in parts.now) cargo.now (load ∷ []) }
    requires mode { mode ≡ mode_of (settings_in parts.now).security }
    requires secured { is_secured mode ≡ true }
    requires numbers { sender.old.used < 4294967295 }
    requires sender { IsSender sender.old }
    requires room { start + length (secured_by parts.now mode sender.old index cargo.now load)
        ≤ length free.old }
    ensures laid { free.new ≡ laid free.old start
        (secured_by parts.now mode sender.old index cargo.now load) }
    ensures header { IsWritten
        (secured_header_by parts.now mode sender.old index cargo.now load) }
    ensures end { result ≡ start
        + length (secured_by parts.now mode sender.old index cargo.now load) }
    ensures sender { sender.new ≡ advanced mode sender.old }
{
    let front = Front::next(sender, mode);
    let laid = lay_fronted(parts, cargo, load, index, &front, free, start);
    let signed = laid.1 + SIGNATURE_BYTES;
    sender.protect(mode, &mut free[start..signed], laid.0 - start);
    signed
}

/// Lays out a datagram that carries this front.
fn lay_fronted<'a>(
    parts: &'a HeaderParts<'a>,
    cargo: &'a Cargo<'a>,
    load: Load,
    index: u16,
    front: &'a Front,
    free: &mut [u8],
    start: usize,
) -> (usize, usize)
    requires few { index < most_datagrams }
    requires post { MayPost (envelope_in parts.now) cargo.now (load ∷ []) }
    requires secured { IsSecuredAs (settings_in parts.now) (front_of front.now) }
    requires senders { IsSendersSecurity (front_in front.now) }
    requires room { start + length (laid_by parts.now index cargo.now load (front_of front.now))
        ≤ length free.old }
    ensures laid { free.new ≡ laid free.old start
        (laid_by parts.now index cargo.now load (front_of front.now)) }
    ensures header { IsWritten (load_header_by parts.now index cargo.now load
        (front_of front.now)) }
    ensures payload { result.0 ≡ start
        + length (head_by parts.now index cargo.now load (front_of front.now)) }
    ensures end { result.1 ≡ start
        + length (laid_by parts.now index cargo.now load (front_of front.now)) }
{
    lay_out(parts, cargo, load, index, Some(front.part()), free, start)
}

/// Lays header and payload of a datagram at a place of the free bytes. Tells where the payload begins, and where it ends.
// Where it is called without security no header stands in memory.
#[inline(always)]
fn lay_out<'a>(
    parts: &'a HeaderParts<'a>,
    cargo: &'a Cargo<'a>,
    load: Load,
    index: u16,
    security: Option<SecurityPart<'a>>,
    free: &mut [u8],
    start: usize,
) -> (usize, usize)
    requires few { index < most_datagrams }
    requires post { MayPost (envelope_in parts.now) cargo.now (load ∷ []) }
    requires secured { IsSecuredAs (settings_in parts.now) (security_of security) }
    requires senders { IfSome (security_of security) IsSendersSecurity }
    requires room { start + length (laid_by parts.now index cargo.now load (security_of security))
        ≤ length free.old }
    ensures laid { free.new ≡ laid free.old start
        (laid_by parts.now index cargo.now load (security_of security.entry)) }
    ensures header { IsWritten
        (load_header_by parts.now index cargo.now load (security_of security.entry)) }
    ensures payload { result.0 ≡ start
        + length (head_by parts.now index cargo.now load (security_of security.entry)) }
    ensures end { result.1 ≡ start
        + length (laid_by parts.now index cargo.now load (security_of security.entry)) }
{
    let header = parts.header(index, cargo.ids(load), security);
    cargo.lay(free, start, &header, load)
}

//! The flags of a DataSetMessage, and what they are refused for (OPC 10000-14 7.2.4.5, UADP DataSetMessage header).
ghost use Rattle.std.specs.Prelude.{◌≡◌};
ghost use Rattle.frame_codec.specs.Fronts.{encoding_in, kind_in, is_encoding, fault_in_flags1, fault_in_flags2};

use crate::fault::FrameFault;

// The bits of DataSetFlags1.
pub(crate) const VALID: u8 = 0x01;

/// VALID, and the bit of the field encoding that Variants and DataValues don't have.
const VALID_OR_RAW: u8 = 0x03;

pub(crate) const NUMBER: u8 = 0x08;

pub(crate) const STATUS: u8 = 0x10;

pub(crate) const MAJOR: u8 = 0x20;

pub(crate) const MINOR: u8 = 0x40;

pub(crate) const FLAGS2: u8 = 0x80;

// The bits of DataSetFlags2.
pub(crate) const TIMESTAMP: u8 = 0x10;

pub(crate) const PICOSECONDS: u8 = 0x20;

pub(crate) const RESERVED: u8 = 0xc0;

// The field encodings.
pub(crate) const VARIANT: u8 = 0;

pub(crate) const RAW_DATA: u8 = 1;

pub(crate) const DATA_VALUE: u8 = 2;

// The masks of a DataValue with a value alone, and with a status.
pub(crate) const VALUE: u8 = 0x01;

pub(crate) const VALUE_AND_STATUS: u8 = 0x03;

// The bits of a DataValue's mask that are no mask's.
pub(crate) const MASK_RESERVED: u8 = 0xc0;

// The kinds of message.
pub(crate) const KEY: u8 = 0;

pub(crate) const DELTA: u8 = 1;

pub(crate) const EVENT: u8 = 2;

pub(crate) const KEEP_ALIVE: u8 = 3;

/// The field encoding, bits 1 and 2 of DataSetFlags1.
#[inline(always)]
pub(crate) fn encoding_of(flags: u8) -> u8
    ensures { result ≡ encoding_in flags }
{
    flags / 2 % 4
}

/// The kind of message, bits 0 to 3 of DataSetFlags2.
#[inline(always)]
pub(crate) fn kind_of(extended: u8) -> u8
    ensures { result ≡ kind_in extended }
{
    extended % 16
}

#[inline(always)]
fn is_encoding(fixed: bool, encoding: u8) -> bool
    ensures { result ≡ is_encoding fixed encoding }
{
    encoding == VARIANT || encoding == DATA_VALUE || (fixed && encoding == RAW_DATA)
}

/// What DataSetFlags1 is refused for. Those of Variants and DataValues, the most common, are judged first and at once.
#[inline(always)]
pub(crate) fn fault_in_flags1(fixed: bool, flags: u8) -> Option<FrameFault>
    ensures { result ≡ fault_in_flags1 fixed flags }
{
    if flags & VALID_OR_RAW == VALID {
        return None;
    }
    if flags & VALID == 0 {
        return Some(FrameFault::NotValid);
    }
    if is_encoding(fixed, encoding_of(flags)) {
        None
    } else {
        Some(FrameFault::BadEncoding)
    }
}

/// What DataSetFlags2 is refused for, with this field encoding. Those that tell of no more than a key frame or a delta frame are
/// judged first and at once.
#[inline(always)]
pub(crate) fn fault_in_flags2(encoding: u8, extended: u8) -> Option<FrameFault>
    ensures { result ≡ fault_in_flags2 encoding extended }
{
    if extended <= DELTA && encoding != RAW_DATA {
        return None;
    }
    let kind = kind_of(extended);
    if encoding == RAW_DATA && kind == DELTA {
        return Some(FrameFault::BadEncoding);
    }
    if kind == EVENT {
        return Some(FrameFault::EventOut);
    }
    if kind > KEEP_ALIVE || extended & RESERVED != 0 {
        return Some(FrameFault::ReservedBits);
    }
    None
}

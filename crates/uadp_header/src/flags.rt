//! The flags of a header, and what they are refused for (OPC 10000-14 7.2.4.4).
ghost use Rattle.std.specs.Prelude.{◌≡◌, ◌%◌, Ok};
ghost use Rattle.uadp_header.specs.Formats.{passing};
ghost use Rattle.uadp_header.specs.Layout.{flags_fault, extended1_fault, extended2_fault, reserved_fault};

use crate::fault::HeaderFault;

/// The only version, bits 0 to 3 of the flags.
pub(crate) const VERSION: u8 = 1;

// The bits of the flags.
pub(crate) const PUBLISHER_ID: u8 = 0x10;

pub(crate) const GROUP_HEADER: u8 = 0x20;

pub(crate) const PAYLOAD_HEADER: u8 = 0x40;

pub(crate) const EXTENDED1: u8 = 0x80;

// The bits of ExtendedFlags1. Bits 0 to 2 are the type of the PublisherId.
pub(crate) const CLASS_ID: u8 = 0x08;

pub(crate) const SECURITY: u8 = 0x10;

pub(crate) const TIMESTAMP: u8 = 0x20;

pub(crate) const PICOSECONDS: u8 = 0x40;

pub(crate) const EXTENDED2: u8 = 0x80;

// The types of PublisherIds.
pub(crate) const ID_U8: u8 = 0;

pub(crate) const ID_U16: u8 = 1;

pub(crate) const ID_U32: u8 = 2;

pub(crate) const ID_U64: u8 = 3;

pub(crate) const ID_TEXT: u8 = 4;

// The bits of ExtendedFlags2. Bits 2 to 4 are the type of the message.
pub(crate) const CHUNK: u8 = 0x01;

pub(crate) const PROMOTED: u8 = 0x02;

const UNUSED2: u8 = 0xe0;

// The types of messages.
const PROBE: u8 = 1;

const ANNOUNCEMENT: u8 = 2;

// The bits of GroupFlags.
pub(crate) const GROUP_ID: u8 = 0x01;

pub(crate) const GROUP_VERSION: u8 = 0x02;

pub(crate) const MESSAGE_NUMBER: u8 = 0x04;

pub(crate) const SEQUENCE: u8 = 0x08;

// The bits of SecurityFlags.
pub(crate) const SIGNED: u8 = 0x01;

pub(crate) const ENCRYPTED: u8 = 0x02;

pub(crate) const FOOTER: u8 = 0x04;

pub(crate) const KEY_RESET: u8 = 0x08;

/// The bits of GroupFlags and of SecurityFlags that have no meaning.
const RESERVED: u8 = 0xf0;

#[inline(always)]
pub(crate) fn check_flags(flags: u8) -> Result<(), HeaderFault>
    ensures { result ≡ passing (flags_fault flags) (Ok (record {})) }
{
    let version = flags % 16;
    if version != VERSION {
        return Err(HeaderFault::Version { got: version });
    }
    Ok(())
}

/// The type of the PublisherId, bits 0 to 2 of ExtendedFlags1.
#[inline(always)]
pub(crate) fn id_type(extended1: u8) -> u8
    ensures { result ≡ extended1 % 8 }
{
    extended1 % 8
}

#[inline(always)]
pub(crate) fn check_extended1(extended1: u8) -> Result<(), HeaderFault>
    ensures { result ≡ passing (extended1_fault extended1) (Ok (record {})) }
{
    if id_type(extended1) > ID_TEXT {
        return Err(HeaderFault::BadPublisherType);
    }
    Ok(())
}

#[inline(always)]
pub(crate) fn check_extended2(flags: u8, extended2: u8) -> Result<(), HeaderFault>
    ensures { result ≡ passing (extended2_fault flags extended2) (Ok (record {})) }
{
    let message_type = extended2 / 4 % 8;
    if message_type == PROBE || message_type == ANNOUNCEMENT {
        return Err(HeaderFault::DiscoveryOut);
    }
    if message_type > ANNOUNCEMENT || extended2 & UNUSED2 != 0 {
        return Err(HeaderFault::ReservedBits);
    }
    if extended2 & CHUNK != 0 && flags & PAYLOAD_HEADER == 0 {
        return Err(HeaderFault::ReservedBits);
    }
    Ok(())
}

/// GroupFlags and SecurityFlags.
#[inline(always)]
pub(crate) fn check_reserved(flags: u8) -> Result<(), HeaderFault>
    ensures { result ≡ passing (reserved_fault flags) (Ok (record {})) }
{
    if flags & RESERVED != 0 {
        return Err(HeaderFault::ReservedBits);
    }
    Ok(())
}

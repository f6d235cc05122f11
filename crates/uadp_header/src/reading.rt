//! Reading headers.
ghost use Rattle.std.specs.Prelude.{◌≡◌, ◌%◌, ◌<◌, ◌≤◌, ◌^◌, IfOk};
ghost use Rattle.std.specs.Int.{w16, w32};
ghost use Rattle.ua_binary.specs.Reading.{Reads, ReadsAhead, lent, short, part_at, bytes_at, number_at};
ghost use Rattle.ua_binary.specs.ReadingValues.{has};
ghost use Rattle.uadp_header.specs.declared.fault.HeaderFault.TheVariants as faults;
ghost use Rattle.uadp_header.specs.Headers.{publisher_in, ids_in, security_in, header_in, if_there};
ghost use Rattle.uadp_header.specs.Layout.{flags_fault, extended1_fault, extended2_fault, reserved_fault};
ghost use Rattle.uadp_header.specs.Reading.{GivesHeader};
ghost use Rattle.uadp_header.specs.Spelling.{IsRead};
ghost use Rattle.uadp_header.specs.Steps.{ReadsAs, bytes_in, group_in, flags_at, flags_when, text_at, publisher_at, as_text, group_numbers_at, group_at, ids_at, promoted_at, extras_at, security_at, parts_at, whole_at};

use crate::fault::HeaderFault;
use crate::flags::{
    CHUNK, CLASS_ID, ENCRYPTED, EXTENDED1, EXTENDED2, FOOTER, GROUP_HEADER, GROUP_ID,
    GROUP_VERSION, ID_U8, ID_U16, ID_U32, ID_U64, KEY_RESET, MESSAGE_NUMBER, PAYLOAD_HEADER,
    PICOSECONDS, PROMOTED, PUBLISHER_ID, SECURITY, SEQUENCE, SIGNED, TIMESTAMP, check_extended1,
    check_extended2, check_flags, check_reserved, id_type,
};
use crate::header::{Header, Ids, PublisherId, SecurityPart};
use ua_binary::{Cursor, Short};

/// The header that the bytes begin with (OPC 10000-14 7.2.4.4, UADP NetworkMessage), and where the
/// payload begins.
#[tactic(auto, using(crate::proofs::StepLaws::header_whole))]
pub fn read_header(bytes: &[u8]) -> Result<(Header<'_>, usize), HeaderFault>
    ensures answer { GivesHeader result bytes.now }
    ensures ranges { IfOk result (λ read. IsRead (header_in read.0)) }
{
    let mut cursor = Cursor { bytes, at: 0 };
    let header = read_whole(&mut cursor)?;
    Ok((header, cursor.at))
}

#[inline(always)]
#[tactic(auto, unfolding(crate::specs::Steps::whole_at))]
fn read_whole<'a>(cursor: &mut Cursor<'a>) -> Result<Header<'a>, HeaderFault>
    ensures { ReadsAs header_in result cursor.old cursor.new whole_at }
{
    let flags = read_flags(cursor)?;
    let extended1 = read_extended1(cursor, flags)?;
    let extended2 = read_extended2(cursor, flags, extended1)?;
    read_parts(cursor, flags, extended1, extended2)
}

#[inline(always)]
#[tactic(auto, unfolding(crate::specs::Steps::flags_at))]
fn read_flags(cursor: &mut Cursor<'_>) -> Result<u8, HeaderFault>
    ensures { ReadsAhead result cursor.old cursor.new (flags_at flags_fault) }
{
    let flags = cursor.read_u8()?;
    check_flags(flags)?;
    Ok(flags)
}

/// ExtendedFlags1, or 0 where it isn't there.
#[inline(always)]
#[tactic(auto, unfolding(crate::specs::Steps::flags_at, crate::specs::Steps::flags_when))]
fn read_extended1(cursor: &mut Cursor<'_>, flags: u8) -> Result<u8, HeaderFault>
    ensures { ReadsAhead result cursor.old cursor.new
        (flags_when (has flags 0x80) extended1_fault) }
{
    if flags & EXTENDED1 == 0 {
        return Ok(0);
    }
    let extended1 = cursor.read_u8()?;
    check_extended1(extended1)?;
    Ok(extended1)
}

/// ExtendedFlags2, or 0 where it isn't there.
#[inline(always)]
#[tactic(auto, unfolding(crate::specs::Steps::flags_at, crate::specs::Steps::flags_when))]
fn read_extended2(cursor: &mut Cursor<'_>, flags: u8, extended1: u8) -> Result<u8, HeaderFault>
    ensures { ReadsAhead result cursor.old cursor.new
        (flags_when (has extended1 0x80) (extended2_fault flags)) }
{
    if extended1 & EXTENDED2 == 0 {
        return Ok(0);
    }
    let extended2 = cursor.read_u8()?;
    check_extended2(flags, extended2)?;
    Ok(extended2)
}

/// All parts behind the flags.
#[inline(always)]
#[tactic(auto, unfolding(crate::specs::Steps::parts_at))]
fn read_parts<'a>(
    cursor: &mut Cursor<'a>,
    flags: u8,
    extended1: u8,
    extended2: u8,
) -> Result<Header<'a>, HeaderFault>
    ensures { ReadsAs header_in result cursor.old cursor.new (parts_at flags extended1 extended2) }
{
    let publisher = read_publisher_if(cursor, flags & PUBLISHER_ID != 0, id_type(extended1))?;
    let class_id = read_guid_if(cursor, extended1 & CLASS_ID != 0)?;
    let group = read_group(cursor, flags & GROUP_HEADER != 0)?;
    let ids = read_ids(cursor, flags & PAYLOAD_HEADER != 0, extended2 & CHUNK != 0)?;
    skip_extras(cursor, extended1, extended2)?;
    let security = read_security_if(cursor, extended1 & SECURITY != 0)?;
    Ok(Header {
        publisher,
        class_id,
        group: group.id,
        version: group.version,
        message_number: group.message_number,
        sequence: group.sequence,
        ids,
        security,
    })
}

#[inline(always)]
fn read_publisher_if<'a>(
    cursor: &mut Cursor<'a>,
    present: bool,
    id_type: u8,
) -> Result<Option<PublisherId<'a>>, HeaderFault>
    ensures { ReadsAs (if_there publisher_in) result cursor.old cursor.new
        (part_at present (publisher_at id_type)) }
{
    if !present {
        return Ok(None);
    }
    Ok(Some(read_publisher(cursor, id_type)?))
}

#[inline(always)]
#[tactic(auto, unfolding(crate::specs::Steps::publisher_at))]
fn read_publisher<'a>(cursor: &mut Cursor<'a>, id_type: u8) -> Result<PublisherId<'a>, HeaderFault>
    ensures { ReadsAs publisher_in result cursor.old cursor.new (publisher_at id_type) }
{
    Ok(match id_type {
        ID_U8 => PublisherId::U8(cursor.read_u8()?),
        ID_U16 => PublisherId::U16(cursor.read_u16()?),
        ID_U32 => PublisherId::U32(cursor.read_u32()?),
        ID_U64 => PublisherId::U64(cursor.read_u64()?),
        _ => PublisherId::Text(read_text(cursor)?),
    })
}

/// A String (OPC 10000-6 section 5.2.2.4). The length -1 stands for null, which is read as empty.
#[inline(always)]
#[tactic(auto, unfolding(crate::specs::Steps::text_at))]
fn read_text<'a>(cursor: &mut Cursor<'a>) -> Result<&'a str, HeaderFault>
    ensures { ReadsAhead (lent result) cursor.old cursor.new text_at }
{
    let len = match cursor.read_u32()?.cast_signed() {
        -1 => 0,
        len @ 0..=i32::MAX => len as usize,
        _ => return Err(HeaderFault::BadId),
    };
    as_text(cursor.read_bytes(len)?)
}

// A call that is given no cursor, so that the cursor may stay in registers.
#[inline(never)]
fn as_text(bytes: &[u8]) -> Result<&str, HeaderFault>
    ensures { lent result ≡ as_text bytes.now }
{
    match str::from_utf8(bytes) {
        Ok(text) => Ok(text),
        Err(_) => Err(HeaderFault::BadId),
    }
}

// Beside a fault that has bytes, the compiler would copy the Guid in pieces that overlap.
#[inline(always)]
fn read_guid_if(cursor: &mut Cursor<'_>, present: bool) -> Result<Option<[u8; 16]>, Short>
    ensures { ReadsAhead result cursor.old cursor.new (part_at present (bytes_at short 16)) }
{
    if !present {
        return Ok(None);
    }
    Ok(Some(cursor.read_array()?))
}

#[inline(always)]
fn read_u16_if(cursor: &mut Cursor<'_>, present: bool) -> Result<Option<u16>, HeaderFault>
    ensures { ReadsAhead result cursor.old cursor.new
        (part_at present (number_at faults.Short w16)) }
{
    if !present {
        return Ok(None);
    }
    Ok(Some(cursor.read_u16()?))
}

#[inline(always)]
fn read_u32_if(cursor: &mut Cursor<'_>, present: bool) -> Result<Option<u32>, HeaderFault>
    ensures { ReadsAhead result cursor.old cursor.new
        (part_at present (number_at faults.Short w32)) }
{
    if !present {
        return Ok(None);
    }
    Ok(Some(cursor.read_u32()?))
}

/// What a group header tells.
#[derive(Clone, Copy)]
struct Group {
    id: Option<u16>,
    version: Option<u32>,
    message_number: Option<u16>,
    sequence: Option<u16>,
}

#[inline(always)]
#[tactic(auto, unfolding(crate::specs::Steps::flags_at, crate::specs::Steps::group_at))]
fn read_group(cursor: &mut Cursor<'_>, present: bool) -> Result<Group, HeaderFault>
    ensures { ReadsAs group_in result cursor.old cursor.new (group_at present) }
{
    if !present {
        return Ok(Group {
            id: None,
            version: None,
            message_number: None,
            sequence: None,
        });
    }
    let flags = cursor.read_u8()?;
    check_reserved(flags)?;
    read_group_numbers(cursor, flags)
}

#[inline(always)]
#[tactic(auto, unfolding(crate::specs::Steps::group_numbers_at))]
fn read_group_numbers(cursor: &mut Cursor<'_>, flags: u8) -> Result<Group, HeaderFault>
    ensures { ReadsAs group_in result cursor.old cursor.new (group_numbers_at flags) }
{
    let id = read_u16_if(cursor, flags & GROUP_ID != 0)?;
    let version = read_u32_if(cursor, flags & GROUP_VERSION != 0)?;
    let message_number = read_u16_if(cursor, flags & MESSAGE_NUMBER != 0)?;
    let sequence = read_u16_if(cursor, flags & SEQUENCE != 0)?;
    Ok(Group {
        id,
        version,
        message_number,
        sequence,
    })
}

/// The payload header. A chunk has the id of its writer there, and no count.
#[inline(always)]
#[tactic(auto, unfolding(crate::specs::Steps::ids_at))]
fn read_ids<'a>(cursor: &mut Cursor<'a>, present: bool, chunk: bool) -> Result<Ids<'a>, HeaderFault>
    ensures { ReadsAs ids_in result cursor.old cursor.new (ids_at present chunk) }
{
    if !present {
        return Ok(Ids::None);
    }
    if chunk {
        return Ok(Ids::Chunk(cursor.read_u16()?));
    }
    let count = cursor.read_u8()?;
    Ok(Ids::List(cursor.read_bytes(2 * usize::from(count))?))
}

/// Reads past the timestamp, its picoseconds and the promoted fields.
#[inline(always)]
#[tactic(auto, unfolding(crate::specs::Steps::extras_at))]
fn skip_extras(cursor: &mut Cursor<'_>, extended1: u8, extended2: u8) -> Result<(), HeaderFault>
    ensures { ReadsAhead result cursor.old cursor.new (extras_at extended1 extended2) }
{
    read_bytes_if(cursor, extended1 & TIMESTAMP != 0, 8)?;
    read_bytes_if(cursor, extended1 & PICOSECONDS != 0, 2)?;
    read_promoted_if(cursor, extended2 & PROMOTED != 0)?;
    Ok(())
}

#[inline(always)]
fn read_bytes_if<'a>(
    cursor: &mut Cursor<'a>,
    present: bool,
    len: usize,
) -> Result<Option<&'a [u8]>, HeaderFault>
    ensures { ReadsAs bytes_in result cursor.old cursor.new
        (part_at present (bytes_at faults.Short len)) }
{
    if !present {
        return Ok(None);
    }
    Ok(Some(cursor.read_bytes(len)?))
}

/// The promoted fields behind their size.
#[inline(always)]
#[tactic(auto, unfolding(crate::specs::Steps::promoted_at))]
fn read_promoted_if<'a>(
    cursor: &mut Cursor<'a>,
    present: bool,
) -> Result<Option<&'a [u8]>, HeaderFault>
    ensures { ReadsAs bytes_in result cursor.old cursor.new (part_at present promoted_at) }
{
    if !present {
        return Ok(None);
    }
    let size = cursor.read_u16()?;
    Ok(Some(cursor.read_bytes(usize::from(size))?))
}

#[inline(always)]
fn read_security_if<'a>(
    cursor: &mut Cursor<'a>,
    present: bool,
) -> Result<Option<SecurityPart<'a>>, HeaderFault>
    ensures { ReadsAs (if_there security_in) result cursor.old cursor.new
        (part_at present security_at) }
{
    if !present {
        return Ok(None);
    }
    Ok(Some(read_security(cursor)?))
}

/// The security header. A footer's size is read past.
#[inline(always)]
#[tactic(auto, unfolding(crate::specs::Steps::flags_at, crate::specs::Steps::security_at))]
fn read_security<'a>(cursor: &mut Cursor<'a>) -> Result<SecurityPart<'a>, HeaderFault>
    ensures { ReadsAs security_in result cursor.old cursor.new security_at }
{
    let flags = cursor.read_u8()?;
    check_reserved(flags)?;
    let token = cursor.read_u32()?;
    let len = cursor.read_u8()?;
    let nonce = cursor.read_bytes(usize::from(len))?;
    let footer = flags & FOOTER != 0;
    read_u16_if(cursor, footer)?;
    Ok(SecurityPart {
        signed: flags & SIGNED != 0,
        encrypted: flags & ENCRYPTED != 0,
        footer,
        reset: flags & KEY_RESET != 0,
        token,
        nonce,
    })
}

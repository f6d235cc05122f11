//! Why datagrams are refused.
use crate::cause::Cause;
use crate::heard::Heard;
use crate::text::{Piece, fill};
use example_parts::Fault;
use message_guard::OpenFault;
use ps_config::{Publisher, ReadGroupPart, Security};
use ps_report::{put, value_text};
use reader_group::{LastRefusal, Refusal, Sender};
use ua_values::Value;
use uadp_header::HeaderFault;

/// Why the last datagram that was refused was, and whose it was, as its header tells.
pub fn put_refusal(
    out: &mut Vec<u8>,
    last: &LastRefusal,
    heard: &Heard,
    part: &ReadGroupPart,
) -> Result<(), Fault> {
    refusal_cause(&last.refusal, heard, part.security).put(out)?;
    let Some(sender) = &last.sender else {
        return Ok(());
    };
    put(out, b", came")?;
    put_sender(out, sender)?;
    put(out, b", wanted")?;
    put_sender(out, &wanted_by(part))
}

/// The cause of a refusal of this datagram.
pub fn refusal_cause(refusal: &Refusal, heard: &Heard, wanted: Security) -> Cause {
    match refusal {
        Refusal::Header(fault) => header_cause(*fault),
        Refusal::NotOurs => Cause::named("NotOurs"),
        Refusal::Guard(fault) => guard_cause(*fault, heard, wanted),
        Refusal::NoIds => Cause::named("NoIds"),
        Refusal::BadSizes => Cause::told("BadSizes", ", the datagram has # bytes", heard.bytes, 0),
    }
}

fn header_cause(fault: HeaderFault) -> Cause {
    match fault {
        HeaderFault::Short => Cause::named("Short"),
        HeaderFault::Version { got } => {
            Cause::told("Version", ", came #, wanted 1", u64::from(got), 0)
        }
        HeaderFault::DiscoveryOut => Cause::named("DiscoveryOut"),
        HeaderFault::BadPublisherType => Cause::named("BadPublisherType"),
        HeaderFault::ReservedBits => Cause::named("ReservedBits"),
        HeaderFault::BadId => Cause::named("BadId"),
    }
}

fn guard_cause(fault: OpenFault, heard: &Heard, wanted: Security) -> Cause {
    let (token, number) = (heard.token, heard.number);
    match fault {
        OpenFault::ModeDiffers => {
            let wanted = mode_word(wanted);
            Cause::worded("ModeDiffers", ", came #, wanted #", heard.mode, wanted)
        }
        OpenFault::FooterOut => Cause::named("FooterOut"),
        OpenFault::KeyResetOut => Cause::named("KeyResetOut"),
        OpenFault::BadNonceLength { got } => {
            let got = u64::from(got);
            Cause::told("BadNonceLength", ", came # bytes, wanted 8", got, 0)
        }
        OpenFault::Short => {
            Cause::told("GuardShort", ", the datagram has # bytes", heard.bytes, 0)
        }
        OpenFault::UnknownToken { got } => {
            Cause::told("UnknownToken", ", token #", u64::from(got), 0)
        }
        OpenFault::OldToken { got, high } => {
            let high = u64::from(high);
            Cause::told("OldToken", ", token # after #", u64::from(got), high)
        }
        OpenFault::BadSignature => {
            let pattern = ", token #, the datagram has # bytes";
            Cause::told("BadSignature", pattern, token, heard.bytes)
        }
        OpenFault::Repeated => Cause::told("Repeated", ", token #, number #", token, number),
        OpenFault::TooOld { high } => {
            Cause::told("TooOld", ", number # after #", number, u64::from(high))
        }
    }
}

fn mode_word(mode: Security) -> &'static str {
    match mode {
        Security::None => "none",
        Security::Sign => "sign",
        Security::Encrypt => "encrypt",
    }
}

/// Whose datagrams a read group takes.
fn wanted_by(part: &ReadGroupPart) -> Sender {
    Sender {
        publisher: Some(part.publisher),
        group: if part.group == 0 {
            None
        } else {
            Some(part.group)
        },
        version: if part.version == 0 {
            None
        } else {
            Some(part.version)
        },
        number: None,
        class_id: part.class_id,
    }
}

/// What there is of these: PublisherId, WriterGroupId, GroupVersion, NetworkMessageNumber and DataSetClassId.
fn put_sender(out: &mut Vec<u8>, sender: &Sender) -> Result<(), Fault> {
    match &sender.publisher {
        Some(publisher) => put_publisher(out, publisher)?,
        None => put(out, b" no publisher")?,
    }
    if let Some(group) = sender.group {
        fill(out, " group #", &[Piece::Number(u64::from(group))])?;
    }
    if let Some(version) = sender.version {
        fill(out, " version #", &[Piece::Number(u64::from(version))])?;
    }
    if let Some(number) = sender.number {
        fill(out, " number #", &[Piece::Number(u64::from(number))])?;
    }
    if let Some(class_id) = sender.class_id {
        put(out, b" class_id ")?;
        value_text(&Value::Guid(class_id), out)?;
    }
    Ok(())
}

/// A PublisherId as a configuration spells it. Of a text each byte that isn't printable is escaped.
fn put_publisher(out: &mut Vec<u8>, publisher: &Publisher) -> Result<(), Fault> {
    let (pattern, id) = match publisher {
        Publisher::U8(id) => (" publisher u8:#", u64::from(*id)),
        Publisher::U16(id) => (" publisher u16:#", u64::from(*id)),
        Publisher::U32(id) => (" publisher u32:#", u64::from(*id)),
        Publisher::U64(id) => (" publisher u64:#", *id),
        Publisher::Text(text) => {
            put(out, b" publisher text:")?;
            return Ok(value_text(&Value::String(*text), out)?);
        }
    };
    fill(out, pattern, &[Piece::Number(id)])
}

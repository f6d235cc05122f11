//! Headers as text.
use case_lines::{Digits, Told};
use uadp_header::{Header, Ids, PublisherId, SecurityPart};

/// A header by its parts, as `spell_header` takes them; `-` where there is none.
pub fn tell_header(told: &mut Told, header: &Header) {
    if let Some(publisher) = &header.publisher {
        tell_publisher(told, publisher);
    }
    if let Some(class_id) = &header.class_id {
        tell_bytes(told, "class=", class_id);
    }
    told.word("group=", header.group);
    told.word("version=", header.version);
    told.word("number=", header.message_number);
    told.word("sequence=", header.sequence);
    match &header.ids {
        Ids::None => {}
        Ids::List(bytes) => tell_bytes(told, "ids=list:", bytes),
        Ids::Chunk(id) => told.word("ids=chunk:", Some(*id)),
    }
    if let Some(security) = &header.security {
        tell_security(told, security);
    }
    if told.is_empty() {
        told.say("-");
    }
}

fn tell_bytes(told: &mut Told, name: &str, bytes: &[u8]) {
    told.word(name, Some(Digits(bytes)));
}

fn tell_publisher(told: &mut Told, publisher: &PublisherId) {
    match publisher {
        PublisherId::U8(id) => told.word("id=u8:", Some(*id)),
        PublisherId::U16(id) => told.word("id=u16:", Some(*id)),
        PublisherId::U32(id) => told.word("id=u32:", Some(*id)),
        PublisherId::U64(id) => told.word("id=u64:", Some(*id)),
        PublisherId::Text(text) => tell_bytes(told, "id=text:", text.as_bytes()),
    }
}

fn tell_security(told: &mut Told, part: &SecurityPart) {
    told.word("security=", Some(""));
    tell_flags(told, part);
    told.named(":", Some(part.token));
    told.named(":", Some(Digits(part.nonce)));
}

/// The letters of the flags that are set, or `-` for none of them.
fn tell_flags(told: &mut Told, part: &SecurityPart) {
    told.say(if part.signed { "s" } else { "" });
    told.say(if part.encrypted { "e" } else { "" });
    told.say(if part.footer { "f" } else { "" });
    told.say(if part.reset { "r" } else { "" });
    if !(part.signed || part.encrypted || part.footer || part.reset) {
        told.say("-");
    }
}

//! Publishers as texts.
ghost use Rattle.std.specs.Prelude.{◌≡◌, option_map, decimal};
ghost use Rattle.ua_values.specs.Texts.{text_of};
ghost use Rattle.uadp_header.specs.Headers.{publisher_in, if_there};
ghost use Rattle.json_tap.specs.Transcoding.{publisher_of, text_if};

use itoa::Buffer;
use ua_values::Text;
use uadp_header::PublisherId;

/// A number as decimal text, a text as itself, where it is told and has at most 256 bytes.
pub fn publisher_of(publisher: Option<PublisherId<'_>>) -> Option<Text>
    ensures { result ≡ publisher_of (if_there publisher_in publisher.entry) }
{
    match publisher {
        None => None,
        Some(PublisherId::U8(id)) => number_text(u64::from(id)),
        Some(PublisherId::U16(id)) => number_text(u64::from(id)),
        Some(PublisherId::U32(id)) => number_text(u64::from(id)),
        Some(PublisherId::U64(id)) => number_text(id),
        Some(PublisherId::Text(text)) => text_if(text.as_bytes()),
    }
}

fn number_text(id: u64) -> Option<Text>
    ensures { result ≡ text_if (text_of (decimal id)) }
{
    let mut buffer = Buffer::new();
    text_if(buffer.format(id).as_bytes())
}

fn text_if(bytes: &[u8]) -> Option<Text>
    ensures { result ≡ text_if (text_of bytes.now) }
{
    match Text::from_bytes(bytes) {
        Ok(text) => Some(text),
        Err(_) => None,
    }
}

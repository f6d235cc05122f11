//! What a configuration has by the types of its fields.
ghost use Rattle.std.specs.Prelude.{All};
ghost use Rattle.ps_config.specs.Types.{IsClassId, HasPublisherTypes, HasTypes};

use crate::parts::{
    Config, GroupPart, KeyGroupPart, KeyPart, ReadGroupPart, ReaderPart, WriterPart,
};
use config_tables::Publisher;
use dataset_meta::Meta;

/// A configuration's numbers go no further than their types do, and its arrays are as long as
/// theirs, whether it is sound or not.
pub fn a_configuration_has_its_types(config: &Config)
    ensures { HasTypes config.now }
{
    a_publisher_has_its_types(&config.publisher.id);
    let _port = config.publisher.port;
    all_have_their_types(config.dataset.as_slice());
    all_have_their_types(config.keygroup.as_slice());
    all_have_their_types(config.group.as_slice());
    all_have_their_types(config.readgroup.as_slice());
}

// A part of a configuration, of which a fact holds by the types of its fields.
trait Typed {
    ghost has_types: { Self → Type 0 };

    fn has_its_types(&self)
        ensures { has_types self.now };
}

fn all_have_their_types<T: Typed>(parts: &[T])
    ensures { All T.has_types parts.now }
{
    for part in parts {
        part.has_its_types();
    }
}

impl Typed for Meta {
    ghost use Rattle.ps_config.specs.Types.{HasMetaTypes};

    ghost has_types = { HasMetaTypes };

    fn has_its_types(&self) {
        let _major = self.major();
        let _minor = self.minor();
    }
}

impl Typed for KeyGroupPart {
    ghost use Rattle.ps_config.specs.Types.{HasKeyGroupTypes};

    ghost has_types = { HasKeyGroupTypes };

    fn has_its_types(&self) {
        let _random = &self.random;
        let _first_block = self.first_block;
        let _used = self.used;
        all_have_their_types(self.key.as_slice());
    }
}

impl Typed for KeyPart {
    ghost use Rattle.ps_config.specs.Types.{HasKeyTypes};

    ghost has_types = { HasKeyTypes };

    fn has_its_types(&self) {
        let _token = self.token;
        let _from = self.from;
        let _signing = &self.signing;
        let _nonce = &self.nonce;
    }
}

impl Typed for GroupPart {
    ghost use Rattle.ps_config.specs.Types.{HasGroupTypes};

    ghost has_types = { HasGroupTypes };

    fn has_its_types(&self) {
        let _id = self.id;
        let _interval = self.interval;
        let _max_size = self.max_size;
        let _version = self.version;
        a_class_id_has_its_type(self.class_id);
        all_have_their_types(self.writer.as_slice());
    }
}

impl Typed for WriterPart {
    ghost use Rattle.ps_config.specs.Types.{HasWriterTypes};

    ghost has_types = { HasWriterTypes };

    fn has_its_types(&self) {
        let _id = self.id;
        let _key_frame_count = self.key_frame_count;
        let _keep_alive = self.keep_alive;
        let _first_number = self.first_number;
        let _offset = self.offset;
        let _size = self.size;
    }
}

impl Typed for ReadGroupPart {
    ghost use Rattle.ps_config.specs.Types.{HasReadGroupTypes};

    ghost has_types = { HasReadGroupTypes };

    fn has_its_types(&self) {
        a_publisher_has_its_types(&self.publisher);
        let _group = self.group;
        let _version = self.version;
        a_class_id_has_its_type(self.class_id);
        all_have_their_types(self.reader.as_slice());
    }
}

impl Typed for ReaderPart {
    ghost use Rattle.ps_config.specs.Types.{HasReaderTypes};

    ghost has_types = { HasReaderTypes };

    fn has_its_types(&self) {
        let _writer = self.writer;
        let _timeout = self.timeout;
        let _offset = self.offset;
        let _size = self.size;
    }
}

fn a_publisher_has_its_types(publisher: &Publisher)
    ensures { HasPublisherTypes publisher.now }
{
    match publisher {
        Publisher::U8(id) => {
            let _id = *id;
        }
        Publisher::U16(id) => {
            let _id = *id;
        }
        Publisher::U32(id) => {
            let _id = *id;
        }
        Publisher::U64(id) => {
            let _id = *id;
        }
        Publisher::Text(text) => {
            let _bytes = text.as_bytes();
        }
    }
}

fn a_class_id_has_its_type(class_id: Option<[u8; 16]>)
    ensures { IsClassId class_id }
{
    match class_id {
        None => {}
        Some(_guid) => {}
    }
}

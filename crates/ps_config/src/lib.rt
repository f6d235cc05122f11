//! The configuration of the runtime, read from a TOML document.
#![tactic(auto)]

mod build;
mod built_in_config;
mod faults;
mod fields;
mod header;
mod key_order;
mod laws;
mod parts;
mod read;
mod refusal;
mod ring;
mod rooms;
mod settings;
mod slots;
mod types;

pub use built_in_config::built_in;
pub use config_tables::{
    Fault, Layout, NumberingWord, Part, Path, Place, Policy, Publisher, Security,
};
pub use header::{HeaderSettings, header_size, mode_of, publisher_id, signature_size};
pub use laws::{
    a_first_number_keeps_a_configuration_sound, a_group_with_room_has_room_for_a_keep_alive,
    an_accepted_configuration_is_sound, key_orders_are_the_rings, no_other_group_has_its_ids,
    slots_are_those_of_the_layout, the_built_in_configuration_is_sound, the_built_in_text_is_read,
    the_first_fault_is_told,
};
pub use parts::{
    Config, GroupPart, KeyBytes, KeyGroupPart, KeyPart, MOST_READERS, MOST_WRITERS, Parts,
    PublisherPart, ReadGroupPart, ReaderPart, WriterPart,
};
pub use read::{ConfigEnd, name_numbered, read_config};
pub use ring::ring_of;
pub use rooms::{chunk_room, is_fixed, lacks_room, largest_frame};
pub use types::a_configuration_has_its_types;

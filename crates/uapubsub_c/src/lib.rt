//! The door for C: a publisher and a subscriber, behind handles, for a program in C that owns its sockets, its clock and its threads.
//! `include/uapubsub.h` declares what stands here.
#![tactic(auto)]

mod aging;
mod beginning;
mod checking;
mod closing;
mod getting;
mod guid;
mod handle;
mod indexes;
mod kept;
mod keys;
mod kinds;
mod laying;
mod listed;
mod listing;
mod loose;
mod noticing;
mod owning;
mod placing;
mod publishing;
mod receiving;
mod refusals;
mod setting;
mod slot;
mod states;
mod status;
mod storing;
mod subscribing;
mod switching;
mod taking;

pub use aging::{uapubsub_reader_age, uapubsub_reader_is_fresh, uapubsub_subscriber_due};
pub use beginning::uapubsub_writer_begin_at;
pub use checking::uapubsub_config_check;
pub use closing::uapubsub_close;
pub use getting::{
    uapubsub_get_bytes, uapubsub_get_field_status, uapubsub_get_guid, uapubsub_get_text,
    uapubsub_get_word,
};
pub use guid::GuidBytes;
pub use handle::Handle;
pub use keys::KeySetWords;
pub use listed::Listed;
pub use listing::{FieldInfo, uapubsub_count, uapubsub_field_info, uapubsub_index, uapubsub_name};
pub use noticing::{
    FaultWords, PassedWords, RefusedWords, uapubsub_read_group_only, uapubsub_read_group_refused,
    uapubsub_reader_last_fault, uapubsub_reader_passed,
};
pub use owning::{
    uapubsub_group_may_turn, uapubsub_own_bytes, uapubsub_own_field_status, uapubsub_own_guid,
    uapubsub_own_text, uapubsub_own_word, uapubsub_publisher_due, uapubsub_publisher_group,
};
pub use placing::{PlaceWords, uapubsub_config_place};
pub use publishing::{
    uapubsub_publisher_next, uapubsub_publisher_open, uapubsub_publisher_renew,
    uapubsub_publisher_resume, uapubsub_publisher_resume_with, uapubsub_publisher_standing,
};
pub use receiving::{
    LastTakenWords, ReceivedWords, uapubsub_read_group_last_taken, uapubsub_reader_received,
};
pub use setting::{
    uapubsub_set_bytes, uapubsub_set_field_status, uapubsub_set_guid, uapubsub_set_text,
    uapubsub_set_word,
};
pub use states::{uapubsub_state_message, uapubsub_state_token, uapubsub_state_used};
pub use status::Status;
pub use storing::{
    uapubsub_publisher_must_store, uapubsub_publisher_restore, uapubsub_publisher_save,
    uapubsub_publisher_stored,
};
pub use subscribing::{
    TakenWords, uapubsub_reader_number, uapubsub_reader_why, uapubsub_subscriber_datagram,
    uapubsub_subscriber_expire, uapubsub_subscriber_open, uapubsub_subscriber_renew,
};
pub use switching::{
    uapubsub_reader_disable, uapubsub_reader_enable, uapubsub_writer_disable,
    uapubsub_writer_enable,
};
pub use taking::{AnswerWords, TakingsWords, uapubsub_subscriber_take};

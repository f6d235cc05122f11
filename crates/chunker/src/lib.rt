//! Messages in chunks: a message cut into chunks, and chunks joined into a message (OPC 10000-14, the chunked
//! NetworkMessage).
#![tactic(auto)]

mod cover;
mod cutting;
mod joiner;
mod laws;
mod payload;

pub use cutting::cut;
pub use joiner::{Joined, Joiner, MESSAGE_BYTES};
pub use laws::{
    a_written_chunk_is_its_front_and_its_data, a_written_chunk_is_read_whatever_follows,
    chunks_of_a_cut_give_the_message_once, chunks_that_cover_a_message_give_it_back,
    each_chunk_of_a_cut_can_be_written, each_chunk_of_a_cut_has_room_for_its_bytes,
    each_chunk_of_a_cut_is_of_its_message, each_near_chunk_joins, near_chunks_join,
    refused_chunks_change_nothing, the_joiner_has_room_for_the_longest_message,
};
pub use payload::{CHUNK_FRONT_BYTES, ChunkFault, ChunkPayload, read_chunk, write_chunk};

//! The script of a session: lines that write, tick, switch, append, give fates and watch.
#![tactic(auto)]

mod acts;
mod appends;
mod changes;
mod fault;
mod faults;
mod generated;
mod laws;
mod lines;
mod names;
mod numbers;
mod past;
mod read;
mod refusal;
mod script;
mod session;
mod shapes;
mod texts;
mod values;
mod verbs;
mod writes;

pub use fault::ScriptFault;
pub use generated::generate;
pub use laws::{
    a_patch_is_the_words_of_what_it_stands_for, an_accepted_script_is_sound,
    data_sets_begin_as_configured, data_sets_grow_by_appended_fields_alone,
    fates_come_in_the_order_of_lines, fields_make_a_meta_exactly_by_the_test,
    generated_work_is_sound, the_first_line_with_a_fault_is_told, there_is_one_reader_of_values,
    time_rises_by_ticks, writers_can_tell_where_none_is_mute,
    written_patches_are_of_their_data_set,
};
pub use read::{ScriptEnd, read_script};
pub use script::{Act, Line, Script};
pub use value_texts::parse_value;

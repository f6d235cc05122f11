//! The states of components (OPC 10000-14 6.2.1, PubSubState): a tree of the root, the connection,
//! groups with their writers and read groups with their readers, which are enabled and disabled, have
//! faults and are ready.
#![tactic(auto)]

mod component;
mod components;
mod flags;
mod half;
mod laws;
mod state;
mod tree;

pub use component::Component;
pub use components::Components;
pub use flags::Flags;
pub use laws::{
    a_component_is_operational_where_all_above_are, a_configuration_has_few_components,
    components_are_found_by_their_names, ids_are_places_in_order, states_are_those_of_the_flags,
};
pub use state::State;
pub use tree::{Switched, Tree};

//! Laws of states and ids, each the contract of a function that does nothing.
ghost use Rattle.std.specs.Prelude.{◌≡◌, ◌↔◌, ℕ, ◌≤◌, List, length, All, Some, map, slice_get};
ghost use Rattle.ps_config.specs.declared.parts.Config.{Config};
ghost use Rattle.ps_config.specs.Sound.{IsFew, IsSound, component_names};
ghost use Rattle.pubsub_states.specs.declared.component.Component.{Component};
ghost use Rattle.pubsub_states.specs.declared.flags.Flags.{Flags};
ghost use Rattle.pubsub_states.specs.declared.state.State.TheVariants.{Operational};
ghost use Rattle.pubsub_states.specs.Components.{Counts, counts_of, components, IsAmong, id_of, line};
ghost use Rattle.pubsub_states.specs.Names.{name_of, id_named};
ghost use Rattle.pubsub_states.specs.States.{state_of};
ghost use Rattle.pubsub_states.specs.Changes.{Change, TreeValue, StandsAfter, IsRun, flags_in, flags_after, all_on};

/// After any list of switches, faults and readiness the state of each component is that of its flags
/// and of those above it, each as the last change left it.
pub fn states_are_those_of_the_flags()
    ensures flags { (config : Config) (changes : List Change) (tree : TreeValue)
        → IsRun config changes tree → StandsAfter config changes tree }
    ensures states { (config : Config) (changes : List Change) (tree : TreeValue)
        (component : Component) → IsRun config changes tree → IsAmong (counts_of config) component
        → state_of (flags_in tree) component
        ≡ state_of (flags_after (counts_of config) changes) component }
{}

/// A component is operational exactly where it and each component above it is enabled and ready and
/// has no fault.
pub fn a_component_is_operational_where_all_above_are()
    ensures { (flags : Component → Flags) (component : Component)
        → (state_of flags component ≡ Operational)
        ↔ All (λ above. flags above ≡ all_on) (line component) }
{}

/// The id of a component is its place among the configuration's components, and each place is the id
/// of one.
pub fn ids_are_places_in_order()
    ensures place { (counts : Counts) (component : Component) → IsAmong counts component
        → slice_get (components counts) (id_of counts component) ≡ Some component }
    ensures among { (counts : Counts) (id : ℕ) (component : Component)
        → slice_get (components counts) id ≡ Some component → IsAmong counts component }
    ensures id { (counts : Counts) (id : ℕ) (component : Component)
        → slice_get (components counts) id ≡ Some component → id_of counts component ≡ id }
{}

/// The components' names stand in the order of their ids. Where no two have one name, as in an
/// accepted configuration, each component is found by its own.
pub fn components_are_found_by_their_names()
    ensures names { (config : Config)
        → map (name_of config) (components (counts_of config)) ≡ component_names config }
    ensures found { (config : Config) (component : Component) → IsSound config
        → IsAmong (counts_of config) component
        → id_named config (name_of config component) ≡ Some (id_of (counts_of config) component) }
{}

/// The root, the connection, four groups and read groups, and sixteen writers and readers at most.
pub fn a_configuration_has_few_components()
    ensures { (config : Config) → IsFew config → length (components (counts_of config)) ≤ 42 }
{}

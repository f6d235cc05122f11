//! The tree of components with their states.
ghost use Rattle.std.specs.Prelude.{◌≡◌, IfOk, map};
ghost use Rattle.pubsub_states.specs.Changes.{opening_flags};

use crate::component::Component;
use crate::components::Components;
use crate::flags::Flags;
use crate::state::State;
use ps_config::Config;
use std::alloc::Global;
use std::marker::Model;
use ua_base::NoMemory;

/// What a switch answers (OPC 10000-14 6.2.1, Enable and Disable).
#[derive(Clone, Copy, Debug, PartialEq, Eq)]
pub enum Switched {
    Done,
    /// It was enabled already, or wasn't enabled.
    InvalidState,
}

/// The components of a configuration with their flags, from which their states follow. All memory is
/// taken when the tree is made.
#[derive(Drop)]
pub struct Tree {
    parts: Components,
    flags: Vec<Flags>,
}

impl Model for Tree {
    ghost use Rattle.std.specs.Prelude.{◌≡◌, length};
    ghost use Rattle.pubsub_states.specs.Changes.{TreeValue};
    ghost use Rattle.pubsub_states.specs.Components.{components};

    ghost Value = { TreeValue };

    ghost view = { λ t. record { counts = t.parts; flags = t.flags.items } };

    ghost invariant = { λ t. length t.flags.items ≡ length (components t.parts) };
}

impl Tree {
    ghost use Rattle.std.specs.Prelude.{◌≡◌, ℕ, ◌==◌, Some, IfOk, slice_get, [], if◌then◌else◌};
    ghost use Rattle.ps_config.specs.Sound.{IsFew};
    ghost use Rattle.pubsub_states.specs.declared.component.Component.{Component};
    ghost use Rattle.pubsub_states.specs.Components.{components, IsAmong, IsId};
    ghost use Rattle.pubsub_states.specs.declared.component.Component.TheVariants.{Root, Connection};
    ghost use Rattle.pubsub_states.specs.States.{state_of, state_under, is_operational};
    ghost use Rattle.pubsub_states.specs.Changes.{StandsAfter, Changes, Enable, Disable, Fault, Ready, flags_at, flags_in};

    /// All components are enabled and without fault; all but the readers are ready.
    pub fn new(alloc: Global, config: &Config) -> Result<Tree, NoMemory>
        requires { IsFew config.now }
        ensures { IfOk result (StandsAfter config.now []) }
    {
        let parts = Components::new(alloc, config)?;
        let flags = opening_flags(alloc, parts.as_slice())?;
        Ok(Tree { parts, flags })
    }

    pub fn components(&self) -> &Components
        ensures { result.now ≡ self.now.counts }
    {
        &self.parts
    }

    pub fn enable(&mut self, id: u8) -> Switched
        requires { IsId self.old.counts id }
        ensures answer { result
            ≡ (if (flags_at self.old id).enabled then Switched.InvalidState else Switched.Done) }
        ensures change { Changes (Enable id) self.old self.new }
        ensures refused { result ≡ Switched.InvalidState → self.new ≡ self.old }
    {
        let flags = self.flags_at(id);
        if flags.enabled {
            return Switched::InvalidState;
        }
        self.set_flags(
            id,
            Flags {
                enabled: true,
                ..flags
            },
        );
        Switched::Done
    }

    pub fn disable(&mut self, id: u8) -> Switched
        requires { IsId self.old.counts id }
        ensures answer { result
            ≡ (if (flags_at self.old id).enabled then Switched.Done else Switched.InvalidState) }
        ensures change { Changes (Disable id) self.old self.new }
        ensures refused { result ≡ Switched.InvalidState → self.new ≡ self.old }
    {
        let flags = self.flags_at(id);
        if !flags.enabled {
            return Switched::InvalidState;
        }
        self.set_flags(
            id,
            Flags {
                enabled: false,
                ..flags
            },
        );
        Switched::Done
    }

    /// The component has a fault from now on, or has none.
    pub fn fault(&mut self, id: u8, on: bool)
        requires { IsId self.old.counts id }
        ensures { Changes (Fault id on) self.old self.new }
    {
        let flags = self.flags_at(id);
        self.set_flags(id, Flags { fault: on, ..flags });
    }

    /// The component is ready from now on, or isn't.
    pub fn ready(&mut self, id: u8, on: bool)
        requires { IsId self.old.counts id }
        ensures { Changes (Ready id on) self.old self.new }
    {
        let flags = self.flags_at(id);
        self.set_flags(id, Flags { ready: on, ..flags });
    }

    pub fn state(&self, id: u8) -> State
        requires { IsId self.now.counts id }
        ensures { (component : Component)
            → slice_get (components self.now.counts) id ≡ Some component
            → result ≡ state_of (flags_in self.now) component }
    {
        self.state_of(self.parts.component(id))
    }

    pub fn state_of(&self, component: Component) -> State
        requires { IsAmong self.now.counts component }
        ensures { result ≡ state_of (flags_in self.now) component }
    {
        let above = match component {
            Component::Root => State::Operational,
            Component::Connection => self.root(),
            Component::Group { .. } | Component::ReadGroup { .. } => self.connection(),
            Component::Writer { group, .. } => self.head(Component::Group { group }),
            Component::Reader { read_group, .. } => self.head(Component::ReadGroup { read_group }),
        };
        self.flags_of(component).state_under(above)
    }

    fn root(&self) -> State
        ensures { result ≡ state_of (flags_in self.now) Root }
    {
        self.flags_of(Component::Root)
            .state_under(State::Operational)
    }

    fn connection(&self) -> State
        ensures { result ≡ state_of (flags_in self.now) Connection }
    {
        self.flags_of(Component::Connection)
            .state_under(self.root())
    }

    /// The state of a group or of a read group.
    fn head(&self, group: Component) -> State
        requires { IsAmong self.now.counts group }
        ensures { result
            ≡ state_under (state_of (flags_in self.now) Connection) (flags_in self.now group) }
    {
        self.flags_of(group).state_under(self.connection())
    }

    pub fn is_enabled(&self, component: Component) -> bool
        requires { IsAmong self.now.counts component }
        ensures { result ≡ (flags_in self.now component).enabled }
    {
        self.flags_of(component).enabled
    }

    fn flags_of(&self, component: Component) -> Flags
        requires { IsAmong self.now.counts component }
        ensures { result ≡ flags_in self.now component }
    {
        self.flags_at(self.parts.id(component))
    }

    fn flags_at(&self, id: u8) -> Flags
        requires { IsId self.now.counts id }
        ensures { result ≡ flags_at self.now id }
    {
        self.flags[usize::from(id)]
    }

    fn set_flags(&mut self, id: u8, flags: Flags)
        requires { IsId self.old.counts id }
        ensures counts { self.new.counts ≡ self.old.counts }
        ensures flags { (other : ℕ) → flags_at self.new other
            ≡ (if id == other then flags else flags_at self.old other) }
    {
        self.flags[usize::from(id)] = flags;
    }
}

fn opening_flags(alloc: Global, components: &[Component]) -> Result<Vec<Flags>, NoMemory>
    ensures { IfOk result (λ flags. flags.items ≡ map opening_flags components.now) }
{
    let mut flags = Vec::new(alloc);
    for component in components {
        flags.push(Flags {
            enabled: true,
            fault: false,
            ready: !component.is_reader(),
        })?;
    }
    Ok(flags)
}

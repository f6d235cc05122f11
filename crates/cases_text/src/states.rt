//! The tree of components.
ghost use Rattle.std.specs.Prelude.{◌≡◌};
ghost use Rattle.ps_config.specs.Sound.{IsFew};
ghost use Rattle.pubsub_states.specs.Components.{counts_of};

mod counts;

use crate::states::counts::config_with;
use case_lines::{Answer, LineFault, Told, parted, told};
use ps_config::Config;
use pubsub_states::{Components, State, Switched, Tree};
use std::alloc::Global;

/// What is asked of the components.
#[derive(Clone, Copy)]
pub enum Call {
    Names,
    Id,
    Below,
    States,
}

/// `COUNTS` or `COUNTS | ARGUMENT ..`: what a call tells of the components of the configuration with these counts
pub fn answer(alloc: Global, call: Call, text: &str) -> Answer {
    let (counts, rest) = match text.split_once(" | ") {
        Some(halves) => halves,
        None => (text, ""),
    };
    let config = config_with(alloc, counts)?;
    match call {
        Call::States => states(alloc, &config, rest),
        Call::Names => below(alloc, &config, "root"),
        Call::Below => below(alloc, &config, rest),
        Call::Id => told(alloc, &id_named(alloc, &config, rest)?),
    }
}

static ALL_STATES: [State; 5] = [
    State::Disabled,
    State::Paused,
    State::Operational,
    State::Error,
    State::PreOperational,
];

/// Each state's number and word.
pub fn words(alloc: Global) -> Answer {
    let mut told = Told::new(alloc);
    for state in &ALL_STATES {
        told.apart(" ");
        told.fill("#=", &[state.number() as u64]);
        told.show(state);
    }
    told.answer()
}

/// What each switch answers, and then the number of each component's state in the order of ids.
fn states(alloc: Global, config: &Config, words: &str) -> Answer
    requires { IsFew config.now }
{
    let mut tree = Tree::new(alloc, config)?;
    let mut told = Told::new(alloc);
    for word in words.split_whitespace() {
        let (call, name) = parted(word, ':')?;
        let id = id_named(alloc, config, name)?;
        told.word("", change(&mut tree, call, id)?);
    }
    tell_states(&mut told, &tree);
    told.answer()
}

/// The names of the component with a name and of all below it, in the order of their ids.
fn below(alloc: Global, config: &Config, name: &str) -> Answer
    requires { IsFew config.now }
{
    let upper = id_named(alloc, config, name)?;
    let components = Components::new(alloc, config)?;
    let mut told = Told::new(alloc);
    for lower in 0..components.as_slice().len() as u8 {
        tell_below(&mut told, config, &components, upper, lower)?;
    }
    told.answer()
}

/// The name of the second component, where the first is at or above it.
fn tell_below(
    told: &mut Told,
    config: &Config,
    components: &Components,
    upper: u8,
    lower: u8,
) -> Result<(), LineFault>
    requires { components.now ≡ counts_of config.now }
{
    let count = components.as_slice().len();
    if usize::from(upper) >= count || usize::from(lower) >= count {
        return Err(LineFault::Condition);
    }
    let component = components.component(lower);
    if !components.component(upper).is_at_or_above(component) {
        return Ok(());
    }
    match std::str::from_utf8(component.name(config)) {
        Ok(name) => {
            told.word("", Some(name));
            Ok(())
        }
        Err(_) => Err(LineFault::Condition),
    }
}

fn id_named(alloc: Global, config: &Config, name: &str) -> Result<u8, LineFault>
    requires { IsFew config.now }
{
    let components = Components::new(alloc, config)?;
    match components.id_named(config, name.as_bytes()) {
        Some(id) => Ok(id),
        None => Err(LineFault::Condition),
    }
}

/// What a switch answers; the other calls answer nothing.
fn change(tree: &mut Tree, call: &str, id: u8) -> Result<Option<&'static str>, LineFault> {
    if usize::from(id) >= tree.components().as_slice().len() {
        return Err(LineFault::Condition);
    }
    match call {
        "enable" => Ok(Some(word_of(tree.enable(id)))),
        "disable" => Ok(Some(word_of(tree.disable(id)))),
        "fault" | "mended" => {
            tree.fault(id, call == "fault");
            Ok(None)
        }
        "ready" | "unready" => {
            tree.ready(id, call == "ready");
            Ok(None)
        }
        _ => Err(LineFault::Call),
    }
}

fn word_of(switched: Switched) -> &'static str {
    match switched {
        Switched::Done => "done",
        Switched::InvalidState => "invalid",
    }
}

/// The number of each component's state.
fn tell_states(told: &mut Told, tree: &Tree) {
    told.apart(" ");
    for id in 0..tree.components().as_slice().len() as u8 {
        told.show(&tree.state(id).number());
    }
}

//! Switches of components (OPC 10000-14 9.1.10, Enable and Disable).
ghost use Rattle.std.specs.Prelude.{◌≡◌, ◌∷◌, List, if◌then◌else◌};
ghost use Rattle.pubsub_states.specs.Components.{IsId, counts_of};
ghost use Rattle.session_model.specs.Steps.{Plan, Step, Enable, Disable, is_on};
ghost use Rattle.session_model.specs.Deeds.{component_at};
ghost use Rattle.pubsub_engine.specs.Holding.{IsRunning, IsSession, KeepsPasses, appends_left, left_of, plan_of};
ghost use Rattle.session_model.specs.Lives.{Lived, Stepped, steps_in};
ghost use Rattle.pubsub_engine.specs.Standing.{Stands};
ghost use Rattle.pubsub_engine.specs.Living.{StandsIn};

use crate::session::Session;
use pubsub_states::Switched;

impl Session<'_> {
    /// Enables a component. Each writer at or below it is refreshed: its next frame is a key frame.
    pub fn enable(&mut self, id: u8) -> Switched
        requires session { IsSession self.old }
        requires running { IsRunning self.old }
        requires there { IsId (counts_of (plan_of self.old).config) id }
        ensures session { IsSession self.new }
        ensures answer { (p : Plan) (steps : List Step) → Stands p steps self.old
            → result ≡ (if is_on p.config steps (component_at p.config id)
            then Switched.InvalidState else Switched.Done) }
        ensures stands { result ≡ Switched.Done → (p : Plan) (steps : List Step)
            → Stands p steps self.old → Stands p (Enable id ∷ steps) self.new }
        ensures answer_lives { (p : Plan) (life : List Lived) → StandsIn p life self.old
            → result ≡ (if is_on p.config (steps_in life) (component_at p.config id)
            then Switched.InvalidState else Switched.Done) }
        ensures lives { result ≡ Switched.Done → (p : Plan) (life : List Lived)
            → StandsIn p life self.old → StandsIn p (Stepped (Enable id) ∷ life) self.new }
        ensures refused { result ≡ Switched.InvalidState → self.new ≡ self.old }
        ensures passes { KeepsPasses self.old self.new }
        ensures appends { appends_left self.new ≡ appends_left self.old }
        ensures left { left_of self.new ≡ left_of self.old }
    {
        match self.round.tree.enable(id) {
            Switched::Done => {
                let component = self.round.tree.components().component(id);
                self.round.publisher.refresh_below(self.config, component);
                Switched::Done
            }
            Switched::InvalidState => Switched::InvalidState,
        }
    }

    /// Disables a component. Each reader at or below it is cut: it forgets its row, and waits for a key frame.
    pub fn disable(&mut self, id: u8) -> Switched
        requires session { IsSession self.old }
        requires running { IsRunning self.old }
        requires there { IsId (counts_of (plan_of self.old).config) id }
        ensures session { IsSession self.new }
        ensures answer { (p : Plan) (steps : List Step) → Stands p steps self.old
            → result ≡ (if is_on p.config steps (component_at p.config id)
            then Switched.Done else Switched.InvalidState) }
        ensures stands { result ≡ Switched.Done → (p : Plan) (steps : List Step)
            → Stands p steps self.old → Stands p (Disable id ∷ steps) self.new }
        ensures answer_lives { (p : Plan) (life : List Lived) → StandsIn p life self.old
            → result ≡ (if is_on p.config (steps_in life) (component_at p.config id)
            then Switched.Done else Switched.InvalidState) }
        ensures lives { result ≡ Switched.Done → (p : Plan) (life : List Lived)
            → StandsIn p life self.old → StandsIn p (Stepped (Disable id) ∷ life) self.new }
        ensures refused { result ≡ Switched.InvalidState → self.new ≡ self.old }
        ensures passes { KeepsPasses self.old self.new }
        ensures appends { appends_left self.new ≡ appends_left self.old }
        ensures left { left_of self.new ≡ left_of self.old }
    {
        match self.round.tree.disable(id) {
            Switched::Done => {
                let component = self.round.tree.components().component(id);
                self.round.stop_below(self.config, component);
                Switched::Done
            }
            Switched::InvalidState => Switched::InvalidState,
        }
    }
}

//! Laws of states, each the contract of a function that does nothing.
ghost use Rattle.std.specs.Prelude.{◌≡◌};
ghost use Rattle.stored_state.specs.States.{IsState, IsRead, written};
ghost use Rattle.stored_state.specs.declared.state.StoredState.{StoredState};

/// Of its bytes a state is read back: the fingerprint and each number.
pub fn written_states_are_read()
    ensures { (state : StoredState) → IsState state → IsRead state (written state) }
{}

/// So no two states have the same bytes: bytes of one state, of which a part was changed so that they are those of another, have
/// another body, and the checksum of that.
pub fn damaged_bytes_are_told()
    ensures { (one other : StoredState) → IsState one → IsState other
        → written one ≡ written other → one ≡ other }
{}

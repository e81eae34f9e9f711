ghost use Rattle.std.specs.Prelude.{◌≡◌};
ghost use Rattle.turn_steps.specs.Places as spec;

use spec_states::LineState;

/// The name of a state.
pub(crate) fn state_name(state: LineState) -> &'static str
    ensures { result.now ≡ spec.state_name state }
{
    match state {
        LineState::I => "I",
        LineState::S => "S",
        LineState::E => "E",
        LineState::M => "M",
        LineState::SpS => "SpS",
        LineState::SpE => "SpE",
    }
}

/// The word for the mark of a line that was speculatively loaded, or for none.
pub(crate) fn loaded_word(loaded: bool) -> &'static str
    ensures { result.now ≡ spec.loaded_word loaded }
{
    if loaded { "loaded" } else { "-" }
}

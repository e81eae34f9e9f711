//! Laws of the definitions: each function does nothing, and its contract is the law.

ghost use Rattle.std.specs.Prelude.{◌≡◌, ℕ, ◌+◌, List};
ghost use Rattle.rv32_image.specs.Image.{LoadedImage};
ghost use Rattle.rv32_exec.specs.Hart.{HartState};
ghost use Rattle.rv32_exec.specs.Execute.{IsStopOf};
ghost use Rattle.rv32_exec.specs.NextEvent.{next_event};
ghost use Rattle.rv32_exec.specs.Sequential.{after_steps, epoch_outcome, go_on};
ghost use Rattle.rv32_exec.specs.Laws.{HasStopped, Reaches};

/// An epoch ends or faults within its limit, over any memory.
pub fn an_epoch_stops()
    ensures { (image : LoadedImage) (epoch : ℕ) (memory : List ℕ) → HasStopped (epoch_outcome image epoch memory) }
{}

/// A run of m + n instructions is one of m, and one of n from there.
pub fn runs_add()
    ensures { (image : LoadedImage) (m n : ℕ) (h : HartState) (memory : List ℕ) →
        after_steps image (m + n) h memory ≡ go_on (after_steps image m h memory) (after_steps image n) }
{}

/// Whole instructions lead to a hart's next event, leave memory as it is on the way, and do there what the event says.
pub fn whole_instructions_reach_the_next_event()
    ensures { (image : LoadedImage) (h : HartState) (memory : List ℕ) → Reaches image h memory (next_event image h) }
{}

/// An access that is the next event is 1, 2 or 4 bytes wide, aligned, in memory and below the limit of instructions. A
/// store lies outside the code, and its value has no bytes but its own.
pub fn the_next_access_is_in_memory()
    ensures { (image : LoadedImage) (h : HartState) → IsStopOf image (next_event image h).now (next_event image h).at }
{}

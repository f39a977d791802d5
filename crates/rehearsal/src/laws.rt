//! What holds of every rehearsal.

ghost use Rattle.std.specs.Prelude.{◌≡◌, ℕ, List, length};
ghost use Rattle.step_core.specs.declared.wiring.Event.{Event};
ghost use Rattle.step_core.specs.Wirings.{WiringView};
ghost use Rattle.rehearsal.specs.Choices.{IsRehearsed};

/// A seed decides the history: there is at most one of each length.
pub fn decided()
    ensures { (w : WiringView) (seed : ℕ) (h k : List Event) → IsRehearsed w seed h → IsRehearsed w seed k → length h ≡ length k → h ≡ k }
{}

//! Laws of registries. This function does nothing: its contract is a theorem.
ghost use Rattle.std.specs.Prelude.{ℕ, List};
ghost use Rattle.registry_core.specs.declared.event.Event.{Event};
ghost use Rattle.registry_core.specs.Apart.{AreApart};
ghost use Rattle.registry_core.specs.Events.{IsRegistry};

/// The sources that live differ in their names, in their ids and in their slots, and stand in the
/// order of the slots.
pub fn sources_are_apart()
    ensures { (slots : ℕ) (events : List Event) → IsRegistry slots events → AreApart events }
{}

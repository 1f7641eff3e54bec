//! Laws of a registry's disk. This function does nothing: its contract is a theorem.
ghost use Rattle.std.specs.Prelude.{◌≡◌, ◌⊎◌, ℕ, List, Option};
ghost use Rattle.disk_model.specs.Past.{Past, MayLeave};
ghost use Rattle.log_journal.specs.File.{Holds};
ghost use Rattle.registry_core.specs.declared.event.Event.{Event};
ghost use Rattle.registry_core.specs.Events.{IsRegistry};
ghost use Rattle.registry_core.specs.Texts.{registry_payloads};
ghost use Rattle.log_registry.specs.declared.fault.RegistryFault.{RegistryFault};
ghost use Rattle.log_registry.specs.Fault.{HasRegistryFault};
ghost use Rattle.log_registry.specs.Stands.{StandsForRegistry};
ghost use Rattle.log_base.specs.OneMore.{with_one_more};

/// Whatever a crash leaves of a registry that runs, opening it finds the slots and the events, with
/// the one in doubt or without.
pub fn registries_are_found_again()
    ensures found { (past : Past) (slots found_slots : ℕ) (events found : List Event)
        (doubt : Option Event) (image : List ℕ)
        → StandsForRegistry past slots events doubt → MayLeave past image
        → Holds image 0 (registry_payloads found_slots found) → IsRegistry found_slots found
        → (found_slots ≡ slots) × ((found ≡ events) ⊎ (found ≡ with_one_more events doubt)) }
    ensures no_fault { (past : Past) (slots : ℕ) (events : List Event) (doubt : Option Event)
        (image : List ℕ) (fault : RegistryFault)
        → StandsForRegistry past slots events doubt → MayLeave past image
        → HasRegistryFault image fault
        → (fault ≡ RegistryFault.Failed) ⊎ (fault ≡ RegistryFault.OutOfMemory) }
{}

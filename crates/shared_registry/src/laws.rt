//! Laws of calls on a registry. These functions do nothing: their contracts are theorems.
ghost use Rattle.std.specs.Prelude.{◌≡◌, ℕ, List, ◌++◌, Option};
ghost use Rattle.registry_core.specs.declared.event.Event.{Event as AnyEvent};
ghost use Rattle.registry_core.specs.Answers.{made};
ghost use Rattle.registry_core.specs.Replies.{RegistryCall, RegistryReply, ending};
ghost use Rattle.log_registry.specs.State.{StateView};
ghost use Rattle.turn_cell.specs.Knowing.{Brought};
ghost use Rattle.shared_registry.specs.History.{RegistrySight};
ghost use Rattle.shared_registry.specs.Lookups.{RegistryLookup, IsLookupReply, AreLookups};
ghost use Rattle.shared_registry.specs.Lookups.{RegistryAddsUp, GivesLookup};
ghost use Rattle.shared_registry.specs.Moments.{RegistriesAreClosedAtEachMoment};
ghost use Rattle.shared_registry.specs.Stays.{CalledOnRegistry, IsEventOnDisk};

use disk_model::Disk;

/// Whoever is told that an event was made is told of what is on the disk: each image that a crash
/// may leave holds the event at the place at which its pass then sees it.
pub fn made_is_on_disk<D: Disk>()
    ensures { (origin : StateView D) (p q : RegistrySight) (event : AnyEvent)
        (call : RegistryCall) (reply : RegistryReply)
        → CalledOnRegistry D.Disk origin p call reply q → ending call reply ≡ made event
        → (place : ℕ) × Brought event place p q × IsEventOnDisk D.Disk origin place event q }
{}

/// Each legal call is one with the places of what it brought, and with what it left in doubt.
pub fn calls_are_lookups()
    ensures { (slots : ℕ) (p q : RegistrySight) (call : RegistryCall)
        (reply : Option RegistryReply) → IsLookupReply slots p call reply q
        → GivesLookup slots p call reply q }
{}

/// Calls one after another, and then others, are all of them one after another.
pub fn lookups_compose()
    ensures { (slots : ℕ) (p mid q : RegistrySight) (first others : List RegistryLookup)
        → AreLookups slots p first mid → AreLookups slots mid others q
        → AreLookups slots p (first ++ others) q }
{}

/// Calls one after another add up.
pub fn lookups_add_up()
    ensures { (slots : ℕ) (p q : RegistrySight) (asked : List RegistryLookup)
        → AreLookups slots p asked q → RegistryAddsUp p asked q }
{}

/// A registry and its passes are at any moment as `close` would tell.
pub fn registries_are_closed_at_each_moment<D: Disk>()
    ensures { RegistriesAreClosedAtEachMoment D.Disk }
{}

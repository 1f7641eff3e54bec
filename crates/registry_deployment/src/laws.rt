//! Laws of every registry's life. These functions do nothing: their contracts are theorems.
ghost use Rattle.registry_deployment.specs.Laws.{RegistriesKeepTheirPromise, StopsLeaveARegistry};
ghost use Rattle.registry_deployment.specs.Laws.{SlotsAreNeverUsedAgain};
ghost use Rattle.registry_deployment.specs.Shown.{ClosedRegistryRunsAreRuns};
ghost use Rattle.registry_deployment.specs.Shown.{KilledRegistryRunsAreRuns};

use disk_model::Disk;

/// Whatever the runs, their calls, their interleaving and their stops: there is one list of events
/// of which every reply is one that it gives at a point, no earlier than all that its pass had
/// seen, and what was told as made stands in it.
pub fn registries_keep_their_promise<D: Disk>()
    ensures { RegistriesKeepTheirPromise D.Disk }
{}

/// Whatever a run leaves at its stop is a registry, so opening it has no fault.
pub fn stops_leave_a_registry<D: Disk>()
    ensures { StopsLeaveARegistry D.Disk }
{}

/// So a slot, by which a log's file is named, is that of one source in all runs.
pub fn slots_are_never_used_again()
    ensures { SlotsAreNeverUsedAgain }
{}

/// A run that was closed is one of a registry's life, by what its calls and the close ensure.
pub fn closed_registry_runs_are_runs<D: Disk>()
    ensures { ClosedRegistryRunsAreRuns D.Disk }
{}

/// So is one that was killed, by what its calls ensure and the rule of the registry's cell.
pub fn killed_registry_runs_are_runs<D: Disk>()
    ensures { KilledRegistryRunsAreRuns D.Disk }
{}

//! Laws of every hall. These functions do nothing: their contracts are theorems.
ghost use Rattle.hall_deployment.specs.Laws.{SessionsShowSteps, SessionsShowCalls};
ghost use Rattle.hall_deployment.specs.Laws.{HallRunsAreRuns, HallsKeepTheirPromise};
ghost use Rattle.hall_deployment.specs.Laws.{HallRunsAreRegistryRuns, HallsKeepTheirRegistry};
ghost use Rattle.hall_deployment.specs.Laws.{SessionsAskByName};
ghost use Rattle.hall_deployment.specs.Servers.{IdleServersShowRuns, ServersShowRuns};

use delta_base::Link;
use disk_model::{Disk, Shelf};
use worker_pool::Gate;

/// What a session ensures has the steps of its pass, with what it knew before and behind each.
pub fn sessions_show_steps<D: Disk>()
    ensures { SessionsShowSteps D.Disk }
{}

/// Of these steps, those on the log of a slot are calls of the pass on that log, one after another,
/// and the others leave what it showed of that log.
pub fn sessions_show_calls<D: Disk>()
    ensures { SessionsShowCalls D.Disk }
{}

/// A run of a hall is a run of the server of each of its logs, by what its opening and its sessions
/// ensure, and its close or, where it was killed, the rule of each log's cell.
pub fn hall_runs_are_runs<D: Disk>()
    ensures { HallRunsAreRuns D.Disk }
{}

/// So the log of each slot keeps its promise, over all runs of the hall.
pub fn halls_keep_their_promise<D: Disk>()
    ensures { HallsKeepTheirPromise D.Disk }
{}

/// It is a run of its registry too.
pub fn hall_runs_are_registry_runs<D: Disk>()
    ensures { HallRunsAreRegistryRuns D.Disk }
{}

/// So the registry keeps its promise, over all runs of the hall.
pub fn halls_keep_their_registry<D: Disk>()
    ensures { HallsKeepTheirRegistry D.Disk }
{}

/// A request that asks a log by a name asks that of the slot which the registry gave to the name.
pub fn sessions_ask_by_name()
    ensures { SessionsAskByName }
{}

/// What `run_server` ensures of a server that served is a run of its hall, whose steps are those of
/// the sessions of its connections.
pub fn servers_show_runs<H: Shelf, G: Gate>()
where
    G::L: Link,
    ensures { ServersShowRuns H.D.Disk H.Shelf G.L.Link G.Gate }
{}

/// So is what it ensures where memory for the workers ran out: a run without a step.
pub fn idle_servers_show_runs<H: Shelf>()
    ensures { IdleServersShowRuns H.D.Disk H.Shelf }
{}

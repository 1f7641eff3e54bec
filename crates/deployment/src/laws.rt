//! Laws of every deployment. These functions do nothing: their contracts are theorems.
ghost use Rattle.deployment.specs.Laws.{DeploymentsKeepTheirPromise, StopsLeaveALog};
ghost use Rattle.deployment.specs.Followers.{FollowersFollow};
ghost use Rattle.deployment.specs.Shown.{ClosedRunsAreRuns, KilledRunsAreRuns};

use disk_model::Disk;
use follower::Follower;

/// Whatever the runs, their calls, their interleaving and their stops: there is one chain of which
/// every reply is the one that it gives at a point, no earlier than all that its pass had seen,
/// and what was accepted or served stands in it.
pub fn deployments_keep_their_promise<D: Disk>()
    ensures { DeploymentsKeepTheirPromise D.Disk }
{}

/// Whatever a run leaves at its stop is a log, so opening it has no fault.
pub fn stops_leave_a_log<D: Disk>()
    ensures { StopsLeaveALog D.Disk }
{}

/// Whatever a follower was told by these calls, whether its zone stands on one file or on two, of
/// which checkpoints are made, wherever it stopped and was opened again: its patches begin that
/// chain, and its dataset is their replay.
pub fn followers_follow<D: Disk, Z: Follower>()
    ensures { FollowersFollow D.Disk Z.footing }
{}

/// A run that was closed is one of a deployment's, by what its calls and the close ensure.
pub fn closed_runs_are_runs<D: Disk>()
    ensures { ClosedRunsAreRuns D.Disk }
{}

/// So is one that was killed, by what its calls ensure and the rule of the log's cell.
pub fn killed_runs_are_runs<D: Disk>()
    ensures { KilledRunsAreRuns D.Disk }
{}

//! Laws of calls on many logs. These functions do nothing: their contracts are theorems.
ghost use Rattle.hall_logs.specs.Laws.{EachIsVisit, VisitsCompose, VisitsAreCalls};
ghost use Rattle.hall_logs.specs.Laws.{LogPassesStay};

use disk_model::Disk;

/// What one call on the log of a slot is among the calls on many logs.
pub fn calls_are_visits<D: Disk>()
    ensures { (logs : _) (slot : _) (call : _) (before after : _)
        → EachIsVisit D.Disk logs slot call before after }
{}

/// Calls of a pass on many logs compose.
pub fn visits_compose<D: Disk>()
    ensures { (logs : _) → VisitsCompose D.Disk logs }
{}

/// Of many calls of a pass, those on one log are calls on that log one after another.
pub fn visits_are_calls<D: Disk>()
    ensures { (logs : _) → VisitsAreCalls D.Disk logs }
{}

/// Whatever legal calls the passes made, all are there and each has its number.
pub fn passes_stay<D: Disk>()
    ensures { (logs : _) → LogPassesStay D.Disk logs }
{}

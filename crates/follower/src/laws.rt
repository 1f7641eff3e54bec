//! Why catching up ends as it does, and what follows where the peer answers as a log does. These
//! functions do nothing: their contracts are theorems.
ghost use Rattle.std.specs.Prelude.{◌++◌, ℕ, List};
ghost use Rattle.patch_meaning.specs.Checked.{CheckedPatch};
ghost use Rattle.zone_state.specs.Zone.{ZoneView};
ghost use Rattle.delta_client.specs.Exchanges.{WasSaid};
ghost use Rattle.catch_up.specs.declared.end.RunEnd.{RunEnd};
ghost use Rattle.catch_up.specs.Runs.{IsRunTo, Run};
ghost use Rattle.follower.specs.declared.ends.SyncEnd.{SyncEnd as End};
ghost use Rattle.follower.specs.declared.ends.TextRefusal.{TextRefusal as Refusal};
ghost use Rattle.follower.specs.Causes.{Cause};
ghost use Rattle.follower.specs.Chains.{IsToldTexts, Completes, FollowsChain, IsWellAnswered};
ghost use Rattle.follower.specs.Footing.{DisksOf, LeavesFronts, Tells};
ghost use Rattle.follower.specs.Replicas.{IsSync, ShowsOwn, TakesOwn};
ghost use Rattle.follower.specs.Syncing.{EndIs};

use crate::zones::Follower;

/// Each end has its cause in what was said and in the zone.
pub fn ends_have_causes<Z: Follower>()
    ensures { (old new : ZoneView (DisksOf Z.footing)) (said : List WasSaid)
        (more : List CheckedPatch) (end : End)
        → EndIs old new said more end → Cause old new said more end }
{}

/// A run of a zone that nobody shares is what `sync` promises.
pub fn runs_are_syncs<Z: Follower>()
    ensures { (old new : ZoneView (DisksOf Z.footing)) (run : Run) (end : RunEnd Refusal)
        → IsRunTo (TakesOwn Z.footing) ShowsOwn old run end new
        → IsSync Z.footing old run end new }
{}

/// A zone that begins a chain, and is told no text but that of the chain at its version, begins it
/// behind catching up too, and a crash at any moment leaves a front of the chain.
pub fn followers_follow<Z: Follower>()
    ensures zone { (old new : ZoneView (DisksOf Z.footing)) (chain taken more : List CheckedPatch)
        (name : List ℕ) (said : List WasSaid) (end : End)
        → IsToldTexts Z.footing chain old new taken more name said end
        → FollowsChain Z.footing chain new (taken ++ more) }
    ensures images { (old new : ZoneView (DisksOf Z.footing)) (chain taken more : List CheckedPatch)
        (name : List ℕ) (said : List WasSaid) (end : End)
        → IsToldTexts Z.footing chain old new taken more name said end → Tells Z.footing
        → LeavesFronts Z.footing chain old.disk new.disk }
{}

/// A zone that begins a chain, and gets the answers of a log with that chain, ends at the version
/// answered, or by a limit of its own, a failing link or disk, or want of memory.
pub fn catching_up_completes<Z: Follower>()
    ensures { (old new : ZoneView (DisksOf Z.footing)) (chain taken more : List CheckedPatch)
        (name : List ℕ) (said : List WasSaid) (end : End)
        → IsWellAnswered chain old new taken more name said
        → EndIs old new said more end → Completes old new said more end }
{}

//! What follows for a zone's files where a server answers as its log does. This function does
//! nothing: its contract is a theorem.
ghost use Rattle.std.specs.Prelude.{◌++◌, ℕ, List, length, map};
ghost use mathlib.Core.List.{IsPrefix};
ghost use Rattle.chain_core.specs.Links.{IsChain};
ghost use Rattle.chain_core.specs.Patches.{links_of};
ghost use Rattle.patch_log.specs.Log.{bare};
ghost use Rattle.patch_meaning.specs.Checked.{AreChecked, CheckedPatch};
ghost use Rattle.zone_pairs.specs.Briefs.{brief_of};
ghost use Rattle.delta_client.specs.Exchanges.{DialView};
ghost use Rattle.follower.specs.Calls.{calls_of};
ghost use Rattle.follower.specs.Chains.{MayEndWell, ServesRest, TextsAreOf};
ghost use Rattle.follower.specs.declared.ends.SyncEnd.{SyncEnd as End};
ghost use Rattle.zone_commands.specs.Files.{AreZoneFiles};
ghost use Rattle.zone_commands.specs.Following.{AreFilesOfFront, Followed};

use delta_client::Dial;
use disk_model::Shelf;

/// Files of a zone whose patches begin a chain, and that is told no text but that of the chain at its
/// version, are those of a zone with which the chain begins behind catching up too. Over connections
/// that answer as a server does whose log goes on from the zone's patches, catching up ends at the
/// version answered, or by a limit of the zone, its disks, the link or want of memory.
pub fn files_follow<N: Dial, H: Shelf>()
    ensures front { (address name first second first' second' : List ℕ) (net net' : DialView N.L)
        (end : End) (chain taken : List CheckedPatch)
        (it : Followed N.L.left N.L.sent H.tells N.tells address name
        first second first' second' net net' end)
        → H.tells → AreZoneFiles first second (brief_of taken)
        → AreChecked chain → IsPrefix taken chain
        → TextsAreOf chain (calls_of name (length taken) it.said) it.said
        → AreFilesOfFront chain first' second' }
    ensures completes { (address name first second first' second' : List ℕ)
        (net net' : DialView N.L) (end : End) (taken rest : List CheckedPatch)
        (it : Followed N.L.left N.L.sent H.tells N.tells address name
        first second first' second' net net' end)
        → H.tells → N.tells → AreZoneFiles first second (brief_of taken)
        → AreChecked (taken ++ rest) → IsChain (links_of (map bare (taken ++ rest)))
        → ServesRest N.L.left name taken rest net.links.to_come → MayEndWell end }
{}

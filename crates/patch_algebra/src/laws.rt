//! What net patches and inverses promise. These functions do nothing: their contracts are
//! theorems.
ghost use Rattle.patch_algebra.specs.Laws.{NetsReplay, NetsAreShortest, InversesLeadBack};
ghost use Rattle.patch_algebra.specs.Laws.{InversesComeToNothing, PatchesAreValues};
ghost use Rattle.patch_algebra.specs.Laws.{PatchesHaveRows, WrittenAreRead};
ghost use Rattle.patch_algebra.specs.Squashes.{SquashesKeepReplays, SquashesKeepChains};

/// Net changes do what the patches of a run do, by the fewest changes; inverses lead back, and
/// behind their patch they come to nothing.
pub fn nets_decide()
    ensures replay { NetsReplay }
    ensures shortest { NetsAreShortest }
    ensures back { InversesLeadBack }
    ensures nothing { InversesComeToNothing }
{}

/// Each patch is closed and has the values that the laws of nets speak of, and its changes have
/// canonical rows. Such rows in one block are read as a patch.
pub fn written_patches_are_read()
    ensures values { PatchesAreValues }
    ensures rows { PatchesHaveRows }
    ensures read { WrittenAreRead }
{}

/// A net patch in the place of the patches of a run leaves the dataset of a stream, and a chain.
pub fn squashes_keep_streams()
    ensures replay { SquashesKeepReplays }
    ensures chain { SquashesKeepChains }
{}

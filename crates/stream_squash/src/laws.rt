//! What `squash` and `invert` keep. These functions do nothing: their contracts are theorems.
ghost use Rattle.stream_squash.specs.Laws.{InversesAreSquashed, SquashesKeepDatasets};

/// The patches that a squash leaves are a chain again, each text is one of them by itself, and the
/// dataset that they make is that of the stream. Of the last patch and its inverse behind it the
/// net patch has no row in its block.
pub fn squashes_keep_datasets()
    ensures squash { SquashesKeepDatasets }
    ensures invert { InversesAreSquashed }
{}

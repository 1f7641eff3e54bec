//! A change of a dataset.
ghost use Rattle.std.specs.Prelude.{◌≡◌, ◌∷◌, [], None, OnOk, IsErrOf};
ghost use Rattle.rdf_terms.specs.Dataset.{apply as applied};
ghost use Rattle.dataset_tx.specs.Held.{AreMet};

use crate::fault::CheckpointFault;
use dataset_tx::{DataFault, Dataset};
use rdf_terms::{Change, Changes};

/// Makes one change. Too many terms are told as want of memory, since a text can't name so many.
pub fn apply(
    contents: &mut Dataset,
    changes: &mut Changes,
    change: Change,
) -> Result<(), CheckpointFault>
    requires unstaged { contents.old.staged ≡ None }
    requires none { changes.old.items ≡ [] }
    ensures contents { OnOk result
        (contents.new.contents ≡ applied (change ∷ []) contents.old.contents) }
    ensures unstaged { contents.new.staged ≡ None }
    ensures none { OnOk result (changes.new.items ≡ []) }
    ensures met { AreMet (change ∷ []) contents.old.terms contents.new.terms }
    ensures whole { IsErrOf result CheckpointFault.Broken → ⊥ }
{
    changes.push(change)?;
    let applied = contents.apply(changes);
    drop(changes.pop());
    match applied {
        Ok(()) => Ok(()),
        Err(DataFault::TermsFull) => Err(CheckpointFault::OutOfMemory),
        Err(DataFault::OutOfMemory) => Err(CheckpointFault::OutOfMemory),
    }
}

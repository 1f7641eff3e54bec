//! A whole checkpoint.
ghost use Rattle.std.specs.Prelude.{◌≡◌, ℕ, List, [], None, OnOk, IfOk, IsErrOf};
ghost use Rattle.rdf_terms.specs.Dataset.{Dataset as Contents, empty};
ghost use Rattle.checkpoint_reading.specs.Reading.{IsContentsOf, IsOfChanges, ReadsCheckpoint};

use crate::fault::CheckpointFault;
use crate::ids::read_ids;
use crate::prefixes::read_prefixes;
use crate::quads::read_quads;
use checkpoint_line::{FirstLine, read_first_line};
use checkpoint_text::MOST_OF_FIRST;
use dataset_tx::Dataset;
use delta_base::{Id, Listing};
use std::alloc::Global;

/// A checkpoint that was read.
#[derive(Drop)]
pub struct Checkpoint {
    pub generation: u64,
    /// The ids of the patches that were taken.
    pub ids: Listing<Id>,
    /// How many bytes their texts have.
    pub bytes: u64,
    pub contents: Dataset,
}

// Reads the rows and lines that stand behind the ids.
fn read_contents(
    alloc: Global,
    text: &[u8],
    first: &FirstLine,
    contents: &mut Dataset,
) -> Result<(), CheckpointFault>
    requires { contents.old ≡ record { contents = empty; staged = None; terms = [] } }
    ensures contents { OnOk result (IsContentsOf first.now text.now contents.new.contents) }
    ensures unstaged { OnOk result (contents.new.staged ≡ None) }
    ensures made { OnOk result (IsOfChanges contents.new) }
    ensures broken { IsErrOf result CheckpointFault.Broken
        → (dataset : Contents) → IsContentsOf first.now text.now dataset → ⊥ }
{
    let rest = read_prefixes(alloc, text, first.prefixes, contents)?;
    let rest = read_quads(alloc, rest, first.quads, contents)?;
    contents.contents_are_values();
    if rest.is_empty() {
        Ok(())
    } else {
        Err(CheckpointFault::Broken)
    }
}

/// The checkpoint that a text is. Beside the text and the dataset it holds no more than a line.
pub fn read_checkpoint(alloc: Global, text: &[u8]) -> Result<Checkpoint, CheckpointFault>
    ensures checkpoint { ReadsCheckpoint text.now result }
    ensures unstaged { IfOk result (λ read. read.contents.staged ≡ None) }
    ensures made { IfOk result (λ read. IsOfChanges read.contents) }
{
    let Some((first, at)) = read_first_line(text) else {
        return Err(CheckpointFault::Broken);
    };
    if at > MOST_OF_FIRST {
        return Err(CheckpointFault::Broken);
    }
    let (ids, rest) = read_ids(alloc, &text[at..], first.patches)?;
    let mut contents = Dataset::new(alloc);
    match read_contents(alloc, rest, &first, &mut contents) {
        Ok(()) => Ok(Checkpoint {
            generation: first.generation,
            ids,
            bytes: first.bytes,
            contents,
        }),
        Err(fault) => {
            drop(contents);
            Err(fault)
        }
    }
}

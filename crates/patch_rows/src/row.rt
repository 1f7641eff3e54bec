//! Rows.

ghost use Rattle.std.specs.Prelude.{◌≡◌, IfOk};

use delta_base::{OutOfMemory, Text};
use rdf_terms::{Change, Term};

/// The bytes that a row may have.
pub const ROW_LIMIT: usize = 4_194_304;

/// A row of a patch.
#[derive(Debug, PartialEq, Eq, PartialOrd, Ord, Hash, Drop)]
pub enum Row {
    Header { key: Text, value: Term },
    Change(Change),
}

impl Row {
    /// An equal row.
    pub fn copy(&self) -> Result<Row, OutOfMemory>
        ensures { IfOk result (λ r. r ≡ self.now) }
    {
        Ok(match self {
            Row::Header { key, value } => Row::Header {
                key: key.copy()?,
                value: value.copy()?,
            },
            Row::Change(change) => Row::Change(change.copy()?),
        })
    }
}

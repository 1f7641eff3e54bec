//! Rows of a patch from a stream that comes in any pieces: what is decided before the end of the
//! text is known.
//!
//! `decided_row` answers the row at a place of a text that may go on, as far as the text decides it
//! (`specs/Decided.antt`). What more text may change counts as cut by the text's end
//! (`specs/Rows.antt` of `patch_rows`). The functions of `laws` do nothing: their contracts say
//! that what is read so is decided, and that nothing else is.
//!
//! `RowWindow` takes the text in pieces and gives its next row with its places, as far as that is
//! known (`specs/Window.antt`, `specs/Rows.antt`); `specs/Held.antt` is what it holds of the
//! text, and `specs/Progress.antt` what it knows of an unfinished row. `PatchReader` keeps the
//! rows that were not taken yet (`specs/Pieces.antt`). `read_row` reads a row within its limit in
//! a whole text.
#![tactic(auto)]

mod front;
mod inside;
mod laws;
mod lines;
mod next;
mod past;
mod pieces;
mod placed;
mod progress;
mod reading;
mod window;

pub use laws::{rows_are_decided, rows_are_read_within_their_limit, rows_are_settled, rows_stay};
pub use pieces::PatchReader;
pub use placed::PlacedRow;
pub use reading::{decided_row, read_row};
pub use window::RowWindow;

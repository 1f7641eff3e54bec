//! What printed rows promise. These functions do nothing: their contracts are theorems.
ghost use Rattle.printed_rows.specs.Laws.{RowsHaveValues, IdsHaveRows, PrintedRowsAreRead};

/// The parts of a row that stands in a text are values, and those of a header that names an id are.
pub fn rows_have_values()
    ensures row { RowsHaveValues }
    ensures id { IdsHaveRows }
{}

/// The lines of canonical rows, one behind another, are read as these rows and no others.
pub fn printed_rows_are_read()
    ensures { PrintedRowsAreRead }
{}

//! A line that is made and then written.
ghost use Rattle.std.specs.Prelude.{◌≡◌, ℕ, List, IfErr, IfOk, OnOk};
ghost use Rattle.command_tables.specs.Channels.{WritesText};
ghost use Rattle.command_tables.specs.Views.{output_view};
ghost use Rattle.delta_cli.specs.Results.{StopsPrinting};

use command_tables::Refusal;
use delta_base::{OutOfMemory, Sink};
use sink_writing::write_all;

/// Writes a line, where there was memory to make it.
pub(crate) fn print_line<K: Sink>(
    line: Result<String, OutOfMemory>,
    out: &mut K,
) -> Result<(), Refusal>
    ensures done { (text : List ℕ) → IfOk line (λ line. line.bytes.items ≡ text)
        → OnOk result (WritesText
        (output_view K.Sink out.old) (output_view K.Sink out.new) text) }
    ensures stopped { (text : List ℕ) → IfOk line (λ line. line.bytes.items ≡ text)
        → IfErr result (StopsPrinting text
        (output_view K.Sink out.old) (output_view K.Sink out.new)) }
{
    match line {
        Ok(line) => write_all(out, line.as_bytes()).map_err(|_| Refusal::OutputFailed),
        Err(OutOfMemory) => Err(Refusal::OutOfMemory),
    }
}

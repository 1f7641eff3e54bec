//! The commands `--help` and `--version`.
ghost use Rattle.std.specs.Prelude.{IfErr, OnOk};
ghost use Rattle.command_tables.specs.Channels.{WritesText};
ghost use Rattle.command_tables.specs.Views.{output_view};
ghost use Rattle.command_tables.specs.Help.{help_text};
ghost use Rattle.delta_cli.specs.Results.{StopsWriting};

use command_tables::{Refusal, print_help};
use delta_base::Sink;
use sink_writing::write_all;

/// What `--version` writes.
pub const VERSION: &str = "rdfdelta 0.3.0\n";

/// Writes a text that is known.
pub fn print<K: Sink>(text: &str, out: &mut K) -> Result<(), Refusal>
    ensures done { OnOk result
        (WritesText (output_view K.Sink out.old) (output_view K.Sink out.new) text.now) }
    ensures stopped { IfErr result (λ refusal. StopsWriting text.now refusal
        (output_view K.Sink out.old) (output_view K.Sink out.new)) }
{
    write_all(out, text.as_bytes()).map_err(|_| Refusal::OutputFailed)
}

/// Writes what the commands are.
pub fn write_help<K: Sink>(out: &mut K) -> Result<(), Refusal>
    ensures done { OnOk result
        (WritesText (output_view K.Sink out.old) (output_view K.Sink out.new) help_text) }
    ensures stopped { IfErr result (λ refusal. StopsWriting help_text refusal
        (output_view K.Sink out.old) (output_view K.Sink out.new)) }
{
    print_help(out).map_err(|_| Refusal::OutputFailed)
}

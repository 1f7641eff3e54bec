//! The commands on a zone: its first file is made, or what is read of its two files is written.
ghost use Rattle.std.specs.Prelude.{ℕ, List, IfErr, OnOk};
ghost use Rattle.command_tables.specs.Channels.{WritesText};
ghost use Rattle.command_tables.specs.Views.{output_view, shelf_view};
ghost use Rattle.delta_cli.specs.Zones.{IsNewZone, KeepsZone, ReadsZone, SparesZone, StopsMaking};
ghost use Rattle.delta_cli.specs.Zones.{StopsZone, bytes_of};

use crate::replay::print_made;
use command_tables::Refusal;
use delta_base::{Sink, Text};
use disk_model::Shelf;
use slot_files::format_file;
use std::alloc::Global;
use zone_commands::{Reading, read_zone};
use zone_files::ZONE_NUMBER;

/// Makes the first file of a directory's zone.
pub fn make_zone<H: Shelf>(dir: &Text, shelf: &mut H) -> Result<(), Refusal>
    ensures done { OnOk result (H.tells
        → IsNewZone dir.now (H.files shelf.old) (H.files shelf.new)) }
    ensures stopped { IfErr result (StopsMaking dir.now H.tells
        (shelf_view H.Shelf shelf.old) (shelf_view H.Shelf shelf.new)) }
    ensures spares { SparesZone dir.now H.tells (H.files shelf.old) (H.files shelf.new) }
{
    match format_file(shelf, dir, ZONE_NUMBER) {
        Ok(()) => Ok(()),
        Err(fault) => Err(Refusal::of_init(fault)),
    }
}

/// Opens the zone of a directory, and writes what is read of it. Its files are left as they were.
pub fn print_zone<H: Shelf, K: Sink>(
    alloc: Global,
    dir: &Text,
    reading: &Reading,
    shelf: &mut H,
    out: &mut K,
) -> Result<(), Refusal>
    ensures done { OnOk result ((lines : List (List ℕ))
        × ReadsZone dir.now reading.now H.tells (H.files shelf.old) lines
        × WritesText (output_view K.Sink out.old) (output_view K.Sink out.new) (bytes_of lines)) }
    ensures stopped { IfErr result (StopsZone dir.now reading.now H.tells
        (shelf_view H.Shelf shelf.old) (shelf_view H.Shelf shelf.new)
        (output_view K.Sink out.old) (output_view K.Sink out.new)) }
    ensures keeps { KeepsZone dir.now H.tells (H.files shelf.old) (H.files shelf.new) }
{
    match read_zone(alloc, shelf, dir, reading) {
        Ok(lines) => print_made(alloc, &lines, out),
        Err(fault) => Err(Refusal::of_pair(fault)),
    }
}

//! The commands that look at the marker of an upgrade before they ask for other files.
ghost use Rattle.std.specs.Prelude.{◌≡◌, ◌⊎◌, ◌≤◌, ℕ, List, IfErr, OnOk};
ghost use Rattle.command_tables.specs.Addresses.{IsAddress};
ghost use Rattle.command_tables.specs.Channels.{IsSilent, WritesText};
ghost use Rattle.command_tables.specs.Markers.{SeesNoMark, StopsAtMark, Unmarked};
ghost use Rattle.command_tables.specs.Views.{output_view, shelf_view};
ghost use Rattle.delta_client.specs.Exchanges.{dial_view};
ghost use Rattle.slot_files.specs.Files.{IsInitial};
ghost use Rattle.slot_checks.specs.Lines.{lines_text};
ghost use Rattle.slot_checks.specs.declared.lines.FileLine.{FileLine};
ghost use Rattle.slot_checks.specs.declared.marker.TheConstants.{FILES_MARKER, ZONE_MARKER};
ghost use Rattle.delta_cli.specs.Checkpoints.{StopsCheckpoint, WritesCheckpoint};
ghost use Rattle.delta_cli.specs.Syncs.{CatchesUp, StopsSync};
ghost use Rattle.delta_cli.specs.Tool.{Reported, Spares, StopsCheck, StopsInit};
ghost use Rattle.delta_cli.specs.Zones.{IsNewZone, KeepsZone, ReadsZone, SparesZone, StopsMaking};
ghost use Rattle.delta_cli.specs.Zones.{StopsZone, bytes_of};

use crate::check::check;
use crate::checkpoint::checkpoint;
use crate::init::init;
use crate::sync::sync_zone;
use crate::zone::{make_zone, print_zone};
use command_tables::Refusal;
use delta_base::{Sink, Text};
use delta_client::Dial;
use disk_model::Shelf;
use slot_checks::{FILES_MARKER, ZONE_MARKER, check_marker};
use std::alloc::Global;
use zone_commands::Reading;

// Whether nothing stands in the marker with this number.
fn look<H: Shelf>(alloc: Global, dir: &Text, number: u32, shelf: &mut H) -> Result<(), Refusal>
    ensures sees { OnOk result (SeesNoMark dir.now number H.tells
        (shelf_view H.Shelf shelf.old) (shelf_view H.Shelf shelf.new)) }
    ensures stopped { IfErr result (StopsAtMark dir.now number H.tells
        (shelf_view H.Shelf shelf.old) (shelf_view H.Shelf shelf.new)) }
{
    match check_marker(alloc, shelf, dir, number) {
        Ok(()) => Ok(()),
        Err(fault) => Err(Refusal::of_check(fault)),
    }
}

/// Makes the files of so many slots.
pub fn init_unmarked<H: Shelf>(
    alloc: Global,
    dir: &Text,
    slots: u8,
    shelf: &mut H,
) -> Result<(), Refusal>
    requires some { 1 ≤ slots }
    requires few { slots ≤ 16 }
    ensures done { OnOk result (Unmarked dir.now FILES_MARKER H.tells (λ seen.
        (H.tells → IsInitial dir.now slots seen.files (H.files shelf.new))
        × Spares dir.now slots H.tells seen.files (H.files shelf.new))
        (shelf_view H.Shelf shelf.old)) }
    ensures stopped { IfErr result (λ refusal. StopsAtMark dir.now FILES_MARKER H.tells
        (shelf_view H.Shelf shelf.old) (shelf_view H.Shelf shelf.new) refusal
        ⊎ Unmarked dir.now FILES_MARKER H.tells (λ seen.
        StopsInit dir.now slots H.tells seen (shelf_view H.Shelf shelf.new) refusal
        × Spares dir.now slots H.tells seen.files (H.files shelf.new))
        (shelf_view H.Shelf shelf.old)) }
{
    match look(alloc, dir, FILES_MARKER, shelf) {
        Ok(()) => init(alloc, dir, slots, shelf),
        Err(refusal) => Err(refusal),
    }
}

/// Writes a line for each file of a directory.
pub fn check_unmarked<H: Shelf, K: Sink>(
    alloc: Global,
    dir: &Text,
    shelf: &mut H,
    out: &mut K,
) -> Result<(), Refusal>
    ensures done { OnOk result (Unmarked dir.now FILES_MARKER H.tells (λ seen.
        (report : List FileLine)
        × Reported dir.now H.tells seen.files (H.files shelf.new) report
        × WritesText
        (output_view K.Sink out.old) (output_view K.Sink out.new) (lines_text report))
        (shelf_view H.Shelf shelf.old)) }
    ensures stopped { IfErr result (λ refusal.
        (StopsAtMark dir.now FILES_MARKER H.tells
        (shelf_view H.Shelf shelf.old) (shelf_view H.Shelf shelf.new) refusal
        × IsSilent (output_view K.Sink out.old) (output_view K.Sink out.new))
        ⊎ Unmarked dir.now FILES_MARKER H.tells (λ seen.
        StopsCheck dir.now H.tells seen (shelf_view H.Shelf shelf.new)
        (output_view K.Sink out.old) (output_view K.Sink out.new) refusal)
        (shelf_view H.Shelf shelf.old)) }
{
    match look(alloc, dir, FILES_MARKER, shelf) {
        Ok(()) => check(alloc, dir, shelf, out),
        Err(refusal) => Err(refusal),
    }
}

/// Makes the first file of a directory's zone.
pub fn make_zone_unmarked<H: Shelf>(alloc: Global, dir: &Text, shelf: &mut H) -> Result<(), Refusal>
    ensures done { OnOk result (Unmarked dir.now ZONE_MARKER H.tells (λ seen.
        (H.tells → IsNewZone dir.now seen.files (H.files shelf.new))
        × SparesZone dir.now H.tells seen.files (H.files shelf.new))
        (shelf_view H.Shelf shelf.old)) }
    ensures stopped { IfErr result (λ refusal. StopsAtMark dir.now ZONE_MARKER H.tells
        (shelf_view H.Shelf shelf.old) (shelf_view H.Shelf shelf.new) refusal
        ⊎ Unmarked dir.now ZONE_MARKER H.tells (λ seen.
        StopsMaking dir.now H.tells seen (shelf_view H.Shelf shelf.new) refusal
        × SparesZone dir.now H.tells seen.files (H.files shelf.new))
        (shelf_view H.Shelf shelf.old)) }
{
    match look(alloc, dir, ZONE_MARKER, shelf) {
        Ok(()) => make_zone(dir, shelf),
        Err(refusal) => Err(refusal),
    }
}

/// Writes what is read of the zone of a directory.
pub fn print_zone_unmarked<H: Shelf, K: Sink>(
    alloc: Global,
    dir: &Text,
    reading: &Reading,
    shelf: &mut H,
    out: &mut K,
) -> Result<(), Refusal>
    ensures done { OnOk result (Unmarked dir.now ZONE_MARKER H.tells (λ seen.
        ((lines : List (List ℕ)) × ReadsZone dir.now reading.now H.tells seen.files lines
        × WritesText (output_view K.Sink out.old) (output_view K.Sink out.new) (bytes_of lines))
        × KeepsZone dir.now H.tells seen.files (H.files shelf.new))
        (shelf_view H.Shelf shelf.old)) }
    ensures stopped { IfErr result (λ refusal.
        (StopsAtMark dir.now ZONE_MARKER H.tells
        (shelf_view H.Shelf shelf.old) (shelf_view H.Shelf shelf.new) refusal
        × IsSilent (output_view K.Sink out.old) (output_view K.Sink out.new))
        ⊎ Unmarked dir.now ZONE_MARKER H.tells (λ seen.
        StopsZone dir.now reading.now H.tells seen (shelf_view H.Shelf shelf.new)
        (output_view K.Sink out.old) (output_view K.Sink out.new) refusal
        × KeepsZone dir.now H.tells seen.files (H.files shelf.new))
        (shelf_view H.Shelf shelf.old)) }
{
    match look(alloc, dir, ZONE_MARKER, shelf) {
        Ok(()) => print_zone(alloc, dir, reading, shelf, out),
        Err(refusal) => Err(refusal),
    }
}

/// Makes a checkpoint of the zone of a directory, and writes the version of which it is.
pub fn checkpoint_zone_unmarked<H: Shelf, K: Sink>(
    alloc: Global,
    dir: &Text,
    shelf: &mut H,
    out: &mut K,
) -> Result<(), Refusal>
    ensures done { OnOk result (Unmarked dir.now ZONE_MARKER H.tells (λ seen.
        WritesCheckpoint dir.now H.tells seen (shelf_view H.Shelf shelf.new)
        (output_view K.Sink out.old) (output_view K.Sink out.new))
        (shelf_view H.Shelf shelf.old)) }
    ensures stopped { IfErr result (λ refusal.
        (StopsAtMark dir.now ZONE_MARKER H.tells
        (shelf_view H.Shelf shelf.old) (shelf_view H.Shelf shelf.new) refusal
        × IsSilent (output_view K.Sink out.old) (output_view K.Sink out.new))
        ⊎ Unmarked dir.now ZONE_MARKER H.tells (λ seen.
        StopsCheckpoint dir.now H.tells seen (shelf_view H.Shelf shelf.new)
        (output_view K.Sink out.old) (output_view K.Sink out.new) refusal)
        (shelf_view H.Shelf shelf.old)) }
{
    match look(alloc, dir, ZONE_MARKER, shelf) {
        Ok(()) => checkpoint(alloc, dir, shelf, out),
        Err(refusal) => Err(refusal),
    }
}

/// Catches the zone of a directory up with a log of the server at an address.
pub fn sync_zone_unmarked<H: Shelf, N: Dial, K: Sink>(
    alloc: Global,
    dir: &Text,
    address: &Text,
    name: &Text,
    shelf: &mut H,
    net: &mut N,
    out: &mut K,
) -> Result<(), Refusal>
    requires { IsAddress address.now }
    ensures done { OnOk result (Unmarked dir.now ZONE_MARKER H.tells (λ seen.
        CatchesUp H.Shelf N.Dial N.L.Link dir.now address.now name.now
        seen (shelf_view H.Shelf shelf.new)
        (dial_view N.Dial net.old) (dial_view N.Dial net.new)
        (output_view K.Sink out.old) (output_view K.Sink out.new))
        (shelf_view H.Shelf shelf.old)) }
    ensures stopped { IfErr result (λ refusal.
        (StopsAtMark dir.now ZONE_MARKER H.tells
        (shelf_view H.Shelf shelf.old) (shelf_view H.Shelf shelf.new) refusal
        × (dial_view N.Dial net.new ≡ dial_view N.Dial net.old)
        × IsSilent (output_view K.Sink out.old) (output_view K.Sink out.new))
        ⊎ Unmarked dir.now ZONE_MARKER H.tells (λ seen.
        StopsSync H.Shelf N.Dial N.L.Link dir.now address.now name.now
        seen (shelf_view H.Shelf shelf.new)
        (dial_view N.Dial net.old) (dial_view N.Dial net.new)
        (output_view K.Sink out.old) (output_view K.Sink out.new) refusal)
        (shelf_view H.Shelf shelf.old)) }
{
    match look(alloc, dir, ZONE_MARKER, shelf) {
        Ok(()) => sync_zone(alloc, dir, address, name, shelf, net, out),
        Err(refusal) => Err(refusal),
    }
}

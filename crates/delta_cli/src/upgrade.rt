//! The commands `upgrade` and `upgrade_zone`: files of the old form are brought to the new one.
ghost use Rattle.std.specs.Prelude.{◌≡◌, IfErr, IfOk, OnOk};
ghost use Rattle.command_tables.specs.Channels.{WritesText};
ghost use Rattle.command_tables.specs.Views.{output_view, shelf_view};
ghost use Rattle.directory_upgrade.specs.Directories.{IsUpgradedDirectory, StopsUpgrade};
ghost use Rattle.directory_upgrade.specs.Zones.{IsUpgradedZone, StopsZoneUpgrade};
ghost use Rattle.delta_cli.specs.Results.{StopsPrinting};
ghost use Rattle.delta_cli.specs.Upgrades.{StopsUpgrading, UpgradesFiles, upgraded_line};

use command_tables::Refusal;
use delta_base::{OutOfMemory, Sink, Text};
use directory_upgrade::{upgrade_directory, upgrade_zone};
use disk_model::Shelf;
use journal_upgrade::Upgraded;
use sink_writing::write_all;
use std::alloc::Global;

/// Brings the files of a registry and of its logs to the new form, and writes how many had the old
/// one.
pub fn upgrade<H: Shelf, K: Sink>(
    alloc: Global,
    dir: &Text,
    shelf: &mut H,
    out: &mut K,
) -> Result<(), Refusal>
    ensures done { OnOk result (UpgradesFiles H.tells (IsUpgradedDirectory dir.now)
        (shelf_view H.Shelf shelf.old) (shelf_view H.Shelf shelf.new)
        (output_view K.Sink out.old) (output_view K.Sink out.new)) }
    ensures stopped { IfErr result (StopsUpgrading H.tells (IsUpgradedDirectory dir.now)
        (StopsUpgrade dir.now) (shelf_view H.Shelf shelf.old) (shelf_view H.Shelf shelf.new)
        (output_view K.Sink out.old) (output_view K.Sink out.new)) }
{
    match upgrade_directory(alloc, shelf, dir) {
        Ok(done) => print_upgraded(alloc, done, out),
        Err(fault) => Err(Refusal::of_check(fault)),
    }
}

/// The same of the files of a zone.
pub fn upgrade_zone_files<H: Shelf, K: Sink>(
    alloc: Global,
    dir: &Text,
    shelf: &mut H,
    out: &mut K,
) -> Result<(), Refusal>
    ensures done { OnOk result (UpgradesFiles H.tells (IsUpgradedZone dir.now)
        (shelf_view H.Shelf shelf.old) (shelf_view H.Shelf shelf.new)
        (output_view K.Sink out.old) (output_view K.Sink out.new)) }
    ensures stopped { IfErr result (StopsUpgrading H.tells (IsUpgradedZone dir.now)
        (StopsZoneUpgrade dir.now) (shelf_view H.Shelf shelf.old) (shelf_view H.Shelf shelf.new)
        (output_view K.Sink out.old) (output_view K.Sink out.new)) }
{
    match upgrade_zone(alloc, shelf, dir) {
        Ok(done) => print_upgraded(alloc, done, out),
        Err(fault) => Err(Refusal::of_check(fault)),
    }
}

// Writes what an upgrade did.
fn print_upgraded<K: Sink>(alloc: Global, done: Upgraded, out: &mut K) -> Result<(), Refusal>
    ensures done { OnOk result (WritesText
        (output_view K.Sink out.old) (output_view K.Sink out.new) (upgraded_line done)) }
    ensures stopped { IfErr result (StopsPrinting (upgraded_line done)
        (output_view K.Sink out.old) (output_view K.Sink out.new)) }
{
    let Ok(line) = line_of(alloc, done) else {
        return Err(Refusal::OutOfMemory);
    };
    write_all(out, line.as_slice()).map_err(|_| Refusal::OutputFailed)
}

fn line_of(alloc: Global, done: Upgraded) -> Result<Vec<u8>, OutOfMemory>
    ensures { IfOk result (λ line. line.items ≡ upgraded_line done) }
{
    match done {
        Upgraded::Files(count) => Ok(format!(in alloc; "upgraded {count} files\n")?.into_bytes()),
        Upgraded::Finished => Ok(b"upgrade finished\n".to_vec(alloc)?),
    }
}

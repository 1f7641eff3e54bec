//! Visits to the files of a zone, whose disks are put back.
ghost use Rattle.std.specs.Prelude.{◌≡◌, ℕ, ◌≤◌, ◌<◌, true, false, IfOk, IfErr, IsErrOf};
ghost use Rattle.delta_base.specs.Outside.{Rose};
ghost use Rattle.log_base.specs.declared.limits.TheConstants.{LOG_LIMITS};
ghost use Rattle.disk_model.specs.Past.{reads};
ghost use Rattle.zone_files.specs.Generation.{number_of};
ghost use Rattle.paired_zone.specs.Fault.{HasPairFault};
ghost use Rattle.paired_zone.specs.Opening.{FailsAtOne, RefusedDisk};
ghost use Rattle.zone_commands.specs.Disks.{KeepsZoneFiles, first_bytes, second_bytes};
ghost use Rattle.zone_commands.specs.Files.{HasFilesFault, HasZoneLines};
ghost use Rattle.zone_commands.specs.Readings.{lines_read};

use crate::disks::{put_back_disks, take_disks};
use crate::reading::Reading;
use dataset_tx::Pattern;
use delta_base::{OutOfMemory, Text};
use disk_model::{Disk, Shelf};
use line_log::MadeLines;
use log_base::LOG_LIMITS;
use paired_zone::{PairFault, PairRefusal, PairedZone};
use quad_index::Steps;
use std::alloc::Global;
use std::marker::Brand;
use std::sync::ledger::{Blank, Ledger};

// The lines of the quads that match.
fn matching<D: Disk, L: Ledger>(
    zone: &mut PairedZone<D>,
    pattern: &Pattern,
    blank: Blank,
) -> Result<MadeLines, OutOfMemory>
    requires name { blank.name ≡ L.name }
    requires parts { blank.parts ≡ L.parts }
    requires some { 0 < L.parts }
    ensures lines { IfOk result (λ lines.
        lines ≡ lines_read (Reading.Match pattern.now) zone.old.brief.contents) }
    ensures same { zone.new ≡ zone.old }
{
    let mut steps = Steps::<L>::new(blank);
    zone.matching_lines(pattern, &mut steps)
}

// What is read of the dataset of a zone.
fn lines_of<D: Disk>(zone: &mut PairedZone<D>, reading: &Reading) -> Result<MadeLines, OutOfMemory>
    ensures lines { IfOk result (λ lines.
        lines ≡ lines_read reading.now zone.old.brief.contents) }
    ensures same { zone.new ≡ zone.old }
{
    match reading {
        Reading::Dump => zone.lines(),
        Reading::Prefixes => zone.prefix_rows(),
        Reading::Match(pattern) => matching::<D, Brand>(zone, pattern, Blank::new(1)),
    }
}

/// What is read of the two files of a zone, and their disks.
pub fn read_files<D: Disk>(
    alloc: Global,
    first: D,
    second: D,
    reading: &Reading,
) -> (D, D, Result<MadeLines, PairFault>)
    ensures ok { D.tells → IfOk result.2 (λ lines. HasZoneLines
        (reads (D.past first)) (reads (D.past second)) reading.now lines) }
    ensures fault { D.tells → IfErr result.2
        (HasPairFault (reads (D.past first)) (reads (D.past second)) LOG_LIMITS) }
    ensures failed { IfErr result.2 FailsAtOne }
    ensures first { RefusedDisk D.Disk
        (IsErrOf result.2 (PairFault.Failed (number_of false))) first result.0 }
    ensures second { RefusedDisk D.Disk
        (IsErrOf result.2 (PairFault.Failed (number_of true))) second result.1 }
{
    match PairedZone::open_pair(alloc, first, second, LOG_LIMITS) {
        Ok(zone) => {
            let mut zone = zone;
            let lines = lines_of(&mut zone, reading);
            let (first, second) = zone.close();
            match lines {
                Ok(lines) => (first, second, Ok(lines)),
                Err(OutOfMemory) => (first, second, Err(PairFault::OutOfMemory)),
            }
        }
        Err(
            PairRefusal {
                first,
                second,
                fault,
            },
        ) => (first, second, Err(fault)),
    }
}

/// What is read of the zone of a directory. Its files are left as they were, and no other is asked
/// for.
pub fn read_zone<H: Shelf>(
    alloc: Global,
    shelf: &mut H,
    dir: &Text,
    reading: &Reading,
) -> Result<MadeLines, PairFault>
    ensures ok { H.tells → IfOk result (λ lines. HasZoneLines
        (first_bytes (H.files shelf.old) dir.now) (second_bytes (H.files shelf.old) dir.now)
        reading.now lines) }
    ensures fault { H.tells → IfErr result (HasFilesFault
        (first_bytes (H.files shelf.old) dir.now) (second_bytes (H.files shelf.old) dir.now)) }
    ensures kept { H.tells → KeepsZoneFiles dir.now (H.files shelf.old) (H.files shelf.new) }
    ensures cause { (file : ℕ) → IsErrOf result (PairFault.Failed file)
        → Rose (H.faults shelf.old) (H.faults shelf.new) }
    ensures faults { H.faults shelf.old ≤ H.faults shelf.new }
{
    match take_disks(shelf, dir) {
        Ok((first, second)) => {
            let (first, second, answer) = read_files(alloc, first, second, reading);
            put_back_disks(shelf, first, second);
            answer
        }
        Err(fault) => Err(fault),
    }
}

//! Finds the current file of two by what stands at their fronts.
ghost use Rattle.std.specs.Prelude.{◌≡◌, Some, None, true, false, IfOk, IfErr, if◌then◌else◌};
ghost use Rattle.disk_model.specs.Past.{reads};
ghost use Rattle.log_journal.specs.Written.{Reopened, RefusedOpening};
ghost use Rattle.zone_files.specs.Generation.{is_later};
ghost use Rattle.zone_files.specs.Pair.{IsEarlier};
ghost use Rattle.zone_beside.specs.Finding.{HasFindFault, IsCurrent};
ghost use Rattle.zone_beside.specs.Found.{first_of, second_of};
ghost use Rattle.zone_beside.specs.StandsBehind.{StandsBehind};

use crate::beside::Beside;
use crate::fault::FindFault;
use crate::looking::generations;
use disk_model::Disk;
use log_journal::FrontFault;
use std::alloc::Global;

/// The disk of the current file, and the file beside it.
#[derive(Drop)]
pub struct Found<D: Disk> {
    pub current: D,
    pub beside: Beside<D>,
}

/// Both disks, and why none is found to be that of the current file.
#[derive(Drop)]
pub struct FindRefusal<D: Disk> {
    pub first: D,
    pub second: D,
    pub fault: FindFault,
}

/// Finds the current file: that in the later generation, and the first where both are in the same.
/// No more than the fronts of both is read.
pub fn find_current<D: Disk>(alloc: Global, first: D, second: D) -> Result<Found<D>, FindRefusal<D>>
    ensures current { D.tells → IfOk result (λ found. IsCurrent (reads (D.past first))
        (reads (D.past second)) found.beside.on_second found.beside.generation) }
    ensures beside { IfOk result (λ found. StandsBehind found.beside None) }
    ensures fault { D.tells → IfErr result (λ refusal.
        HasFindFault (reads (D.past first)) (reads (D.past second)) refusal.fault) }

    // What becomes of the disks.
    ensures first { IfOk result (λ found. Reopened D.Disk first (first_of found) 81) }
    ensures second { IfOk result (λ found. Reopened D.Disk second (second_of found) 81) }
    ensures first_refused { IfErr result (λ refusal. RefusedOpening D.Disk
        (refusal.fault ≡ FindFault.AtFront false FrontFault.Failed) first refusal.first) }
    ensures second_refused { IfErr result (λ refusal. RefusedOpening D.Disk
        (refusal.fault ≡ FindFault.AtFront true FrontFault.Failed) second refusal.second) }
{
    let mut first = first;
    let mut second = second;
    match generations(alloc, &mut first, &mut second) {
        Ok((of_first, of_second)) => Ok(by_generations(first, second, of_first, of_second)),
        Err(fault) => Err(FindRefusal {
            first,
            second,
            fault,
        }),
    }
}

// The file in the later generation, and the other one beside it.
fn by_generations<D: Disk>(first: D, second: D, of_first: u64, of_second: Option<u64>) -> Found<D>
    ensures later { result.beside.on_second ≡ is_later (Some of_first) of_second }
    ensures generation { Some result.beside.generation
        ≡ (if result.beside.on_second then of_second else Some of_first) }
    ensures earlier { IsEarlier result.beside.on_second result.beside.generation
        (if result.beside.on_second then Some of_first else of_second) }
    ensures settled { result.beside.doubtful ≡ false }
    ensures first { first_of result ≡ first }
    ensures second { second_of result ≡ second }
{
    match of_second {
        Some(generation) if of_first < generation => Found {
            current: second,
            beside: Beside {
                on_second: true,
                generation,
                disk: first,
                doubtful: false,
            },
        },
        _ => Found {
            current: first,
            beside: Beside {
                on_second: false,
                generation: of_first,
                disk: second,
                doubtful: false,
            },
        },
    }
}

//! The files of an upgrade.
ghost use Rattle.std.specs.Prelude.{◌↔◌, All, IsTrue};
ghost use Rattle.journal_upgrade.specs.Numbers.{IsFileNumber, Differ};

use delta_base::{Calls, Listing};
use disk_model::Disk;

/// Disks in an order.
pub type Disks<D> = Listing<D>;

/// Files with their spares, and the marker that says that the spares are whole. The file at a
/// place has the number at that place, and its spare has that number plus 2000.
#[derive(Drop)]
pub struct UpgradeSet<D: Disk> {
    pub files: Disks<D>,
    pub spares: Disks<D>,
    pub marker: D,
    pub marker_number: u32,
    pub numbers: Calls,
}

// Whether it is the number of a registry, a log or a zone.
fn is_file_number(number: u64) -> bool
    ensures { IsTrue result ↔ IsFileNumber number }
{
    number <= 16 || number == 1000 || number == 1001
}

fn are_file_numbers(numbers: &[u64]) -> bool
    ensures { IsTrue result ↔ All IsFileNumber numbers.now }
{
    numbers.iter().all(|number| is_file_number(*number))
}

// Whether no two are the same.
fn differ(numbers: &[u64]) -> bool
    ensures { IsTrue result ↔ Differ numbers.now }
{
    for (i, number) in numbers.iter().enumerate() {
        if numbers[..i].contains(number) {
            return false;
        }
    }
    true
}

impl<D: Disk> UpgradeSet<D> {
    ghost use Rattle.std.specs.Prelude.{◌↔◌, IsTrue};
    ghost use Rattle.journal_upgrade.specs.Numbers.{IsSet};

    /// Whether there are a file and a spare for each number, and each number is one of a file, and
    /// its own.
    pub fn is_whole(&self) -> bool
        ensures { IsTrue result
            ↔ IsSet self.now.files.items self.now.spares.items self.now.numbers.items }
    {
        let numbers = self.numbers.as_slice();
        self.files.len() == numbers.len()
            && self.spares.len() == numbers.len()
            && are_file_numbers(numbers)
            && differ(numbers)
    }
}

//! Words that are numbers.
ghost use Rattle.std.specs.Prelude.{IfOk};
ghost use Rattle.command_tables.specs.Names.{IsNumberIn};

use delta_base::OutOfMemory;
use std::alloc::Global;

/// The number that a word is, of those from the one to the other. A number is written in one way.
pub fn number_in(alloc: Global, low: u32, high: u32, word: &str) -> Result<Option<u32>, OutOfMemory>
    ensures { IfOk result (IsNumberIn low high word.now) }
{
    let Ok(number) = word.parse::<u32>() else {
        return Ok(None);
    };
    if number < low || high < number {
        return Ok(None);
    }
    let text = format!(in alloc; "{number}")?;
    if text.as_str() == word {
        Ok(Some(number))
    } else {
        Ok(None)
    }
}

//! The words of a command.
use csv::ByteRecord;

/// A command's words: the first one names it, and its arguments are counted from 1.
#[derive(Drop)]
pub struct Words {
    pub(crate) words: ByteRecord,
}

impl Words {
    /// The word at a place, or no bytes where there is none.
    pub fn bytes(&self, place: usize) -> &[u8] {
        self.words.get(place).unwrap_or(b"")
    }

    /// The name of the command.
    pub fn name(&self) -> &[u8] {
        self.bytes(0)
    }

    /// The command that has the name.
    pub fn command<C: Copy>(&self, commands: &[(&str, C)]) -> Option<C> {
        for (name, command) in commands {
            if name.as_bytes() == self.name() {
                return Some(*command);
            }
        }
        None
    }

    /// The words from a place on, one behind another.
    pub fn bytes_from(&self, place: usize) -> &[u8] {
        let mut start = 0usize;
        for word in self.words.iter().take(place) {
            start = start.saturating_add(word.len());
        }
        self.words.as_slice().get(start..).unwrap_or(b"")
    }

    /// How many arguments there are.
    pub fn count(&self) -> usize {
        self.words.len().saturating_sub(1)
    }

    /// The decimal number at a place.
    pub fn number(&self, place: usize) -> Option<u64> {
        read_number(self.bytes(place))
    }
}

/// The number that a word is.
pub(crate) fn read_number(word: &[u8]) -> Option<u64> {
    let digits = str::from_utf8(word).ok()?;
    digits.parse().ok()
}

//! What comes of one number after another, told where it is something else than of the one before.
use case_scripts::Answer as Told;
use std::alloc::Global;
use std::fmt::Write;

#[derive(Drop)]
pub(crate) struct Changes<'a> {
    /// What stands between two of them.
    sign: &'static [u8],
    last: Told,
    told: &'a mut Told,
}

impl<'a> Changes<'a> {
    pub(crate) fn new(alloc: Global, sign: &'static [u8], told: &'a mut Told) -> Changes<'a> {
        Changes {
            sign,
            last: Told::new(alloc),
            told,
        }
    }

    /// Adds what comes of a number.
    pub(crate) fn add(&mut self, number: u64, next: Told) {
        if next.bytes() != self.last.bytes() {
            if number > 0 {
                self.told.push(self.sign);
            }
            let _ = write!(self.told, "{number} ");
            self.told.push(next.bytes());
        }
        self.last = next;
    }
}

//! The texts that a script names, and what its words stand for.
use bstr::ByteVec;
use std::alloc::{AllocError, Global};
use std::collections::BTreeMap;

/// Texts by their names: `$NAME` stands for one. A name may be given again, and the last text counts.
#[derive(Drop)]
pub(crate) struct Texts {
    alloc: Global,
    named: BTreeMap<String, Vec<u8>>,
}

impl Texts {
    pub(crate) fn new(alloc: Global) -> Texts {
        Texts {
            alloc,
            named: BTreeMap::new(alloc),
        }
    }

    /// Names a text.
    pub(crate) fn name(&mut self, name: &[u8], text: Vec<u8>) -> Result<(), AllocError> {
        let name = String::from_utf8_lossy(self.alloc, name)?;
        self.named.insert(name, text)?;
        Ok(())
    }

    // The text that a word names.
    fn find(&self, word: &str) -> Option<&[u8]> {
        let name = word.strip_prefix('$')?;
        let text = self.named.get(name)?;
        Some(text.as_slice())
    }

    /// The bytes that a word stands for.
    pub(crate) fn expand(&self, word: &[u8]) -> Result<Vec<u8>, AllocError> {
        match str::from_utf8(word) {
            Ok(word) => match self.find(word) {
                Some(text) => text.to_vec(self.alloc),
                None => Vec::unescape_bytes(self.alloc, word),
            },
            Err(_) => word.to_vec(self.alloc),
        }
    }
}

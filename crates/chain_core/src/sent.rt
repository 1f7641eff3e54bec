//! Patches as a decision reads them.
use crate::chain::Patch;
use log_base::{ChainLink, Sent};

impl Sent for Patch {
    ghost link_sent = { λ patch. record { id = patch.id; prev = patch.prev } };

    ghost text_sent = { λ patch. patch.text };

    fn link(&self) -> ChainLink {
        ChainLink {
            id: self.id,
            prev: self.prev,
        }
    }

    fn text(&self) -> &[u8] {
        self.text.as_slice()
    }
}

// A patch of which the link was read.
#[derive(Drop)]
pub(crate) struct LinkedText<'a> {
    pub(crate) link: ChainLink,
    pub(crate) text: &'a [u8],
}

impl<'a> Sent for LinkedText<'a> {
    ghost link_sent = { λ sent. sent.link };

    ghost text_sent = { λ sent. sent.text.now };

    fn link(&self) -> ChainLink {
        self.link
    }

    fn text(&self) -> &[u8] {
        self.text
    }
}

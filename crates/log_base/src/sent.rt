//! Patches as a decision reads them.
ghost use Rattle.std.specs.Prelude.{◌≡◌, ℕ, List};
ghost use Rattle.log_base.specs.declared.chain_link.ChainLink.{ChainLink as LinkSent};

use crate::chain_link::ChainLink;

/// A patch, or something that has one.
pub trait Sent {
    /// Its two ids.
    ghost link_sent: { Self → LinkSent };
    /// Its text.
    ghost text_sent: { Self → List ℕ };

    fn link(&self) -> ChainLink
        ensures { result ≡ link_sent self.now };

    fn text(&self) -> &[u8]
        ensures { result.now ≡ text_sent self.now };
}

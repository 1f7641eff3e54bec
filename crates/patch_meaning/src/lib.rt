//! Patches: what the rows of a text say together (`specs/Patch.antt`), and the first fault of a
//! text that is no patch.
#![tactic(auto)]

mod checked;
mod cut;
mod draft;
mod fault;
mod laws;
mod link;
mod part;
mod role;
mod rows;
mod stream;

pub use checked::{Checked, check_patch};
pub use fault::{PatchFault, PatchKind};
pub use laws::{
    patches_are_settled, patches_are_streams, streams_are_settled, streams_are_their_patches,
};
pub use link::check_link;
pub use part::Part;
pub use role::{Role, found_role, role_of};
pub use stream::{Linked, split_links};

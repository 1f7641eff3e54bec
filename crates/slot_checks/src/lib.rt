//! Checks the files of a registry and of its logs, and the marker of an upgrade. Each is left as it
//! was.
#![tactic(auto)]

mod checking;
mod fault;
mod fault_lines;
mod lines;
mod log_file;
mod marker;
mod registry_file;
mod visiting;

pub use checking::check_files;
pub use fault::CheckFault;
pub use fault_lines::fault_text;
pub use lines::{FileLine, Report, push_id, report_text};
pub use marker::{FILES_MARKER, ZONE_MARKER, check_marker};
pub use registry_file::{RegistryFile, read_registry_file};

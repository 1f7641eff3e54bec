//! What logs and registries speak of: a patch's two ids, limits, the phases of an append, and
//! what is told of a source.
#![tactic(auto)]

mod chain_link;
mod limits;
mod log_info;
mod phase;
mod sent;
mod source_info;

pub use chain_link::ChainLink;
pub use limits::{
    EMPTY_JOURNAL, FullKind, LOG_BYTES, LOG_LIMITS, LOG_PATCHES, LogLimits, MOST_SLOTS,
    OLD_LOG_BYTES, OLD_REGISTRY_LIMIT, OLD_ZONE_FILE_LIMIT, PATCH_LIMIT, PAYLOAD_FRAME,
    REGISTRY_LIMIT, ZONE_FILE_LIMIT,
};
pub use log_info::LogInfo;
pub use phase::Phase;
pub use sent::Sent;
pub use source_info::{SourceInfo, Sources};

//! How much the files of a server may hold.

/// What is full.
#[derive(Clone, Copy, Debug, PartialEq, Eq)]
pub enum FullKind {
    Patches,
    Bytes,
    Slots,
}

/// The most patches of a log, and the most bytes of its journal.
#[derive(Clone, Copy, Debug, PartialEq, Eq)]
pub struct LogLimits {
    pub patches: u32,
    pub bytes: u64,
}

/// The most bytes of a patch's text.
pub const PATCH_LIMIT: u64 = 4_194_304;

/// The most patches of a server's log.
pub const LOG_PATCHES: u32 = 262_144;

/// The most bytes of the journal of a server's log.
pub const LOG_BYTES: u64 = 268_435_456;

/// The limits of a server's logs.
pub const LOG_LIMITS: LogLimits = LogLimits {
    patches: LOG_PATCHES,
    bytes: LOG_BYTES,
};

/// The most bytes of a registry's journal.
pub const REGISTRY_LIMIT: u64 = 2_097_152;

/// The most slots of a registry, each with a log.
pub const MOST_SLOTS: u32 = 16;

/// The bytes of a journal without payloads: its header and a gate.
pub const EMPTY_JOURNAL: u64 = 9;

/// The bytes that a journal has for a payload beside the payload: its running number, its
/// length and the gate behind it.
pub const PAYLOAD_FRAME: u64 = 9;

/// The most bytes of a zone's file, which has a checkpoint and all later patches.
pub const ZONE_FILE_LIMIT: u64 = 805_306_368;

/// The most bytes of the journal of a log, of a registry and of a zone in the form of files before
/// this one.
pub const OLD_LOG_BYTES: u64 = 67_108_864;

pub const OLD_REGISTRY_LIMIT: u64 = 1_048_576;

pub const OLD_ZONE_FILE_LIMIT: u64 = 268_435_456;

//! How a session ends.

/// Why a session over a link ended.
#[derive(Clone, Copy, Debug, PartialEq, Eq)]
pub enum SessionEnd {
    /// The bytes end between two requests.
    Closed,
    /// A request asked for it.
    Asked,
    /// As many requests were answered as a session may have.
    Spent,
    /// What came is no request.
    Refused { status: u16 },
    /// The bytes end inside a request.
    CutShort,
    LinkFault,
    OutOfMemory,
}

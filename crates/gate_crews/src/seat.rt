//! What a worker has for itself.

/// The pass by which a worker knows what is shared, and the net over which it asks a peer.
#[derive(Drop)]
pub struct Seat<P, N> {
    pub pass: P,
    pub net: N,
}

//! A server's endpoints.

/// A server's endpoints; it owns the folder's name.
#[derive(Debug, Drop)]
pub enum OwnedEndpoints {
    /// At 18 ports from this one on.
    Ports(u16),
    /// At the 18 sockets of this folder.
    Sockets(String),
}

//! A server's endpoints, as words name them.

/// A server's endpoints, as words name them.
#[derive(Clone, Copy, Debug, PartialEq, Eq)]
pub enum Endpoints<'a> {
    /// At 18 ports from this one on.
    Ports(u16),
    /// At the 18 sockets of this folder.
    Sockets(&'a str),
}

//! Roles.

/// What the slot of a connection may ask for.
#[derive(Clone, Copy, Debug, PartialEq, Eq)]
pub enum Role {
    /// An operator: ACK, RESET, SHELVE, UNSHELVE and OOS.
    Console,
    /// The process: VALUE and DESIGN.
    Feed,
    /// The clock: CLOCK.
    Clock,
}

//! What is reported with recalled events.

/// The place of recalled events among all actions of a plant.
#[derive(Clone, Copy, Debug, PartialEq, Eq)]
pub struct Recalled {
    /// How many actions the plant has had.
    pub count: u64,
    /// The number of the first event that is reported, or that would be. Each other one's is one more.
    pub first: u64,
}

//! Orders of lists.

ghost use Rattle.std.specs.Prelude.{◌≡◌};

use alm_state::Row;

/// What a list is ordered by, before the number.
#[derive(Clone, Copy)]
pub enum Order {
    Stamp,
    Deadline,
}

impl Order {
    ghost use Rattle.alm_model.specs.Ordering.{key_by};

    /// The key of a row.
    pub fn key(self, row: &Row) -> u64
        ensures { result ≡ key_by self row.now }
    {
        match self {
            Order::Stamp => row.stamp,
            Order::Deadline => row.shelved_until.unwrap_or(0),
        }
    }
}

//! Faults of tables.

/// What is wrong with a table.
#[derive(Clone, Copy, Debug, PartialEq, Eq)]
pub enum TableFault {
    /// It has no alarm.
    NoRows,
    /// It has more than 16,384 alarms.
    TooManyRows,
    /// It has no area, or more than 64.
    Areas,
    /// The alarm of this number, the first such, is in an area that does not exist.
    AreaOf(u32),
}

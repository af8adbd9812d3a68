//! Definitions for lists of numbers and their laws, for the crates that keep lists of alarms.
//!
//! | file | words |
//! |---|---|
//! | `specs/Lists.antt` | how often a number is in a list; neighbours; a list with a number more or less |
//! | `specs/Orders.antt` | lists in the order of a key; the sorted filter of a range |
//!
//! Lists that are kept in order, such as the alarms of a priority by stamp, are shown to be `IsSortedFilter`. They rise
//! by a key, and consist of exactly the numbers that pass a test, each once. There is only one such list, the filter
//! sorted by the key (`sorted_filter-is` in `proofs/Sorted.antt`).
//!
//! The crate has no code, so there is nothing to call, and no body that could be wrong. A law is proved here if a contract of another crate needs it.
#![tactic(auto)]
